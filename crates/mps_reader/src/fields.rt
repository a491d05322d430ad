// The fields of a card of data, of either form.
ghost use Rattle.std.specs.Prelude.{◌≡◌, ◌∷◌, ◌++◌, ◌==◌, ◌≤◌, ◌||◌, ℕ, List, [], length, replicate, IfOk, MatchResult, Ok};
ghost use Rattle.lp_text.specs.Cards.{field_of};
ghost use Rattle.mps_model.specs.CardFields.{bound_tokens, fixed_fields, free_fields, is_marker, named_pairs, pairs_of_set};
ghost use Rattle.mps_model.specs.declared.Section.{Section};
ghost use Rattle.mps_reader.specs.Inner.Laid.{laid, laid_out};
ghost use Rattle.mps_reader.specs.Inner.Refusals.{line_fault};
ghost use Rattle.mps_reader.specs.Inner.Standing.{IsFound, IsSpelled};

use crate::bounds::{has_number, kind_of};
use crate::refusal::Refusal;
use lp_text::LineFault;
use mps_cards::Fields;
use mps_free::Tokens;
use mps_model::{BoundKind, Section};
use std::marker::Model;

// The fields of a card of data: a kind, a set's or a column's name, and one or two pairs.
#[derive(Drop)]
pub(crate) struct CardFields {
    cut: Cut,
}

// What the fields are cut from.
#[derive(Drop)]
enum Cut {
    Columns(Fields),
    Tokens(Tokens, Layout),
}

// Which fields the tokens of a card are, in their order.
#[derive(Clone, Copy, Debug, PartialEq, Eq)]
enum Layout {
    // All from the first.
    Whole,
    // All from the second.
    WithoutKind,
    // All from the third.
    WithoutSet,
    // The first, and then all from the third.
    KindWithoutSet,
}

impl Model for CardFields {
    ghost use Rattle.std.specs.Prelude.{List, ℕ};

    ghost Value = { List (List ℕ) };

    ghost use Rattle.mps_reader.specs.Inner.Laid.{fields_of};

    ghost view = { λ f. fields_of f.cut };
}

impl CardFields {
    // A field, counted from 1.
    pub(crate) fn get(&self, field: usize) -> &[u8]
        requires low { 1 ≤ field }
        requires high { field ≤ 6 }
        ensures { result.now ≡ field_of self.now field }
    {
        match &self.cut {
            Cut::Columns(fields) => fields.get(field),
            Cut::Tokens(tokens, layout) => field_in(tokens, *layout, field),
        }
    }
}

// A field of tokens, counted from 1.
fn field_in(tokens: &Tokens, layout: Layout, field: usize) -> &[u8]
    requires { 1 ≤ field }
    ensures { result.now ≡ field_of (laid_out layout tokens.now) field }
{
    match layout {
        Layout::Whole => token(tokens, field),
        Layout::WithoutKind => field_behind(tokens, 1, field),
        Layout::WithoutSet => field_behind(tokens, 2, field),
        Layout::KindWithoutSet if field == 1 => token(tokens, 1),
        Layout::KindWithoutSet if field == 2 => b"",
        Layout::KindWithoutSet => field_behind(tokens, 1, field),
    }
}

// A field of tokens behind so many empty fields.
fn field_behind(tokens: &Tokens, empty: usize, field: usize) -> &[u8]
    requires { 1 ≤ field }
    ensures { result.now ≡ field_of (replicate empty [] ++ tokens.now) field }
{
    if field <= empty {
        return b"";
    }
    token(tokens, field - empty)
}

// A token, counted from 1. It is empty where there are not so many.
pub(crate) fn token(tokens: &Tokens, number: usize) -> &[u8]
    requires { 1 ≤ number }
    ensures { result.now ≡ field_of tokens.now number }
{
    if tokens.count() < number {
        return b"";
    }
    tokens.get(number - 1)
}

// Whether the text marks integer columns.
#[tactic(auto, using(crate::proofs::Marks::same))]
fn is_marker(text: &[u8]) -> bool
    ensures { result ≡ is_marker text.now }
{
    text == b"'MARKER'".as_slice()
}

// Whether a card in fixed columns marks integer columns.
fn has_marker(fields: &Fields) -> bool
    ensures { result ≡ (is_marker (field_of fields.now 3) || is_marker (field_of fields.now 4)) }
{
    is_marker(fields.get(3)) || is_marker(fields.get(4))
}

// The fields of a card in fixed columns, in a section.
pub(crate) fn fixed_fields(section: Section, fields: Fields) -> Result<CardFields, Refusal>
    ensures judged { (begun : List Section) → MatchResult result (λ found. fixed_fields (section ∷ begun) fields ≡ Ok found)
        (λ refusal. IsFound (fixed_fields (section ∷ begun) fields) (line_fault refusal)) }
    ensures same { IfOk result (λ found. found ≡ fields) }
{
    if let Section::Columns = section {
        if has_marker(&fields) {
            return Err(Refusal::Fault(LineFault::Integer));
        }
    }
    Ok(CardFields {
        cut: Cut::Columns(fields),
    })
}

// The fields of a card in free form, in a section.
pub(crate) fn free_fields(section: Section, tokens: Tokens) -> Result<CardFields, Refusal>
    ensures judged { (begun : List Section) → MatchResult result (λ found. free_fields (section ∷ begun) tokens ≡ Ok found)
        (λ refusal. IsFound (free_fields (section ∷ begun) tokens) (line_fault refusal)) }
    ensures spelled { ((number : ℕ) → IsSpelled (field_of tokens number)) → IfOk result (λ found. IsSpelled (field_of found 2)) }
{
    match layout_in(section, &tokens)? {
        Some(layout) => Ok(CardFields {
            cut: Cut::Tokens(tokens, layout),
        }),
        None => Err(Refusal::Fault(LineFault::Token)),
    }
}

// How the tokens of a card are laid out in a section, where their number is right.
fn layout_in(section: Section, tokens: &Tokens) -> Result<Option<Layout>, Refusal>
    ensures { (begun : List Section) → MatchResult result (λ layout. laid layout tokens.now ≡ free_fields (section ∷ begun) tokens.now)
        (λ refusal. IsFound (free_fields (section ∷ begun) tokens.now) (line_fault refusal)) }
{
    let count = tokens.count();
    match section {
        Section::Rows => Ok((count == 2).then_some(Layout::Whole)),
        Section::Columns => {
            if is_marker(token(tokens, 2)) {
                return Err(Refusal::Fault(LineFault::Integer));
            }
            Ok(pairs_layout(count))
        }
        Section::RightSides | Section::Ranges => Ok(set_layout(count)),
        Section::Bounds => {
            let kind = kind_of(token(tokens, 1))?;
            Ok(bound_layout(kind, count))
        }
        Section::Title | Section::ObjectiveSense | Section::Finish => Ok(Some(Layout::Whole)),
    }
}

// How a name and so many tokens of pairs are laid out.
fn pairs_layout(count: usize) -> Option<Layout>
    ensures { (tokens : List (List ℕ)) → count ≡ length tokens → laid result tokens ≡ named_pairs tokens }
{
    (count == 3 || count == 5).then_some(Layout::WithoutKind)
}

// The same where the name is a set's, which may be missing.
fn set_layout(count: usize) -> Option<Layout>
    ensures { (tokens : List (List ℕ)) → count ≡ length tokens → laid result tokens ≡ pairs_of_set tokens }
{
    if count % 2 == 0 {
        (count == 2 || count == 4).then_some(Layout::WithoutSet)
    } else {
        pairs_layout(count)
    }
}

// How so many tokens of a bound are laid out.
fn bound_layout(kind: BoundKind, count: usize) -> Option<Layout>
    ensures { (tokens : List (List ℕ)) → count ≡ length tokens → laid result tokens ≡ bound_tokens kind tokens }
{
    let has_number = has_number(kind);
    if count == (if has_number { 3 } else { 2 }) {
        return Some(Layout::KindWithoutSet);
    }
    (count == 4 || (count == 3 && !has_number)).then_some(Layout::Whole)
}

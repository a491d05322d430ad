//! The parts of a line, which blanks keep apart.
ghost use Rattle.std.specs.Prelude.{◌≡◌, ◌↔◌, IsTrue, Some, length};
ghost use Rattle.std.specs.Option.{option_map};
ghost use Rattle.report_lines.specs.Judged.{part};
ghost use Rattle.report_lines.specs.Inner.{Splits};

// The first part, and what follows its blank, where there is one.
pub fn split(text: &[u8]) -> (&[u8], Option<&[u8]>)
    ensures first { result.0.now ≡ part text.now }
    ensures rest { Splits text.now result.1 }
{
    let end = first_len(text);
    let (first, rest) = (&text[..end], &text[end..]);
    match rest {
        [] => (first, None),
        [_, rest @ ..] => (first, Some(rest)),
    }
}

// How long the first part is.
fn first_len(text: &[u8]) -> usize
    ensures { result ≡ length (part text.now) }
{
    text.iter().take_while(|byte| **byte != b' ').count()
}

// Whether a name is given, and is this one.
pub fn is_name(given: Option<&[u8]>, name: &[u8]) -> bool
    ensures { IsTrue result ↔ (option_map (λ g. g.now) given.entry ≡ Some name.now) }
{
    match given {
        None => false,
        Some(given) => given == name,
    }
}

//! What the words of an option set.
ghost use Rattle.std.specs.Prelude.{◌≡◌, ◌≤◌, ⊤, ◌∷◌, length, map, MatchOption, None, Some};
ghost use Rattle.std.specs.String.{string_bytes};
ghost use Rattle.std.specs.Str.{bytes_eq};
ghost use Rattle.lp_words.specs.Words.{followed_by, numbered, settings_of, single, takes_number};

use crate::number::number;

// What an option of `solve` sets.
#[derive(Clone, Copy)]
pub enum Setting {
    Workers(u32),
    Reinverters(u32),
    Budget(u32),
    Report(u32),
    Log,
    Free,
}

// What the first option of these words sets, and the words after it.
pub fn first<'a>(word: &String, after: &'a [String]) -> Option<(Setting, &'a [String])>
    ensures setting { MatchOption result (settings_of (string_bytes word.now ∷ map string_bytes after.entry.now) ≡ None)
        (λ r. settings_of (string_bytes word.now ∷ map string_bytes after.entry.now) ≡ followed_by (Some r.0) (settings_of (map string_bytes r.1.now))) }
    ensures left { MatchOption result (⊤) (λ r. length r.1.now ≤ length after.entry.now) }
{
    if let [next, left @ ..] = after
        && takes_number(word.as_str())
    {
        return Some((numbered(word.as_str(), next.as_str())?, left));
    }
    Some((single(word.as_str())?, after))
}

// Whether the two texts are the same.
pub fn is_text(word: &str, text: &str) -> bool
    ensures { result ≡ bytes_eq word.now text.now }
{
    word == text
}

// Whether this is the name of an option with a number.
fn takes_number(name: &str) -> bool
    ensures { result ≡ takes_number name.now }
{
    is_text(name, "--workers")
        || is_text(name, "--reinverters")
        || is_text(name, "--budget")
        || is_text(name, "--report")
}

// What an option and the text of its number set.
fn numbered(name: &str, text: &str) -> Option<Setting>
    ensures { result ≡ numbered name.now text.now }
{
    if is_text(name, "--workers") {
        return Some(Setting::Workers(number(text, 0, 64)?));
    }
    if is_text(name, "--reinverters") {
        return Some(Setting::Reinverters(number(text, 0, 8)?));
    }
    if is_text(name, "--budget") {
        return Some(Setting::Budget(number(text, 0, 1_000_000)?));
    }
    if is_text(name, "--report") {
        return Some(Setting::Report(number(text, 1, 2)?));
    }
    None
}

// What a word sets by itself.
fn single(word: &str) -> Option<Setting>
    ensures { result ≡ single word.now }
{
    if is_text(word, "--log") {
        return Some(Setting::Log);
    }
    if is_text(word, "--free") {
        return Some(Setting::Free);
    }
    let (name, text) = word.split_once('=')?;
    numbered(name, text)
}

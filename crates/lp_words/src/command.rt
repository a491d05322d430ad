//! The command and what follows it.
ghost use Rattle.std.specs.Prelude.{◌≡◌, map};
ghost use Rattle.std.specs.String.{string_bytes};
ghost use Rattle.lp_words.specs.Words.{free_of, size_of, wish_of};

use crate::given::Given;
use crate::number::number;
use crate::setting::is_text;
use crate::wishes::Wish;

// What the words wish for.
pub fn wished(words: &[String]) -> Option<Wish>
    ensures { result ≡ wish_of (map string_bytes words.now) }
{
    let [command, words @ ..] = words else {
        return None;
    };
    let command = command.as_str();
    if is_text(command, "solve") {
        return Some(Given::of(words)?.solve());
    }
    if is_text(command, "check") {
        return Some(Wish::Check { free: free(words)? });
    }
    if is_text(command, "deck") {
        return Some(Wish::Deck { free: free(words)? });
    }
    if is_text(command, "make") {
        return Some(Wish::Make(size(words)?));
    }
    if is_text(command, "range") {
        return Some(Wish::Range { free: free(words)? });
    }
    if is_text(command, "audit") {
        return Some(Wish::Audit { free: free(words)? });
    }
    None
}

// Whether `--free` is given, which is the only option.
fn free(words: &[String]) -> Option<bool>
    ensures { result ≡ free_of (map string_bytes words.now) }
{
    match words {
        [] => Some(false),
        [word] if is_text(word.as_str(), "--free") => Some(true),
        _ => None,
    }
}

// The number that is the only word.
fn size(words: &[String]) -> Option<u32>
    ensures { result ≡ size_of (map string_bytes words.now) }
{
    match words {
        [word] => number(word.as_str(), 1, 20),
        _ => None,
    }
}

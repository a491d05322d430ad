ghost use Rattle.std.specs.Prelude.{◌≡◌, map};
ghost use Rattle.std.specs.Char.{to_ascii_lowercase};
ghost use Rattle.lp_model.specs.Edit.{same_bytes};
ghost use Rattle.lp_text.specs.Senses.{sense_of};

use lp_model::Sense;

/// The sense of a word: MAX, MAXIMIZE or MAXIMISE, or MIN, MINIMIZE or MINIMISE, in any mix of letter case.
pub fn sense_of(word: &[u8]) -> Option<Sense>
    ensures { result ≡ sense_of word.now }
{
    if spells(word, b"max") || spells(word, b"maximize") || spells(word, b"maximise") {
        Some(Sense::Max)
    } else if spells(word, b"min") || spells(word, b"minimize") || spells(word, b"minimise") {
        Some(Sense::Min)
    } else {
        None
    }
}

/// Whether a word in any mix of letter case is this one, which is in small letters.
fn spells(word: &[u8], small: &[u8]) -> bool
    requires { map to_ascii_lowercase small.now ≡ small.now }
    ensures { result ≡ same_bytes (map to_ascii_lowercase word.now) small.now }
{
    word.eq_ignore_ascii_case(small)
}

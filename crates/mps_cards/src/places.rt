ghost use Rattle.std.specs.Prelude.{◌≡◌, ◌≢◌, ◌<◌, ◌≤◌, length, take, slice_index};
ghost use Rattle.std.specs.List.{All};

use memchr::memchr;

/// The place of the first such byte, or the length where there is none.
pub(crate) fn first_place(bytes: &[u8], byte: u8) -> usize
    ensures within { result ≤ length bytes.now }
    ensures before { All (λ c. c ≢ byte) (take result bytes.now) }
    ensures found { result < length bytes.now → slice_index bytes.now result ≡ byte }
{
    memchr(byte, bytes).unwrap_or(bytes.len())
}

//! The text cut at its line feeds.

ghost use Rattle.std.specs.Prelude.{◌≡◌, ◌≤◌, ◌<◌, length, IfSome};
ghost use Rattle.flow_text.specs.Text as text_specs;

/// How many bytes stand before the first of this value.
pub fn len_before(stop: u8, bytes: &[u8]) -> usize
    ensures value { result ≡ text_specs.len_before stop bytes.now }
    ensures bound { result ≤ length bytes.now }
{
    for (i, byte) in bytes.iter().enumerate() {
        if *byte == stop {
            return i;
        }
    }
    bytes.len()
}

/// The first byte that isn't from space to `~`.
pub fn bad_byte(bytes: &[u8]) -> Option<usize>
    ensures value { result ≡ text_specs.bad_byte bytes.now }
    ensures bound { IfSome result (λ i. i < length bytes.now) }
{
    for (i, byte) in bytes.iter().enumerate() {
        if *byte < b' ' || b'~' < *byte {
            return Some(i);
        }
    }
    None
}

//! How far bytes are a text of characters.

ghost use Rattle.std.specs.Prelude.{◌≡◌, length, take_while};
ghost use Rattle.std.specs.Str.Lossy.{utf8_valid_len};
ghost use Rattle.mc_base.specs.SoundText as texts;

/// How many bytes stand before the first zero: all where there is none.
pub fn nonzero_len(text: &[u8]) -> usize
    ensures { result ≡ length (take_while texts.is_nonzero text.now) }
{
    let mut count = 0;
    for byte in text {
        if *byte == 0 {
            return count;
        }
        count += 1;
    }
    count
}

/// How many bytes stand before the first sequence that is no UTF-8.
fn valid_len(text: &[u8]) -> usize
    ensures { result ≡ utf8_valid_len text.now }
{
    match str::from_utf8(text) {
        Ok(_) => text.len(),
        Err(error) => error.valid_up_to(),
    }
}

/// How many bytes stand before the first U+0000 and the first sequence that is no UTF-8 (RFC 3629): all where there is
/// neither.
pub fn sound_len(text: &[u8]) -> usize
    ensures { result ≡ texts.sound_len text.now }
{
    valid_len(text).min(nonzero_len(text))
}

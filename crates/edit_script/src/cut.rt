//! The text cut at its line ends.

ghost use Rattle.std.specs.Prelude.{◌≡◌, ◌≤◌, ◌<◌, length};
ghost use Rattle.edit_script.specs.Lines as lines;
ghost use Rattle.edit_script.specs.Places as places;

/// How many bytes stand before the first line end.
pub fn line_len(bytes: &[u8]) -> usize
    ensures value { result ≡ places.line_len bytes.now }
    ensures bound { result ≤ length bytes.now }
{
    for (i, byte) in bytes.iter().enumerate() {
        if *byte == b'\n' || *byte == b'\r' {
            return i;
        }
    }
    bytes.len()
}

/// How many bytes the line end has that stands here.
pub fn end_len(bytes: &[u8]) -> usize
    ensures value { result ≡ places.end_len bytes.now }
    ensures bound { result ≤ length bytes.now }
{
    match bytes {
        [] => 0,
        [b'\r', b'\n', ..] => 2,
        _ => 1,
    }
}

/// How many bytes a byte order mark takes in front.
#[tactic(auto, unfolding(crate::specs::Lines::mark_len))]
pub fn mark_len(text: &[u8]) -> usize
    ensures value { result ≡ lines.mark_len text.now }
    ensures bound { result ≤ length text.now }
{
    match text {
        [0xEF, 0xBB, 0xBF, ..] => 3,
        _ => 0,
    }
}

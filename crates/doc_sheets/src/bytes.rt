//! The byte of a document at which a place of one of its texts stands.

ghost use Rattle.std.specs.Prelude.{◌≡◌, ◌<◌, ◌≤◌, ◌^◌, ◌+◌, drop, length};
ghost use Rattle.doc_sheets.specs.Bytes as bytes;

/// How many bytes a place takes: none after the end, two at CR LF.
fn width_of(rest: &[u8]) -> u64
    ensures width { result ≡ bytes.width_of rest.now }
    ensures within { result ≤ length rest.now }
{
    match rest {
        [] => 0,
        [b'\r', b'\n', ..] => 2,
        _ => 1,
    }
}

/// The byte after the place that stands at a byte.
fn next_byte(document: &[u8], byte: u64) -> u64
    requires { length document.now ≤ 2 ^ 28 }
    ensures { result ≡ byte + bytes.width_of (drop byte document.now) }
{
    let len = document.len() as u64;
    if len <= byte {
        return byte;
    }
    byte + width_of(&document[byte as usize..])
}

/// The byte at which a place stands of a text that begins at a byte of the document.
///
/// CR LF in the document is one place in the text. After the document's end no place takes a byte.
pub fn byte_of(document: &[u8], begins: u64, place: u64) -> u64
    requires { length document.now ≤ 2 ^ 28 }
    ensures { result ≡ bytes.byte_of document.now begins place }
{
    let mut byte = begins;
    for _step in 0..place {
        byte = next_byte(document, byte);
    }
    byte
}

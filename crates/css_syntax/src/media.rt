//! Media of style elements.

ghost use Rattle.std.specs.Prelude.{◌≡◌, ◌≤◌, ◌^◌, length, IfOk};
ghost use Rattle.css_syntax.specs.Media as lists;

use css_prelude::media_list;
use css_tokens::lexemes;
use mc_base::{NoMemory, ReadError};
use std::alloc::Global;

/// Whether the media apply that a `media` attribute of a style element lists, a text of at most 2^28 bytes, or `None` where it
/// is no such list (CSS 2.1, section 7.2.1).
///
/// The list is that of an `@media`: `all`, `screen`, `print` and `speech` with commas, or nothing. It applies if it is empty or
/// has `all` or `screen`.
#[tactic(auto, unfolding(crate::specs::Media::media_in_text))]
pub fn parse_media(alloc: Global, text: &[u8]) -> Result<Option<bool>, NoMemory>
    requires { length text.now ≤ 2 ^ 28 }
    ensures { IfOk result (λ applies. applies ≡ lists.media_in_text text.now) }
{
    if text.starts_with(b"\xef\xbb\xbf") {
        return Ok(None);
    }
    match lexemes(alloc, text) {
        Ok(lexemes) => Ok(media_list(lexemes.as_slice())),
        Err(ReadError::Memory) => Err(NoMemory),
        Err(ReadError::Fault(_)) => Ok(None),
    }
}

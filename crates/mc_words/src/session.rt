//! What the words of a session of edits ask for.

ghost use Rattle.std.specs.Prelude.{◌≡◌, ◌^◌, ◌<◌, map, option_map, string_bytes, IfSome};
ghost use Rattle.mc_words.specs.Asked.{session_asked};
ghost use Rattle.mc_words.specs.Words as stated;

use crate::command::{Page, page_of};

/// A document to lay out, and the name of a script of edits of it.
#[derive(Clone, Copy)]
pub struct SessionWords<'a> {
    pub page: Page<'a>,
    pub script: &'a str,
}

/// What plain words ask for.
pub fn plain_session<'a>(words: &'a [String]) -> Option<SessionWords<'a>>
    ensures asked { option_map session_asked result ≡ stated.plain_session (map string_bytes words.now) }
    ensures narrow { IfSome result (λ session. session.page.width < 2 ^ 60) }
{
    let [document, sheet, metrics, width, height, script] = words else {
        return None;
    };
    let page = page_of(
        document.as_str(),
        sheet.as_str(),
        metrics.as_str(),
        width.as_str(),
        height.as_str(),
    )?;
    Some(SessionWords {
        page,
        script: script.as_str(),
    })
}

//! Lists of media (CSS 2.1, section 7.2.1).

ghost use Rattle.std.specs.Prelude.{◌≡◌};
ghost use Rattle.css_prelude.specs.Media as lists;

use css_tokens::{Lexeme, ident_of, is_delim, is_in, is_space};

/// What may come next in a list: its first word or its end, a word after a comma, or a comma or the end after a word.
#[derive(Clone, Copy)]
pub enum Awaits {
    First,
    Word,
    Comma,
}

/// The lists so far: what may come next, and whether one of the words applies.
#[derive(Clone, Copy)]
pub struct Listed {
    pub awaits: Awaits,
    pub applies: bool,
}

/// A list with one more word.
#[tactic(auto, unfolding(crate::specs::Media::is_screen, crate::specs::Media::is_medium))]
fn with_word(listed: Listed, word: &[u8]) -> Option<Listed>
    ensures { result ≡ lists.with_word listed word.now }
{
    if !is_in(word, &[b"all", b"screen", b"print", b"speech"]) {
        return None;
    }
    let screen = is_in(word, &[b"all", b"screen"]);
    match listed.awaits {
        Awaits::First => Some(Listed {
            awaits: Awaits::Comma,
            applies: listed.applies || screen,
        }),
        Awaits::Word => Some(Listed {
            awaits: Awaits::Comma,
            applies: listed.applies || screen,
        }),
        Awaits::Comma => None,
    }
}

/// A list with a comma.
fn with_comma(listed: Listed) -> Option<Listed>
    ensures { result ≡ lists.with_comma listed }
{
    match listed.awaits {
        Awaits::First => None,
        Awaits::Word => None,
        Awaits::Comma => Some(Listed {
            awaits: Awaits::Word,
            applies: listed.applies,
        }),
    }
}

/// A list with one more lexeme.
fn with(listed: Listed, lexeme: &Lexeme) -> Option<Listed>
    ensures { result ≡ lists.with listed lexeme.now }
{
    if is_space(lexeme) {
        return Some(listed);
    }
    if is_delim(lexeme, ',') {
        return with_comma(listed);
    }
    let word = ident_of(lexeme)?;
    with_word(listed, word)
}

/// Whether a list that ends here applies.
fn ended(listed: Listed) -> Option<bool>
    ensures { result ≡ lists.ended listed }
{
    match listed.awaits {
        Awaits::First => Some(true),
        Awaits::Word => None,
        Awaits::Comma => Some(listed.applies),
    }
}

/// Whether the media that a prelude lists apply, or `None` where it is off the grammar.
///
/// It is a list of `all`, `screen`, `print` and `speech` with commas, or empty. It applies if it is empty or has `all` or
/// `screen`.
pub fn media_list(prelude: &[Lexeme]) -> Option<bool>
    ensures { result ≡ lists.media_of prelude.now }
{
    let mut listed = Listed {
        awaits: Awaits::First,
        applies: false,
    };
    for lexeme in prelude {
        listed = with(listed, lexeme)?;
    }
    ended(listed)
}

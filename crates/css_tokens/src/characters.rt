//! Kinds of characters, and runs of them.

ghost use Rattle.std.specs.Prelude.{◌≡◌, ◌++◌, drop, OnOk, encode_utf8};
ghost use Rattle.html_grammar.specs.Places as places;
ghost use Rattle.html_grammar.specs.Lexing as html;
ghost use Rattle.html_grammar.specs.Tokens as tokens;
ghost use Rattle.css_tokens.specs.Characters as kinds;
ghost use Rattle.css_tokens.specs.Lexing as lex;
ghost use Rattle.css_tokens.specs.Classes.{test_of};

use mc_base::Text;
use std::alloc::AllocError;
use text_cursor::Cursor;
pub use text_cursor::{begins, offset, push};

/// A kind of characters.
#[derive(Clone, Copy)]
pub enum Class {
    /// White space: space, tab and line feed.
    Space,
    /// An ASCII digit.
    Digit,
    /// What a name has.
    Name,
    /// With what a name begins that is an identifier.
    Start,
    /// A plus or a minus.
    Sign,
}

fn is_space(character: char) -> bool
    ensures { result ≡ tokens.is_space character }
{
    character == ' ' || (character == '\n' || character == '\t')
}

fn is_name(character: char) -> bool
    ensures { result ≡ kinds.is_name character }
{
    character.is_ascii_alphanumeric()
        || (character == '-' || (character == '_' || '\u{7f}' < character))
}

fn is_start(character: char) -> bool
    ensures { result ≡ kinds.is_start character }
{
    is_name(character) && !character.is_ascii_digit()
}

fn is_sign(character: char) -> bool
    ensures { result ≡ kinds.is_sign character }
{
    character == '+' || character == '-'
}

/// Whether a character is of a kind.
fn passes(class: Class, character: char) -> bool
    ensures { result ≡ test_of class character }
{
    match class {
        Class::Space => is_space(character),
        Class::Digit => character.is_ascii_digit(),
        Class::Name => is_name(character),
        Class::Start => is_start(character),
        Class::Sign => is_sign(character),
    }
}

/// Whether the next character is of a kind.
pub fn begins_with(cursor: &Cursor, class: Class) -> bool
    ensures { result ≡ places.begins_with (test_of class) cursor.now }
{
    match cursor.peek() {
        Some(place) => passes(class, place.character),
        None => false,
    }
}

/// The next character, or U+0000.
pub fn character(cursor: &Cursor) -> char
    ensures { result ≡ lex.code_or 0 cursor.now }
{
    match cursor.peek() {
        Some(place) => place.character,
        None => '\0',
    }
}

/// What stands after the next character.
pub fn after_first<'a>(cursor: &Cursor<'a>) -> Cursor<'a>
    ensures { result ≡ places.behind_first cursor.now }
{
    let mut ahead = cursor.fork();
    ahead.bump();
    ahead
}

/// Goes past characters of a kind.
pub fn skip(cursor: &mut Cursor, class: Class)
    ensures { cursor.new ≡ places.behind_while (test_of class) cursor.old }
{
    while let Some(place) = cursor.peek() {
        if !passes(class, place.character) {
            return;
        }
        cursor.bump();
    }
}

/// Goes past characters of a kind, and adds them to a text.
pub fn take(text: &mut Text, cursor: &mut Cursor, class: Class) -> Result<(), AllocError>
    ensures text { OnOk result (text.new ≡ text.old ++ lex.text_while (test_of class) cursor.old) }
    ensures rest { OnOk result (cursor.new ≡ places.behind_while (test_of class) cursor.old) }
{
    while let Some(place) = cursor.peek() {
        if !passes(class, place.character) {
            return Ok(());
        }
        push(text, place.character)?;
        cursor.bump();
    }
    Ok(())
}

/// Goes on to where `*/` comes, or to the end.
pub fn find_end(cursor: &mut Cursor)
    ensures { cursor.new ≡ lex.from_end cursor.old }
{
    while let Some(_place) = cursor.peek() {
        if begins(cursor, '*') && begins(&after_first(cursor), '/') {
            return;
        }
        cursor.bump();
    }
}

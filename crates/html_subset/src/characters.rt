//! Kinds of characters, and runs of them.

ghost use Rattle.std.specs.Prelude.{◌≡◌, ◌++◌, drop, true, IfOk, OnOk, encode_utf8};
ghost use Rattle.std.specs.Char.{to_ascii_lowercase, is_ascii_alphanumeric, is_ascii_alphabetic};
ghost use Rattle.html_grammar.specs.Places as places;
ghost use Rattle.html_grammar.specs.Tokens as tokens;
ghost use Rattle.html_grammar.specs.Lexing as lex;
ghost use Rattle.html_subset.specs.Classes.{test_of};

use mc_base::Text;
use std::alloc::{AllocError, Global};
use text_cursor::Cursor;
pub use text_cursor::{begins, offset, push};

/// A kind of characters.
#[derive(Clone, Copy)]
pub enum Class {
    /// White space: space, tab and line feed.
    Space,
    /// An ASCII letter, with which a tag's name begins.
    Letter,
    /// What a tag's name has after its first letter.
    Name,
    /// What an attribute's name has.
    Key,
    /// What a value without quotes has.
    Bare,
    /// What stands after the name in the end tag of raw text.
    PastName,
    /// An ASCII letter or digit.
    Word,
    /// Any character but this.
    Other(char),
}

/// White space: space, tab and line feed.
pub fn is_space(character: char) -> bool
    ensures { result ≡ tokens.is_space character }
{
    character == ' ' || (character == '\n' || character == '\t')
}

fn is_key(character: char) -> bool
    ensures { result ≡ lex.is_key_char character }
{
    !(is_space(character)
        || (character == '"'
            || (character == '\''
                || (character == '>'
                    || (character == '/' || (character == '=' || character == '<'))))))
}

fn is_bare(character: char) -> bool
    ensures { result ≡ lex.is_bare_char character }
{
    !(is_space(character)
        || (character == '"'
            || (character == '\''
                || (character == '='
                    || (character == '<' || (character == '>' || character == '`'))))))
}

fn is_name(character: char) -> bool
    ensures { result ≡ lex.is_name_char character }
{
    character.is_ascii_alphanumeric() || character == '-'
}

fn is_past_name(character: char) -> bool
    ensures { result ≡ lex.is_past_name character }
{
    is_space(character) || (character == '/' || character == '>')
}

/// Whether a character is of a kind.
pub fn passes(class: Class, character: char) -> bool
    ensures { result ≡ test_of class character }
{
    match class {
        Class::Space => is_space(character),
        Class::Letter => character.is_ascii_alphabetic(),
        Class::Name => is_name(character),
        Class::Key => is_key(character),
        Class::Bare => is_bare(character),
        Class::PastName => is_past_name(character),
        Class::Word => character.is_ascii_alphanumeric(),
        Class::Other(other) => !(character == other),
    }
}

/// Whether the next character is of a kind.
pub fn begins_with(cursor: &Cursor, class: Class) -> bool
    ensures { result ≡ places.begins_with (test_of class) cursor.now }
{
    match cursor.peek() {
        Some(place) => passes(class, place.character),
        None => false,
    }
}

/// Goes past characters of a kind.
pub fn skip(cursor: &mut Cursor, class: Class)
    ensures { cursor.new ≡ places.behind_while (test_of class) cursor.old }
{
    while let Some(place) = cursor.peek() {
        if !passes(class, place.character) {
            return;
        }
        cursor.bump();
    }
}

/// Goes past an attribute's name, and gives it in lower case.
pub fn key(alloc: Global, cursor: &mut Cursor) -> Result<Text, AllocError>
    ensures text { IfOk result (λ t. t ≡ lex.key cursor.old) }
    ensures rest { OnOk result (cursor.new ≡ places.behind_while lex.is_key_char cursor.old) }
{
    let mut text = Text::new(alloc);
    while let Some(place) = cursor.peek() {
        if !is_key(place.character) {
            return Ok(text);
        }
        push(&mut text, place.character.to_ascii_lowercase())?;
        cursor.bump();
    }
    Ok(text)
}

/// The byte of an ASCII character in lower case.
fn lower_byte(character: char) -> u8
    requires { lex.is_name_char character ≡ true }
    ensures { result ≡ to_ascii_lowercase character }
{
    character.to_ascii_lowercase() as u32 as u8
}

/// Goes past a tag's name, and gives it in lower case.
pub fn tag_name(alloc: Global, cursor: &mut Cursor) -> Result<Text, AllocError>
    ensures text { IfOk result (λ t. t ≡ lex.tag_name cursor.old) }
    ensures rest { OnOk result (cursor.new ≡ places.behind_while lex.is_name_char cursor.old) }
{
    let mut text = Text::new(alloc);
    while let Some(place) = cursor.peek() {
        if !is_name(place.character) {
            return Ok(text);
        }
        text.push(lower_byte(place.character))?;
        cursor.bump();
    }
    Ok(text)
}

/// The byte of an ASCII letter or digit.
fn word_byte(character: char) -> u8
    requires { is_ascii_alphanumeric character ≡ true }
    ensures { result ≡ character }
{
    character as u32 as u8
}

/// Goes past letters and digits, and gives them.
pub fn word(alloc: Global, cursor: &mut Cursor) -> Result<Text, AllocError>
    ensures text { IfOk result (λ t. t ≡ places.codes_while is_ascii_alphanumeric cursor.old) }
    ensures rest { OnOk result (cursor.new ≡ places.behind_while is_ascii_alphanumeric cursor.old) }
{
    let mut text = Text::new(alloc);
    while let Some(place) = cursor.peek() {
        if !place.character.is_ascii_alphanumeric() {
            return Ok(text);
        }
        text.push(word_byte(place.character))?;
        cursor.bump();
    }
    Ok(text)
}

/// Whether these characters come next.
pub fn begins_text(cursor: &Cursor, wanted: &[u8]) -> bool
    ensures { result ≡ lex.begins_text wanted.now cursor.now }
{
    let mut ahead = cursor.fork();
    for code in wanted {
        let Some(place) = ahead.peek() else {
            return false;
        };
        if place.character as u32 != u32::from(*code) {
            return false;
        }
        ahead.bump();
    }
    true
}

/// Whether these characters come next, in any case. These are in lower case.
pub fn begins_folded(cursor: &Cursor, wanted: &[u8]) -> bool
    ensures { result ≡ lex.begins_folded wanted.now cursor.now }
{
    let mut ahead = cursor.fork();
    for code in wanted {
        let Some(place) = ahead.peek() else {
            return false;
        };
        if place.character.to_ascii_lowercase() as u32 != u32::from(*code) {
            return false;
        }
        ahead.bump();
    }
    true
}

/// What stands after the next characters, so many of them.
pub fn past<'a>(cursor: &Cursor<'a>, count: usize) -> Cursor<'a>
    ensures { result ≡ drop count cursor.now }
{
    let mut ahead = cursor.fork();
    for _ in 0..count {
        ahead.bump();
    }
    ahead
}

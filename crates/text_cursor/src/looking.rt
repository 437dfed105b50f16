//! What comes next, and characters put into a text.

ghost use Rattle.std.specs.Prelude.{◌≡◌, ◌++◌, OnOk, encode_utf8};
ghost use Rattle.html_grammar.specs.Places as places;

use crate::cursor::Cursor;
use mc_base::Text;
use std::alloc::AllocError;

/// Whether the next character is this one.
pub fn begins(cursor: &Cursor, character: char) -> bool
    ensures { result ≡ places.begins character cursor.now }
{
    match cursor.peek() {
        Some(place) => place.character == character,
        None => false,
    }
}

/// The byte of the next character, or 0.
pub fn offset(cursor: &Cursor) -> u64
    ensures { result ≡ places.place_or 0 cursor.now }
{
    match cursor.peek() {
        Some(place) => place.at,
        None => 0,
    }
}

/// Adds a character at the end of a text.
pub fn push(text: &mut Text, character: char) -> Result<(), AllocError>
    ensures { OnOk result (text.new ≡ text.old ++ encode_utf8 character) }
{
    let mut bytes = [0u8; 4];
    let spelled = character.encode_utf8(&mut bytes);
    text.extend(spelled.as_bytes())
}

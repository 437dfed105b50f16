//! References to characters.

ghost use Rattle.std.specs.Prelude.{◌≡◌, ◌≤◌, ◌+◌, ◌*◌, min, true, map, IfOk};
ghost use Rattle.std.specs.Char.{is_digit, digit_value};
ghost use Rattle.html_grammar.specs.Places as places;
ghost use Rattle.html_grammar.specs.Lexing as lex;
ghost use Rattle.html_grammar.specs.References.{named_in, named_character};

use crate::characters::{Class, begins, begins_with, word};
use crate::names::same;
use html_grammar::Meaning;
use std::alloc::{AllocError, Global};
use text_cursor::Cursor;

/// A number with one more digit, cut at one above the greatest character.
fn grown(value: u32, radix: u32, digit: char) -> u32
    requires small { value ≤ 0x110000 }
    requires low { 2 ≤ radix }
    requires high { radix ≤ 36 }
    requires digit { is_digit digit radix ≡ true }
    ensures { result ≡ min (value * radix + digit_value digit) 0x110000 }
{
    let Some(digit) = digit.to_digit(radix) else {
        return value;
    };
    (value * radix + digit).min(0x11_0000)
}

/// Goes past digits, and gives the number that they spell, cut at one above the greatest character.
fn number(cursor: &mut Cursor, radix: u32) -> u32
    requires low { 2 ≤ radix }
    requires high { radix ≤ 36 }
    ensures value { result ≡ lex.number_from radix 0 (places.codes_while (lex.is_radix_digit radix) cursor.old) }
    ensures rest { cursor.new ≡ places.behind_while (lex.is_radix_digit radix) cursor.old }
{
    let mut value = 0u32;
    while let Some(place) = cursor.peek() {
        if !place.character.is_digit(radix) {
            return value;
        }
        value = grown(value, radix, place.character);
        cursor.bump();
    }
    value
}

/// Whether a digit comes next.
fn begins_digit(cursor: &Cursor, radix: u32) -> bool
    requires low { 2 ≤ radix }
    requires high { radix ≤ 36 }
    ensures { result ≡ places.begins_with (lex.is_radix_digit radix) cursor.now }
{
    match cursor.peek() {
        Some(place) => place.character.is_digit(radix),
        None => false,
    }
}

/// Whether a number is that of a character above U+0000, and which.
fn numbered<'a>(value: u32, rest: Cursor<'a>, behind: Cursor<'a>) -> (Meaning, Cursor<'a>)
    ensures { (result.0, result.1) ≡ lex.numbered value rest.entry behind.entry }
{
    if value == 0 {
        return (Meaning::Bad, rest);
    }
    match char::from_u32(value) {
        Some(character) => (Meaning::Character { character }, behind),
        None => (Meaning::Bad, rest),
    }
}

/// What digits and a `;` after `&#` mean.
#[tactic(auto, unfolding(html_grammar::specs::Lexing::number_at))]
fn number_at<'a>(radix: u32, rest: Cursor<'a>, digits: Cursor<'a>) -> (Meaning, Cursor<'a>)
    requires low { 2 ≤ radix }
    requires high { radix ≤ 36 }
    ensures { (result.0, result.1) ≡ lex.number_at radix rest.entry digits.entry }
{
    let mut digits = digits;
    if !begins_digit(&digits, radix) {
        return (Meaning::Plain, rest);
    }
    let value = number(&mut digits, radix);
    if !begins(&digits, ';') {
        return (Meaning::Plain, rest);
    }
    digits.bump();
    numbered(value, rest, digits)
}

fn value_in(name: &[u8], table: &[(&[u8], char)]) -> Option<char>
    ensures { result ≡ named_in name.now (map (λ e. (e.0.now, e.1)) table.now) }
{
    for (other, character) in table {
        if same(name, other) {
            return Some(*character);
        }
    }
    None
}

/// The character of a name, with its case.
#[tactic(auto, unfolding(html_grammar::specs::References::named_character))]
fn named_character(name: &[u8]) -> Option<char>
    ensures { result ≡ named_character name.now }
{
    value_in(
        name,
        &[
            (b"amp", '&'),
            (b"lt", '<'),
            (b"gt", '>'),
            (b"quot", '"'),
            (b"apos", '\''),
            (b"nbsp", '\u{a0}'),
            (b"laquo", '\u{ab}'),
            (b"copy", '\u{a9}'),
            (b"shy", '\u{ad}'),
            (b"reg", '\u{ae}'),
            (b"deg", '\u{b0}'),
            (b"middot", '\u{b7}'),
            (b"raquo", '\u{bb}'),
            (b"times", '\u{d7}'),
            (b"szlig", '\u{df}'),
            (b"agrave", '\u{e0}'),
            (b"aacute", '\u{e1}'),
            (b"auml", '\u{e4}'),
            (b"ccedil", '\u{e7}'),
            (b"egrave", '\u{e8}'),
            (b"eacute", '\u{e9}'),
            (b"ntilde", '\u{f1}'),
            (b"ouml", '\u{f6}'),
            (b"uuml", '\u{fc}'),
            (b"ndash", '\u{2013}'),
            (b"mdash", '\u{2014}'),
            (b"lsquo", '\u{2018}'),
            (b"rsquo", '\u{2019}'),
            (b"ldquo", '\u{201c}'),
            (b"rdquo", '\u{201d}'),
            (b"bull", '\u{2022}'),
            (b"hellip", '\u{2026}'),
            (b"euro", '\u{20ac}'),
            (b"trade", '\u{2122}'),
        ],
    )
}

/// What a name and a `;` after `&` mean.
#[tactic(auto, unfolding(html_grammar::specs::Lexing::name_at))]
fn name_at<'a>(alloc: Global, rest: Cursor<'a>) -> Result<(Meaning, Cursor<'a>), AllocError>
    ensures { IfOk result (λ x. (x.0, x.1) ≡ lex.name_at rest.entry) }
{
    if !begins_with(&rest, Class::Word) {
        return Ok((Meaning::Plain, rest));
    }
    let mut ahead = rest.fork();
    let name = word(alloc, &mut ahead)?;
    if !begins(&ahead, ';') {
        return Ok((Meaning::Plain, rest));
    }
    ahead.bump();
    match named_character(name.as_slice()) {
        Some(character) => Ok((Meaning::Character { character }, ahead)),
        None => Ok((Meaning::Unknown, rest)),
    }
}

/// What an `&` means, and what stands after the reference, or after the `&` where it is none.
#[tactic(auto, unfolding(html_grammar::specs::Lexing::meaning_at))]
pub fn meaning<'a>(alloc: Global, rest: Cursor<'a>) -> Result<(Meaning, Cursor<'a>), AllocError>
    ensures { IfOk result (λ x. (x.0, x.1) ≡ lex.meaning_at rest.entry) }
{
    if !begins(&rest, '#') {
        return name_at(alloc, rest);
    }
    let mut digits = rest.fork();
    digits.bump();
    if begins(&digits, 'x') {
        digits.bump();
        return Ok(number_at(16, rest, digits));
    }
    Ok(number_at(10, rest, digits))
}

//! Values of attributes.

ghost use Rattle.std.specs.Prelude.{◌≡◌, List, IfOk};
ghost use Rattle.html_grammar.specs.Lexing as lex;
ghost use Rattle.html_grammar.specs.declared.place.Place.{Place as APlace};
ghost use Rattle.html_subset.specs.Classes.{test_of};
ghost use Rattle.html_subset.specs.Gives.{Gives};

use crate::characters::{Class, begins, begins_with, offset, passes, push};
use crate::fault::ReadError;
use crate::references::meaning;
use html_grammar::{Fault, Meaning, Place, ReadAttribute, Value};
use mc_base::Text;
use std::alloc::{AllocError, Global};
use text_cursor::Cursor;

/// The first of two places that come one after the other.
fn first_of(first: Option<u64>, then: u64) -> Option<u64>
    ensures { result ≡ lex.first_of first then }
{
    match first {
        Some(at) => Some(at),
        None => Some(then),
    }
}

fn empty(alloc: Global) -> Value
    ensures { result ≡ lex.empty_value }
{
    Value {
        text: Text::new(alloc),
        unknown: None,
        bad: None,
    }
}

/// A value with one more character.
fn with_char(value: Value, character: char) -> Result<Value, AllocError>
    ensures { IfOk result (λ v. v ≡ lex.with_char value character) }
{
    let Value { text, unknown, bad } = value;
    let mut text = text;
    push(&mut text, character)?;
    Ok(Value { text, unknown, bad })
}

/// A value with what an `&` at a byte means.
fn by_meaning(value: Value, at: u64, meaning: Meaning) -> Result<Value, AllocError>
    ensures { IfOk result (λ v. (rest : List APlace) → lex.by_meaning value at (meaning, rest) ≡ (v, rest)) }
{
    match meaning {
        Meaning::Plain => with_char(value, '&'),
        Meaning::Unknown => {
            let unknown = first_of(value.unknown, at);
            let Value {
                text,
                unknown: _,
                bad,
            } = with_char(value, '&')?;
            Ok(Value { text, unknown, bad })
        }
        Meaning::Bad => {
            let bad = first_of(value.bad, at);
            let Value {
                text,
                unknown,
                bad: _,
            } = with_char(value, '&')?;
            Ok(Value { text, unknown, bad })
        }
        Meaning::Character { character } => with_char(value, character),
    }
}

/// A value with what a character of it spells, and what stands after it.
#[tactic(auto, unfolding(html_grammar::specs::Lexing::added))]
fn added<'a>(
    alloc: Global,
    value: Value,
    place: Place,
    rest: Cursor<'a>,
) -> Result<(Value, Cursor<'a>), AllocError>
    ensures { IfOk result (λ x. (x.0, x.1) ≡ lex.added value place rest.entry) }
{
    if place.character != '&' {
        let value = with_char(value, place.character)?;
        return Ok((value, rest));
    }
    let (meaning, after) = meaning(alloc, rest)?;
    let value = by_meaning(value, place.at, meaning)?;
    Ok((value, after))
}

/// The value that characters of a kind spell, of which there are at most so many, and what stands after it.
fn value_from<'a>(
    alloc: Global,
    size: usize,
    class: Class,
    rest: Cursor<'a>,
) -> Result<(Value, Cursor<'a>), AllocError>
    ensures { IfOk result (λ x. (x.0, x.1) ≡ lex.value_from size (test_of class) lex.empty_value rest.entry) }
{
    let mut value = empty(alloc);
    let mut rest = rest;
    for _ in 0..size {
        let Some(place) = rest.peek() else {
            return Ok((value, rest));
        };
        if !passes(class, place.character) {
            return Ok((value, rest));
        }
        rest.bump();
        let (next, after) = added(alloc, value, place, rest)?;
        value = next;
        rest = after;
    }
    Ok((value, rest))
}

/// A value after its opening quote.
#[tactic(auto, unfolding(html_grammar::specs::Lexing::quoted_at))]
fn quoted_at<'a>(
    alloc: Global,
    size: usize,
    tag: u64,
    name: Text,
    quote: char,
    rest: Cursor<'a>,
) -> Result<(ReadAttribute, Cursor<'a>), ReadError>
    ensures { Gives (λ x. (x.0, x.1)) result (lex.quoted_at size tag name quote rest.entry) }
{
    let offset = offset(&rest);
    let (value, behind) = value_from(alloc, size, Class::Other(quote), rest)?;
    if !begins(&behind, quote) {
        return Err(ReadError::Fault(Fault { at: tag, rule: 3 }));
    }
    let mut behind = behind;
    behind.bump();
    Ok((
        ReadAttribute {
            name,
            value,
            offset,
        },
        behind,
    ))
}

/// A value without quotes.
#[tactic(auto, unfolding(html_grammar::specs::Lexing::bare_at))]
fn bare_at<'a>(
    alloc: Global,
    size: usize,
    tag: u64,
    name: Text,
    rest: Cursor<'a>,
) -> Result<(ReadAttribute, Cursor<'a>), ReadError>
    ensures { Gives (λ x. (x.0, x.1)) result (lex.bare_at size tag name rest.entry) }
{
    if !begins_with(&rest, Class::Bare) {
        return Err(ReadError::Fault(Fault { at: tag, rule: 3 }));
    }
    let offset = offset(&rest);
    let (value, behind) = value_from(alloc, size, Class::Bare, rest)?;
    Ok((
        ReadAttribute {
            name,
            value,
            offset,
        },
        behind,
    ))
}

/// A value after its `=`.
#[tactic(auto, unfolding(html_grammar::specs::Lexing::value_at))]
fn value_at<'a>(
    alloc: Global,
    size: usize,
    tag: u64,
    name: Text,
    rest: Cursor<'a>,
) -> Result<(ReadAttribute, Cursor<'a>), ReadError>
    ensures { Gives (λ x. (x.0, x.1)) result (lex.value_at size tag name rest.entry) }
{
    let mut rest = rest;
    if begins(&rest, '"') {
        rest.bump();
        return quoted_at(alloc, size, tag, name, '"', rest);
    }
    if begins(&rest, '\'') {
        rest.bump();
        return quoted_at(alloc, size, tag, name, '\'', rest);
    }
    bare_at(alloc, size, tag, name, rest)
}

/// An attribute after its name, which begins at a byte.
#[tactic(auto, unfolding(html_grammar::specs::Lexing::assigned_at))]
pub fn assigned_at<'a>(
    alloc: Global,
    size: usize,
    tag: u64,
    at: u64,
    name: Text,
    rest: Cursor<'a>,
) -> Result<(ReadAttribute, Cursor<'a>), ReadError>
    ensures { Gives (λ x. (x.0, x.1)) result (lex.assigned_at size tag at name rest.entry) }
{
    let mut rest = rest;
    if begins(&rest, '=') {
        rest.bump();
        return value_at(alloc, size, tag, name, rest);
    }
    Ok((
        ReadAttribute {
            name,
            value: empty(alloc),
            offset: at,
        },
        rest,
    ))
}

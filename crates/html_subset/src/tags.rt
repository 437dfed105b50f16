//! Start tags and end tags.

ghost use Rattle.std.specs.Prelude.{◌≡◌, IfOk, option_map};
ghost use Rattle.html_grammar.specs.Lexing as lex;
ghost use Rattle.html_subset.specs.Gives.{Gives};

use crate::characters::{Class, begins, begins_with, key, offset, skip, tag_name};
use crate::fault::ReadError;
use crate::values::assigned_at;
use html_grammar::{Attribute, Fault, ReadAttribute, ReadAttributes, Token};
use mc_base::List;
use std::alloc::{AllocError, Global};
use std::collections::BTreeMap;
use text_cursor::Cursor;

/// An attribute, in a tag that begins at a byte.
#[tactic(auto, unfolding(html_grammar::specs::Lexing::attribute_at))]
fn attribute_at<'a>(
    alloc: Global,
    size: usize,
    tag: u64,
    rest: Cursor<'a>,
) -> Result<(ReadAttribute, Cursor<'a>), ReadError>
    ensures { Gives (λ x. (x.0, x.1)) result (lex.attribute_at size tag rest.entry) }
{
    let mut rest = rest;
    if !begins_with(&rest, Class::Key) {
        return Err(ReadError::Fault(Fault { at: tag, rule: 3 }));
    }
    let at = offset(&rest);
    let name = key(alloc, &mut rest)?;
    assigned_at(alloc, size, tag, at, name, rest)
}

/// The next attribute, or None after the tag's end.
#[tactic(auto, unfolding(html_grammar::specs::Lexing::piece_at))]
fn piece_at<'a>(
    alloc: Global,
    size: usize,
    tag: u64,
    rest: Cursor<'a>,
) -> Result<(Option<ReadAttribute>, Cursor<'a>), ReadError>
    ensures { Gives (λ x. (x.0, x.1)) result (lex.piece_at size tag rest.entry) }
{
    let mut rest = rest;
    let spaced = begins_with(&rest, Class::Space);
    skip(&mut rest, Class::Space);
    if begins(&rest, '>') {
        rest.bump();
        return Ok((None, rest));
    }
    if begins(&rest, '/') {
        rest.bump();
        if !begins(&rest, '>') {
            return Err(ReadError::Fault(Fault { at: tag, rule: 3 }));
        }
        rest.bump();
        return Ok((None, rest));
    }
    if !spaced {
        return Err(ReadError::Fault(Fault { at: tag, rule: 3 }));
    }
    let (next, after) = attribute_at(alloc, size, tag, rest)?;
    Ok((Some(next), after))
}

/// The first place, or the second where there is none.
fn or_first(first: Option<u64>, then: Option<u64>) -> Option<u64>
    ensures { result ≡ lex.or_first first then }
{
    match first {
        Some(at) => Some(at),
        None => then,
    }
}

/// The attributes with one more.
fn with_attribute(read: ReadAttributes, next: ReadAttribute) -> Result<ReadAttributes, AllocError>
    ensures { IfOk result (λ x. x ≡ lex.with_attribute read next) }
{
    let ReadAttributes { all, unknown, bad } = read;
    let ReadAttribute {
        name,
        value,
        offset,
    } = next;
    let unknown = or_first(unknown, value.unknown);
    let bad = or_first(bad, value.bad);
    let mut all = all;
    all.push(Attribute {
        name,
        value: value.text,
        offset,
    })?;
    Ok(ReadAttributes { all, unknown, bad })
}

/// The attributes up to the tag's end, of which there are fewer than size.
pub fn attributes<'a>(
    alloc: Global,
    size: usize,
    tag: u64,
    rest: Cursor<'a>,
) -> Result<(ReadAttributes, Cursor<'a>), ReadError>
    ensures { Gives (λ x. (x.0, x.1)) result (lex.attributes_from size size tag lex.no_attributes rest.entry) }
{
    let mut read = ReadAttributes {
        all: List::new(alloc),
        unknown: None,
        bad: None,
    };
    let mut rest = rest;
    for _ in 0..size {
        let (next, after) = piece_at(alloc, size, tag, rest)?;
        match next {
            None => return Ok((read, after)),
            Some(next) => read = with_attribute(read, next)?,
        }
        rest = after;
    }
    Err(ReadError::Fault(Fault { at: tag, rule: 3 }))
}

/// Whether a name stands twice.
pub fn is_doubled(alloc: Global, attributes: &[Attribute]) -> Result<bool, AllocError>
    ensures { IfOk result (λ twice. twice ≡ lex.is_doubled attributes.now) }
{
    let mut seen: BTreeMap<&[u8], ()> = BTreeMap::new(alloc);
    for attribute in attributes {
        let before = seen.insert(attribute.name.as_slice(), ())?;
        if before.is_some() {
            return Ok(true);
        }
    }
    Ok(false)
}

/// An end tag after its `</`.
#[tactic(auto, unfolding(html_grammar::specs::Lexing::end_at))]
pub fn end_tag<'a>(
    alloc: Global,
    at: u64,
    rest: Cursor<'a>,
) -> Result<(Token, Cursor<'a>), ReadError>
    ensures { Gives (λ x. (x.0, x.1)) result (lex.end_at at rest.entry) }
{
    let mut rest = rest;
    if !begins_with(&rest, Class::Letter) {
        return Err(ReadError::Fault(Fault { at, rule: 3 }));
    }
    let name = tag_name(alloc, &mut rest)?;
    skip(&mut rest, Class::Space);
    if !begins(&rest, '>') {
        return Err(ReadError::Fault(Fault { at, rule: 3 }));
    }
    rest.bump();
    Ok((Token::End { at, name }, rest))
}

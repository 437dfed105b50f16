//! What is to be known of a token.

ghost use Rattle.std.specs.Prelude.{◌≡◌};
ghost use Rattle.html_grammar.specs.Tokens as tokens;

use crate::characters::is_space;
use crate::names;
use html_grammar::{Attribute, Fault, Spelled, Tag, Token};
use mc_base::{ConstructName, Found, List};
use std::alloc::Global;

/// A character of the structure's white space: a reference is none.
pub fn is_white(character: char, spelled: Spelled) -> bool
    ensures { result ≡ tokens.is_white character spelled }
{
    match spelled {
        Spelled::Plain => is_space(character),
        Spelled::Reference => false,
        Spelled::Unknown => false,
    }
}

/// White space or a comment.
pub fn is_blank(token: &Token) -> bool
    ensures { result ≡ tokens.is_blank token.now }
{
    match token {
        Token::Start { tag: _ } => false,
        Token::Raw { tag: _, text: _ } => false,
        Token::End { at: _, name: _ } => false,
        Token::Comment { at: _ } => true,
        Token::Doctype { at: _ } => false,
        Token::Char {
            at: _,
            character,
            spelled,
        } => is_white(*character, *spelled),
    }
}

/// A start tag of this name.
pub fn is_start(token: &Token, name: &[u8]) -> bool
    ensures { result ≡ tokens.is_start name.now token.now }
{
    match token {
        Token::Start { tag } => names::same(tag.name.as_slice(), name),
        Token::Raw { tag: _, text: _ } => false,
        Token::End { at: _, name: _ } => false,
        Token::Comment { at: _ } => false,
        Token::Doctype { at: _ } => false,
        Token::Char {
            at: _,
            character: _,
            spelled: _,
        } => false,
    }
}

/// An end tag of this name.
pub fn is_end(token: &Token, name: &[u8]) -> bool
    ensures { result ≡ tokens.is_end name.now token.now }
{
    match token {
        Token::Start { tag: _ } => false,
        Token::Raw { tag: _, text: _ } => false,
        Token::End { at: _, name: own } => names::same(own.as_slice(), name),
        Token::Comment { at: _ } => false,
        Token::Doctype { at: _ } => false,
        Token::Char {
            at: _,
            character: _,
            spelled: _,
        } => false,
    }
}

pub fn is_doctype(token: &Token) -> bool
    ensures { result ≡ tokens.is_doctype token.now }
{
    match token {
        Token::Start { tag: _ } => false,
        Token::Raw { tag: _, text: _ } => false,
        Token::End { at: _, name: _ } => false,
        Token::Comment { at: _ } => false,
        Token::Doctype { at: _ } => true,
        Token::Char {
            at: _,
            character: _,
            spelled: _,
        } => false,
    }
}

/// An element of the head.
pub fn is_head_element(token: &Token) -> bool
    ensures { result ≡ tokens.is_head_element token.now }
{
    match token {
        Token::Start { tag } => names::is_head_void(tag.name.as_slice()),
        Token::Raw { tag: _, text: _ } => true,
        Token::End { at: _, name: _ } => false,
        Token::Comment { at: _ } => false,
        Token::Doctype { at: _ } => false,
        Token::Char {
            at: _,
            character: _,
            spelled: _,
        } => false,
    }
}

/// The byte at which a token begins.
pub fn place_of(token: &Token) -> u64
    ensures { result ≡ tokens.place_of token.now }
{
    match token {
        Token::Start { tag } => tag.at,
        Token::Raw { tag, text: _ } => tag.at,
        Token::End { at, name: _ } => *at,
        Token::Comment { at } => *at,
        Token::Doctype { at } => *at,
        Token::Char {
            at,
            character: _,
            spelled: _,
        } => *at,
    }
}

pub fn attributes_of(alloc: Global, token: Token) -> List<Attribute>
    ensures { result ≡ tokens.attributes_of token }
{
    match token {
        Token::Start { tag } => tag.attributes,
        Token::Raw { tag, text: _ } => tag.attributes,
        Token::End { at: _, name: _ } => List::new(alloc),
        Token::Comment { at: _ } => List::new(alloc),
        Token::Doctype { at: _ } => List::new(alloc),
        Token::Char {
            at: _,
            character: _,
            spelled: _,
        } => List::new(alloc),
    }
}

/// The fault that a token has after its own place.
pub fn late_of(token: &Token) -> Option<Fault>
    ensures { result ≡ tokens.late_of token.now }
{
    match token {
        Token::Start { tag } => tag.late,
        Token::Raw { tag, text: _ } => tag.late,
        Token::End { at: _, name: _ } => None,
        Token::Comment { at: _ } => None,
        Token::Doctype { at: _ } => None,
        Token::Char {
            at: _,
            character: _,
            spelled: _,
        } => None,
    }
}

fn reference_at(at: Option<u64>) -> Option<Found>
    ensures { result ≡ tokens.reference_at at }
{
    match at {
        Some(offset) => Some(Found {
            offset,
            name: ConstructName::Reference,
        }),
        None => None,
    }
}

/// The first in a tag that isn't laid out: the element stands before the references in its attributes.
fn tag_construct(tag: &Tag) -> Option<Found>
    ensures { result ≡ tokens.tag_construct tag.now }
{
    if names::is_refused(tag.name.as_slice()) {
        return Some(Found {
            offset: tag.at,
            name: ConstructName::Element,
        });
    }
    reference_at(tag.unknown)
}

fn char_construct(at: u64, spelled: Spelled) -> Option<Found>
    ensures { result ≡ tokens.char_construct at spelled }
{
    match spelled {
        Spelled::Plain => None,
        Spelled::Reference => None,
        Spelled::Unknown => reference_at(Some(at)),
    }
}

/// The first in a token that isn't laid out.
pub fn construct_of(token: &Token) -> Option<Found>
    ensures { result ≡ tokens.construct_of token.now }
{
    match token {
        Token::Start { tag } => tag_construct(tag),
        Token::Raw { tag, text: _ } => tag_construct(tag),
        Token::End { at: _, name: _ } => None,
        Token::Comment { at: _ } => None,
        Token::Doctype { at: _ } => None,
        Token::Char {
            at,
            character: _,
            spelled,
        } => char_construct(*at, *spelled),
    }
}

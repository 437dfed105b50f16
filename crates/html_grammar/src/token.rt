use crate::dom::Attribute;
use mc_base::{Fault, List, Text};

/// A text, and the byte of the input at which it begins.
#[derive(Drop)]
pub struct Piece {
    pub at: u64,
    pub text: Text,
}

/// A start tag, with the byte of its `<` and its name in lower case.
///
/// `unknown` is the place of the first reference in its attributes whose name isn't in the table. `late` is the first
/// fault that what it spells has after its own place: it comes after what is wrong at the tag itself.
#[derive(Drop)]
pub struct Tag {
    pub at: u64,
    pub name: Text,
    pub attributes: List<Attribute>,
    pub unknown: Option<u64>,
    pub late: Option<Fault>,
}

/// How a character of a text is written: as itself, by a reference, or as the `&` of a reference whose name isn't in
/// the table.
#[derive(Clone, Copy)]
pub enum Spelled {
    Plain,
    Reference,
    Unknown,
}

/// What a document is written in. Text is one token for each character.
///
/// `Raw` is a whole element whose content is raw text: start tag, text and end tag.
#[derive(Drop)]
pub enum Token {
    Start {
        tag: Tag,
    },
    Raw {
        tag: Tag,
        text: Option<Piece>,
    },
    End {
        at: u64,
        name: Text,
    },
    Comment {
        at: u64,
    },
    Doctype {
        at: u64,
    },
    Char {
        at: u64,
        character: char,
        spelled: Spelled,
    },
}

/// What a `&` begins: text, a reference whose name isn't in the table, one that names no character, or a character.
#[derive(Clone, Copy)]
pub enum Meaning {
    Plain,
    Unknown,
    Bad,
    Character { character: char },
}

/// An attribute's value, and the places of the first reference in it whose name isn't in the table, and of the first
/// that names no character.
#[derive(Drop)]
pub struct Value {
    pub text: Text,
    pub unknown: Option<u64>,
    pub bad: Option<u64>,
}

/// An attribute, with what is to be known of its value.
#[derive(Drop)]
pub struct ReadAttribute {
    pub name: Text,
    pub value: Value,
    pub offset: u64,
}

/// The attributes of a tag so far, and the first places as in `Value`.
#[derive(Drop)]
pub struct ReadAttributes {
    pub all: List<Attribute>,
    pub unknown: Option<u64>,
    pub bad: Option<u64>,
}

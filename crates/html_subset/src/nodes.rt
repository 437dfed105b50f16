//! Nodes of a document, one after the other.

ghost use Rattle.std.specs.Prelude.{◌≡◌, ◌∷◌, [], ◌++◌, ◌<◌, ◌^◌, length, Some, OnOk};
ghost use Rattle.html_grammar.specs.Tree.{element_node, words_node};
ghost use Rattle.html_grammar.specs.Machine as machine;

use html_grammar::{Attribute, DomNode, NodeKind, Piece, Tag, Token};
use mc_base::{List, Text};
use std::alloc::{AllocError, Global};

/// Adds an element of this name.
fn push_element(
    nodes: &mut Vec<DomNode>,
    parent: Option<u32>,
    at: u64,
    name: Text,
    attributes: List<Attribute>,
) -> Result<(), AllocError>
    ensures { OnOk result (nodes.new.items ≡ nodes.old.items ++ element_node parent at name attributes ∷ []) }
{
    nodes.push(DomNode {
        parent,
        offset: at,
        kind: NodeKind::Element { name, attributes },
    })?;
    Ok(())
}

/// Adds an element by its start tag.
pub fn push_tag(nodes: &mut Vec<DomNode>, parent: Option<u32>, tag: Tag) -> Result<(), AllocError>
    ensures { OnOk result (nodes.new.items ≡ nodes.old.items ++ element_node parent tag.at tag.name tag.attributes ∷ []) }
{
    push_element(nodes, parent, tag.at, tag.name, tag.attributes)
}

/// Adds one of `html`, `head` and `body`.
pub fn push_outer(
    alloc: Global,
    nodes: &mut Vec<DomNode>,
    parent: Option<u32>,
    at: u64,
    name: &[u8],
    attributes: List<Attribute>,
) -> Result<(), AllocError>
    ensures { OnOk result (nodes.new.items ≡ nodes.old.items ++ element_node parent at name.now attributes ∷ []) }
{
    let name = Text::of(Vec::from_slice(alloc, name)?);
    push_element(nodes, parent, at, name, attributes)
}

/// Adds a text.
pub fn push_words(
    nodes: &mut Vec<DomNode>,
    parent: Option<u32>,
    piece: Piece,
) -> Result<(), AllocError>
    ensures { OnOk result (nodes.new.items ≡ nodes.old.items ++ words_node parent piece.at piece.text ∷ []) }
{
    let Piece { at, text } = piece;
    nodes.push(DomNode {
        parent,
        offset: at,
        kind: NodeKind::Words { text },
    })?;
    Ok(())
}

/// Adds an element of raw text.
pub fn push_raw(
    nodes: &mut Vec<DomNode>,
    parent: Option<u32>,
    tag: Tag,
    text: Option<Piece>,
) -> Result<(), AllocError>
    requires { length nodes.old.items < 2 ^ 32 }
    ensures { OnOk result (nodes.new.items ≡ machine.with_raw nodes.old.items parent tag text) }
{
    let number = nodes.len() as u32;
    push_tag(nodes, parent, tag)?;
    match text {
        Some(piece) => push_words(nodes, Some(number), piece),
        None => Ok(()),
    }
}

/// Adds an element of the head, whose number is 1.
pub fn push_head_element(nodes: &mut Vec<DomNode>, token: Token) -> Result<(), AllocError>
    requires { length nodes.old.items < 2 ^ 32 }
    ensures { OnOk result (nodes.new.items ≡ machine.head_element nodes.old.items token) }
{
    match token {
        Token::Start { tag } => push_raw(nodes, Some(1), tag, None),
        Token::Raw { tag, text } => push_raw(nodes, Some(1), tag, text),
        Token::End { at: _, name: _ } => Ok(()),
        Token::Comment { at: _ } => Ok(()),
        Token::Doctype { at: _ } => Ok(()),
        Token::Char {
            at: _,
            character: _,
            spelled: _,
        } => Ok(()),
    }
}

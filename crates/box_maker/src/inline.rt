//! The inline content of blocks.

ghost use Rattle.std.specs.Prelude.{◌≡◌, ◌<◌, ◌≤◌, ◌++◌, ℕ, suc, false, Option, Some, IfOk, OnOk, slice_get, IsUtf8};
ghost use Rattle.html_grammar.specs.Tree.{Forest};
ghost use Rattle.inline_text.specs.WhiteSpace as white_space;
ghost use Rattle.box_data.specs.Styles.{style_of, texts_of};
ghost use Rattle.box_data.specs.BoxTree as boxes;
ghost use Rattle.box_maker.specs.Standing as standing;
ghost use Rattle.box_maker.specs.Standing.{Stands};
ghost use Rattle.box_maker.specs.Parts.{text_pieces};

use crate::reading::{height_of, is_break, is_chance, is_image, is_shown_at, width_of};
use crate::source::{Source, after, node_at, starts_block};
use html_grammar::{Attribute, NodeKind};
use inline_text::{Piece, collapse_pieces};
use mc_base::NoMemory;
use std::alloc::Global;

/// The piece of an image, element k.
pub fn image_piece(k: u32, attributes: &[Attribute]) -> Piece
    ensures { result ≡ boxes.image_piece k attributes.now }
{
    Piece::Image {
        w: width_of(attributes).unwrap_or(0),
        h: height_of(attributes).unwrap_or(0),
        style: k,
    }
}

/// Adds the characters of a text.
fn push_characters(pieces: &mut Vec<Piece>, text: &str, parent: u32) -> Result<(), NoMemory>
    ensures { OnOk result (pieces.new.items ≡ pieces.old.items ++ text_pieces parent text.now) }
{
    for ch in text.chars() {
        pieces.push(Piece::Char { ch, style: parent })?;
    }
    Ok(())
}

/// Adds the characters of a text in UTF-8.
fn push_text(pieces: &mut Vec<Piece>, text: &[u8], parent: u32) -> Result<(), NoMemory>
    ensures { IsUtf8 text.now → OnOk result (pieces.new.items ≡ pieces.old.items ++ text_pieces parent text.now) }
{
    match str::from_utf8(text) {
        Ok(text) => push_characters(pieces, text, parent),
        Err(_) => Ok(()),
    }
}

/// Adds the pieces of inline element k, whose nodes end before `end`.
#[cycle(inline)]
fn push_element(
    source: &Source,
    pieces: &mut Vec<Piece>,
    k: u32,
    end: u32,
    name: &[u8],
    attributes: &[Attribute],
) -> Result<(), NoMemory>
    requires { k < end }
    ensures { (kids : Forest) → Stands source.now.nodes.now source.now.ends.now (Some k) (suc k) end kids →
        OnOk result (pieces.new.items ≡ pieces.old.items
        ++ boxes.inline_pieces (style_of source.now.styles.now k) k name.now attributes.now
        (boxes.front source.now.styles.now k (suc k) (boxes.with_characters kids))) }
{
    if !is_shown_at(source.styles, k) {
        return Ok(());
    }
    if is_image(name) {
        pieces.push(image_piece(k, attributes))?;
        return Ok(());
    }
    if is_break(name) {
        pieces.push(Piece::Forced)?;
        return Ok(());
    }
    if is_chance(name) {
        pieces.push(Piece::Chance)?;
        return Ok(());
    }
    push_front(source, pieces, k, k + 1, end)
}

/// Adds the pieces of node k of the element `parent`, which isn't block-level; its nodes end before `end`.
#[cycle(inline)]
fn push_node(
    source: &Source,
    pieces: &mut Vec<Piece>,
    parent: u32,
    k: u32,
    end: u32,
) -> Result<(), NoMemory>
    requires { k < end }
    ensures { (last : ℕ) (forest : Forest) →
        Stands source.now.nodes.now source.now.ends.now (Some parent) k last forest →
        k < last → slice_get source.now.ends.now k ≡ Some end →
        standing.starts_block source.now.nodes.now source.now.styles.now k ≡ false →
        OnOk result ((rest : Forest) × Stands source.now.nodes.now source.now.ends.now (Some parent) end last rest
        × (pieces.new.items ++ boxes.front source.now.styles.now parent end (boxes.with_characters rest)
        ≡ pieces.old.items ++ boxes.front source.now.styles.now parent k (boxes.with_characters forest))) }
{
    match node_at(source, k) {
        Some(node) => match &node.kind {
            NodeKind::Element { name, attributes } => {
                push_element(
                    source,
                    pieces,
                    k,
                    end,
                    name.as_slice(),
                    attributes.as_slice(),
                )
            }
            NodeKind::Words { text } => push_text(pieces, text.as_slice(), parent),
        },
        None => Ok(()),
    }
}

/// Adds the inline content of the element `parent` from its node k on, up to the next block-level element or to `end`.
#[cycle(inline)]
pub fn push_front(
    source: &Source,
    pieces: &mut Vec<Piece>,
    parent: u32,
    k: u32,
    end: u32,
) -> Result<(), NoMemory>
    ensures { (forest : Forest) → Stands source.now.nodes.now source.now.ends.now (Some parent) k end forest →
        OnOk result (pieces.new.items
        ≡ pieces.old.items ++ boxes.front source.now.styles.now parent k (boxes.with_characters forest)) }
{
    let mut at = k;
    while at < end && !starts_block(source, at) {
        let next = after(source, at, end);
        push_node(source, pieces, parent, at, next)?;
        at = next;
    }
    Ok(())
}

/// The inline content of the element `parent` from its node k on, up to the next block-level element or to `end`, with white
/// space collapsed.
pub fn run_of(
    alloc: Global,
    source: &Source,
    parent: u32,
    k: u32,
    end: u32,
) -> Result<Vec<Piece>, NoMemory>
    requires { source.now.texts.now ≡ texts_of source.now.styles.now }
    ensures { (forest : Forest) → Stands source.now.nodes.now source.now.ends.now (Some parent) k end forest →
        IfOk result (λ run. run.items ≡ boxes.run_of source.now.styles.now
        (boxes.front source.now.styles.now parent k (boxes.with_characters forest))) }
{
    let mut pieces = Vec::new(alloc);
    push_front(source, &mut pieces, parent, k, end)?;
    let run = collapse_pieces(alloc, source.texts, pieces.as_slice())?;
    Ok(run)
}

fn is_chance_piece(piece: &Piece) -> bool
    ensures { result ≡ white_space.is_chance piece.now }
{
    match piece {
        Piece::Char { .. } | Piece::Image { .. } | Piece::Forced => false,
        Piece::Chance => true,
    }
}

/// Whether a run makes a line: it has more than break opportunities.
pub fn makes_line(run: &[Piece]) -> bool
    ensures { result ≡ boxes.makes_line run.now }
{
    run.iter().any(|piece| !is_chance_piece(piece))
}

//! The boxes of block-level elements.

ghost use Rattle.std.specs.Prelude.{◌≡◌, ◌<◌, ◌≤◌, ◌++◌, [], ℕ, suc, true, false, length, Option, Some, IfOk, OnOk, slice_get};
ghost use Rattle.html_grammar.specs.Tree.{Forest};
ghost use Rattle.box_data.specs.Styles.{style_of, texts_of};
ghost use Rattle.box_data.specs.BoxTree as boxes;
ghost use Rattle.box_maker.specs.Standing as standing;
ghost use Rattle.box_maker.specs.Standing.{Stands};
ghost use Rattle.box_maker.specs.Parts.{boxes_in, followed_by};

use crate::inline::{image_piece, makes_line, run_of};
use crate::reading::{is_container_at, is_empty, is_image, is_shown_at};
use crate::source::{Source, after, node_at, starts_block};
use box_data::{BoxKind, BoxNode, BoxStyle};
use html_grammar::{Attribute, NodeKind};
use inline_text::{Piece, Runs};
use mc_base::{List, NoMemory};
use std::alloc::Global;

/// The next block-level element from node k on, of nodes side by side that end before `end`, or `end`.
fn next_block(source: &Source, k: u32, end: u32) -> u32
    requires { k ≤ end }
    ensures bounds { (k ≤ result) × (result ≤ end) }
    ensures block { result < end → standing.starts_block source.now.nodes.now source.now.styles.now result ≡ true }
    ensures boxes { (parent : ℕ) (forest : Forest) →
        Stands source.now.nodes.now source.now.ends.now (Some parent) k end forest →
        (rest : Forest) × Stands source.now.nodes.now source.now.ends.now (Some parent) result end rest
        × (boxes.boxes_behind source.now.styles.now parent k (boxes.with_characters forest)
        ≡ boxes.boxes_behind source.now.styles.now parent result (boxes.with_characters rest))
        × (boxes.has_blocks source.now.styles.now k (boxes.with_characters forest)
        ≡ boxes.has_blocks source.now.styles.now result (boxes.with_characters rest)) }
{
    let mut at = k;
    while at < end && !starts_block(source, at) {
        at = after(source, at, end);
    }
    at
}

/// Whether a block-level element stands among the nodes from k up to `end`, side by side.
fn has_blocks(source: &Source, k: u32, end: u32) -> bool
    requires { k ≤ end }
    ensures { (parent : ℕ) (forest : Forest) →
        Stands source.now.nodes.now source.now.ends.now (Some parent) k end forest →
        result ≡ boxes.has_blocks source.now.styles.now k (boxes.with_characters forest) }
{
    next_block(source, k, end) < end
}

fn kind_of(styles: &[BoxStyle], k: u32, name: &[u8]) -> BoxKind
    ensures { result ≡ boxes.kind_of (style_of styles.now k) name.now }
{
    if is_image(name) {
        BoxKind::ImageBlock
    } else if is_container_at(styles, k, name) {
        BoxKind::Container
    } else {
        BoxKind::Block
    }
}

/// The inline content of a box, in which pieces name elements.
fn runs_of(alloc: Global, pieces: Vec<Piece>) -> Runs
    ensures { result ≡ record { pieces = pieces.items; styles = [] } }
{
    Runs {
        pieces: List::of(pieces),
        styles: List::new(alloc),
    }
}

/// The inline content of block-level element k, whose nodes end before `end`, if it has no block-level element in it.
fn own_runs(
    alloc: Global,
    source: &Source,
    k: u32,
    end: u32,
    name: &[u8],
    attributes: &[Attribute],
) -> Result<Option<Runs>, NoMemory>
    requires texts { source.now.texts.now ≡ texts_of source.now.styles.now }
    requires within { k < end }
    ensures { (kids : Forest) → Stands source.now.nodes.now source.now.ends.now (Some k) (suc k) end kids →
        IfOk result (λ runs. runs
        ≡ boxes.runs_of (boxes.own_run source.now.styles.now k name.now attributes.now (boxes.with_characters kids))) }
{
    if is_image(name) {
        let piece = vec![in alloc; image_piece(k, attributes)]?;
        return Ok(Some(runs_of(alloc, piece)));
    }
    if is_empty(name) || has_blocks(source, k + 1, end) {
        return Ok(None);
    }
    let run = run_of(alloc, source, k, k + 1, end)?;
    Ok(Some(runs_of(alloc, run)))
}

/// The number of the box after this many.
fn box_number(count: usize) -> Result<u32, NoMemory>
    ensures { IfOk result (λ number. number ≡ count) }
{
    match u32::try_from(count) {
        Ok(number) => Ok(number),
        Err(_) => Err(NoMemory),
    }
}

/// Adds the anonymous box of the inline content of the element `parent` from its node k on, if that makes a line, in the box
/// `number`. It returns the number of the next block-level element, or `end`.
fn push_run(
    alloc: Global,
    source: &Source,
    out: &mut List<BoxNode>,
    parent: u32,
    number: u32,
    k: u32,
    end: u32,
) -> Result<u32, NoMemory>
    requires texts { source.now.texts.now ≡ texts_of source.now.styles.now }
    requires within { k ≤ end }
    ensures bounds { IfOk result (λ next. (k ≤ next) × (next ≤ end)) }
    ensures block { IfOk result (λ next. next < end →
        standing.starts_block source.now.nodes.now source.now.styles.now next ≡ true) }
    ensures boxes { (forest : Forest) →
        Stands source.now.nodes.now source.now.ends.now (Some parent) k end forest →
        IfOk result (λ next. (rest : Forest)
        × Stands source.now.nodes.now source.now.ends.now (Some parent) next end rest
        × (followed_by number out.new
        (boxes.boxes_behind source.now.styles.now parent next (boxes.with_characters rest))
        ≡ followed_by number out.old (boxes_in source.now.styles.now parent k forest))) }
{
    let run = run_of(alloc, source, parent, k, end)?;
    if makes_line(run.as_slice()) {
        out.push(BoxNode {
            parent: Some(number),
            element: parent,
            kind: BoxKind::Anonymous,
            runs: Some(runs_of(alloc, run)),
        })?;
    }
    Ok(next_block(source, k, end))
}

/// Adds the box of block-level element k, whose nodes end before `end`, and those in it, in the box `around`.
#[cycle(boxes)]
pub fn push_element(
    alloc: Global,
    source: &Source,
    out: &mut List<BoxNode>,
    around: Option<u32>,
    k: u32,
    end: u32,
    name: &[u8],
    attributes: &[Attribute],
) -> Result<(), NoMemory>
    requires texts { source.now.texts.now ≡ texts_of source.now.styles.now }
    requires within { k < end }
    ensures { (kids : Forest) → Stands source.now.nodes.now source.now.ends.now (Some k) (suc k) end kids →
        OnOk result (out.new ≡ out.old ++ boxes.box_nodes around (length out.old)
        (boxes.element_box source.now.styles.now k name.now attributes.now (boxes.with_characters kids)
        (boxes.boxes_behind source.now.styles.now k (suc k) (boxes.with_characters kids)) boxes.none)) }
{
    let number = box_number(out.len())?;
    out.push(BoxNode {
        parent: around,
        element: k,
        kind: kind_of(source.styles, k, name),
        runs: own_runs(alloc, source, k, end, name, attributes)?,
    })?;
    if !is_empty(name) && has_blocks(source, k + 1, end) {
        push_boxes(alloc, source, out, k, number, k + 1, end)?;
    }
    Ok(())
}

/// Adds the box of block-level node k, whose nodes end before `end`, and those in it, in the box `number`.
#[cycle(boxes)]
fn push_block(
    alloc: Global,
    source: &Source,
    out: &mut List<BoxNode>,
    number: u32,
    k: u32,
    end: u32,
) -> Result<(), NoMemory>
    requires texts { source.now.texts.now ≡ texts_of source.now.styles.now }
    requires within { k < end }
    ensures { (parent : ℕ) (last : ℕ) (forest : Forest) →
        Stands source.now.nodes.now source.now.ends.now (Some parent) k last forest →
        k < last → slice_get source.now.ends.now k ≡ Some end →
        standing.starts_block source.now.nodes.now source.now.styles.now k ≡ true →
        OnOk result ((rest : Forest) × Stands source.now.nodes.now source.now.ends.now (Some parent) end last rest
        × (followed_by number out.new (boxes_in source.now.styles.now parent end rest)
        ≡ followed_by number out.old
        (boxes.boxes_behind source.now.styles.now parent k (boxes.with_characters forest)))) }
{
    match node_at(source, k) {
        Some(node) => match &node.kind {
            NodeKind::Element { name, attributes } => push_element(
                alloc,
                source,
                out,
                Some(number),
                k,
                end,
                name.as_slice(),
                attributes.as_slice(),
            ),
            NodeKind::Words { text: _ } => Ok(()),
        },
        None => Ok(()),
    }
}

/// Adds the boxes in the element `parent` with box `number`, from its node k on.
#[cycle(boxes)]
fn push_boxes(
    alloc: Global,
    source: &Source,
    out: &mut List<BoxNode>,
    parent: u32,
    number: u32,
    k: u32,
    end: u32,
) -> Result<(), NoMemory>
    requires texts { source.now.texts.now ≡ texts_of source.now.styles.now }
    requires within { k ≤ end }
    ensures { (forest : Forest) → Stands source.now.nodes.now source.now.ends.now (Some parent) k end forest →
        OnOk result (out.new ≡ followed_by number out.old (boxes_in source.now.styles.now parent k forest)) }
{
    let mut at = push_run(alloc, source, out, parent, number, k, end)?;
    while at < end {
        let next = after(source, at, end);
        push_block(alloc, source, out, number, at, next)?;
        at = push_run(alloc, source, out, parent, number, next, end)?;
    }
    Ok(())
}

/// Adds the boxes of a document with this many nodes.
pub fn push_root(
    alloc: Global,
    source: &Source,
    out: &mut List<BoxNode>,
    count: u32,
) -> Result<(), NoMemory>
    requires texts { source.now.texts.now ≡ texts_of source.now.styles.now }
    ensures { (forest : Forest) → Stands source.now.nodes.now source.now.ends.now None 0 count forest →
        OnOk result (out.new ≡ out.old ++ boxes.box_nodes None (length out.old)
        (boxes.boxes_of source.now.styles.now (boxes.with_characters forest))) }
{
    if count == 0 {
        return Ok(());
    }
    if !is_shown_at(source.styles, 0) {
        return Ok(());
    }
    let end = after(source, 0, count);
    match node_at(source, 0) {
        Some(node) => match &node.kind {
            NodeKind::Element { name, attributes } => push_element(
                alloc,
                source,
                out,
                None,
                0,
                end,
                name.as_slice(),
                attributes.as_slice(),
            ),
            NodeKind::Words { text: _ } => Ok(()),
        },
        None => Ok(()),
    }
}

//! All boxes of a document in their places.

ghost use Rattle.std.specs.Prelude.{◌≡◌, ℕ, ◌*◌, ◌≤◌, ◌<◌, ◌^◌, ◌⊎◌, List as Items, [], All, None, Some, length, IfOk, IfErr};
ghost use Rattle.mc_base.specs.declared.refusal.Refusal.TheVariants.{NoMemory as Memory};
ghost use Rattle.box_data.specs.Bounds.{IsShortNode};
ghost use Rattle.box_data.specs.BoxTree.{Boxes, Node, in_order, box_nodes};
ghost use Rattle.box_data.specs.Limits.{all_used_lengths, long, used_lengths};
ghost use Rattle.box_data.specs.Widths as widths;
ghost use Rattle.box_places.specs.Bounds.{IsFramed, IsLow, IsWithin};
ghost use Rattle.box_places.specs.Parts.{block_of};
ghost use Rattle.box_places.specs.Passes as passes;

use crate::limits::check_lengths;
use crate::place::{ContainingBlock, inside, outermost};
use crate::placing::placed_one;
use box_data::{BoxNode, BoxStyle, BoxTree, Placed};
use mc_base::{List, Refusal, Units};
use std::alloc::Global;

/// The block around a box, by the number of the box that makes it.
fn around_of(
    outer: &ContainingBlock,
    blocks: &[ContainingBlock],
    parent: Option<u32>,
) -> ContainingBlock
    ensures value { result ≡ passes.around_of outer.now blocks.now parent }
    ensures within { (reach : ℕ) → IsWithin reach outer.now → All (IsWithin reach) blocks.now → IsWithin reach result }
{
    match parent {
        None => *outer,
        Some(parent) => match blocks.get(parent as usize) {
            None => *outer,
            Some(block) => *block,
        },
    }
}

/// A box in its containing block, if none of its used lengths is too long.
#[tactic(auto, using(crate::proofs::LongLengths::low))]
fn next_place(
    alloc: Global,
    styles: &[BoxStyle],
    node: &BoxNode,
    number: u32,
    around: &ContainingBlock,
) -> Result<Placed, Refusal>
    requires short { IsShortNode styles.now node.now }
    requires around { IsWithin (2 ^ 60) around.now }
    ensures value { IfOk result (λ p. p ≡ passes.placed_in styles.now number node.now around.now) }
    ensures framed { (reach : ℕ) → IsWithin reach around.now → IfOk result (IsFramed reach) }
    ensures lengths { IfOk result (λ p. long (used_lengths p) ≡ None) }
    ensures low { IfOk result IsLow }
    ensures refused { IfErr result
        (λ e. (e ≡ Memory) ⊎ (long (used_lengths (passes.placed_in styles.now number node.now around.now)) ≡ Some e)) }
{
    let place = placed_one(alloc, styles, node, number, around)?;
    check_lengths(&place)?;
    Ok(place)
}

/// The boxes of a list in their places.
fn all_places(
    alloc: Global,
    nodes: &[BoxNode],
    styles: &[BoxStyle],
    width: Units,
) -> Result<List<Placed>, Refusal>
    requires wide { width < 2 ^ 60 }
    requires few { length nodes.now ≤ 2 ^ 30 }
    requires short { All (IsShortNode styles.now) nodes.now }
    ensures value { IfOk result (λ places. places ≡ passes.all_placed styles.now width nodes.now) }
    ensures lengths { IfOk result (λ places. long (all_used_lengths places) ≡ None) }
    ensures refused { IfErr result
        (λ e. (e ≡ Memory) ⊎ (long (all_used_lengths (passes.all_placed styles.now width nodes.now)) ≡ Some e)) }
{
    let outer = outermost(width);
    let mut places = List::new(alloc);
    let mut blocks = Vec::new(alloc);
    for (number, node) in nodes.iter().enumerate() {
        let around = around_of(&outer, &blocks, node.parent);
        let place = next_place(alloc, styles, node, number as u32, &around)?;
        blocks.push(inside(&place, &around))?;
        places.push(place)?;
    }
    Ok(places)
}

/// The boxes of a document that is `width` units wide, each with its used widths in its place and still without lines, in
/// document order (CSS 2.1, sections 8, 10.3 and 10.4; CSS Multi-column 1, sections 3.4 and 6).
///
/// The width is below 2^60 units, the boxes are at most 2^30, and no length of their styles is above 2^24 units. Refused: the
/// first used length in document order that is above 2^24 units, or out of memory.
pub fn places(
    alloc: Global,
    boxes: &BoxTree,
    styles: &[BoxStyle],
    width: Units,
) -> Result<List<Placed>, Refusal>
    requires wide { width < 2 ^ 60 }
    requires few { length boxes.now.nodes ≤ 2 ^ 30 }
    requires short { All (IsShortNode styles.now) boxes.now.nodes }
    ensures places { (tree : Boxes Node) → boxes.now.nodes ≡ box_nodes None 0 tree →
        IfOk result (λ places. (places ≡ in_order (widths.placed styles.now [] width tree))
        × (long (all_used_lengths places) ≡ None)) }
    ensures refused { (tree : Boxes Node) → boxes.now.nodes ≡ box_nodes None 0 tree →
        IfErr result (λ e. (e ≡ Memory)
        ⊎ (long (all_used_lengths (in_order (widths.placed styles.now [] width tree))) ≡ Some e)) }
{
    all_places(alloc, boxes.nodes.as_slice(), styles, width)
}

//! The pieces of a layout, in the order of its tree.

ghost use Rattle.std.specs.Prelude.{◌≡◌, ◌<◌, ◌++◌, ◌∷◌, [], All, OnOk, length, map};
ghost use Rattle.flow_data.specs.declared.data.FlowsData.{FlowsData};
ghost use Rattle.frag_pool.specs.Nodes.{Nodes};
ghost use Rattle.piece_data.specs.Lowering.{Flags, pieces_in_stack};
ghost use Rattle.tree_lowering.specs.Met.{one_met};
ghost use Rattle.row_all.specs.Answered.{IsTrueLine, piece_of};
ghost use Rattle.row_all.specs.Parts.{AreInside, AreParts, IsBelow, IsTruePart, met_of, pieces_of_parts};

use crate::answer::PieceLine;
use crate::copies::line_of;
use crate::engine::Part;
use mc_base::{List, NoMemory};
use std::alloc::Global;

/// Adds the pieces in a stack, with those in the stacks in it in their places; at most `nested` stacks stand one inside another.
#[cycle(listing)]
pub fn put_pieces(
    alloc: Global,
    out: &mut List<PieceLine>,
    parts: &[List<Part>],
    nested: u32,
    stack: u32,
) -> Result<(), NoMemory>
    requires stack { stack < length parts.now }
    requires inside { AreInside parts.now }
    ensures pieces { (d : FlowsData) (flags : Flags) (p : Nodes) → AreParts d flags p parts.now →
        OnOk result (map piece_of out.new ≡ map piece_of out.old ++ pieces_in_stack d flags nested stack) }
    ensures lines { (d : FlowsData) (flags : Flags) (p : Nodes) → AreParts d flags p parts.now →
        All (IsTrueLine d p) out.old → OnOk result (All (IsTrueLine d p) out.new) }
{
    if nested == 0 {
        return Ok(());
    }
    let own = &parts[stack as usize];
    put_parts(alloc, out, parts, nested - 1, own.as_slice())
}

/// Adds the pieces in these parts of a stack.
#[cycle(listing)]
fn put_parts(
    alloc: Global,
    out: &mut List<PieceLine>,
    parts: &[List<Part>],
    nested: u32,
    own: &[Part],
) -> Result<(), NoMemory>
    requires inside { AreInside parts.now }
    requires own { All (IsBelow (length parts.now)) own.now }
    ensures pieces { (d : FlowsData) (flags : Flags) (p : Nodes) → AreParts d flags p parts.now →
        OnOk result (map piece_of out.new ≡ map piece_of out.old ++ pieces_of_parts d flags nested own.now) }
    ensures lines { (d : FlowsData) (flags : Flags) (p : Nodes) → AreParts d flags p parts.now →
        All (IsTruePart d p) own.now → All (IsTrueLine d p) out.old → OnOk result (All (IsTrueLine d p) out.new) }
{
    for part in own {
        put_part(alloc, out, parts, nested, part)?;
    }
    Ok(())
}

/// Adds a piece, or the pieces in a stack.
#[cycle(listing)]
fn put_part(
    alloc: Global,
    out: &mut List<PieceLine>,
    parts: &[List<Part>],
    nested: u32,
    part: &Part,
) -> Result<(), NoMemory>
    requires inside { AreInside parts.now }
    requires below { IsBelow (length parts.now) part.now }
    ensures pieces { (d : FlowsData) (flags : Flags) (p : Nodes) → AreParts d flags p parts.now →
        OnOk result (map piece_of out.new ≡ map piece_of out.old ++ one_met (pieces_in_stack d flags nested) (met_of part.now)) }
    ensures lines { (d : FlowsData) (flags : Flags) (p : Nodes) → AreParts d flags p parts.now →
        IsTruePart d p part.now → All (IsTrueLine d p) out.old → OnOk result (All (IsTrueLine d p) out.new) }
{
    match part {
        Part::Piece(line) => put_line(alloc, out, line),
        Part::Stack(number) => put_pieces(alloc, out, parts, nested, *number),
    }
}

/// Adds a piece.
fn put_line(alloc: Global, out: &mut List<PieceLine>, line: &PieceLine) -> Result<(), NoMemory>
    ensures { OnOk result (out.new ≡ out.old ++ line.now ∷ []) }
{
    let copy = line_of(alloc, line)?;
    out.push(copy)?;
    Ok(())
}

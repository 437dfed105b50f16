//! The lines of the tree.

ghost use Rattle.std.specs.Prelude.{◌≡◌, ◌<◌, ◌++◌, None, length, IfOk, IfSome};
ghost use Rattle.flow_list.specs.TreeText.{tree_text};
ghost use Rattle.piece_data.specs.Lowering.{Flags, lowered_tree};
ghost use Rattle.lowered_laws.specs.Layout.{IsLoweredLayout};
ghost use Rattle.tree_lines.specs.Lines.{lines_of};

use flow_list::{Flows, Laid, flow_counts};
use frag_pool::Pool;
use lowered_laws::lowered_layouts_are_printed;
use mc_base::{List, NoMemory, Text};
use std::alloc::Global;
use tree_lines::{TreeLine, put_line, tree_lines};

/// The lines of a layout whose flagged pieces are lowered, whose ids live in the pool.
pub fn lines_of_layout(
    alloc: Global,
    flows: &Flows,
    laid: &Laid,
    pool: &Pool,
) -> Result<List<TreeLine>, NoMemory>
    requires { (flags : Flags) × IsLoweredLayout flows.now flags laid.now pool.now }
    ensures { (flags : Flags) → IsLoweredLayout flows.now flags laid.now pool.now →
        IfOk result (λ lines. lines_of lines ≡ lowered_tree flows.now flags) }
{
    // Sealed flows are sound.
    let _counts = flow_counts(flows);
    lowered_layouts_are_printed();
    tree_lines(alloc, flows, laid, pool)
}

/// The text of lines after `front`, or None where both have more than `most` bytes. It puts no line after the first that doesn't
/// fit.
pub fn write_lines(
    alloc: Global,
    lines: &List<TreeLine>,
    front: Text,
    most: u64,
) -> Result<Option<Text>, NoMemory>
    ensures text { IfOk result (λ found. IfSome found (λ text. text ≡ front ++ tree_text (lines_of lines.now))) }
    ensures long { IfOk result (λ found. found ≡ None → most < length (front ++ tree_text (lines_of lines.now))) }
{
    let mut text = front;
    for line in lines.as_slice() {
        put_line(alloc, &mut text, line)?;
        if text.len() as u64 > most {
            return Ok(None);
        }
    }
    Ok(Some(text))
}

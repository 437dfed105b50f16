//! The text of a layout's tree.

ghost use Rattle.std.specs.Prelude.{◌≡◌, ◌<◌, ◌≤◌, ◌++◌, None, length, IfOk, IfSome};
ghost use Rattle.flow_list.specs.Tree.{tree_of};
ghost use Rattle.flow_list.specs.TreeText.{tree_text};
ghost use Rattle.tree_laws.specs.Layout.{IsLayout};
ghost use Rattle.tree_lines.specs.Lines.{lines_of};

use flow_list::{Flows, Laid, flow_counts};
use frag_pool::Pool;
use mc_base::{List, NoMemory, Text};
use std::alloc::Global;
use tree_laws::layouts_are_printed;
use tree_lines::{TreeLine, put_line, tree_lines};

/// The text of lines after `front`, or None where both have more than `most` bytes.
fn write_lines(
    alloc: Global,
    lines: &List<TreeLine>,
    front: Text,
    most: u64,
) -> Result<Option<Text>, NoMemory>
    requires { length front ≤ most }
    ensures text { IfOk result (λ found. IfSome found (λ text. text ≡ front ++ tree_text (lines_of lines.now))) }
    ensures short { IfOk result (λ found. IfSome found (λ text. length text ≤ most)) }
    ensures long { IfOk result (λ found. found ≡ None → most < length (front ++ tree_text (lines_of lines.now))) }
{
    let mut text = front;
    for line in lines.as_slice() {
        put_line(alloc, &mut text, line)?;
        if text.len() as u64 > most {
            return Ok(None);
        }
    }
    Ok(Some(text))
}

/// The text of the tree of a layout after `front`, or None where both have more than `most` bytes: a line for each stack,
/// row, column, box and item, with its depth and its rectangle from the document's top left, in units (1 unit = 1/64 px).
/// It puts no line after the first that doesn't fit.
///
/// Condition: `laid` is the layout of the flows, its ids live in the pool. The error is out of memory.
pub fn write_tree_within(
    alloc: Global,
    flows: &Flows,
    laid: &Laid,
    pool: &Pool,
    front: Text,
    most: u64,
) -> Result<Option<Text>, NoMemory>
    requires layout { IsLayout flows.now laid.now pool.now }
    requires room { length front ≤ most }
    ensures text { IfOk result (λ found. IfSome found (λ text. text ≡ front ++ tree_text (tree_of flows.now))) }
    ensures short { IfOk result (λ found. IfSome found (λ text. length text ≤ most)) }
    ensures long { IfOk result (λ found. found ≡ None → most < length (front ++ tree_text (tree_of flows.now))) }
{
    // Sealed flows are sound.
    let _counts = flow_counts(flows);
    layouts_are_printed();
    let lines = tree_lines(alloc, flows, laid, pool)?;
    write_lines(alloc, &lines, front, most)
}

/// The text of the tree of a layout, of any length, under the conditions of `write_tree_within`.
pub fn write_tree(alloc: Global, flows: &Flows, laid: &Laid, pool: &Pool) -> Result<Text, NoMemory>
    requires { IsLayout flows.now laid.now pool.now }
    ensures { IfOk result (λ text. text ≡ tree_text (tree_of flows.now)) }
{
    // No memory holds more bytes than a u64 counts.
    match write_tree_within(alloc, flows, laid, pool, Text::new(alloc), u64::MAX)? {
        Some(text) => Ok(text),
        None => Err(NoMemory),
    }
}

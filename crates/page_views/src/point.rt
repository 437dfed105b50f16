//! What stands at a point.

ghost use Rattle.std.specs.Prelude.{◌≡◌, ◌⊎◌, ◌++◌, map, slice_get, IfOk, IfErr, OnOk};
ghost use Rattle.flow_list.specs.Tree.{tree_of};
ghost use Rattle.hit_index.specs.Scan.{hit, mark_of};
ghost use Rattle.tree_lines.specs.Lines.{lines_of};
ghost use Rattle.page_views.specs.Shown.{IsView, HasLongView};
ghost use Rattle.page_views.specs.Views.{hit_text, leaf_text, numbered_text, text_of_line};

use crate::limit::limited;
use crate::lines::laid_lines;
use flow_list::Flows;
use hit_index::Index;
use mc_base::{List, NoMemory, Refusal, Text, Units};
use std::alloc::Global;
use tree_lines::{TreeLine, put_line};

/// Adds the text of the line with this number.
fn put_numbered(
    alloc: Global,
    out: &mut Text,
    lines: &[TreeLine],
    number: u64,
) -> Result<(), NoMemory>
    ensures { OnOk result (out.new ≡ out.old ++ text_of_line (slice_get (lines_of lines.now) number)) }
{
    match lines.get(number as usize) {
        Some(line) => put_line(alloc, out, line),
        None => Ok(()),
    }
}

/// The text of the lines with these numbers.
fn numbered_text(alloc: Global, lines: &[TreeLine], numbers: &[u64]) -> Result<Text, NoMemory>
    ensures { IfOk result (λ text. text ≡ numbered_text (lines_of lines.now) numbers.now) }
{
    let mut text = Text::new(alloc);
    for number in numbers {
        put_numbered(alloc, &mut text, lines, *number)?;
    }
    Ok(text)
}

/// The text of the lines of a tree at a point.
fn point_text(alloc: Global, lines: &List<TreeLine>, x: Units, y: Units) -> Result<Text, NoMemory>
    ensures { IfOk result (λ text. text ≡ leaf_text (lines_of lines.now) (hit (map mark_of (lines_of lines.now)) x y)) }
{
    let index = Index::of(alloc, lines)?;
    match index.hit(x, y) {
        Some(leaf) => {
            let path = index.path(alloc, leaf)?;
            numbered_text(alloc, lines.as_slice(), path.as_slice())
        }
        None => {
            let mut text = Text::new(alloc);
            text.extend(b"none\n")?;
            Ok(text)
        }
    }
}

/// What stands at a point of the layout, in units from the document's top left: the lines of the tree from stack 0 to the last
/// leaf that holds the point, or `none` (this project's own). A text of more than `TEXT_LIMIT` bytes is refused by the limit of
/// results; the other error is out of memory.
#[tactic(auto, unfolding(crate::specs::Views::hit_text))]
pub fn hit_result(alloc: Global, flows: &Flows, x: Units, y: Units) -> Result<Text, Refusal>
    ensures ok { IfOk result (IsView (hit_text x y) (λ d. d ≡ flows.now)) }
    ensures err { IfErr result (λ refusal. (refusal ≡ Refusal.NoMemory)
        ⊎ HasLongView (hit_text x y) (λ d. d ≡ flows.now) refusal) }
{
    let lines = laid_lines(alloc, flows)?;
    let text = point_text(alloc, &lines, x, y)?;
    limited(text)
}

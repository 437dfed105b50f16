//! Counts of a layout.

ghost use Rattle.std.specs.Prelude.{◌≡◌, ◌⊎◌, ◌++◌, IfOk, IfErr, OnOk};
ghost use Rattle.flow_list.specs.Stacks.{stack_height};
ghost use Rattle.flow_list.specs.Tree.{tree_of};
ghost use Rattle.tree_lines.specs.Lines.{kind_of, lines_of};
ghost use Rattle.mc_draw.specs.Shapes.{height_of};
ghost use Rattle.page_views.specs.Shown.{IsView, HasLongView};
ghost use Rattle.page_views.specs.Views.{is_column, columns_in, counted, counts_text, items_in, summary_text};

use crate::limit::limited;
use crate::lines::laid_lines;
use flow_list::{Flows, flow_counts, item_count};
use itoa::Buffer;
use mc_base::{NoMemory, Refusal, Text, Units};
use std::alloc::Global;
use tree_lines::{TreeKind, TreeLine};

/// How many items all flows have.
fn items_in(flows: &Flows) -> u64
    ensures { result ≡ items_in flows.now }
{
    let counts = flow_counts(flows);
    let mut items = 0;
    for flow in 0..counts.flows {
        items += u64::from(item_count(flows, flow));
    }
    items
}

fn is_column(kind: &TreeKind) -> bool
    ensures { result ≡ is_column (kind_of kind.now) }
{
    match kind {
        TreeKind::Stack { .. } => false,
        TreeKind::Row { .. } => false,
        TreeKind::Col { .. } => true,
        TreeKind::Piece { .. } => false,
        TreeKind::Line { .. } => false,
        TreeKind::Void { .. } => false,
        TreeKind::Image { .. } => false,
        TreeKind::Atom { .. } => false,
    }
}

/// How many columns stand among these lines.
#[tactic(auto, using(crate::proofs::Counted::columns_kept))]
fn columns_in(lines: &[TreeLine]) -> u64
    ensures { result ≡ columns_in (lines_of lines.now) }
{
    lines.iter().filter(|line| is_column(&line.kind)).count() as u64
}

/// The height of the first line.
fn first_height(lines: &[TreeLine]) -> Units
    ensures { result ≡ height_of (lines_of lines.now) }
{
    match lines {
        [] => 0,
        [first, ..] => first.rect.h,
    }
}

/// Adds a word and a number.
fn put(out: &mut Text, word: &[u8], number: u64) -> Result<(), NoMemory>
    ensures { OnOk result (out.new ≡ out.old ++ counted word.now number) }
{
    let mut buffer = Buffer::new();
    out.extend(word)?;
    out.extend(buffer.format(number).as_bytes())?;
    Ok(())
}

/// The line with these counts.
fn counts_text(
    alloc: Global,
    elements: u64,
    items: u64,
    columns: u64,
    height: Units,
) -> Result<Text, NoMemory>
    ensures { IfOk result (λ text. text ≡ counts_text elements items columns height) }
{
    let mut text = Text::new(alloc);
    put(&mut text, b"elements ", elements)?;
    put(&mut text, b" items ", items)?;
    put(&mut text, b" columns ", columns)?;
    put(&mut text, b" height ", height)?;
    text.push(b'\n')?;
    Ok(text)
}

/// The line of the flows' layout.
#[tactic(auto, unfolding(crate::specs::Views::summary_text))]
fn summary_text(alloc: Global, flows: &Flows, elements: u64) -> Result<Text, NoMemory>
    ensures { IfOk result (λ text. text ≡ summary_text elements flows.now) }
{
    let lines = laid_lines(alloc, flows)?;
    counts_text(
        alloc,
        elements,
        items_in(flows),
        columns_in(lines.as_slice()),
        first_height(lines.as_slice()),
    )
}

/// A line with counts: the elements of the document that the flows are of, the items of all flows, the columns of the layout,
/// and the height of stack 0 in units (this project's own). The one error is out of memory, or the limit of results.
pub fn summary_result(alloc: Global, flows: &Flows, elements: u64) -> Result<Text, Refusal>
    ensures ok { IfOk result (IsView (summary_text elements) (λ d. d ≡ flows.now)) }
    ensures err { IfErr result (λ refusal. (refusal ≡ Refusal.NoMemory)
        ⊎ HasLongView (summary_text elements) (λ d. d ≡ flows.now) refusal) }
{
    let text = summary_text(alloc, flows, elements)?;
    limited(text)
}

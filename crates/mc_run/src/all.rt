//! The layout of a document with each cut piece of a row as low as it can be, where the row asks for it.

ghost use Rattle.std.specs.Prelude.{◌≡◌, ◌≤◌, ◌<◌, ◌^◌, ◌⊎◌, length, None, IfOk, IfErr, IfSome};
ghost use Rattle.all_writer.specs.AllText.{all_text};
ghost use Rattle.page_views.specs.Shown.{text_limit};
ghost use Rattle.mc_run.specs.AllResult.{IsAllResult, IsLongAll, RefusesAll};

use crate::inputs::Texts;
use all_writer::write_all;
use container_layout::layout;
use doc_flows::{FlaggedFlows, flagged_flows};
use flow_list::Book;
use frag_pool::Pool;
use mc_base::{NoMemory, Refusal, Text, Units};
use page_views::{TEXT_LIMIT, too_long};
use row_all::layout_all;
use std::alloc::Global;

/// The text of the layout of flagged flows, or None where it has more than `most` bytes.
fn lowered_text(alloc: Global, flagged: &FlaggedFlows, most: u64) -> Result<Option<Text>, NoMemory>
    ensures text { IfOk result (λ found. IfSome found (λ text. text ≡ all_text flagged.now.flows flagged.now.flags)) }
    ensures short { IfOk result (λ found. IfSome found (λ text. length text ≤ most)) }
    ensures long { IfOk result (λ found. found ≡ None → most < length (all_text flagged.now.flows flagged.now.flags)) }
{
    let mut book = Book::new(alloc);
    let mut pool = Pool::new(alloc);
    let flows = &flagged.flows;
    let laid = layout(alloc, flows, &mut book, &mut pool)?;
    let all = layout_all(alloc, flows, &flagged.flags, &laid, &mut book, &mut pool)?;
    write_all(alloc, flows, &all, &pool, most)
}

/// The text of the layout of flagged flows, refused where it is too long.
fn print_all(alloc: Global, flagged: &FlaggedFlows) -> Result<Text, Refusal>
    ensures text { IfOk result (λ text. text ≡ all_text flagged.now.flows flagged.now.flags) }
    ensures short { IfOk result (λ text. length text ≤ text_limit) }
    ensures err { IfErr result (λ refusal. (refusal ≡ Refusal.NoMemory)
        ⊎ IsLongAll flagged.now.flows flagged.now.flags refusal) }
{
    match lowered_text(alloc, flagged, TEXT_LIMIT)? {
        Some(text) => Ok(text),
        None => Err(too_long()),
    }
}

/// The text of the layout of the document of these bytes.
fn bytes_all(
    alloc: Global,
    document: &[u8],
    sheet: &[u8],
    metrics: &[u8],
    width: Units,
    height: Option<Units>,
) -> Result<Text, Refusal>
    requires document { length document.now ≤ 4194304 }
    requires sheet { length sheet.now ≤ 1048576 }
    requires metrics { length metrics.now ≤ 1048576 }
    requires narrow { width < 2 ^ 60 }
    ensures ok { IfOk result (IsAllResult document.now sheet.now metrics.now width height) }
    ensures err { IfErr result (λ refusal. (refusal ≡ Refusal.NoMemory)
        ⊎ RefusesAll document.now sheet.now metrics.now width height refusal) }
{
    match flagged_flows(alloc, document, sheet, metrics, width, height) {
        Ok(flagged) => print_all(alloc, &flagged),
        Err(refusal) => Err(refusal),
    }
}

/// The text of the layout of a document with a style sheet and a table of metrics, `width` units wide and with an available
/// height, or any, in which each cut piece of a row that asks for it is as low as it can be.
pub fn all_result(
    alloc: Global,
    texts: &Texts,
    width: Units,
    height: Option<Units>,
) -> Result<Text, Refusal>
    requires document { length texts.now.document.items ≤ 4194304 }
    requires sheet { length texts.now.sheet.items ≤ 1048576 }
    requires metrics { length texts.now.metrics.items ≤ 1048576 }
    requires narrow { width < 2 ^ 60 }
    ensures ok { IfOk result (IsAllResult texts.now.document.items texts.now.sheet.items texts.now.metrics.items width height) }
    ensures err { IfErr result (λ refusal. (refusal ≡ Refusal.NoMemory)
        ⊎ RefusesAll texts.now.document.items texts.now.sheet.items texts.now.metrics.items width height refusal) }
{
    bytes_all(
        alloc,
        texts.document.as_slice(),
        texts.sheet.as_slice(),
        texts.metrics.as_slice(),
        width,
        height,
    )
}

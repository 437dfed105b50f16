//! The flows of a document from its bytes.

ghost use Rattle.std.specs.Prelude.{◌≡◌, ◌⊎◌, ◌<◌, ◌≤◌, ◌^◌, length, IfOk, IfErr};
ghost use Rattle.mc_base.specs.declared.refusal.Refusal.TheVariants as refusals;
ghost use Rattle.doc_flows.specs.Documents.{DocumentSays, RefusesDocument};

use crate::sheets::all_sheets;
use crate::texts::{Reading, read};
use crate::trees::tree_flows;
use flow_build::PlainLiner;
use flow_list::Flows;
use mc_base::{Refusal, Units};
use std::alloc::Global;

/// The flows of a document with a style sheet and a table of metrics, in a block container of this width and with this available
/// height for columns, if there is one, in units of 1/64 px.
///
/// Each text has at most 2^28 bytes, and the width is below 2^60. The author's sheet comes before those of the document's style
/// elements in the cascade (CSS Cascade 4, section 6). The first of these steps that refuses decides: the document, its style
/// attributes and style elements, the sheet and the metrics, by `Refusal::Grammar` or `Refusal::Limit`; then
/// `Refusal::Construct` for what isn't laid out in the document, in its style elements, in the sheet, and at an element that
/// makes a box; then `Refusal::Limit` for a computed or used length above the limit, and for the heights, columns and counts of
/// the flows. Out of memory may be answered for every document.
pub fn document_flows(
    alloc: Global,
    document: &[u8],
    sheet: &[u8],
    metrics: &[u8],
    width: Units,
    height: Option<Units>,
) -> Result<Flows, Refusal>
    requires document { length document.now ≤ 2 ^ 28 }
    requires sheet { length sheet.now ≤ 2 ^ 28 }
    requires metrics { length metrics.now ≤ 2 ^ 28 }
    requires wide { width < 2 ^ 60 }
    // What is answered are the flows of the document.
    ensures flows { IfOk result (λ flows. DocumentSays document.now sheet.now metrics.now width height flows) }
    // A refusal has its reason, the first in their order, unless memory ran out.
    ensures refused { IfErr result (λ e. (e ≡ refusals.NoMemory)
        ⊎ RefusesDocument document.now sheet.now metrics.now width height e) }
{
    let Reading {
        dom,
        own,
        author,
        fonts,
    } = read(alloc, document, sheet, metrics)?;
    let sheets = all_sheets(alloc, author, own.sheets)?;
    tree_flows(
        alloc,
        &dom,
        sheets.as_slice(),
        &fonts,
        width,
        height,
        &mut PlainLiner,
    )
}

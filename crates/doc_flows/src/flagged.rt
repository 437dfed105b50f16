//! Flows with the flags of their rows.

ghost use Rattle.std.specs.Prelude.{◌≡◌, ◌⊎◌, ◌≤◌, ◌<◌, ◌^◌, length, IfOk, IfErr};
ghost use Rattle.mc_base.specs.declared.refusal.Refusal.TheVariants as refusals;
ghost use Rattle.html_subset.specs.WellFormed.{IsWellFormed};
ghost use Rattle.css_cascade.specs.Attributes.{AllAreRead};
ghost use Rattle.row_flags.specs.Asking.{AreFlags, asking_rows, box_asks};
ghost use Rattle.doc_flows.specs.Documents.{DocumentSays, RefusesDocument};
ghost use Rattle.doc_flows.specs.Flags.{HasFlags, HasTreeFlags};
ghost use Rattle.doc_flows.specs.Trees.{TreeSays, RefusesTree};

use crate::sheets::all_sheets;
use crate::texts::{Reading, read};
use crate::trees::{BoxedFlows, laid_out, styled};
use css_cascade::Styles;
use css_data::Sheet;
use flow_build::PlainLiner;
use flow_list::Flows;
use font_table::Fonts;
use html_grammar::Dom;
use mc_base::{List, Refusal, Units};
use row_flags::flags;
use std::alloc::Global;

/// The flows of a document, and for each row whether the innermost box around it has `column-fill: balance-all`.
#[derive(Drop)]
pub struct FlaggedFlows {
    pub flows: Flows,
    pub flags: List<bool>,
}

/// Flows with the flags of their rows, by the boxes that they were made of and the styles of these.
fn with_flags(alloc: Global, all: BoxedFlows, styles: &Styles) -> Result<FlaggedFlows, Refusal>
    ensures same { IfOk result (λ flagged. flagged.flows ≡ all.flows) }
    ensures flags { IfOk result (λ flagged. AreFlags all.flows (asking_rows (box_asks styles.now all.boxes.nodes) all.flows)
        flagged.flags) }
    ensures memory { IfErr result (λ e. e ≡ refusals.NoMemory) }
{
    let BoxedFlows { boxes, flows } = all;
    let flags = flags(alloc, &flows, &boxes, styles)?;
    Ok(FlaggedFlows { flows, flags })
}

/// The flows of a document's tree with these sheets and fonts, and the flags of their rows.
fn flagged_tree(
    alloc: Global,
    dom: &Dom,
    sheets: &[Sheet],
    fonts: &Fonts,
    width: Units,
    height: Option<Units>,
) -> Result<FlaggedFlows, Refusal>
    requires formed { IsWellFormed dom.now }
    requires read { AllAreRead dom.now.nodes }
    requires wide { width < 2 ^ 60 }
    ensures flows { IfOk result (λ flagged. TreeSays dom.now sheets.now fonts.now width height flagged.flows) }
    ensures flags { IfOk result (λ flagged. HasTreeFlags dom.now sheets.now flagged.flows flagged.flags) }
    ensures refused { IfErr result (λ e. (e ≡ refusals.NoMemory) ⊎ RefusesTree dom.now sheets.now fonts.now width height e) }
{
    let styles = styled(alloc, dom, sheets)?;
    match laid_out(alloc, dom, &styles, fonts, width, height, &mut PlainLiner) {
        Ok(all) => with_flags(alloc, all, &styles),
        Err(refusal) => Err(refusal),
    }
}

/// The flows of a document as `document_flows` answers them, with a flag for each row: whether each of its pieces is to be as low
/// as it can be (CSS Multi-column 1, section 7.1).
///
/// The conditions and the errors are those of `document_flows`.
pub fn flagged_flows(
    alloc: Global,
    document: &[u8],
    sheet: &[u8],
    metrics: &[u8],
    width: Units,
    height: Option<Units>,
) -> Result<FlaggedFlows, Refusal>
    requires document { length document.now ≤ 2 ^ 28 }
    requires sheet { length sheet.now ≤ 2 ^ 28 }
    requires metrics { length metrics.now ≤ 2 ^ 28 }
    requires wide { width < 2 ^ 60 }
    // What is answered are the flows of the document.
    ensures flows { IfOk result (λ all. DocumentSays document.now sheet.now metrics.now width height all.flows) }
    // The flags are those of their rows.
    ensures flags { IfOk result (λ all. HasFlags document.now sheet.now metrics.now all.flows all.flags) }
    // A refusal has its reason, the first in their order, unless memory ran out.
    ensures refused { IfErr result (λ e. (e ≡ refusals.NoMemory)
        ⊎ RefusesDocument document.now sheet.now metrics.now width height e) }
{
    let Reading {
        dom,
        own,
        author,
        fonts,
    } = read(alloc, document, sheet, metrics)?;
    let sheets = all_sheets(alloc, author, own.sheets)?;
    flagged_tree(alloc, &dom, sheets.as_slice(), &fonts, width, height)
}

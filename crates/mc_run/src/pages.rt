//! What is shown of a document that is laid out.

ghost use Rattle.std.specs.Prelude.{◌≡◌, ◌≤◌, ◌<◌, ◌^◌, ◌⊎◌, length, IfOk, IfErr};
ghost use Rattle.page_views.specs.Shown.{IsView, HasLongView};
ghost use Rattle.mc_run.specs.FlowResult.{IsPageView, RefusesPageView};
ghost use Rattle.mc_run.specs.Viewed.{view_text};

use crate::inputs::Texts;
use crate::printing::print;
use doc_flows::document_flows;
use flow_list::Flows;
use mc_base::{Refusal, Text, Units};
use page_views::{draw_result, hit_result};
use std::alloc::Global;

/// What is shown of a layout.
#[derive(Clone, Copy)]
pub enum View {
    /// Its tree.
    Tree,
    /// What stands at a point.
    Point { x: Units, y: Units },
    /// Its drawing, with a rule this wide between columns.
    Drawing { rule: Units },
}

/// What is shown of flows.
fn shown(alloc: Global, flows: &Flows, view: View) -> Result<Text, Refusal>
    ensures ok { IfOk result (IsView (view_text view) (λ d. d ≡ flows.now)) }
    ensures err { IfErr result (λ refusal. (refusal ≡ Refusal.NoMemory)
        ⊎ HasLongView (view_text view) (λ d. d ≡ flows.now) refusal) }
{
    match view {
        View::Tree => print(alloc, flows),
        View::Point { x, y } => hit_result(alloc, flows, x, y),
        View::Drawing { rule } => draw_result(alloc, flows, rule),
    }
}

/// What is shown of the document of these bytes.
fn bytes_result(
    alloc: Global,
    document: &[u8],
    sheet: &[u8],
    metrics: &[u8],
    width: Units,
    height: Option<Units>,
    view: View,
) -> Result<Text, Refusal>
    requires document { length document.now ≤ 4194304 }
    requires sheet { length sheet.now ≤ 1048576 }
    requires metrics { length metrics.now ≤ 1048576 }
    requires narrow { width < 2 ^ 60 }
    ensures ok { IfOk result (IsPageView (view_text view) document.now sheet.now metrics.now width height) }
    ensures err { IfErr result (λ refusal. (refusal ≡ Refusal.NoMemory)
        ⊎ RefusesPageView (view_text view) document.now sheet.now metrics.now width height refusal) }
{
    match document_flows(alloc, document, sheet, metrics, width, height) {
        Ok(flows) => shown(alloc, &flows, view),
        Err(refusal) => Err(refusal),
    }
}

/// What is shown of a document with a style sheet and a table of metrics, laid out `width` units wide and with an available
/// height, or any.
pub fn page_result(
    alloc: Global,
    texts: &Texts,
    width: Units,
    height: Option<Units>,
    view: View,
) -> Result<Text, Refusal>
    requires document { length texts.now.document.items ≤ 4194304 }
    requires sheet { length texts.now.sheet.items ≤ 1048576 }
    requires metrics { length texts.now.metrics.items ≤ 1048576 }
    requires narrow { width < 2 ^ 60 }
    ensures ok { IfOk result (IsPageView (view_text view) texts.now.document.items texts.now.sheet.items texts.now.metrics.items
        width height) }
    ensures err { IfErr result (λ refusal. (refusal ≡ Refusal.NoMemory)
        ⊎ RefusesPageView (view_text view) texts.now.document.items texts.now.sheet.items texts.now.metrics.items width height
        refusal) }
{
    bytes_result(
        alloc,
        texts.document.as_slice(),
        texts.sheet.as_slice(),
        texts.metrics.as_slice(),
        width,
        height,
        view,
    )
}

//! How the layout of a generated document comes out.

ghost use Rattle.std.specs.Prelude.{◌≡◌, ◌≤◌, ◌⊎◌, [], None, length, IfOk, IfErr};
ghost use Rattle.doc_gen.specs.Trial.{trial_metrics};
ghost use Rattle.page_views.specs.Views.{summary_text};
ghost use Rattle.mc_run.specs.FlowResult.{IsPageView, RefusesPageView};
ghost use Rattle.mc_run.specs.Trial.{IsTrial, RefusesTrial, trial_width};

use doc_flows::document_flows;
use doc_gen::{element_count, generate, trial_metrics};
use mc_base::{Refusal, Text, Units};
use page_views::summary_result;
use std::alloc::Global;

/// 600 px.
const WIDTH: Units = 38_400;

/// The summary of the document of these bytes.
fn bytes_summary(alloc: Global, document: &[u8], elements: u64) -> Result<Text, Refusal>
    requires { length document.now ≤ 4194304 }
    ensures ok { IfOk result (IsPageView (summary_text elements) document.now [] trial_metrics trial_width None) }
    ensures err { IfErr result (λ refusal. (refusal ≡ Refusal.NoMemory)
        ⊎ RefusesPageView (summary_text elements) document.now [] trial_metrics trial_width None refusal) }
{
    match document_flows(alloc, document, b"", trial_metrics(), WIDTH, None) {
        Ok(flows) => summary_result(alloc, &flows, elements),
        Err(refusal) => Err(refusal),
    }
}

/// The summary of a generated document that is laid out: how many elements it has, how many items its flows, how many columns
/// there are, and how high it is.
pub fn trial_result(alloc: Global, start: u64, count: u32) -> Result<Text, Refusal>
    ensures ok { IfOk result (IsTrial start count) }
    ensures err { IfErr result (λ refusal. (refusal ≡ Refusal.NoMemory) ⊎ RefusesTrial start count refusal) }
{
    match generate(alloc, start, count) {
        Ok(text) => bytes_summary(alloc, text.as_slice(), element_count(count)),
        Err(refusal) => Err(refusal),
    }
}

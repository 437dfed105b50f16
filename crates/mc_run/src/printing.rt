//! The result of flows, within the limit of results.

ghost use Rattle.std.specs.Prelude.{◌≡◌, ◌⊎◌, IfOk, IfErr};
ghost use Rattle.mc_run.specs.FlowResult.{IsResult, HasLongResult};

use flow_list::Flows;
use mc_base::{Refusal, Text};
use page_views::TEXT_LIMIT;
use result_writer::result_or_limit;
use std::alloc::Global;

/// The result of flows, refused where it is too long.
pub fn print(alloc: Global, flows: &Flows) -> Result<Text, Refusal>
    ensures ok { IfOk result (IsResult (λ d. d ≡ flows.now)) }
    ensures err { IfErr result (λ refusal. (refusal ≡ Refusal.NoMemory) ⊎ HasLongResult (λ d. d ≡ flows.now) refusal) }
{
    match result_or_limit(alloc, flows, TEXT_LIMIT) {
        Ok(text) => Ok(text),
        Err(refusal) => Err(refusal),
    }
}

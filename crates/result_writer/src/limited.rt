//! The result of flows, or that it passes the limit of results.

ghost use Rattle.std.specs.Prelude.{◌≡◌, ◌<◌, ◌≤◌, ◌⊎◌, length, IfOk, IfErr};
ghost use Rattle.result_writer.specs.Printed.{result_text, IsLongResult};

use crate::write::result_within;
use flow_list::Flows;
use mc_base::{Refusal, Text};
use page_views::too_long;
use std::alloc::Global;

/// The result of flows, refused by the limit of results exactly where it has more than `most` bytes: those that are left of the
/// limit. The other error is out of memory.
pub fn result_or_limit(alloc: Global, flows: &Flows, most: u64) -> Result<Text, Refusal>
    ensures text { IfOk result (λ text. text ≡ result_text flows.now) }
    ensures short { IfOk result (λ text. length text ≤ most) }
    ensures err { IfErr result (λ refusal. (refusal ≡ Refusal.NoMemory) ⊎ IsLongResult flows.now most refusal) }
{
    match result_within(alloc, flows, most)? {
        Some(text) => Ok(text),
        None => Err(too_long()),
    }
}

//! The result of a flow file.

ghost use Rattle.std.specs.Prelude.{◌≡◌, ◌≤◌, ◌⊎◌, length, IfOk, IfErr};
ghost use Rattle.mc_run.specs.FlowResult.{IsFlowResult, RefusesBytes};

use crate::printing::print;
use flow_list::read_flow;
use mc_base::{Refusal, Text};
use std::alloc::Global;

/// The result of a flow file.
pub fn rows_result(alloc: Global, bytes: &[u8]) -> Result<Text, Refusal>
    requires { length bytes.now ≤ 4194304 }
    ensures ok { IfOk result (IsFlowResult bytes.now) }
    ensures err { IfErr result (λ refusal. (refusal ≡ Refusal.NoMemory) ⊎ RefusesBytes bytes.now refusal) }
{
    let flows = read_flow(alloc, bytes)?;
    print(alloc, &flows)
}

//! Reading flow files.

ghost use Rattle.std.specs.Prelude.{◌≡◌, ◌^◌, ◌≤◌, ◌⊎◌, length, None, Some, IfOk, IfErr, MatchResult};
ghost use Rattle.mc_base.specs.declared.read_error.Fault.{Fault};
ghost use Rattle.flow_text.specs.Answer.{IsAnswer, refusal_of};
ghost use Rattle.flow_text.specs.Faults.{IsFirstFault};
ghost use Rattle.flow_text.specs.Grammar.{FlowFile};
ghost use Rattle.flow_list.specs.FileFlows.{IsFile, RefusesText, flows_of, limit_of};

use crate::build::build;
use crate::flows::Flows;
use mc_base::Refusal;
use std::alloc::Global;

/// The flows that a flow file says, of a text of at most 2^28 bytes.
///
/// `Grammar` comes off the grammar of flow files, with the first fault and its byte, and `Limit` on it where a limit of
/// flows is passed, the first of `length`, `columns`, `nest`, `items` and `inner-items`. `NoMemory` is out of memory.
pub fn read_flow(alloc: Global, text: &[u8]) -> Result<Flows, Refusal>
    requires { length text.now ≤ 2 ^ 28 }
    // What is read are the flows of a flow file that the text is, within its limits.
    ensures found { IfOk result (λ flows. (file : FlowFile) × IsFile text.now file × (limit_of file ≡ None)
        × (flows ≡ flows_of file)) }

    // A flow file within its limits is read, unless memory runs out.
    ensures only { (file : FlowFile) → IsFile text.now file →
        MatchResult result (λ flows. (limit_of file ≡ None) × (flows ≡ flows_of file))
        (λ refusal. (refusal ≡ Refusal.NoMemory) ⊎ (limit_of file ≡ Some refusal)) }

    // A text with a first fault, of which there is at most one, is refused by it.
    ensures told { (fault : Fault) → IsFirstFault text.now fault → IsAnswer result (Err (refusal_of fault)) }

    // Every other text is refused for its first fault.
    ensures refused { IfErr result (RefusesText text.now) }
{
    let lines = flow_text::read(alloc, text)?;
    let parts = build(alloc, lines.as_slice())?;
    Ok(Flows::seal(parts))
}

//! Why a script stops.

ghost use Rattle.std.specs.Prelude.{◌≡◌};
ghost use Rattle.script_runs.specs.Runs as runs;

use edit_script::EditFault;
use mc_base::{Input, LimitName, Refusal, Rule};

/// How many bytes all texts that a script prints may have together.
pub const PRINTED_LIMIT: u64 = 268_435_456;

/// The refusal of the line that begins at this byte, by the number of its rule.
fn fault_of(at: u64, rule: u8) -> Refusal
    ensures { result ≡ runs.fault_of at rule }
{
    Refusal::Grammar {
        input: Input::Script,
        offset: at,
        rule: Rule {
            letter: b'l',
            number: rule,
        },
    }
}

/// Why a script is refused whose edit, of the line that begins at this byte, isn't done: l4 where no element has the id, l5 where
/// the edit isn't allowed there, or out of memory.
pub fn edit_refusal(at: u64, fault: EditFault) -> Refusal
    ensures { result ≡ runs.edit_refusal at fault }
{
    match fault {
        EditFault::NoElement => fault_of(at, 4),
        EditFault::NotAllowed => fault_of(at, 5),
        EditFault::NoMemory => Refusal::NoMemory,
    }
}

/// Why a script is refused that prints more bytes than it may.
pub fn too_much() -> Refusal
    ensures { result ≡ runs.too_much }
{
    Refusal::Limit {
        name: LimitName::Result,
        reached: PRINTED_LIMIT + 1,
        limit: PRINTED_LIMIT,
    }
}

//! Calls that no command makes: a row in a row.

ghost use Rattle.std.specs.Prelude.{◌^◌, ◌≤◌, length};

use flow_list::{Flows, RowInfo, flow_counts, read_flow, row_at};
use mc_base::Refusal;
use std::alloc::Global;
use std::test::Fail;

/// The flows of a file. It promises nothing, so that no proof looks at what they are.
fn some_flows(alloc: Global, text: &[u8]) -> Result<Flows, Refusal>
    requires { length text.now ≤ 2 ^ 28 }
{
    read_flow(alloc, text)
}

/// Row 1 of a flow file, where there is one.
fn second_row(alloc: Global, text: &[u8]) -> Result<Option<RowInfo>, Refusal>
    requires { length text.now ≤ 2 ^ 28 }
{
    let flows = some_flows(alloc, text)?;
    if flow_counts(&flows).rows < 2 {
        return Ok(None);
    }
    Ok(Some(*row_at(&flows, 1)))
}

const NESTED: &[u8] =
    b"flow 1\nrow 2 100 110 64 auto\na 10\n| 1\nrow 3 40 50 6\na 1\n| F\na 2\nend\nend\n";

#[test]
fn a_row_in_a_row_has_its_numbers(rt: HostRuntime) -> Result<(), Fail> {
    let row = second_row(rt.alloc(), NESTED)?.ok_or("there are two rows")?;
    assert_eq!(rt; (row.flow, row.n, row.w), (2, 3, 40));
    assert_eq!(rt; (row.step, row.x, row.auto), (50, 6, false));
    Ok(())
}

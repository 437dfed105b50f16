//! Columns of flows of atoms, which no command decides by these calls.

ghost use Rattle.std.specs.Prelude.{◌≡◌, ◌<◌, [], length, true};
ghost use Rattle.flow_data.specs.Flows.{flow_of, rows_in};

use crate::decide;
use flow_list::{Book, Counts, Flows, Item, flow_counts, item_at, item_count, read_flow, row_at};
use frag_pool::Pool;
use inner_rows::NoRows;
use mc_base::{Level, NoMemory, Token, Units};
use std::alloc::Global;
use std::test::*;

fn no_counts() -> Counts {
    Counts {
        reads: 0,
        below: 0,
        folds: 0,
    }
}

/// Whether no row stands in a flow.
fn holds_atoms(flows: &Flows, flow: u32) -> bool
    requires { flow < length flows.now.flows }
    ensures { result ≡ true → rows_in (flow_of flows.now flow) ≡ [] }
{
    let mut tally = no_counts();
    for i in 0..item_count(flows, flow) {
        match item_at(flows, flow, i, &mut tally) {
            Item::Atom { .. } => {}
            Item::Row(_) => return false,
        }
    }
    true
}

/// What is told of a column: the item before which it ends, the level, whether it overflows, how far it reaches, how far above
/// its height it may change, and how many items were read for it.
#[derive(Clone, Copy, Debug, PartialEq)]
struct Told(u32, Level, bool, Units, Option<Units>, u64);

/// The column from an item on.
fn column_of_atoms(
    alloc: Global,
    flows: &Flows,
    flow: u32,
    item: u32,
    height: Units,
) -> Result<Told, NoMemory>
    requires flow { flow < length flows.now.flows }
    requires item { item < length (flow_of flows.now flow).items }
    requires atoms { rows_in (flow_of flows.now flow) ≡ [] }
{
    let mut book = Book::new(alloc);
    let mut pool = Pool::new(alloc);
    let mut tally = no_counts();
    let from = Token::start(alloc, item);
    let made = decide(
        alloc,
        &mut NoRows,
        flows,
        flow,
        &from,
        height,
        &mut book,
        &mut pool,
        &mut tally,
    )?;
    Ok(Told(
        made.end.item(),
        made.level,
        made.overflow,
        made.extent,
        made.short,
        tally.reads,
    ))
}

const SIX: &[u8] =
    b"flow 1\nrow 3 100 110 - balance\na 20\n| 0\na 20\n| 0\na 20\n| 0\na 20\n| 0\na 20\n| 0\na 20\nend\n";

/// Two boxes, one inside the other, each with its edges again at a break.
const CLONED: &[u8] =
    b"flow 1\nrow 2 100 110 - balance\n( 0 0 100 auto 5 10\ns 5\n( 1 2 90 auto 2 3\ns 2\na 20\n| 0\na 20\ns 3\n\
      ) 1\ns 10\n) 0\nend\n";

const LEVELS: &[u8] =
    b"flow 1\nrow 2 100 110 - balance\na 20\n| 0\na 20\n| 1\na 20\n| 2\na 20\n| 2\na 20\nend\n";

/// A forced break in a row of one column, with margins on both sides of it and of the next break.
const FORCED: &[u8] =
    b"flow 1\nrow 1 100 110 - balance\nm 5\na 20\nm 8\n| F\nm 7\na 20\nm 9\n| 0\nm 6\na 20\nend\n";

/// Files, each with an item and a height, and the column from there.
const COLUMNS: &[(&[u8], u32, Units, Told)] = &[
    (SIX, 0, 40, Told(2, Level::L0, false, 40, Some(20), 3)),
    (SIX, 5, 40, Told(6, Level::L0, false, 20, None, 1)),
    (SIX, 0, 19, Told(1, Level::L0, true, 20, Some(1), 1)),
    (CLONED, 0, 39, Told(1, Level::L0, true, 40, Some(1), 1)),
    (CLONED, 1, 40, Told(2, Level::L0, false, 40, None, 1)),
    (LEVELS, 1, 79, Told(2, Level::L1, false, 20, Some(1), 4)),
    (LEVELS, 2, 20, Told(3, Level::L2, false, 20, Some(20), 2)),
    (FORCED, 0, 26, Told(1, Level::L0, false, 25, None, 1)),
    (FORCED, 1, 26, Told(2, Level::L0, true, 27, Some(1), 1)),
    (FORCED, 2, 26, Told(3, Level::L0, false, 20, None, 1)),
];

#[test]
fn columns_of_atoms_are_told(rt: HostRuntime) -> Result<(), Fail> {
    for (text, item, height, told) in COLUMNS {
        let flows = read_flow(rt.alloc(), text).ok().ok_or("the file is plain")?;
        assert!(rt; flow_counts(&flows).rows > 0);
        let flow = row_at(&flows, 0).flow;
        assert!(rt; flow < flow_counts(&flows).flows);
        assert!(rt; *item < item_count(&flows, flow));
        assert!(rt; holds_atoms(&flows, flow));
        let made = column_of_atoms(rt.alloc(), &flows, flow, *item, *height)
            .ok()
            .ok_or("there is memory")?;
        assert_eq!(rt; made, *told);
    }
    Ok(())
}

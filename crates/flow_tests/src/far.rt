//! A column far from its flow's start, which is made again and again.

ghost use Rattle.std.specs.Prelude.{◌<◌, ◌≤◌, All, length};
ghost use Rattle.flow_data.specs.Flows.{flow_in, flow_of, rows_in};
ghost use Rattle.flow_data.specs.Soundness.{NestsAtMost};
ghost use Rattle.flow_list.specs.Tokens.{IsPlaceBefore};
ghost use Rattle.inner_rows.specs.TrueBook.{AreTrue};

use crate::engine::{Piece, flows_of, no_counts};
use balancer::two_deep;
use block_flow::column;
use flow_list::{Book, Flows, flow_counts, item_count, row_at};
use frag_pool::Pool;
use inner_rows::InnerRows;
use mc_base::{NoMemory, Token};
use std::alloc::Global;
use std::test::Fail;

/// Whether the column of height 5 from a place on ends at item `end`, with no more than 14 reads, each time that it is made.
fn ends_each_time<I: InnerRows>(
    alloc: Global,
    inner: &mut I,
    flows: &Flows,
    flow: u32,
    from: &Token,
    end: u32,
    times: u32,
    book: &mut Book,
    pool: &mut Pool,
) -> Result<bool, NoMemory>
    requires flow { flow < length flows.now.flows }
    requires place { IsPlaceBefore flows.now (flow_of flows.now flow) from.now }
    requires nests { All (NestsAtMost flows.now (I.depth inner.old)) (rows_in (flow_of flows.now flow)) }
    requires deep { I.depth inner.old ≤ 2 }
    requires some { All (λ r. 0 < length (flow_in flows.now r).items) (rows_in (flow_of flows.now flow)) }
    requires engine { I.is_true inner.old flows.now book.old pool.old }
    requires book { AreTrue flows.now book.old }
{
    for _ in 0..times {
        let mut tally = no_counts();
        let mark = pool.mark();
        let made = column(alloc, inner, flows, flow, from, 5, book, pool, &mut tally)?;
        pool.release(&mark);
        if made.end.item() != end || tally.reads > 14 {
            return Ok(false);
        }
    }
    Ok(true)
}

/// Whether such a column of the first row begins at item `first` and ends at item `end`, each time that it is made.
fn is_far_column(
    alloc: Global,
    flows: &Flows,
    first: u32,
    end: u32,
    times: u32,
) -> Result<bool, NoMemory>
    requires { 0 < length flows.now.rows }
{
    // Sealed flows are sound.
    let _counts = flow_counts(flows);
    let flow = row_at(flows, 0).flow;
    if item_count(flows, flow) <= first {
        return Ok(false);
    }
    let mut engine = two_deep(alloc);
    let mut book = Book::new(alloc);
    let mut pool = Pool::new(alloc);
    let from = Token::start(alloc, first);
    ends_each_time(
        alloc,
        &mut engine,
        flows,
        flow,
        &from,
        end,
        times,
        &mut book,
        &mut pool,
    )
}

/// A row of 20,000 items of height 1.
const LOW_ITEMS: [Piece; 3] = [
    (b"flow 1\nrow 2 100 110 - balance\na 1\n", 1),
    (b"| 0\na 1\n", 19_999),
    (b"end\n", 1),
];

#[test]
fn a_far_column_reads_its_own_items(rt: HostRuntime) -> Result<(), Fail> {
    let Some(flows) = flows_of(rt.alloc(), &LOW_ITEMS, 1)? else {
        panic!(rt; "there is one row");
    };
    assert!(rt; is_far_column(rt.alloc(), &flows, 19_990, 19_995, 2_000_000)?);
    Ok(())
}

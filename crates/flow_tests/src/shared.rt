//! Fragments of a row at two heights, which share what a row in it made of a height.

ghost use Rattle.std.specs.Prelude.{◌≡◌, ◌<◌, ◌≤◌, All, IfOk, OnOk, length};
ghost use Rattle.flow_data.specs.Flows.{flow_in, rows_in};
ghost use Rattle.flow_data.specs.Soundness.{NestsAtMost};
ghost use Rattle.frag_pool.specs.Nodes.{IsLive};
ghost use Rattle.inner_rows.specs.TrueBook.{AreTrue};

use crate::engine::{MANY_RANGES, flows_of, no_counts};
use balancer::two_deep;
use column_row::{FoldMode, fold};
use flow_list::{Book, Flows, flow_counts};
use frag_maker::ids_in;
use frag_pool::Pool;
use inner_rows::InnerRows;
use mc_base::{FragId, List, NoMemory, Token, Units};
use std::alloc::Global;
use std::test::Fail;

/// Adds the ids in a node.
fn add_inner(inner: &mut Vec<FragId>, pool: &Pool, id: FragId) -> Result<(), NoMemory>
    requires live { IsLive pool.now id }
    requires before { All (IsLive pool.now) inner.old.items }
    ensures { OnOk result (All (IsLive pool.now) inner.new.items) }
{
    inner.extend_from_slice(ids_in(pool.get(id)))?;
    Ok(())
}

/// The ids in the nodes of these ids.
fn inner_ids(alloc: Global, pool: &Pool, ids: &[FragId]) -> Result<Vec<FragId>, NoMemory>
    requires { All (IsLive pool.now) ids.now }
    ensures { IfOk result (λ inner. All (IsLive pool.now) inner.items) }
{
    let mut inner = Vec::new(alloc);
    for id in ids {
        add_inner(&mut inner, pool, *id)?;
    }
    Ok(inner)
}

/// The ids in what is placed in the columns of a fragment of a row.
fn ids_in_columns(alloc: Global, pool: &Pool, frag: FragId) -> Result<Vec<FragId>, NoMemory>
    requires { IsLive pool.now frag }
{
    let columns = inner_ids(alloc, pool, &[frag])?;
    let placed = inner_ids(alloc, pool, columns.as_slice())?;
    inner_ids(alloc, pool, placed.as_slice())
}

/// The ids in what is placed in the columns of the first row at a height.
fn ids_at<I: InnerRows>(
    alloc: Global,
    inner: &mut I,
    flows: &Flows,
    height: Units,
    book: &mut Book,
    pool: &mut Pool,
) -> Result<Vec<FragId>, NoMemory>
    requires row { 0 < length flows.now.rows }
    requires nests { All (NestsAtMost flows.now (I.depth inner.old)) (rows_in (flow_in flows.now 0)) }
    requires deep { I.depth inner.old ≤ 2 }
    requires engine { I.is_true inner.old flows.now book.old pool.old }
    requires book { AreTrue flows.now book.old }
    ensures depth { I.depth inner.new ≡ I.depth inner.old }
    ensures engine { I.is_true inner.new flows.now book.new pool.new }
    ensures book { AreTrue flows.now book.new }
{
    let mut tally = no_counts();
    let start = Token::start(alloc, 0);
    let made = fold(
        alloc,
        inner,
        flows,
        0,
        &start,
        height,
        u32::MAX,
        FoldMode::All,
        book,
        pool,
        &mut tally,
    )?;
    ids_in_columns(alloc, pool, made.frag)
}

/// Whether a kept one of these ids is one of the others.
fn is_any_shared(ids: &[FragId], others: &[FragId]) -> bool {
    ids.iter()
        .any(|id| matches!(id, FragId::Kept(_)) && others.contains(id))
}

/// Whether the fragments of the first row at two heights share a kept node.
fn share_nodes(alloc: Global, flows: &Flows, height: Units, other: Units) -> Result<bool, NoMemory>
    requires { 0 < length flows.now.rows }
{
    // Sealed flows are sound.
    let _counts = flow_counts(flows);
    let mut engine = two_deep(alloc);
    let mut book = Book::new(alloc);
    let mut pool = Pool::new(alloc);
    let ids = ids_at(alloc, &mut engine, flows, height, &mut book, &mut pool)?;
    let others = ids_at(alloc, &mut engine, flows, other, &mut book, &mut pool)?;
    Ok(is_any_shared(ids.as_slice(), others.as_slice()))
}

#[test]
fn two_heights_share_a_row_in_the_row(rt: HostRuntime) -> Result<(), Fail> {
    let Some(flows) = flows_of(rt.alloc(), &MANY_RANGES, 2)? else {
        panic!(rt; "there are two rows");
    };
    assert!(rt; share_nodes(rt.alloc(), &flows, 1100, 1110)?);
    Ok(())
}

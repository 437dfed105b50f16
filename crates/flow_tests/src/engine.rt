//! The engine of rows by calls of its own: what a search for a height counts, and a size that is asked for again and again.

ghost use Rattle.std.specs.Prelude.{◌≡◌, ◌<◌, IfOk, IfSome, length};
ghost use Rattle.flow_data.specs.Flows.{flow_in};
ghost use Rattle.flow_data.specs.Soundness.{NestsAtMost};
ghost use Rattle.flow_list.specs.Tokens.{IsPlaceBefore};
ghost use Rattle.inner_rows.specs.TrueBook.{AreTrue};

use balancer::{Rows, least, two_deep};
use flow_list::{Book, Counts, Flows, flow_counts, item_count, read_flow, row_at};
use frag_pool::Pool;
use inner_rows::InnerRows;
use mc_base::{NoMemory, Refusal, Token, Units};
use std::alloc::Global;
use std::test::Fail;

/// A piece of a text, and how often it stands there.
pub type Piece = (&'static [u8], u32);

fn add(text: &mut Vec<u8>, piece: Piece) -> Result<(), NoMemory> {
    let (bytes, times) = piece;
    for _ in 0..times {
        text.extend_from_slice(bytes)?;
    }
    Ok(())
}

fn text_of(alloc: Global, pieces: &[Piece]) -> Result<Vec<u8>, NoMemory> {
    let mut text = Vec::new(alloc);
    for piece in pieces {
        add(&mut text, *piece)?;
    }
    Ok(text)
}

/// The flows of a file made of these pieces, where it has this many rows.
pub fn flows_of(alloc: Global, pieces: &[Piece], rows: u32) -> Result<Option<Flows>, Refusal>
    ensures { IfOk result (λ found. IfSome found (λ flows. length flows.rows ≡ rows)) }
{
    let text = text_of(alloc, pieces)?;
    if text.len() > 4_194_304 {
        return Ok(None);
    }
    let flows = read_flow(alloc, text.as_slice())?;
    if flow_counts(&flows).rows == rows {
        Ok(Some(flows))
    } else {
        Ok(None)
    }
}

pub fn no_counts() -> Counts {
    Counts {
        reads: 0,
        below: 0,
        folds: 0,
    }
}

/// The least height of the first row, how many ranges stand below it, and what was counted.
fn search_first_row(alloc: Global, flows: &Flows) -> Result<(Units, u64, Counts), NoMemory>
    requires { 0 < length flows.now.rows }
{
    // Sealed flows are sound.
    let _counts = flow_counts(flows);
    let mut engine = two_deep(alloc);
    let mut book = Book::new(alloc);
    let mut pool = Pool::new(alloc);
    let mut tally = no_counts();
    let start = Token::start(alloc, 0);
    let made = least(
        alloc,
        &mut engine,
        flows,
        0,
        &start,
        None,
        &mut book,
        &mut pool,
        &mut tally,
    )?;
    Ok((made.height, made.ranges.len() as u64, tally))
}

/// Whether the size of the second row from a place on is this height, each time that it is asked for.
fn is_size_each_time<I: InnerRows>(
    inner: &mut I,
    flows: &Flows,
    from: &Token,
    height: Units,
    times: u32,
    book: &mut Book,
    pool: &mut Pool,
) -> Result<bool, NoMemory>
    requires row { 1 < length flows.now.rows }
    requires place { IsPlaceBefore flows.now (flow_in flows.now 1) from.now }
    requires nests { NestsAtMost flows.now (I.depth inner.old) 1 }
    requires engine { I.is_true inner.old flows.now book.old pool.old }
    requires book { AreTrue flows.now book.old }
{
    let mut tally = no_counts();
    for _ in 0..times {
        let size = inner.size(flows, 1, from, book, pool, &mut tally)?;
        if size != height {
            return Ok(false);
        }
    }
    Ok(true)
}

/// Whether the second row has this size from its start on, each time that it is asked for.
fn has_size(alloc: Global, flows: &Flows, height: Units, times: u32) -> Result<bool, NoMemory>
    requires { 1 < length flows.now.rows }
{
    // Sealed flows are sound.
    let _counts = flow_counts(flows);
    let flow = row_at(flows, 1).flow;
    if item_count(flows, flow) == 0 {
        return Ok(false);
    }
    let mut engine = Rows::over(alloc, two_deep(alloc));
    let mut book = Book::new(alloc);
    let mut pool = Pool::new(alloc);
    let start = Token::start(alloc, 0);
    is_size_each_time(
        &mut engine,
        flows,
        &start,
        height,
        times,
        &mut book,
        &mut pool,
    )
}

/// A row inside a row of two columns, a tall item and 200 low ones.
pub const MANY_RANGES: [Piece; 5] = [
    (b"flow 1\nrow 2 100 110 - balance\nrow 2 45 55 0\na 1\n", 1),
    (b"| 0\na 1\n", 999),
    (b"end\n| 0\na 600\n", 1),
    (b"| 0\ns 9\na 1\n", 200),
    (b"end\n", 1),
];

/// The same ten thousand times as high.
const GREAT_HEIGHTS: [Piece; 5] = [
    (
        b"flow 1\nrow 2 100 110 - balance\nrow 2 45 55 0\na 10000\n",
        1,
    ),
    (b"| 0\na 10000\n", 999),
    (b"end\n| 0\na 6000000\n", 1),
    (b"| 0\ns 90000\na 10000\n", 200),
    (b"end\n", 1),
];

/// A row of 1,000 items with an edge above each, inside a row.
const EDGED_ITEMS: [Piece; 3] = [
    (
        b"flow 1\nrow 2 100 110 - balance\nrow 2 45 55 0\ns 9\na 1\n",
        1,
    ),
    (b"| 0\ns 9\na 1\n", 999),
    (b"end\nend\n", 1),
];

#[test]
fn a_search_goes_from_range_to_range(rt: HostRuntime) -> Result<(), Fail> {
    let Some(flows) = flows_of(rt.alloc(), &MANY_RANGES, 2)? else {
        panic!(rt; "there are two rows");
    };
    let (height, ranges, counts) = search_first_row(rt.alloc(), &flows)?;
    assert_eq!(rt; (height, ranges), (1550, 96));
    assert!(rt; counts.folds <= 97);
    assert!(rt; counts.below <= 20_000);
    Ok(())
}

#[test]
fn great_heights_have_as_many_ranges(rt: HostRuntime) -> Result<(), Fail> {
    let Some(flows) = flows_of(rt.alloc(), &GREAT_HEIGHTS, 2)? else {
        panic!(rt; "there are two rows");
    };
    let (height, ranges, _counts) = search_first_row(rt.alloc(), &flows)?;
    assert_eq!(rt; (height, ranges), (15_500_000, 96));
    Ok(())
}

#[test]
fn a_recorded_size_is_not_searched_again(rt: HostRuntime) -> Result<(), Fail> {
    let Some(flows) = flows_of(rt.alloc(), &EDGED_ITEMS, 2)? else {
        panic!(rt; "there are two rows");
    };
    assert!(rt; has_size(rt.alloc(), &flows, 5000, 3_000_000)?);
    Ok(())
}

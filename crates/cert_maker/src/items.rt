//! The rows among the items of a column.

ghost use Rattle.std.specs.Prelude.{◌≡◌, ◌+◌, ◌-◌, ◌<◌, ◌≤◌, ◌++◌, length, map, OnOk, IfSome};
ghost use Rattle.cite_laws.specs.Starts.{before_forced, rows_from};
ghost use Rattle.flow_data.specs.Flows.{flow_of, item_of};
ghost use Rattle.flow_list.specs.Column.{is_forced, row_from, row_list};
ghost use Rattle.flow_list.specs.Entries.{uses_in};
ghost use Rattle.flow_list.specs.ResultText.{number_in};
ghost use Rattle.flow_list.specs.Tokens.{Token as Numbers, item_number, within};
ghost use Rattle.cert_laws.specs.Made.{ends_after, row_listed};

use flow_list::{Book, Counts, Flows, Item, flow_counts, item_at, item_count, seam_at};
use mc_base::{Level, List, NoMemory, Token};
use std::alloc::Global;

fn no_counts() -> Counts {
    Counts {
        reads: 0,
        below: 0,
        folds: 0,
    }
}

fn is_forced_at(level: Level) -> bool
    ensures { result ≡ is_forced level }
{
    match level {
        Level::Forced => true,
        _ => false,
    }
}

/// The row that an item is, if it is one.
pub fn row_of_item(flows: &Flows, flow: u32, k: u32) -> Option<u32>
    requires flow { flow < length flows.now.flows }
    requires item { k < length (flow_of flows.now flow).items }
    ensures row { (q : Numbers) → row_list (row_from (item_of (flow_of flows.now flow) k) q) ≡ row_listed result q }
    ensures known { IfSome result (λ r. r < length flows.now.rows) }
{
    // Sealed flows are sound.
    let _counts = flow_counts(flows);
    let mut counts = no_counts();
    match item_at(flows, flow, k, &mut counts) {
        Item::Row(row) => Some(row),
        Item::Atom { .. } => None,
    }
}

/// Where the items end from this one on before the next forced break, or at the flow's end.
#[tactic(auto, using(crate::proofs::ItemRows::item_rules))]
fn forced_end(flows: &Flows, flow: u32, first: u32) -> u32
    requires flow { flow < length flows.now.flows }
    requires item { first ≤ length (flow_of flows.now flow).items }
    ensures end { result ≡ first + before_forced (flow_of flows.now flow) first (length (flow_of flows.now flow).items - first) }
    ensures bound { result ≤ length (flow_of flows.now flow).items }
{
    // Sealed flows are sound.
    let _counts = flow_counts(flows);
    let count = item_count(flows, flow);
    for k in first..count {
        if is_forced_at(seam_at(flows, flow, k + 1).level) {
            return k + 1;
        }
    }
    count
}

/// Where the items of a column end that begins at this item: after its stop, or, where it has none, at the next forced break or
/// at the flow's end.
#[tactic(auto, using(crate::proofs::ItemRows::item_rules))]
pub fn items_end(flows: &Flows, flow: u32, first: u32, stop: Option<u32>) -> u32
    requires flow { flow < length flows.now.flows }
    ensures end { (q : Numbers) → rows_from (flow_of flows.now flow) first q (result - first)
        ≡ rows_from (flow_of flows.now flow) first q (ends_after (flow_of flows.now flow) first stop) }
    ensures bound { result ≤ length (flow_of flows.now flow).items }
{
    let count = item_count(flows, flow);
    if first >= count {
        return count;
    }
    match stop {
        None => forced_end(flows, flow, first),
        Some(stop) if stop < count => stop + 1,
        Some(_) => count,
    }
}

/// The place within an item, which is the item's start where it isn't entered.
pub fn place_within(alloc: Global, from: &Token) -> Token
    ensures { result ≡ within from.now }
{
    match from.rest() {
        Some(rest) => rest,
        None => Token::start(alloc, 0),
    }
}

/// Adds the number of the row that an item is, from a place in it on, if it is one.
fn push_row(
    flows: &Flows,
    book: &Book,
    flow: u32,
    k: u32,
    place: &Token,
    sizes: &mut List<u64>,
) -> Result<(), NoMemory>
    requires flow { flow < length flows.now.flows }
    requires item { k < length (flow_of flows.now flow).items }
    ensures { OnOk result (sizes.new ≡ sizes.old
        ++ map (number_in (uses_in book.now)) (row_list (row_from (item_of (flow_of flows.now flow) k) place.now))) }
{
    if let Some(row) = row_of_item(flows, flow, k) {
        sizes.push(book.number(row, place))?;
    }
    Ok(())
}

/// Adds the numbers of the rows among these items, from the one of a place up to an end.
#[tactic(auto, using(crate::proofs::ItemRows::item_rules))]
pub fn push_rows(
    alloc: Global,
    flows: &Flows,
    book: &Book,
    flow: u32,
    from: &Token,
    end: u32,
    sizes: &mut List<u64>,
) -> Result<(), NoMemory>
    requires flow { flow < length flows.now.flows }
    requires end { end ≤ length (flow_of flows.now flow).items }
    ensures { OnOk result (sizes.new ≡ sizes.old ++ map (number_in (uses_in book.now))
        (rows_from (flow_of flows.now flow) (item_number from.now) (within from.now) (end - item_number from.now))) }
{
    let mut place = place_within(alloc, from);
    for k in from.item()..end {
        push_row(flows, book, flow, k, &place, sizes)?;
        place = Token::start(alloc, 0);
    }
    Ok(())
}

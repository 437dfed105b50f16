//! The ranges of heights at which an atom is too high, or the columns don't hold the atoms.

ghost use Rattle.std.specs.Prelude.{◌≡◌, ◌+◌, ◌*◌, ◌++◌, ◌<◌, ◌≤◌, IfOk, OnOk, max, length};
ghost use Rattle.flow_data.specs.Flows.{flow_in, row_of};
ghost use Rattle.flow_list.specs.Ranges.{range_up_to, tall, area};
ghost use Rattle.flow_list.specs.Rows.{most_columns as most_of};
ghost use Rattle.flow_list.specs.Tokens.{IsPlace};
ghost use Rattle.range_finder.specs.Judging.{as_list};
ghost use Rattle.balancer.specs.Cost.{items_left};
ghost use Rattle.balancer.specs.Searching.{spread_of, tallest_in};

use atom_needs::tallest_atom;
use flow_list::{Flows, Range, Reason, Tally};
use mc_base::{List, NoMemory, Token, Units};
use range_finder::{atoms_height, range_between};
use std::alloc::Global;

/// These ranges, and the height from which the search goes on.
#[derive(Drop)]
pub struct First {
    pub ranges: List<Range>,
    pub low: Units,
}

/// Adds a range, where there is one.
fn push(ranges: &mut List<Range>, range: Option<Range>) -> Result<(), NoMemory>
    ensures { OnOk result (ranges.new ≡ ranges.old ++ as_list range) }
{
    if let Some(range) = range {
        ranges.push(range)?;
    }
    Ok(())
}

/// Up to what the atom that needs most needs alone, and from there up to where the atoms have room in the columns that may be
/// used, each cut at the top where that is given.
pub fn first_ranges<C: Tally>(
    alloc: Global,
    flows: &Flows,
    row: u32,
    from: &Token,
    most: u32,
    top: Option<Units>,
    tally: &mut C,
) -> Result<First, NoMemory>
    requires row { row < length flows.now.rows }
    requires place { IsPlace flows.now (flow_in flows.now row) from.now }
    requires most { most ≡ most_of (row_of flows.now row).n (flow_in flows.now row) from.now }
    ensures ranges { let need = (tallest_in flows.now row from.now).need in
        IfOk result (λ first. first.ranges ≡ range_up_to top 0 need (tall (tallest_in flows.now row from.now).item)
        ++ range_up_to top need (spread_of flows.now row from.now) area) }
    ensures low { IfOk result (λ first. first.low
        ≡ max (tallest_in flows.now row from.now).need (spread_of flows.now row from.now)) }
    ensures reads { C.read_count tally.new ≤ C.read_count tally.old + 2 * items_left flows.now row from.now }
    ensures folds { C.fold_count tally.new ≡ C.fold_count tally.old }
{
    let tallest = tallest_atom(flows, row, from, tally);
    let wide = atoms_height(flows, row, from, tally).div_ceil(Units::from(most));
    let mut ranges = List::new(alloc);
    let item = tallest.item;
    push(
        &mut ranges,
        range_between(alloc, top, 0, tallest.need, Reason::Tall { item }),
    )?;
    push(
        &mut ranges,
        range_between(alloc, top, tallest.need, wide, Reason::Area),
    )?;
    Ok(First {
        ranges,
        low: tallest.need.max(wide),
    })
}

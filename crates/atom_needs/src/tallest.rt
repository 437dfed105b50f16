//! The atom that needs most.

ghost use Rattle.std.specs.Prelude.{◌≡◌, ◌+◌, ◌-◌, ◌<◌, ◌≤◌, ◌^◌, length};
ghost use Rattle.flow_data.specs.Flows.{atom_height, flow_in};
ghost use Rattle.flow_list.specs.Ranges.{taller, tallest_from};
ghost use Rattle.flow_list.specs.Rows.{all_rows};
ghost use Rattle.flow_list.specs.Tokens.{IsPlace, item_number};
ghost use Rattle.atom_needs.specs.Told.{need_of, told};

use crate::loose::{open_next, past_loose};
use column_strip::{Behind, across_seam, before_first};
use flow_list::{Flows, Item, Tally, flow_counts, item_at, item_count, row_at};
use mc_base::{Token, Units};

/// What an atom needs alone in a column after an unforced break, in units, and its item; 0 where there is no atom.
#[derive(Clone, Copy, Debug, PartialEq, Eq)]
pub struct Tallest {
    pub need: Units,
    pub item: u32,
}

fn height_of_atom(item: Item) -> Units
    ensures { result ≡ atom_height item }
{
    match item {
        Item::Atom { height, .. } => height,
        Item::Row(_) => 0,
    }
}

/// The taller of the tallest atom so far and item `k`, if that is an atom, which this stands after.
fn taller_of(best: Tallest, k: u32, item: Item, behind: Behind) -> Tallest
    requires { behind.strip.y + behind.boxes.bottoms < 2 ^ 63 }
    ensures { told result ≡ taller (told best) k (need_of item (behind.strip.y + behind.boxes.bottoms)) }
{
    let need = match item {
        Item::Atom { .. } => behind.strip.y + behind.boxes.bottoms,
        Item::Row(_) => 0,
    };
    if best.need < need {
        Tallest { need, item: k }
    } else {
        best
    }
}

/// The atom of a row, from a place on, that needs most alone in a column after an unforced break, and the first of these.
pub fn tallest_atom<C: Tally>(flows: &Flows, row: u32, from: &Token, tally: &mut C) -> Tallest
    requires row { row < length flows.now.rows }
    requires place { IsPlace flows.now (flow_in flows.now row) from.now }
    ensures tallest { told result ≡ tallest_from (all_rows flows.now) flows.now (flow_in flows.now row) from.now }
    ensures reads { C.read_count tally.new ≤ C.read_count tally.old
        + (length (flow_in flows.now row).items - item_number from.now) }
    ensures below { C.below_count tally.new ≡ C.below_count tally.old }
    ensures folds { C.fold_count tally.new ≡ C.fold_count tally.old }
{
    // Sealed flows are sound.
    let _counts = flow_counts(flows);
    let flow = row_at(flows, row).flow;
    let count = item_count(flows, flow);
    let first = from.item();
    let mut best = Tallest { need: 0, item: 0 };
    if first >= count {
        return best;
    }
    let mut across = across_seam(flows, flow, first);
    let mut here = before_first(flows, flow, from).boxes;
    for k in first..count {
        let item = item_at(flows, flow, k, tally);
        let behind = past_loose(flows, flow, k, height_of_atom(item), across, here);
        best = taller_of(best, k, item, behind);
        here = open_next(flows, flow, k, behind, here);
        across = behind.boxes;
    }
    best
}

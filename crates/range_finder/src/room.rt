//! How many columns a row may use from a place on, and how high its atoms are together.

ghost use Rattle.std.specs.Prelude.{◌≡◌, ◌+◌, ◌-◌, ◌<◌, ◌≤◌, length};
ghost use Rattle.flow_data.specs.Flows.{atom_height, flow_in, row_of};
ghost use Rattle.flow_list.specs.Column.{is_forced};
ghost use Rattle.flow_list.specs.Ranges.{atoms_height as atoms_from};
ghost use Rattle.flow_list.specs.Rows.{most_columns as most_of};
ghost use Rattle.flow_list.specs.Tokens.{item_number};

use column_laws::flows_are_sound;
use flow_list::{Flows, Item, Tally, flow_counts, item_at, item_count, row_at, seam_at};
use mc_base::{Level, Token, Units};

fn is_forced_at(level: Level) -> bool
    ensures { result ≡ is_forced level }
{
    match level {
        Level::Forced => true,
        _ => false,
    }
}

/// How many columns a row may use from a place on: those that it has, or as many as forced breaks ask for.
pub fn most_columns(flows: &Flows, row: u32, from: &Token) -> u32
    requires { row < length flows.now.rows }
    ensures { result ≡ most_of (row_of flows.now row).n (flow_in flows.now row) from.now }
{
    // Sealed flows are sound.
    let _counts = flow_counts(flows);
    let info = row_at(flows, row);
    let last = item_count(flows, info.flow).saturating_sub(1);
    let first = from.item().min(last);
    let mut forced: u32 = 0;
    for k in first..last {
        if is_forced_at(seam_at(flows, info.flow, k + 1).level) {
            forced += 1;
        }
    }
    info.n.max(1 + forced)
}

fn height_of_atom(item: Item) -> Units
    ensures { result ≡ atom_height item }
{
    match item {
        Item::Atom { height, .. } => height,
        Item::Row(_) => 0,
    }
}

/// The heights of a row's atoms from a place on, all together, in units; a row that is entered is none of them. Each item from
/// the place on is read once.
pub fn atoms_height<C: Tally>(flows: &Flows, row: u32, from: &Token, tally: &mut C) -> Units
    requires { row < length flows.now.rows }
    ensures sum { result ≡ atoms_from (flow_in flows.now row) from.now }
    ensures reads { C.read_count tally.new ≤ C.read_count tally.old
        + (length (flow_in flows.now row).items - item_number from.now) }
    ensures below { C.below_count tally.new ≡ C.below_count tally.old }
    ensures folds { C.fold_count tally.new ≡ C.fold_count tally.old }
{
    // In sealed flows, which are sound, this is a law.
    let _counts = flow_counts(flows);
    flows_are_sound();
    let flow = row_at(flows, row).flow;
    let count = item_count(flows, flow);
    let mut sum: Units = 0;
    for k in from.item()..count {
        sum += height_of_atom(item_at(flows, flow, k, tally));
    }
    sum
}

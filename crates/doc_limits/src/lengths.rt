//! Heights of items and counts of columns.

ghost use Rattle.std.specs.Prelude.{◌≡◌, ◌^◌, map, flat_map};
ghost use Rattle.flow_data.specs.declared.data.Flow.{Flow as Laid};
ghost use Rattle.flow_data.specs.Flows.{atom_height};
ghost use Rattle.box_data.specs.Limits as limits;
ghost use Rattle.doc_limits.specs.Tallies as tallies;

use box_data::{BoxKind, Placed};
use flow_data::{Flow, Item};
use mc_base::Units;

/// The greatest height of an item.
const MOST_LENGTH: Units = 1 << 24;

/// The most columns of a container.
const MOST_COLUMNS: u64 = 32;

/// The height of an item; a row has none of its own.
fn height_of(item: &Item) -> Units
    ensures { result ≡ atom_height item.now }
{
    match item {
        Item::Atom { height, .. } => *height,
        Item::Row(_) => 0,
    }
}

/// The first height of items above its limit.
fn first_high_item(items: &[Item]) -> Option<Units>
    ensures { result ≡ limits.first_above (2 ^ 24) (map atom_height items.now) }
{
    for item in items {
        let height = height_of(item);
        if height > MOST_LENGTH {
            return Some(height);
        }
    }
    None
}

/// The first height of items above its limit, flow by flow.
pub fn first_high(flows: &[Flow]) -> Option<Units>
    ensures { result ≡ limits.first_above (2 ^ 24) (flat_map (λ (f : Laid). map atom_height f.items) flows.now) }
{
    for flow in flows {
        let height = first_high_item(flow.items.as_slice());
        if height.is_some() {
            return height;
        }
    }
    None
}

/// How many columns a container has; none for another box.
fn columns_of(p: &Placed) -> u64
    ensures { result ≡ tallies.columns_of p.now }
{
    match p.kind {
        BoxKind::Container => p.columns.n,
        BoxKind::Block | BoxKind::Anonymous | BoxKind::ImageBlock => 0,
    }
}

/// The first count of columns above its limit.
pub fn first_wide(places: &[Placed]) -> Option<u64>
    ensures { result ≡ limits.first_above 32 (flat_map limits.column_counts places.now) }
{
    for p in places {
        let n = columns_of(p);
        if n > MOST_COLUMNS {
            return Some(n);
        }
    }
    None
}

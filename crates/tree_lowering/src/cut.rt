//! Cut pieces and stacks among nodes, and the room in nodes.

ghost use Rattle.std.specs.Prelude.{◌≡◌, ◌<◌, ◌-◌, IfSome, true, length};
ghost use Rattle.flow_data.specs.Flows.{box_of, flow_in, flow_of, item_of};
ghost use Rattle.flow_list.specs.RowHeights.{fill_limit};
ghost use Rattle.flow_list.specs.Tokens.{IsPlaceBefore};
ghost use Rattle.piece_data.specs.Lowering.{is_flagged, made_height as made_height_of};
ghost use Rattle.tree_lowering.specs.Lower.{AreRowsInStacks, cut_of, inside as inside_node, stack_in as stack_in_node};
ghost use Rattle.tree_lowering.specs.Lower.{row_room as room_of_row, stack_of_item};

use flow_list::{
    AtomKind, Counts, Flows, Item, LaidRow, box_at, flow_counts, item_at, item_count, row_at,
};
use mc_base::{Node, Token, Units};
use std::alloc::Global;
use std::cmp::Ordering;

/// Where a fragment stands: its flow, and the room in its column or stack, in units, less what the boxes around it have below
/// again. At most `nested` flagged rows stand one inside another in a cut piece there, and fragments are entered `depth` deep.
#[derive(Clone, Copy)]
pub struct Within {
    pub flow: u32,
    pub room: Units,
    pub nested: u32,
    pub depth: u32,
}

/// A cut piece of a flagged row: the row, where the piece begins, and where it stands in its column, in units.
#[derive(Drop)]
pub struct Cut {
    pub row: u32,
    pub from: Token,
    pub y: Units,
}

/// Whether a row is flagged.
fn has_flag(flags: &[bool], row: u32) -> bool
    ensures { result ≡ is_flagged flags.now row }
{
    match flags.get(row as usize) {
        Some(flag) => *flag,
        None => false,
    }
}

/// The cut piece of a flagged row that a node is.
pub fn cut_in(flags: &[bool], node: &Node) -> Option<Cut>
    ensures { result ≡ cut_of flags.now node.now }
{
    match node {
        Node::RowPiece {
            row,
            from,
            y,
            height: None,
            columns: _,
        } => {
            if !has_flag(flags, *row) {
                return None;
            }
            Some(Cut {
                row: *row,
                from: from.copy(),
                y: *y,
            })
        }
        _ => None,
    }
}

/// What is available, or the greatest height where that is no limit.
fn limit(available: Option<Units>) -> Units
    ensures { result ≡ fill_limit available }
{
    available.unwrap_or(u64::MAX)
}

/// The height that the columns of a row are made at which stands with this height outside any columns.
fn made_height(flows: &Flows, rows: &[LaidRow], row: u32, height: Units) -> Units
    requires { AreRowsInStacks flows.now rows.now }
    ensures { result ≡ made_height_of flows.now row height }
{
    if row >= flow_counts(flows).rows || !row_at(flows, row).auto {
        return height;
    }
    let mut found = height;
    for laid in rows {
        if laid.row == row {
            found = limit(laid.available);
        }
    }
    found
}

/// The room in a piece of a row that stands where there is this room.
fn row_room(
    flows: &Flows,
    rows: &[LaidRow],
    room: Units,
    row: u32,
    y: Units,
    height: Option<Units>,
) -> Units
    requires { AreRowsInStacks flows.now rows.now }
    ensures { result ≡ room_of_row flows.now room row y height }
{
    match height {
        Some(height) => made_height(flows, rows, row, height),
        None => room.saturating_sub(y),
    }
}

/// The room in a box that stands where there is this room.
fn box_room(flows: &Flows, room: Units, owner: u32) -> Units
    ensures { result ≡ room - (box_of flows.now owner).bottom }
{
    if owner >= flow_counts(flows).boxes {
        return room;
    }
    room.saturating_sub(box_at(flows, owner).bottom)
}

/// Where that stands which is in a node.
pub fn inside(flows: &Flows, rows: &[LaidRow], at: Within, node: &Node) -> Within
    requires { AreRowsInStacks flows.now rows.now }
    ensures { result ≡ inside_node flows.now at node.now }
{
    match node {
        Node::Atom { .. } => at,
        Node::Piece { owner, .. } => Within {
            room: box_room(flows, at.room, *owner),
            ..at
        },
        Node::RowPiece { row, y, height, .. } => Within {
            room: row_room(flows, rows, at.room, *row, *y, *height),
            ..at
        },
        Node::Column { flow, .. } => Within { flow: *flow, ..at },
    }
}

/// Item `k` of a flow.
fn item_in(flows: &Flows, flow: u32, k: u32) -> Item
    requires flow { flow < length flows.now.flows }
    requires item { k < length (flow_of flows.now flow).items }
    ensures { result ≡ item_of (flow_of flows.now flow) k }
{
    let mut tally = Counts {
        reads: 0,
        below: 0,
        folds: 0,
    };
    item_at(flows, flow, k, &mut tally)
}

/// The stack of an item that is a container with a height.
fn stack_of(item: Item) -> Option<u32>
    ensures { result ≡ stack_of_item item }
{
    match item {
        Item::Atom {
            height: _,
            kind: AtomKind::Bounded { stack, .. },
        } => Some(stack),
        _ => None,
    }
}

/// The stack of item `k` of a flow; none where there is no such item.
fn stack_at(flows: &Flows, flow: u32, k: u32) -> Option<u32>
    ensures stack { result ≡ stack_of_item (item_of (flow_of flows.now flow) k) }
    ensures known { IfSome result (λ stack. stack < length flows.now.stacks) }
{
    if flow >= flow_counts(flows).flows {
        return None;
    }
    if k >= item_count(flows, flow) {
        return None;
    }
    stack_of(item_in(flows, flow, k))
}

/// The stack that a node of a flow is.
pub fn stack_in(flows: &Flows, flow: u32, node: &Node) -> Option<u32>
    ensures stack { result ≡ stack_in_node flows.now flow node.now }
    ensures known { IfSome result (λ stack. stack < length flows.now.stacks) }
{
    match node {
        Node::Atom { item, .. } => stack_at(flows, flow, *item),
        _ => None,
    }
}

/// Whether a place in a row is one before its end. At most `deep` rows are entered.
pub fn is_before_end(alloc: Global, flows: &Flows, row: u32, place: &Token, deep: u32) -> bool
    requires { row < length flows.now.rows }
    ensures { result ≡ true → IsPlaceBefore flows.now (flow_in flows.now row) place.now }
{
    // Each place has a number, and none comes before that of item 0.
    if let Ordering::Less = place.cmp(&Token::start(alloc, 0)) {
        return false;
    }
    // Sealed flows are sound.
    let _counts = flow_counts(flows);
    let flow = row_at(flows, row).flow;
    let item = place.item();
    if item >= item_count(flows, flow) || deep == 0 {
        return false;
    }
    match place.rest() {
        None => true,
        Some(rest) => match item_in(flows, flow, item) {
            Item::Atom { .. } => false,
            Item::Row(inner) => is_before_end(alloc, flows, inner, &rest, deep - 1),
        },
    }
}

//! Nodes with other ids in them.

ghost use Rattle.std.specs.Prelude.{◌≡◌, All, IfOk, Some, true};
ghost use Rattle.frag_pool.specs.Growing.{Grows};
ghost use Rattle.frag_pool.specs.Nodes.{IsLive, ids_of, node_of, node_with};
ghost use Rattle.mc_base.specs.declared.fragment.Node.{Node as AnyNode};

use frag_maker::{add_node, ids_in};
use frag_pool::Pool;
use mc_base::{FragId, List, NoMemory, Node};
use std::alloc::Global;

/// These ids once more.
fn copied(alloc: Global, ids: &[FragId]) -> Result<List<FragId>, NoMemory>
    ensures { IfOk result (λ copy. copy ≡ ids.now) }
{
    Ok(List::of(ids.iter().copied().collect(alloc)?))
}

/// The ids in the node of a live one.
pub fn ids_within(alloc: Global, pool: &Pool, id: FragId) -> Result<List<FragId>, NoMemory>
    requires { IsLive pool.now id }
    ensures ids { IfOk result (λ ids. (node : AnyNode) → node_of pool.now id ≡ Some node → ids ≡ ids_of node) }
    ensures live { IfOk result (All (IsLive pool.now)) }
{
    copied(alloc, ids_in(pool.get(id)))
}

/// A node with these ids in place of its own.
fn with_ids(node: &Node, ids: List<FragId>) -> Node
    ensures { result ≡ node_with node.now ids }
{
    match node {
        Node::Atom { item, y } => Node::Atom { item: *item, y: *y },
        Node::Piece {
            owner,
            starts,
            y,
            bottom,
            kids: _,
        } => Node::Piece {
            owner: *owner,
            starts: *starts,
            y: *y,
            bottom: *bottom,
            kids: ids,
        },
        Node::RowPiece {
            row,
            from,
            y,
            height,
            columns: _,
        } => Node::RowPiece {
            row: *row,
            from: from.copy(),
            y: *y,
            height: *height,
            columns: ids,
        },
        Node::Column {
            flow,
            from,
            end,
            extent,
            kids: _,
        } => Node::Column {
            flow: *flow,
            from: from.copy(),
            end: end.copy(),
            extent: *extent,
            kids: ids,
        },
    }
}

/// Whether two ids are the same.
fn is_same(one: FragId, other: FragId) -> bool
    ensures { result ≡ true → one ≡ other }
{
    match (one, other) {
        (FragId::Kept(n), FragId::Kept(m)) => n == m,
        (FragId::Trial(n), FragId::Trial(m)) => n == m,
        _ => false,
    }
}

/// Whether these are the same ids.
fn are_same(ids: &[FragId], others: &[FragId]) -> bool
    ensures { result ≡ true → ids.now ≡ others.now }
{
    if ids.len() != others.len() {
        return false;
    }
    for i in 0..ids.len() {
        if !is_same(ids[i], others[i]) {
            return false;
        }
    }
    true
}

/// Adds a trial node.
pub fn added(pool: &mut Pool, node: Node) -> Result<FragId, NoMemory>
    requires { All (IsLive pool.old) (ids_of node) }
    ensures node { IfOk result (λ made. node_of pool.new made ≡ Some node) }
    ensures live { IfOk result (IsLive pool.new) }
    ensures grown { Grows pool.old pool.new }
{
    let made = add_node(pool, node)?;
    Ok(made)
}

/// The node of a live id with these ids in place of its own: the same id where they are the same, else that of a new trial node.
pub fn with_others(pool: &mut Pool, id: FragId, ids: List<FragId>) -> Result<FragId, NoMemory>
    requires live { IsLive pool.old id }
    requires others { All (IsLive pool.old) ids }
    ensures node { (node : AnyNode) → node_of pool.old id ≡ Some node →
        IfOk result (λ made. node_of pool.new made ≡ Some (node_with node ids)) }
    ensures live { IfOk result (IsLive pool.new) }
    ensures grown { Grows pool.old pool.new }
{
    if are_same(ids_in(pool.get(id)), ids.as_slice()) {
        return Ok(id);
    }
    let node = with_ids(pool.get(id), ids);
    added(pool, node)
}

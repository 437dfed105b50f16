//! The region, and what may be done with it.

ghost use Rattle.std.specs.Prelude.{◌≡◌, ◌≤◌, ◌<◌, All, IfOk, IfErr, OnOk, OnErr, IfSome, Ok, length, slice_get, Some};
ghost use Rattle.mc_base.specs.PlainTree.{PlainTree};
ghost use Rattle.mc_base.specs.declared.fragment.FragId.{FragId};
ghost use Rattle.mc_base.specs.declared.fragment.FragId.TheVariants.{Kept, Trial};
ghost use Rattle.frag_pool.specs.Nodes.{IsBelow, IsClosed, IsKept, IsLive, IsOverKept, SameTrial, back_to, ids_of};
ghost use Rattle.frag_pool.specs.Nodes.{kept_more, no_nodes, node_of, node_with, trial_more};
ghost use Rattle.frag_pool.specs.Standing.{StandsFor, Equals};

use crate::pages::Pages;
use mc_base::{FragId, List, NoMemory, Node};
use std::alloc::Global;
use std::marker::Model;

/// A region of fragments. Contracts see its nodes, which name live ones alone, each made before it.
#[derive(Drop)]
pub struct Pool {
    kept: Pages,
    trial: Pages,
}

impl Model for Pool {
    ghost use Rattle.frag_pool.specs.Nodes.{Nodes, IsClosed};

    ghost Value = { Nodes };

    ghost view = { λ p. record { kept = p.kept; trial = p.trial } };

    ghost invariant = { λ p. IsClosed (record { kept = p.kept; trial = p.trial }) };
}

/// A count of trial nodes.
#[derive(Clone, Copy, Debug, PartialEq, Eq)]
pub struct Mark {
    pub trial: u64,
}

/// Out of memory: the node is handed back.
#[derive(Drop)]
pub struct NodeBack {
    pub node: Node,
}

impl Pool {
    /// A region without nodes. It takes no memory.
    pub fn new(alloc: Global) -> Pool
        ensures { result ≡ no_nodes }
    {
        Pool {
            kept: Pages::new(alloc),
            trial: Pages::new(alloc),
        }
    }

    /// The node of a live id.
    pub fn get(&self, id: FragId) -> &Node
        requires { IsLive self.now id }
        ensures node { node_of self.now id ≡ Some result.now }
        ensures below { All (IsBelow self.now id) (ids_of result.now) }
    {
        match id {
            FragId::Kept(n) => self.kept.get(n),
            FragId::Trial(n) => self.trial.get(n),
        }
    }

    /// The number of trial nodes.
    pub fn mark(&self) -> Mark
        ensures trial { result.trial ≡ length self.now.trial }
        ensures closed { IsClosed self.now }
        ensures stands { (id : FragId) → IsLive self.now id → (tree : PlainTree) × StandsFor self.now id tree }
    {
        Mark {
            trial: self.trial.len(),
        }
    }

    /// Gives up the trial nodes made after a mark.
    pub fn release(&mut self, mark: &Mark)
        requires { mark.now.trial ≤ length self.old.trial }
        ensures back { self.new ≡ back_to self.old mark.now.trial }
        ensures stands { (id : FragId) (tree : PlainTree) → IsLive self.new id → StandsFor self.old id tree →
            StandsFor self.new id tree }
    {
        self.trial.truncate(mark.trial);
    }

    /// Adds a trial node.
    pub fn add(&mut self, node: Node) -> Result<FragId, NodeBack>
        requires { All (IsLive self.old) (ids_of node) }
        ensures ok { OnOk result (self.new ≡ trial_more self.old node) }
        ensures id { IfOk result (λ id. id ≡ Trial (length self.old.trial)) }
        ensures err { OnErr result (self.new ≡ self.old) }
        ensures back { IfErr result (λ back. back.node ≡ node) }
    {
        let number = self.trial.len();
        self.trial.push(node)?;
        Ok(FragId::Trial(number))
    }

    /// Adds a kept node, whose ids are kept ones.
    pub fn keep(&mut self, node: Node) -> Result<FragId, NodeBack>
        requires live { All (IsLive self.old) (ids_of node) }
        requires kept { All IsKept (ids_of node) }
        ensures ok { OnOk result (self.new ≡ kept_more self.old node) }
        ensures id { IfOk result (λ id. id ≡ Kept (length self.old.kept)) }
        ensures err { OnErr result (self.new ≡ self.old) }
        ensures back { IfErr result (λ back. back.node ≡ node) }
    {
        let number = self.kept.len();
        self.kept.push(node)?;
        Ok(FragId::Kept(number))
    }

    /// Makes a kept fragment equal, all the way down, to a live one. A kept one is answered as it is. When out of memory, no
    /// live node is changed.
    pub fn promote(&mut self, id: FragId) -> Result<FragId, NoMemory>
        requires { IsLive self.old id }
        ensures trial { SameTrial self.old self.new }
        ensures kept { IfOk result IsKept }
        ensures live { IfOk result (IsLive self.new) }
        ensures equal { IfOk result (Equals self.old id self.new) }
        ensures as_it_is { IsKept id → (result ≡ Ok id) × (self.new ≡ self.old) }
        ensures one { OnOk result (IsOverKept self.old id → IfSome (node_of self.old id) (λ node.
            (result ≡ Ok (Kept (length self.old.kept))) × (self.new ≡ kept_more self.old node))) }
    {
        if let FragId::Kept(_) = id {
            return Ok(id);
        }
        let mut ids = List::new(self.trial.allocator());
        for i in 0..ids_in(self.get(id)).len() {
            let kid = id_in(self.get(id), i);
            ids.push(self.promote(kid)?)?;
        }
        let node = with_ids(self.get(id), ids);
        self.keep_or_refuse(node)
    }

    /// Adds a kept node, and lets it go where there is no memory for it.
    fn keep_or_refuse(&mut self, node: Node) -> Result<FragId, NoMemory>
        requires live { All (IsLive self.old) (ids_of node) }
        requires kept { All IsKept (ids_of node) }
        ensures ok { OnOk result (self.new ≡ kept_more self.old node) }
        ensures id { IfOk result (λ id. id ≡ Kept (length self.old.kept)) }
        ensures err { OnErr result (self.new ≡ self.old) }
    {
        match self.keep(node) {
            Ok(made) => Ok(made),
            Err(_) => Err(NoMemory),
        }
    }
}

/// The ids in a node.
fn ids_in(node: &Node) -> &[FragId]
    ensures { result.now ≡ ids_of node.now }
{
    match node {
        Node::Atom { item: _, y: _ } => &[],
        Node::Piece { kids, .. } => kids.as_slice(),
        Node::RowPiece { columns, .. } => columns.as_slice(),
        Node::Column { kids, .. } => kids.as_slice(),
    }
}

/// One of the ids in a node.
fn id_in(node: &Node, i: usize) -> FragId
    requires { i < length (ids_of node.now) }
    ensures { slice_get (ids_of node.now) i ≡ Some result }
{
    ids_in(node)[i]
}

/// A node with these ids in place of its own.
fn with_ids(node: &Node, ids: List<FragId>) -> Node
    ensures { result ≡ node_with node.now ids }
{
    match node {
        Node::Atom { item, y } => Node::Atom { item: *item, y: *y },
        Node::Piece {
            owner,
            starts,
            y,
            bottom,
            kids: _,
        } => Node::Piece {
            owner: *owner,
            starts: *starts,
            y: *y,
            bottom: *bottom,
            kids: ids,
        },
        Node::RowPiece {
            row,
            from,
            y,
            height,
            columns: _,
        } => Node::RowPiece {
            row: *row,
            from: from.copy(),
            y: *y,
            height: *height,
            columns: ids,
        },
        Node::Column {
            flow,
            from,
            end,
            extent,
            kids: _,
        } => Node::Column {
            flow: *flow,
            from: from.copy(),
            end: end.copy(),
            extent: *extent,
            kids: ids,
        },
    }
}

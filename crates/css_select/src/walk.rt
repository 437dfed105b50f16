//! Matching a selector from its right end, without memory and without recursion.
//!
//! To the left of a `>` or a `+` one element at most can stand. Of the elements that can stand to the left of a `~` the
//! nearest from which the walk goes on is the best one: what can stand before another can stand before it too. The same
//! holds of the nearest ancestor to the left of a descendant's white space.

ghost use Rattle.std.specs.Prelude.{◌≡◌, ◌+◌, ◌-◌, ◌<◌, ◌≤◌, ◌↔◌, ℕ, length, slice_get, true, Some, IsTrue, MatchOption};
ghost use Rattle.css_select.specs.Matching.{Stands};
ghost use Rattle.css_select.specs.Places.{ParentsAreEarlier};
ghost use Rattle.css_select.specs.Walking as walking;
ghost use Rattle.css_select.specs.Walking.{IsNearest, IsReady, IsStopped, MeetsAt, Tells, UpTo, place_of};

use crate::compound::meets;
use crate::places::{parent_of, previous_sibling};
use css_data::{Join, Selector};
use html_grammar::Dom;

/// Where a walk to the left comes to.
#[derive(Clone, Copy)]
pub enum Walk {
    /// The part of the selector doesn't match.
    Lost,
    /// It does.
    Matched,
    /// It matches where the part up to this compound matches this node.
    At { place: usize, node: usize },
}

/// Whether one element at most can stand to the left of a join.
fn is_near(join: Join) -> bool
    ensures { result ≡ walking.is_near join }
{
    matches!(join, Join::Child | Join::Next)
}

/// Whether no ancestor but the parent can stand to the left of a join.
fn is_level(join: Join) -> bool
    ensures { result ≡ walking.is_level join }
{
    matches!(join, Join::Child | Join::Next | Join::Later)
}

/// The nearest element that stands so to the left of this one.
fn nearest(dom: &Dom, node: usize, join: Join) -> Option<usize>
    requires node_in_range { node < length dom.now.nodes }
    requires parents { ParentsAreEarlier dom.now }
    ensures { MatchOption result ((m : ℕ) → Stands dom.now join m node → ⊥) (λ m. IsNearest dom.now join m node) }
{
    match join {
        Join::Descendant => parent_of(dom, node),
        Join::Child => parent_of(dom, node),
        Join::Next => previous_sibling(dom, node),
        Join::Later => previous_sibling(dom, node),
    }
}

fn meets_at(selector: &Selector, dom: &Dom, place: usize, node: usize) -> bool
    requires ready { IsReady selector.now dom.now }
    requires place_in_range { place < length selector.now.compounds }
    requires node_in_range { node < length dom.now.nodes }
    ensures { IsTrue result ↔ MeetsAt dom.now selector.now place node }
{
    meets(dom, node, &selector.compounds.as_slice()[place])
}

/// The join to the left of a compound.
fn join_before(selector: &Selector, place: usize) -> Join
    requires above { 0 < place }
    requires joined { place < length selector.now.joins + 1 }
    ensures { slice_get selector.now.joins (place - 1) ≡ Some result }
{
    selector.joins.as_slice()[place - 1]
}

/// Walks over children and next siblings.
fn walk_near(selector: &Selector, dom: &Dom, start: usize, node: usize) -> Walk
    requires ready { IsReady selector.now dom.now }
    requires place_in_range { start < length selector.now.compounds }
    requires node_in_range { node < length dom.now.nodes }
    ensures tells { Tells walking.is_near walking.is_near dom.now selector.now start node result }
    ensures less { place_of result ≤ start }
{
    let mut place = start;
    let mut at = node;
    while 0 < place {
        if !meets_at(selector, dom, place, at) {
            return Walk::Lost;
        }
        let join = join_before(selector, place);
        if !is_near(join) {
            return Walk::At { place, node: at };
        }
        match nearest(dom, at, join) {
            Some(left) => at = left,
            None => return Walk::Lost,
        }
        place -= 1;
    }
    if meets_at(selector, dom, 0, at) {
        Walk::Matched
    } else {
        Walk::Lost
    }
}

fn is_lost(walk: Walk) -> bool
    ensures { IsTrue result ↔ (walk ≡ Walk.Lost) }
{
    matches!(walk, Walk::Lost)
}

/// Walks on from the nearest earlier sibling from which a walk over children and next siblings isn't lost.
fn search_siblings(selector: &Selector, dom: &Dom, place: usize, node: usize) -> Walk
    requires ready { IsReady selector.now dom.now }
    requires place_in_range { place < length selector.now.compounds }
    requires node_in_range { node < length dom.now.nodes }
    requires stopped { IsStopped walking.is_near dom.now selector.now place node }
    requires later { slice_get selector.now.joins (place - 1) ≡ Some Join.Later }
    ensures tells { Tells walking.is_level walking.is_near dom.now selector.now place node result }
    ensures less { place_of result < place }
{
    let mut next = nearest(dom, node, Join::Later);
    while let Some(at) = next {
        let walk = walk_near(selector, dom, place - 1, at);
        if !is_lost(walk) {
            return walk;
        }
        next = nearest(dom, at, Join::Later);
    }
    Walk::Lost
}

/// Walks over all joins but descendants'.
fn walk_level(selector: &Selector, dom: &Dom, start: usize, node: usize) -> Walk
    requires ready { IsReady selector.now dom.now }
    requires place_in_range { start < length selector.now.compounds }
    requires node_in_range { node < length dom.now.nodes }
    ensures tells { Tells walking.is_level walking.is_level dom.now selector.now start node result }
    ensures less { place_of result ≤ start }
{
    let mut walk = walk_near(selector, dom, start, node);
    while let Walk::At { place, node: at } = walk {
        if !is_level(join_before(selector, place)) {
            return walk;
        }
        walk = search_siblings(selector, dom, place, at);
    }
    walk
}

/// Walks on from the nearest ancestor from which a walk without descendants' joins isn't lost.
fn search_ancestors(selector: &Selector, dom: &Dom, place: usize, node: usize) -> Walk
    requires ready { IsReady selector.now dom.now }
    requires place_in_range { place < length selector.now.compounds }
    requires node_in_range { node < length dom.now.nodes }
    requires stopped { IsStopped walking.is_level dom.now selector.now place node }
    ensures tells { Tells walking.any_join walking.is_level dom.now selector.now place node result }
    ensures less { place_of result < place }
{
    let mut next = nearest(dom, node, Join::Descendant);
    while let Some(at) = next {
        let walk = walk_level(selector, dom, place - 1, at);
        if !is_lost(walk) {
            return walk;
        }
        next = nearest(dom, at, Join::Descendant);
    }
    Walk::Lost
}

/// Whether the part of the selector up to a compound matches a node.
pub fn matches_up_to(selector: &Selector, dom: &Dom, start: usize, node: usize) -> bool
    requires ready { IsReady selector.now dom.now }
    requires place_in_range { start < length selector.now.compounds }
    requires node_in_range { node < length dom.now.nodes }
    ensures { IsTrue result ↔ UpTo dom.now selector.now start node }
{
    let mut walk = walk_level(selector, dom, start, node);
    while let Walk::At { place, node: at } = walk {
        walk = search_ancestors(selector, dom, place, at);
    }
    matches!(walk, Walk::Matched)
}

//! The first limit that flows pass.

ghost use Rattle.std.specs.Prelude.{◌≡◌, IfOk};
ghost use Rattle.box_data.specs.BoxTree.{or_else};
ghost use Rattle.box_data.specs.Content.{Content, marks as marks_of};
ghost use Rattle.box_data.specs.Limits as limits;
ghost use Rattle.flow_maker.specs.Premises.{HasNoSpanner};
ghost use Rattle.doc_limits.specs.Tallies as tallies;

use crate::items::has_many_items;
use crate::lengths::{first_high, first_wide};
use crate::nests::{Nests, begun};
use box_data::{Mark, Placed};
use flow_data::FlowsData;
use mc_base::{LimitName, NoMemory, Refusal};
use std::alloc::Global;

/// What the marks say of rows one inside another.
fn nests_of(alloc: Global, marks: &[Mark]) -> Result<Nests, NoMemory>
    ensures { IfOk result (λ nests. nests ≡ tallies.close (tallies.run tallies.begun marks.now)) }
{
    let mut nests = begun(alloc);
    for mark in marks {
        nests = nests.take(mark)?;
    }
    Ok(nests.close())
}

/// A limit, if it is passed.
fn when(passes: bool, name: LimitName, reached: u64, limit: u64) -> Option<Refusal>
    ensures { result ≡ limits.when passes (Refusal.Limit name reached limit) }
{
    if passes {
        Some(Refusal::Limit {
            name,
            reached,
            limit,
        })
    } else {
        None
    }
}

/// The first of two limits that is passed.
fn first_of(one: Option<Refusal>, other: Option<Refusal>) -> Option<Refusal>
    ensures { result ≡ or_else one other }
{
    match one {
        None => other,
        Some(refusal) => Some(refusal),
    }
}

/// The limit of lengths, at the first item that is higher.
fn high(parts: &FlowsData) -> Option<Refusal>
    ensures { result ≡ limits.long (limits.item_heights parts.now) }
{
    match first_high(parts.flows.as_slice()) {
        None => None,
        Some(height) => Some(Refusal::Limit {
            name: LimitName::Length,
            reached: height,
            limit: 1 << 24,
        }),
    }
}

/// The limit of columns, at the first container with more.
fn wide(places: &[Placed]) -> Option<Refusal>
    ensures { result ≡ limits.wide places.now }
{
    match first_wide(places) {
        None => None,
        Some(n) => Some(Refusal::Limit {
            name: LimitName::Columns,
            reached: n,
            limit: 32,
        }),
    }
}

/// The first limit of items and of rows one inside another.
fn many(nests: &Nests, parts: &FlowsData) -> Option<Refusal>
    ensures { result ≡ tallies.many nests.now parts.now }
{
    let deep = when(nests.deepest > 3, LimitName::Nest, 4, 3);
    let items = when(has_many_items(parts), LimitName::Items, 100_001, 100_000);
    let inner = when(nests.most > 2000, LimitName::InnerItems, 2001, 2000);
    first_of(deep, first_of(items, inner))
}

/// The first limit that a document's flows pass, the content given as its marks: the height of an item (2^24 units), the
/// columns of a container (32), rows one inside another in a stack (3), items of all rows with the atoms of all stacks (100,000),
/// items of a row that stands in another (2000).
pub fn first_late_limit(
    alloc: Global,
    places: &[Placed],
    marks: &[Mark],
    parts: &FlowsData,
) -> Result<Option<Refusal>, NoMemory>
    ensures { (content : Content) → marks.now ≡ marks_of content → HasNoSpanner content
        → IfOk result (λ limit. limit ≡ limits.late_limit places.now content parts.now) }
{
    let nests = nests_of(alloc, marks)?;
    let late = many(&nests, parts);
    Ok(first_of(high(parts), first_of(wide(places), late)))
}

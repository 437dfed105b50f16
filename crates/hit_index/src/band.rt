//! Bands of leaves.

ghost use Rattle.std.specs.Prelude.{◌≡◌, ◌<◌, ◌≤◌, [], ℕ, get_or, length, IfOk};
ghost use Rattle.hit_index.specs.Bands.{best, hit_by, later, IsBand};
ghost use Rattle.hit_index.specs.declared.mark.Leaf.{Leaf as AnyLeaf};

use crate::mark::Leaf;
use crate::point::{hit_by, later};
use mc_base::{NoMemory, Units};
use std::alloc::Global;

/// Leaves in order of their left edges, all of which stand from `top` down to `bottom` (to the greatest number, where they
/// reach further).
#[derive(Drop)]
pub struct Band {
    pub top: Units,
    pub bottom: Units,
    pub leaves: Vec<Leaf>,
}

/// A band without a leaf. It takes no memory.
#[tactic(auto, using(crate::proofs::Made::empty_is_band))]
pub fn empty_band(alloc: Global) -> Band
    ensures band { IsBand result }
    ensures empty { result.leaves.items ≡ [] }
{
    Band {
        top: u64::MAX,
        bottom: 0,
        leaves: Vec::new(alloc),
    }
}

/// How many of these leaves, from the first on, begin at `x` or before.
fn first_after(leaves: &[Leaf], x: Units) -> usize
    ensures known { result ≤ length leaves.now }
    ensures before { (k : ℕ) (l : AnyLeaf) → k < result → (get_or leaves.now k l).rect.x ≤ x }
    ensures after { (l : AnyLeaf) → result < length leaves.now → x < (get_or leaves.now result l).rect.x }
{
    for (i, leaf) in leaves.iter().enumerate() {
        if x < leaf.rect.x {
            return i;
        }
    }
    leaves.len()
}

/// The band with one leaf more. The error is out of memory.
pub fn with_leaf(band: Band, leaf: Leaf) -> Result<Band, NoMemory>
    requires { IsBand band }
    ensures band { IfOk result (λ next. IsBand next) }
    ensures hits { (px py : ℕ) → IfOk result (λ next.
        best px py next.leaves.items ≡ later (best px py band.leaves.items) (hit_by px py leaf)) }
{
    let Band {
        top,
        bottom,
        leaves,
    } = band;
    let at = first_after(leaves.as_slice(), leaf.rect.x);
    let mut leaves = leaves;
    leaves.insert(at, leaf)?;
    Ok(Band {
        top: top.min(leaf.rect.y),
        bottom: bottom.max(leaf.rect.y.saturating_add(leaf.rect.h)),
        leaves,
    })
}

/// The last leaf of a band that holds a point.
pub fn hit_in(band: &Band, x: Units, y: Units) -> Option<u64>
    requires { IsBand band.now }
    ensures { result ≡ best x y band.now.leaves.items }
{
    if y < band.top || band.bottom < y {
        return None;
    }
    let mut found = None;
    for leaf in band.leaves.as_slice() {
        if x < leaf.rect.x {
            return found;
        }
        found = later(found, hit_by(*leaf, x, y));
    }
    found
}

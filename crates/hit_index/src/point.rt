//! Points and rectangles.

ghost use Rattle.std.specs.Prelude.{◌≡◌};
ghost use Rattle.hit_index.specs.Bands.{hit_by, later};
ghost use Rattle.hit_index.specs.Scan.{holds, meets, overlap, stretch_holds};

use crate::mark::Leaf;
use mc_base::{Rect, Units};

/// Whether a stretch holds a place: its start does, its end doesn't.
fn stretch_holds(start: Units, length: Units, place: Units) -> bool
    ensures { result ≡ stretch_holds start length place }
{
    if place < start {
        return false;
    }
    place - start < length
}

/// Whether a rectangle holds a point: its left and top edges do, its right and bottom edges don't.
pub fn holds(rect: Rect, x: Units, y: Units) -> bool
    ensures { result ≡ holds rect x y }
{
    stretch_holds(rect.x, rect.w, x) && stretch_holds(rect.y, rect.h, y)
}

/// Whether stretches from `a` and from `b`, of lengths `w` and `v`, have a place in common.
fn overlap(a: Units, w: Units, b: Units, v: Units) -> bool
    ensures { result ≡ overlap a w b v }
{
    let later = a.max(b);
    stretch_holds(a, w, later) && stretch_holds(b, v, later)
}

/// Whether two rectangles have a point in common.
pub fn meets(a: Rect, b: Rect) -> bool
    ensures { result ≡ meets a b }
{
    overlap(a.x, a.w, b.x, b.w) && overlap(a.y, a.h, b.y, b.h)
}

/// The number of a leaf that holds a point.
pub fn hit_by(leaf: Leaf, x: Units, y: Units) -> Option<u64>
    ensures { result ≡ hit_by x y leaf }
{
    if holds(leaf.rect, x, y) {
        Some(leaf.number)
    } else {
        None
    }
}

/// The later of two leaves.
pub fn later(a: Option<u64>, b: Option<u64>) -> Option<u64>
    ensures { result ≡ later a b }
{
    match (a, b) {
        (Some(a), Some(b)) => Some(a.max(b)),
        (Some(a), None) => Some(a),
        (None, b) => b,
    }
}

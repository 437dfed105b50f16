//! What the boxes at a seam ask for.

use mc_base::List;

/// What the boxes at a seam ask for: the `break-after` values of those that end there, the `break-before` values of those
/// that start there, whether a box that is open across the seam avoids a break inside, and at a seam between two lines of
/// one block container (class B) the counts of its lines.
#[derive(Drop)]
pub struct SeamBoxes {
    pub after: List<BreakValue>,
    pub before: List<BreakValue>,
    pub inside_avoid: bool,
    pub lines: Option<LineCounts>,
}

/// A value of `break-before` or `break-after` (CSS Fragmentation 3, section 3.1): `Avoid` avoids a break, and `Column`
/// forces one.
#[derive(Clone, Copy)]
pub enum BreakValue {
    Auto,
    Avoid,
    Column,
}

/// How many lines of a block container stand before and after a seam between two of them, and how many its `orphans` and
/// `widows` want there (CSS Fragmentation 3, section 3.3).
#[derive(Clone, Copy)]
pub struct LineCounts {
    pub before: u32,
    pub after: u32,
    pub orphans: u32,
    pub widows: u32,
}

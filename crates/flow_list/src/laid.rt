//! A whole layout: its stacks and the rows directly in them, each with the fragment that was made of it.

use crate::range::Range;
use mc_base::{FragId, List, Units};

/// The stacks by their numbers, and the rows directly in stacks, in document order.
#[derive(Drop)]
pub struct Laid {
    pub stacks: List<LaidStack>,
    pub rows: List<LaidRow>,
}

/// A stack as it was laid out: its height in units, and its fragment.
#[derive(Clone, Copy, Debug, PartialEq, Eq)]
pub struct LaidStack {
    pub height: Units,
    pub frag: FragId,
}

/// A row directly in a stack as it was laid out: its number, the height that was available to it (none where that is
/// unlimited), its own height, whether `column-fill: auto` is in effect, whether it fits, the ranges of lesser heights that
/// don't, its fragment, and how many entries of the book stand before it in the certificate.
#[derive(Drop)]
pub struct LaidRow {
    pub row: u32,
    pub available: Option<Units>,
    pub height: Units,
    pub auto: bool,
    pub fits: bool,
    pub ranges: List<Range>,
    pub frag: FragId,
    pub before: u64,
}

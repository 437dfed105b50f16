//! How good a break at a seam is.

/// The level of a break place between two items (CSS Fragmentation 3, sections 4.3 and 4.4).
///
/// `Forced` is a forced break. Of the others a lesser one is the better place to break: `L0` breaks no rule, `L1` leaves
/// too few lines on a side (`orphans`, `widows`), and `L2` stands where a box avoids a break.
#[derive(Clone, Copy, Debug, PartialEq, Eq)]
pub enum Level {
    Forced,
    L0,
    L1,
    L2,
}

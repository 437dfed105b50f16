//! A line.

use mc_base::Units;

/// A line: the pieces from `from` on and before `to`, its width, and its height, in units.
#[derive(Clone, Copy)]
pub struct Line {
    pub from: u32,
    pub to: u32,
    pub w: Units,
    pub h: Units,
}

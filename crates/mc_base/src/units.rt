//! Lengths and rectangles.

/// A length in whole units; 1 unit is 1/64 px.
pub type Units = u64;

/// A rectangle in units, from the document's top left.
#[derive(Clone, Copy, Debug, PartialEq, Eq)]
pub struct Rect {
    pub x: Units,
    pub y: Units,
    pub w: Units,
    pub h: Units,
}

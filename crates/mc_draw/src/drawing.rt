//! Drawings.

use mc_base::{List, Rect, Units};

/// What a rectangle of a drawing is of: a line of a tree, or a column rule.
#[derive(Clone, Copy, Debug, PartialEq, Eq)]
pub enum ShapeClass {
    Stack,
    Row,
    Col,
    Piece,
    Line,
    Void,
    Image,
    Atom,
    Rule,
}

/// A rectangle of a drawing, in units from its top left.
#[derive(Clone, Copy, Debug, PartialEq, Eq)]
pub struct Shape {
    pub class: ShapeClass,
    pub rect: Rect,
}

/// A drawing: its width and height in units, and its rectangles, from the bottom up.
#[derive(Drop)]
pub struct Drawing {
    pub w: Units,
    pub h: Units,
    pub shapes: List<Shape>,
}

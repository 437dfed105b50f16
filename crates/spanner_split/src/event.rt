//! What stands in a container, and the parts that it is cut into.

use mc_base::List;

/// What the content of a container has in document order: a box begins or ends, by its number; an item stands; or a box that
/// spans the columns begins or ends.
#[derive(Clone, Copy, Debug, PartialEq, Eq)]
pub enum Event {
    Open(u32),
    Close(u32),
    Piece(u32),
    SpanOpen(u32),
    SpanClose(u32),
}

/// A part of the content: the events from `from` up to `to`, counted from 0, `to` not included. It is a spanner, or what
/// stands between two of them. `opened` are the boxes that are open where it begins, from outside inwards.
///
/// `lead` says that it begins with the end of a box, so that a void stands before that: a box that goes on from the part
/// before has no item of its own here. `trail` says that it ends with the beginning of a box, and a void stands after that.
#[derive(Drop)]
pub struct Part {
    pub spanner: bool,
    pub opened: List<u32>,
    pub from: u32,
    pub to: u32,
    pub lead: bool,
    pub trail: bool,
}

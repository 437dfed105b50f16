//! What stands in the flows of a document, in document order.

use mc_base::{List, Units};

/// One thing in the content of a flow, in document order. `place` is the number of its box.
///
/// A box begins or ends; a line stands by its number in its box, or an image, or a void in its place from the left of the flow.
/// Or something begins that has content of its own and is ended by `End`: the stack of a container with a height; a row of a
/// container's columns in its place, with the boxes that are open where it begins, the outermost first, and whether it is the
/// last of its container; or, before a container's content is cut into rows, a box that spans the columns.
#[derive(Drop)]
pub enum Mark {
    Opens {
        place: u32,
    },
    Closes {
        place: u32,
    },
    Line {
        place: u32,
        index: u32,
    },
    Image {
        place: u32,
    },
    Void {
        place: u32,
        x: Units,
    },
    Stack {
        place: u32,
    },
    Row {
        place: u32,
        x: Units,
        is_last: bool,
        opened: List<u32>,
    },
    Spanner,
    End,
}

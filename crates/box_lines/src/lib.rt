//! The lines of boxes.
//!
//! It stands on the data of boxes and on the breaking of inline content into lines. `break_boxes` gives each box its lines, as
//! wide as the box or, in a container, as a column, with the used sizes of its images; whoever keeps the law of `Liner` breaks
//! them, and may keep lines from one call to the next.
#![tactic(auto)]

mod breaking;
mod liner;
mod pieces;

pub use breaking::break_boxes;
pub use liner::{Liner, PlainLiner};

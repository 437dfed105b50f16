//! Passing the items and the seams of a column: the strip, the boxes that are open, and where items begin.
//!
//! It stands on flow_list, and on column_laws for the bounds of any flow. It promises what stands before the first item of the
//! column that begins at any place, after each item with the tail of the seam after it, and before the next item, by the
//! definitions of strips and cloned edges in flow_list, and that all of this stays below 2^60 in sound flows. It asks for no
//! item: their heights are handed to it.
#![tactic(auto)]

mod laying;
mod open_boxes;
mod passing;

pub use laying::Laying;
pub use open_boxes::OpenBoxes;
pub use passing::{Before, Behind, across_seam, before_first, past_head, past_item};

//! The limits of flows that a document may pass.
//!
//! It stands on the data of boxes and flows. `first_late_limit` is proved to return the first limit that a document's flows pass:
//! of lengths, columns, rows one inside another, items, and items of a row inside another.
#![tactic(auto)]

mod items;
mod late;
mod lengths;
mod nests;

pub use late::first_late_limit;

//! The boxes of a document, from its nodes and a style for each.
//!
//! It stands on html_subset, inline_text and box_data, whose definitions say which boxes a document has, which elements are
//! shown, and which construct is the first that isn't laid out. `boxes_of` is proved to give exactly these.
#![tactic(auto)]

mod boxes;
mod constructs;
mod ends;
mod inline;
mod reading;
mod shown;
mod source;
mod tree;

pub use box_data::{BoxKind, BoxNode, BoxTree};
pub use tree::boxes_of;

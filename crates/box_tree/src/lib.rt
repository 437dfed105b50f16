//! The boxes of a document, from its nodes and their computed styles.
//!
//! It stands on css_cascade for the computed styles of elements, on box_style for what they say of boxes, and on box_maker for
//! the boxes of a document by such styles. `boxes` is proved to give these boxes, or the first construct that isn't laid out.
#![tactic(auto)]

mod making;

pub use box_data::{BoxKind, BoxNode, BoxTree};
pub use making::boxes;

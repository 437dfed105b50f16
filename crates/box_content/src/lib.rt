//! What stands in the flow of a document, from its boxes in their places.
//!
//! It stands on box_data. The boxes are walked in document order; when a container ends, its content is cut into rows of
//! columns at its spanners (CSS Multi-column 1, section 6). `specs/` says how marks are cut and how boxes open and close, and
//! `proofs/` that the marks are those of the content of the boxes.
#![tactic(auto)]

mod closing;
mod cutting;
mod laws;
mod walking;

pub use laws::content_is_numbered;
pub use walking::content;

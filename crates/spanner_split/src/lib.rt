//! The content of a multi-column container, cut into parts at the boxes that span its columns.
//!
//! It stands on mc_base. `specs/` states the cut by the places where spanners begin and end (CSS Multi-column 1, section 6),
//! and `split` is proved to answer it.
#![tactic(auto)]

mod event;
mod splitting;
#[cfg(test)]
mod tests;

pub use event::{Event, Part};
pub use splitting::split;

//! Generated documents: a container of paragraphs whose words are drawn from numbers that a start gives.
//!
//! It stands on mc_base. `specs/` states the text as a function of the start and the count of paragraphs, and `generate` is
//! proved to write it, within the bytes that a document may have. For a trial of its layout, `element_count` tells how many
//! elements it has, and `trial_metrics` is its table of metrics.
#![tactic(auto)]

mod generated;
mod page;
mod trial;

pub use generated::generate;
pub use trial::{element_count, trial_metrics};

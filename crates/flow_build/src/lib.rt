//! The flows of a document's boxes.
//!
//! It stands on box_style (what styles say of boxes), box_places (used widths), box_lines (lines), box_content (what stands in the
//! flows), flow_maker and doc_limits (the flows' data and limits), and on the laws of box_laws and doc_laws, by which this data is
//! sound. `specs/Build.antt` says which flows the boxes have and which limit they pass first; `build` and `build_with` promise just
//! these. `build_with` takes whatever breaks lines, and may so keep lines from one call to the next.
#![tactic(auto)]

mod building;
mod few;
mod making;
mod measuring;

pub use box_lines::{Liner, PlainLiner};
pub use building::{build, build_with};

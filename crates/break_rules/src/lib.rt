//! How good a break at a seam is, by what the boxes there ask for.
//!
//! It stands on mc_base. `specs/` states the rules on breaking of CSS Fragmentation 3, and `level` is proved to answer the
//! level that they give.
#![tactic(auto)]

mod rules;
mod seam;

pub use rules::level;
pub use seam::{BreakValue, LineCounts, SeamBoxes};

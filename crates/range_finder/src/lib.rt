//! The ranges of heights that a search for a row's height finds, from what is told of the columns that are judged at one height.
//!
//! It stands on mc_base and flow_list. It promises, whatever columns were judged: the range that begins at their height is the
//! next one of the search, and where there is none the search ends there.
#![tactic(auto)]

mod next;
mod room;

pub use next::{Judged, next_range, range_between};
pub use room::{atoms_height, most_columns};

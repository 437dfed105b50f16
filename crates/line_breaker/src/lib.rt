//! The lines of inline content.
//!
//! It stands on mc_base, font_table and inline_text. `break_lines` cuts a collapsed run into lines that are exactly those of
//! the definition in `specs/`, with their widths and heights.
#![tactic(auto)]

mod ahead;
mod breaking;
mod height;
mod laws;
mod line;
mod measures;
mod places;

pub use breaking::break_lines;
pub use laws::a_run_has_one_list_of_lines;
pub use line::Line;

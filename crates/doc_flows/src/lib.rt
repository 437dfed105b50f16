//! The flows of a document with a style sheet and a table of metrics, from their bytes.
//!
//! It stands on html_subset, doc_sheets, css_syntax and font_table for what the bytes say, on css_cascade, box_style and box_tree
//! for styles and boxes, on flow_build for flows, and on row_flags for their flags. `specs/Reading.antt` says what the bytes are
//! read as, `specs/Trees.antt` which flows a tree that was read has for a width and an available height, or why it has none,
//! `specs/Documents.antt` which flows a document has, and `specs/Flags.antt` which flags their rows have. `read`, `tree_flows`,
//! `document_flows` and `flagged_flows` are proved to answer just that, and by the laws `trees_have_one_answer`,
//! `documents_have_one_answer` and `rows_have_one_flagging` there is no other.
#![tactic(auto)]

mod flagged;
mod flows;
mod laws;
mod sheets;
mod texts;
mod trees;

pub use flagged::{FlaggedFlows, flagged_flows};
pub use flow_build::{Liner, PlainLiner};
pub use flows::document_flows;
pub use laws::{documents_have_one_answer, rows_have_one_flagging, trees_have_one_answer};
pub use sheets::all_sheets;
pub use texts::{Reading, read};
pub use trees::tree_flows;

//! A document that is edited and laid out again.
//!
//! It stands on edit_script and dom_edits for edits, on kept_lines for the lines of runs that didn't change, on doc_flows for
//! flows and on result_writer for results. A `Session` is a document with its sheets, its fonts, a width and an available height.
//! `apply` is proved to do what the definition of an edit says of the document's tree, or to leave the session as it was;
//! `result` and `print` are proved to answer the result of the document as it is then, as layout from the start would, or the
//! first reason why it has none. That lines are kept is seen from how many runs were broken, which no promise speaks of.
#![tactic(auto)]

mod editing;
mod laws;
mod session;
#[cfg(test)]
mod tests;

pub use edit_script::{Edit, EditFault};
pub use laws::edits_with_room_stay_formed;
pub use session::Session;

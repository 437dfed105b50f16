//! What a script of edits prints of a document, from their bytes.
//!
//! It stands on doc_flows and edit_script for what the bytes say, on mc_session for a document that is edited and laid out again,
//! and on script_runs for what the lines of a script come to. `specs/Answers.antt` says what a script prints of a document with a
//! style sheet and a table of metrics, or why it is refused. `print_script` is proved to answer just that, and by
//! `scripts_have_one_answer` there is no other.
#![tactic(auto)]

mod laws;
mod line;
mod script;

pub use laws::scripts_have_one_answer;
pub use script::print_script;

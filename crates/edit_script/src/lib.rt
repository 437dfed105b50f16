//! Scripts of edits: what a script says, its first fault, and the tree of a document after an edit.
//!
//! It stands on mc_base, and on html_grammar for trees. `specs/Spelling.antt` says how a step of a script is written, and
//! `specs/Script.antt` which steps a text has, or which fault is its first; `read_script` promises just these.
//! `specs/Edited.antt` says which tree a document has after an edit, or why it has none: the other crates' contracts cite it.
#![tactic(auto)]

mod cut;
mod laws;
mod reading;
mod script;
mod step;
#[cfg(test)]
mod tests;

pub use laws::{a_step_is_written_so, what_is_written_is_a_step};
pub use reading::read_script;
pub use script::{Edit, EditFault, ScriptLine, Step};

//! What a script of edits comes to over a document: all that it prints, or why it stops; and that there is room in the document
//! for its edits.
//!
//! It stands on edit_script for scripts, on dom_edits for edits of a document, and on html_grammar and html_subset for documents.
//! `specs/Runs.antt` says what the lines come to one after the other, whatever a print shows. Each function of `laws` promises
//! one law, does nothing, and takes no memory.
#![tactic(auto)]

mod laws;
mod refusals;

pub use laws::{documents_have_room, edits_leave_room, scripts_are_bounded};
pub use refusals::{PRINTED_LIMIT, edit_refusal, too_much};

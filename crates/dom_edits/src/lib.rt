//! Edits of a document's nodes.
//!
//! It stands on edit_script, whose `specs/Edited.antt` says which tree a document has after an edit, and on html_grammar and
//! html_subset for documents. `apply_edit` is proved to leave the nodes of just that tree, or the document unchanged with the
//! fault that the definition says. `specs/Sizes.antt` says when the document is well formed again.
#![tactic(auto)]

mod changing;
mod finding;
mod names;
mod numbers;
#[cfg(test)]
mod tests;

pub use changing::apply_edit;

//! What a document of this profile of HTML is: its characters, tokens and trees, and the laws of the grammar.
//!
//! It stands on mc_base. The files of `specs/` say which characters spell which token, which tokens have which tree,
//! and which fault is the first. Each function here is a law about them, and does nothing when it runs.
#![tactic(auto)]

mod dom;
mod laws;
mod place;
mod stage;
mod token;

pub use dom::{Attribute, Dom, DomNode, NodeId, NodeKind};
pub use laws::{
    documents_are_read, doms_are_of_their_texts, nodes_have_one_tree, one_tree, one_tree_of_text,
    parents_are_earlier, refusals_have_reasons, subtrees_are_contiguous, texts_are_read,
    texts_have_their_doms, the_fault_is_the_first, the_fault_of_a_text_is_the_first,
    what_is_read_is_a_document, what_is_read_is_spelled,
};
pub use mc_base::Fault;
pub use place::Place;
pub use stage::{Open, Stage};
pub use token::{Meaning, Piece, ReadAttribute, ReadAttributes, Spelled, Tag, Token, Value};

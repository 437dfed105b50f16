//! Reads documents of a profile of HTML: a text becomes its one tree, or its first fault.
//!
//! It stands on mc_base and on html_grammar, whose `specs/` say what a document is. It promises that `parse` answers the
//! document that the text spells, within the limits, and otherwise the first fault by rule and byte, or the limit that is
//! passed. It goes over the text once, keeps what is open in a list, and has no recursion.
#![tactic(auto)]

mod building;
mod characters;
mod facts;
mod fault;
mod names;
mod nodes;
mod reading;
mod references;
mod stack;
mod tags;
mod tokens;
mod values;

pub use html_grammar::{Attribute, Dom, DomNode, NodeId, NodeKind};
pub use reading::parse;

//! The style sheets that stand in a document: those of its `style` elements.
//!
//! It stands on mc_base, html_grammar and html_subset for documents, on css_data and css_syntax for sheets, and on css_winner for
//! style attributes. `specs/Own.antt` says which sheets they are, which fault is the first and which construct: style attributes
//! and style elements take turns in document order. `own_sheets` is proved to answer just that. Each text is read once, and each
//! byte of the document at most twice for the byte where a fault or a construct stands.
#![tactic(auto)]

mod bytes;
mod media;
mod own;
mod part;

pub use own::{OwnSheets, own_sheets};

//! A text read character by character: what is left of it, the byte where it stands, and what comes next.
//!
//! It stands on mc_base and on html_grammar, whose `Places` say what the characters of a text are, with their bytes. It promises
//! that a `Cursor` is what is left of its text at each step; the readers of documents and of style sheets rest on it.
#![tactic(auto)]

mod cursor;
mod looking;

pub use cursor::Cursor;
pub use looking::{begins, offset, push};

//! The tokens of style sheets: a text becomes its one list of lexemes.
//!
//! It stands on mc_base, and on html_grammar for the characters of a text with their bytes. It promises that `lexemes`
//! answers, for a text of at most 2^28 bytes, the lexemes that it spells, the longest taken at each place. It goes over the
//! text once.
#![tactic(auto)]

mod characters;
mod depth;
mod facts;
mod lexeme;
mod reading;
mod rest;
mod symbols;

pub use depth::{Stop, front_len};
pub use facts::{
    broken_of, closer_of, delim_of, function_of, hash_of, ident_of, is_closer, is_delim, is_in,
    is_space, is_word, sign_of, word_of,
};
pub use lexeme::{Fault, Lexeme, Symbol};
pub use reading::lexemes;
pub use rest::{Rest, after_first, begins, begins_space, skip_spaces};

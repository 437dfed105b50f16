//! The preludes of rules: lists of selectors, and the media of `@media`.
//!
//! It stands on mc_base, css_data and css_tokens. It promises that `selector_list` and `media_list` answer what a prelude spells,
//! or that it is off the grammar. They go over the lexemes once, without recursion.
#![tactic(auto)]

mod attribute;
mod compound;
mod media;
mod nth;
mod pseudo;
mod selecting;
mod words;

pub use media::media_list;
pub use selecting::{Selectors, selector_list};
pub use words::or_found;

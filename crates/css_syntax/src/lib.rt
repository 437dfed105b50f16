//! Reads style sheets and style attributes: a text becomes its one list of rules or of declarations, or its first fault.
//!
//! It stands on mc_base, css_data, css_tokens and css_prelude, and on css_laws for what tokens and values are by their forms. It
//! promises that `parse_sheet` and `parse_declarations` answer what a text of at most 2^28 bytes says, and otherwise the first
//! fault by byte and rule, or the limit that is passed. It goes over the text a fixed number of times, keeps what is open in a
//! list, and has no recursion.
#![tactic(auto)]

mod at_rules;
mod blocks;
mod brackets;
mod media;
mod reading;
mod rules;
#[cfg(test)]
mod tests;
mod tokens;

pub use css_data::{
    AttrOp, Compound, CssToken, Join, RawDeclaration, Selector, Sheet, StyleRule, Test,
};
pub use media::parse_media;
pub use reading::{parse_declarations, parse_sheet};

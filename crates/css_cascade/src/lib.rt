//! The style of each element of a document.
//!
//! It stands on mc_base, css_data, css_select, css_values, css_computed, css_winner, html_grammar and html_subset.
//! `specs/Cascaded.antt` says which style an element has and what is refused at it: by what wins for each property (css_winner)
//! and what that is computed to (css_computed). `cascade` is proved to answer just that, or the first style attribute that is
//! off its grammar. Parents come before their children, and each style attribute is read once.
#![tactic(auto)]

mod attributes;
mod cascading;
mod laws;
mod styles;
#[cfg(test)]
mod tests;
mod won;

pub use cascading::cascade;
pub use css_computed::{Computed, Style};
pub use laws::styles_are_one;
pub use styles::{NodeStyle, Styles};

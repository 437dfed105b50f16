//! The plain data that the crates of style sheets share: tokens of values, selectors, declarations, rules and sheets.
//!
//! It stands on mc_base, and has no calls. Contracts see each `List` as its items and each `Text` as its bytes.
#![tactic(auto)]

mod rule;
mod selector;
mod token;

pub use rule::{RawDeclaration, Sheet, StyleRule};
pub use selector::{AttrOp, Compound, Join, Selector, Test};
pub use token::CssToken;

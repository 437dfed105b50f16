//! Which elements of a document a selector matches, and how specific a selector is.
//!
//! It stands on css_data, html_subset and mc_base. `specs/` says where elements stand to one another, what each test asks, and
//! which paths a selector takes (Selectors 3). `matches` is proved to be that relation, and `specificity` the counts. Neither
//! takes memory, and a selector is walked from its right end, without recursion.
#![tactic(auto)]

mod attributes;
mod compound;
mod matching;
mod places;
#[cfg(test)]
mod tests;
mod walk;
mod weight;

pub use matching::{is_element_at, matches};
pub use weight::{Weight, specificity};

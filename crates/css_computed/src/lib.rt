//! The computed style of an element: the value of each of its properties, from what wins for them, its parent's style and the
//! root's font size.
//!
//! It stands on css_values and mc_base. The table of properties is `specs/Table.antt`, and `specs/Computing.antt` says what
//! the value of a property is; `style_of` is exactly that for each field of a style.
#![tactic(auto)]

mod computing;
mod copying;
mod laws;
mod length;
mod parts;
mod style;
mod table;
#[cfg(test)]
mod tests;
mod value;
mod winning;

pub use computing::style_of;
pub use laws::fields_are_named;
pub use style::{Computed, Style};
pub use winning::Winning;

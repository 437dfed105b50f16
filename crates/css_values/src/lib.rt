//! What a declaration of a style sheet says: the properties that it sets and their values, or what it has that isn't laid
//! out.
//!
//! It stands on css_data and mc_base. The table of properties is `specs/Table.antt`, and `specs/Declarations.antt` says
//! what a declaration says by it; `parse_declaration` is exactly that. `targets_of` says which properties a name is about, also
//! where its value is refused.
#![tactic(auto)]

mod accept;
mod border;
mod declaration;
mod declared;
mod family;
mod form;
mod keyword;
mod laws;
mod name;
mod shorthand;
mod table;
mod target;
#[cfg(test)]
mod tests;
mod text;

pub use declaration::parse_declaration;
pub use declared::{Declared, Longhand, Property, Value};
pub use laws::names_are_known;
pub use name::{Barred, all_properties};
pub use target::{Target, places_are_known, property_place, target_place, targets_of};

//! Which declaration wins for each property of an element.
//!
//! It stands on mc_base, css_data, css_syntax, css_select, css_values, html_grammar and html_subset. `specs/Applying.antt` says
//! which declarations apply to an element, and that one wins that applies and that no other one comes above. `winners` is proved
//! to find it. Rules are looked up by the id, class or type of their selectors' last compounds, so that no element is tried
//! against all of them.
#![tactic(auto)]

mod best;
mod filing;
mod finding;
mod key;
mod keys;
mod laws;
mod own;
mod precedence;
mod rules;
mod setting;
mod sheet_text;

pub use best::Offer;
pub use filing::Place;
pub use finding::winners;
pub use laws::{one_wins, precedences_are_ordered};
pub use own::own_settings;
pub use precedence::{Origin, Precedence};
pub use rules::{Rules, prepare};
pub use setting::{Given, Setting};
pub use sheet_text::built_in;

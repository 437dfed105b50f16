//! Metrics tables: the faces of a text, and the advances of their characters.
//!
//! It stands on mc_base. `read_fonts` answers a table exactly where the text is on the grammar of metrics, with the
//! table that it spells, and else the first fault. The calls of `Fonts` answer the face that a style asks for, and
//! lengths that are products rounded down.
#![tactic(auto)]

mod choice;
mod fonts;
mod line;
mod reading;

pub use fonts::{Advance, Face, FaceId, Fonts};
pub use reading::read_fonts;

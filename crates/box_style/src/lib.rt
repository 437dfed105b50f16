//! What the computed styles of a document's elements say of their boxes and of their text.
//!
//! It stands on the computed styles of elements (css_computed, css_cascade), on the table of faces (font_table), and on the data
//! of boxes, text and breaks (box_data, inline_text, break_rules). `box_style` reads the style of a box from computed values, and
//! `box_styles` those of all nodes; `run_texts` says which face, font size and line height the text of each node has. Each is
//! proved to be the definition of its name in `specs/`. `first_long` finds the first computed length of the shown elements that
//! is above the limit, and by `styles_are_short` no length of a box is above it where no computed one is.
#![tactic(auto)]

mod all;
mod laws;
mod lengths;
mod style;
mod texts;
mod value;

pub use all::box_styles;
pub use laws::styles_are_short;
pub use lengths::first_long;
pub use style::box_style;
pub use texts::run_texts;

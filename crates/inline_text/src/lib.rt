//! Inline content: its pieces, how white space in it collapses, and where its lines may break.
//!
//! It stands on mc_base and font_table. The files of `specs/` say what the collapsed run is and which places are break
//! opportunities; `collapse` and `opportunities` are proved to be exactly that, and `is_blank` tells which runs make no line.
#![tactic(auto)]

mod collapsing;
mod content;
mod laws;
mod places;
mod styles;

pub use collapsing::{collapse, collapse_pieces, is_blank};
pub use content::{Kind, Piece, RunStyle, Runs};
pub use laws::numbering_styles_anew_changes_nothing_else;
pub use places::opportunities;

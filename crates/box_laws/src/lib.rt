//! A law about the boxes of a document.
//!
//! It stands on box_data. `boxes_name_shown_elements` promises that the boxes of a document, and the pieces in them, name
//! its shown elements alone, and that the images in them are no larger than 2^62 units.
#![tactic(auto)]

ghost use Rattle.box_laws.specs.Laws.{BoxesNameShown};

/// The boxes of a document, and the pieces in them, name its shown elements alone.
pub fn boxes_name_shown_elements()
    ensures { BoxesNameShown }
{}

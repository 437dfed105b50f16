//! Laws about the styles of boxes.

ghost use Rattle.box_style.specs.Laws.{StylesAreShort};

/// Where no computed length of a node is above 2^24 units, no length of its box's style is. A node without an entry has none.
pub fn styles_are_short()
    ensures { StylesAreShort }
{}

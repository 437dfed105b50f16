//! What a drawing shows of a tree.

ghost use Rattle.mc_draw.specs.Laws.{RectanglesAreThoseOfLines};
ghost use Rattle.mc_draw.specs.ReadBack.{AreReadAgain};

/// All shapes of a drawing but its rules are the rectangles of the lines, in order.
pub fn rectangles_are_those_of_lines()
    ensures { RectanglesAreThoseOfLines }
{}

/// A drawing that is written is read again as itself, where its numbers have at most 19 digits.
pub fn drawings_are_read_again()
    ensures { AreReadAgain }
{}

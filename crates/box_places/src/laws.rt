//! Laws of boxes in their places, each the contract of a function that does nothing.

ghost use Rattle.std.specs.Prelude.{◌≡◌, ℕ, List, None, length};
ghost use Rattle.line_breaker.specs.declared.line.Line.{Line};
ghost use Rattle.box_data.specs.Bounds.{AreParented};
ghost use Rattle.box_data.specs.BoxTree.{Boxes, Node, box_count, in_order};
ghost use Rattle.box_data.specs.declared.style.BoxStyle.{BoxStyle};
ghost use Rattle.box_data.specs.Widths.{placed};

/// Boxes in their places have their numbers in document order, and those of the boxes around them.
pub fn places_are_parented()
    ensures parented { (styles : List BoxStyle) (lines : List (List Line)) (width : ℕ) (tree : Boxes Node) →
        AreParented None 0 (placed styles lines width tree) }
    ensures count { (styles : List BoxStyle) (lines : List (List Line)) (width : ℕ) (tree : Boxes Node) →
        length (in_order (placed styles lines width tree)) ≡ box_count tree }
{}

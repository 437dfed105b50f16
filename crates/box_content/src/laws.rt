//! Laws about the content of boxes.

ghost use Rattle.std.specs.Prelude.{None};
ghost use Rattle.box_data.specs.Bounds.{AreParented, AreNumbered};
ghost use Rattle.box_data.specs.BoxTree.{Boxes, in_order};
ghost use Rattle.box_data.specs.Content.{content_of};
ghost use Rattle.box_data.specs.declared.placed.Placed.{Placed};

/// Each box that the content names stands by its number in the list of the boxes, and each line by its number in its box.
pub fn content_is_numbered()
    ensures { (tree : Boxes Placed) → AreParented None 0 tree → AreNumbered (in_order tree) (content_of tree) }
{}

//! Laws of columns: what is true of the definitions of flow_list, whatever lays out or checks.
//!
//! It stands on flow_list and flow_data. Each function promises one law, does nothing, and takes no memory.
#![tactic(auto)]

ghost use Rattle.std.specs.Prelude.{ℕ, ◌<◌, length, Option};
ghost use Rattle.flow_data.specs.declared.data.FlowsData.{FlowsData};
ghost use Rattle.flow_list.specs.Column.{Inner};
ghost use Rattle.flow_laws.specs.Bounds.{NeedsAndBounds};
ghost use Rattle.flow_laws.specs.Constant.{BreaksAreConstant};
ghost use Rattle.flow_laws.specs.Depth.{DepthChangesNothing};
ghost use Rattle.flow_laws.specs.Holding.{FragmentsHoldEachItem, StackHoldsEachItem};
ghost use Rattle.flow_laws.specs.LeastHeight.{SizesAreLeast};
ghost use Rattle.flow_laws.specs.Progress.{ColumnsAdvance};
ghost use Rattle.flow_laws.specs.Rectangles.{RectanglesAreBounded};
ghost use Rattle.flow_laws.specs.RangeLaws.{RangesReject, RangesAccount};
ghost use Rattle.flow_laws.specs.TallAndArea.{TallAndAreaReject};
ghost use Rattle.flow_data.specs.Flows.{flow_in};
ghost use Rattle.flow_list.specs.Tokens.{Token, IsPlace, IsPlaceBefore};
ghost use Rattle.flow_data.specs.Soundness.{IsSound};

/// Breaks are constant over a range of heights: each bound of a column is above its height, and up to the least its lines and
/// its overflow stay, and where it doesn't overflow its end and level too; so do those of any number of columns together, of a
/// fill and of the columns that are judged, and a height fits just where the lower one does.
pub fn breaks_are_constant()
    ensures { (d : FlowsData) (depth : ℕ) → BreaksAreConstant d depth }
{}

/// The size of a row from a place on exists: it is the one least height that fits. At all heights, margins, solid amounts and
/// cloned edges together only forced breaks remain.
pub fn sizes_are_least()
    ensures { (inner : Inner) (d : FlowsData) → SizesAreLeast inner d }
{}

/// A deeper recursion than needed changes nothing: of a row of which at most n stand one inside another the same is told at each
/// depth from n on. In sound flows the count of rows is such a depth for each of them.
pub fn depth_changes_nothing()
    ensures { (d : FlowsData) → DepthChangesNothing d }
{}

/// In sound flows a column, at a height or without end, ends later than it begins, and what a row makes of a height leaves a
/// later place. So as many columns as there are items left reach the row's end, and any number of columns hold each atom before
/// the place where they end once, in order, also those in inner rows that are cut.
pub fn columns_advance()
    ensures { (d : FlowsData) → IsSound d → (r : ℕ) → r < length d.rows → ColumnsAdvance d r }
{}

/// In sound flows the tree of a column holds just the atoms from the column's place to its end, each once and in order, also
/// those in inner rows that are cut. So the trees of columns hold the atoms up to the place where the last one ends, and those of
/// all columns of a row all of its atoms; no two of these are one. The items in the tree of a column are those from its place to
/// its end, a row that is cut with them, and no row stands in it twice; those in the tree of a stack are all items of its flow.
pub fn fragments_hold_each_item()
    ensures columns { (d : FlowsData) → IsSound d → (r : ℕ) → r < length d.rows → FragmentsHoldEachItem d r }
    ensures stacks { (d : FlowsData) (s : ℕ) → StackHoldsEachItem d s }
{}

/// In sound flows no height fits that is below what an atom needs after an unforced break, nor one at which the heights of the
/// atoms add up to more than the columns that may be used can hold.
pub fn tall_and_area_reject()
    ensures { (d : FlowsData) → IsSound d → (r : ℕ) → r < length d.rows → (q : Token) → IsPlaceBefore d (flow_in d r) q
        → TallAndAreaReject d r q }
{}

/// In sound flows what a column's items need never falls from one to the next, and needs, also after an unforced break, the
/// places where items begin, sizes and extents, also of columns without end, are all below 2^60.
pub fn needs_and_bounds()
    ensures { (d : FlowsData) → IsSound d → (r : ℕ) → r < length d.rows → NeedsAndBounds d r }
{}

/// In sound flows every rectangle of a whole tree ends below 2^63, from the left and from the top of the document: those of
/// stacks, rows, columns, pieces of boxes and items, however deep they stand. And each stack reaches less than 2^60.
pub fn rectangles_are_bounded()
    ensures { (d : FlowsData) → IsSound d → RectanglesAreBounded d }
{}

/// In sound flows no height of a range fits whose reason holds: the range ends no higher than what an atom needs after an
/// unforced break, the atoms are more than the columns hold just below its end, or the columns at its start leave a place, end at
/// a bad break or overflow, and none of their bounds is below its end. At the row's end there is no such range.
pub fn ranges_reject()
    ensures { (d : FlowsData) → IsSound d → (r : ℕ) → r < length d.rows → (q : Token) → IsPlace d (flow_in d r) q
        → RangesReject d r q }
{}

/// In sound flows the ranges of a row from a place on tell of each lower height why it doesn't fit: the reason of each range
/// holds, its lines are those of the columns that the reason speaks of, and one after another, none empty, they go from 0 up to
/// the size, or up to one above what is available where that is less. At the row's end there are none.
pub fn ranges_account()
    ensures { (d : FlowsData) → IsSound d → (r : ℕ) → r < length d.rows → (q : Token) → IsPlace d (flow_in d r) q
        → (available : Option ℕ) → RangesAccount d r q available }
{}

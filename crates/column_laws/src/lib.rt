//! Laws of columns one after another, and of any flow: what is true of the definitions of flow_list beyond the laws of flow_laws.
//!
//! It stands on flow_laws, flow_list and flow_data. Each function promises one law, does nothing, and takes no memory.
#![tactic(auto)]

ghost use Rattle.std.specs.Prelude.{ℕ, ◌<◌, length};
ghost use Rattle.flow_data.specs.declared.data.Flow.{Flow};
ghost use Rattle.flow_data.specs.declared.data.FlowsData.{FlowsData};
ghost use Rattle.flow_list.specs.Column.{Column, Inner};
ghost use Rattle.flow_list.specs.Tokens.{Token};
ghost use Rattle.flow_data.specs.Soundness.{IsSound};
ghost use Rattle.column_laws.specs.AnyFlow.{FlowIsSound};
ghost use Rattle.column_laws.specs.Counting.{PlacesAreShort, ColumnsAreFew};
ghost use Rattle.column_laws.specs.Depths.{DepthsAlike, RowsAreTold};
ghost use Rattle.column_laws.specs.Following.{ColumnsFollow, FoldsFollow, FitsExactly, FillsFollow};
ghost use Rattle.column_laws.specs.Staying.{ShortagesHold};

/// Columns of n + m are those of n and then those of m from where they end, with their fragments; past the end there are none,
/// and fewer than asked for only where they reach it. What is told of them is told of the first ones and of the rest.
pub fn columns_follow()
    ensures columns { (make : Token → Column) (f : Flow) → ColumnsFollow make f }
    ensures told { (f : Flow) → FoldsFollow f }
{}

/// A height fits exactly where the columns that reach the end are no more than may be used, and none breaks a rule.
pub fn fits_exactly()
    ensures { (inner : Inner) (d : FlowsData) (r : ℕ) (q : Token) → FitsExactly inner d r q }
{}

/// The columns of fills one after another are those of the row, with their fragments.
pub fn fills_follow()
    ensures { (inner : Inner) (d : FlowsData) (r : ℕ) → FillsFollow inner d r }
{}

/// From a height on and below what the shortage of columns adds to it, their lines, whether one overflows and whether they fit
/// stay, and where none overflows their count, end, level and forced breaks too: of any number of columns, and of those up to
/// the first that breaks a rule.
pub fn shortages_hold()
    ensures { (d : FlowsData) (depth : ℕ) → ShortagesHold d depth }
{}

/// A place in a row that nests at most n has at most n numbers. In sound data so do the places where columns and fills end;
/// there are fewer than 2^32 columns; all of them are those of the row's fills one after another, with their fragments; and a
/// height fits exactly where they are no more than may be used, and none breaks a rule.
pub fn columns_are_few()
    ensures places { (d : FlowsData) → PlacesAreShort d }
    ensures columns { (d : FlowsData) → IsSound d → (r : ℕ) → r < length d.rows → ColumnsAreFew d r }
{}

/// In sound data what is true of the flow of each row is true of every flow, also of those of stacks: columns advance and reach
/// the end, needs, extents, bounds and all heights together are below 2^60, and the trees of columns hold each item once, in
/// order.
pub fn flows_are_sound()
    ensures { (d : FlowsData) → IsSound d → (f : ℕ) → f < length d.flows → FlowIsSound d f }
{}

/// A deeper recursion than needed changes nothing of a row's fragments, of the sizes that the lines of its fill rest on, of its
/// atoms, or of what is entered in a book: of a row of which at most n stand one inside another these are the same at each depth
/// from n on. In sound data what is told of each row is what the definitions of its size, its fill and its fragments say.
pub fn depths_are_alike()
    ensures alike { (d : FlowsData) → DepthsAlike d }
    ensures told { (d : FlowsData) → IsSound d → RowsAreTold d }
{}

//! Laws of where a column ends, of the pieces of boxes in it and of the lines that are printed of it: what is true of the
//! definitions of flow_list, told over all breaks, all boxes and all fragments.
//!
//! It stands on flow_laws, flow_list and flow_data. Each function promises one law, does nothing, and takes no memory.
#![tactic(auto)]

ghost use Rattle.std.specs.Prelude.{ℕ, ◌<◌, length};
ghost use Rattle.flow_data.specs.declared.data.Flow.{Flow};
ghost use Rattle.flow_data.specs.declared.data.FlowsData.{FlowsData};
ghost use Rattle.flow_list.specs.Column.{Inner};
ghost use Rattle.flow_list.specs.Tokens.{Token};
ghost use Rattle.flow_data.specs.Soundness.{IsSound};
ghost use Rattle.piece_laws.specs.Boxes.{BoxesHavePieces, StackHasPieces};
ghost use Rattle.piece_laws.specs.Choice.{ColumnIsChosen};
ghost use Rattle.piece_laws.specs.Lines.{LinesAreNodes};

/// A column's items are those up to the next forced break or the end. Its stop is the first of them that needs more than the
/// height. Without one the column ends after its last item. With one it ends at a break where it may end: no such break has a
/// lesser level, and none of the same level is later. Where there is no such break it overflows.
pub fn columns_are_chosen()
    ensures { (inner : Inner) (d : FlowsData) (f : Flow) (t : Token) (h : ℕ) → ColumnIsChosen inner d f t h }
{}

/// In sound flows the lines of a printed tree are the nodes of its fragments, one line each and in order: a line for each
/// stack, and for each column, each piece of a box or of a row and each atom in it, also in rows within rows and in stacks
/// within stacks.
pub fn lines_are_nodes()
    ensures { (d : FlowsData) → IsSound d → LinesAreNodes d }
{}

/// In sound flows the tree of a column has one piece for each box that continues there from an earlier column, and then one for
/// each box that starts between the column's place and its end, in order. Each piece says whether its box starts there, and has
/// a bottom exactly where its box ends there. No box has two. The pieces stand one in another as their boxes do: a walk of the
/// tree, into each piece and out of it, passes the starts and ends of boxes in the order of the flow. This holds of the columns
/// of each flow, from each place on, and of the tree of each stack.
pub fn boxes_have_pieces()
    ensures columns { (d : FlowsData) → IsSound d → (f : ℕ) → f < length d.flows → BoxesHavePieces d f }
    ensures stacks { (d : FlowsData) → IsSound d → (s : ℕ) → s < length d.stacks → StackHasPieces d s }
{}

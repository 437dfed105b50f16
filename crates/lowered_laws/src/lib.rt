//! Laws of layouts whose flagged pieces of rows are lowered: what is true of the definitions of piece_data, whatever lays out or
//! prints.
//!
//! It stands on flow_list, flow_laws, piece_data, frag_pool, tree_lines and tree_laws. Each function promises one law, does
//! nothing, and takes no memory: that the least height of a piece has a bound, that the trees of such a layout name only parts
//! that there are, and that the lines of what its ids stand for can be made and are those of its tree.
#![tactic(auto)]

ghost use Rattle.std.specs.Prelude.{ℕ, ◌<◌, ◌^◌, length};
ghost use Rattle.flow_data.specs.declared.data.FlowsData.{FlowsData};
ghost use Rattle.flow_data.specs.Flows.{stack_of};
ghost use Rattle.flow_data.specs.Soundness.{IsSound};
ghost use Rattle.flow_list.specs.declared.laid.Laid.{Laid};
ghost use Rattle.flow_list.specs.Tokens.{Token};
ghost use Rattle.frag_pool.specs.Nodes.{Nodes};
ghost use Rattle.tree_lines.specs.Shown.{IsInside};
ghost use Rattle.piece_data.specs.LeastPiece.{least_height};
ghost use Rattle.piece_data.specs.Lowering.{Flags, stack_lowered};
ghost use Rattle.lowered_laws.specs.Layout.{IsLoweredLayout, IsLoweredPrinted};

/// In sound flows the least height of a piece of a row is below 2^60, from whatever place on and at whatever height it is cut.
pub fn least_heights_are_small()
    ensures { (d : FlowsData) → IsSound d → (r : ℕ) → r < length d.rows → (q : Token) → (a : ℕ)
        → least_height d r q a < 2 ^ 60 }
{}

/// In sound flows the tree of a stack with its flagged pieces lowered names only parts that there are, however deep they stand:
/// boxes, rows, the items of the flow that a tree stands in, and the stacks inside containers with a height.
pub fn lowered_trees_name_parts()
    ensures { (d : FlowsData) → IsSound d → (flags : Flags) → (s : ℕ) → s < length d.stacks
        → IsInside d (stack_of d s).flow (stack_lowered d flags s) }
{}

/// In sound flows the lines of a layout whose flagged pieces are lowered can be made: each place and size has 64 bits, and ends
/// below 2^63. They are the lines of the flows' tree with those pieces lowered.
pub fn lowered_layouts_are_printed()
    ensures { (d : FlowsData) (flags : Flags) (laid : Laid) (p : Nodes) → IsSound d → IsLoweredLayout d flags laid p
        → IsLoweredPrinted d flags laid p }
{}

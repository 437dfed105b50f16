//! Laws of the trees of layouts: what is true of the definitions of flow_list, whatever prints them.
//!
//! It stands on flow_list, flow_laws, frag_pool and tree_lines. Each function promises one law, does nothing, and takes no
//! memory: that the trees of a layout name only parts that there are, and that the lines of what a layout's ids stand for are
//! those of its tree.
#![tactic(auto)]

ghost use Rattle.std.specs.Prelude.{ℕ, ◌<◌, length};
ghost use Rattle.flow_data.specs.declared.data.FlowsData.{FlowsData};
ghost use Rattle.flow_data.specs.Flows.{stack_of};
ghost use Rattle.flow_data.specs.Soundness.{IsSound};
ghost use Rattle.flow_list.specs.Fragments.{stack_fragment};
ghost use Rattle.flow_list.specs.declared.laid.Laid.{Laid};
ghost use Rattle.frag_pool.specs.Nodes.{Nodes};
ghost use Rattle.tree_lines.specs.Shown.{IsInside};
ghost use Rattle.tree_laws.specs.Layout.{IsLayout, IsPrinted};

/// In sound flows the tree of a stack names only parts that there are, however deep they stand: boxes, rows, the items of the
/// flow that a tree stands in, and the stacks inside containers with a height.
pub fn trees_name_parts()
    ensures { (d : FlowsData) → IsSound d → (s : ℕ) → s < length d.stacks
        → IsInside d (stack_of d s).flow (stack_fragment d s) }
{}

/// In sound flows the lines of a layout can be made: each place and size has 64 bits. They are the lines of the flows' tree.
pub fn layouts_are_printed()
    ensures { (d : FlowsData) (laid : Laid) (p : Nodes) → IsSound d → IsLayout d laid p → IsPrinted d laid p }
{}

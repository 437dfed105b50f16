//! The lines of a layout.

ghost use Rattle.std.specs.Prelude.{◌≡◌, IfOk};
ghost use Rattle.flow_list.specs.Stacks.{stack_height};
ghost use Rattle.flow_list.specs.Tree.{tree_of};
ghost use Rattle.mc_draw.specs.Shapes.{height_of};
ghost use Rattle.tree_laws.specs.Layout.{IsLayout};
ghost use Rattle.tree_lines.specs.Lines.{lines_of};

use container_layout::layout;
use flow_list::{Book, Flows, Laid, flow_counts};
use frag_pool::Pool;
use mc_base::{List, NoMemory};
use std::alloc::Global;
use tree_laws::layouts_are_printed;
use tree_lines::{TreeLine, tree_lines};

/// The lines of a layout of the flows, whose ids live in the pool.
fn lines_of_layout(
    alloc: Global,
    flows: &Flows,
    laid: &Laid,
    pool: &Pool,
) -> Result<List<TreeLine>, NoMemory>
    requires { IsLayout flows.now laid.now pool.now }
    ensures lines { IfOk result (λ lines. lines_of lines ≡ tree_of flows.now) }
    ensures height { height_of (tree_of flows.now) ≡ stack_height flows.now 0 }
{
    // Sealed flows are sound.
    let _counts = flow_counts(flows);
    layouts_are_printed();
    tree_lines(alloc, flows, laid, pool)
}

/// The lines of the flows' tree, as they are laid out. The error is out of memory.
pub fn laid_lines(alloc: Global, flows: &Flows) -> Result<List<TreeLine>, NoMemory>
    ensures lines { IfOk result (λ lines. lines_of lines ≡ tree_of flows.now) }
    ensures height { IfOk result (λ lines. height_of (tree_of flows.now) ≡ stack_height flows.now 0) }
{
    let mut book = Book::new(alloc);
    let mut pool = Pool::new(alloc);
    let laid = layout(alloc, flows, &mut book, &mut pool)?;
    lines_of_layout(alloc, flows, &laid, &pool)
}

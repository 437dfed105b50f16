//! The number after each node and the nodes in it.

ghost use Rattle.std.specs.Prelude.{◌≡◌, ◌≤◌, ◌^◌, length, IfOk, None};
ghost use Rattle.html_grammar.specs.Tree.{Forest, nodes_from};
ghost use Rattle.box_maker.specs.Ends.{HasEnds, raised};

use html_grammar::DomNode;
use mc_base::NoMemory;
use std::alloc::Global;

/// Makes the entry with this number, if there is one, at least this.
fn raise(ends: &mut [u32], number: Option<u32>, least: u32)
    ensures { ends.new ≡ raised number least ends.old }
{
    if let Some(number) = number {
        let number = number as usize;
        if number < ends.len() {
            ends[number] = ends[number].max(least);
        }
    }
}

/// For each node the number after it and the nodes in it.
pub fn ends_of(alloc: Global, nodes: &[DomNode]) -> Result<Vec<u32>, NoMemory>
    requires { length nodes.now ≤ 2 ^ 28 }
    ensures { (tree : Forest) → nodes.now ≡ nodes_from None 0 tree → IfOk result (λ ends. HasEnds ends.items 0 tree) }
{
    let mut ends = vec![in alloc; 0u32; nodes.len()]?;
    let mut k = nodes.len();
    while 0 < k {
        k -= 1;
        let end = ends[k].max(k as u32 + 1);
        ends[k] = end;
        raise(ends.as_mut_slice(), nodes[k].parent, end);
    }
    Ok(ends)
}

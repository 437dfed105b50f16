//! Nodes taken out, and the numbers of those after them.

ghost use Rattle.std.specs.Prelude.{◌≡◌, ◌+◌, ◌<◌, ◌≤◌, ◌-◌, ◌^◌, ◌++◌, All, length, map, take, drop};
ghost use Rattle.std.specs.Option.{option_map};
ghost use Rattle.dom_edits.specs.Nodes as nodes_specs;
ghost use Rattle.dom_edits.specs.Nodes.{ParentIsBelow};

use html_grammar::DomNode;

/// Takes out the nodes from one number up to another.
pub fn cut(nodes: &mut Vec<DomNode>, start: usize, end: usize)
    requires order { start ≤ end }
    requires inside { end ≤ length nodes.old.items }
    ensures { nodes.new.items ≡ take start nodes.old.items ++ drop end nodes.old.items }
{
    let behind = nodes.len() - end;
    nodes.rotate_left(end);
    nodes.truncate(behind + start);
    nodes.rotate_left(behind);
}

fn moved(from: usize, to: usize, parent: Option<u32>) -> Option<u32>
    requires near { to ≤ from + 1 }
    requires small { ParentIsBelow (2 ^ 32 - 1) parent }
    ensures { result ≡ option_map (nodes_specs.moved from to) parent }
{
    match parent {
        Some(parent) => {
            let parent = parent as usize;
            let number = if parent < from {
                parent
            } else {
                to + (parent - from)
            };
            Some(number as u32)
        }
        None => None,
    }
}

fn renumber_one(node: &mut DomNode, from: usize, to: usize)
    requires near { to ≤ from + 1 }
    requires small { ParentIsBelow (2 ^ 32 - 1) node.old.parent }
    ensures { node.new ≡ nodes_specs.renumbered (nodes_specs.moved from to) node.old }
{
    node.parent = moved(from, to, node.parent);
}

fn renumber_all(nodes: &mut [DomNode], from: usize, to: usize)
    requires near { to ≤ from + 1 }
    requires small { All (λ node. ParentIsBelow (2 ^ 32 - 1) node.parent) nodes.old }
    ensures { nodes.new ≡ map (nodes_specs.renumbered (nodes_specs.moved from to)) nodes.old }
{
    for node in nodes.iter_mut() {
        renumber_one(node, from, to);
    }
}

/// Gives the nodes their parents' numbers after a change, where the node that had the first number has the second.
pub fn renumber(nodes: &mut Vec<DomNode>, from: usize, to: usize)
    requires near { to ≤ from + 1 }
    requires small { All (λ node. ParentIsBelow (2 ^ 32 - 1) node.parent) nodes.old.items }
    ensures { nodes.new.items ≡ map (nodes_specs.renumbered (nodes_specs.moved from to)) nodes.old.items }
{
    renumber_all(nodes.as_mut_slice(), from, to);
}

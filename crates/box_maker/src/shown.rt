//! The elements that are shown.

ghost use Rattle.std.specs.Prelude.{◌≡◌, ◌<◌, ◌++◌, ℕ, Option, Some, OnOk, slice_get};
ghost use Rattle.html_grammar.specs.Tree.{Forest};
ghost use Rattle.box_data.specs.BoxTree as boxes;
ghost use Rattle.box_maker.specs.Standing.{Stands};
ghost use Rattle.box_maker.specs.Parts.{shown_first};

use crate::reading::is_shown_at;
use crate::source::{Source, after, is_element};
use html_grammar::NodeId;
use mc_base::{List, NoMemory};

/// Adds node k, whose nodes end before `end`, and those in it, as far as they are shown elements.
#[cycle(shown)]
fn push_node(source: &Source, shown: &mut List<NodeId>, k: u32, end: u32) -> Result<(), NoMemory>
    requires { k < end }
    ensures { (parent : Option ℕ) (last : ℕ) (forest : Forest) →
        Stands source.now.nodes.now source.now.ends.now parent k last forest →
        k < last → slice_get source.now.ends.now k ≡ Some end →
        OnOk result (shown.new ≡ shown.old ++ shown_first source.now.styles.now k forest) }
{
    if is_element(source, k) && is_shown_at(source.styles, k) {
        shown.push(k)?;
        push_shown(source, shown, k + 1, end)?;
    }
    Ok(())
}

/// Adds the shown elements from node k up to `end`, of nodes side by side with those in them.
#[cycle(shown)]
pub fn push_shown(
    source: &Source,
    shown: &mut List<NodeId>,
    k: u32,
    end: u32,
) -> Result<(), NoMemory>
    ensures { (parent : Option ℕ) (forest : Forest) →
        Stands source.now.nodes.now source.now.ends.now parent k end forest →
        OnOk result (shown.new ≡ shown.old ++ boxes.shown_from source.now.styles.now k forest) }
{
    let mut at = k;
    while at < end {
        let next = after(source, at, end);
        push_node(source, shown, at, next)?;
        at = next;
    }
    Ok(())
}

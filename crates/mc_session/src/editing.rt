//! An edit of a document that stays well formed.

ghost use Rattle.std.specs.Prelude.{◌≡◌, None, OnOk, OnErr};
ghost use Rattle.html_grammar.specs.Tree.{Forest, nodes_from};
ghost use Rattle.html_subset.specs.WellFormed.{IsWellFormed};
ghost use Rattle.css_cascade.specs.Attributes.{AllAreRead};
ghost use Rattle.dom_edits.specs.Done.{Answers};
ghost use Rattle.dom_edits.specs.Sizes.{GrowsBy};
ghost use Rattle.mc_session.specs.Edits.{StaysFormed};

use dom_edits::apply_edit;
use edit_script::{Edit, EditFault};
use html_grammar::Dom;
use std::alloc::Global;

/// Does an edit whose document stays well formed, and keeps its style attributes.
pub fn edit_document(alloc: Global, dom: &mut Dom, edit: &Edit) -> Result<(), EditFault>
    requires formed { IsWellFormed dom.old }
    requires read { AllAreRead dom.old.nodes }
    requires stays { StaysFormed edit.now dom.old }
    ensures done { (tree : Forest) → dom.old.nodes ≡ nodes_from None 0 tree → Answers edit.now tree dom.new.nodes result }
    ensures same { OnErr result (dom.new ≡ dom.old) }
    ensures construct { dom.new.construct ≡ dom.old.construct }
    ensures grows { OnOk result (GrowsBy edit.now dom.old.nodes dom.new.nodes) }
    ensures formed { IsWellFormed dom.new }
    ensures read { AllAreRead dom.new.nodes }
{
    match apply_edit(alloc, dom, edit) {
        Ok(()) => Ok(()),
        Err(fault) => Err(fault),
    }
}

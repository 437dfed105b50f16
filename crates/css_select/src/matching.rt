//! Whether a selector matches an element.

ghost use Rattle.std.specs.Prelude.{◌↔◌, IsTrue};
ghost use Rattle.html_subset.specs.WellFormed.{IsWellFormed};
ghost use Rattle.css_select.specs.Matching.{Matches};
ghost use Rattle.css_select.specs.Places.{IsElementAt};

use crate::places::is_element;
use crate::walk::matches_up_to;
use css_data::Selector;
use html_grammar::{Dom, NodeId};

/// Whether a node of a document is an element.
pub fn is_element_at(dom: &Dom, node: NodeId) -> bool
    ensures { IsTrue result ↔ IsElementAt dom.now node }
{
    match dom.nodes.as_slice().get(node as usize) {
        Some(node) => is_element(node),
        None => false,
    }
}

/// Whether a selector matches an element of a document (Selectors 3, sections 6 and 8).
///
/// Types and names of attributes are compared without ASCII case, values with it. Texts between elements part no siblings.
/// A selector whose joins aren't one less than its compounds matches nothing. It takes no memory, and doesn't go back over
/// what it has passed but for a sign `~` or a descendant's white space.
pub fn matches(selector: &Selector, dom: &Dom, node: NodeId) -> bool
    requires formed { IsWellFormed dom.now }
    requires element { IsElementAt dom.now node }
    ensures { IsTrue result ↔ Matches selector.now dom.now node }
{
    let count = selector.compounds.len();
    if count == 0 || selector.joins.len() != count - 1 {
        return false;
    }
    matches_up_to(selector, dom, count - 1, node as usize)
}

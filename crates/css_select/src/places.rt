//! Where the elements of a document stand to one another.

ghost use Rattle.std.specs.Prelude.{◌≡◌, ◌<◌, ◌≤◌, ◌↔◌, ℕ, count_by, length, take, IsTrue, MatchOption};
ghost use Rattle.html_grammar.specs.Whole as whole;
ghost use Rattle.css_select.specs.Places as places;
ghost use Rattle.css_select.specs.Places.{ElementsEnd, IsEarlierSibling, IsPreviousSibling, ParentsAreEarlier};

use html_grammar::{Dom, DomNode, NodeKind};

/// The number of the element that a node stands in.
pub fn parent_of(dom: &Dom, node: usize) -> Option<usize>
    requires { node < length dom.now.nodes }
    ensures { result ≡ places.parent_at dom.now node }
{
    match dom.nodes.as_slice()[node].parent {
        Some(parent) => Some(parent as usize),
        None => None,
    }
}

pub fn is_element(node: &DomNode) -> bool
    ensures { result ≡ whole.is_element node.now }
{
    matches!(
        &node.kind,
        NodeKind::Element {
            name: _,
            attributes: _,
        }
    )
}

fn same_parent(own: Option<u32>, parent: Option<usize>) -> bool
    ensures { result ≡ places.same_parent own parent }
{
    match (own, parent) {
        (None, None) => true,
        (Some(own), Some(parent)) => own as usize == parent,
        _ => false,
    }
}

/// Whether a node is an element with this parent.
fn stands_in(node: &DomNode, parent: Option<usize>) -> bool
    ensures { result ≡ places.stands_in parent node.now }
{
    is_element(node) && same_parent(node.parent, parent)
}

/// A number below which no node stands in the parent of this one.
fn first_place(dom: &Dom, node: usize) -> usize
    requires node_in_range { node < length dom.now.nodes }
    requires parents { ParentsAreEarlier dom.now }
    ensures within { result ≤ node }
    ensures none { (k : ℕ) → k < result → IsEarlierSibling dom.now k node → ⊥ }
    ensures count { count_by (places.stands_in (places.parent_at dom.now node)) (take result dom.now.nodes) ≡ 0 }
{
    match parent_of(dom, node) {
        Some(parent) => parent + 1,
        None => 0,
    }
}

/// The element right before this one among those with its parent.
pub fn previous_sibling(dom: &Dom, node: usize) -> Option<usize>
    requires node_in_range { node < length dom.now.nodes }
    requires parents { ParentsAreEarlier dom.now }
    ensures { MatchOption result ((m : ℕ) → IsEarlierSibling dom.now m node → ⊥) (λ m. IsPreviousSibling dom.now m node) }
{
    let parent = parent_of(dom, node);
    let low = first_place(dom, node);
    let mut place = node;
    while low < place {
        place -= 1;
        if stands_in(&dom.nodes.as_slice()[place], parent) {
            return Some(place);
        }
    }
    None
}

/// How many elements stand before this node with its parent.
pub fn siblings_before(dom: &Dom, node: usize) -> usize
    requires node_in_range { node < length dom.now.nodes }
    requires parents { ParentsAreEarlier dom.now }
    ensures { result ≡ places.siblings_before dom.now node }
{
    let parent = parent_of(dom, node);
    let mut count = 0;
    for place in first_place(dom, node)..node {
        if stands_in(&dom.nodes.as_slice()[place], parent) {
            count += 1;
        }
    }
    count
}

/// Whether no element stands before this node with its parent.
pub fn is_first_child(dom: &Dom, node: usize) -> bool
    requires node_in_range { node < length dom.now.nodes }
    requires parents { ParentsAreEarlier dom.now }
    ensures { IsTrue result ↔ (places.siblings_before dom.now node ≡ 0) }
{
    let parent = parent_of(dom, node);
    for place in first_place(dom, node)..node {
        if stands_in(&dom.nodes.as_slice()[place], parent) {
            return false;
        }
    }
    true
}

/// Whether a node with this parent stands outside of an element after that parent.
fn is_outside(own: Option<u32>, element: Option<usize>) -> bool
    ensures { result ≡ places.is_outside own element }
{
    match (own, element) {
        (Some(own), Some(element)) => (own as usize) < element,
        (None, Some(_)) => true,
        (_, None) => false,
    }
}

/// Whether no element stands after this node with its parent. It looks no further than to the first node after its parent.
pub fn is_last_child(dom: &Dom, node: usize) -> bool
    requires node_in_range { node < length dom.now.nodes }
    requires parents { ParentsAreEarlier dom.now }
    requires ends { ElementsEnd dom.now }
    ensures { IsTrue result ↔ (places.siblings_after dom.now node ≡ 0) }
{
    let parent = parent_of(dom, node);
    for other in &dom.nodes.as_slice()[node + 1..] {
        if stands_in(other, parent) {
            return false;
        }
        if is_outside(other.parent, parent) {
            return true;
        }
    }
    true
}

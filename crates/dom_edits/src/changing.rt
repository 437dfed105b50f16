//! An edit of a document.

ghost use Rattle.std.specs.Prelude.{◌≡◌, [], ◌∷◌, ◌+◌, ◌-◌, ◌<◌, ◌≤◌, ◌^◌, All, length, None, Some, slice_get, IfSome, OnOk};
ghost use Rattle.std.specs.Prelude.{OnErr};
ghost use Rattle.std.specs.List.{position};
ghost use Rattle.html_grammar.specs.Tree.{Forest, nodes_from};
ghost use Rattle.html_subset.specs.WellFormed.{IsWellFormed};
ghost use Rattle.edit_script.specs.Edited as edited;
ghost use Rattle.dom_edits.specs.Done.{Answers};
ghost use Rattle.dom_edits.specs.Nodes as nodes_specs;
ghost use Rattle.dom_edits.specs.Sizes.{GrowsBy, HasRoom};
ghost use Rattle.dom_edits.specs.Nodes.{ParentIsBelow};

use crate::finding::{Place, place_in};
use crate::names::same;
use crate::numbers::{cut, renumber};
use edit_script::{Edit, EditFault};
use html_grammar::{Attribute, Dom, DomNode, NodeKind};
use mc_base::{List, NoMemory, Text};
use std::alloc::Global;
use std::mem;

/// The place of the attribute `class`.
fn class_place(attributes: &[Attribute]) -> Option<usize>
    ensures first { result ≡ position nodes_specs.is_class attributes.now }
    ensures known { IfSome result (λ i. i < length attributes.now) }
{
    attributes
        .iter()
        .position(|attribute| same(attribute.name.as_slice(), b"class"))
}

/// Gives an element this `class`. When out of memory, its attributes are as before.
fn put_class(
    alloc: Global,
    attributes: &mut Vec<Attribute>,
    at: u64,
    value: Text,
) -> Result<(), NoMemory>
    ensures ok { OnOk result (attributes.new.items ≡ edited.with_class at value attributes.old.items) }
    ensures err { OnErr result (attributes.new.items ≡ attributes.old.items) }
{
    match class_place(attributes) {
        Some(place) => {
            attributes[place].value = value;
            Ok(())
        }
        None => {
            let name = Text::of(Vec::from_slice(alloc, b"class")?);
            attributes.push(Attribute {
                name,
                value,
                offset: at,
            })?;
            Ok(())
        }
    }
}

/// Gives the attributes of an element this `class`. When out of memory, they are as before.
fn classed(
    alloc: Global,
    attributes: &mut List<Attribute>,
    at: u64,
    value: Text,
) -> Result<(), NoMemory>
    ensures ok { OnOk result (attributes.new ≡ edited.with_class at value attributes.old) }
    ensures err { OnErr result (attributes.new ≡ attributes.old) }
{
    let mut all = mem::replace(attributes, List::new(alloc)).into_vec();
    let done = put_class(alloc, &mut all, at, value);
    *attributes = List::of(all);
    done
}

/// Gives a node this `class`, if it is an element. When out of memory, it is as before.
fn node_classed(alloc: Global, node: &mut DomNode, value: Text) -> Result<(), NoMemory>
    ensures ok { OnOk result (node.new ≡ nodes_specs.node_with_class value node.old) }
    ensures err { OnErr result (node.new ≡ node.old) }
{
    let at = node.offset;
    match &mut node.kind {
        NodeKind::Element {
            name: _,
            attributes,
        } => classed(alloc, attributes, at, value),
        NodeKind::Words { text: _ } => Ok(()),
    }
}

/// Gives the node of this number this `class`. When out of memory, the nodes are as before.
fn change_class(
    alloc: Global,
    nodes: &mut Vec<DomNode>,
    start: usize,
    value: &[u8],
) -> Result<(), NoMemory>
    requires { start < length nodes.old.items }
    ensures ok { OnOk result (nodes.new.items ≡ nodes_specs.classed_at start value.now nodes.old.items) }
    ensures err { OnErr result (nodes.new.items ≡ nodes.old.items) }
{
    let value = Text::of(Vec::from_slice(alloc, value)?);
    node_classed(alloc, &mut nodes[start], value)
}

/// Takes out the nodes from one number up to another.
fn take_out(nodes: &mut Vec<DomNode>, start: usize, end: usize)
    requires order { start ≤ end }
    requires inside { end ≤ length nodes.old.items }
    requires small { All (λ node. ParentIsBelow (2 ^ 32 - 1) node.parent) nodes.old.items }
    ensures { nodes.new.items ≡ nodes_specs.replaced start end [] nodes.old.items }
{
    cut(nodes, start, end);
    renumber(nodes, end, start);
}

/// Puts a text in place of what stands in an element. When out of memory, the nodes are as before.
fn put_text(nodes: &mut Vec<DomNode>, place: Place, text: DomNode) -> Result<(), NoMemory>
    requires order { place.start < place.end }
    requires inside { place.end ≤ length nodes.old.items }
    requires short { length nodes.old.items < 2 ^ 31 }
    requires small { All (λ node. ParentIsBelow (2 ^ 32 - 1) node.parent) nodes.old.items }
    requires small_text { ParentIsBelow (2 ^ 32 - 1) text.parent }
    ensures ok { OnOk result (nodes.new.items ≡ nodes_specs.replaced (place.start + 1) place.end (text ∷ []) nodes.old.items) }
    ensures err { OnErr result (nodes.new.items ≡ nodes.old.items) }
{
    let Place { start, end } = place;
    nodes.insert(start + 1, text)?;
    cut(nodes, start + 2, end + 1);
    renumber(nodes, end, start + 2);
    Ok(())
}

/// Puts a text in place of what stands in an element, or nothing where it is empty. When out of memory, the nodes are as before.
fn change_words(
    alloc: Global,
    nodes: &mut Vec<DomNode>,
    place: Place,
    rest: &[u8],
) -> Result<(), NoMemory>
    requires order { place.start < place.end }
    requires inside { place.end ≤ length nodes.old.items }
    requires short { length nodes.old.items < 2 ^ 31 }
    requires small { All (λ node. ParentIsBelow (2 ^ 32 - 1) node.parent) nodes.old.items }
    ensures ok { OnOk result (nodes.new.items ≡ nodes_specs.replaced (place.start + 1) place.end
        (nodes_specs.words_at place.start (nodes_specs.offset_in
        (slice_get nodes.old.items place.start)) rest.now) nodes.old.items) }
    ensures err { OnErr result (nodes.new.items ≡ nodes.old.items) }
{
    if rest.is_empty() {
        take_out(nodes, place.start + 1, place.end);
        return Ok(());
    }
    let text = Text::of(Vec::from_slice(alloc, rest)?);
    let node = DomNode {
        parent: Some(place.start as u32),
        offset: nodes[place.start].offset,
        kind: NodeKind::Words { text },
    };
    put_text(nodes, place, node)
}

/// Does an edit at its place. When out of memory, the nodes are as before.
fn change(
    alloc: Global,
    nodes: &mut Vec<DomNode>,
    place: Place,
    edit: &Edit,
) -> Result<(), NoMemory>
    requires order { place.start < place.end }
    requires inside { place.end ≤ length nodes.old.items }
    requires short { length nodes.old.items < 2 ^ 31 }
    requires small { All (λ node. ParentIsBelow (2 ^ 32 - 1) node.parent) nodes.old.items }
    ensures ok { OnOk result (nodes.new.items ≡ nodes_specs.changed_nodes edit.now place.start place.end nodes.old.items) }
    ensures err { OnErr result (nodes.new.items ≡ nodes.old.items) }
{
    match edit {
        Edit::Words { id: _, rest } => change_words(alloc, nodes, place, rest.as_slice()),
        Edit::Class { id: _, rest } => change_class(alloc, nodes, place.start, rest.as_slice()),
        Edit::Remove { id: _ } => {
            take_out(nodes, place.start, place.end);
            Ok(())
        }
    }
}

/// Does an edit on a list of nodes at its place. When out of memory, the list is as before.
fn change_list(
    alloc: Global,
    list: &mut List<DomNode>,
    place: Place,
    edit: &Edit,
) -> Result<(), NoMemory>
    requires order { place.start < place.end }
    requires inside { place.end ≤ length list.old }
    requires short { length list.old < 2 ^ 31 }
    requires small { All (λ node. ParentIsBelow (2 ^ 32 - 1) node.parent) list.old }
    ensures ok { OnOk result (list.new ≡ nodes_specs.changed_nodes edit.now place.start place.end list.old) }
    ensures err { OnErr result (list.new ≡ list.old) }
{
    let mut nodes = mem::replace(list, List::new(alloc)).into_vec();
    let done = change(alloc, &mut nodes, place, edit);
    *list = List::of(nodes);
    done
}

/// Does an edit on a document: what `edited` says of its tree, or its fault.
///
/// The document is well formed, as `html_subset::parse` answers it. `NoElement` comes exactly where no element has the id, and
/// `NotAllowed` exactly where the first that has it, in document order, may not be edited so. The document is unchanged by every
/// fault. `NoMemory` is out of memory.
pub fn apply_edit(alloc: Global, dom: &mut Dom, edit: &Edit) -> Result<(), EditFault>
    requires formed { IsWellFormed dom.old }
    // What is left are the nodes of the tree after the edit, or the fault is that of the definition.
    ensures done { (tree : Forest) → dom.old.nodes ≡ nodes_from None 0 tree → Answers edit.now tree dom.new.nodes result }
    // A fault leaves the document as it was.
    ensures same { OnErr result (dom.new ≡ dom.old) }
    // What was read in the document and isn't laid out stays what it was.
    ensures construct { dom.new.construct ≡ dom.old.construct }
    // An edit that is done adds at most one node, and no more bytes than its own.
    ensures grows { OnOk result (GrowsBy edit.now dom.old.nodes dom.new.nodes) }
    // Where there is room for it, the document is well formed again.
    ensures formed { OnOk result (HasRoom edit.now dom.old → IsWellFormed dom.new) }
{
    let place = match place_in(edit, dom.nodes.as_slice()) {
        Ok(place) => place,
        Err(fault) => return Err(fault),
    };
    match change_list(alloc, &mut dom.nodes, place, edit) {
        Ok(()) => Ok(()),
        Err(NoMemory) => Err(EditFault::NoMemory),
    }
}

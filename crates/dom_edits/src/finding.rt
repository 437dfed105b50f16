//! The element that an edit names, and what stands in it.

ghost use Rattle.std.specs.Prelude.{◌≡◌, ◌+◌, ◌<◌, ◌≤◌, length, IfSome, IfOk};
ghost use Rattle.std.specs.List.{list_any, position};
ghost use Rattle.edit_script.specs.Edited as edited;
ghost use Rattle.edit_script.specs.Spelling.{id_of as id_of_spec};
ghost use Rattle.dom_edits.specs.Nodes as nodes_specs;

use crate::names::{is_void, same};
use edit_script::{Edit, EditFault};
use html_grammar::{Attribute, DomNode, NodeKind};

/// An element, by its number, and the number of the node after all that is in it.
#[derive(Clone, Copy)]
pub struct Place {
    pub start: usize,
    pub end: usize,
}

fn is_id_of(id: &[u8], attribute: &Attribute) -> bool
    ensures { result ≡ edited.is_id_of id.now attribute.now }
{
    same(attribute.name.as_slice(), b"id") && same(attribute.value.as_slice(), id)
}

fn has_id(id: &[u8], attributes: &[Attribute]) -> bool
    ensures { result ≡ edited.has_id id.now attributes.now }
{
    attributes.iter().any(|attribute| is_id_of(id, attribute))
}

fn node_has_id(id: &[u8], node: &DomNode) -> bool
    ensures { result ≡ nodes_specs.node_has_id id.now node.now }
{
    match &node.kind {
        NodeKind::Element {
            name: _,
            attributes,
        } => has_id(id, attributes.as_slice()),
        NodeKind::Words { text: _ } => false,
    }
}

/// The number of the first element that has the id.
fn first_with(id: &[u8], nodes: &[DomNode]) -> Option<usize>
    ensures first { result ≡ position (nodes_specs.node_has_id id.now) nodes.now }
    ensures known { IfSome result (λ i. i < length nodes.now) }
{
    nodes.iter().position(|node| node_has_id(id, node))
}

fn stands_from(start: usize, parent: Option<u32>) -> bool
    ensures { result ≡ nodes_specs.stands_from start parent }
{
    match parent {
        Some(parent) => start <= parent as usize,
        None => false,
    }
}

/// How many of these nodes, which are those after an element, stand in it.
fn inside_len(start: usize, nodes: &[DomNode]) -> usize
    ensures value { result ≡ nodes_specs.inside_len start nodes.now }
    ensures bound { result ≤ length nodes.now }
{
    for (i, node) in nodes.iter().enumerate() {
        if !stands_from(start, node.parent) {
            return i;
        }
    }
    nodes.len()
}

fn is_style(node: &DomNode) -> bool
    ensures { result ≡ nodes_specs.node_is_style node.now }
{
    match &node.kind {
        NodeKind::Element {
            name,
            attributes: _,
        } => same(name.as_slice(), b"style"),
        NodeKind::Words { text: _ } => false,
    }
}

/// Whether one of these nodes is a style element.
fn has_style(nodes: &[DomNode]) -> bool
    ensures { result ≡ list_any nodes_specs.node_is_style nodes.now }
{
    nodes.iter().any(|node| is_style(node))
}

/// Whether an edit may be done at an element of this name, which is or holds a style element or not.
fn allowed_at(edit: &Edit, name: &[u8], styled: bool) -> bool
    ensures { result ≡ edited.allowed_at edit.now name.now styled }
{
    match edit {
        Edit::Words { id: _, rest: _ } => {
            !(same(name, b"html") || same(name, b"head") || is_void(name) || styled)
        }
        Edit::Class { id: _, rest: _ } => true,
        Edit::Remove { id: _ } => {
            !(same(name, b"html") || same(name, b"head") || same(name, b"body") || styled)
        }
    }
}

/// The name of an element.
fn name_of(node: &DomNode) -> &[u8]
    ensures { result.now ≡ nodes_specs.kind_name node.now.kind }
{
    match &node.kind {
        NodeKind::Element {
            name,
            attributes: _,
        } => name.as_slice(),
        NodeKind::Words { text: _ } => b"",
    }
}

fn id_of(edit: &Edit) -> &[u8]
    ensures { result.now ≡ id_of_spec edit.now }
{
    match edit {
        Edit::Words { id, rest: _ } => id.as_slice(),
        Edit::Class { id, rest: _ } => id.as_slice(),
        Edit::Remove { id } => id.as_slice(),
    }
}

/// The number of the node after all that is in an element.
fn end_from(nodes: &[DomNode], start: usize) -> usize
    requires { start < length nodes.now }
    ensures value { result ≡ nodes_specs.end_from nodes.now start }
    ensures above { start < result }
    ensures bound { result ≤ length nodes.now }
{
    let behind = &nodes[start + 1..];
    start + 1 + inside_len(start, behind)
}

/// Whether an edit may be done at the element of this number, which ends there.
fn allowed_in(edit: &Edit, nodes: &[DomNode], start: usize, end: usize) -> bool
    requires order { start < end }
    requires inside { end ≤ length nodes.now }
    ensures { result ≡ nodes_specs.allowed_in edit.now nodes.now start end }
{
    let styled = has_style(&nodes[start..end]);
    allowed_at(edit, name_of(&nodes[start]), styled)
}

/// Where an edit is done: at the first element in document order that has its id, or nowhere, or it isn't allowed there.
pub fn place_in(edit: &Edit, nodes: &[DomNode]) -> Result<Place, EditFault>
    ensures value { result ≡ (nodes_specs.place_in edit.now nodes.now) }
    ensures bound { IfOk result (λ place. (place.start < place.end) × (place.end ≤ length nodes.now)) }
{
    let Some(start) = first_with(id_of(edit), nodes) else {
        return Err(EditFault::NoElement);
    };
    let end = end_from(nodes, start);
    if allowed_in(edit, nodes, start, end) {
        Ok(Place { start, end })
    } else {
        Err(EditFault::NotAllowed)
    }
}

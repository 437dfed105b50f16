//! Tests: documents and edits, with the nodes that they leave.

ghost use Rattle.html_subset.specs.WellFormed.{IsWellFormed};

use crate::apply_edit;
use edit_script::{Edit, EditFault};
use html_grammar::{Attribute, Dom, NodeKind};
use html_subset::parse;
use mc_base::{Refusal, Text};
use std::alloc::Global;
use std::test::Fail;

const DOCUMENT: &[u8] =
    b"<style>p{margin:0}</style><div id=a><p id=x>one<b id=y>two</b></p><p id=x>three</p></div><p id=z>end";

const OUTER: &[u8] = b"<html id=h><head id=d><style id=s>p{}</style><body id=b><hr id=r><p id=p>";

/// A node of a document as the number of its parent, or 99, and how many bytes its text or name has.
type Shape = (u32, usize);

fn shape(alloc: Global, dom: &Dom) -> Result<Vec<Shape>, Refusal> {
    let mut shapes = Vec::new(alloc);
    for node in dom.nodes.as_slice() {
        let parent = node.parent.unwrap_or(99);
        let size = match &node.kind {
            NodeKind::Element {
                name,
                attributes: _,
            } => name.len(),
            NodeKind::Words { text } => text.len(),
        };
        shapes.push((parent, size))?;
    }
    Ok(shapes)
}

fn text(alloc: Global, bytes: &[u8]) -> Result<Text, Refusal> {
    Ok(Text::of(Vec::from_slice(alloc, bytes)?))
}

fn words(alloc: Global, id: &[u8], rest: &[u8]) -> Result<Edit, Refusal> {
    let id = text(alloc, id)?;
    let rest = text(alloc, rest)?;
    Ok(Edit::Words { id, rest })
}

fn class(alloc: Global, id: &[u8], rest: &[u8]) -> Result<Edit, Refusal> {
    let id = text(alloc, id)?;
    let rest = text(alloc, rest)?;
    Ok(Edit::Class { id, rest })
}

fn removal(alloc: Global, id: &[u8]) -> Result<Edit, Refusal> {
    let id = text(alloc, id)?;
    Ok(Edit::Remove { id })
}

fn fault_of(alloc: Global, dom: &mut Dom, edit: &Edit) -> Option<EditFault>
    requires { IsWellFormed dom.old }
{
    match apply_edit(alloc, dom, edit) {
        Ok(()) => None,
        Err(fault) => Some(fault),
    }
}

/// The nodes that an edit of the document leaves, or its fault.
fn left(alloc: Global, edit: &Edit) -> Result<(Vec<Shape>, Option<EditFault>), Refusal> {
    let mut dom = parse(alloc, DOCUMENT)?;
    let fault = fault_of(alloc, &mut dom, edit);
    Ok((shape(alloc, &dom)?, fault))
}

/// The nodes of the document: html, head, style and its text; body; the division, a paragraph, its text, b and its text, another
/// paragraph and its text; and the last paragraph with its text.
const WHOLE: [Shape; 14] = [
    (99, 4),
    (0, 4),
    (1, 5),
    (2, 11),
    (0, 4),
    (4, 3),
    (5, 1),
    (6, 3),
    (6, 1),
    (8, 3),
    (5, 1),
    (10, 5),
    (4, 1),
    (12, 3),
];

#[test]
fn a_text_takes_the_place_of_what_is_in_the_first_element(rt: HostRuntime) -> Result<(), Fail> {
    let alloc = rt.alloc();
    let (shapes, fault) = left(alloc, &words(alloc, b"x", b"aaaa bbbb")?)?;
    assert_eq!(rt; fault, None);
    let want = [
        (99, 4),
        (0, 4),
        (1, 5),
        (2, 11),
        (0, 4),
        (4, 3),
        (5, 1),
        (6, 9),
        (5, 1),
        (8, 5),
        (4, 1),
        (10, 3),
    ];
    assert_eq!(rt; shapes.as_slice(), want.as_slice());
    Ok(())
}

#[test]
fn an_element_is_emptied(rt: HostRuntime) -> Result<(), Fail> {
    let alloc = rt.alloc();
    let (shapes, fault) = left(alloc, &words(alloc, b"a", b"")?)?;
    assert_eq!(rt; fault, None);
    let want = [
        (99, 4),
        (0, 4),
        (1, 5),
        (2, 11),
        (0, 4),
        (4, 3),
        (4, 1),
        (6, 3),
    ];
    assert_eq!(rt; shapes.as_slice(), want.as_slice());
    Ok(())
}

#[test]
fn an_element_is_taken_out(rt: HostRuntime) -> Result<(), Fail> {
    let alloc = rt.alloc();
    let (shapes, fault) = left(alloc, &removal(alloc, b"y")?)?;
    assert_eq!(rt; fault, None);
    let want = [
        (99, 4),
        (0, 4),
        (1, 5),
        (2, 11),
        (0, 4),
        (4, 3),
        (5, 1),
        (6, 3),
        (5, 1),
        (8, 5),
        (4, 1),
        (10, 3),
    ];
    assert_eq!(rt; shapes.as_slice(), want.as_slice());
    Ok(())
}

#[test]
fn faults_leave_the_document(rt: HostRuntime) -> Result<(), Fail> {
    let alloc = rt.alloc();
    let (shapes, fault) = left(alloc, &removal(alloc, b"w")?)?;
    assert_eq!(rt; fault, Some(EditFault::NoElement));
    assert_eq!(rt; shapes.as_slice(), WHOLE.as_slice());
    for (edit, want) in [
        (removal(alloc, b"h")?, Some(EditFault::NotAllowed)),
        (removal(alloc, b"d")?, Some(EditFault::NotAllowed)),
        (removal(alloc, b"s")?, Some(EditFault::NotAllowed)),
        (removal(alloc, b"b")?, Some(EditFault::NotAllowed)),
        (words(alloc, b"h", b"x")?, Some(EditFault::NotAllowed)),
        (words(alloc, b"d", b"x")?, Some(EditFault::NotAllowed)),
        (words(alloc, b"s", b"x")?, Some(EditFault::NotAllowed)),
        (words(alloc, b"r", b"x")?, Some(EditFault::NotAllowed)),
    ] {
        let mut dom = parse(alloc, OUTER)?;
        assert_eq!(rt; fault_of(alloc, &mut dom, &edit), want);
    }
    Ok(())
}

fn value_at(attributes: &[Attribute], place: usize) -> &[u8] {
    match attributes.get(place) {
        Some(attribute) => attribute.value.as_slice(),
        None => b"",
    }
}

#[test]
fn a_class_is_put_in_its_place_or_last(rt: HostRuntime) -> Result<(), Fail> {
    let alloc = rt.alloc();
    for document in [b"<p id=x class=a>".as_slice(), b"<p id=x>"] {
        let mut dom = parse(alloc, document)?;
        assert_eq!(rt;
            fault_of(alloc, &mut dom, &class(alloc, b"x", b"c d")?),
            None
        );
        let nodes = dom.nodes.as_slice();
        assert_eq!(rt; nodes.len(), 4);
        match &nodes[3].kind {
            NodeKind::Element {
                name: _,
                attributes,
            } => assert_eq!(rt; value_at(attributes.as_slice(), 1), b"c d".as_slice()),
            NodeKind::Words { text: _ } => assert!(rt; false),
        }
    }
    Ok(())
}

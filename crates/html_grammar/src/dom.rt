use mc_base::{Found, List, Text};

/// The number of a node in its `Dom`, from 0.
pub type NodeId = u32;

/// A document: its nodes in preorder, and the first element or reference in it that isn't laid out.
#[derive(Drop)]
pub struct Dom {
    pub nodes: List<DomNode>,
    pub construct: Option<Found>,
}

/// A node: the number of the element that it stands in, and the byte of the input at which it begins.
#[derive(Drop)]
pub struct DomNode {
    pub parent: Option<u32>,
    pub offset: u64,
    pub kind: NodeKind,
}

/// An element, with its name in lower case, or a run of text.
#[derive(Drop)]
pub enum NodeKind {
    Element {
        name: Text,
        attributes: List<Attribute>,
    },
    Words {
        text: Text,
    },
}

/// An attribute, with its name in lower case.
///
/// `offset` is the byte of the value's first place, after an opening quote, or of the name where there is no value.
#[derive(Drop)]
pub struct Attribute {
    pub name: Text,
    pub value: Text,
    pub offset: u64,
}

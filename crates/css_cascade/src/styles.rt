//! The styles of a document.

ghost use Rattle.std.specs.Prelude.{◌≡◌, Some, IsSome};
ghost use Rattle.std.specs.Option.{option_map, option_copied};
ghost use Rattle.css_cascade.specs.Entries as entries;

use css_computed::Style;
use html_grammar::NodeId;
use mc_base::{ConstructName, List};
use std::marker::Model;

/// The style of an element, and the first construct at it that isn't laid out.
#[derive(Drop)]
pub struct NodeStyle {
    pub style: Style,
    pub refused: Option<ConstructName>,
}

/// The styles of a document's elements. Contracts see a list with one entry, or none, for each node.
#[derive(Drop)]
pub struct Styles {
    nodes: List<Option<NodeStyle>>,
}

impl Model for Styles {
    ghost use Rattle.std.specs.Prelude.{List as Items, Option};
    ghost use Rattle.css_cascade.specs.declared.styles.NodeStyle.{NodeStyle as Entry};

    ghost Value = { Items (Option Entry) };

    ghost view = { λ s. s.nodes };
}

/// The entry of a node.
pub fn entry_at(nodes: &[Option<NodeStyle>], node: usize) -> Option<&NodeStyle>
    ensures { option_copied result ≡ entries.entry_at nodes.now node }
{
    match nodes.get(node) {
        Some(Some(entry)) => Some(entry),
        _ => None,
    }
}

impl Styles {
    /// These styles. It takes no memory.
    pub fn seal(nodes: List<Option<NodeStyle>>) -> Styles
        ensures { result ≡ nodes }
    {
        Styles { nodes }
    }

    /// The entries of all nodes, in order. It takes no memory.
    pub fn entries(&self) -> &[Option<NodeStyle>]
        ensures { result.now ≡ self.now }
    {
        self.nodes.as_slice()
    }

    /// The style of an element. It takes no memory.
    pub fn of(&self, node: NodeId) -> &Style
        requires { IsSome (entries.entry_at self.now node) }
        ensures { entries.style_at self.now node ≡ Some result.now }
    {
        let entry = entry_at(self.nodes.as_slice(), node as usize).unwrap();
        &entry.style
    }

    /// The first construct at an element that isn't laid out: of the properties whose winning declaration is refused the first in
    /// the order of the tables. It takes no memory.
    pub fn refused(&self, node: NodeId) -> Option<ConstructName>
        requires { IsSome (entries.entry_at self.now node) }
        ensures { result ≡ entries.refused_at self.now node }
    {
        entry_at(self.nodes.as_slice(), node as usize)?.refused
    }
}

//! The nodes of a document with what is known of each.

ghost use Rattle.std.specs.Prelude.{◌≡◌, ◌<◌, ◌≤◌, ℕ, slice_get, Some};
ghost use Rattle.std.specs.Option.{option_copied};
ghost use Rattle.html_grammar.specs.NodeOrder.{is_element_at};
ghost use Rattle.box_maker.specs.Standing as standing;

use crate::reading::is_block_at;
use box_data::BoxStyle;
use html_grammar::{DomNode, NodeKind};
use inline_text::RunStyle;

/// The nodes of a document, the style of each and what that says of text, and for each the number after the nodes in it.
#[derive(Clone, Copy)]
pub struct Source<'a> {
    pub nodes: &'a [DomNode],
    pub styles: &'a [BoxStyle],
    pub texts: &'a [RunStyle],
    pub ends: &'a [u32],
}

pub fn node_at<'a>(source: &Source<'a>, k: u32) -> Option<&'a DomNode>
    ensures { option_copied result ≡ slice_get source.now.nodes.now k }
{
    source.nodes.get(k as usize)
}

/// The number after node k and those in it, of nodes that end before `end`.
pub fn after(source: &Source, k: u32, end: u32) -> u32
    requires { k < end }
    ensures bounds { (k < result) × (result ≤ end) }
    ensures exact { (next : ℕ) → slice_get source.now.ends.now k ≡ Some next → k < next → next ≤ end → result ≡ next }
{
    match source.ends.get(k as usize) {
        Some(next) if k < *next && *next <= end => *next,
        _ => end,
    }
}

pub fn is_element(source: &Source, k: u32) -> bool
    ensures { result ≡ is_element_at source.now.nodes.now k }
{
    match node_at(source, k) {
        Some(node) => match &node.kind {
            NodeKind::Element {
                name: _,
                attributes: _,
            } => true,
            NodeKind::Words { text: _ } => false,
        },
        None => false,
    }
}

/// Whether node k is a block-level element.
pub fn starts_block(source: &Source, k: u32) -> bool
    ensures { result ≡ standing.starts_block source.now.nodes.now source.now.styles.now k }
{
    is_element(source, k) && is_block_at(source.styles, k)
}

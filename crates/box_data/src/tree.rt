//! The boxes of a document.

use html_grammar::NodeId;
use inline_text::Runs;
use mc_base::List;

/// What a box is (CSS 2.1, section 9.2): a block, an anonymous block around inline content, a block with columns, or a
/// block-level image.
#[derive(Clone, Copy)]
pub enum BoxKind {
    Block,
    Anonymous,
    Container,
    ImageBlock,
}

/// A box: the number of the box that it stands in, the element whose style it has (that of the box around for an anonymous
/// one), and its inline content after collapsing, where it holds lines or one image.
///
/// In the runs `styles` is empty, and a piece's `style` is the number of the element whose style it has. The size of an image
/// is that of its attributes, in units.
#[derive(Drop)]
pub struct BoxNode {
    pub parent: Option<u32>,
    pub element: NodeId,
    pub kind: BoxKind,
    pub runs: Option<Runs>,
}

/// The boxes of a document in document order, in which they are numbered from 0, and the elements outside subtrees with
/// `display: none`, in document order.
#[derive(Drop)]
pub struct BoxTree {
    pub nodes: List<BoxNode>,
    pub shown: List<NodeId>,
}

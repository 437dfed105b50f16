//! What an index keeps of a tree's lines.

ghost use Rattle.std.specs.Prelude.{◌≡◌};
ghost use Rattle.hit_index.specs.Scan.{is_holder, is_leaf, mark_of};
ghost use Rattle.tree_lines.specs.Lines.{kind_of, line_of};

use mc_base::Rect;
use tree_lines::{TreeKind, TreeLine};

/// What is kept of a line: how deep it stands, whether it is a leaf, whether it is a column or a stack, and its rectangle.
#[derive(Clone, Copy)]
pub struct Mark {
    pub depth: u32,
    pub leaf: bool,
    pub holder: bool,
    pub rect: Rect,
}

/// A leaf: its number among the lines, and its rectangle.
#[derive(Clone, Copy)]
pub struct Leaf {
    pub number: u64,
    pub rect: Rect,
}

/// Whether a line is a leaf: a line of text, a void, an image or an atom.
fn is_leaf(kind: &TreeKind) -> bool
    ensures { result ≡ is_leaf (kind_of kind.now) }
{
    match kind {
        TreeKind::Stack { .. } => false,
        TreeKind::Row { .. } => false,
        TreeKind::Col { .. } => false,
        TreeKind::Piece { .. } => false,
        TreeKind::Line { .. } => true,
        TreeKind::Void { .. } => true,
        TreeKind::Image { .. } => true,
        TreeKind::Atom { .. } => true,
    }
}

/// Whether a line is a column or a stack.
fn is_holder(kind: &TreeKind) -> bool
    ensures { result ≡ is_holder (kind_of kind.now) }
{
    match kind {
        TreeKind::Stack { .. } => true,
        TreeKind::Row { .. } => false,
        TreeKind::Col { .. } => true,
        TreeKind::Piece { .. } => false,
        TreeKind::Line { .. } => false,
        TreeKind::Void { .. } => false,
        TreeKind::Image { .. } => false,
        TreeKind::Atom { .. } => false,
    }
}

/// What is kept of this line.
pub fn mark_of(line: &TreeLine) -> Mark
    ensures { result ≡ mark_of (line_of line.now) }
{
    Mark {
        depth: line.depth,
        leaf: is_leaf(&line.kind),
        holder: is_holder(&line.kind),
        rect: line.rect,
    }
}

//! The plain data of a layout: flows, rows, boxes and stacks, each named by its number.

use mc_base::{Level, List, Units};

/// All flows of a document or a flow file, with the rows, boxes and stacks that they name.
#[derive(Drop)]
pub struct FlowsData {
    pub flows: List<Flow>,
    pub rows: List<RowInfo>,
    pub boxes: List<BoxInfo>,
    pub stacks: List<Stack>,
}

/// A list of items with the seams before, between and after them: there is one seam more than items.
///
/// `opened` are the boxes that are open at the flow's start, the outermost first.
#[derive(Drop)]
pub struct Flow {
    pub opened: List<u32>,
    pub items: List<Item>,
    pub seams: List<Seam>,
}

/// What is laid in a flow: an unbreakable piece with its height in units, or a row of columns by its number.
#[derive(Clone, Copy)]
pub enum Item {
    Atom { height: Units, kind: AtomKind },
    Row(u32),
}

/// What an unbreakable piece is. `x` and `w` are in units, `x` from the left of the flow.
///
/// `Plain` is an atom of a flow file, `Bounded` a multi-column container with a height, whose inside is a stack.
#[derive(Clone, Copy)]
pub enum AtomKind {
    Plain,
    Line {
        owner: u32,
        index: u32,
        x: Units,
        w: Units,
    },
    Void {
        owner: u32,
        x: Units,
        w: Units,
    },
    Image {
        owner: u32,
        x: Units,
        w: Units,
    },
    Bounded {
        owner: u32,
        stack: u32,
        x: Units,
    },
}

/// The place between two items: the edges that close the item before it, then those that open the item after it.
///
/// A column may end between the two, at this level (CSS Fragmentation 3, section 4.1).
#[derive(Drop)]
pub struct Seam {
    pub tail: List<Edge>,
    pub head: List<Edge>,
    pub level: Level,
}

/// An edge of a box: a margin, a border and padding together, the wall of a block formatting context, or where a box
/// starts or ends. Amounts are in units.
#[derive(Clone, Copy)]
pub enum Edge {
    Margin(Units),
    Solid(Units),
    Wall,
    Start(u32),
    End(u32),
}

/// A row of columns (CSS Multi-column 1, section 3): its flow, how many columns are wanted, their width and the
/// distance from one to the next, its place from the left of the flow that it stands in, and whether
/// `column-fill: auto` is in effect.
#[derive(Clone, Copy)]
pub struct RowInfo {
    pub flow: u32,
    pub n: u32,
    pub w: Units,
    pub step: Units,
    pub x: Units,
    pub auto: bool,
}

/// A box: its border box from the left of its flow, whether it avoids a break inside, and the border and padding that
/// it has again above and below at each break (`box-decoration-break: clone`), 0 where it isn't cloned.
#[derive(Clone, Copy)]
pub struct BoxInfo {
    pub x: Units,
    pub w: Units,
    pub avoid: bool,
    pub top: Units,
    pub bottom: Units,
}

/// A flow that is laid outside any columns, in one column without end, of this width.
#[derive(Clone, Copy)]
pub struct Stack {
    pub flow: u32,
    pub w: Units,
    pub bound: Bound,
}

/// The height that rows directly in a stack may use: `Free` any, `Each` this one, and `Left` what is left of the
/// stack's height where the row begins, at least 1px.
#[derive(Clone, Copy)]
pub enum Bound {
    Free,
    Each(Units),
    Left(Units),
}

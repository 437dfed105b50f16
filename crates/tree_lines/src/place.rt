//! Where lines stand.

ghost use Rattle.std.specs.Prelude.{◌≡◌, ◌+◌, ◌-◌, ◌*◌, ◌<◌, ◌^◌, None, Some, [], ◌∷◌, is_some, map, max, option_to_list, IfOk};
ghost use Rattle.flow_data.specs.Soundness.{kind_x};
ghost use Rattle.flow_list.specs.Tree.{box as box_kind, col as col_kind, row as row_kind, row_width};
ghost use Rattle.flow_list.specs.Tree.{stack as stack_kind};
ghost use Rattle.tree_lines.specs.Lines.{line_of};
ghost use Rattle.tree_lines.specs.Standing.{atom_line, bottom_at};

use crate::line::{TreeKind, TreeLine};
use flow_list::{AtomKind, BoxInfo, RowInfo, Stack};
use mc_base::{NoMemory, Rect, Token, Units};

/// Where the next lines of a column or a stack stand: its flow, how deep they stand, its left, top and width; then how high it
/// is, and how far down boxes reach that continue: both less what the boxes around have below again.
#[derive(Clone, Copy)]
pub struct Place {
    pub flow: u32,
    pub depth: u32,
    pub x: Units,
    pub y: Units,
    pub w: Units,
    pub room: Units,
    pub reach: Units,
}

/// Where a piece of a row stands, how wide its columns are and how far apart they begin, and its height.
#[derive(Clone, Copy)]
pub struct RowPlace {
    pub depth: u32,
    pub x: Units,
    pub y: Units,
    pub w: Units,
    pub step: Units,
    pub height: Units,
}

/// One deeper. It answers out of memory where 32 bits have no number for it.
pub fn deeper(depth: u32) -> Result<u32, NoMemory>
    ensures { IfOk result (λ next. next ≡ depth + 1) }
{
    depth.checked_add(1).ok_or(NoMemory)
}

/// The number of a column. It answers out of memory where 32 bits have none.
pub fn column_number(i: usize) -> Result<u32, NoMemory>
    ensures { IfOk result (λ index. index ≡ i) }
{
    match u32::try_from(i) {
        Ok(index) => Ok(index),
        Err(_) => Err(NoMemory),
    }
}

/// The place inside a box that has this below again.
pub fn inside_box(at: Place, bottom: Units) -> Result<Place, NoMemory>
    ensures { IfOk result (λ inside. inside ≡ record at {
      depth = at.depth + 1;
      room = at.room - bottom;
      reach = at.reach - bottom;
    }) }
{
    Ok(Place {
        depth: deeper(at.depth)?,
        room: at.room.saturating_sub(bottom),
        reach: at.reach.saturating_sub(bottom),
        ..at
    })
}

/// The line of a piece of a box.
pub fn box_line(
    at: Place,
    owner: u32,
    info: BoxInfo,
    starts: bool,
    y: Units,
    bottom: Option<Units>,
) -> TreeLine
    requires x { at.x + info.x < 2 ^ 64 }
    requires y { at.y + y < 2 ^ 64 }
    ensures { line_of result ≡ record {
      depth = at.depth;
      kind = box_kind owner starts (is_some bottom);
      x = at.x + info.x;
      y = at.y + y;
      w = info.w;
      h = bottom_at at.reach bottom - y;
    } }
{
    TreeLine {
        depth: at.depth,
        kind: TreeKind::Piece {
            owner,
            starts,
            ends: bottom.is_some(),
        },
        rect: Rect {
            x: at.x + info.x,
            y: at.y + y,
            w: info.w,
            h: bottom.unwrap_or(at.reach).saturating_sub(y),
        },
    }
}

/// The height of a piece of a row at `y`: its own, or what is left below its top, where it is filled.
pub fn height_at(at: Place, y: Units, height: Option<Units>) -> Units
    ensures { result ≡ bottom_at (at.room - y) height }
{
    height.unwrap_or(at.room.saturating_sub(y))
}

/// Where a piece of a row of this height stands.
pub fn row_place(at: Place, info: RowInfo, y: Units, height: Units) -> RowPlace
    requires x { at.x + info.x < 2 ^ 64 }
    requires y { at.y + y < 2 ^ 64 }
    ensures { result ≡ record {
      depth = at.depth;
      x = at.x + info.x;
      y = at.y + y;
      w = info.w;
      step = info.step;
      height = height;
    } }
{
    RowPlace {
        depth: at.depth,
        x: at.x + info.x,
        y: at.y + y,
        w: info.w,
        step: info.step,
        height,
    }
}

/// The line of a piece of a row.
pub fn row_line(at: RowPlace, number: u32, info: RowInfo, from: &Token) -> TreeLine
    requires { row_width info < 2 ^ 64 }
    ensures { line_of result ≡ record {
      depth = at.depth;
      kind = row_kind number from.now;
      x = at.x;
      y = at.y;
      w = row_width info;
      h = at.height;
    } }
{
    TreeLine {
        depth: at.depth,
        kind: TreeKind::Row {
            row: number,
            from: from.copy(),
        },
        rect: Rect {
            x: at.x,
            y: at.y,
            w: u64::from(info.n.saturating_sub(1)) * info.step + info.w,
            h: at.height,
        },
    }
}

/// The line of a column of a piece of a row.
pub fn column_line(at: RowPlace, index: u32) -> Result<TreeLine, NoMemory>
    requires { at.x + index * at.step < 2 ^ 64 }
    ensures { IfOk result (λ line. line_of line ≡ record {
      depth = at.depth + 1;
      kind = col_kind index;
      x = at.x + index * at.step;
      y = at.y;
      w = at.w;
      h = at.height;
    }) }
{
    Ok(TreeLine {
        depth: deeper(at.depth)?,
        kind: TreeKind::Col { index },
        rect: Rect {
            x: at.x + u64::from(index) * at.step,
            y: at.y,
            w: at.w,
            h: at.height,
        },
    })
}

/// The place inside a column of a piece of a row, of a flow that reaches this far there.
pub fn inside_column(at: RowPlace, index: u32, flow: u32, extent: Units) -> Result<Place, NoMemory>
    requires { at.x + index * at.step < 2 ^ 64 }
    ensures { IfOk result (λ inside. inside ≡ record {
      flow = flow;
      depth = at.depth + 2;
      x = at.x + index * at.step;
      y = at.y;
      w = at.w;
      room = at.height;
      reach = max at.height extent;
    }) }
{
    Ok(Place {
        flow,
        depth: deeper(deeper(at.depth)?)?,
        x: at.x + u64::from(index) * at.step,
        y: at.y,
        w: at.w,
        room: at.height,
        reach: at.height.max(extent),
    })
}

/// What the line of an atom is of, with its left and its width; none for a container with a height, whose inside is a stack of
/// its own.
pub fn line_of_atom(
    at: Place,
    item: u32,
    y: Units,
    height: Units,
    kind: AtomKind,
) -> Option<TreeLine>
    requires x { at.x + kind_x kind < 2 ^ 64 }
    requires y { at.y + y < 2 ^ 64 }
    ensures { map line_of (option_to_list result) ≡ atom_line at.depth at.x at.w (at.y + y) item height kind }
{
    let (kind, x, w) = match kind {
        AtomKind::Plain => (TreeKind::Atom { item }, 0, at.w),
        AtomKind::Line { owner, index, x, w } => (TreeKind::Line { owner, index }, x, w),
        AtomKind::Void { owner, x, w } => (TreeKind::Void { owner }, x, w),
        AtomKind::Image { owner, x, w } => (TreeKind::Image { owner }, x, w),
        AtomKind::Bounded { .. } => return None,
    };
    Some(TreeLine {
        depth: at.depth,
        kind,
        rect: Rect {
            x: at.x + x,
            y: at.y + y,
            w,
            h: height,
        },
    })
}

/// The line of a stack of this height.
pub fn stack_line(
    info: Stack,
    number: u32,
    depth: u32,
    x: Units,
    y: Units,
    height: Units,
) -> TreeLine
    ensures { line_of result ≡ record {
      depth = depth;
      kind = stack_kind number;
      x = x;
      y = y;
      w = info.w;
      h = height;
    } }
{
    TreeLine {
        depth,
        kind: TreeKind::Stack { stack: number },
        rect: Rect {
            x,
            y,
            w: info.w,
            h: height,
        },
    }
}

/// The place inside a stack of this height, whose flow reaches this far.
pub fn inside_stack(
    info: Stack,
    depth: u32,
    x: Units,
    y: Units,
    height: Units,
    extent: Units,
) -> Result<Place, NoMemory>
    ensures { IfOk result (λ inside. inside ≡ record {
      flow = info.flow;
      depth = depth + 1;
      x = x;
      y = y;
      w = info.w;
      room = height;
      reach = max height extent;
    }) }
{
    Ok(Place {
        flow: info.flow,
        depth: deeper(depth)?,
        x,
        y,
        w: info.w,
        room: height,
        reach: height.max(extent),
    })
}

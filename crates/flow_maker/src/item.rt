//! The items without flows of their own, and the counts of lines before them.

ghost use Rattle.std.specs.Prelude.{◌≡◌, ◌+◌, ◌-◌, ◌^◌, ◌<◌, ◌≤◌, length};
ghost use Rattle.box_data.specs.Content.{line, image, void};
ghost use Rattle.box_data.specs.DocumentFlows as document;
ghost use Rattle.flow_maker.specs.Making as making;
ghost use Rattle.flow_maker.specs.Premises.{IsSmall};

use box_data::{Align, BoxKind, Placed};
use break_rules::LineCounts;
use flow_data::{AtomKind, Item};
use line_breaker::Line;
use mc_base::Units;

/// How far a line stands from the left of its box.
fn aligned(align: Align, rest: Units) -> Units
    ensures value { result ≡ document.aligned align rest }
    ensures within { result ≤ rest }
{
    match align {
        Align::Left => 0,
        Align::Right => rest,
        Align::Center => rest / 2,
    }
}

/// The left of the lines in a box.
fn lines_x(p: &Placed) -> Units
    ensures value { result ≡ document.lines_x p.now }
    ensures within { result ≤ p.now.content_x }
{
    match p.kind {
        BoxKind::Container => 0,
        BoxKind::Block | BoxKind::Anonymous | BoxKind::ImageBlock => p.content_x,
    }
}

/// A line as an item.
pub fn line_item(p: &Placed, index: u32, size: Line) -> Item
    requires { IsSmall p.now }
    ensures { result ≡ document.leaf_item (line p.now index size) }
{
    let rest = p.columns.w.saturating_sub(size.w);
    let x = lines_x(p) + aligned(p.style.align, rest);
    Item::Atom {
        height: size.h,
        kind: AtomKind::Line {
            owner: p.number,
            index,
            x,
            w: size.w,
        },
    }
}

/// An image as an item.
pub fn image_item(p: &Placed) -> Item
    ensures { result ≡ document.leaf_item (image p.now) }
{
    Item::Atom {
        height: p.h,
        kind: AtomKind::Image {
            owner: p.number,
            x: p.content_x,
            w: p.w,
        },
    }
}

/// A void as an item.
pub fn void_item(p: &Placed, x: Units) -> Item
    ensures { result ≡ document.leaf_item (void p.now x) }
{
    Item::Atom {
        height: 0,
        kind: AtomKind::Void {
            owner: p.number,
            x,
            w: p.w,
        },
    }
}

/// How many lines of a box stand before a line and from it on, unless it is the first (CSS Fragmentation 3, section 3.3).
pub fn line_counts(p: &Placed, index: u32) -> Option<LineCounts>
    requires { IsSmall p.now }
    ensures { result ≡ document.leaf_counts (line p.now index making.no_size) }
{
    if index == 0 {
        None
    } else {
        Some(LineCounts {
            before: index,
            after: (p.lines.len() as u32).saturating_sub(index),
            orphans: p.style.orphans,
            widows: p.style.widows,
        })
    }
}

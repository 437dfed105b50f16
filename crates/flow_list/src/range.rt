//! Ranges of heights that don't fit a row, and the lines that tell how columns came to be.

use mc_base::{List, Token, Units};
use std::marker::Model;

/// A line that tells how a column came to be: how deep it stands in other columns, the place where it ends (none where it
/// overflows), and the item that it stops at, if there is one. Contracts see the same three.
#[derive(Drop)]
pub struct ColLine {
    pub depth: u32,
    pub end: Option<Token>,
    pub stop: Option<u32>,
}

impl Model for ColLine {
    ghost use Rattle.flow_list.specs.Column.{ColumnLine};

    ghost Value = { ColumnLine };

    ghost view = { λ l. record { depth = l.depth; end = l.end; stop = l.stop } };
}

/// Why a height doesn't fit: an atom is too high, there is too much for the columns, the columns that may be used leave a
/// place, or one of them, counted from 1, ends at a bad break or overflows.
#[derive(Drop)]
pub enum Reason {
    Tall { item: u32 },
    Area,
    Left { at: Token },
    Bad { column: u32 },
    Over { column: u32 },
}

/// Heights from `lo` up to, but not including, `hi`, in units, none of which fits, with the lines of the columns at `lo`
/// where the reason speaks of columns. Contracts see a range of heights with its reason and its lines.
#[derive(Drop)]
pub struct Range {
    pub lo: Units,
    pub hi: Units,
    pub reason: Reason,
    pub cols: List<ColLine>,
}

impl Model for Range {
    ghost use Rattle.flow_list.specs.Ranges.{Range as Rejected};
    ghost use Rattle.flow_list.specs.Reasons.{told_reason};

    ghost Value = { Rejected };

    ghost view = { λ r. record { low = r.lo; high = r.hi; reason = told_reason r.reason; lines = r.cols } };
}

//! The lines of a flow file.

use mc_base::{Level, Units};

/// A line: the byte at which it begins, and what it says.
#[derive(Clone, Copy, Debug, PartialEq, Eq)]
pub struct Line {
    pub at: u64,
    pub form: Form,
}

/// What a line says. Lengths are in units of 1/64 px.
///
/// `Flow` is `flow 1`, `First` the second line (`row N W STEP A FILL`), `Start` is `( B X W I` with or without the two
/// amounts that its box has again at each break, `End` is `) B`, `Row` begins a row inside a row, `Break` is `| L`, and
/// `Close` is `end`.
#[derive(Clone, Copy, Debug, PartialEq, Eq)]
pub enum Form {
    Flow,
    First {
        n: u64,
        w: Units,
        step: Units,
        available: Option<Units>,
        auto: bool,
    },
    Margin(Units),
    Solid(Units),
    Wall,
    Start {
        number: u64,
        x: Units,
        w: Units,
        avoid: bool,
        top: Units,
        bottom: Units,
    },
    End(u64),
    Atom(Units),
    Row {
        n: u64,
        w: Units,
        step: Units,
        x: Units,
    },
    Break(Level),
    Close,
}

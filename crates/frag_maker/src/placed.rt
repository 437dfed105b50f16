//! What stands at the places of a column.

use mc_base::{FragId, Token, Units};

/// A row as it stands in a column, from a place in it on, with its height in units. `made_at` is the height of its columns, none
/// where they have no end. A row that is filled has as many columns as there are in one piece of it, and reaches to the column's
/// end. `made` is a fragment: a piece of the row, with these columns.
#[derive(Drop)]
pub struct MadeRow {
    pub row: u32,
    pub from: Token,
    pub height: Units,
    pub made_at: Option<Units>,
    pub filled: bool,
    pub made: FragId,
}

/// What stands at a place: where a box starts, also one that continues there, or ends, an atom, or a row. `y` is from the
/// column's top, in units.
#[derive(Drop)]
pub enum Placed {
    Opens { number: u32, y: Units, starts: bool },
    Closes { number: u32, y: Units },
    Atom { item: u32, y: Units },
    Row { stands: MadeRow, y: Units },
}

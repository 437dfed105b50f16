//! Which line may follow which.

use crate::fault::ReadError;
use crate::line::{Form, Line};
use crate::pile::Pile;
use mc_base::{Fault, List, fault_at};
use std::alloc::Global;

/// Where reading stands in a row.
///
/// `Empty`: no line of it is read. `Leading`: in the head before its first item, whose first line is at this byte.
/// `Filled`: after an item. `After`: after a break place, which is at this byte.
#[derive(Clone, Copy)]
pub enum Phase {
    Empty,
    Leading { at: u64 },
    Filled,
    Behind { at: u64 },
}

/// A row that isn't ended: the byte at which it begins, where reading stands in it, and its open boxes, the innermost first.
#[derive(Drop)]
pub struct OpenRow {
    pub at: u64,
    pub phase: Phase,
    pub boxes: Pile<u64>,
}

/// A start, at this byte, whose amount at the top must follow at once.
#[derive(Clone, Copy)]
pub struct Due {
    pub at: u64,
    pub top: u64,
}

/// The open rows: the innermost, and those around it, the nearest first. `bottoms` are the lower amounts of the boxes so
/// far, by number, `due` is what must follow at once, and `solid` the amount of the line before if it is `s U`.
#[derive(Drop)]
pub struct Rows {
    pub row: OpenRow,
    pub outer: Pile<OpenRow>,
    pub bottoms: List<u64>,
    pub due: Option<Due>,
    pub solid: Option<u64>,
}

/// How far the file is read: nothing, its first line, up to here in its rows, or all of it.
#[derive(Drop)]
pub enum Reading {
    Opening,
    Heading,
    Within(Rows),
    Ended,
}

ghost use Rattle.std.specs.Prelude.{◌≡◌, Some, None};
ghost use Rattle.mc_base.specs.Reading.{Gives};
ghost use Rattle.flow_text.specs.Structure as structure;

/// Whether reading stands after an item.
fn is_filled(phase: Phase) -> bool
    ensures { result ≡ structure.is_filled phase }
{
    match phase {
        Phase::Filled => true,
        _ => false,
    }
}

/// Where reading stands after a line at this byte that is no item.
fn touched(phase: Phase, at: u64) -> Phase
    ensures { result ≡ structure.touched phase at }
{
    match phase {
        Phase::Empty => Phase::Leading { at },
        _ => phase,
    }
}

/// The lower amount of a box.
fn bottom_of(bottoms: &[u64], number: u64) -> u64
    ensures { result ≡ structure.bottom_of bottoms.now number }
{
    if number < bottoms.len() as u64 {
        bottoms[number as usize]
    } else {
        0
    }
}

/// Whether the line before has the lower amount of a box.
fn is_cloned(bottom: u64, solid: Option<u64>) -> bool
    ensures { result ≡ structure.is_cloned bottom solid }
{
    match solid {
        Some(amount) => bottom == 0 || amount == bottom,
        None => bottom == 0,
    }
}

/// What must follow a start at once.
fn due_of(at: u64, top: u64) -> Option<Due>
    ensures { result ≡ structure.due_of at top }
{
    if top > 0 { Some(Due { at, top }) } else { None }
}

/// A row that begins here.
fn open_row(alloc: Global, at: u64) -> OpenRow
    ensures { result ≡ structure.open_row at }
{
    OpenRow {
        at,
        phase: Phase::Empty,
        boxes: Pile::new(alloc),
    }
}

/// The first row, which begins here.
fn begun(alloc: Global, at: u64) -> Rows
    ensures { result ≡ structure.begun at }
{
    Rows {
        row: open_row(alloc, at),
        outer: Pile::new(alloc),
        bottoms: List::new(alloc),
        due: None,
        solid: None,
    }
}

/// Why a row may not end here.
fn fault_at_end(row: &OpenRow, nested: bool, at: u64) -> Option<Fault>
    ensures { result ≡ structure.fault_at_end row.now nested at }
{
    match row.phase {
        Phase::Empty => {
            if nested {
                Some(Fault {
                    at: row.at,
                    rule: 6,
                })
            } else {
                None
            }
        }
        Phase::Leading { at: first } => {
            if nested {
                Some(Fault {
                    at: row.at,
                    rule: 6,
                })
            } else {
                Some(Fault { at: first, rule: 5 })
            }
        }
        Phase::Filled => {
            if row.boxes.is_empty() {
                None
            } else {
                Some(Fault { at, rule: 6 })
            }
        }
        Phase::Behind { at: place } => Some(Fault { at: place, rule: 5 }),
    }
}

/// Why what had to follow at once doesn't, where this follows.
pub fn fault_of_due(due: Option<Due>, form: Option<Form>) -> Option<Fault>
    ensures { result ≡ structure.fault_of_due due form }
{
    let due = due?;
    match form {
        Some(Form::Solid(amount)) => {
            if amount == due.top {
                return None;
            }
        }
        _ => {}
    }
    Some(Fault {
        at: due.at,
        rule: 8,
    })
}

impl Rows {
    ghost use Rattle.std.specs.Prelude.{◌≡◌, Some, None};
    ghost use Rattle.flow_text.specs.Structure as structure;
    ghost use Rattle.mc_base.specs.Reading.{Gives};

    /// A margin, a solid amount or a wall.
    fn edge(self, at: u64, solid: Option<u64>) -> Rows
        ensures { result ≡ structure.edge self at solid }
    {
        let mut rows = self;
        rows.row.phase = touched(rows.row.phase, at);
        rows.due = None;
        rows.solid = solid;
        rows
    }

    /// The start of a box.
    fn start(self, at: u64, number: u64, top: u64, bottom: u64) -> Result<Rows, ReadError>
        ensures { Gives result (structure.start self at number top bottom) }
    {
        let mut rows = self;
        if is_filled(rows.row.phase) {
            return Err(fault_at(at, 5));
        }
        if number != rows.bottoms.len() as u64 {
            return Err(fault_at(at, 6));
        }
        rows.row.boxes.push(number)?;
        rows.bottoms.push(bottom)?;
        rows.row.phase = touched(rows.row.phase, at);
        rows.due = due_of(at, top);
        rows.solid = None;
        Ok(rows)
    }

    /// The end of a box.
    fn end(self, at: u64, number: u64) -> Result<Rows, ReadError>
        ensures { Gives result (structure.end self at number) }
    {
        let mut rows = self;
        if !is_filled(rows.row.phase) {
            return Err(fault_at(at, 5));
        }
        let Some(innermost) = rows.row.boxes.pop() else {
            return Err(fault_at(at, 6));
        };
        if innermost != number {
            return Err(fault_at(at, 6));
        }
        if !is_cloned(bottom_of(rows.bottoms.as_slice(), number), rows.solid) {
            return Err(fault_at(at, 8));
        }
        rows.due = None;
        rows.solid = None;
        Ok(rows)
    }

    /// An item.
    fn item(self, at: u64) -> Result<Rows, ReadError>
        ensures { Gives result (structure.item self at) }
    {
        let mut rows = self;
        if is_filled(rows.row.phase) {
            return Err(fault_at(at, 5));
        }
        rows.row.phase = Phase::Filled;
        rows.due = None;
        rows.solid = None;
        Ok(rows)
    }

    /// A row inside the innermost one.
    fn inner_row(self, alloc: Global, at: u64) -> Result<Rows, ReadError>
        ensures { Gives result (structure.inner_row self at) }
    {
        let rows = self.item(at)?;
        let Rows {
            row,
            mut outer,
            bottoms,
            due,
            solid,
        } = rows;
        outer.push(row)?;
        Ok(Rows {
            row: open_row(alloc, at),
            outer,
            bottoms,
            due,
            solid,
        })
    }

    /// A break place.
    fn break_place(self, at: u64) -> Result<Rows, ReadError>
        ensures { Gives result (structure.break_place self at) }
    {
        let mut rows = self;
        if !is_filled(rows.row.phase) {
            return Err(fault_at(at, 5));
        }
        rows.row.phase = Phase::Behind { at };
        rows.due = None;
        rows.solid = None;
        Ok(rows)
    }

    /// The end of the innermost row.
    fn close(self, at: u64) -> Result<Reading, ReadError>
        ensures { Gives result (structure.close self at) }
    {
        let Rows {
            row,
            mut outer,
            bottoms,
            due: _,
            solid: _,
        } = self;
        match outer.pop() {
            None => match fault_at_end(&row, false, at) {
                None => Ok(Reading::Ended),
                Some(fault) => Err(ReadError::Fault(fault)),
            },
            Some(around) => match fault_at_end(&row, true, at) {
                None => Ok(Reading::Within(Rows {
                    row: around,
                    outer,
                    bottoms,
                    due: None,
                    solid: None,
                })),
                Some(fault) => Err(ReadError::Fault(fault)),
            },
        }
    }

    /// A line in the rows, where nothing is due.
    fn step(self, alloc: Global, line: Line) -> Result<Reading, ReadError>
        ensures { Gives result (structure.step self line.at line.form) }
    {
        match line.form {
            Form::Flow => Err(fault_at(line.at, 5)),
            Form::First { .. } => Err(fault_at(line.at, 5)),
            Form::Margin(_) => Ok(Reading::Within(self.edge(line.at, None))),
            Form::Wall => Ok(Reading::Within(self.edge(line.at, None))),
            Form::Solid(amount) => Ok(Reading::Within(self.edge(line.at, Some(amount)))),
            Form::Start {
                number,
                top,
                bottom,
                ..
            } => Ok(Reading::Within(self.start(line.at, number, top, bottom)?)),
            Form::End(number) => Ok(Reading::Within(self.end(line.at, number)?)),
            Form::Atom(_) => Ok(Reading::Within(self.item(line.at)?)),
            Form::Row { .. } => Ok(Reading::Within(self.inner_row(alloc, line.at)?)),
            Form::Break(_) => Ok(Reading::Within(self.break_place(line.at)?)),
            Form::Close => self.close(line.at),
        }
    }
}

/// Reading goes on by a line.
pub fn take(alloc: Global, reading: Reading, line: Line) -> Result<Reading, ReadError>
    ensures { Gives result (structure.take reading line) }
{
    match reading {
        Reading::Opening => match line.form {
            Form::Flow => Ok(Reading::Heading),
            _ => Err(fault_at(line.at, 3)),
        },
        Reading::Heading => match line.form {
            Form::First { .. } => Ok(Reading::Within(begun(alloc, line.at))),
            _ => Err(fault_at(line.at, 5)),
        },
        Reading::Within(rows) => match fault_of_due(rows.due, Some(line.form)) {
            None => rows.step(alloc, line),
            Some(fault) => Err(ReadError::Fault(fault)),
        },
        Reading::Ended => Err(fault_at(line.at, 7)),
    }
}

/// What must follow at once.
pub fn what_is_due(reading: &Reading) -> Option<Due>
    ensures { result ≡ structure.what_is_due reading.now }
{
    match reading {
        Reading::Within(rows) => rows.due,
        _ => None,
    }
}

/// Why the text may not end here, at its length.
pub fn fault_of_ending(reading: &Reading, size: u64) -> Option<Fault>
    ensures { result ≡ structure.fault_of_ending reading.now size }
{
    match reading {
        Reading::Opening => Some(Fault { at: 0, rule: 3 }),
        Reading::Heading => Some(Fault { at: size, rule: 7 }),
        Reading::Within(rows) => match rows.due {
            Some(due) => Some(Fault {
                at: due.at,
                rule: 8,
            }),
            None => Some(Fault { at: size, rule: 7 }),
        },
        Reading::Ended => None,
    }
}

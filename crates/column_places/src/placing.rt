//! Placing what is laid in a column, gap by gap.

ghost use Rattle.std.specs.Prelude.{◌≡◌, ℕ, ◌+◌, ◌<◌, ◌≤◌, ◌^◌, List, [], ◌∷◌, ◌++◌, map, cond, false, nat_eq, sum_by, true};
ghost use Rattle.std.specs.Prelude.{OnOk};
ghost use Rattle.std.specs.HashSet.{contains};
ghost use Rattle.flow_data.specs.Flows.{amount};
ghost use Rattle.flow_list.specs.Placing.{Laid, atom, ends_gap, gap_places, greatest_margin, laid_edge, laid_edges, opens_among};
ghost use Rattle.flow_list.specs.Placing.{placed_in_gap, row as row_laid};
ghost use Rattle.flow_list.specs.Strip.{lay, lay_all, put, strip_at};
ghost use Rattle.frag_maker.specs.Building.{laid_row, placed_as};
ghost use Rattle.column_places.specs.Placing.{HasMargin, Leads, laid_as, margin_of, row_placed, row_put, row_waiting, rows_of};
ghost use Rattle.column_places.specs.Placing.{rows_placed, rows_waiting, row_of_flat, standing, strip_of, waiting as waits};
ghost use Rattle.column_places.specs.Placing.{with_more};

use flow_list::Edge;
use frag_maker::{MadeRow, Placed};
use mc_base::{FragId, NoMemory, Token, Units};
use std::alloc::Global;
use std::collections::HashSet;

/// A row of height 0 from a place in it on, which isn't filled: `made_at` is the height of its columns, and `made` a piece of it
/// with them.
#[derive(Drop)]
pub struct FlatRow {
    pub row: u32,
    pub from: Token,
    pub made_at: Option<Units>,
    pub made: FragId,
}

/// Something in a gap, which gets its place where the gap ends. Atoms and rows have the height 0.
#[derive(Drop)]
pub enum Waiting {
    Margin(Units),
    Opens(u32),
    Closes(u32),
    Atom(u32),
    Row(FlatRow),
}

/// A column that is being placed: where its last gap begins, the greatest margin of that gap, whether margins are still
/// dropped, what waits in the gap, and what stands before it (CSS 2.1, section 8.3.1).
#[derive(Drop)]
pub struct Placing {
    pub y: Units,
    pub margin: Units,
    pub drops: bool,
    pub gap: Vec<Waiting>,
    pub placed: Vec<Placed>,
}

/// Where a box ends in a gap from `y` to `end`: at the gap's end, if it started in the gap.
fn end_of_box(y: Units, end: Units, started: bool) -> Units
    ensures { result ≡ cond started end y }
{
    if started { end } else { y }
}

/// The margin that something in a gap is.
fn margin_in(waiting: &Waiting) -> Units
    ensures { result ≡ margin_of waiting.now }
{
    match waiting {
        Waiting::Margin(margin) => *margin,
        _ => 0,
    }
}

/// The row of height 0 where it stands.
fn flat_row(flat: &FlatRow) -> MadeRow
    ensures { result ≡ row_of_flat flat.now }
{
    MadeRow {
        row: flat.row,
        from: flat.from.copy(),
        height: 0,
        made_at: flat.made_at,
        filled: false,
        made: flat.made,
    }
}

/// Places something of a gap from `y` to `end`, in which these boxes started before, and `margin` is the greatest margin.
fn place(
    placed: &mut Vec<Placed>,
    started: &mut HashSet<u32>,
    y: Units,
    end: Units,
    margin: Units,
    waiting: &Waiting,
) -> Result<(), NoMemory>
    requires { y + margin < 2 ^ 63 }
    ensures placed { (before : List Laid) → margin ≡ greatest_margin before →
        ((q : ℕ) → contains nat_eq started.old q ≡ opens_among q before) →
        OnOk result (map placed_as placed.new.items
        ≡ map placed_as placed.old.items ++ placed_in_gap y end before (laid_as waiting.now)) }
    ensures started { (before : List Laid) → ((q : ℕ) → contains nat_eq started.old q ≡ opens_among q before) →
        OnOk result ((q : ℕ) → contains nat_eq started.new q ≡ opens_among q (before ++ laid_as waiting.now ∷ [])) }
    ensures rows { OnOk result (rows_placed placed.new.items ≡ rows_placed placed.old.items ++ row_waiting waiting.now) }
{
    match waiting {
        Waiting::Margin(_) => Ok(()),
        Waiting::Opens(number) => {
            started.insert(*number)?;
            placed.push(Placed::Opens {
                number: *number,
                y: end,
                starts: true,
            })?;
            Ok(())
        }
        Waiting::Closes(number) => {
            let y = end_of_box(y, end, started.contains(number));
            placed.push(Placed::Closes { number: *number, y })?;
            Ok(())
        }
        Waiting::Atom(item) => {
            placed.push(Placed::Atom {
                item: *item,
                y: end,
            })?;
            Ok(())
        }
        Waiting::Row(flat) => {
            placed.push(Placed::Row {
                stands: flat_row(flat),
                y: y + margin,
            })?;
            Ok(())
        }
    }
}

/// Places what waits in a gap from `y` to `end`.
fn place_gap(
    alloc: Global,
    placed: &mut Vec<Placed>,
    y: Units,
    end: Units,
    gap: &[Waiting],
) -> Result<(), NoMemory>
    requires { y + greatest_margin (map laid_as gap.now) < 2 ^ 63 }
    ensures placed { OnOk result (map placed_as placed.new.items
        ≡ map placed_as placed.old.items ++ gap_places y end [] (map laid_as gap.now)) }
    ensures rows { OnOk result (rows_placed placed.new.items ≡ rows_placed placed.old.items ++ rows_waiting gap.now) }
{
    let mut started = HashSet::new(alloc);
    let mut margin: Units = 0;
    for waiting in gap {
        place(placed, &mut started, y, end, margin, waiting)?;
        margin = margin.max(margin_in(waiting));
    }
    Ok(())
}

/// Whether a row waits in the gap that it stands in.
fn is_flat(stands: &MadeRow) -> bool
    ensures flat { result ≡ true → (stands.now.height ≡ 0) × (stands.now.filled ≡ false) }
    ensures ends { result ≡ false → ends_gap (row_laid (laid_row stands.now)) ≡ true }
{
    stands.height == 0 && !stands.filled
}

impl Placing {
    /// A column that begins at `y`, below what stands there already.
    pub fn new(alloc: Global, y: Units, drops: bool, placed: Vec<Placed>) -> Placing
        ensures strip { strip_of result ≡ strip_at y drops }
        ensures margin { HasMargin result }
        ensures gap { waits result ≡ [] }
        ensures placed { standing result ≡ map placed_as placed.items }
        ensures rows { rows_of result ≡ rows_placed placed.items }
    {
        Placing {
            y,
            margin: 0,
            drops,
            gap: Vec::new(alloc),
            placed,
        }
    }

    /// Ends the gap at `end`: what waits in it gets its place.
    fn end_gap(&mut self, alloc: Global, end: Units) -> Result<(), NoMemory>
        requires { self.old.y + greatest_margin (waits self.old) < 2 ^ 63 }
        ensures placed { OnOk result (standing self.new ≡ standing self.old ++ gap_places self.old.y end [] (waits self.old)) }
        ensures gap { OnOk result (waits self.new ≡ []) }
        ensures y { OnOk result (self.new.y ≡ end) }
        ensures margin { OnOk result (self.new.margin ≡ 0) }
        ensures drops { OnOk result (self.new.drops ≡ self.old.drops) }
        ensures rows { OnOk result (rows_placed self.new.placed.items ≡ rows_of self.old) }
        ensures none { OnOk result (self.new.gap.items ≡ []) }
    {
        place_gap(alloc, &mut self.placed, self.y, end, self.gap.as_slice())?;
        self.gap.clear();
        self.y = end;
        self.margin = 0;
        Ok(())
    }

    /// Adds something to the gap.
    fn wait(&mut self, waiting: Waiting) -> Result<(), NoMemory>
        ensures placed { OnOk result (standing self.new ≡ standing self.old) }
        ensures gap { OnOk result (waits self.new ≡ waits self.old ++ laid_as waiting ∷ []) }
        ensures y { OnOk result (self.new.y ≡ self.old.y) }
        ensures margin { OnOk result (self.new.margin ≡ self.old.margin) }
        ensures drops { OnOk result (self.new.drops ≡ self.old.drops) }
        ensures rows { OnOk result (rows_of self.new ≡ rows_of self.old ++ row_waiting waiting) }
    {
        self.gap.push(waiting)?;
        Ok(())
    }

    /// Ends the gap with something of this height.
    fn pass(&mut self, alloc: Global, height: Units) -> Result<(), NoMemory>
        requires margin { HasMargin self.old }
        requires room { self.old.y + self.old.margin + height < 2 ^ 63 }
        ensures placed { OnOk result (standing self.new ≡ standing self.old ++ gap_places self.old.y
            (self.old.y + self.old.margin) [] (waits self.old)) }
        ensures gap { OnOk result (waits self.new ≡ []) }
        ensures y { OnOk result (self.new.y ≡ self.old.y + self.old.margin + height) }
        ensures margin { OnOk result (self.new.margin ≡ 0) }
        ensures drops { OnOk result (self.new.drops ≡ false) }
        ensures rows { OnOk result (rows_placed self.new.placed.items ≡ rows_of self.old) }
        ensures none { OnOk result (self.new.gap.items ≡ []) }
    {
        let end = self.y + self.margin;
        self.end_gap(alloc, end)?;
        self.y = end + height;
        self.drops = false;
        Ok(())
    }

    fn lay_margin(&mut self, margin: Units) -> Result<(), NoMemory>
        requires { HasMargin self.old }
        ensures leads { OnOk result (Leads self.old (laid_edge (strip_of self.old) (Edge.Margin margin))
            (lay (strip_of self.old) (Edge.Margin margin)) self.new) }
        ensures rows { OnOk result (rows_of self.new ≡ rows_of self.old) }
    {
        if self.drops {
            return Ok(());
        }
        self.margin = self.margin.max(margin);
        self.wait(Waiting::Margin(margin))?;
        Ok(())
    }

    fn lay_solid(&mut self, alloc: Global, amount: Units) -> Result<(), NoMemory>
        requires margin { HasMargin self.old }
        requires room { self.old.y + self.old.margin + amount < 2 ^ 63 }
        ensures leads { OnOk result (Leads self.old (laid_edge (strip_of self.old) (Edge.Solid amount))
            (lay (strip_of self.old) (Edge.Solid amount)) self.new) }
        ensures rows { OnOk result (rows_of self.new ≡ rows_of self.old) }
    {
        if amount == 0 {
            return Ok(());
        }
        self.pass(alloc, amount)?;
        Ok(())
    }

    /// Lays an edge.
    pub fn lay(&mut self, alloc: Global, edge: Edge) -> Result<(), NoMemory>
        requires margin { HasMargin self.old }
        requires room { self.old.y + self.old.margin + amount edge < 2 ^ 63 }
        ensures leads { OnOk result (Leads self.old (laid_edge (strip_of self.old) edge) (lay (strip_of self.old) edge)
            self.new) }
        ensures rows { OnOk result (rows_of self.new ≡ rows_of self.old) }
    {
        match edge {
            Edge::Margin(margin) => self.lay_margin(margin),
            Edge::Solid(amount) => self.lay_solid(alloc, amount),
            Edge::Wall => {
                self.pass(alloc, 0)?;
                Ok(())
            }
            Edge::Start(number) => {
                self.wait(Waiting::Opens(number))?;
                Ok(())
            }
            Edge::End(number) => {
                self.wait(Waiting::Closes(number))?;
                Ok(())
            }
        }
    }

    /// Lays these edges.
    pub fn lay_all(&mut self, alloc: Global, edges: &[Edge]) -> Result<(), NoMemory>
        requires margin { HasMargin self.old }
        requires room { self.old.y + self.old.margin + sum_by amount edges.now < 2 ^ 63 }
        ensures leads { OnOk result (Leads self.old (laid_edges (strip_of self.old) edges.now)
            (lay_all (strip_of self.old) edges.now) self.new) }
        ensures rows { OnOk result (rows_of self.new ≡ rows_of self.old) }
    {
        for edge in edges {
            self.lay(alloc, *edge)?;
        }
        Ok(())
    }

    /// Lays an atom of this height.
    pub fn stand(&mut self, alloc: Global, item: u32, height: Units) -> Result<(), NoMemory>
        requires margin { HasMargin self.old }
        requires room { self.old.y + self.old.margin + height < 2 ^ 63 }
        ensures leads { OnOk result (Leads self.old (atom item height ∷ []) (put (strip_of self.old) height) self.new) }
        ensures rows { OnOk result (rows_of self.new ≡ rows_of self.old) }
    {
        if height == 0 {
            self.wait(Waiting::Atom(item))?;
            return Ok(());
        }
        let y = self.y + self.margin;
        self.pass(alloc, height)?;
        self.placed.push(Placed::Atom { item, y })?;
        Ok(())
    }

    /// Lays a row.
    pub fn stand_row(&mut self, alloc: Global, stands: MadeRow) -> Result<(), NoMemory>
        requires margin { HasMargin self.old }
        requires room { self.old.y + self.old.margin + stands.height < 2 ^ 63 }
        ensures leads { OnOk result (Leads self.old (row_laid (laid_row stands) ∷ [])
            (row_put (strip_of self.old) (laid_row stands))
            self.new) }
        ensures rows { OnOk result (rows_of self.new ≡ rows_of self.old ++ stands ∷ []) }
    {
        if is_flat(&stands) {
            self.wait(Waiting::Row(FlatRow {
                row: stands.row,
                from: stands.from,
                made_at: stands.made_at,
                made: stands.made,
            }))?;
            return Ok(());
        }
        let y = self.y + self.margin;
        self.pass(alloc, stands.height)?;
        self.placed.push(Placed::Row { stands, y })?;
        Ok(())
    }

    /// Ends the column: what waits has no height.
    pub fn finish(&mut self, alloc: Global) -> Result<(), NoMemory>
        requires margin { HasMargin self.old }
        requires room { self.old.y + self.old.margin < 2 ^ 63 }
        ensures placed { OnOk result (standing self.new ≡ with_more self.old []) }
        ensures y { OnOk result (self.new.y ≡ self.old.y) }
        ensures rows { OnOk result (rows_placed self.new.placed.items ≡ rows_of self.old) }
    {
        self.end_gap(alloc, self.y)?;
        Ok(())
    }
}

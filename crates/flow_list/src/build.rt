//! Making flows of the lines of a flow file, in one pass.

ghost use Rattle.std.specs.Prelude.{◌≡◌, ◌+◌, ◌-◌, ◌*◌, ◌^◌, ◌<◌, ◌≤◌, All, IfOk, length, slice_set};
ghost use Rattle.flow_text.specs.declared.line.Line.{Line};
ghost use Rattle.flow_text.specs.Grammar.{FlowFile, IsFlowFile};
ghost use Rattle.flow_list.specs.Building as building;
ghost use Rattle.flow_list.specs.FileFlows.{bound_of, flows_of, outer_flow};
ghost use Rattle.flow_data.specs.Flows.{no_flow, no_seam};

use flow_data::{AtomKind, Bound, BoxInfo, Edge, Flow, FlowsData, Item, RowInfo, Seam, Stack};
use flow_text::{Form, Line, Pile};
use mc_base::{Level, List, NoMemory, Units};
use std::alloc::Global;

/// A row that isn't ended: the number of its flow, its items and seams so far, the seam after its last item, and whether
/// that seam has no break place yet.
#[derive(Drop)]
pub struct OpenRow {
    pub flow: u32,
    pub items: List<Item>,
    pub seams: List<Seam>,
    pub seam: Seam,
    pub in_tail: bool,
}

/// What is made of the lines so far: the innermost open row, those around it, the nearest first, and the parts by
/// number. The flow of an open row is empty until the row ends.
#[derive(Drop)]
pub struct Parts {
    pub row: OpenRow,
    pub outer: Pile<OpenRow>,
    pub flows: List<Flow>,
    pub rows: List<RowInfo>,
    pub boxes: List<BoxInfo>,
    pub stacks: List<Stack>,
}

/// A seam without edges, at a place that breaks no rule.
fn empty_seam(alloc: Global) -> Seam
    ensures { result ≡ no_seam }
{
    Seam {
        tail: List::new(alloc),
        head: List::new(alloc),
        level: Level::L0,
    }
}

/// A flow without items and seams, for a row that isn't ended.
fn empty_flow(alloc: Global) -> Flow
    ensures { result ≡ no_flow }
{
    Flow {
        opened: List::new(alloc),
        items: List::new(alloc),
        seams: List::new(alloc),
    }
}

/// A row of which nothing is read.
fn open_row(alloc: Global, flow: u32) -> OpenRow
    ensures { result ≡ building.open_row flow }
{
    OpenRow {
        flow,
        items: List::new(alloc),
        seams: List::new(alloc),
        seam: empty_seam(alloc),
        in_tail: false,
    }
}

impl OpenRow {
    ghost use Rattle.std.specs.Prelude.{◌≡◌, IfOk};
    ghost use Rattle.flow_list.specs.Building as building;

    /// An edge, before or after the break place.
    fn with_edge(self, edge: Edge) -> Result<OpenRow, NoMemory>
        ensures { IfOk result (λ row. row ≡ building.with_edge self edge) }
    {
        let mut row = self;
        if row.in_tail {
            row.seam.tail.push(edge)?;
            Ok(row)
        } else {
            row.seam.head.push(edge)?;
            Ok(row)
        }
    }

    /// An item, which ends the seam before it.
    fn with_item(self, alloc: Global, item: Item) -> Result<OpenRow, NoMemory>
        ensures { IfOk result (λ row. row ≡ building.with_item self item) }
    {
        let OpenRow {
            flow,
            mut items,
            mut seams,
            seam,
            in_tail: _,
        } = self;
        seams.push(seam)?;
        items.push(item)?;
        Ok(OpenRow {
            flow,
            items,
            seams,
            seam: empty_seam(alloc),
            in_tail: true,
        })
    }

    /// A break place.
    fn with_place(self, level: Level) -> OpenRow
        ensures { result ≡ building.with_place self level }
    {
        let mut row = self;
        row.seam.level = level;
        row.in_tail = false;
        row
    }

    /// The flow of a row that ends.
    fn closed(self, alloc: Global) -> Result<Flow, NoMemory>
        ensures { IfOk result (λ flow. flow ≡ building.closed self) }
    {
        let OpenRow {
            flow: _,
            items,
            mut seams,
            seam,
            in_tail: _,
        } = self;
        seams.push(seam)?;
        Ok(Flow {
            opened: List::new(alloc),
            items,
            seams,
        })
    }
}

/// The flows with this one at its number.
fn with_flow(flows: List<Flow>, number: u32, flow: Flow) -> List<Flow>
    ensures { result ≡ slice_set flows number flow }
{
    let mut flows = flows.into_vec();
    if (number as usize) < flows.len() {
        flows[number as usize] = flow;
    }
    List::of(flows)
}

/// The nearest of the rows around one that ends.
fn nearest(alloc: Global, outer: &mut Pile<OpenRow>) -> OpenRow
    ensures row { result ≡ building.nearest outer.old }
    ensures left { outer.new ≡ building.farther outer.old }
{
    match outer.pop() {
        Some(row) => row,
        None => open_row(alloc, 0),
    }
}

/// The height that the rows of a flow file may use.
fn bound_of(available: Option<Units>) -> Bound
    ensures { result ≡ bound_of available }
{
    match available {
        None => Bound::Free,
        Some(height) => Bound::Each(height),
    }
}

/// The width of so many columns, from the left of the first to the right of the last.
fn width_of(n: u64, w: Units, step: Units) -> Units
    requires n { n ≤ 2 ^ 24 }
    requires w { w ≤ 2 ^ 24 }
    requires step { step ≤ 2 ^ 24 }
    ensures { result ≡ (n - 1) * step + w }
{
    n.saturating_sub(1) * step + w
}

/// A row of so many columns.
fn row_info(flow: u32, n: u64, w: Units, step: Units, x: Units, auto: bool) -> RowInfo
    requires { n ≤ 2 ^ 24 }
    ensures { result ≡ record { flow = flow; n = n; w = w; step = step; x = x; auto = auto } }
{
    RowInfo {
        flow,
        n: n as u32,
        w,
        step,
        x,
        auto,
    }
}

/// A box with the amounts that it has again at each break.
fn box_info(x: Units, w: Units, avoid: bool, top: Units, bottom: Units) -> BoxInfo
    ensures { result ≡ record { x = x; w = w; avoid = avoid; top = top; bottom = bottom } }
{
    BoxInfo {
        x,
        w,
        avoid,
        top,
        bottom,
    }
}

/// An atom of a flow file.
fn plain_atom(height: Units) -> Item
    ensures { result ≡ Item.Atom height AtomKind.Plain }
{
    Item::Atom {
        height,
        kind: AtomKind::Plain,
    }
}

/// The flow of stack 0: row 0 alone.
fn outer_flow(alloc: Global) -> Result<Flow, NoMemory>
    ensures { IfOk result (λ flow. flow ≡ outer_flow) }
{
    let mut items = List::new(alloc);
    items.push(Item::Row(0))?;
    let mut seams = List::new(alloc);
    seams.push(empty_seam(alloc))?;
    seams.push(empty_seam(alloc))?;
    Ok(Flow {
        opened: List::new(alloc),
        items,
        seams,
    })
}

/// No line is read yet.
fn begun(alloc: Global) -> Result<Parts, NoMemory>
    ensures { IfOk result (λ parts. parts ≡ building.begun) }
{
    let mut flows = List::new(alloc);
    flows.push(outer_flow(alloc)?)?;
    flows.push(empty_flow(alloc))?;
    Ok(Parts {
        row: open_row(alloc, 1),
        outer: Pile::new(alloc),
        flows,
        rows: List::new(alloc),
        boxes: List::new(alloc),
        stacks: List::new(alloc),
    })
}

impl Parts {
    ghost use Rattle.std.specs.Prelude.{◌≡◌, ◌^◌, ◌<◌, ◌≤◌, IfOk, IfSome, length};
    ghost use Rattle.flow_list.specs.Building as building;

    /// The line of the first row.
    fn first(
        self,
        n: u64,
        w: Units,
        step: Units,
        available: Option<Units>,
        auto: bool,
    ) -> Result<Parts, NoMemory>
        requires n { n ≤ 2 ^ 24 }
        requires w { w ≤ 2 ^ 24 }
        requires step { step ≤ 2 ^ 24 }
        ensures { IfOk result (λ parts. parts ≡ building.first self n w step available auto) }
    {
        let mut parts = self;
        parts.rows.push(row_info(1, n, w, step, 0, auto))?;
        parts.stacks.push(Stack {
            flow: 0,
            w: width_of(n, w, step),
            bound: bound_of(available),
        })?;
        Ok(parts)
    }

    /// An edge of the innermost row.
    fn edge(self, edge: Edge) -> Result<Parts, NoMemory>
        ensures { IfOk result (λ parts. parts ≡ building.edge self edge) }
    {
        let mut parts = self;
        parts.row = parts.row.with_edge(edge)?;
        Ok(parts)
    }

    /// The start of a box.
    fn start(self, number: u64, box_info: BoxInfo) -> Result<Parts, NoMemory>
        requires { number ≤ 2 ^ 24 }
        ensures { IfOk result (λ parts. parts ≡ building.start self number box_info) }
    {
        let mut parts = self;
        parts.row = parts.row.with_edge(Edge::Start(number as u32))?;
        parts.boxes.push(box_info)?;
        Ok(parts)
    }

    /// An item of the innermost row.
    fn item(self, alloc: Global, item: Item) -> Result<Parts, NoMemory>
        ensures { IfOk result (λ parts. parts ≡ building.in_row self (building.with_item self.row item)) }
    {
        let mut parts = self;
        parts.row = parts.row.with_item(alloc, item)?;
        Ok(parts)
    }

    /// A row inside the innermost one, which it is now.
    fn inner_row(
        self,
        alloc: Global,
        n: u64,
        w: Units,
        step: Units,
        x: Units,
    ) -> Result<Parts, NoMemory>
        requires n { n ≤ 2 ^ 24 }
        requires rows { length self.rows < 2 ^ 31 }
        requires flows { length self.flows < 2 ^ 31 }
        ensures { IfOk result (λ parts. parts ≡ building.inner_row self n w step x) }
    {
        let Parts {
            row,
            mut outer,
            mut flows,
            mut rows,
            boxes,
            stacks,
        } = self;
        let number = rows.len() as u32;
        let flow = flows.len() as u32;
        outer.push(row.with_item(alloc, Item::Row(number))?)?;
        flows.push(empty_flow(alloc))?;
        rows.push(row_info(flow, n, w, step, x, false))?;
        Ok(Parts {
            row: open_row(alloc, flow),
            outer,
            flows,
            rows,
            boxes,
            stacks,
        })
    }

    /// A break place of the innermost row.
    fn place(self, level: Level) -> Parts
        ensures { result ≡ building.in_row self (building.with_place self.row level) }
    {
        let mut parts = self;
        parts.row = parts.row.with_place(level);
        parts
    }

    /// The end of the innermost row.
    fn close(self, alloc: Global) -> Result<Parts, NoMemory>
        ensures { IfOk result (λ parts. parts ≡ building.close self) }
    {
        let Parts {
            row,
            mut outer,
            flows,
            rows,
            boxes,
            stacks,
        } = self;
        let number = row.flow;
        let flow = row.closed(alloc)?;
        Ok(Parts {
            row: nearest(alloc, &mut outer),
            outer,
            flows: with_flow(flows, number, flow),
            rows,
            boxes,
            stacks,
        })
    }

    /// A line.
    fn take(self, alloc: Global, form: Form) -> Result<Parts, NoMemory>
        requires low { building.IsLow form }
        requires rows { length self.rows < 2 ^ 31 }
        requires flows { length self.flows < 2 ^ 31 }
        ensures { IfOk result (λ parts. parts ≡ building.step self form) }
    {
        match form {
            Form::Flow => Ok(self),
            Form::First {
                n,
                w,
                step,
                available,
                auto,
            } => self.first(n, w, step, available, auto),
            Form::Margin(amount) => self.edge(Edge::Margin(amount)),
            Form::Solid(amount) => self.edge(Edge::Solid(amount)),
            Form::Wall => self.edge(Edge::Wall),
            Form::Start {
                number,
                x,
                w,
                avoid,
                top,
                bottom,
            } => self.start(number, box_info(x, w, avoid, top, bottom)),
            Form::End(number) => self.edge(Edge::End(number as u32)),
            Form::Atom(height) => self.item(alloc, plain_atom(height)),
            Form::Row { n, w, step, x } => self.inner_row(alloc, n, w, step, x),
            Form::Break(level) => Ok(self.place(level)),
            Form::Close => self.close(alloc),
        }
    }
}

/// The flows that the lines of a flow file say.
pub fn build(alloc: Global, lines: &[Line]) -> Result<FlowsData, NoMemory>
    requires low { All (λ (line : Line). building.IsLow line.form) lines.now }
    requires few { length lines.now ≤ 2 ^ 28 }
    ensures { (file : FlowFile) → IsFlowFile lines.now file → IfOk result (λ parts. parts ≡ flows_of file) }
{
    let mut parts = begun(alloc)?;
    for line in lines {
        parts = parts.take(alloc, line.form)?;
    }
    Ok(FlowsData {
        flows: parts.flows,
        rows: parts.rows,
        boxes: parts.boxes,
        stacks: parts.stacks,
    })
}

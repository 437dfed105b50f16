//! What is made of the marks so far.

ghost use Rattle.std.specs.Prelude.{◌≡◌, ◌^◌, ◌<◌, IfOk, slice_set};
ghost use Rattle.box_data.specs.DocumentFlows as document;
ghost use Rattle.flow_data.specs.Flows.{no_flow};
ghost use Rattle.flow_maker.specs.Making as making;

use crate::item::{image_item, line_counts, line_item, void_item};
use crate::open_flow::{OpenFlow, open_flow};
use crate::seam::{Around, no_boxes, within};
use box_data::{Mark, Placed};
use break_rules::LineCounts;
use flow_data::{AtomKind, Bound, Flow, Item, RowInfo, Stack};
use flow_text::Pile;
use line_breaker::Line;
use mc_base::{List, NoMemory, Units};
use std::alloc::Global;

/// The innermost open flow, those around it, the nearest first, and the parts by number. The flow of an open one is empty
/// in `flows`.
#[derive(Drop)]
pub struct Parts {
    pub flow: OpenFlow,
    pub outer: Pile<OpenFlow>,
    pub flows: List<Flow>,
    pub rows: List<RowInfo>,
    pub stacks: List<Stack>,
}

/// A flow without items and seams, in the place of one that isn't ended.
fn empty_flow(alloc: Global) -> Flow
    ensures { result ≡ no_flow }
{
    Flow {
        opened: List::new(alloc),
        items: List::new(alloc),
        seams: List::new(alloc),
    }
}

/// The flows with this one at its number.
fn with_flow(flows: List<Flow>, number: u32, flow: Flow) -> List<Flow>
    ensures { result ≡ slice_set flows number flow }
{
    let mut flows = flows.into_vec();
    if (number as usize) < flows.len() {
        flows[number as usize] = flow;
    }
    List::of(flows)
}

/// The nearest of the flows around one that ends.
fn nearest(alloc: Global, outer: &mut Pile<OpenFlow>) -> OpenFlow
    ensures flow { result ≡ making.nearest outer.old }
    ensures left { outer.new ≡ making.farther outer.old }
{
    match outer.pop() {
        Some(flow) => flow,
        None => open_flow(alloc, 0, false, List::new(alloc), no_boxes(alloc)),
    }
}

/// The height that the rows of a document may use.
fn bound_of(height: Option<Units>) -> Bound
    ensures { result ≡ document.bound_of height }
{
    match height {
        None => Bound::Free,
        Some(available) => Bound::Each(available),
    }
}

/// A list of the same numbers.
fn copied(alloc: Global, numbers: &[u32]) -> Result<List<u32>, NoMemory>
    ensures { IfOk result (λ list. list ≡ numbers.now) }
{
    let mut list = List::new(alloc);
    for number in numbers {
        list.push(*number)?;
    }
    Ok(list)
}

/// Nothing is made yet but stack 0, which is open.
pub fn begun(alloc: Global, width: Units, height: Option<Units>) -> Result<Parts, NoMemory>
    ensures { IfOk result (λ parts. parts ≡ making.begun width height) }
{
    let mut flows = List::new(alloc);
    flows.push(empty_flow(alloc))?;
    let mut stacks = List::new(alloc);
    stacks.push(Stack {
        flow: 0,
        w: width,
        bound: bound_of(height),
    })?;
    Ok(Parts {
        flow: open_flow(alloc, 0, true, List::new(alloc), no_boxes(alloc)),
        outer: Pile::new(alloc),
        flows,
        rows: List::new(alloc),
        stacks,
    })
}

/// A row of the columns of a container.
fn row_info(p: &Placed, flow: u32, x: Units, auto: bool) -> RowInfo
    requires { p.now.columns.n < 2 ^ 32 }
    ensures { result ≡ record {
      flow = flow;
      n = p.now.columns.n;
      w = p.now.columns.w;
      step = p.now.columns.step;
      x = x;
      auto =
          auto;
    } }
{
    RowInfo {
        flow,
        n: p.columns.n as u32,
        w: p.columns.w,
        step: p.columns.step,
        x,
        auto,
    }
}

impl Parts {
    ghost use Rattle.std.specs.Prelude.{◌≡◌, ◌^◌, ◌<◌, IfOk, All, length, slice_get};
    ghost use Rattle.box_data.specs.Content as content;
    ghost use Rattle.box_data.specs.DocumentFlows as document;
    ghost use Rattle.flow_maker.specs.Making as making;
    ghost use Rattle.flow_maker.specs.Premises.{IsSmall};

    /// The box with this number opens.
    fn opens(self, places: &[Placed], place: u32) -> Result<Parts, NoMemory>
        ensures { IfOk result (λ parts. parts ≡ making.at_box self (λ p. making.in_flow self (making.with_start self.flow p))
            (slice_get places.now place)) }
    {
        match places.get(place as usize) {
            None => Ok(self),
            Some(p) => {
                let mut parts = self;
                parts.flow = parts.flow.with_start(p)?;
                Ok(parts)
            }
        }
    }

    /// The box with this number closes.
    fn closes(self, places: &[Placed], place: u32) -> Result<Parts, NoMemory>
        ensures { IfOk result (λ parts. parts ≡ making.at_box self (λ p. making.in_flow self (making.with_close self.flow p))
            (slice_get places.now place)) }
    {
        match places.get(place as usize) {
            None => Ok(self),
            Some(p) => {
                let mut parts = self;
                parts.flow = parts.flow.with_close(p)?;
                Ok(parts)
            }
        }
    }

    /// An item of the innermost flow.
    fn item(self, alloc: Global, item: Item, counts: Option<LineCounts>) -> Result<Parts, NoMemory>
        ensures { IfOk result (λ parts. parts ≡ making.item_in self item counts) }
    {
        let mut parts = self;
        parts.flow = parts.flow.with_item(alloc, item, counts)?;
        Ok(parts)
    }

    /// A line of a box with its number there.
    fn sized_line(
        self,
        alloc: Global,
        p: &Placed,
        index: u32,
        size: Line,
    ) -> Result<Parts, NoMemory>
        requires { IsSmall p.now }
        ensures { IfOk result (λ parts. parts ≡ making.at_line self p.now index (Some size)) }
    {
        let item = line_item(p, index, size);
        let counts = line_counts(p, index);
        self.item(alloc, item, counts)
    }

    /// A line of a box, by its number there.
    fn line_of(self, alloc: Global, p: &Placed, index: u32) -> Result<Parts, NoMemory>
        requires { IsSmall p.now }
        ensures { IfOk result (λ parts. parts ≡ making.at_line self p.now index (slice_get p.now.lines index)) }
    {
        match p.lines.as_slice().get(index as usize) {
            None => Ok(self),
            Some(size) => self.sized_line(alloc, p, index, *size),
        }
    }

    /// A line of the box with this number.
    fn line(
        self,
        alloc: Global,
        places: &[Placed],
        place: u32,
        index: u32,
    ) -> Result<Parts, NoMemory>
        requires { All IsSmall places.now }
        ensures { IfOk result (λ parts. parts ≡ making.at_box self (λ p. making.at_line self p index (slice_get p.lines index))
            (slice_get places.now place)) }
    {
        match places.get(place as usize) {
            None => Ok(self),
            Some(p) => self.line_of(alloc, p, index),
        }
    }

    /// The image that is the box with this number.
    fn image(self, alloc: Global, places: &[Placed], place: u32) -> Result<Parts, NoMemory>
        ensures { IfOk result (λ parts. parts ≡ making.at_box self (λ p. making.item_in self (document.leaf_item
            (content.image p)) None) (slice_get places.now place)) }
    {
        match places.get(place as usize) {
            None => Ok(self),
            Some(p) => self.item(alloc, image_item(p), None),
        }
    }

    /// A void of the box with this number.
    fn void(self, alloc: Global, places: &[Placed], place: u32, x: Units) -> Result<Parts, NoMemory>
        ensures { IfOk result (λ parts. parts ≡ making.at_box self (λ p. making.item_in self (document.leaf_item
            (content.void p x)) None)
            (slice_get places.now place)) }
    {
        match places.get(place as usize) {
            None => Ok(self),
            Some(p) => self.item(alloc, void_item(p, x), None),
        }
    }

    /// The stack of a container with a height, which is the innermost flow now.
    fn stack_of(self, alloc: Global, p: &Placed) -> Result<Parts, NoMemory>
        requires flows { length self.flows < 2 ^ 32 }
        requires stacks { length self.stacks < 2 ^ 32 }
        ensures { IfOk result (λ parts. parts ≡ making.stack_in self p.now) }
    {
        let Parts {
            flow,
            mut outer,
            mut flows,
            rows,
            mut stacks,
        } = self;
        let number = flows.len() as u32;
        let kind = AtomKind::Bounded {
            owner: p.number,
            stack: stacks.len() as u32,
            x: p.content_x,
        };
        outer.push(flow.with_item(alloc, Item::Atom { height: p.h, kind }, None)?)?;
        flows.push(empty_flow(alloc))?;
        stacks.push(Stack {
            flow: number,
            w: p.w,
            bound: Bound::Left(p.h),
        })?;
        Ok(Parts {
            flow: open_flow(alloc, number, true, List::new(alloc), no_boxes(alloc)),
            outer,
            flows,
            rows,
            stacks,
        })
    }

    /// The stack of the box with this number.
    fn stack(self, alloc: Global, places: &[Placed], place: u32) -> Result<Parts, NoMemory>
        requires flows { length self.flows < 2 ^ 32 }
        requires stacks { length self.stacks < 2 ^ 32 }
        ensures { IfOk result (λ parts. parts ≡ making.at_box self (λ p. making.stack_in self p) (slice_get places.now place)) }
    {
        match places.get(place as usize) {
            None => Ok(self),
            Some(p) => self.stack_of(alloc, p),
        }
    }

    /// A row of a container, which is the innermost flow now, with the boxes that are open where it begins.
    fn row_of(
        self,
        alloc: Global,
        p: &Placed,
        x: Units,
        is_last: bool,
        opened: List<u32>,
        around: Around,
    ) -> Result<Parts, NoMemory>
        requires flows { length self.flows < 2 ^ 32 }
        requires rows { length self.rows < 2 ^ 32 }
        requires columns { p.now.columns.n < 2 ^ 32 }
        ensures { IfOk result (λ parts. parts ≡ making.row_in self p.now x is_last opened around) }
    {
        let Parts {
            flow,
            mut outer,
            mut flows,
            mut rows,
            stacks,
        } = self;
        let number = flows.len() as u32;
        let auto = flow.in_stack && p.style.fill_auto && is_last;
        let item = Item::Row(rows.len() as u32);
        outer.push(flow.with_item(alloc, item, None)?)?;
        flows.push(empty_flow(alloc))?;
        rows.push(row_info(p, number, x, auto))?;
        Ok(Parts {
            flow: open_flow(alloc, number, false, opened, around),
            outer,
            flows,
            rows,
            stacks,
        })
    }

    /// A row of the box with this number.
    fn row(
        self,
        alloc: Global,
        places: &[Placed],
        place: u32,
        x: Units,
        is_last: bool,
        opened: &[u32],
    ) -> Result<Parts, NoMemory>
        requires flows { length self.flows < 2 ^ 32 }
        requires rows { length self.rows < 2 ^ 32 }
        requires small { All IsSmall places.now }
        ensures { IfOk result (λ parts. parts ≡ making.at_box self (λ p. making.row_in self p x is_last opened.now
            (making.within places.now making.no_boxes opened.now)) (slice_get places.now place)) }
    {
        match places.get(place as usize) {
            None => Ok(self),
            Some(p) => {
                let around = within(alloc, places, opened)?;
                self.row_of(alloc, p, x, is_last, copied(alloc, opened)?, around)
            }
        }
    }

    /// The end of the innermost flow.
    pub fn close(self, alloc: Global) -> Result<Parts, NoMemory>
        ensures { IfOk result (λ parts. parts ≡ making.close self) }
    {
        let Parts {
            flow,
            mut outer,
            flows,
            rows,
            stacks,
        } = self;
        let number = flow.flow;
        let flow = flow.closed()?;
        Ok(Parts {
            flow: nearest(alloc, &mut outer),
            outer,
            flows: with_flow(flows, number, flow),
            rows,
            stacks,
        })
    }

    /// A mark. A spanner stands in no flow.
    pub fn take(self, alloc: Global, places: &[Placed], mark: &Mark) -> Result<Parts, NoMemory>
        requires flows { length self.flows < 2 ^ 32 }
        requires rows { length self.rows < 2 ^ 32 }
        requires stacks { length self.stacks < 2 ^ 32 }
        requires small { All IsSmall places.now }
        ensures { IfOk result (λ parts. parts ≡ making.step places.now self mark.now) }
    {
        match mark {
            Mark::Opens { place } => self.opens(places, *place),
            Mark::Closes { place } => self.closes(places, *place),
            Mark::Line { place, index } => self.line(alloc, places, *place, *index),
            Mark::Image { place } => self.image(alloc, places, *place),
            Mark::Void { place, x } => self.void(alloc, places, *place, *x),
            Mark::Stack { place } => self.stack(alloc, places, *place),
            Mark::Row {
                place,
                x,
                is_last,
                opened,
            } => self.row(alloc, places, *place, *x, *is_last, opened.as_slice()),
            Mark::Spanner => Ok(self),
            Mark::End => self.close(alloc),
        }
    }
}

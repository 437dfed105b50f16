//! Rows one inside another, and the items in them.

ghost use Rattle.std.specs.Prelude.{◌≡◌, IfOk};
ghost use Rattle.doc_limits.specs.Tallies as tallies;

use box_data::Mark;
use flow_text::Pile;
use mc_base::NoMemory;
use std::alloc::Global;

/// A flow that isn't ended: how many rows it stands in, up to its stack and with itself, and how many items it has so far.
/// No row counts after the fourth, and no item after the 2001st.
#[derive(Clone, Copy)]
pub struct OpenFlow {
    pub depth: u32,
    pub items: u32,
}

/// The innermost open flow and those around it, the nearest first; how many rows stand one inside another at most; and the most
/// items of a row that stands in another.
#[derive(Drop)]
pub struct Nests {
    pub flow: OpenFlow,
    pub outer: Pile<OpenFlow>,
    pub deepest: u32,
    pub most: u32,
}

/// A flow without items.
fn empty(depth: u32) -> OpenFlow
    ensures { result ≡ tallies.empty depth }
{
    OpenFlow { depth, items: 0 }
}

/// A flow with an item more.
fn with_item(flow: OpenFlow) -> OpenFlow
    ensures { result ≡ tallies.with_item flow }
{
    OpenFlow {
        depth: flow.depth,
        items: flow.items.saturating_add(1).min(2001),
    }
}

/// How many rows a row in a flow stands in, with itself.
fn deeper(depth: u32) -> u32
    ensures { result ≡ tallies.deeper depth }
{
    depth.saturating_add(1).min(4)
}

/// The most items of a row inside another, with the flow that ends.
fn most_with(flow: OpenFlow, most: u32) -> u32
    ensures { result ≡ tallies.most_with flow most }
{
    if flow.depth > 1 {
        most.max(flow.items)
    } else {
        most
    }
}

/// Nothing is counted yet but the flow of stack 0.
pub fn begun(alloc: Global) -> Nests
    ensures { result ≡ tallies.begun }
{
    Nests {
        flow: empty(0),
        outer: Pile::new(alloc),
        deepest: 0,
        most: 0,
    }
}

/// The nearest of the flows around one that ends.
fn nearest(outer: &mut Pile<OpenFlow>) -> OpenFlow
    ensures flow { result ≡ tallies.nearest outer.old }
    ensures left { outer.new ≡ tallies.farther outer.old }
{
    match outer.pop() {
        Some(flow) => flow,
        None => empty(0),
    }
}

impl Nests {
    ghost use Rattle.std.specs.Prelude.{◌≡◌, IfOk};
    ghost use Rattle.doc_limits.specs.Tallies as tallies;

    /// An item without a flow of its own.
    fn leaf(self) -> Nests
        ensures { result ≡ tallies.leaf_in self }
    {
        let mut nests = self;
        nests.flow = with_item(nests.flow);
        nests
    }

    /// An item whose flow is the innermost one now.
    fn held(self, depth: u32) -> Result<Nests, NoMemory>
        ensures { IfOk result (λ nests. nests ≡ tallies.held_in self depth) }
    {
        let Nests {
            flow,
            mut outer,
            deepest,
            most,
        } = self;
        outer.push(with_item(flow))?;
        Ok(Nests {
            flow: empty(depth),
            outer,
            deepest: deepest.max(depth),
            most,
        })
    }

    /// The end of the innermost flow.
    pub fn close(self) -> Nests
        ensures { result ≡ tallies.close self }
    {
        let Nests {
            flow,
            mut outer,
            deepest,
            most,
        } = self;
        Nests {
            flow: nearest(&mut outer),
            outer,
            deepest,
            most: most_with(flow, most),
        }
    }

    /// A mark.
    pub fn take(self, mark: &Mark) -> Result<Nests, NoMemory>
        ensures { IfOk result (λ nests. nests ≡ tallies.step self mark.now) }
    {
        match mark {
            Mark::Opens { .. } | Mark::Closes { .. } | Mark::Spanner => Ok(self),
            Mark::Line { .. } | Mark::Image { .. } | Mark::Void { .. } => Ok(self.leaf()),
            Mark::Stack { .. } => self.held(0),
            Mark::Row { .. } => {
                let depth = deeper(self.flow.depth);
                self.held(depth)
            }
            Mark::End => Ok(self.close()),
        }
    }
}

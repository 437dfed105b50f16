//! Flows that aren't ended.

ghost use Rattle.std.specs.Prelude.{◌≡◌};
ghost use Rattle.flow_maker.specs.Making as making;

use crate::seam::{Around, OpenSeam, Stage, fresh};
use box_data::Placed;
use break_rules::LineCounts;
use flow_data::{Flow, Item, Seam};
use mc_base::{List, NoMemory};
use std::alloc::Global;

/// A flow that isn't ended: its number, whether it is a stack's, the boxes that were open where it began, its items and
/// seams so far, the seam in progress, and the boxes that are open.
#[derive(Drop)]
pub struct OpenFlow {
    pub flow: u32,
    pub in_stack: bool,
    pub opened: List<u32>,
    pub items: List<Item>,
    pub seams: List<Seam>,
    pub seam: OpenSeam,
    pub around: Around,
}

/// A flow in which nothing stands yet.
pub fn open_flow(
    alloc: Global,
    flow: u32,
    in_stack: bool,
    opened: List<u32>,
    around: Around,
) -> OpenFlow
    ensures { result ≡ making.open_flow flow in_stack opened around }
{
    OpenFlow {
        flow,
        in_stack,
        opened,
        items: List::new(alloc),
        seams: List::new(alloc),
        seam: fresh(alloc, Stage::First),
        around,
    }
}

impl OpenFlow {
    ghost use Rattle.std.specs.Prelude.{◌≡◌, IfOk};
    ghost use Rattle.flow_maker.specs.Making as making;

    /// A box opens.
    pub fn with_start(self, p: &Placed) -> Result<OpenFlow, NoMemory>
        ensures { IfOk result (λ o. o ≡ making.with_start self p.now) }
    {
        let OpenFlow {
            flow,
            in_stack,
            opened,
            items,
            seams,
            seam,
            around,
        } = self;
        Ok(OpenFlow {
            flow,
            in_stack,
            opened,
            items,
            seams,
            seam: seam.opened(around.avoid, p)?,
            around: around.entered(p)?,
        })
    }

    /// A box closes.
    pub fn with_close(self, p: &Placed) -> Result<OpenFlow, NoMemory>
        ensures { IfOk result (λ o. o ≡ making.with_close self p.now) }
    {
        let OpenFlow {
            flow,
            in_stack,
            opened,
            items,
            seams,
            seam,
            around,
        } = self;
        Ok(OpenFlow {
            flow,
            in_stack,
            opened,
            items,
            seams,
            seam: seam.closed(p)?,
            around: around.exited(),
        })
    }

    /// An item, which ends the seam before it; a line with its counts.
    pub fn with_item(
        self,
        alloc: Global,
        item: Item,
        counts: Option<LineCounts>,
    ) -> Result<OpenFlow, NoMemory>
        ensures { IfOk result (λ o. o ≡ making.with_item self item counts) }
    {
        let OpenFlow {
            flow,
            in_stack,
            opened,
            mut items,
            mut seams,
            seam,
            around,
        } = self;
        seams.push(seam.before_item(around.avoid, counts))?;
        items.push(item)?;
        Ok(OpenFlow {
            flow,
            in_stack,
            opened,
            items,
            seams,
            seam: fresh(alloc, Stage::Direct),
            around,
        })
    }

    /// The flow, at its end.
    pub fn closed(self) -> Result<Flow, NoMemory>
        ensures { IfOk result (λ flow. flow ≡ making.closed self) }
    {
        let OpenFlow {
            flow: _,
            in_stack: _,
            opened,
            items,
            mut seams,
            seam,
            around: _,
        } = self;
        seams.push(seam.last())?;
        Ok(Flow {
            opened,
            items,
            seams,
        })
    }
}

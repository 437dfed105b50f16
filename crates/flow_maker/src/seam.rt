//! The boxes that are open in a flow, and the seam in progress.

ghost use Rattle.std.specs.Prelude.{◌≡◌, ◌∷◌, [], ◌++◌, ◌||◌, IfOk, slice_get, drop};
ghost use Rattle.flow_maker.specs.Making as making;

use crate::edges::{with_closing, with_opening};
use box_data::Placed;
use break_rules::{BreakValue, LineCounts, SeamBoxes, level};
use flow_data::{Edge, Seam};
use flow_text::Pile;
use mc_base::{Level, List, NoMemory};
use std::alloc::Global;

/// Whether one of the boxes that are open in a flow avoids a break inside, and the same for those around each of them, the
/// innermost first.
#[derive(Drop)]
pub struct Around {
    pub avoid: bool,
    pub outer: Pile<bool>,
}

/// How far a seam is: before the first item of its flow, directly after an item, with boxes that close, or with boxes that
/// open.
#[derive(Clone, Copy)]
pub enum Stage {
    First,
    Direct,
    Closing,
    Opening,
}

/// A seam in progress: its edges, the break values of the boxes that close and open there, and, once a box has opened,
/// whether a box that is open across the seam avoids a break inside.
#[derive(Drop)]
pub struct OpenSeam {
    pub tail: List<Edge>,
    pub head: List<Edge>,
    pub after: List<BreakValue>,
    pub before: List<BreakValue>,
    pub inside: bool,
    pub stage: Stage,
}

/// No box is open.
pub fn no_boxes(alloc: Global) -> Around
    ensures { result ≡ making.no_boxes }
{
    Around {
        avoid: false,
        outer: Pile::new(alloc),
    }
}

impl Around {
    ghost use Rattle.std.specs.Prelude.{◌≡◌, IfOk, slice_get};
    ghost use Rattle.flow_maker.specs.Making as making;

    /// One box more is open.
    pub fn entered(self, p: &Placed) -> Result<Around, NoMemory>
        ensures { IfOk result (λ a. a ≡ making.entered self p.now) }
    {
        let Around { avoid, mut outer } = self;
        outer.push(avoid)?;
        Ok(Around {
            avoid: p.style.avoid_inside || avoid,
            outer,
        })
    }

    /// The same of the box with this number, if there is one.
    pub fn entered_one(self, places: &[Placed], place: u32) -> Result<Around, NoMemory>
        ensures { IfOk result (λ a. a ≡ making.entered_one self (slice_get places.now place)) }
    {
        match places.get(place as usize) {
            None => Ok(self),
            Some(p) => self.entered(p),
        }
    }

    /// The innermost box is open no more.
    pub fn exited(self) -> Around
        ensures { result ≡ making.exited self }
    {
        let Around {
            avoid: _,
            mut outer,
        } = self;
        match outer.pop() {
            None => Around {
                avoid: false,
                outer,
            },
            Some(avoid) => Around { avoid, outer },
        }
    }
}

/// These boxes are open, the outermost first.
pub fn within(alloc: Global, places: &[Placed], opened: &[u32]) -> Result<Around, NoMemory>
    ensures { IfOk result (λ a. a ≡ making.within places.now making.no_boxes opened.now) }
{
    let mut around = no_boxes(alloc);
    for place in opened {
        around = around.entered_one(places, *place)?;
    }
    Ok(around)
}

/// A seam in which nothing stands yet.
pub fn fresh(alloc: Global, stage: Stage) -> OpenSeam
    ensures { result ≡ making.fresh stage }
{
    OpenSeam {
        tail: List::new(alloc),
        head: List::new(alloc),
        after: List::new(alloc),
        before: List::new(alloc),
        inside: false,
        stage,
    }
}

/// The values, and this one after them.
fn with_value(values: List<BreakValue>, value: BreakValue) -> Result<List<BreakValue>, NoMemory>
    ensures { IfOk result (λ vs. vs ≡ values ++ value ∷ []) }
{
    let mut values = values;
    values.push(value)?;
    Ok(values)
}

impl Stage {
    ghost use Rattle.std.specs.Prelude.{◌≡◌};
    ghost use Rattle.flow_maker.specs.Making as making;

    /// How far the seam is once a box has opened.
    fn opened(self) -> Stage
        ensures { result ≡ making.stage_opened self }
    {
        match self {
            Stage::First => Stage::First,
            Stage::Direct | Stage::Closing | Stage::Opening => Stage::Opening,
        }
    }

    /// Whether a box that is open across the seam avoids a break inside.
    fn inside(self, inside: bool, avoid: bool) -> bool
        ensures { result ≡ making.inside_of self inside avoid }
    {
        match self {
            Stage::Opening => inside,
            Stage::First | Stage::Direct | Stage::Closing => avoid,
        }
    }

    /// Whether a box that closes belongs to the seam.
    fn takes_ends(self) -> bool
        ensures { result ≡ making.takes_ends self }
    {
        match self {
            Stage::Direct | Stage::Closing => true,
            Stage::First | Stage::Opening => false,
        }
    }

    /// The counts of lines, where nothing stands between the lines.
    fn counts(self, counts: Option<LineCounts>) -> Option<LineCounts>
        ensures { result ≡ making.counts_at self counts }
    {
        match self {
            Stage::Direct => counts,
            Stage::First | Stage::Closing | Stage::Opening => None,
        }
    }

    /// The level of the seam, with these boxes there.
    fn level(self, boxes: &SeamBoxes) -> Level
        ensures { result ≡ making.level_at self boxes.now }
    {
        match self {
            Stage::First => Level::L0,
            Stage::Direct | Stage::Closing | Stage::Opening => level(boxes),
        }
    }
}

impl OpenSeam {
    ghost use Rattle.std.specs.Prelude.{◌≡◌, IfOk};
    ghost use Rattle.flow_maker.specs.Making as making;

    /// A box opens, where `avoid` says whether a box that is open avoids a break inside.
    pub fn opened(self, avoid: bool, p: &Placed) -> Result<OpenSeam, NoMemory>
        ensures { IfOk result (λ s. s ≡ making.seam_opened self avoid p.now) }
    {
        let OpenSeam {
            tail,
            head,
            after,
            before,
            inside,
            stage,
        } = self;
        Ok(OpenSeam {
            tail,
            head: with_opening(head, p)?,
            after,
            before: with_value(before, p.style.break_before)?,
            inside: stage.inside(inside, avoid),
            stage: stage.opened(),
        })
    }

    /// A box closes that belongs to the seam.
    fn with_end(self, p: &Placed) -> Result<OpenSeam, NoMemory>
        ensures { IfOk result (λ s. s ≡ making.with_end self p.now) }
    {
        let OpenSeam {
            tail,
            head,
            after,
            before,
            inside,
            stage: _,
        } = self;
        Ok(OpenSeam {
            tail: with_closing(tail, p)?,
            head,
            after: with_value(after, p.style.break_after)?,
            before,
            inside,
            stage: Stage::Closing,
        })
    }

    /// A box closes.
    pub fn closed(self, p: &Placed) -> Result<OpenSeam, NoMemory>
        ensures { IfOk result (λ s. s ≡ making.seam_closed self p.now) }
    {
        if self.stage.takes_ends() {
            self.with_end(p)
        } else {
            Ok(self)
        }
    }

    /// The seam before an item, with these counts if it is a line.
    pub fn before_item(self, avoid: bool, counts: Option<LineCounts>) -> Seam
        ensures { result ≡ making.seam_before self avoid counts }
    {
        let OpenSeam {
            tail,
            head,
            after,
            before,
            inside,
            stage,
        } = self;
        let boxes = SeamBoxes {
            after,
            before,
            inside_avoid: stage.inside(inside, avoid),
            lines: stage.counts(counts),
        };
        Seam {
            tail,
            head,
            level: stage.level(&boxes),
        }
    }

    /// The last seam of a flow.
    pub fn last(self) -> Seam
        ensures { result ≡ making.last_seam self }
    {
        Seam {
            tail: self.tail,
            head: self.head,
            level: Level::L0,
        }
    }
}

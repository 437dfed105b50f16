//! What the boxes that are open at a place have again at a break there.

ghost use Rattle.std.specs.Prelude.{◌≡◌, ℕ, ◌<◌, All, List, cond, length, [], ◌∷◌};
ghost use Rattle.std.specs.List.{flat_map};
ghost use Rattle.flow_data.specs.declared.data.FlowsData.{FlowsData};
ghost use Rattle.flow_data.specs.Flows.{ended, started};
ghost use Rattle.flow_list.specs.ClonedEdges.{any_avoids};
ghost use Rattle.column_strip.specs.Boxes.{HasAmong, HasRoom, IsOf, IsWith};

use flow_list::{Edge, Flows, box_at};
use mc_base::Units;

/// The cloned edges of some open boxes above and below a break, in units, and how many of these boxes avoid a break inside.
#[derive(Clone, Copy)]
pub struct OpenBoxes {
    pub tops: Units,
    pub bottoms: Units,
    pub avoiding: u64,
}

/// One for a box that avoids a break inside.
fn counted(avoid: bool) -> u64
    ensures { result ≡ cond avoid 1 0 }
{
    if avoid { 1 } else { 0 }
}

impl OpenBoxes {
    /// No boxes.
    pub fn none() -> OpenBoxes
        ensures tops { result.tops ≡ 0 }
        ensures bottoms { result.bottoms ≡ 0 }
        ensures avoiding { result.avoiding ≡ 0 }
    {
        OpenBoxes {
            tops: 0,
            bottoms: 0,
            avoiding: 0,
        }
    }

    /// Whether one of them avoids a break inside.
    pub fn avoids(self) -> bool
        ensures { (d : FlowsData) (boxes : List ℕ) → IsOf d boxes self → result ≡ any_avoids d boxes }
    {
        self.avoiding > 0
    }

    fn with(self, flows: &Flows, number: u32) -> OpenBoxes
        requires known { number < length flows.now.boxes }
        requires room { HasRoom flows.now self (number ∷ []) }
        ensures { IsWith flows.now self (number ∷ []) result }
    {
        let info = box_at(flows, number);
        OpenBoxes {
            tops: self.tops + info.top,
            bottoms: self.bottoms + info.bottom,
            avoiding: self.avoiding + counted(info.avoid),
        }
    }

    fn without(self, flows: &Flows, number: u32) -> OpenBoxes
        requires known { number < length flows.now.boxes }
        requires among { HasAmong flows.now self (number ∷ []) }
        ensures { IsWith flows.now result (number ∷ []) self }
    {
        let info = box_at(flows, number);
        OpenBoxes {
            tops: self.tops - info.top,
            bottoms: self.bottoms - info.bottom,
            avoiding: self.avoiding - counted(info.avoid),
        }
    }

    /// These with the boxes of these numbers.
    pub fn with_all(self, flows: &Flows, boxes: &[u32]) -> OpenBoxes
        requires known { All (λ b. b < length flows.now.boxes) boxes.now }
        requires room { HasRoom flows.now self boxes.now }
        ensures { IsWith flows.now self boxes.now result }
    {
        let mut open = self;
        for number in boxes {
            open = open.with(flows, *number);
        }
        open
    }

    fn after_start(self, flows: &Flows, edge: Edge) -> OpenBoxes
        requires known { All (λ b. b < length flows.now.boxes) (started edge) }
        requires room { HasRoom flows.now self (started edge) }
        ensures { IsWith flows.now self (started edge) result }
    {
        match edge {
            Edge::Start(number) => self.with(flows, number),
            _ => self,
        }
    }

    fn after_end(self, flows: &Flows, edge: Edge) -> OpenBoxes
        requires known { All (λ b. b < length flows.now.boxes) (ended edge) }
        requires among { HasAmong flows.now self (ended edge) }
        ensures { IsWith flows.now result (ended edge) self }
    {
        match edge {
            Edge::End(number) => self.without(flows, number),
            _ => self,
        }
    }

    /// What is left after the tail of a seam, in which some of the boxes end.
    pub fn after_tail(self, flows: &Flows, tail: &[Edge]) -> OpenBoxes
        requires known { All (λ edge. All (λ b. b < length flows.now.boxes) (ended edge)) tail.now }
        requires among { HasAmong flows.now self (flat_map ended tail.now) }
        ensures { IsWith flows.now result (flat_map ended tail.now) self }
    {
        let mut open = self;
        for edge in tail {
            open = open.after_end(flows, *edge);
        }
        open
    }

    /// What there is after the head of a seam, in which more boxes start.
    pub fn after_head(self, flows: &Flows, head: &[Edge]) -> OpenBoxes
        requires known { All (λ edge. All (λ b. b < length flows.now.boxes) (started edge)) head.now }
        requires room { HasRoom flows.now self (flat_map started head.now) }
        ensures { IsWith flows.now self (flat_map started head.now) result }
    {
        let mut open = self;
        for edge in head {
            open = open.after_start(flows, *edge);
        }
        open
    }
}

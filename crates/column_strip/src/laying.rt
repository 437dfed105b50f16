//! Laying edges and items one under another.

ghost use Rattle.std.specs.Prelude.{◌≡◌, ◌+◌, ◌<◌, ◌≤◌, ◌^◌, sum_by};
ghost use Rattle.flow_data.specs.Flows.{amount};

use flow_list::Edge;
use mc_base::Units;

/// How far a strip reaches, the margin that is pending at its end, and whether margins are still dropped
/// (CSS 2.1, section 8.3.1, and CSS Fragmentation 3, section 5.2).
#[derive(Clone, Copy)]
pub struct Laying {
    pub y: Units,
    pub pending: Units,
    pub drops: bool,
}

impl Laying {
    ghost use Rattle.flow_list.specs.Strip.{strip_at, put, lay, lay_all};
    ghost use Rattle.column_strip.specs.Strips.{strip_of};

    /// The strip that begins at `y`.
    pub fn new(y: Units, drops: bool) -> Laying
        ensures { strip_of result ≡ strip_at y drops }
    {
        Laying {
            y,
            pending: 0,
            drops,
        }
    }

    /// Lays a solid amount or an item, of this height.
    pub fn put(self, height: Units) -> Laying
        requires { self.y + self.pending + height < 2 ^ 63 }
        ensures { strip_of result ≡ put (strip_of self) height }
    {
        if height == 0 {
            self
        } else {
            Laying {
                y: self.y + self.pending + height,
                pending: 0,
                drops: false,
            }
        }
    }

    fn lay(self, edge: Edge) -> Laying
        requires { self.y + self.pending + amount edge < 2 ^ 63 }
        ensures { strip_of result ≡ lay (strip_of self) edge }
    {
        match edge {
            Edge::Margin(margin) => Laying {
                y: self.y,
                pending: if self.drops || margin <= self.pending {
                    self.pending
                } else {
                    margin
                },
                drops: self.drops,
            },
            Edge::Solid(amount) => self.put(amount),
            Edge::Wall => Laying {
                y: self.y + self.pending,
                pending: 0,
                drops: false,
            },
            Edge::Start(_) | Edge::End(_) => self,
        }
    }

    /// Lays these edges.
    pub fn lay_all(self, edges: &[Edge]) -> Laying
        requires { self.y + self.pending + sum_by amount edges.now < 2 ^ 63 }
        ensures strip { strip_of result ≡ lay_all (strip_of self) edges.now }
        ensures room { result.y + result.pending ≤ self.y + self.pending + sum_by amount edges.now }
    {
        let mut at = self;
        for edge in edges {
            at = at.lay(*edge);
        }
        at
    }

    /// Lays an item of this height, and the edges after it.
    pub fn past(self, height: Units, tail: &[Edge]) -> Laying
        requires { self.y + self.pending + height + sum_by amount tail.now < 2 ^ 63 }
        ensures strip { strip_of result ≡ lay_all (put (strip_of self) height) tail.now }
        ensures room { result.y + result.pending ≤ self.y + self.pending + height + sum_by amount tail.now }
    {
        self.put(height).lay_all(tail)
    }
}

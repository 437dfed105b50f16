//! What is open, the innermost first.

use std::alloc::{AllocFailed, Global};
use std::marker::Model;

/// A pile: contracts see its items from the top down.
#[derive(Drop)]
pub struct Pile<T> {
    items: Vec<T>,
}

impl<T> Model for Pile<T> {
    ghost use Rattle.std.specs.Prelude.{List, reverse};
    ghost use base.Stored.{coded_list};

    ghost Value = { List T };

    ghost coded = { coded_list T.code };

    ghost view = { λ s. reverse s.items.items };
}

impl<T> Pile<T> {
    ghost use Rattle.std.specs.Prelude.{◌≡◌, ◌==◌, [], ◌∷◌, length, OnOk, OnErr, MatchOption};

    /// The empty pile. It takes no memory.
    pub fn new(alloc: Global) -> Self
        ensures { result ≡ [] }
    {
        Pile {
            items: Vec::new(alloc),
        }
    }

    /// Puts an item on the top. When out of memory, the pile is as before.
    pub fn push(&mut self, item: T) -> Result<(), AllocFailed<T>>
        ensures ok { OnOk result (self.new ≡ item ∷ self.old) }
        ensures err { OnErr result (self.new ≡ self.old) }
    {
        self.items.push(item)
    }

    pub fn is_empty(&self) -> bool
        ensures { result ≡ (length self.now == 0) }
    {
        self.items.is_empty()
    }

    /// Takes the item from the top.
    pub fn pop(&mut self) -> Option<T>
        ensures { MatchOption result ((self.old ≡ []) × (self.new ≡ [])) (λ top. self.old ≡ top ∷ self.new) }
    {
        self.items.pop()
    }
}

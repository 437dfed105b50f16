//! The book of sizes: of rows, from places in them on, in the order in which they were entered.

ghost use Rattle.std.specs.Prelude.{◌≡◌, ◌<◌, [], ◌∷◌, ◌++◌, false, IfErr, OnOk, OnErr, length, slice_get, Some};
ghost use Rattle.std.specs.Option.{option_copied};
ghost use Rattle.flow_list.specs.Certificate.{stands_in};
ghost use Rattle.flow_list.specs.Entries.{entry_for, uses_in};
ghost use Rattle.flow_list.specs.ResultText.{number_in};

use crate::place::Place;
use crate::range::Range;
use indexmap::IndexMap;
use mc_base::{List, Token, Units};
use std::alloc::Global;
use std::marker::Model;

/// The size of a row from a place in it on, in units, with the ranges of all lesser heights.
#[derive(Drop)]
pub struct SizeEntry {
    pub row: u32,
    pub from: Token,
    pub height: Units,
    pub ranges: List<Range>,
}

/// A book of sizes. Contracts see its entries, in the order in which they were entered.
#[derive(Drop)]
pub struct Book {
    sizes: IndexMap<Place, SizeEntry>,
}

impl Model for Book {
    ghost use Rattle.std.specs.Prelude.{◌≡◌, List as Items, map};
    ghost use Rattle.indexmap.specs.IndexMap.{keys, values};
    ghost use Rattle.flow_list.specs.Entries.{place_of};
    ghost use Rattle.flow_list.specs.declared.book.SizeEntry.{SizeEntry as Entry};

    ghost Value = { Items Entry };

    ghost view = { λ b. values b.sizes };

    ghost invariant = { λ b. keys b.sizes ≡ map place_of (values b.sizes) };
}

impl Book {
    /// A book without entries. It takes no memory.
    pub fn new(alloc: Global) -> Book
        ensures { result ≡ [] }
    {
        Book {
            sizes: IndexMap::new(alloc),
        }
    }

    /// The entry of a row from a place on, if it is there. It takes no memory.
    pub fn find(&self, row: u32, from: &Token) -> Option<&SizeEntry>
        ensures { option_copied result ≡ entry_for self.now (row, from.now) }
    {
        let place = Place {
            row,
            from: from.copy(),
        };
        self.sizes.get(&place)
    }

    /// The number of the entry of a row from a place on: how many entries stand before it, or how many there are where it isn't
    /// there. It takes no memory.
    pub fn number(&self, row: u32, from: &Token) -> u64
        ensures { result ≡ number_in (uses_in self.now) (row, from.now) }
    {
        let place = Place {
            row,
            from: from.copy(),
        };
        match self.sizes.get_index_of(&place) {
            Some(number) => number as u64,
            None => self.count(),
        }
    }

    /// Adds the entry of a row and a place that has none, at the end. Want of memory hands the entry back, and the book is
    /// as before.
    pub fn enter(&mut self, entry: SizeEntry) -> Result<(), SizeEntry>
        requires { stands_in (uses_in self.old) (entry.row, entry.from) ≡ false }
        ensures ok { OnOk result (self.new ≡ self.old ++ entry ∷ []) }
        ensures err { OnErr result (self.new ≡ self.old) }
        ensures back { IfErr result (λ back. back ≡ entry) }
    {
        let place = Place {
            row: entry.row,
            from: entry.from.copy(),
        };
        if let Err(failed) = self.sizes.insert(place, entry) {
            return Err(failed.value.1);
        }
        Ok(())
    }

    /// The number of entries.
    pub fn count(&self) -> u64
        ensures { result ≡ length self.now }
    {
        self.sizes.len() as u64
    }

    /// Entry `i`, counted from 0.
    pub fn at(&self, i: u64) -> &SizeEntry
        requires { i < length self.now }
        ensures { slice_get self.now i ≡ Some result.now }
    {
        &self.sizes[i as usize]
    }
}

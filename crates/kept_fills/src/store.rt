//! Kept fills by their keys.

ghost use Rattle.std.specs.Prelude.{◌≡◌, ℕ, ◌<◌, ◌≤◌, IfSome, List, OnOk, Some, length, nat_le};
ghost use Rattle.std.specs.Option.{option_copied};
ghost use Rattle.flow_data.specs.declared.data.FlowsData.{FlowsData};
ghost use Rattle.flow_list.specs.Tokens.{Token as Place};
ghost use Rattle.flow_list.specs.declared.book.SizeEntry.{SizeEntry};
ghost use Rattle.frag_pool.specs.Nodes.{Nodes};
ghost use Rattle.inner_rows.specs.Keeping.{IsKeptFill};
ghost use Rattle.kept_fills.specs.Keeping.{AreKept, kept_at};

use crate::key::FillKey;
use indexmap::IndexMap;
use inner_rows::Filled;
use mc_base::{NoMemory, Token, Units};
use std::alloc::Global;

/// The most fills that are kept.
const MOST: usize = 1024;

/// Fills by row, token and height.
#[derive(Drop)]
pub struct KeptFills {
    fills: IndexMap<FillKey, Filled>,
}

impl KeptFills {
    /// None are kept. It takes no memory.
    pub fn new(alloc: Global) -> KeptFills
        ensures { (d : FlowsData) (b : List SizeEntry) (p : Nodes) → AreKept d b p result }
    {
        KeptFills {
            fills: IndexMap::new(alloc),
        }
    }

    /// What is kept of a row, from a place on and at a height in units. It takes no memory.
    pub fn find(&self, row: u32, from: &Token, height: Units) -> Option<&Filled>
        ensures found { option_copied result ≡ kept_at self.now row from.now height }
        ensures kept { (d : FlowsData) (b : List SizeEntry) (p : Nodes) → AreKept d b p self.now →
            IfSome result (λ fill. IsKeptFill d b p row from.now height fill.now) }
    {
        let key = FillKey {
            row,
            height,
            from: from.copy(),
        };
        self.fills.get(&key)
    }

    /// Keeps a fill, unless as many are kept as may be. All others stay. When out of memory, none is added.
    pub fn keep(
        &mut self,
        row: u32,
        from: &Token,
        height: Units,
        fill: Filled,
    ) -> Result<(), NoMemory>
        ensures added { OnOk result (length self.old.fills.entries < 1024 → kept_at self.new row from.now height ≡ Some fill) }
        ensures others { (r : ℕ) (q : Place) (h : ℕ) → ¬ ((r ≡ row) × (q ≡ from.now) × (h ≡ height)) →
            kept_at self.new r q h ≡ kept_at self.old r q h }
        ensures full { 1024 ≤ length self.old.fills.entries → self.new ≡ self.old }
        ensures kept { (d : FlowsData) (b : List SizeEntry) (p : Nodes) → AreKept d b p self.old →
            IsKeptFill d b p row from.now height fill → AreKept d b p self.new }
    {
        if self.is_full() {
            return Ok(());
        }
        let key = FillKey {
            row,
            height,
            from: from.copy(),
        };
        self.put(key, fill)
    }

    /// Whether as many are kept as may be.
    pub fn is_full(&self) -> bool
        ensures { result ≡ nat_le 1024 (length self.now.fills.entries) }
    {
        self.fills.len() >= MOST
    }

    fn put(&mut self, key: FillKey, fill: Filled) -> Result<(), NoMemory>
        ensures added { OnOk result (kept_at self.new key.row key.from key.height ≡ Some fill) }
        ensures others { (r : ℕ) (q : Place) (h : ℕ) → ¬ ((r ≡ key.row) × (q ≡ key.from) × (h ≡ key.height)) →
            kept_at self.new r q h ≡ kept_at self.old r q h }
        ensures kept { (d : FlowsData) (b : List SizeEntry) (p : Nodes) → AreKept d b p self.old →
            IsKeptFill d b p key.row key.from key.height fill → AreKept d b p self.new }
    {
        match self.fills.insert(key, fill) {
            Ok(_) => Ok(()),
            Err(_) => Err(NoMemory),
        }
    }
}

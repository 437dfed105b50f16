//! Runs by their places.

ghost use Rattle.std.specs.Prelude.{List as Items, IfSome};
ghost use Rattle.font_table.specs.declared.fonts.Face.{Face as OneFace};
ghost use Rattle.kept_lines.specs.Keeping.{IsTrueRun, IsTrueStore};

use crate::run::KeptRun;
use indexmap::IndexMap;
use mc_base::NoMemory;
use std::alloc::Global;

/// Runs by their places, at most one at each.
#[derive(Drop)]
pub struct Store {
    runs: IndexMap<u64, KeptRun>,
}

impl Store {
    /// None are kept. It takes no memory.
    pub fn new(alloc: Global) -> Store
        ensures { (faces : Items OneFace) → IsTrueStore faces result }
    {
        Store {
            runs: IndexMap::new(alloc),
        }
    }

    /// The run of a place. It takes no memory.
    pub fn find(&self, place: u64) -> Option<&KeptRun>
        ensures { (faces : Items OneFace) → IsTrueStore faces self.now → IfSome result (λ kept. IsTrueRun faces kept.now) }
    {
        self.runs.get(&place)
    }

    /// Takes out the run of a place.
    pub fn take(&mut self, place: u64) -> Option<KeptRun>
        ensures run { (faces : Items OneFace) → IsTrueStore faces self.old → IfSome result (IsTrueRun faces) }
        ensures others { (faces : Items OneFace) → IsTrueStore faces self.old → IsTrueStore faces self.new }
    {
        self.runs.swap_remove(&place)
    }

    /// Keeps a run at a place, instead of what is there. When out of memory, none is added.
    pub fn keep(&mut self, place: u64, run: KeptRun) -> Result<(), NoMemory>
        ensures { (faces : Items OneFace) → IsTrueStore faces self.old → IsTrueRun faces run → IsTrueStore faces self.new }
    {
        match self.runs.insert(place, run) {
            Ok(_) => Ok(()),
            Err(_) => Err(NoMemory),
        }
    }
}

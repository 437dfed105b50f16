//! Counts of work.

ghost use Rattle.std.specs.Prelude.{◌≡◌, ℕ};
ghost use Rattle.flow_list.specs.Counts.{raised};

/// Counts the reads of items, the work inside rows, and the folds over columns. Each count ends at the greatest `u64`.
pub trait Tally {
    ghost read_count: { Self → ℕ };

    ghost below_count: { Self → ℕ };

    ghost fold_count: { Self → ℕ };

    /// Counts one read.
    fn read(&mut self)
        ensures read { read_count self.new ≡ raised (read_count self.old) 1 }
        ensures below { below_count self.new ≡ below_count self.old }
        ensures folds { fold_count self.new ≡ fold_count self.old };

    /// Counts `by` more inside rows.
    fn below(&mut self, by: u64)
        ensures read { read_count self.new ≡ read_count self.old }
        ensures below { below_count self.new ≡ raised (below_count self.old) by }
        ensures folds { fold_count self.new ≡ fold_count self.old };

    /// Counts one fold.
    fn fold(&mut self)
        ensures read { read_count self.new ≡ read_count self.old }
        ensures below { below_count self.new ≡ below_count self.old }
        ensures folds { fold_count self.new ≡ raised (fold_count self.old) 1 };
}

/// Three counts as numbers.
#[derive(Clone, Copy)]
pub struct Counts {
    pub reads: u64,
    pub below: u64,
    pub folds: u64,
}

impl Tally for Counts {
    ghost read_count = { λ c. c.reads };

    ghost below_count = { λ c. c.below };

    ghost fold_count = { λ c. c.folds };

    fn read(&mut self) {
        self.reads = self.reads.saturating_add(1);
    }

    fn below(&mut self, by: u64) {
        self.below = self.below.saturating_add(by);
    }

    fn fold(&mut self) {
        self.folds = self.folds.saturating_add(1);
    }
}

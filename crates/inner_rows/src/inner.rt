//! The law of rows that stand in a flow.

ghost use Rattle.std.specs.Prelude.{◌≡◌, ℕ, ◌<◌, List, [], ◌∷◌, IfOk, OnOk, OnErr, length};
ghost use Rattle.flow_data.specs.Flows.{flow_in};
ghost use Rattle.flow_data.specs.Soundness.{NestsAtMost};
ghost use Rattle.flow_data.specs.declared.data.FlowsData.{FlowsData};
ghost use Rattle.flow_list.specs.Book.{after_uses};
ghost use Rattle.flow_list.specs.Entries.{uses_in};
ghost use Rattle.flow_list.specs.Folds.{fill_told};
ghost use Rattle.flow_list.specs.Rows.{all_rows};
ghost use Rattle.flow_list.specs.Tokens.{IsPlaceBefore};
ghost use Rattle.flow_list.specs.declared.book.SizeEntry.{SizeEntry};
ghost use Rattle.frag_pool.specs.Growing.{Grows, KeptGrows};
ghost use Rattle.frag_pool.specs.Nodes.{Nodes, SameTrial};
ghost use Rattle.frag_pool.specs.Standing.{StandsFor};
ghost use Rattle.inner_rows.specs.Filling.{IsFilled, fill_tree};
ghost use Rattle.inner_rows.specs.TrueBook.{AreTrue, BookAfter, Extends};

use flow_list::{Book, ColLine, Counts, Flows};
use frag_pool::Pool;
use mc_base::{FragId, Level, List, NoMemory, Token, Units};

/// What a row makes of a height from a place on, in its columns or fewer where its end comes: the place where they end and
/// whether that is the row's end, the greatest level among them, and whether one overflows. `short` and `lines` are taken over
/// the columns up to and with the first that overflows: how far the least height at which one of them may change is above this
/// one, none where there is no such height, and how they came to be. The fragment is a row piece at the top, without a height.
#[derive(Drop)]
pub struct Filled {
    pub end: Token,
    pub at_end: bool,
    pub level: Level,
    pub overflow: bool,
    pub short: Option<Units>,
    pub lines: List<ColLine>,
    pub frag: FragId,
}

/// An engine of the rows in a flow (CSS Fragmentation 3, section 4.5; that a row in columns is balanced at its least height is
/// this project's own).
pub trait InnerRows {
    // how many rows may stand one inside another in a row that it is asked for, that row included
    ghost depth: { Self → ℕ };

    // what it keeps is true of these flows, this book and this region
    ghost is_true: { Self → FlowsData → List SizeEntry → Nodes → Type 0 };

    /// The size of a row from a place before its end on: the least height that fits. The book gets it with the sizes that it
    /// uses, where they aren't there. The region's trial nodes are as they were.
    ///
    /// Out of memory: the book may have further true entries.
    fn size(
        &mut self,
        flows: &Flows,
        row: u32,
        from: &Token,
        book: &mut Book,
        pool: &mut Pool,
        tally: &mut Counts,
    ) -> Result<Units, NoMemory>
        requires row { row < length flows.now.rows }
        requires place { IsPlaceBefore flows.now (flow_in flows.now row) from.now }
        requires nests { NestsAtMost flows.now (depth self.old) row }
        requires engine { is_true self.old flows.now book.old pool.old }
        requires book { AreTrue flows.now book.old }
        ensures size { IfOk result (λ h. h ≡ (all_rows flows.now).size row from.now) }
        ensures depth { depth self.new ≡ depth self.old }
        ensures engine { is_true self.new flows.now book.new pool.new }
        ensures book { BookAfter flows.now book.old book.new }
        ensures uses { OnOk result (uses_in book.new ≡ after_uses flows.now (uses_in book.old) ((row, from.now) ∷ [])) }
        ensures pool { SameTrial pool.old pool.new };

    /// What a row makes of a height from a place before its end on, in units. The book gets the sizes that its columns use,
    /// where they aren't there. What was live in the region stays as it was.
    ///
    /// Out of memory: the region's trial nodes are as they were, and the book may have further true entries.
    fn fill(
        &mut self,
        flows: &Flows,
        row: u32,
        from: &Token,
        height: Units,
        book: &mut Book,
        pool: &mut Pool,
        tally: &mut Counts,
    ) -> Result<Filled, NoMemory>
        requires row { row < length flows.now.rows }
        requires place { IsPlaceBefore flows.now (flow_in flows.now row) from.now }
        requires nests { NestsAtMost flows.now (depth self.old) row }
        requires engine { is_true self.old flows.now book.old pool.old }
        requires book { AreTrue flows.now book.old }
        ensures fill { IfOk result (IsFilled (fill_told (all_rows flows.now) flows.now row from.now height)) }
        ensures frag { IfOk result (λ out. StandsFor pool.new out.frag (fill_tree flows.now row from.now height)) }
        ensures depth { depth self.new ≡ depth self.old }
        ensures engine { is_true self.new flows.now book.new pool.new }
        ensures book { BookAfter flows.now book.old book.new }
        ensures uses { OnOk result (uses_in book.new
            ≡ after_uses flows.now (uses_in book.old) ((all_rows flows.now).fill row from.now height).uses) }
        ensures grown { OnOk result (Grows pool.old pool.new) }
        ensures refused { OnErr result (SameTrial pool.old pool.new) };

    // what it keeps stays true where the book and the kept nodes grow
    ghost stays: { (e : Self) (d : FlowsData) (b c : List SizeEntry) (p q : Nodes) → is_true e d b p → Extends b c →
        KeptGrows p q → is_true e d c q };
}

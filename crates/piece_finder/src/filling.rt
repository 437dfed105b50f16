//! A fill by any engine, counted by any tally.

ghost use Rattle.std.specs.Prelude.{◌≡◌, ◌<◌, IfOk, OnOk, OnErr, length};
ghost use Rattle.flow_data.specs.Flows.{flow_in};
ghost use Rattle.flow_data.specs.Soundness.{NestsAtMost};
ghost use Rattle.flow_list.specs.Book.{after_uses};
ghost use Rattle.flow_list.specs.Entries.{uses_in};
ghost use Rattle.flow_list.specs.Tokens.{IsPlaceBefore};
ghost use Rattle.frag_pool.specs.Growing.{Grows};
ghost use Rattle.frag_pool.specs.Nodes.{SameTrial};
ghost use Rattle.frag_pool.specs.Standing.{StandsFor};
ghost use Rattle.inner_rows.specs.TrueBook.{AreTrue, BookAfter};
ghost use Rattle.flow_list.specs.Folds.{fill_told};
ghost use Rattle.flow_list.specs.Rows.{all_rows};
ghost use Rattle.inner_rows.specs.Filling.{IsFilled, fill_tree};
ghost use Rattle.piece_finder.specs.Using.{made_uses};

use flow_list::{Book, Counts, Flows, Tally};
use frag_pool::Pool;
use inner_rows::{Filled, InnerRows};
use mc_base::{NoMemory, Token, Units};

/// The work inside a row, all together.
fn spent(counts: Counts) -> u64 {
    counts
        .reads
        .saturating_add(counts.below)
        .saturating_add(counts.folds)
}

/// What a row makes of a height from a place before its end on. Its work is counted as work inside rows.
pub fn fill_row<I: InnerRows, C: Tally>(
    inner: &mut I,
    flows: &Flows,
    row: u32,
    from: &Token,
    height: Units,
    book: &mut Book,
    pool: &mut Pool,
    tally: &mut C,
) -> Result<Filled, NoMemory>
    requires row { row < length flows.now.rows }
    requires place { IsPlaceBefore flows.now (flow_in flows.now row) from.now }
    requires nests { NestsAtMost flows.now (I.depth inner.old) row }
    requires engine { I.is_true inner.old flows.now book.old pool.old }
    requires book { AreTrue flows.now book.old }
    ensures fill { IfOk result (IsFilled (fill_told (all_rows flows.now) flows.now row from.now height)) }
    ensures frag { IfOk result (λ out. StandsFor pool.new out.frag (fill_tree flows.now row from.now height)) }
    ensures depth { I.depth inner.new ≡ I.depth inner.old }
    ensures engine { I.is_true inner.new flows.now book.new pool.new }
    ensures book { BookAfter flows.now book.old book.new }
    ensures uses { OnOk result (uses_in book.new
        ≡ after_uses flows.now (uses_in book.old) (made_uses flows.now row from.now height)) }
    ensures grown { OnOk result (Grows pool.old pool.new) }
    ensures refused { OnErr result (SameTrial pool.old pool.new) }
    ensures read { C.read_count tally.new ≡ C.read_count tally.old }
    ensures folds { C.fold_count tally.new ≡ C.fold_count tally.old }
{
    let mut counts = Counts {
        reads: 0,
        below: 0,
        folds: 0,
    };
    let filled = inner.fill(flows, row, from, height, book, pool, &mut counts);
    tally.below(spent(counts));
    filled
}

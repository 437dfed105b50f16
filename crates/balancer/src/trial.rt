//! One height of a search: its columns are made and given up, unless they fit.

ghost use Rattle.std.specs.Prelude.{◌≡◌, ℕ, suc, ◌+◌, ◌<◌, ◌≤◌, IfOk, OnOk, OnErr, All, length, None};
ghost use Rattle.flow_data.specs.Flows.{flow_in, rows_in, row_of};
ghost use Rattle.flow_data.specs.Soundness.{NestsAtMost};
ghost use Rattle.flow_list.specs.Book.{after_uses};
ghost use Rattle.flow_list.specs.Certificate.{uses_of};
ghost use Rattle.flow_list.specs.Counts.{raised};
ghost use Rattle.flow_list.specs.Entries.{uses_in};
ghost use Rattle.flow_list.specs.Ranges.{judged, searched};
ghost use Rattle.flow_list.specs.Rows.{all_rows, most_columns as most_of};
ghost use Rattle.flow_list.specs.Tokens.{IsPlace};
ghost use Rattle.frag_pool.specs.Growing.{Grows};
ghost use Rattle.frag_pool.specs.Nodes.{SameTrial};
ghost use Rattle.frag_pool.specs.Standing.{StandsFor};
ghost use Rattle.inner_rows.specs.Filling.{row_tree};
ghost use Rattle.inner_rows.specs.TrueBook.{AreTrue, BookAfter};
ghost use Rattle.range_finder.specs.Judging.{goes_on};
ghost use Rattle.balancer.specs.Cost.{judged_cost};
ghost use Rattle.balancer.specs.Trying.{IfFits, IfRejected, range_of};

use column_laws::flows_are_sound;
use column_row::{FoldMode, fold};
use flow_list::{Book, Flows, Range, Tally, flow_counts};
use frag_pool::Pool;
use inner_rows::InnerRows;
use mc_base::{FragId, NoMemory, Token, Units};
use range_finder::{Judged, next_range};
use std::alloc::Global;

/// A height that was tried: it fits, with the fragment of its columns, or is rejected with all heights of a range.
#[derive(Drop)]
pub enum Trial {
    Fits(FragId),
    Rejected(Range),
}

/// Tries a height of a row from a place on, where `most` columns may be used: the range that begins there, up to the top at
/// most, or none where it fits or the top is reached.
pub fn try_height<I: InnerRows, C: Tally>(
    alloc: Global,
    inner: &mut I,
    flows: &Flows,
    row: u32,
    from: &Token,
    most: u32,
    low: Units,
    top: Option<Units>,
    book: &mut Book,
    pool: &mut Pool,
    tally: &mut C,
) -> Result<Trial, NoMemory>
    requires row { row < length flows.now.rows }
    requires place { IsPlace flows.now (flow_in flows.now row) from.now }
    requires nests { All (NestsAtMost flows.now (I.depth inner.old)) (rows_in (flow_in flows.now row)) }
    requires deep { I.depth inner.old ≤ 2 }
    requires engine { I.is_true inner.old flows.now book.old pool.old }
    requires book { AreTrue flows.now book.old }
    requires most { most ≡ most_of (row_of flows.now row).n (flow_in flows.now row) from.now }
    ensures step { IfOk result (λ trial. (n : ℕ) → searched (all_rows flows.now) flows.now row from.now top (suc n) low
        ≡ goes_on (range_of trial) (searched (all_rows flows.now) flows.now row from.now top n)) }
    ensures frag { IfOk result (λ trial. IfFits trial (λ frag. StandsFor pool.new frag (row_tree flows.now row from.now low None
        (judged (all_rows flows.now) flows.now row from.now low)))) }
    ensures depth { I.depth inner.new ≡ I.depth inner.old }
    ensures engine { I.is_true inner.new flows.now book.new pool.new }
    ensures book { BookAfter flows.now book.old book.new }
    ensures uses { OnOk result (uses_in book.new ≡ after_uses flows.now (uses_in book.old)
        (uses_of (judged (all_rows flows.now) flows.now row from.now low))) }
    ensures grown { OnOk result (Grows pool.old pool.new) }
    ensures given_up { IfOk result (λ trial. IfRejected trial (SameTrial pool.old pool.new)) }
    ensures refused { OnErr result (SameTrial pool.old pool.new) }
    ensures reads { C.read_count tally.new ≤ C.read_count tally.old + judged_cost flows.now row from.now low }
    ensures folds { C.fold_count tally.new ≡ raised (C.fold_count tally.old) 1 }
{
    // In sealed flows, which are sound, this is a law.
    let _counts = flow_counts(flows);
    flows_are_sound();
    let mark = pool.mark();
    let made = fold(
        alloc,
        inner,
        flows,
        row,
        from,
        low,
        most,
        FoldMode::Fit,
        book,
        pool,
        tally,
    )?;
    let frag = made.frag;
    let judged = Judged {
        columns: made.columns,
        end: made.end,
        at_end: made.at_end,
        level: made.level,
        overflow: made.overflow,
        short: made.short,
        lines: made.lines,
    };
    match next_range(low, top, judged) {
        None => Ok(Trial::Fits(frag)),
        Some(range) => {
            pool.release(&mark);
            Ok(Trial::Rejected(range))
        }
    }
}

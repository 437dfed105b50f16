//! One height in place of the height of a cut piece: its columns are made, and given up unless they do.

ghost use Rattle.std.specs.Prelude.{◌≡◌, ◌<◌, IfOk, OnOk, OnErr, length};
ghost use Rattle.flow_data.specs.Flows.{flow_in};
ghost use Rattle.flow_data.specs.Soundness.{NestsAtMost};
ghost use Rattle.flow_list.specs.Book.{after_uses};
ghost use Rattle.flow_list.specs.Entries.{uses_in};
ghost use Rattle.flow_list.specs.Tokens.{IsPlaceBefore};
ghost use Rattle.frag_pool.specs.Growing.{Grows};
ghost use Rattle.frag_pool.specs.Nodes.{SameTrial};
ghost use Rattle.frag_pool.specs.Standing.{StandsFor};
ghost use Rattle.inner_rows.specs.TrueBook.{AreTrue, BookAfter};
ghost use Rattle.flow_list.specs.Folds.{fill_told};
ghost use Rattle.flow_list.specs.Rows.{all_rows};
ghost use Rattle.inner_rows.specs.Filling.{IsFilled, fill_tree};
ghost use Rattle.piece_finder.specs.Trying.{IsTrial, IfFound, IfRejected};
ghost use Rattle.piece_finder.specs.Using.{made_uses};

use crate::filling::fill_row;
use crate::reasons::{PieceRange, end_of_range, reason_why};
use flow_list::{Book, Flows, Tally};
use frag_pool::Pool;
use inner_rows::{Filled, InnerRows};
use mc_base::{FragId, NoMemory, Token, Units};

/// A height that was tried: it will do, with the fragment of its columns, or is rejected with all heights of a range.
#[derive(Drop)]
pub enum Trial {
    Found(FragId),
    Rejected(PieceRange),
}

/// Tries a height of a piece whose columns at its own height are given.
pub fn try_height<I: InnerRows, C: Tally>(
    inner: &mut I,
    flows: &Flows,
    row: u32,
    from: &Token,
    height: Units,
    wanted: &Filled,
    low: Units,
    book: &mut Book,
    pool: &mut Pool,
    tally: &mut C,
) -> Result<Trial, NoMemory>
    requires row { row < length flows.now.rows }
    requires place { IsPlaceBefore flows.now (flow_in flows.now row) from.now }
    requires nests { NestsAtMost flows.now (I.depth inner.old) row }
    requires engine { I.is_true inner.old flows.now book.old pool.old }
    requires book { AreTrue flows.now book.old }
    requires wanted { IsFilled (fill_told (all_rows flows.now) flows.now row from.now height) wanted.now }
    ensures trial { IfOk result (IsTrial flows.now row from.now height low) }
    ensures frag { IfOk result (λ trial. IfFound trial (λ frag. StandsFor pool.new frag (fill_tree flows.now row from.now low))) }
    ensures given_up { IfOk result (λ trial. IfRejected trial (SameTrial pool.old pool.new)) }
    ensures depth { I.depth inner.new ≡ I.depth inner.old }
    ensures engine { I.is_true inner.new flows.now book.new pool.new }
    ensures book { BookAfter flows.now book.old book.new }
    ensures uses { OnOk result (uses_in book.new
        ≡ after_uses flows.now (uses_in book.old) (made_uses flows.now row from.now low)) }
    ensures grown { OnOk result (Grows pool.old pool.new) }
    ensures refused { OnErr result (SameTrial pool.old pool.new) }
    ensures read { C.read_count tally.new ≡ C.read_count tally.old }
    ensures folds { C.fold_count tally.new ≡ C.fold_count tally.old }
{
    let mark = pool.mark();
    let made = fill_row(inner, flows, row, from, low, book, pool, tally)?;
    match reason_why(wanted, &made) {
        None => Ok(Trial::Found(made.frag)),
        Some(reason) => {
            pool.release(&mark);
            Ok(Trial::Rejected(PieceRange {
                lo: low,
                hi: end_of_range(low, made.short, height),
                reason,
            }))
        }
    }
}

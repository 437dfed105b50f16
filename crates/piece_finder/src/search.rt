//! The search for the least height of a cut piece: one height after another, each where the range before it ended.

ghost use Rattle.std.specs.Prelude.{◌≡◌, ◌<◌, false, IfOk, OnOk, OnErr, length};
ghost use Rattle.flow_data.specs.Flows.{flow_in};
ghost use Rattle.flow_data.specs.Soundness.{NestsAtMost};
ghost use Rattle.flow_list.specs.Book.{after_uses};
ghost use Rattle.flow_list.specs.Entries.{uses_in};
ghost use Rattle.flow_list.specs.Tokens.{IsPlaceBefore};
ghost use Rattle.frag_pool.specs.Growing.{Grows};
ghost use Rattle.frag_pool.specs.Nodes.{SameTrial};
ghost use Rattle.frag_pool.specs.Standing.{StandsFor};
ghost use Rattle.inner_rows.specs.TrueBook.{AreTrue, BookAfter};
ghost use Rattle.flow_list.specs.Folds.{fill_told};
ghost use Rattle.flow_list.specs.Rows.{all_rows};
ghost use Rattle.inner_rows.specs.Filling.{IsFilled, fill_tree};
ghost use Rattle.piece_finder.specs.Finding.{IsFound};
ghost use Rattle.piece_finder.specs.Telling.{told_ranges};
ghost use Rattle.piece_finder.specs.Using.{searched_uses};

use crate::filling::fill_row;
use crate::reasons::PieceRange;
use crate::trying::{Trial, try_height};
use flow_list::{Book, Flows, Tally};
use frag_pool::Pool;
use inner_rows::{Filled, InnerRows};
use mc_base::{FragId, List, NoMemory, Token, Units};
use piece_data::searches_go_on;
use range_laws::uses_enter;
use std::alloc::Global;

/// The least height of a piece, the ranges of all lesser heights, and the fragment of its columns, a row piece at the top without
/// a height.
#[derive(Drop)]
pub struct Found {
    pub height: Units,
    pub ranges: List<PieceRange>,
    pub frag: FragId,
}

/// The least height of a piece that doesn't overflow, whose columns at its own height are given.
pub fn search<I: InnerRows, C: Tally>(
    alloc: Global,
    inner: &mut I,
    flows: &Flows,
    row: u32,
    from: &Token,
    height: Units,
    wanted: &Filled,
    book: &mut Book,
    pool: &mut Pool,
    tally: &mut C,
) -> Result<Found, NoMemory>
    requires row { row < length flows.now.rows }
    requires place { IsPlaceBefore flows.now (flow_in flows.now row) from.now }
    requires nests { NestsAtMost flows.now (I.depth inner.old) row }
    requires engine { I.is_true inner.old flows.now book.old pool.old }
    requires book { AreTrue flows.now book.old }
    requires wanted { IsFilled (fill_told (all_rows flows.now) flows.now row from.now height) wanted.now }
    requires fine { wanted.now.overflow ≡ false }
    ensures found { IfOk result (IsFound flows.now row from.now height) }
    ensures frag { IfOk result (λ found. StandsFor pool.new found.frag (fill_tree flows.now row from.now found.height)) }
    ensures depth { I.depth inner.new ≡ I.depth inner.old }
    ensures engine { I.is_true inner.new flows.now book.new pool.new }
    ensures book { BookAfter flows.now book.old book.new }
    ensures uses { IfOk result (λ found. uses_in book.new ≡ after_uses flows.now (uses_in book.old)
        (searched_uses flows.now row from.now (told_ranges found.ranges) found.height)) }
    ensures grown { OnOk result (Grows pool.old pool.new) }
    ensures refused { OnErr result (SameTrial pool.old pool.new) }
    ensures read { C.read_count tally.new ≡ C.read_count tally.old }
    ensures folds { C.fold_count tally.new ≡ C.fold_count tally.old }
{
    // These are laws.
    searches_go_on();
    uses_enter();
    let mut ranges = List::new(alloc);
    let mut low = 0;
    while low < height {
        let trial = try_height(
            inner, flows, row, from, height, wanted, low, book, pool, tally,
        )?;
        match trial {
            Trial::Found(frag) => {
                return Ok(Found {
                    height: low,
                    ranges,
                    frag,
                });
            }
            Trial::Rejected(range) => {
                low = range.hi;
                ranges.push(range)?;
            }
        }
    }
    let made = fill_row(inner, flows, row, from, height, book, pool, tally)?;
    Ok(Found {
        height,
        ranges,
        frag: made.frag,
    })
}

//! The least height of a cut piece.

ghost use Rattle.std.specs.Prelude.{◌≡◌, ◌<◌, IfOk, OnOk, OnErr, length};
ghost use Rattle.flow_data.specs.Flows.{flow_in};
ghost use Rattle.flow_data.specs.Soundness.{NestsAtMost};
ghost use Rattle.flow_list.specs.Book.{after_uses};
ghost use Rattle.flow_list.specs.Entries.{uses_in};
ghost use Rattle.flow_list.specs.Tokens.{IsPlaceBefore};
ghost use Rattle.frag_pool.specs.Growing.{Grows};
ghost use Rattle.frag_pool.specs.Nodes.{SameTrial};
ghost use Rattle.frag_pool.specs.Standing.{StandsFor};
ghost use Rattle.inner_rows.specs.TrueBook.{AreTrue, BookAfter};
ghost use Rattle.inner_rows.specs.Filling.{fill_tree};
ghost use Rattle.piece_finder.specs.Finding.{IsFound};
ghost use Rattle.piece_finder.specs.Lowered.{IsLeastPiece};
ghost use Rattle.piece_finder.specs.Telling.{piece_tree};
ghost use Rattle.piece_finder.specs.Using.{piece_uses};

use crate::filling::fill_row;
use crate::reasons::PieceRange;
use crate::search::{Found, search};
use crate::standing::with_height;
use flow_list::{Book, Flows, Tally};
use frag_pool::Pool;
use inner_rows::InnerRows;
use mc_base::{FragId, List, NoMemory, Token, Units};
use range_laws::uses_enter;
use std::alloc::Global;

/// The least height of a cut piece, and the ranges of all lesser heights; none where the piece overflows at its own height, which
/// it then keeps. Heights are in units. The fragment is a row piece at the top, with this height and its columns.
#[derive(Drop)]
pub struct PieceOut {
    pub height: Units,
    pub ranges: List<PieceRange>,
    pub frag: FragId,
}

/// What is found of a piece: its least height, or its own where it overflows.
fn find<I: InnerRows, C: Tally>(
    alloc: Global,
    inner: &mut I,
    flows: &Flows,
    row: u32,
    from: &Token,
    height: Units,
    book: &mut Book,
    pool: &mut Pool,
    tally: &mut C,
) -> Result<Found, NoMemory>
    requires row { row < length flows.now.rows }
    requires place { IsPlaceBefore flows.now (flow_in flows.now row) from.now }
    requires nests { NestsAtMost flows.now (I.depth inner.old) row }
    requires engine { I.is_true inner.old flows.now book.old pool.old }
    requires book { AreTrue flows.now book.old }
    ensures found { IfOk result (IsFound flows.now row from.now height) }
    ensures frag { IfOk result (λ found. StandsFor pool.new found.frag (fill_tree flows.now row from.now found.height)) }
    ensures depth { I.depth inner.new ≡ I.depth inner.old }
    ensures engine { I.is_true inner.new flows.now book.new pool.new }
    ensures book { BookAfter flows.now book.old book.new }
    ensures uses { OnOk result (uses_in book.new
        ≡ after_uses flows.now (uses_in book.old) (piece_uses flows.now row from.now height)) }
    ensures grown { OnOk result (Grows pool.old pool.new) }
    ensures refused { OnErr result (SameTrial pool.old pool.new) }
    ensures read { C.read_count tally.new ≡ C.read_count tally.old }
    ensures folds { C.fold_count tally.new ≡ C.fold_count tally.old }
{
    // That what was entered stays in the book is a law. The columns at this height are given up before others are made.
    uses_enter();
    let mark = pool.mark();
    let wanted = fill_row(inner, flows, row, from, height, book, pool, tally)?;
    if wanted.overflow {
        return Ok(Found {
            height,
            ranges: List::new(alloc),
            frag: wanted.frag,
        });
    }
    pool.release(&mark);
    search(
        alloc, inner, flows, row, from, height, &wanted, book, pool, tally,
    )
}

/// Lowers a piece of a row that begins at a place before its end and is cut at a height, in units (CSS Multi-column 1, section
/// 7.1): to the least height whose columns end at the same place, overflow nowhere and have no worse break. A piece that
/// overflows keeps its height. What was live in the region stays as it was. The book gets the sizes that the columns at this
/// height, those where its ranges begin, and those at the least height use, where they aren't there. The work is counted as work
/// inside rows.
///
/// Out of memory: the region's trial nodes are as they were, and the book may have further true entries.
pub fn piece<I: InnerRows, C: Tally>(
    alloc: Global,
    inner: &mut I,
    flows: &Flows,
    row: u32,
    from: &Token,
    height: Units,
    book: &mut Book,
    pool: &mut Pool,
    tally: &mut C,
) -> Result<PieceOut, NoMemory>
    requires row { row < length flows.now.rows }
    requires place { IsPlaceBefore flows.now (flow_in flows.now row) from.now }
    requires nests { NestsAtMost flows.now (I.depth inner.old) row }
    requires engine { I.is_true inner.old flows.now book.old pool.old }
    requires book { AreTrue flows.now book.old }
    ensures piece { IfOk result (IsLeastPiece flows.now row from.now height) }
    ensures frag { IfOk result (λ out. StandsFor pool.new out.frag (piece_tree flows.now row from.now out.height)) }
    ensures depth { I.depth inner.new ≡ I.depth inner.old }
    ensures engine { I.is_true inner.new flows.now book.new pool.new }
    ensures book { BookAfter flows.now book.old book.new }
    ensures uses { OnOk result (uses_in book.new
        ≡ after_uses flows.now (uses_in book.old) (piece_uses flows.now row from.now height)) }
    ensures grown { OnOk result (Grows pool.old pool.new) }
    ensures refused { OnErr result (SameTrial pool.old pool.new) }
    ensures read { C.read_count tally.new ≡ C.read_count tally.old }
    ensures folds { C.fold_count tally.new ≡ C.fold_count tally.old }
{
    let mark = pool.mark();
    let found = find(alloc, inner, flows, row, from, height, book, pool, tally)?;
    match with_height(alloc, pool, found.frag, row, from, found.height) {
        Ok(frag) => Ok(PieceOut {
            height: found.height,
            ranges: found.ranges,
            frag,
        }),
        Err(none) => {
            pool.release(&mark);
            Err(none)
        }
    }
}

//! Rows within rows.

ghost use Rattle.std.specs.Prelude.{◌≡◌, suc, ◌<◌, ◌≤◌, List, ◌∷◌, ◌++◌, [], IfOk, OnOk, OnErr, false, length};
ghost use Rattle.flow_data.specs.declared.data.FlowsData.{FlowsData};
ghost use Rattle.flow_data.specs.Flows.{flow_in};
ghost use Rattle.flow_data.specs.Soundness.{NestsAtMost};
ghost use Rattle.flow_list.specs.Book.{after_uses};
ghost use Rattle.flow_list.specs.Certificate.{stands_in};
ghost use Rattle.flow_list.specs.Entries.{uses_in};
ghost use Rattle.flow_list.specs.Folds.{fill_told};
ghost use Rattle.flow_list.specs.Rows.{all_rows};
ghost use Rattle.flow_list.specs.Tokens.{IsPlaceBefore};
ghost use Rattle.flow_list.specs.declared.book.SizeEntry.{SizeEntry};
ghost use Rattle.frag_pool.specs.Growing.{Grows};
ghost use Rattle.frag_pool.specs.Nodes.{Nodes, SameTrial};
ghost use Rattle.frag_pool.specs.Standing.{StandsFor};
ghost use Rattle.inner_rows.specs.Filling.{IsFilled, fill_tree};
ghost use Rattle.inner_rows.specs.TrueBook.{AreTrue, BookAfter};
ghost use Rattle.kept_fills.specs.Keeping.{AreKept};

use crate::balancing::least;
use column_laws::depths_are_alike;
use column_row::{FoldMode, fold};
use flow_list::{Book, Counts, Flows, SizeEntry, flow_counts, row_at};
use frag_pool::Pool;
use inner_rows::{Filled, InnerRows, NoRows};
use kept_fills::{KeptFills, copy_of, keep_made};
use mc_base::{NoMemory, Token, Units};
use range_laws::{book_stays_true, uses_enter};
use std::alloc::Global;

/// An engine of rows over an engine of the rows in them. It keeps what a row made of a height, to answer it again.
#[derive(Drop)]
pub struct Rows<I> {
    alloc: Global,
    inner: I,
    fills: KeptFills,
}

impl<I> Rows<I> {
    /// One deeper than `inner`. It takes no memory.
    pub fn over(alloc: Global, inner: I) -> Rows<I>
        ensures inner { result.inner ≡ inner }
        ensures fills { (d : FlowsData) (b : List SizeEntry) (p : Nodes) → AreKept d b p result.fills }
    {
        Rows {
            alloc,
            inner,
            fills: KeptFills::new(alloc),
        }
    }
}

/// An engine of rows of which at most two stand one inside another. It takes no memory, and is true of any flows, book and
/// region.
pub fn two_deep(alloc: Global) -> Rows<Rows<NoRows>>
    ensures depth { ⟦<Rows<Rows<NoRows>> as InnerRows>⟧.depth result ≡ 2 }
    ensures engine { (d : FlowsData) (b : List SizeEntry) (p : Nodes) → ⟦<Rows<Rows<NoRows>> as InnerRows>⟧.is_true result d b p }
{
    Rows::over(alloc, Rows::over(alloc, NoRows))
}

/// Adds an entry to the book, and lets it go where there is no memory for it.
fn put(book: &mut Book, entry: SizeEntry) -> Result<(), NoMemory>
    requires { stands_in (uses_in book.old) (entry.row, entry.from) ≡ false }
    ensures ok { OnOk result (book.new ≡ book.old ++ entry ∷ []) }
    ensures err { OnErr result (book.new ≡ book.old) }
{
    match book.enter(entry) {
        Ok(()) => Ok(()),
        Err(_) => Err(NoMemory),
    }
}

/// What a row makes of a height from a place before its end on, made anew.
fn fill_anew<I: InnerRows>(
    alloc: Global,
    inner: &mut I,
    flows: &Flows,
    row: u32,
    from: &Token,
    height: Units,
    book: &mut Book,
    pool: &mut Pool,
    tally: &mut Counts,
) -> Result<Filled, NoMemory>
    requires row { row < length flows.now.rows }
    requires place { IsPlaceBefore flows.now (flow_in flows.now row) from.now }
    requires nests { NestsAtMost flows.now (suc (I.depth inner.old)) row }
    requires deep { I.depth inner.old ≤ 2 }
    requires engine { I.is_true inner.old flows.now book.old pool.old }
    requires book { AreTrue flows.now book.old }
    ensures fill { IfOk result (IsFilled (fill_told (all_rows flows.now) flows.now row from.now height)) }
    ensures frag { IfOk result (λ out. StandsFor pool.new out.frag (fill_tree flows.now row from.now height)) }
    ensures depth { I.depth inner.new ≡ I.depth inner.old }
    ensures engine { I.is_true inner.new flows.now book.new pool.new }
    ensures book { BookAfter flows.now book.old book.new }
    ensures uses { OnOk result (uses_in book.new
        ≡ after_uses flows.now (uses_in book.old) ((all_rows flows.now).fill row from.now height).uses) }
    ensures grown { OnOk result (Grows pool.old pool.new) }
    ensures refused { OnErr result (SameTrial pool.old pool.new) }
{
    // In sealed flows, which are sound, this is a law.
    let _counts = flow_counts(flows);
    depths_are_alike();
    let most = row_at(flows, row).n;
    let made = fold(
        alloc,
        inner,
        flows,
        row,
        from,
        height,
        most,
        FoldMode::All,
        book,
        pool,
        tally,
    )?;
    Ok(Filled {
        end: made.end,
        at_end: made.at_end,
        level: made.level,
        overflow: made.overflow,
        short: made.short,
        lines: made.lines,
        frag: made.frag,
    })
}

impl<I: InnerRows> InnerRows for Rows<I> {
    ghost use Rattle.std.specs.Prelude.{suc, ◌≤◌};
    ghost use Rattle.kept_fills.specs.Keeping.{AreKept};
    ghost use Rattle.kept_fills.proofs.Kept.{kept-stays};

    ghost depth = { λ rows. suc (I.depth rows.inner) };

    ghost is_true = { λ rows d b p. (I.depth rows.inner ≤ 2) × I.is_true rows.inner d b p × AreKept d b p rows.fills };

    fn size(
        &mut self,
        flows: &Flows,
        row: u32,
        from: &Token,
        book: &mut Book,
        pool: &mut Pool,
        tally: &mut Counts,
    ) -> Result<Units, NoMemory> {
        // In sealed flows, which are sound, these are laws.
        let _counts = flow_counts(flows);
        depths_are_alike();
        book_stays_true();
        uses_enter();
        if let Some(entry) = book.find(row, from) {
            return Ok(entry.height);
        }
        let mark = pool.mark();
        let made = least(
            self.alloc,
            &mut self.inner,
            flows,
            row,
            from,
            None,
            book,
            pool,
            tally,
        )?;
        pool.release(&mark);
        let height = made.height;
        let entry = SizeEntry {
            row,
            from: from.copy(),
            height,
            ranges: made.ranges,
        };
        put(book, entry)?;
        Ok(height)
    }

    fn fill(
        &mut self,
        flows: &Flows,
        row: u32,
        from: &Token,
        height: Units,
        book: &mut Book,
        pool: &mut Pool,
        tally: &mut Counts,
    ) -> Result<Filled, NoMemory> {
        uses_enter();
        if let Some(kept) = self.fills.find(row, from, height) {
            let copy = copy_of(self.alloc, kept)?;
            return Ok(copy);
        }
        let mark = pool.mark();
        let made = fill_anew(
            self.alloc,
            &mut self.inner,
            flows,
            row,
            from,
            height,
            book,
            pool,
            tally,
        )?;
        if self.fills.is_full() {
            return Ok(made);
        }
        let kept = keep_made(
            self.alloc,
            &mut self.fills,
            row,
            from,
            height,
            made,
            &mark,
            pool,
        )?;
        Ok(kept)
    }

    ghost stays = { λ e d b c p q h x k. (
      h.0,
      I.stays e.inner d b c p q h.1 x k,
      kept-stays d b c p q e.fills.fills.entries x k
          h.2,
    ) };
}

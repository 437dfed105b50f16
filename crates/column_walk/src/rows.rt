//! What a column asks of the rows that stand in it.

ghost use Rattle.std.specs.Prelude.{◌≡◌, ◌<◌, ◌≤◌, All, IfOk, OnOk, length};
ghost use Rattle.flow_data.specs.Flows.{flow_in, flow_of, item_of, rows_in};
ghost use Rattle.flow_data.specs.Soundness.{NestsAtMost};
ghost use Rattle.flow_list.specs.Book.{after_uses};
ghost use Rattle.flow_list.specs.Column.{row_from, row_list};
ghost use Rattle.flow_list.specs.Rows.{all_rows};
ghost use Rattle.flow_list.specs.Tokens.{IsPlaceBefore};
ghost use Rattle.frag_pool.specs.Nodes.{SameTrial};
ghost use Rattle.flow_list.specs.Entries.{uses_in};
ghost use Rattle.inner_rows.specs.TrueBook.{AreTrue, BookAfter};
ghost use Rattle.column_strip.specs.Passed.{height_at};
ghost use Rattle.column_walk.specs.Stopping.{AreShallow, IsMade, IsPlaceOf};

use flow_list::{Book, Counts, Flows, Item, Tally, flow_counts};
use frag_pool::Pool;
use inner_rows::{Filled, InnerRows};
use mc_base::{NoMemory, Token, Units};

fn no_counts() -> Counts {
    Counts {
        reads: 0,
        below: 0,
        folds: 0,
    }
}

/// The work inside a row, all together.
fn spent(counts: Counts) -> u64 {
    counts
        .reads
        .saturating_add(counts.below)
        .saturating_add(counts.folds)
}

/// The height of item `k`, which is taken from a place: a row's is its size from there.
pub fn height_from<I: InnerRows, C: Tally>(
    inner: &mut I,
    flows: &Flows,
    flow: u32,
    k: u32,
    item: Item,
    from: &Token,
    book: &mut Book,
    pool: &mut Pool,
    tally: &mut C,
) -> Result<Units, NoMemory>
    requires flow { flow < length flows.now.flows }
    requires item { item ≡ item_of (flow_of flows.now flow) k }
    requires place { IsPlaceOf flows.now (flow_of flows.now flow) k from.now }
    requires nests { All (NestsAtMost flows.now (I.depth inner.old)) (rows_in (flow_of flows.now flow)) }
    requires engine { I.is_true inner.old flows.now book.old pool.old }
    requires book { AreTrue flows.now book.old }
    ensures height { IfOk result (λ h. h ≡ height_at flows.now (flow_of flows.now flow) k from.now) }
    ensures depth { I.depth inner.new ≡ I.depth inner.old }
    ensures engine { I.is_true inner.new flows.now book.new pool.new }
    ensures book { BookAfter flows.now book.old book.new }
    ensures uses { OnOk result (uses_in book.new
        ≡ after_uses flows.now (uses_in book.old) (row_list (row_from (item_of (flow_of flows.now flow) k) from.now))) }
    ensures pool { SameTrial pool.old pool.new }
    ensures read { C.read_count tally.new ≡ C.read_count tally.old }
    ensures folds { C.fold_count tally.new ≡ C.fold_count tally.old }
{
    // Sealed flows are sound.
    let _counts = flow_counts(flows);
    match item {
        Item::Atom { height, .. } => Ok(height),
        Item::Row(row) => {
            let mut counts = no_counts();
            let size = inner.size(flows, row, from, book, pool, &mut counts);
            tally.below(spent(counts));
            size
        }
    }
}

/// What a row of a flow makes of a height from a place on. The fragment is given up.
pub fn fill_row<I: InnerRows, C: Tally>(
    inner: &mut I,
    flows: &Flows,
    row: u32,
    from: &Token,
    height: Units,
    book: &mut Book,
    pool: &mut Pool,
    tally: &mut C,
) -> Result<Filled, NoMemory>
    requires row { row < length flows.now.rows }
    requires place { IsPlaceBefore flows.now (flow_in flows.now row) from.now }
    requires nests { NestsAtMost flows.now (I.depth inner.old) row }
    requires deep { I.depth inner.old ≤ 2 }
    requires engine { I.is_true inner.old flows.now book.old pool.old }
    requires book { AreTrue flows.now book.old }
    ensures fill { IfOk result (IsMade ((all_rows flows.now).fill row from.now height) height) }
    ensures some { IfOk result (λ out. 0 < length out.end) }
    ensures end { IfOk result (λ out. length out.end ≤ 2) }
    ensures shallow { IfOk result (λ out. AreShallow out.lines) }
    ensures depth { I.depth inner.new ≡ I.depth inner.old }
    ensures engine { I.is_true inner.new flows.now book.new pool.new }
    ensures book { BookAfter flows.now book.old book.new }
    ensures uses { OnOk result (uses_in book.new
        ≡ after_uses flows.now (uses_in book.old) ((all_rows flows.now).fill row from.now height).uses) }
    ensures pool { SameTrial pool.old pool.new }
    ensures read { C.read_count tally.new ≡ C.read_count tally.old }
    ensures folds { C.fold_count tally.new ≡ C.fold_count tally.old }
{
    // Sealed flows are sound.
    let _counts = flow_counts(flows);
    let mark = pool.mark();
    let mut counts = no_counts();
    let filled = inner.fill(flows, row, from, height, book, pool, &mut counts);
    pool.release(&mark);
    tally.below(spent(counts));
    filled
}

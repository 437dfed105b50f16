//! The fragment of a column that was decided.

ghost use Rattle.std.specs.Prelude.{◌≡◌, ◌+◌, ◌<◌, ◌≤◌, All, IfOk, OnOk, length};
ghost use Rattle.std.specs.Option.{option_map};
ghost use Rattle.flow_data.specs.Flows.{flow_in, flow_of, rows_in};
ghost use Rattle.flow_data.specs.Soundness.{NestsAtMost};
ghost use Rattle.flow_list.specs.Column.{column};
ghost use Rattle.flow_list.specs.Book.{after_uses};
ghost use Rattle.flow_list.specs.Entries.{uses_in};
ghost use Rattle.flow_list.specs.Rows.{all_rows};
ghost use Rattle.flow_list.specs.Tokens.{IsPlaceBefore};
ghost use Rattle.frag_pool.specs.Growing.{Grows};
ghost use Rattle.frag_pool.specs.Standing.{StandsFor};
ghost use Rattle.inner_rows.specs.TrueBook.{AreTrue, BookAfter};
ghost use Rattle.column_maker.specs.Making.{IsEnding, cut_room, items_in, rows_in_column, tree_of_column};

use crate::place::{Cut, place_column};
use flow_list::{Book, Flows, Tally};
use frag_maker::{add_node, build_all};
use frag_pool::Pool;
use inner_rows::InnerRows;
use mc_base::{FragId, NoMemory, Node, Token, Units};
use std::alloc::Global;

/// Where a column ends that was decided: the place, how far the column reaches, in units, and where it ends in a row that is
/// filled, or after one, what is made of that.
#[derive(Drop)]
pub struct Decided {
    pub end: Token,
    pub extent: Units,
    pub cut: Option<Cut>,
}

/// Makes the fragment of the column of a flow that begins at a place before its end and has this height, and of which it was
/// decided where it ends. The rows in it are made by `inner`: one that stands whole has the columns of its fills at its size.
/// What was live in the region is live and unchanged. When out of memory, the trial nodes made so far are the caller's to
/// release.
pub fn make_column<I: InnerRows, C: Tally>(
    alloc: Global,
    inner: &mut I,
    flows: &Flows,
    flow: u32,
    from: &Token,
    height: Units,
    decided: &Decided,
    book: &mut Book,
    pool: &mut Pool,
    tally: &mut C,
) -> Result<FragId, NoMemory>
    requires flow { flow < length flows.now.flows }
    requires place { IsPlaceBefore flows.now (flow_of flows.now flow) from.now }
    requires nests { All (NestsAtMost flows.now (I.depth inner.old)) (rows_in (flow_of flows.now flow)) }
    requires some { All (λ r. 0 < length (flow_in flows.now r).items) (rows_in (flow_of flows.now flow)) }
    requires engine { I.is_true inner.old flows.now book.old pool.old }
    requires book { AreTrue flows.now book.old }
    requires end { decided.now.end ≡ (column (all_rows flows.now) flows.now (flow_of flows.now flow) from.now height).end }
    requires extent { decided.now.extent
        ≡ (column (all_rows flows.now) flows.now (flow_of flows.now flow) from.now height).extent }
    requires cut { IsEnding flows.now pool.old (flow_of flows.now flow) from.now height decided.now.end decided.now.cut }
    ensures frag { IfOk result (λ id. StandsFor pool.new id (tree_of_column flows.now flow from.now height)) }
    ensures uses { OnOk result (uses_in book.new ≡ after_uses flows.now (uses_in book.old)
        (rows_in_column (flow_of flows.now flow) from.now decided.now.end (option_map cut_room decided.now.cut))) }
    ensures reads { C.read_count tally.new ≤ C.read_count tally.old + items_in from.now decided.now.end }
    ensures depth { I.depth inner.new ≡ I.depth inner.old }
    ensures engine { I.is_true inner.new flows.now book.new pool.new }
    ensures book { BookAfter flows.now book.old book.new }
    ensures grown { Grows pool.old pool.new }
    ensures folds { C.fold_count tally.new ≡ C.fold_count tally.old }
{
    let placed = place_column(
        alloc,
        inner,
        flows,
        flow,
        from,
        height,
        &decided.end,
        decided.cut,
        book,
        pool,
        tally,
    )?;
    let kids = build_all(alloc, pool, placed.as_slice())?;
    let id = add_node(
        pool,
        Node::Column {
            flow,
            from: from.copy(),
            end: decided.end.copy(),
            extent: decided.extent,
            kids,
        },
    )?;
    Ok(id)
}

//! A whole layout with its pieces lowered.

ghost use Rattle.std.specs.Prelude.{◌≡◌, [], IfOk, List as Items, OnErr, OnOk, length};
ghost use Rattle.flow_data.specs.declared.data.FlowsData.{FlowsData};
ghost use Rattle.flow_list.specs.Certificate.{rows_in_stacks};
ghost use Rattle.flow_list.specs.declared.book.SizeEntry.{SizeEntry};
ghost use Rattle.frag_pool.specs.Growing.{Grows};
ghost use Rattle.frag_pool.specs.Nodes.{Nodes, SameTrial};
ghost use Rattle.inner_rows.specs.TrueBook.{AreTrue, BookAfter};
ghost use Rattle.container_layout.specs.Laid.{AreLaidAfter, AreLaidStacks};
ghost use Rattle.row_all.specs.Answered.{IsLowered};

use crate::answer::AllOut;
use crate::copies::rows_of;
use crate::engine::Engine;
use crate::pieces::put_pieces;
use crate::stacks::lower_stacks;
use balancer::{Rows, two_deep};
use flow_list::{Book, Flows, Laid, flow_counts};
use frag_pool::Pool;
use inner_rows::{InnerRows, NoRows};
use mc_base::{List, NoMemory};
use std::alloc::Global;

/// An engine of rows of which at most three stand one inside another: as many as there are. It takes no memory.
fn three_deep(alloc: Global) -> Rows<Rows<Rows<NoRows>>>
    ensures depth { ⟦<Rows<Rows<Rows<NoRows>>> as InnerRows>⟧.depth result ≡ 3 }
    ensures engine { (d : FlowsData) (b : Items SizeEntry) (p : Nodes) →
        ⟦<Rows<Rows<Rows<NoRows>>> as InnerRows>⟧.is_true result d b p }
{
    Rows::over(alloc, two_deep(alloc))
}

/// Lowers the pieces of a layout. What was live stays as it was, also when out of memory.
fn lower_layout<I: InnerRows>(
    alloc: Global,
    engine: &mut Engine<I>,
    flows: &Flows,
    flags: &List<bool>,
    laid: &Laid,
    book: &mut Book,
    pool: &mut Pool,
) -> Result<AllOut, NoMemory>
    requires stacks { AreLaidStacks flows.now pool.old laid.now.stacks }
    requires count { length laid.now.stacks ≡ length flows.now.stacks }
    requires rows { AreLaidAfter flows.now pool.old [] (rows_in_stacks flows.now) laid.now.rows }
    requires none { engine.old.parts ≡ [] }
    requires depth { I.depth engine.old.rows ≡ 3 }
    requires engine { I.is_true engine.old.rows flows.now book.old pool.old }
    requires book { AreTrue flows.now book.old }
    ensures lowered { IfOk result (IsLowered flows.now flags.now pool.new) }
    ensures rows { IfOk result (λ out. out.laid.rows ≡ laid.now.rows) }
    ensures book { BookAfter flows.now book.old book.new }
    ensures grown { Grows pool.old pool.new }
{
    let out = lower_stacks(
        alloc,
        engine,
        flows,
        flags.as_slice(),
        laid.rows.as_slice(),
        laid.stacks.as_slice(),
        book,
        pool,
    )?;
    let mut pieces = List::new(alloc);
    put_pieces(
        alloc,
        &mut pieces,
        out.parts.as_slice(),
        flow_counts(flows).stacks,
        0,
    )?;
    let rows = rows_of(alloc, laid.rows.as_slice())?;
    Ok(AllOut {
        laid: Laid {
            stacks: out.stacks,
            rows,
        },
        pieces,
    })
}

/// Lowers the cut pieces of flagged rows in a layout, from the outermost piece inward; what follows a piece in its column stays
/// where it is. Heights are in units. The rows directly in stacks are answered as they were laid out, and nothing is laid out
/// anew but the pieces. What was live in the region stays as it was, and the book may have further true entries.
///
/// Conditions: `laid` is the layout of the flows, its ids live in the region, and the book's entries are true.
///
/// Out of memory: the region's trial nodes are as they were, and the book may have further true entries.
pub fn layout_all(
    alloc: Global,
    flows: &Flows,
    flags: &List<bool>,
    laid: &Laid,
    book: &mut Book,
    pool: &mut Pool,
) -> Result<AllOut, NoMemory>
    requires stacks { AreLaidStacks flows.now pool.old laid.now.stacks }
    requires count { length laid.now.stacks ≡ length flows.now.stacks }
    requires rows { AreLaidAfter flows.now pool.old [] (rows_in_stacks flows.now) laid.now.rows }
    requires book { AreTrue flows.now book.old }
    ensures lowered { IfOk result (IsLowered flows.now flags.now pool.new) }
    ensures rows { IfOk result (λ out. out.laid.rows ≡ laid.now.rows) }
    ensures book { BookAfter flows.now book.old book.new }
    ensures grown { OnOk result (Grows pool.old pool.new) }
    ensures refused { OnErr result (SameTrial pool.old pool.new) }
{
    let mark = pool.mark();
    let mut engine = Engine {
        alloc,
        rows: three_deep(alloc),
        parts: List::new(alloc),
    };
    match lower_layout(alloc, &mut engine, flows, flags, laid, book, pool) {
        Ok(out) => Ok(out),
        Err(none) => {
            pool.release(&mark);
            Err(none)
        }
    }
}

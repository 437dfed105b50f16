//! A whole layout.

ghost use Rattle.std.specs.Prelude.{◌≡◌, [], IfOk, OnOk, length};
ghost use Rattle.flow_list.specs.Certificate.{book_of, rows_in_stacks};
ghost use Rattle.flow_list.specs.Entries.{uses_in};
ghost use Rattle.frag_pool.specs.Nodes.{SameTrial};
ghost use Rattle.inner_rows.specs.TrueBook.{AreTrue};
ghost use Rattle.container_layout.specs.Laid.{AreLaidAfter, AreLaidStacks};

use crate::find::find_rows;
use crate::lay::lay_rows;
use crate::stack::lay_stacks;
use balancer::two_deep;
use flow_list::{Book, Flows, Laid};
use frag_pool::Pool;
use mc_base::NoMemory;
use std::alloc::Global;

/// Lays out the stacks of flows, and the rows directly in them (CSS 2.1, section 9.4.1; CSS Multi-column 1, section 7).
///
/// A stack is one strip, in which breaks have no effect. A balanced row in it has the least height that fits, or what is
/// available where that is less; a row with `column-fill: auto` has its columns at what is available. Heights are in units, and
/// all fragments are kept ones. The book, which is to be empty, gets the sizes that the rows use, in document order, each after
/// those that it uses itself. The region's trial nodes are as they were, whatever is answered, and its kept nodes unchanged.
///
/// Out of memory: the book holds true entries alone.
pub fn layout(
    alloc: Global,
    flows: &Flows,
    book: &mut Book,
    pool: &mut Pool,
) -> Result<Laid, NoMemory>
    requires { book.old ≡ [] }
    ensures stacks { IfOk result (λ laid. AreLaidStacks flows.now pool.new laid.stacks) }
    ensures count { IfOk result (λ laid. length laid.stacks ≡ length flows.now.stacks) }
    ensures rows { IfOk result (λ laid. AreLaidAfter flows.now pool.new [] (rows_in_stacks flows.now) laid.rows) }
    ensures book { AreTrue flows.now book.new }
    ensures uses { OnOk result (uses_in book.new ≡ book_of flows.now) }
    ensures pool { SameTrial pool.old pool.new }
{
    let mut scratch = two_deep(alloc);
    let found = find_rows(alloc, &mut scratch, flows, pool)?;
    let mut engine = two_deep(alloc);
    let laid = lay_rows(alloc, &mut engine, flows, found.as_slice(), book, pool)?;
    let stacks = lay_stacks(alloc, flows, laid.stand.as_slice(), pool)?;
    Ok(Laid {
        stacks,
        rows: laid.rows,
    })
}

//! Stacks with their pieces lowered.

ghost use Rattle.std.specs.Prelude.{◌≡◌, ◌<◌, [], IfOk, OnOk, length};
ghost use Rattle.flow_list.specs.Fragments.{stack_fragment};
ghost use Rattle.flow_list.specs.Stacks.{stack_height};
ghost use Rattle.frag_pool.specs.Growing.{Grows};
ghost use Rattle.frag_pool.specs.Standing.{StandsFor};
ghost use Rattle.inner_rows.specs.TrueBook.{AreTrue, BookAfter};
ghost use Rattle.container_layout.specs.Laid.{AreLaidStacks};
ghost use Rattle.tree_lowering.specs.Lower.{AreRowsInStacks};
ghost use Rattle.row_all.specs.Answered.{AreLoweredStacks, IsLoweredStack};
ghost use Rattle.row_all.specs.Parts.{AreParts, ArePartsOf};

use crate::engine::{Engine, Part};
use flow_list::{Book, Flows, LaidRow, LaidStack, flow_counts, stack_at};
use frag_pool::Pool;
use inner_rows::InnerRows;
use mc_base::{List, NoMemory};
use std::alloc::Global;
use tree_lowering::{Within, lower_tree};

/// A stack with its pieces lowered, and what stands in it.
#[derive(Drop)]
struct StackOut {
    stack: LaidStack,
    parts: List<Part>,
}

/// The stacks by their numbers, and what stands in each.
#[derive(Drop)]
pub struct StacksOut {
    pub stacks: List<LaidStack>,
    pub parts: List<List<Part>>,
}

/// Lowers the pieces in a stack that was laid out.
fn lower_stack<I: InnerRows>(
    alloc: Global,
    engine: &mut Engine<I>,
    flows: &Flows,
    flags: &[bool],
    rows: &[LaidRow],
    stack: u32,
    laid: LaidStack,
    book: &mut Book,
    pool: &mut Pool,
) -> Result<StackOut, NoMemory>
    requires stack { stack < length flows.now.stacks }
    requires height { laid.height ≡ stack_height flows.now stack }
    requires frag { StandsFor pool.old laid.frag (stack_fragment flows.now stack) }
    requires rows { AreRowsInStacks flows.now rows.now }
    requires none { engine.old.parts ≡ [] }
    requires depth { I.depth engine.old.rows ≡ 3 }
    requires engine { I.is_true engine.old.rows flows.now book.old pool.old }
    requires book { AreTrue flows.now book.old }
    ensures stack { IfOk result (λ out. IsLoweredStack flows.now flags.now pool.new stack out.stack) }
    ensures parts { IfOk result (λ out. ArePartsOf flows.now flags.now pool.new stack out.parts) }
    ensures none { OnOk result (engine.new.parts ≡ []) }
    ensures depth { I.depth engine.new.rows ≡ 3 }
    ensures engine { I.is_true engine.new.rows flows.now book.new pool.new }
    ensures book { BookAfter flows.now book.old book.new }
    ensures grown { Grows pool.old pool.new }
{
    let place = Within {
        flow: stack_at(flows, stack).flow,
        room: laid.height,
        nested: flow_counts(flows).rows,
        depth: u32::MAX,
    };
    let frag = lower_tree(
        alloc, engine, flows, flags, rows, place, laid.frag, book, pool,
    )?;
    Ok(StackOut {
        stack: LaidStack {
            height: laid.height,
            frag,
        },
        parts: engine.take_parts(),
    })
}

/// Lowers the pieces in the stacks of a layout. What was live in the region stays as it was, also when out of memory.
pub fn lower_stacks<I: InnerRows>(
    alloc: Global,
    engine: &mut Engine<I>,
    flows: &Flows,
    flags: &[bool],
    rows: &[LaidRow],
    laid: &[LaidStack],
    book: &mut Book,
    pool: &mut Pool,
) -> Result<StacksOut, NoMemory>
    requires laid { AreLaidStacks flows.now pool.old laid.now }
    requires count { length laid.now ≡ length flows.now.stacks }
    requires rows { AreRowsInStacks flows.now rows.now }
    requires none { engine.old.parts ≡ [] }
    requires depth { I.depth engine.old.rows ≡ 3 }
    requires engine { I.is_true engine.old.rows flows.now book.old pool.old }
    requires book { AreTrue flows.now book.old }
    ensures stacks { IfOk result (λ out. AreLoweredStacks flows.now flags.now pool.new out.stacks) }
    ensures count { IfOk result (λ out. length out.stacks ≡ length flows.now.stacks) }
    ensures parts { IfOk result (λ out. AreParts flows.now flags.now pool.new out.parts) }
    ensures book { BookAfter flows.now book.old book.new }
    ensures grown { Grows pool.old pool.new }
{
    let mut stacks = List::new(alloc);
    let mut parts = List::new(alloc);
    let count = flow_counts(flows).stacks;
    for number in 0..count {
        let out = lower_stack(
            alloc,
            engine,
            flows,
            flags,
            rows,
            number,
            laid[number as usize],
            book,
            pool,
        )?;
        stacks.push(out.stack)?;
        parts.push(out.parts)?;
    }
    Ok(StacksOut { stacks, parts })
}

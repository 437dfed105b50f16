//! A row piece with a height of its own.

ghost use Rattle.std.specs.Prelude.{◌≡◌, IfOk, None, Some};
ghost use Rattle.mc_base.specs.PlainTree.{PlainTrees, row_piece};
ghost use Rattle.frag_pool.specs.Growing.{Grows};
ghost use Rattle.frag_pool.specs.Nodes.{IsLive};
ghost use Rattle.frag_pool.specs.Standing.{StandsFor};

use frag_maker::{add_node, ids_in};
use frag_pool::Pool;
use mc_base::{FragId, List, NoMemory, Node, Token, Units};
use std::alloc::Global;

/// These ids once more.
fn copied(alloc: Global, ids: &[FragId]) -> Result<List<FragId>, NoMemory>
    ensures { IfOk result (λ copy. copy ≡ ids.now) }
{
    Ok(List::of(ids.iter().copied().collect(alloc)?))
}

/// A row piece with the columns of this one, and a height of its own in units.
pub fn with_height(
    alloc: Global,
    pool: &mut Pool,
    piece: FragId,
    row: u32,
    from: &Token,
    height: Units,
) -> Result<FragId, NoMemory>
    requires { IsLive pool.old piece }
    ensures tree { (columns : PlainTrees) → StandsFor pool.old piece (row_piece row from.now 0 None columns) →
        IfOk result (λ made. StandsFor pool.new made (row_piece row from.now 0 (Some height) columns)) }
    ensures grown { Grows pool.old pool.new }
{
    let columns = copied(alloc, ids_in(pool.get(piece)))?;
    let made = add_node(
        pool,
        Node::RowPiece {
            row,
            from: from.copy(),
            y: 0,
            height: Some(height),
            columns,
        },
    )?;
    Ok(made)
}

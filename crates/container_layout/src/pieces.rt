//! Pieces of rows.

ghost use Rattle.std.specs.Prelude.{◌≡◌, ℕ, IfOk, Option};
ghost use Rattle.mc_base.specs.PlainTree.{PlainTrees, row_piece};
ghost use Rattle.flow_list.specs.Tokens.{row_start};
ghost use Rattle.frag_pool.specs.Growing.{Grows};
ghost use Rattle.frag_pool.specs.Nodes.{IsLive};
ghost use Rattle.frag_pool.specs.Standing.{StandsFor};

use frag_maker::{add_node, ids_in};
use frag_pool::Pool;
use mc_base::{FragId, List, NoMemory, Node, Token, Units};
use std::alloc::Global;

/// These ids once more.
fn copied(alloc: Global, ids: &[FragId]) -> Result<List<FragId>, NoMemory>
    ensures { IfOk result (λ copy. copy ≡ ids.now) }
{
    Ok(List::of(ids.iter().copied().collect(alloc)?))
}

/// A piece of a row from its start on, with the columns of this one, and with this height in units or none.
pub fn piece_with(
    alloc: Global,
    pool: &mut Pool,
    piece: FragId,
    row: u32,
    height: Option<Units>,
) -> Result<FragId, NoMemory>
    requires { IsLive pool.old piece }
    ensures tree { (own : Option ℕ) (columns : PlainTrees) → StandsFor pool.old piece (row_piece row row_start 0 own columns) →
        IfOk result (λ made. StandsFor pool.new made (row_piece row row_start 0 height columns)) }
    ensures grown { Grows pool.old pool.new }
{
    let columns = copied(alloc, ids_in(pool.get(piece)))?;
    let made = add_node(
        pool,
        Node::RowPiece {
            row,
            from: Token::start(alloc, 0),
            y: 0,
            height,
            columns,
        },
    )?;
    Ok(made)
}

//! Flows in which no row stands.

ghost use Rattle.std.specs.Prelude.{◌≡◌, IsErr};
ghost use Rattle.inner_rows.specs.TrueBook.{AreTrue};

use crate::inner::{Filled, InnerRows};
use flow_list::{Book, Counts, Flows};
use frag_pool::Pool;
use mc_base::{NoMemory, Token, Units};

/// The engine of no row, of depth 0.
#[derive(Drop)]
pub struct NoRows;

impl InnerRows for NoRows {
    ghost depth = { λ _. 0 };

    ghost is_true = { λ e d b p. Unit {0} };

    // No row nests in depth 0, so neither is ever asked; each says by itself what it does.
    fn size(
        &mut self,
        flows: &Flows,
        _row: u32,
        _from: &Token,
        book: &mut Book,
        pool: &mut Pool,
        _tally: &mut Counts,
    ) -> Result<Units, NoMemory>
        requires { AreTrue flows.now book.old }
        ensures refused { IsErr result }
        ensures book { book.new ≡ book.old }
        ensures pool { pool.new ≡ pool.old }
    {
        Err(NoMemory)
    }

    fn fill(
        &mut self,
        flows: &Flows,
        _row: u32,
        _from: &Token,
        _height: Units,
        book: &mut Book,
        pool: &mut Pool,
        _tally: &mut Counts,
    ) -> Result<Filled, NoMemory>
        requires { AreTrue flows.now book.old }
        ensures refused { IsErr result }
        ensures book { book.new ≡ book.old }
        ensures pool { pool.new ≡ pool.old }
    {
        Err(NoMemory)
    }

    ghost stays = { λ e d b c p q h x k. tt };
}

//! What lowers a cut piece: a search for its least height, over an engine of rows.

ghost use Rattle.std.specs.Prelude.{◌≡◌, [], ◌∷◌, ◌++◌, OnOk, map};
ghost use Rattle.row_all.specs.Parts.{met_of};

use crate::answer::PieceLine;
use flow_list::{Book, Counts, Flows, flow_counts};
use frag_pool::Pool;
use inner_rows::InnerRows;
use mc_base::{List, NoMemory, Token, Units};
use piece_finder::piece;
use std::alloc::Global;
use std::mem;
use tree_lowering::{LowPiece, Lowerer};

/// What stands in a tree: a piece that was lowered, or a stack.
#[derive(Drop)]
pub enum Part {
    Piece(PieceLine),
    Stack(u32),
}

/// An engine of rows, and what it met in the tree that is being lowered, in order.
#[derive(Drop)]
pub struct Engine<I> {
    pub alloc: Global,
    pub rows: I,
    pub parts: List<Part>,
}

impl<I: InnerRows> Lowerer for Engine<I> {
    ghost use Rattle.std.specs.Prelude.{◌≡◌, map};
    ghost use Rattle.frag_pool.proofs.Growth.{grows-trans, kept-grows-grows};
    ghost use Rattle.row_all.specs.Parts.{WereTrue, met_of};

    ghost is_true = { λ e d b p. (I.depth e.rows ≡ 3) × I.is_true e.rows d b p × WereTrue d p e.parts };

    ghost told = { λ e. map met_of e.parts };

    fn lower(
        &mut self,
        flows: &Flows,
        row: u32,
        from: &Token,
        height: Units,
        book: &mut Book,
        pool: &mut Pool,
    ) -> Result<LowPiece, NoMemory> {
        // Sealed flows are sound.
        let _counts = flow_counts(flows);
        let mut tally = Counts {
            reads: 0,
            below: 0,
            folds: 0,
        };
        let out = piece(
            self.alloc,
            &mut self.rows,
            flows,
            row,
            from,
            height,
            book,
            pool,
            &mut tally,
        )?;
        let low = LowPiece {
            height: out.height,
            frag: out.frag,
        };
        let line = PieceLine {
            row,
            from: from.copy(),
            height,
            out,
        };
        self.parts.push(Part::Piece(line))?;
        Ok(low)
    }

    fn pass_stack(&mut self, flows: &Flows, stack: u32) -> Result<(), NoMemory> {
        self.parts.push(Part::Stack(stack))?;
        Ok(())
    }

    ghost stays = { λ e d b c p q h x k. (
      h.0,
      I.stays e.rows d b c p q h.1 x (kept-grows-grows p q k),
      record { before = h.2.before; grown = grows-trans h.2.before p q h.2.grown k; each = h.2.each },
    ) };
}

impl<I> Engine<I> {
    /// What was met so far, which is given away.
    pub fn take_parts(&mut self) -> List<Part>
        ensures parts { result ≡ self.old.parts }
        ensures none { self.new.parts ≡ [] }
        ensures rows { self.new.rows ≡ self.old.rows }
    {
        mem::replace(&mut self.parts, List::new(self.alloc))
    }
}

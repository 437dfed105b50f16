//! The law of what lowers a cut piece.

ghost use Rattle.std.specs.Prelude.{◌≡◌, ◌<◌, ◌∷◌, [], ◌++◌, List, IfOk, OnOk, length, Some};
ghost use Rattle.mc_base.specs.PlainTree.{row_piece};
ghost use Rattle.flow_data.specs.Flows.{flow_in};
ghost use Rattle.flow_data.specs.declared.data.FlowsData.{FlowsData};
ghost use Rattle.flow_list.specs.Tokens.{IsPlaceBefore};
ghost use Rattle.flow_list.specs.declared.book.SizeEntry.{SizeEntry};
ghost use Rattle.frag_pool.specs.Growing.{Grows};
ghost use Rattle.frag_pool.specs.Nodes.{Nodes};
ghost use Rattle.frag_pool.specs.Standing.{StandsFor};
ghost use Rattle.inner_rows.specs.TrueBook.{AreTrue, BookAfter, Extends};
ghost use Rattle.piece_data.specs.LeastPiece.{least_height};
ghost use Rattle.piece_data.specs.Lowering.{columns_at};
ghost use Rattle.tree_lowering.specs.Met.{Met, piece_met, stack_met};

use flow_list::{Book, Flows};
use frag_pool::Pool;
use mc_base::{FragId, NoMemory, Token, Units};

/// A cut piece at its least height, in units. The fragment is a row piece at the top, with this height and its columns.
#[derive(Clone, Copy)]
pub struct LowPiece {
    pub height: Units,
    pub frag: FragId,
}

/// Whatever lowers a cut piece to its least height.
pub trait Lowerer {
    // what it keeps is true of these flows, this book and this region
    ghost is_true: { Self → FlowsData → List SizeEntry → Nodes → Type 0 };

    // the pieces that it lowered and the stacks that it was told of, in order
    ghost told: { Self → List Met };

    /// Lowers a piece of a row that begins at a place before its end and is cut at a height, in units. What was live in the
    /// region stays as it was, also where there is no memory; the book may have further true entries.
    fn lower(
        &mut self,
        flows: &Flows,
        row: u32,
        from: &Token,
        height: Units,
        book: &mut Book,
        pool: &mut Pool,
    ) -> Result<LowPiece, NoMemory>
        requires row { row < length flows.now.rows }
        requires place { IsPlaceBefore flows.now (flow_in flows.now row) from.now }
        requires engine { is_true self.old flows.now book.old pool.old }
        requires book { AreTrue flows.now book.old }
        ensures height { IfOk result (λ out. out.height ≡ least_height flows.now row from.now height) }
        ensures frag { IfOk result (λ out. StandsFor pool.new out.frag
            (row_piece row from.now 0 (Some out.height) (columns_at flows.now row from.now out.height))) }
        ensures told { OnOk result (told self.new ≡ told self.old ++ piece_met row from.now height ∷ []) }
        ensures engine { is_true self.new flows.now book.new pool.new }
        ensures book { BookAfter flows.now book.old book.new }
        ensures grown { Grows pool.old pool.new };

    /// Tells that a stack stands in the tree.
    fn pass_stack(&mut self, flows: &Flows, stack: u32) -> Result<(), NoMemory>
        requires { stack < length flows.now.stacks }
        ensures told { OnOk result (told self.new ≡ told self.old ++ stack_met stack ∷ []) }
        ensures engine { (b : List SizeEntry) (p : Nodes) → is_true self.old flows.now b p → is_true self.new flows.now b p };

    // what it keeps stays true where the book and the region grow
    ghost stays: { (e : Self) (d : FlowsData) (b c : List SizeEntry) (p q : Nodes) → is_true e d b p → Extends b c →
        Grows p q → is_true e d c q };
}

//! The pieces of rows that are cut, each as low as it can be (`column-fill: balance-all`): what is told of them.
//!
//! It stands on flow_list and its laws. Its `specs/` say what the least height of a piece is and why no lesser one will do
//! (`LeastPiece`), the tree of a layout whose flagged pieces are lowered (`Lowering`), and its text (`LoweredText`). Its
//! functions promise laws of these, do nothing, and take no memory.
#![tactic(auto)]

ghost use Rattle.std.specs.Prelude.{◌≡◌, ℕ, false};
ghost use Rattle.flow_list.specs.Data.{FlowsData};
ghost use Rattle.flow_list.specs.Tokens.{Token};
ghost use Rattle.piece_data.specs.Holding.{PieceHolds, SearchGoesOn};
ghost use Rattle.piece_data.specs.LeastPiece.{cut_piece};

/// The least height of a piece that doesn't overflow ends where the piece ends, overflows nowhere and has no worse break, and no
/// lesser height does. The ranges go from 0 up to it without a gap, and over each of them every height has the range's reason.
pub fn least_pieces_hold()
    ensures { (d : FlowsData) (r : ℕ) (q : Token) (a : ℕ) → PieceHolds d r q a }
{}

/// From a height up to the least one a range goes to the least bound of the columns there, or to the height that the piece is cut
/// at; and the first height that will do is the least. So a search needs no height but those at which ranges begin.
pub fn searches_go_on()
    ensures { (d : FlowsData) (r : ℕ) (q : Token) (a : ℕ) → (cut_piece d r q a).overflow ≡ false → SearchGoesOn d r q a }
{}

//! Why a height won't do in place of the height of a cut piece.

ghost use Rattle.std.specs.Prelude.{◌≡◌, ℕ, List as Items, fold, min};
ghost use Rattle.std.specs.Option.{option_map};
ghost use Rattle.flow_list.specs.Certificate.{same_token};
ghost use Rattle.flow_list.specs.Column.{Filled as Told, rank};
ghost use Rattle.flow_list.specs.Folds.{shortage};
ghost use Rattle.flow_laws.specs.Constant.{IsBelowEach};
ghost use Rattle.piece_data.specs.LeastPiece.{unfit};
ghost use Rattle.piece_finder.specs.Telling.{Tells, told_reason};

use inner_rows::Filled;
use mc_base::{Level, Token, Units};

/// Why a height won't do: its columns overflow, one of them ends at a worse break, or they end at another place.
#[derive(Drop)]
pub enum PieceReason {
    Over,
    Worse,
    Other { at: Token },
}

/// Heights from `lo` up to, but not including, `hi`, in units, none of which will do.
#[derive(Drop)]
pub struct PieceRange {
    pub lo: Units,
    pub hi: Units,
    pub reason: PieceReason,
}

/// Whether two places are one.
fn is_same(one: &Token, other: &Token) -> bool
    ensures { result ≡ same_token one.now other.now }
{
    one.cmp(other).is_eq()
}

/// How bad a break is.
fn rank_of(level: Level) -> u8
    ensures { result ≡ rank level }
{
    match level {
        Level::Forced | Level::L0 => 0,
        Level::L1 => 1,
        Level::L2 => 2,
    }
}

/// Why these columns won't do in place of the wanted ones; none where they do.
pub fn reason_why(wanted: &Filled, made: &Filled) -> Option<PieceReason>
    ensures { (w m : Told) → Tells w wanted.now → Tells m made.now → option_map told_reason result ≡ unfit w m }
{
    if made.overflow {
        return Some(PieceReason::Over);
    }
    if rank_of(wanted.level) < rank_of(made.level) {
        return Some(PieceReason::Worse);
    }
    if is_same(&made.end, &wanted.end) {
        None
    } else {
        Some(PieceReason::Other {
            at: made.end.copy(),
        })
    }
}

/// Where the range that begins at a height ends: at the least bound of its columns, which is `short` above it, or at the piece's
/// height where that is less.
pub fn end_of_range(low: Units, short: Option<Units>, height: Units) -> Units
    ensures { (bounds : Items ℕ) → IsBelowEach low bounds → short ≡ shortage low bounds → result ≡ fold min height bounds }
{
    match short {
        None => height,
        Some(short) => low.saturating_add(short).min(height),
    }
}

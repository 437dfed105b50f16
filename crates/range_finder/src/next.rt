//! One range after another.

ghost use Rattle.std.specs.Prelude.{◌≡◌, ℕ, suc, ◌+◌, ◌<◌, ◌^◌, IfSome};
ghost use Rattle.std.specs.Option.{option_map};
ghost use Rattle.flow_list.specs.Column.{Inner};
ghost use Rattle.flow_list.specs.Data.{FlowsData};
ghost use Rattle.flow_list.specs.Folds.{Folded};
ghost use Rattle.flow_list.specs.Ranges.{is_past, range_up_to, searched};
ghost use Rattle.flow_list.specs.Reasons.{told_reason};
ghost use Rattle.flow_list.specs.Tokens.{Token as Place};
ghost use Rattle.range_finder.specs.Judging.{IsJudged, IsTold, as_list, goes_on, lesser, reason_in};

use flow_list::{ColLine, Range, Reason};
use mc_base::{Level, List, Token, Units};
use std::alloc::Global;

/// What is told of the columns that were judged at a height, those up to the first that overflows or ends at a bad break, else
/// as many as may be used: how many there are, where the last one ends and whether that is the row's end, the greatest level
/// among them, whether one overflows, how far their least bound is above the height, and their lines.
#[derive(Drop)]
pub struct Judged {
    pub columns: u32,
    pub end: Token,
    pub at_end: bool,
    pub level: Level,
    pub overflow: bool,
    pub short: Option<Units>,
    pub lines: List<ColLine>,
}

/// Why columns that were judged don't fit: the last one overflows, or ends at a bad break, or they leave a place. None where
/// they fit.
fn reason_why(judged: &Judged) -> Option<Reason>
    ensures { (told : Folded) → IsTold told judged.now → option_map told_reason result ≡ reason_in told }
{
    let column = judged.columns;
    if judged.overflow {
        return Some(Reason::Over { column });
    }
    match judged.level {
        Level::L1 | Level::L2 => Some(Reason::Bad { column }),
        Level::Forced | Level::L0 => {
            if judged.at_end {
                None
            } else {
                Some(Reason::Left {
                    at: judged.end.copy(),
                })
            }
        }
    }
}

/// Whether a height is at the top, where there is one, or above it.
fn is_at_top(top: Option<Units>, height: Units) -> bool
    ensures { result ≡ is_past top height }
{
    match top {
        None => false,
        Some(top) => top <= height,
    }
}

/// The lesser of two heights, where there are any.
fn lesser_of(a: Option<Units>, b: Option<Units>) -> Option<Units>
    ensures { result ≡ lesser a b }
{
    match (a, b) {
        (None, b) => b,
        (Some(a), None) => Some(a),
        (Some(a), Some(b)) => Some(a.min(b)),
    }
}

/// The least bound of columns that were made at a height, where there is one.
fn least_bound(low: Units, short: Option<Units>) -> Option<Units>
    requires { IfSome short (λ short. low + short < 2 ^ 64) }
    ensures { result ≡ option_map (λ short. low + short) short }
{
    match short {
        None => None,
        Some(short) => Some(low + short),
    }
}

/// The range that begins at a height, of the columns judged there, up to their least bound, or up to the top where that is
/// given and less. None where they fit, or where the top is reached: the search ends there.
pub fn next_range(low: Units, top: Option<Units>, judged: Judged) -> Option<Range>
    requires { IfSome judged.short (λ short. low + short < 2 ^ 64) }
    ensures { (inner : Inner) (d : FlowsData) (r n : ℕ) (q : Place) → IsJudged inner d r q low judged →
        searched inner d r q top (suc n) low ≡ goes_on result (searched inner d r q top n) }
{
    if is_at_top(top, low) {
        return None;
    }
    let Some(reason) = reason_why(&judged) else {
        return None;
    };
    let Some(hi) = lesser_of(top, least_bound(low, judged.short)) else {
        return None;
    };
    Some(Range {
        lo: low,
        hi,
        reason,
        cols: judged.lines,
    })
}

/// The range from one height up to another for a reason that speaks of no columns, cut at the top where that is given. None
/// where it is empty.
pub fn range_between(
    alloc: Global,
    top: Option<Units>,
    low: Units,
    high: Units,
    reason: Reason,
) -> Option<Range>
    ensures { as_list result ≡ range_up_to top low high (told_reason reason) }
{
    let hi = match top {
        None => high,
        Some(top) => high.min(top),
    };
    if low < hi {
        Some(Range {
            lo: low,
            hi,
            reason,
            cols: List::new(alloc),
        })
    } else {
        None
    }
}

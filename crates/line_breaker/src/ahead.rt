//! What follows each place of a run.

ghost use Rattle.std.specs.Prelude.{◌≡◌, ◌≤◌, ◌<◌, ◌^◌, ◌*◌, ◌+◌, length, IfOk};
ghost use Rattle.std.specs.List.{All};
ghost use Rattle.line_breaker.specs.Lines.{is_forced as is_forced_piece};
ghost use Rattle.line_breaker.specs.Arrays as arrays;
ghost use Rattle.line_breaker.specs.Arrays.{IsSmall};

use crate::measures::is_content;
use crate::places::Place;
use inline_text::Piece;
use mc_base::{NoMemory, Units};
use std::alloc::Global;

/// What follows a place: where its stretch ends, whether a character or an image stands before that end, whether the place
/// is an opportunity with one, and how far the nearest end reaches of a line that ends at such an opportunity from here on.
#[derive(Clone, Copy)]
pub struct Ahead {
    pub end: usize,
    pub content: bool,
    pub opens: bool,
    pub least: Option<Units>,
}

fn is_forced(piece: &Piece) -> bool
    ensures { result ≡ is_forced_piece piece.now }
{
    matches!(*piece, Piece::Forced)
}

fn least_of(needed: Units, next: Option<Units>) -> Option<Units>
    ensures { result ≡ arrays.least_of needed next }
{
    match next {
        None => Some(needed),
        Some(other) => Some(needed.min(other)),
    }
}

/// How far a line reaches that ends at a place with a hyphen.
fn need(place: &Place) -> Units
    requires before { place.now.before < 2 ^ 62 }
    requires hyphen { place.now.hyphen ≤ 10 * 2 ^ 24 }
    ensures { result ≡ arrays.need place.now }
{
    place.before.saturating_sub(place.space) + place.hyphen
}

fn ahead_before(at: usize, piece: &Piece, opportunity: bool, needed: Units, next: Ahead) -> Ahead
    requires { at < 2 ^ 32 }
    ensures { result ≡ arrays.ahead_before at piece.now opportunity needed next }
{
    if is_forced(piece) {
        return Ahead {
            end: at + 1,
            content: false,
            opens: false,
            least: None,
        };
    }
    let content = is_content(piece) || next.content;
    let opens = opportunity && content;
    Ahead {
        end: next.end,
        content,
        opens,
        least: if opens {
            least_of(needed, next.least)
        } else {
            next.least
        },
    }
}

fn opportunity_before(opportunities: &[bool], at: usize) -> bool
    requires { at ≤ length opportunities.now }
    ensures { result ≡ arrays.opportunity_before opportunities.now at }
{
    at > 0 && opportunities[at - 1]
}

/// What follows each place, for the places and the opportunities after the pieces.
pub fn aheads(
    alloc: Global,
    pieces: &[Piece],
    places: &[Place],
    opportunities: &[bool],
) -> Result<Vec<Ahead>, NoMemory>
    requires few { length pieces.now < 2 ^ 32 }
    requires places { length places.now ≡ length pieces.now + 1 }
    requires opportunities { length opportunities.now ≡ length pieces.now }
    requires small { All IsSmall places.now }
    ensures { IfOk result (λ found. found.items ≡ arrays.aheads_from places.now opportunities.now 0 pieces.now) }
{
    let mut at = pieces.len();
    let mut next = Ahead {
        end: at,
        content: false,
        opens: false,
        least: None,
    };
    let mut found = Vec::new(alloc);
    found.push(next)?;
    while at > 0 {
        at -= 1;
        let opportunity = opportunity_before(opportunities, at);
        next = ahead_before(at, &pieces[at], opportunity, need(&places[at]), next);
        found.push(next)?;
    }
    found.reverse();
    Ok(found)
}

//! Lists of selectors (Selectors 3, sections 5 and 8).

ghost use Rattle.std.specs.Prelude.{◌≡◌, ◌⊎◌, IfOk};
ghost use Rattle.std.specs.Option.{option_map};
ghost use Rattle.css_prelude.specs.Selecting as selecting;

use crate::compound::{Compounded, compound};
use crate::words::or_found;
use css_data::{Compound, Join, Selector};
use css_tokens::{Lexeme, Rest, begins, begins_space, skip_spaces};
use mc_base::{Found, List};
use std::alloc::{AllocError, Global};

/// The selectors of a prelude, and the first in them that isn't laid out.
#[derive(Drop)]
pub struct Selectors {
    pub selectors: List<Selector>,
    pub found: Option<Found>,
}

/// What follows a compound selector.
#[derive(Clone, Copy)]
pub enum Follow {
    End,
    Comma,
    Joined(Join),
    Nothing,
}

/// The selectors so far: those that are whole, the compounds and joins of the next one, and the first in them that
/// isn't laid out.
#[derive(Drop)]
pub struct Selecting {
    pub done: List<Selector>,
    pub compounds: List<Compound>,
    pub joins: List<Join>,
    pub found: Option<Found>,
}

/// Whether there is more to read.
#[derive(Clone, Copy)]
pub enum Turn {
    More,
    Done,
    Off,
}

/// The join that the next sign stands for.
fn join_sign(rest: &Rest) -> Option<Join>
    ensures { result ≡ selecting.join_sign rest.now }
{
    if begins(rest, '>') {
        return Some(Join::Child);
    }
    if begins(rest, '+') {
        return Some(Join::Next);
    }
    if begins(rest, '~') {
        return Some(Join::Later);
    }
    None
}

/// Goes past what follows a compound selector.
fn what_follows(rest: &mut Rest) -> Follow
    ensures { (result, rest.new) ≡ selecting.follow_at rest.old }
{
    let spaced = begins_space(rest);
    skip_spaces(rest);
    if rest.peek().is_none() {
        return Follow::End;
    }
    if begins(rest, ',') {
        rest.bump();
        skip_spaces(rest);
        return Follow::Comma;
    }
    if let Some(join) = join_sign(rest) {
        rest.bump();
        skip_spaces(rest);
        return Follow::Joined(join);
    }
    if spaced {
        return Follow::Joined(Join::Descendant);
    }
    Follow::Nothing
}

impl Selecting {
    ghost use Rattle.std.specs.Prelude.{◌≡◌, OnOk};
    ghost use Rattle.css_prelude.specs.Selecting as selecting;

    fn new(alloc: Global) -> Self
        ensures { result ≡ selecting.nothing_yet }
    {
        Selecting {
            done: List::new(alloc),
            compounds: List::new(alloc),
            joins: List::new(alloc),
            found: None,
        }
    }
}

/// With one more compound.
fn with_compound(state: Selecting, next: Compounded) -> Result<Selecting, AllocError>
    ensures { IfOk result (λ s. s ≡ selecting.with_compound state next) }
{
    let Selecting {
        done,
        compounds,
        joins,
        found,
    } = state;
    let Compounded {
        compound,
        found: then,
    } = next;
    let mut compounds = compounds;
    compounds.push(compound)?;
    Ok(Selecting {
        done,
        compounds,
        joins,
        found: or_found(found, then),
    })
}

/// With the selector that is being read as a whole one.
fn finished(alloc: Global, state: Selecting) -> Result<Selecting, AllocError>
    ensures { IfOk result (λ s. s ≡ selecting.finished state) }
{
    let Selecting {
        done,
        compounds,
        joins,
        found,
    } = state;
    let mut done = done;
    done.push(Selector { compounds, joins })?;
    Ok(Selecting {
        done,
        compounds: List::new(alloc),
        joins: List::new(alloc),
        found,
    })
}

/// With one more join.
fn with_join(state: Selecting, join: Join) -> Result<Selecting, AllocError>
    ensures { IfOk result (λ s. s ≡ selecting.with_join state join) }
{
    let Selecting {
        done,
        compounds,
        joins,
        found,
    } = state;
    let mut joins = joins;
    joins.push(join)?;
    Ok(Selecting {
        done,
        compounds,
        joins,
        found,
    })
}

/// Takes what follows a compound selector.
fn followed(
    alloc: Global,
    state: Selecting,
    follow: Follow,
) -> Result<(Turn, Selecting), AllocError>
    ensures { IfOk result (λ x. (x.0, x.1) ≡ selecting.followed state follow) }
{
    match follow {
        Follow::End => Ok((Turn::Done, finished(alloc, state)?)),
        Follow::Comma => Ok((Turn::More, finished(alloc, state)?)),
        Follow::Joined(join) => Ok((Turn::More, with_join(state, join)?)),
        Follow::Nothing => Ok((Turn::Off, state)),
    }
}

/// Takes a compound selector and what follows it. Off the grammar nothing is taken.
#[tactic(auto, unfolding(crate::specs::Selecting::turn))]
fn take_turn(
    alloc: Global,
    size: usize,
    state: Selecting,
    rest: &mut Rest,
) -> Result<(Turn, Selecting), AllocError>
    ensures { IfOk result (λ x. ((x.0, x.1), rest.new) ≡ selecting.turn size state rest.old) }
{
    let before = rest.as_slice();
    let Some(next) = compound(alloc, size, rest)? else {
        *rest = Rest::new(before);
        return Ok((Turn::Off, state));
    };
    let state = with_compound(state, next)?;
    let follow = what_follows(rest);
    followed(alloc, state, follow)
}

fn whole(state: Selecting) -> Selectors
    ensures { result ≡ selecting.whole state }
{
    let Selecting {
        done,
        compounds: _,
        joins: _,
        found,
    } = state;
    Selectors {
        selectors: done,
        found,
    }
}

/// The selectors that a prelude spells, or `None` where it is off the grammar.
pub fn selector_list(alloc: Global, prelude: &[Lexeme]) -> Result<Option<Selectors>, AllocError>
    ensures { IfOk result (λ o. o ≡ selecting.selectors_of prelude.now) }
{
    let size = prelude.len();
    let mut rest = Rest::new(prelude);
    skip_spaces(&mut rest);
    let mut state = Selecting::new(alloc);
    for _ in 0..size {
        let (next, then) = take_turn(alloc, size, state, &mut rest)?;
        match next {
            Turn::More => state = then,
            Turn::Done => return Ok(Some(whole(then))),
            Turn::Off => return Ok(None),
        }
    }
    Ok(None)
}

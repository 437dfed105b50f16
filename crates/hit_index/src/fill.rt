//! Bands as they are filled.

ghost use Rattle.std.specs.Prelude.{◌≡◌, [], ◌∷◌, ◌++◌, length, List as Items, IfOk};
ghost use Rattle.hit_index.specs.Filling.{IsFilled};
ghost use Rattle.hit_index.specs.declared.mark.Mark.{Mark as AnyMark};

use crate::band::{Band, empty_band, with_leaf};
use crate::mark::{Leaf, Mark};
use mc_base::{List, NoMemory};
use std::alloc::Global;

/// How many leaves a band has at most.
const BAND_LEAVES: usize = 32;

/// The bands that are full, and the last one.
#[derive(Drop)]
pub struct Filling {
    pub full: List<Band>,
    pub last: Band,
}

/// Before the first line. It takes no memory.
pub fn empty(alloc: Global) -> Filling
    ensures { IsFilled [] result }
{
    Filling {
        full: List::new(alloc),
        last: empty_band(alloc),
    }
}

/// With the line after `marks`, if that is a leaf. The error is out of memory.
pub fn with_mark(
    alloc: Global,
    filling: Filling,
    marks: &List<Mark>,
    mark: Mark,
) -> Result<Filling, NoMemory>
    requires { IsFilled marks.now filling }
    ensures { IfOk result (λ next. IsFilled (marks.now ++ mark ∷ []) next) }
{
    if !mark.leaf {
        return Ok(filling);
    }
    let leaf = Leaf {
        number: marks.len() as u64,
        rect: mark.rect,
    };
    let Filling { full, last } = filling;
    if last.leaves.len() < BAND_LEAVES {
        return Ok(Filling {
            full,
            last: with_leaf(last, leaf)?,
        });
    }
    let mut full = full;
    full.push(last)?;
    Ok(Filling {
        full,
        last: with_leaf(empty_band(alloc), leaf)?,
    })
}

//! Rectangles that cover leaves.

ghost use Rattle.std.specs.Prelude.{◌≡◌, ◌<◌, ◌++◌, ◌==◌, [], length, option_to_list, IfOk, OnOk};
ghost use Rattle.std.specs.List.{list_any};
ghost use Rattle.hit_index.specs.Cover.{covered, held_between, holder_up, holders_after, is_between, join};
ghost use Rattle.hit_index.specs.Cover.{join_some, least_in, with_holder};

use crate::mark::Mark;
use crate::nearest::nearest;
use mc_base::{List, NoMemory, Rect};
use std::alloc::Global;

/// A leaf: the column or the stack that it stands in, and its rectangle.
#[derive(Clone, Copy)]
pub struct Held {
    pub holder: u64,
    pub rect: Rect,
}

/// The innermost column or stack on the path to line `n`, which has this depth.
fn holder_up(marks: &[Mark], depth: u32, n: usize) -> usize
    requires { n < length marks.now }
    ensures same { result ≡ holder_up marks.now depth n }
    ensures known { result < length marks.now }
{
    if depth == 0 || marks[n].holder {
        return n;
    }
    holder_up(marks, depth - 1, nearest(marks, n, depth - 1))
}

/// Whether a line is a leaf with a number from `from` through `to`.
fn is_between(from: u64, to: u64, n: u64, mark: &Mark) -> bool
    ensures { result ≡ is_between from to n mark.now }
{
    mark.leaf && from <= n && n <= to
}

/// The leaves from one line through another, with what they stand in. The error is out of memory.
pub fn held_between(
    alloc: Global,
    marks: &[Mark],
    from: u64,
    to: u64,
) -> Result<List<Held>, NoMemory>
    ensures { IfOk result (λ held. held ≡ held_between marks.now from to) }
{
    let mut held = List::new(alloc);
    for (n, mark) in marks.iter().enumerate() {
        if is_between(from, to, n as u64, mark) {
            held.push(Held {
                holder: holder_up(marks, mark.depth, n) as u64,
                rect: mark.rect,
            })?;
        }
    }
    Ok(held)
}

fn is_among(numbers: &[u64], number: u64) -> bool
    ensures { result ≡ list_any (λ n. n == number) numbers.now }
{
    numbers.iter().any(|n| *n == number)
}

/// Adds a number, if it isn't there.
fn put_holder(numbers: &mut List<u64>, holder: u64) -> Result<(), NoMemory>
    ensures { OnOk result (numbers.new ≡ with_holder numbers.old holder) }
{
    if is_among(numbers.as_slice(), holder) {
        return Ok(());
    }
    numbers.push(holder)?;
    Ok(())
}

/// What the leaves stand in, each once, in the order of its first leaf. The error is out of memory.
pub fn holders(alloc: Global, held: &[Held]) -> Result<List<u64>, NoMemory>
    ensures { IfOk result (λ numbers. numbers ≡ holders_after [] held.now) }
{
    let mut numbers = List::new(alloc);
    for leaf in held {
        put_holder(&mut numbers, leaf.holder)?;
    }
    Ok(numbers)
}

/// The least rectangle that holds two. The error is want of a number of 64 bits for an edge.
fn join(a: Rect, b: Rect) -> Result<Rect, NoMemory>
    ensures { IfOk result (λ rect. rect ≡ join a b) }
{
    let (Some(right), Some(other_right)) = (a.x.checked_add(a.w), b.x.checked_add(b.w)) else {
        return Err(NoMemory);
    };
    let (Some(bottom), Some(other_bottom)) = (a.y.checked_add(a.h), b.y.checked_add(b.h)) else {
        return Err(NoMemory);
    };
    let x = a.x.min(b.x);
    let y = a.y.min(b.y);
    Ok(Rect {
        x,
        y,
        w: right.max(other_right) - x,
        h: bottom.max(other_bottom) - y,
    })
}

fn join_some(rect: Rect, others: Option<Rect>) -> Result<Rect, NoMemory>
    ensures { IfOk result (λ joined. joined ≡ join_some rect others) }
{
    match others {
        None => Ok(rect),
        Some(others) => join(rect, others),
    }
}

/// The least rectangle that holds all of the leaves that stand in this, or none.
fn least_in(held: &[Held], holder: u64) -> Result<Option<Rect>, NoMemory>
    ensures { IfOk result (λ rect. rect ≡ least_in holder held.now) }
{
    let mut least = None;
    let mut first = held.len();
    'back: while first > 0 {
        first -= 1;
        let leaf = held[first];
        if leaf.holder == holder {
            least = Some(join_some(leaf.rect, least)?);
        }
    }
    Ok(least)
}

/// Adds the least rectangle that holds all of the leaves that stand in this, if some do.
fn put_least(rects: &mut List<Rect>, held: &[Held], holder: u64) -> Result<(), NoMemory>
    ensures { OnOk result (rects.new ≡ rects.old ++ option_to_list (least_in holder held.now)) }
{
    match least_in(held, holder)? {
        Some(rect) => {
            rects.push(rect)?;
            Ok(())
        }
        None => Ok(()),
    }
}

/// Adds such a rectangle for each of these.
pub fn put_covered(rects: &mut List<Rect>, held: &[Held], holders: &[u64]) -> Result<(), NoMemory>
    ensures { OnOk result (rects.new ≡ rects.old ++ covered held.now holders.now) }
{
    for holder in holders {
        put_least(rects, held, *holder)?;
    }
    Ok(())
}

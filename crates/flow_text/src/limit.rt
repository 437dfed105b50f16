//! The limits of a flow file.

ghost use Rattle.std.specs.Prelude.{◌≡◌, ◌<◌, ◌^◌, IfOk};
ghost use Rattle.flow_text.specs.Limits as limits;

use crate::line::{Form, Line};
use crate::pile::Pile;
use mc_base::{LimitName, NoMemory, Refusal};
use std::alloc::Global;

/// The first of these numbers that is above a limit.
fn first_above(limit: u64, numbers: &[u64]) -> Option<u64>
    ensures { result ≡ limits.first_above limit numbers.now }
{
    for number in numbers {
        if *number > limit {
            return Some(*number);
        }
    }
    None
}

/// The first number of a line that is above the greatest length.
fn long_in(form: Form) -> Option<u64>
    ensures { result ≡ limits.long_in form }
{
    match form {
        Form::First {
            n,
            w,
            step,
            available,
            ..
        } => match available {
            Some(height) => first_above(16_777_216, &[n, w, step, height]),
            None => first_above(16_777_216, &[n, w, step]),
        },
        Form::Row { n, w, step, x } => first_above(16_777_216, &[n, w, step, x]),
        Form::Start {
            number,
            x,
            w,
            top,
            bottom,
            ..
        } => first_above(16_777_216, &[number, x, w, top, bottom]),
        Form::Margin(u) => first_above(16_777_216, &[u]),
        Form::Solid(u) => first_above(16_777_216, &[u]),
        Form::Atom(u) => first_above(16_777_216, &[u]),
        Form::End(number) => first_above(16_777_216, &[number]),
        _ => None,
    }
}

/// The first number of the lines that is above the greatest length.
fn first_long(lines: &[Line]) -> Option<u64>
    ensures { result ≡ limits.first_long lines.now }
{
    for line in lines {
        if let Some(number) = long_in(line.form) {
            return Some(number);
        }
    }
    None
}

/// The number of columns of a row that has more than 32.
fn wide_in(form: Form) -> Option<u64>
    ensures { result ≡ limits.wide_in form }
{
    match form {
        Form::First { n, .. } => first_above(32, &[n]),
        Form::Row { n, .. } => first_above(32, &[n]),
        _ => None,
    }
}

/// The number of columns of the first row that has more than 32.
fn first_wide(lines: &[Line]) -> Option<u64>
    ensures { result ≡ limits.first_wide lines.now }
{
    for line in lines {
        if let Some(number) = wide_in(line.form) {
            return Some(number);
        }
    }
    None
}

/// Whether a line is an item of a row.
fn is_item(form: Form) -> bool
    ensures { result ≡ limits.is_item form }
{
    match form {
        Form::Atom(_) => true,
        Form::Row { .. } => true,
        _ => false,
    }
}

/// How many items the lines have.
fn count_items(lines: &[Line]) -> usize
    ensures { result ≡ limits.items lines.now }
{
    lines.iter().filter(|line| is_item(line.form)).count()
}

/// How many rows are open after a line, where so many are before it.
fn open_behind(rows: u64, form: Form) -> u64
    requires { rows < 2 ^ 63 }
    ensures { result ≡ limits.open_behind rows form }
{
    match form {
        Form::First { .. } => rows + 1,
        Form::Row { .. } => rows + 1,
        Form::Close => rows.saturating_sub(1),
        _ => rows,
    }
}

/// Whether more than three rows stand one inside another.
fn is_deep(lines: &[Line]) -> bool
    ensures { result ≡ limits.is_deep 0 lines.now }
{
    let mut rows = 0;
    for line in lines {
        rows = open_behind(rows, line.form);
        if rows > 3 {
            return true;
        }
    }
    false
}

/// One item more: past 2,000 it doesn't matter how many there are.
fn one_more(count: u64) -> u64
    ensures { result ≡ limits.one_more count }
{
    if count > 2000 { count } else { count + 1 }
}

/// The items so far of the innermost open row and of those around it, the nearest first.
#[derive(Drop)]
pub struct Counts {
    inner: u64,
    outer: Pile<u64>,
}

impl Counts {
    ghost use Rattle.std.specs.Prelude.{◌≡◌, IfOk};
    ghost use Rattle.flow_text.specs.Limits as limits;

    /// The counts after a line.
    fn behind(self, form: Form) -> Result<Counts, NoMemory>
        ensures { IfOk result (λ counts. counts ≡ limits.counted self form) }
    {
        let Counts { inner, mut outer } = self;
        match form {
            Form::Atom(_) => Ok(Counts {
                inner: one_more(inner),
                outer,
            }),
            Form::Row { .. } => {
                outer.push(one_more(inner))?;
                Ok(Counts { inner: 0, outer })
            }
            Form::Close => match outer.pop() {
                Some(count) => Ok(Counts {
                    inner: count,
                    outer,
                }),
                None => Ok(Counts { inner: 0, outer }),
            },
            _ => Ok(Counts { inner, outer }),
        }
    }

    /// Whether a row inside another one has more than 2,000 items so far.
    fn is_crowded(&self) -> bool
        ensures { result ≡ limits.crowded self.now }
    {
        !self.outer.is_empty() && self.inner > 2000
    }
}

/// Whether a row inside another one has more than 2,000 items.
fn has_crowded_row(alloc: Global, lines: &[Line]) -> Result<bool, NoMemory>
    ensures { IfOk result (λ found. found ≡ limits.has_crowded_row limits.no_counts lines.now) }
{
    let mut counts = Counts {
        inner: 0,
        outer: Pile::new(alloc),
    };
    for line in lines {
        counts = counts.behind(line.form)?;
        if counts.is_crowded() {
            return Ok(true);
        }
    }
    Ok(false)
}

/// The first limit that the lines pass.
#[tactic(auto, unfolding(crate::specs::Limits::limit_passed))]
pub fn limit_passed(alloc: Global, lines: &[Line]) -> Result<Option<Refusal>, NoMemory>
    ensures { IfOk result (λ passed. passed ≡ limits.limit_passed lines.now) }
{
    if let Some(reached) = first_long(lines) {
        return Ok(Some(Refusal::Limit {
            name: LimitName::Length,
            reached,
            limit: 16_777_216,
        }));
    }
    if let Some(reached) = first_wide(lines) {
        return Ok(Some(Refusal::Limit {
            name: LimitName::Columns,
            reached,
            limit: 32,
        }));
    }
    if is_deep(lines) {
        return Ok(Some(Refusal::Limit {
            name: LimitName::Nest,
            reached: 4,
            limit: 3,
        }));
    }
    if count_items(lines) > 100_000 {
        return Ok(Some(Refusal::Limit {
            name: LimitName::Items,
            reached: 100_001,
            limit: 100_000,
        }));
    }
    if has_crowded_row(alloc, lines)? {
        return Ok(Some(Refusal::Limit {
            name: LimitName::InnerItems,
            reached: 2001,
            limit: 2000,
        }));
    }
    Ok(None)
}

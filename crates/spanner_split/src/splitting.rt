//! The cut.

ghost use Rattle.std.specs.Prelude.{◌≡◌, ℕ, ◌^◌, ◌<◌, ◌≤◌, ◌⊎◌, false, true, IfOk, OnOk, fold, length};
ghost use Rattle.spanner_split.specs.Cut.{
  IsCut,
  IsPart,
  boxes_after,
  boxes_at,
  is_border,
  is_close,
  is_open,
  is_span_close,
  is_span_open,
};

use crate::event::{Event, Part};
use mc_base::{List, NoMemory};
use std::alloc::Global;

/// The parts of a container's content, in order: its spanners, and what stands before, between and after them
/// (CSS Multi-column 1, section 6). No part is empty.
///
/// There are fewer than 2^32 events. They are meant to be balanced, each end being that of the box or spanner that began
/// last, with no spanner in a spanner, and with no end right after its own beginning.
pub fn split(alloc: Global, events: &[Event]) -> Result<List<Part>, NoMemory>
    requires { length events.now < 2 ^ 32 }
    ensures { IfOk result (λ parts. IsCut events.now 0 parts (length events.now)) }
{
    let mut parts = List::new(alloc);
    let mut opened = Vec::new(alloc);
    let mut from = 0;
    while from < events.len() {
        let part = next_part(alloc, events, &opened, from)?;
        let to = part.to as usize;
        parts.push(part)?;
        follow(&mut opened, &events[from..to])?;
        from = to;
    }
    Ok(parts)
}

/// Where the part that begins here ends.
fn part_end(events: &[Event], from: usize) -> usize
    requires { from < length events.now }
    ensures after { from < result }
    ensures within { result ≤ length events.now }
    ensures whole { (k : ℕ) → from < k → k < result → is_border events.now k ≡ false }
    ensures ends { (result ≡ length events.now) ⊎ (is_border events.now result ≡ true) }
{
    for at in from + 1..events.len() {
        if opens_spanner(&events[at]) || closes_spanner(&events[at - 1]) {
            return at;
        }
    }
    events.len()
}

/// The part that begins here, where these boxes are open.
fn next_part(alloc: Global, events: &[Event], opened: &[u32], from: usize) -> Result<Part, NoMemory>
    requires within { from < length events.now }
    requires few { length events.now < 2 ^ 32 }
    requires open { opened.now ≡ boxes_at events.now from }
    ensures from { IfOk result (λ part. part.from ≡ from) }
    ensures to { IfOk result (λ part. part.to ≤ length events.now) }
    ensures part { IfOk result (IsPart events.now) }
{
    let to = part_end(events, from);
    Ok(Part {
        spanner: opens_spanner(&events[from]),
        opened: List::of(opened.to_vec(alloc)?),
        from: from as u32,
        to: to as u32,
        lead: closes_box(&events[from]),
        trail: opens_box(&events[to - 1]),
    })
}

/// Goes on past these events with the boxes that are open.
fn follow(opened: &mut Vec<u32>, events: &[Event]) -> Result<(), NoMemory>
    ensures { OnOk result (opened.new.items ≡ fold boxes_after opened.old.items events.now) }
{
    for event in events {
        pass(opened, *event)?;
    }
    Ok(())
}

fn pass(opened: &mut Vec<u32>, event: Event) -> Result<(), NoMemory>
    ensures { OnOk result (opened.new.items ≡ boxes_after opened.old.items event) }
{
    match event {
        Event::Open(number) => opened.push(number)?,
        Event::Close(_) => {
            let _ = opened.pop();
        }
        Event::Piece(_) | Event::SpanOpen(_) | Event::SpanClose(_) => {}
    }
    Ok(())
}

fn opens_spanner(event: &Event) -> bool
    ensures { result ≡ is_span_open event.now }
{
    matches!(*event, Event::SpanOpen(_))
}

fn closes_spanner(event: &Event) -> bool
    ensures { result ≡ is_span_close event.now }
{
    matches!(*event, Event::SpanClose(_))
}

fn opens_box(event: &Event) -> bool
    ensures { result ≡ is_open event.now }
{
    matches!(*event, Event::Open(_))
}

fn closes_box(event: &Event) -> bool
    ensures { result ≡ is_close event.now }
{
    matches!(*event, Event::Close(_))
}

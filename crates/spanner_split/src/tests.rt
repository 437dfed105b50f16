//! Parts, each as its places, whether it is a spanner, the boxes open at its start, and whether a void leads and trails.

use crate::{Event, split};
use mc_base::NoMemory;
use std::alloc::Global;
use std::fmt::Write;
use std::test::Fail;

/// The parts of these events, one after another.
fn parts_of(alloc: Global, events: &[Event]) -> Result<String, NoMemory> {
    let mut text = String::new(alloc);
    if events.len() > 1000 {
        return Ok(text);
    }
    let parts = split(alloc, events)?;
    for part in parts.as_slice() {
        let (from, to, spanner) = (part.from, part.to, part.spanner);
        let (lead, trail) = (part.lead, part.trail);
        let opened = part.opened.as_slice();
        write!(text, "{from}..{to} {spanner} {opened:?} {lead} {trail};")?;
    }
    Ok(text)
}

#[test]
fn spanners_cut_content(rt: HostRuntime) -> Result<(), Fail> {
    let around = [
        Event::Open(0),
        Event::Piece(0),
        Event::SpanOpen(1),
        Event::Piece(1),
        Event::SpanClose(1),
        Event::Close(0),
    ];
    assert_eq!(rt;
        parts_of(rt.alloc(), &around)?.as_str(),
        "0..2 false [] false false;2..5 true [0] false false;5..6 false [0] true false;"
    );
    let between = [
        Event::Open(0),
        Event::Open(1),
        Event::SpanOpen(2),
        Event::Piece(0),
        Event::SpanClose(2),
        Event::SpanOpen(3),
        Event::Piece(1),
        Event::SpanClose(3),
        Event::Piece(2),
        Event::Close(1),
        Event::Close(0),
    ];
    assert_eq!(rt;
        parts_of(rt.alloc(), &between)?.as_str(),
        "0..2 false [] false true;2..5 true [0, 1] false false;5..8 true [0, 1] false false;8..11 false [0, 1] false false;"
    );
    Ok(())
}

//! Data that is sound or not.

use flow_data::{
    AtomKind, Bound, BoxInfo, Edge, Flow, FlowsData, Item, RowInfo, Seam, Stack, sound,
};
use mc_base::{Level, List, NoMemory, Units};
use std::alloc::{AllocError, Global};
use std::process::Abort;
use std::test::Fail;

/// A layout of two rows, the columns of the outer one and the number of the row in it, and whether the inner one is
/// `auto`; the boxes that start in the outer one, the amount after their starts, the boxes that end there; and the height
/// of the stack that an atom of 200 there names. Last whether it is sound.
type Case = (u32, u32, bool, (u32, u32), Units, (u32, u32), Units, bool);

/// A seam with these edges.
fn seam(alloc: Global, tail: &[Edge], head: &[Edge]) -> Result<Seam, AllocError> {
    Ok(Seam {
        tail: List::of(Vec::from_slice(alloc, tail)?),
        head: List::of(Vec::from_slice(alloc, head)?),
        level: Level::L0,
    })
}

/// A flow of these items, with edges at its start and its end alone.
fn flow(alloc: Global, items: &[Item], head: &[Edge], tail: &[Edge]) -> Result<Flow, AllocError> {
    let mut seams = vec![in alloc; seam(alloc, &[], head)?]?;
    for _ in 1..items.len() {
        seams.push(seam(alloc, &[], &[])?)?;
    }
    seams.push(seam(alloc, tail, &[])?)?;
    Ok(Flow {
        opened: List::new(alloc),
        items: List::of(Vec::from_slice(alloc, items)?),
        seams: List::of(seams),
    })
}

const PLAIN: Item = Item::Atom {
    height: 10,
    kind: AtomKind::Plain,
};

/// The atom that names stack 1.
const NAMING: Item = Item::Atom {
    height: 200,
    kind: AtomKind::Bounded {
        owner: 0,
        stack: 1,
        x: 0,
    },
};

/// The flows of stack 0, of the outer row and of the inner one, and that of stack 1.
fn flows_of(alloc: Global, case: &Case) -> Result<List<Flow>, NoMemory> {
    let (_, inner, _, starts, cloned, ends, ..) = *case;
    let head = [
        Edge::Start(starts.0),
        Edge::Start(starts.1),
        Edge::Solid(cloned),
    ];
    let tail = [Edge::End(ends.0), Edge::End(ends.1)];
    let mut flows = List::new(alloc);
    flows.push(flow(alloc, &[Item::Row(0)], &[], &[])?)?;
    flows.push(flow(alloc, &[Item::Row(inner), NAMING], &head, &tail)?)?;
    flows.push(flow(alloc, &[PLAIN], &[], &[])?)?;
    flows.push(flow(alloc, &[PLAIN], &[], &[])?)?;
    Ok(flows)
}

fn row(flow: u32, n: u32, auto: bool) -> RowInfo {
    RowInfo {
        flow,
        n,
        w: 40,
        step: 50,
        x: 0,
        auto,
    }
}

/// A box with this upper amount at each break.
fn box_with(top: Units) -> BoxInfo {
    BoxInfo {
        x: 0,
        w: 90,
        avoid: false,
        top,
        bottom: 0,
    }
}

fn stack(flow: u32, bound: Bound) -> Stack {
    Stack {
        flow,
        w: 320,
        bound,
    }
}

fn layout(alloc: Global, case: &Case) -> Result<FlowsData, NoMemory> {
    let (columns, _, auto, _, _, _, height, _) = *case;
    let rows = [row(1, columns, false), row(2, 2, auto)];
    let boxes = [box_with(5), box_with(0)];
    let stacks = [stack(0, Bound::Free), stack(3, Bound::Left(height))];
    Ok(FlowsData {
        flows: flows_of(alloc, case)?,
        rows: List::of(Vec::from_slice(alloc, &rows)?),
        boxes: List::of(Vec::from_slice(alloc, &boxes)?),
        stacks: List::of(Vec::from_slice(alloc, &stacks)?),
    })
}

fn is_sound(alloc: Global, case: &Case) -> Result<bool, NoMemory> {
    let parts = layout(alloc, case)?;
    sound(alloc, &parts)
}

fn each_is_told(rt: &impl Abort, alloc: Global, cases: &[Case]) -> Result<(), Fail> {
    for case in cases {
        let found = is_sound(alloc, case)?;
        assert!(rt; found == case.7);
    }
    Ok(())
}

/// Two rows one in the other are sound, but not where the outer one has 33 columns or none, names no row or itself, or the
/// inner one is `auto`; nor where boxes cross or one stands there twice, where a cloned edge is missing, or where an atom
/// is less high than its stack.
const LAYOUTS: [Case; 11] = [
    (3, 1, false, (1, 0), 5, (0, 1), 200, true),
    (32, 1, false, (1, 0), 5, (0, 1), 200, true),
    (33, 1, false, (1, 0), 5, (0, 1), 200, false),
    (0, 1, false, (1, 0), 5, (0, 1), 200, false),
    (3, 2, false, (1, 0), 5, (0, 1), 200, false),
    (3, 0, false, (1, 0), 5, (0, 1), 200, false),
    (3, 1, true, (1, 0), 5, (0, 1), 200, false),
    (3, 1, false, (1, 0), 5, (1, 0), 200, false),
    (3, 1, false, (1, 1), 5, (1, 1), 200, false),
    (3, 1, false, (1, 0), 4, (0, 1), 200, false),
    (3, 1, false, (1, 0), 5, (0, 1), 201, false),
];

#[test]
fn sound_data_is_told_from_other_data(rt: HostRuntime) -> Result<(), Fail> {
    each_is_told(&rt, rt.alloc(), &LAYOUTS)
}

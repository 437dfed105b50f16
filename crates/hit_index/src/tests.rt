//! The index over the tree of a document whose four lines of text stand in two columns.

use crate::Index;
use mc_base::{List, NoMemory, Rect, Token, Units};
use std::alloc::Global;
use std::test::Fail;
use tree_lines::{TreeKind, TreeLine};

const WHOLE: Rect = Rect {
    x: 0,
    y: 0,
    w: 11264,
    h: 2560,
};

const LEFT: Rect = Rect {
    x: 0,
    y: 0,
    w: 5120,
    h: 2560,
};

const RIGHT: Rect = Rect {
    x: 6144,
    y: 0,
    w: 5120,
    h: 2560,
};

fn put(lines: &mut List<TreeLine>, depth: u32, kind: TreeKind, rect: Rect) -> Result<(), NoMemory> {
    lines.push(TreeLine { depth, kind, rect })?;
    Ok(())
}

/// A column with a piece of box 3, and two lines in it.
fn put_column(lines: &mut List<TreeLine>, index: u32, rect: Rect) -> Result<(), NoMemory> {
    put(lines, 5, TreeKind::Col { index }, rect)?;
    let piece = TreeKind::Piece {
        owner: 3,
        starts: index == 0,
        ends: index != 0,
    };
    put(lines, 6, piece, rect)?;
    for (number, y) in [0, 1280].iter().enumerate() {
        let line = TreeKind::Line {
            owner: 3,
            index: number as u32,
        };
        let at = Rect {
            x: rect.x,
            y: *y,
            w: 4608,
            h: 1280,
        };
        put(lines, 7, line, at)?;
    }
    Ok(())
}

/// Stack 0, three boxes, and a row with two columns: lines 7 and 8 stand in the first, 11 and 12 in the second.
fn two_columns(alloc: Global) -> Result<List<TreeLine>, NoMemory> {
    let mut lines = List::new(alloc);
    put(&mut lines, 0, TreeKind::Stack { stack: 0 }, WHOLE)?;
    for owner in 0..3u32 {
        let piece = TreeKind::Piece {
            owner,
            starts: true,
            ends: true,
        };
        put(&mut lines, owner.wrapping_add(1), piece, WHOLE)?;
    }
    let row = TreeKind::Row {
        row: 0,
        from: Token::start(alloc, 0),
    };
    put(&mut lines, 4, row, WHOLE)?;
    put_column(&mut lines, 0, LEFT)?;
    put_column(&mut lines, 1, RIGHT)?;
    Ok(lines)
}

#[test]
fn a_point_has_the_last_leaf_that_holds_it(rt: HostRuntime) -> Result<(), Fail> {
    let index = Index::of(rt.alloc(), &two_columns(rt.alloc())?)?;
    assert_eq!(rt; index.hit(6400, 320), Some(11));
    assert_eq!(rt; index.hit(0, 1280), Some(8));
    // between the columns, at a right edge, and below
    assert_eq!(rt; index.hit(5632, 320), None);
    assert_eq!(rt; index.hit(4608, 320), None);
    assert_eq!(rt; index.hit(6400, 2560), None);
    Ok(())
}

/// The path to the leaf at a point, or no line.
fn path_at(alloc: Global, index: &Index, x: Units, y: Units) -> Result<List<u64>, NoMemory> {
    match index.hit(x, y) {
        Some(leaf) => index.path(alloc, leaf),
        None => Ok(List::new(alloc)),
    }
}

#[test]
fn a_path_leads_from_the_stack_to_a_leaf(rt: HostRuntime) -> Result<(), Fail> {
    let index = Index::of(rt.alloc(), &two_columns(rt.alloc())?)?;
    let first = path_at(rt.alloc(), &index, 0, 0)?;
    assert_eq!(rt; first.as_slice(), [0, 1, 2, 3, 4, 5, 6, 7].as_slice());
    let last = path_at(rt.alloc(), &index, 6144, 1280)?;
    assert_eq!(rt; last.as_slice(), [0, 1, 2, 3, 4, 9, 10, 12].as_slice());
    Ok(())
}

#[test]
fn leaves_within_have_a_point_in_common(rt: HostRuntime) -> Result<(), Fail> {
    let index = Index::of(rt.alloc(), &two_columns(rt.alloc())?)?;
    let across = Rect {
        x: 4607,
        y: 0,
        w: 1538,
        h: 1,
    };
    assert_eq!(rt;
        index.within(rt.alloc(), across)?.as_slice(),
        [7, 11].as_slice()
    );
    let between = Rect {
        x: 4608,
        y: 0,
        w: 1536,
        h: 1,
    };
    assert!(rt; index.within(rt.alloc(), between)?.is_empty());
    Ok(())
}

#[test]
fn leaves_are_covered_by_column(rt: HostRuntime) -> Result<(), Fail> {
    let index = Index::of(rt.alloc(), &two_columns(rt.alloc())?)?;
    let last_and_first = [
        Rect {
            x: 0,
            y: 1280,
            w: 4608,
            h: 1280,
        },
        Rect {
            x: 6144,
            y: 0,
            w: 4608,
            h: 1280,
        },
    ];
    assert_eq!(rt;
        index.cover(rt.alloc(), 8, 11)?.as_slice(),
        last_and_first.as_slice()
    );
    let both = [Rect {
        x: 6144,
        y: 0,
        w: 4608,
        h: 2560,
    }];
    assert_eq!(rt; index.cover(rt.alloc(), 9, 12)?.as_slice(), both.as_slice());
    assert!(rt; index.cover(rt.alloc(), 0, 6)?.is_empty());
    Ok(())
}

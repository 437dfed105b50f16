//! The index.

ghost use Rattle.std.specs.Prelude.{◌≡◌, ◌<◌, ◌++◌, length, map, IfOk, IfSome, OnOk};
ghost use Rattle.hit_index.specs.Bands.{IsBand, best};
ghost use Rattle.hit_index.specs.Filling.{IsFilled};
ghost use Rattle.hit_index.specs.Scan as scan;
ghost use Rattle.hit_index.specs.Cover as scan_cover;
ghost use Rattle.hit_index.specs.Scan.{path_up, mark_of};
ghost use Rattle.tree_lines.specs.Lines.{lines_of};

use crate::band::{Band, hit_in};
use crate::cover::{held_between, holders, put_covered};
use crate::fill::{Filling, empty, with_mark};
use crate::mark::{Mark, mark_of};
use crate::nearest::nearest;
use crate::point::{later, meets};
use mc_base::{List, NoMemory, Rect, Units};
use std::alloc::Global;
use std::marker::Model;
use tree_lines::TreeLine;

/// An index over a tree's lines: contracts see what it keeps of each.
#[derive(Drop)]
pub struct Index {
    marks: List<Mark>,
    bands: List<Band>,
}

impl Model for Index {
    ghost use Rattle.std.specs.Prelude.{List as Items};
    ghost use Rattle.hit_index.specs.declared.mark.Mark.{Mark as AnyMark};
    ghost use Rattle.hit_index.specs.Bands.{IsIndexed};

    ghost Value = { Items AnyMark };

    ghost view = { λ i. i.marks };

    ghost invariant = { λ i. IsIndexed i.marks i.bands };
}

/// Adds the path to line `n`, which has this depth.
fn put_path(out: &mut List<u64>, marks: &[Mark], depth: u32, n: usize) -> Result<(), NoMemory>
    requires { n < length marks.now }
    ensures { OnOk result (out.new ≡ out.old ++ path_up marks.now depth n) }
{
    if depth > 0 {
        let above = nearest(marks, n, depth - 1);
        put_path(out, marks, depth - 1, above)?;
    }
    out.push(n as u64)?;
    Ok(())
}

impl Index {
    /// The index over these lines, the lines of a tree in order. The error is out of memory.
    pub fn of(alloc: Global, lines: &List<TreeLine>) -> Result<Index, NoMemory>
        ensures { IfOk result (λ index. index ≡ map mark_of (lines_of lines.now)) }
    {
        let mut marks = List::new(alloc);
        let mut filling = empty(alloc);
        for line in lines.as_slice() {
            let mark = mark_of(line);
            filling = with_mark(alloc, filling, &marks, mark)?;
            marks.push(mark)?;
        }
        let Filling { full, last } = filling;
        let mut bands = full;
        bands.push(last)?;
        Ok(Index { marks, bands })
    }

    /// The last leaf whose rectangle holds a point, a place in units from the document's top left; none where no leaf does.
    /// It takes no memory.
    pub fn hit(&self, x: Units, y: Units) -> Option<u64>
        ensures same { result ≡ scan.hit self.now x y }
        ensures known { IfSome result (λ leaf. leaf < length self.now) }
    {
        let mut found = None;
        for band in self.bands.as_slice() {
            found = later(found, hit_in(band, x, y));
        }
        found
    }

    /// The lines from the stack of depth 0 to a leaf: each is the nearest line before the next with a depth one less. The error
    /// is out of memory.
    pub fn path(&self, alloc: Global, leaf: u64) -> Result<List<u64>, NoMemory>
        requires { leaf < length self.now }
        ensures { IfOk result (λ path. path ≡ scan.path self.now leaf) }
    {
        let marks = self.marks.as_slice();
        let mut path = List::new(alloc);
        put_path(&mut path, marks, marks[leaf as usize].depth, leaf as usize)?;
        Ok(path)
    }

    /// The leaves that have a point in common with a rectangle, in units from the document's top left, in order. The error is out
    /// of memory.
    pub fn within(&self, alloc: Global, rect: Rect) -> Result<List<u64>, NoMemory>
        ensures { IfOk result (λ leaves. leaves ≡ scan.within self.now rect) }
    {
        let mut leaves = List::new(alloc);
        let marks = self.marks.as_slice();
        for (n, mark) in marks.iter().enumerate() {
            if mark.leaf && meets(mark.rect, rect) {
                leaves.push(n as u64)?;
            }
        }
        Ok(leaves)
    }

    /// For each column or stack that holds leaves with numbers from `from` through `to`, in the order of the first such leaf, the
    /// least rectangle that holds all of those leaves. A leaf without area has its place too. The error is out of memory, also
    /// where 64 bits have no number for an edge.
    pub fn cover(&self, alloc: Global, from: u64, to: u64) -> Result<List<Rect>, NoMemory>
        ensures { IfOk result (λ rects. rects ≡ scan_cover.cover self.now from to) }
    {
        let held = held_between(alloc, self.marks.as_slice(), from, to)?;
        let holders = holders(alloc, held.as_slice())?;
        let mut rects = List::new(alloc);
        put_covered(&mut rects, held.as_slice(), holders.as_slice())?;
        Ok(rects)
    }
}

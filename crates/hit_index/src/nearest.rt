//! Lines before a line.

ghost use Rattle.std.specs.Prelude.{◌≡◌, ◌<◌, length};
ghost use Rattle.hit_index.specs.Scan.{nearest};

use crate::mark::Mark;

/// The nearest line before line `n` with this depth, or line 0.
pub fn nearest(marks: &[Mark], n: usize, depth: u32) -> usize
    requires { n < length marks.now }
    ensures same { result ≡ nearest marks.now n depth }
    ensures known { result < length marks.now }
{
    let mut before = n;
    'back: while before > 0 {
        before -= 1;
        if marks[before].depth == depth {
            return before;
        }
    }
    0
}

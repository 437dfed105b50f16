//! The used count and width of columns.

ghost use Rattle.std.specs.Prelude.{◌≡◌, ◌≤◌, ◌^◌, ◌||◌, IsTrue, is_some};
ghost use Rattle.std.specs.Option.{ForSome};
ghost use Rattle.col_geometry.specs.Geometry as geometry;

use mc_base::Units;

/// The columns of a container: `n` of them, each `w` wide, and from the left edge of one to that of the next `step`.
#[derive(Clone, Copy, Debug, PartialEq, Eq)]
pub struct Columns {
    pub n: u64,
    pub w: Units,
    pub step: Units,
}

/// How many columns of this width have room, at least one. A width below 1 px is taken as 1 px.
fn count_by_width(u: Units, width: Units, gap: Units) -> u64
    requires wide { u ≤ 2 ^ 62 }
    requires long { width ≤ 2 ^ 62 }
    requires apart { gap ≤ 2 ^ 62 }
    ensures { result ≡ geometry.count_by_width u width gap }
{
    ((u + gap) / (width.max(64) + gap)).max(1)
}

/// How many columns there are.
fn used_count(u: Units, count: Option<u32>, width: Option<Units>, gap: Units) -> u64
    requires given { IsTrue (is_some count || is_some width) }
    requires wide { u ≤ 2 ^ 62 }
    requires long { ForSome width (λ w. w ≤ 2 ^ 62) }
    requires apart { gap ≤ 2 ^ 62 }
    ensures { result ≡ geometry.used_count u count width gap }
{
    match (count, width) {
        (Some(count), None) => u64::from(count),
        (None, Some(width)) => count_by_width(u, width, gap),
        (Some(count), Some(width)) => u64::from(count).min(count_by_width(u, width, gap)),
        (None, None) => unreachable!(),
    }
}

/// The used columns of a container that is `u` wide, by `column-count` and `column-width` as far as they aren't `auto`
/// (CSS Multi-column Layout 1, section 3.4). A column width below 1 px is taken as 1 px. Lengths are in units.
pub fn used_columns(u: Units, count: Option<u32>, width: Option<Units>, gap: Units) -> Columns
    requires given { IsTrue (is_some count || is_some width) }
    requires counted { ForSome count (λ n. 1 ≤ n) }
    requires wide { u ≤ 2 ^ 62 }
    requires long { ForSome width (λ w. w ≤ 2 ^ 62) }
    requires apart { gap ≤ 2 ^ 62 }
    ensures { result ≡ geometry.used_columns u count width gap }
{
    let n = used_count(u, count, width, gap);
    let step = (u + gap) / n;
    Columns {
        n,
        w: step.saturating_sub(gap),
        step,
    }
}

#[cfg(test)]
mod tests {
    use super::*;

    #[test]
    fn columns_have_a_count_and_a_width(rt: HostRuntime) {
        let cases: [(Units, Option<u32>, Option<Units>, Units, Columns); 5] = [
            (38400, None, Some(11520), 1280, columns(3, 11946, 13226)),
            (6400, Some(5), Some(12800), 1280, columns(1, 6400, 7680)),
            (6400, Some(3), None, 0, columns(3, 2133, 2133)),
            (640, Some(2), None, 6400, columns(2, 0, 3520)),
            (640, None, Some(0), 0, columns(10, 64, 64)),
        ];
        for (u, count, width, gap, wanted) in cases {
            assert_eq!(rt; used_columns(u, count, width, gap), wanted);
        }
    }

    fn columns(n: u64, w: Units, step: Units) -> Columns {
        Columns { n, w, step }
    }
}

//! Seams in a notation of one letter a value: `a` for `avoid`, `c` for `column` and `-` for `auto`.

use break_rules::{BreakValue, LineCounts, SeamBoxes, level};
use mc_base::{Level, List};
use std::alloc::{AllocError, Global};
use std::process::Abort;
use std::test::Fail;

/// The values after and before a seam, whether a box avoids a break inside, between lines the counts of lines before and
/// after it, in a block container with `orphans` 2 and `widows` 3, and the level.
type Case = (&'static str, &'static str, bool, Option<(u32, u32)>, Level);

fn values(alloc: Global, text: &str) -> Result<List<BreakValue>, AllocError> {
    let mut values = Vec::new(alloc);
    for letter in text.chars() {
        values.push(match letter {
            'a' => BreakValue::Avoid,
            'c' => BreakValue::Column,
            _ => BreakValue::Auto,
        })?;
    }
    Ok(List::of(values))
}

fn lines(counts: Option<(u32, u32)>) -> Option<LineCounts> {
    let (before, after) = counts?;
    Some(LineCounts {
        before,
        after,
        orphans: 2,
        widows: 3,
    })
}

fn level_of(alloc: Global, case: &Case) -> Result<Level, AllocError> {
    let (after, before, inside_avoid, counts, _) = *case;
    let seam = SeamBoxes {
        after: values(alloc, after)?,
        before: values(alloc, before)?,
        inside_avoid,
        lines: lines(counts),
    };
    Ok(level(&seam))
}

fn each_is_ranked(rt: &impl Abort, alloc: Global, cases: &[Case]) -> Result<(), Fail> {
    for case in cases {
        let found = level_of(alloc, case)?;
        assert!(rt; found == case.4, "at {} {}", case.0, case.1);
    }
    Ok(())
}

const SEAMS: [Case; 15] = [
    ("", "", false, None, Level::L0),
    ("-", "--", false, None, Level::L0),
    ("-a", "", false, None, Level::L2),
    ("", "a", false, None, Level::L2),
    ("", "", true, None, Level::L2),
    ("a", "-c", true, None, Level::Forced),
    ("ca", "a", false, None, Level::Forced),
    ("", "", false, Some((1, 4)), Level::L1),
    ("", "", false, Some((2, 3)), Level::L0),
    ("", "", false, Some((3, 2)), Level::L1),
    ("", "", false, Some((1, 1)), Level::L1),
    ("a", "a", false, Some((2, 3)), Level::L0),
    ("a", "", false, Some((1, 3)), Level::L1),
    ("", "", true, Some((1, 1)), Level::L2),
    ("c", "", false, Some((1, 1)), Level::Forced),
];

#[test]
fn seams_are_ranked(rt: HostRuntime) -> Result<(), Fail> {
    each_is_ranked(&rt, rt.alloc(), &SEAMS)
}

//! Runs cut into lines. Each character is 512 units wide.

use crate::faces::fonts_of;
use crate::runs::run;
use font_table::Fonts;
use line_breaker::{Line, break_lines};
use mc_base::{List, NoMemory, Units};
use std::alloc::{AllocError, Global};
use std::fmt::Write;
use std::process::Abort;
use std::test::Fail;

const METRICS: &[u8] = b"metrics 1\nface a 400 normal 800 200 500\n";

/// The lines of a run in its notation, in the first of these fonts.
fn lines_of(
    alloc: Global,
    fonts: &Fonts,
    text: &str,
    width: Units,
) -> Result<List<Line>, NoMemory> {
    let runs = run(alloc, fonts.face(&[], 400, false), text)?;
    if runs.pieces.len() > 1_000_000 {
        return Err(NoMemory);
    }
    break_lines(alloc, &runs, fonts, width, 0)
}

/// A text so often.
fn repeated(alloc: Global, text: &str, count: u32) -> Result<String, AllocError> {
    let mut all = String::new(alloc);
    for _ in 0..count {
        all.push_str(text)?;
    }
    Ok(all)
}

/// For each line its end, its width and its height, or how many there are where they are more than 40.
fn written(alloc: Global, lines: &[Line]) -> Result<String, AllocError> {
    let mut text = String::new(alloc);
    let count = lines.len();
    if count > 40 {
        write!(text, "{count} lines")?;
        return Ok(text);
    }
    for line in lines {
        let (to, w, h) = (line.to, line.w, line.h);
        write!(text, "{to} {w} {h};")?;
    }
    Ok(text)
}

/// A text that stands so often in a run, a width, and the lines.
type Case = (&'static str, u32, Units, &'static str);

fn each_is_cut(rt: &impl Abort, alloc: Global, fonts: &Fonts, cases: &[Case]) -> Result<(), Fail> {
    for (text, count, width, wanted) in cases {
        let whole = repeated(alloc, text, *count)?;
        let lines = lines_of(alloc, fonts, whole.as_str(), *width)?;
        let found = written(alloc, lines.as_slice())?;
        assert!(rt; found.as_str() == *wanted, "of {text}");
    }
    Ok(())
}

const CUT: [Case; 13] = [
    (
        "aaa bbb-ccc dddd\u{ad}dddd",
        1,
        3840,
        "4 1536 1280;12 3584 1280;17 2560 1280;21 2048 1280;",
    ),
    ("#", 1, 64, "1 2560 2253;"),
    ("a # b", 1, 4096, "4 3584 2253;5 512 1280;"),
    ("<<", 1, 64, ""),
    ("a|<", 1, 640, "2 512 1280;"),
    ("a||b", 1, 640, "2 512 1280;3 0 1280;4 512 1280;"),
    ("{aa  b }", 1, 512, "6 3072 1280;"),
    ("aaaa bb", 1, 512, "5 2048 1280;7 1024 1280;"),
    ("<aaaa", 1, 512, "5 2048 1280;"),
    ("aaa\u{ad}b", 1, 1536, "4 2048 1280;5 512 1280;"),
    ("a\u{ad}#", 1, 2560, "2 1024 1280;3 2560 2253;"),
    ("a\u{ad}<b", 1, 512, "3 512 1280;4 512 1280;"),
    ("aaa ", 250_000, 3840, "125000 lines"),
];

#[test]
fn runs_are_cut_into_lines(rt: HostRuntime) -> Result<(), Fail> {
    let fonts = fonts_of(rt.alloc(), METRICS)?;
    each_is_cut(&rt, rt.alloc(), &fonts, &CUT)
}

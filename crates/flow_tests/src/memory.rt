//! Commands over files and sinks in memory: calls that fail, and files too long to be kept.

use mc_base::{HeldFile, List, MemoryFiles, MemorySink, NoMemory, SinkFail, Text};
use mc_run::run;
use std::alloc::{AllocError, Global};
use std::process::Abort;
use std::test::Fail;

/// A flow file: its front, a piece with how often it follows, and its end.
type Content = (&'static [u8], &'static [u8], u32, &'static [u8]);

/// The files that there are, by their names.
type Held = &'static [(&'static [u8], Content)];

/// The call of a sink that fails, from 1, and how many bytes it takes first.
type Failure = (u64, u64);

/// Words, files, the read that fails, from 1, and the calls that fail of the sink of results and that of lines; then the
/// status, how many bytes of a result were put (or any number), how it begins, and what was told.
type Case = (
    &'static str,
    Held,
    (u64, Failure, Failure),
    (u8, Option<usize>, &'static [u8], &'static [u8]),
);

const NEVER: Failure = (0, 0);

const CALM: (u64, Failure, Failure) = (0, NEVER, NEVER);

const EMPTY: Held = &[(
    b"flow.txt",
    (b"flow 1\nrow 2 100 110 - balance\nend\n", b"", 0, b""),
)];

/// What a command answered and wrote.
#[derive(Drop)]
struct Seen {
    status: u8,
    out: MemorySink,
    err: MemorySink,
}

fn words_of(alloc: Global, words: &str) -> Result<Vec<String>, AllocError> {
    let mut all = Vec::new(alloc);
    for word in words.split(' ') {
        all.push(String::from_str(alloc, word)?)?;
    }
    Ok(all)
}

fn bytes_of(alloc: Global, content: Content) -> Result<Vec<u8>, AllocError> {
    let (front, piece, count, end) = content;
    let mut bytes = Vec::from_slice(alloc, front)?;
    for _ in 0..count {
        bytes.extend_from_slice(piece)?;
    }
    bytes.extend_from_slice(end)?;
    Ok(bytes)
}

/// These files, of which one read fails.
fn files_with(alloc: Global, held: Held, fails: u64) -> Result<MemoryFiles, AllocError> {
    let mut files = Vec::new(alloc);
    for (name, content) in held {
        files.push(HeldFile {
            name: Text::of(Vec::from_slice(alloc, name)?),
            bytes: Text::of(bytes_of(alloc, *content)?),
        })?;
    }
    Ok(MemoryFiles::new(alloc, List::of(files), List::of(vec![in alloc; fails]?)))
}

/// A sink with room for four million bytes.
fn sink(alloc: Global, failure: Failure) -> Result<MemorySink, NoMemory> {
    let (call, takes) = failure;
    let fails = vec![in alloc; SinkFail { call, takes }]?;
    MemorySink::new(alloc, 4_000_000, List::of(fails))
}

/// The status of a command. It promises nothing, so that no proof here looks at what it is.
fn status_of(
    alloc: Global,
    words: &[String],
    files: &mut MemoryFiles,
    out: &mut MemorySink,
    err: &mut MemorySink,
) -> u8 {
    run(alloc, words, files, out, err)
}

/// Runs the words of a case over its file and its failures.
fn run_case(alloc: Global, case: &Case) -> Result<Seen, NoMemory> {
    let (words, held, (read, put, told), _) = *case;
    let words = words_of(alloc, words)?;
    let mut files = files_with(alloc, held, read)?;
    let mut out = sink(alloc, put)?;
    let mut err = sink(alloc, told)?;
    let status = status_of(alloc, words.as_slice(), &mut files, &mut out, &mut err);
    Ok(Seen { status, out, err })
}

/// Whether a command answered and wrote what the case wants.
fn is_wanted(seen: &Seen, case: &Case) -> bool {
    let (status, put, front, told) = case.3;
    let out = seen.out.bytes();
    let is_long = match put {
        Some(count) => out.len() == count,
        None => true,
    };
    seen.status == status && is_long && out.starts_with(front) && seen.err.bytes() == told
}

fn each_is_answered(rt: &impl Abort, alloc: Global, cases: &[Case]) -> Result<(), Fail> {
    for case in cases {
        let seen = run_case(alloc, case)?;
        assert!(rt; is_wanted(&seen, case), "{}", case.0);
    }
    Ok(())
}

const READ_FAULT: (u8, Option<usize>, &[u8], &[u8]) = (2, Some(0), b"", b"read: flow\n");

/// The calls that fail. A result leaves the sink of lines alone.
const FAULTS: [Case; 7] = [
    ("rows flow.txt", EMPTY, (1, NEVER, NEVER), READ_FAULT),
    ("rows other.txt", EMPTY, CALM, READ_FAULT),
    (
        "rows flow.txt",
        EMPTY,
        (0, (1, 0), NEVER),
        (3, Some(0), b"", b"write\n"),
    ),
    (
        "rows flow.txt",
        EMPTY,
        (0, (1, 1), NEVER),
        (3, Some(1), b"m", b"write\n"),
    ),
    (
        "rows flow.txt",
        EMPTY,
        (0, (1, 69), NEVER),
        (
            3,
            Some(69),
            b"mcol 2\n0 stack 0 0 0 210 0\n1 row 0 0 0 0 210 0\ncert\nrow 0 - 0 yes\nend",
            b"write\n",
        ),
    ),
    (
        "frobnicate",
        EMPTY,
        (0, NEVER, (1, 2)),
        (1, Some(0), b"", b"us"),
    ),
    (
        "rows flow.txt",
        EMPTY,
        (0, NEVER, (1, 5)),
        (
            0,
            Some(70),
            b"mcol 2\n0 stack 0 0 0 210 0\n1 row 0 0 0 0 210 0\ncert\nrow 0 - 0 yes\nend\n",
            b"",
        ),
    ),
];

/// A document of one paragraph, an empty sheet, and a table of one face.
const PAGE: &str = "layout document.html sheet.css metrics.txt 100 auto";

const PARAGRAPH: Content = (b"<p>a", b"", 0, b"");

const NONE: Content = (b"", b"", 0, b"");

const FACE: Content = (b"metrics 1\nface a 400 normal 800 200 500\n", b"", 0, b"");

const ONE_PAGE: Held = &[
    (b"document.html", PARAGRAPH),
    (b"sheet.css", NONE),
    (b"metrics.txt", FACE),
];

const REFUSED_PAGE: Held = &[
    (b"document.html", (b"<p>a</b>", b"", 0, b"")),
    (b"sheet.css", NONE),
    (b"metrics.txt", FACE),
];

/// The reads of a document that fail, in their order; a document that would be refused stands after them.
const PAGE_FAULTS: [Case; 5] = [
    (
        PAGE,
        ONE_PAGE,
        (1, NEVER, NEVER),
        (2, Some(0), b"", b"read: document\n"),
    ),
    (
        PAGE,
        ONE_PAGE,
        (2, NEVER, NEVER),
        (2, Some(0), b"", b"read: sheet\n"),
    ),
    (
        PAGE,
        ONE_PAGE,
        (3, NEVER, NEVER),
        (2, Some(0), b"", b"read: metrics\n"),
    ),
    (
        PAGE,
        REFUSED_PAGE,
        (3, NEVER, NEVER),
        (2, Some(0), b"", b"read: metrics\n"),
    ),
    (
        PAGE,
        ONE_PAGE,
        (0, (1, 6), NEVER),
        (3, Some(6), b"mcol 2", b"write\n"),
    ),
];

/// A row of 32 columns with this many items of height 1, after the first.
const ITEMS_BEGIN: &[u8] = b"flow 1\nrow 32 100 110 - balance\na 1\n";

const ITEM: &[u8] = b"| 0\na 1\n";

/// A file as long as one may be, and one of a byte more; as many items as there may be, in 32 columns of 3125, and one more.
const LONG_FILES: [Case; 4] = [
    (
        "rows flow.txt",
        &[(b"flow.txt", (b"", b"a", 4_194_304, b""))],
        CALM,
        (4, Some(0), b"", b"grammar: flow 0 w2\n"),
    ),
    (
        "rows flow.txt",
        &[(b"flow.txt", (b"", b"a", 4_194_305, b""))],
        CALM,
        (6, Some(0), b"", b"limit: flow 4194305 4194304\n"),
    ),
    (
        "rows flow.txt",
        &[(b"flow.txt", (ITEMS_BEGIN, ITEM, 99_999, b"end\n"))],
        CALM,
        (
            0,
            Some(2_816_764),
            b"mcol 2\n0 stack 0 0 0 3510 3125\n1 row 0 0 0 0 3510 3125\n2 col 0 0 0 100 3125\n3 atom 0 0 0 100 1\n",
            b"",
        ),
    ),
    (
        "rows flow.txt",
        &[(b"flow.txt", (ITEMS_BEGIN, ITEM, 100_000, b"end\n"))],
        CALM,
        (6, Some(0), b"", b"limit: items 100001 100000\n"),
    ),
];

/// Documents, sheets and tables of metrics at each limit, and one past it.
const PAGE_LIMITS: [Case; 16] = [
    (
        PAGE,
        &[
            (b"document.html", (b"<p>a", b" ", 4_194_300, b"")),
            (b"sheet.css", NONE),
            (b"metrics.txt", FACE),
        ],
        CALM,
        (0, None, b"mcol 2\n0 stack 0 0 0 6400 ", b""),
    ),
    (
        PAGE,
        &[
            (b"document.html", (b"<p>a", b" ", 4_194_301, b"")),
            (b"sheet.css", NONE),
            (b"metrics.txt", FACE),
        ],
        CALM,
        (6, Some(0), b"", b"limit: document 4194305 4194304\n"),
    ),
    (
        PAGE,
        &[
            (b"document.html", PARAGRAPH),
            (b"sheet.css", (b"p{}", b" ", 1_048_573, b"")),
            (b"metrics.txt", FACE),
        ],
        CALM,
        (0, None, b"mcol 2\n0 stack 0 0 0 6400 ", b""),
    ),
    (
        PAGE,
        &[
            (b"document.html", PARAGRAPH),
            (b"sheet.css", (b"p{}", b" ", 1_048_574, b"")),
            (b"metrics.txt", FACE),
        ],
        CALM,
        (6, Some(0), b"", b"limit: sheet 1048577 1048576\n"),
    ),
    (
        PAGE,
        &[
            (b"document.html", PARAGRAPH),
            (b"sheet.css", NONE),
            (
                b"metrics.txt",
                (
                    b"metrics 1\n",
                    b"face a 400 normal 800 200 500\n",
                    34_951,
                    b"face aaaaaaa 400 normal 800 200 500\n",
                ),
            ),
        ],
        CALM,
        (0, None, b"mcol 2\n0 stack 0 0 0 6400 ", b""),
    ),
    (
        PAGE,
        &[
            (b"document.html", PARAGRAPH),
            (b"sheet.css", NONE),
            (
                b"metrics.txt",
                (
                    b"metrics 1\n",
                    b"face a 400 normal 800 200 500\n",
                    34_951,
                    b"face aaaaaaaa 400 normal 800 200 500\n",
                ),
            ),
        ],
        CALM,
        (6, Some(0), b"", b"limit: metrics 1048577 1048576\n"),
    ),
    (
        PAGE,
        &[
            (b"document.html", (b"", b"<br>", 19_997, b"")),
            (b"sheet.css", NONE),
            (b"metrics.txt", FACE),
        ],
        CALM,
        (0, None, b"mcol 2\n0 stack 0 0 0 6400 ", b""),
    ),
    (
        PAGE,
        &[
            (b"document.html", (b"", b"<br>", 19_998, b"")),
            (b"sheet.css", NONE),
            (b"metrics.txt", FACE),
        ],
        CALM,
        (6, Some(0), b"", b"limit: elements 20001 20000\n"),
    ),
    (
        PAGE,
        &[
            (b"document.html", PARAGRAPH),
            (b"sheet.css", (b"", b"p{}", 4_000, b"")),
            (b"metrics.txt", FACE),
        ],
        CALM,
        (0, None, b"mcol 2\n0 stack 0 0 0 6400 ", b""),
    ),
    (
        PAGE,
        &[
            (b"document.html", PARAGRAPH),
            (b"sheet.css", (b"", b"p{}", 4_001, b"")),
            (b"metrics.txt", FACE),
        ],
        CALM,
        (6, Some(0), b"", b"limit: rules 4001 4000\n"),
    ),
    (
        PAGE,
        &[
            (
                b"document.html",
                (
                    b"<div style=columns:2><div style=columns:2>",
                    b"a<br>",
                    2_000,
                    b"</div></div>",
                ),
            ),
            (b"sheet.css", NONE),
            (b"metrics.txt", FACE),
        ],
        CALM,
        (0, None, b"mcol 2\n0 stack 0 0 0 6400 ", b""),
    ),
    (
        PAGE,
        &[
            (
                b"document.html",
                (
                    b"<div style=columns:2><div style=columns:2>",
                    b"a<br>",
                    2_001,
                    b"</div></div>",
                ),
            ),
            (b"sheet.css", NONE),
            (b"metrics.txt", FACE),
        ],
        CALM,
        (6, Some(0), b"", b"limit: inner-items 2001 2000\n"),
    ),
    (
        PAGE,
        &[
            (
                b"document.html",
                (b"<div style=columns:32>a</div>", b"", 0, b""),
            ),
            (b"sheet.css", NONE),
            (b"metrics.txt", FACE),
        ],
        CALM,
        (0, None, b"mcol 2\n0 stack 0 0 0 6400 ", b""),
    ),
    (
        PAGE,
        &[
            (
                b"document.html",
                (b"<div style=columns:33>a</div>", b"", 0, b""),
            ),
            (b"sheet.css", NONE),
            (b"metrics.txt", FACE),
        ],
        CALM,
        (6, Some(0), b"", b"limit: columns 33 32\n"),
    ),
    (
        PAGE,
        &[
            (
                b"document.html",
                (b"<p style=width:262144px>a", b"", 0, b""),
            ),
            (b"sheet.css", NONE),
            (b"metrics.txt", FACE),
        ],
        CALM,
        (0, None, b"mcol 2\n0 stack 0 0 0 6400 ", b""),
    ),
    (
        PAGE,
        &[
            (
                b"document.html",
                (b"<p style=width:262145px>a", b"", 0, b""),
            ),
            (b"sheet.css", NONE),
            (b"metrics.txt", FACE),
        ],
        CALM,
        (6, Some(0), b"", b"limit: length 16777280 16777216\n"),
    ),
];

/// As many generated paragraphs as there may be, and one more.
const PARAGRAPHS: [Case; 2] = [
    ("gen 7 5000", &[], CALM, (0, None, b"<!DOCTYPE html>", b"")),
    (
        "gen 7 5001",
        &[],
        CALM,
        (6, Some(0), b"", b"limit: paragraphs 5001 5000\n"),
    ),
];

#[test]
fn faults_and_limits_stop_a_command(rt: HostRuntime) -> Result<(), Fail> {
    each_is_answered(&rt, rt.alloc(), &FAULTS)?;
    each_is_answered(&rt, rt.alloc(), &LONG_FILES)?;
    each_is_answered(&rt, rt.alloc(), &PARAGRAPHS)
}

#[test]
fn faults_and_limits_stop_a_document(rt: HostRuntime) -> Result<(), Fail> {
    each_is_answered(&rt, rt.alloc(), &PAGE_FAULTS)?;
    each_is_answered(&rt, rt.alloc(), &PAGE_LIMITS)
}

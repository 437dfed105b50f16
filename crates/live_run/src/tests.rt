//! Tests: sessions of edits over files in memory.

use crate::live;
use mc_base::{HeldFile, List, MemoryFiles, MemorySink, NoMemory, Text};
use std::alloc::{AllocError, Global};
use std::process::Abort;
use std::test::Fail;

/// A script, the number of the read that fails, and what is wanted: the status, how many bytes are put, and the line that is told.
type Case = (&'static [u8], u64, u8, usize, &'static [u8]);

/// What a session left.
#[derive(Drop)]
struct Seen {
    status: u8,
    out: MemorySink,
    err: MemorySink,
}

const NEVER: u64 = 0;

const WORDS: &str = "document sheet metrics 176 auto script";

/// Two columns of a paragraph `x`, a float `y` that isn't laid out, and a paragraph `x` after them.
const DOCUMENT: &[u8] =
    b"<body style=\"margin:0;line-height:20px\"><div style=\"column-count:2;column-gap:16px\">\
<p id=\"x\" style=\"margin:0\">aaaa bbbb cccc dddd eeee ffff gggg hhhh</div><p id=\"y\" style=\"float:left\">a<p id=\"x\">b";

const METRICS: &[u8] = b"metrics 1\nface serif 400 normal 800 200 500\n";

fn words_of(alloc: Global, words: &str) -> Result<Vec<String>, AllocError> {
    let mut all = Vec::new(alloc);
    for word in words.split(' ') {
        all.push(String::from_str(alloc, word)?)?;
    }
    Ok(all)
}

fn held(alloc: Global, name: &[u8], bytes: &[u8]) -> Result<HeldFile, AllocError> {
    Ok(HeldFile {
        name: Text::of(Vec::from_slice(alloc, name)?),
        bytes: Text::of(Vec::from_slice(alloc, bytes)?),
    })
}

/// The four inputs, of which one read fails.
fn files_with(alloc: Global, script: &[u8], fails: u64) -> Result<MemoryFiles, AllocError> {
    let mut files = Vec::new(alloc);
    files.push(held(alloc, b"document", DOCUMENT)?)?;
    files.push(held(alloc, b"sheet", b"")?)?;
    files.push(held(alloc, b"metrics", METRICS)?)?;
    files.push(held(alloc, b"script", script)?)?;
    Ok(MemoryFiles::new(alloc, List::of(files), List::of(vec![in alloc; fails]?)))
}

/// The status of a session. It promises nothing, so that no proof here looks at what it is.
fn status_of(
    alloc: Global,
    words: &[String],
    files: &mut MemoryFiles,
    out: &mut MemorySink,
    err: &mut MemorySink,
) -> u8 {
    live(alloc, words, files, out, err)
}

fn run_words(alloc: Global, words: &str, script: &[u8], fails: u64) -> Result<Seen, NoMemory> {
    let words = words_of(alloc, words)?;
    let mut files = files_with(alloc, script, fails)?;
    let mut out = MemorySink::new(alloc, 100_000, List::new(alloc))?;
    let mut err = MemorySink::new(alloc, 1_000, List::new(alloc))?;
    let status = status_of(alloc, words.as_slice(), &mut files, &mut out, &mut err);
    Ok(Seen { status, out, err })
}

fn each_is_answered(rt: &impl Abort, alloc: Global, cases: &[Case]) -> Result<(), Fail> {
    for (script, fails, status, put, told) in cases {
        let seen = run_words(alloc, WORDS, script, *fails)?;
        assert_eq!(rt; seen.status, *status);
        assert_eq!(rt; seen.out.bytes().len(), *put);
        assert_eq!(rt; seen.err.bytes(), *told);
    }
    Ok(())
}

#[test]
fn nothing_is_put_where_a_script_is_refused(rt: HostRuntime) -> Result<(), Fail> {
    each_is_answered(
        &rt,
        rt.alloc(),
        &[
            (b"print\n", NEVER, 5, 0, b"construct: document 156 float\n"),
            (b"remove y\nprint", NEVER, 4, 0, b"grammar: script 9 l2\n"),
            (
                b"remove y\nprint \n",
                NEVER,
                4,
                0,
                b"grammar: script 9 l3\n",
            ),
            (
                b"remove y\nprint\nremove z\n",
                NEVER,
                4,
                0,
                b"grammar: script 15 l4\n",
            ),
            (
                b"remove y\nprint\nremove y\n",
                NEVER,
                4,
                0,
                b"grammar: script 15 l4\n",
            ),
            (b"print \xFF\n", NEVER, 4, 0, b"grammar: script 6 l1\n"),
            (b"remove y\nprint\n", 4, 2, 0, b"read: script\n"),
        ],
    )
}

#[test]
fn a_script_without_prints_puts_nothing(rt: HostRuntime) -> Result<(), Fail> {
    each_is_answered(
        &rt,
        rt.alloc(),
        &[
            (b"", NEVER, 0, 0, b""),
            (
                b"text x \nclass x a b\nremove x\nremove x\n",
                NEVER,
                0,
                0,
                b"",
            ),
        ],
    )
}

#[test]
fn what_is_taken_out_refuses_no_print(rt: HostRuntime) -> Result<(), Fail> {
    let seen = run_words(
        rt.alloc(),
        WORDS,
        b"remove y\nprint\nremove x\nprint\n",
        NEVER,
    )?;
    assert_eq!(rt; seen.status, 0);
    assert!(rt;
        seen.out
            .bytes()
            .starts_with(b"mcol 2\n0 stack 0 0 0 11264 ")
    );
    assert!(rt; seen.err.bytes().is_empty());
    Ok(())
}

#[test]
fn words_are_six(rt: HostRuntime) -> Result<(), Fail> {
    let seen = run_words(rt.alloc(), "document sheet metrics 176 auto", b"", NEVER)?;
    assert_eq!(rt; seen.status, 1);
    assert_eq!(rt;
        seen.err.bytes(),
        b"usage: mcol_live DOC SHEET METRICS WIDTH HEIGHT SCRIPT\n".as_slice()
    );
    Ok(())
}

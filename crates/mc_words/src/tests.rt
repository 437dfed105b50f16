//! Words that are taken and words that aren't. A line is split at its spaces, so two of them have an empty word between them.

use crate::{Command, Page, SessionWords, WordsFault, read_session_words, read_words};
use std::alloc::{AllocError, Global};
use std::process::Abort;
use std::test::Fail;

fn words_of(alloc: Global, line: &str) -> Result<Vec<String>, AllocError> {
    let mut words = Vec::new(alloc);
    for word in line.split(' ') {
        words.push(String::from_str(alloc, word)?)?;
    }
    Ok(words)
}

/// Whether words are taken. It promises nothing, so that no proof here looks at the command.
fn are_taken(alloc: Global, words: &[String]) -> Result<bool, AllocError> {
    match read_words(alloc, words) {
        Ok(_) => Ok(true),
        Err(WordsFault::Refused) => Ok(false),
        Err(WordsFault::NoMemory) => Err(AllocError),
    }
}

fn each_comes_to(
    rt: &impl Abort,
    alloc: Global,
    lines: &[&'static str],
    wanted: bool,
) -> Result<(), Fail> {
    for line in lines {
        let words = words_of(alloc, line)?;
        let taken = are_taken(alloc, words.as_slice())?;
        assert!(rt; taken == wanted, "{line}");
    }
    Ok(())
}

const TAKEN: [&str; 20] = [
    "rows f",
    "rows help",
    "rows rows",
    "rows-check f r",
    "rows-check rows check",
    "gen 7 1",
    "gen 18446744073709551615 4294967295",
    "gen 007 0001",
    "trial 7 40",
    "layout d s m 600 auto",
    "layout d s m .5 0",
    "layout d s m 1.5 1.000000001",
    "check d s m 600 auto r",
    "check d s m 1.5 200 auto",
    "all d s m 600 auto",
    "all d s m .5 0",
    "hit d s m 100 auto 0 .25",
    "hit d s m 100 200 100 5",
    "draw d s m 100 auto 2",
    "draw d s m 100 auto .0",
];

const REFUSED: [&str; 53] = [
    "",
    "help",
    "--help",
    "-h",
    "--version",
    "--",
    "-- rows f",
    "row f",
    "Rows f",
    "rows",
    "rows ",
    "rows -f",
    "rows -- f",
    "rows f g",
    "rows help f",
    "help rows",
    "rows-check",
    "rows-check f",
    "rows-check f -r",
    "rows-check f r r",
    "rows_check f r",
    "gen",
    "gen 7",
    "gen 7 1 1",
    "gen -7 1",
    "gen +7 1",
    "gen 18446744073709551616 1",
    "gen 7 4294967296",
    "gen 7 1.0",
    "trial 7",
    "trial 7 40 1",
    "trial 7 -1",
    "layout d s m 600",
    "layout d s m 600 auto x",
    "layout d  m 600 auto",
    "layout d s -m 600 auto",
    "layout d s m +600 auto",
    "layout d s m 1. auto",
    "layout d s m 600 AUTO",
    "layout d s m auto auto",
    "check d s m 600 auto",
    "check d s m 600 auto ",
    "check d s m 600 auto r r",
    "all",
    "all d s m 600",
    "all d s m 600 auto x",
    "hit d s m 100 auto 5",
    "hit d s m 100 auto 5 5 5",
    "hit d s m 100 auto 5 -5",
    "hit d s m 100 auto 5 +5",
    "draw d s m 100 auto",
    "draw d s m 100 auto 2 2",
    "draw d s m 100 auto 2px",
];

#[test]
fn words_are_taken(rt: HostRuntime) -> Result<(), Fail> {
    each_comes_to(&rt, rt.alloc(), &TAKEN, true)
}

#[test]
fn words_are_refused(rt: HostRuntime) -> Result<(), Fail> {
    each_comes_to(&rt, rt.alloc(), &REFUSED, false)
}

/// Whether this is the point and the page of the test below.
fn is_wanted(command: Command<'_>) -> bool {
    match command {
        Command::Hit { page, x, y } => {
            let Page {
                document,
                sheet,
                metrics,
                width,
                height,
            } = page;
            document == "d"
                && sheet == "s"
                && metrics == "m"
                && (width, height, x, y) == (6400, Some(64), 96, 0)
        }
        _ => false,
    }
}

#[test]
fn numbers_are_units(rt: HostRuntime) -> Result<(), Fail> {
    let words = words_of(rt.alloc(), "hit d s m 100 0.5 1.5 .015")?;
    match read_words(rt.alloc(), words.as_slice()) {
        Ok(command) => assert!(rt; is_wanted(command), "another command"),
        Err(fault) => assert!(rt; false, "{fault:?}"),
    }
    Ok(())
}

const SESSIONS: [&str; 3] = [
    "d s m 600 auto e",
    "layout s m .5 0 help",
    "d s m 100 200 d",
];

const NO_SESSIONS: [&str; 9] = [
    "",
    "d s m 600 auto",
    "d s m 600 auto e e",
    "d s m 600 auto ",
    "d s m 600 auto -e",
    "d  m 600 auto e",
    "d s m -600 auto e",
    "d s m 600 AUTO e",
    "session d s m 600 auto e",
];

fn sessions_come_to(
    rt: &impl Abort,
    alloc: Global,
    lines: &[&'static str],
    wanted: bool,
) -> Result<(), Fail> {
    for line in lines {
        let words = words_of(alloc, line)?;
        let taken = read_session_words(words.as_slice()).is_some();
        assert!(rt; taken == wanted, "{line}");
    }
    Ok(())
}

#[test]
fn sessions_are_taken_or_refused(rt: HostRuntime) -> Result<(), Fail> {
    sessions_come_to(&rt, rt.alloc(), &SESSIONS, true)?;
    sessions_come_to(&rt, rt.alloc(), &NO_SESSIONS, false)
}

/// Whether this is the page and the script of the test below.
fn is_wanted_session(session: SessionWords<'_>) -> bool {
    let SessionWords { page, script } = session;
    page.document == "d"
        && page.sheet == "s"
        && page.metrics == "m"
        && (page.width, page.height) == (6400, None)
        && script == "e"
}

#[test]
fn a_session_has_a_page_and_a_script(rt: HostRuntime) -> Result<(), Fail> {
    let words = words_of(rt.alloc(), "d s m 100 auto e")?;
    match read_session_words(words.as_slice()) {
        Some(session) => assert!(rt; is_wanted_session(session), "another session"),
        None => assert!(rt; false, "refused"),
    }
    Ok(())
}

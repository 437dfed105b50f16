//! Tests: a document that is printed again, and how many runs were broken by then.

use crate::Session;
use doc_flows::{Reading, all_sheets, read};
use mc_base::{LimitName, Refusal, Text};
use std::alloc::Global;
use std::test::Fail;

const DOCUMENT: &[u8] =
    b"<div id=d><p id=x>aaaa bbbb cccc</p><p>aaaa bbbb cccc</p><p>dddd</p></div>";

const SHEET: &[u8] =
    b"body { margin: 0 } div { columns: 2; column-gap: 16px } p { margin: 0; font-size: 16px; line-height: 20px }";

const METRICS: &[u8] = b"metrics 1\nface a 400 normal 800 200 500\n";

/// A session of the document, 176 px wide.
fn session(alloc: Global) -> Result<Session, Refusal> {
    let Reading {
        dom,
        own,
        author,
        fonts,
    } = read(alloc, DOCUMENT, SHEET, METRICS)?;
    let sheets = all_sheets(alloc, author, own.sheets)?;
    Ok(Session::begin(alloc, dom, sheets, fonts, 11264, None))
}

/// Whether the first print and the second have the same bytes, and some.
fn is_same(first: &Text, second: &Text) -> bool {
    !first.is_empty() && first.as_slice() == second.as_slice()
}

#[test]
fn runs_that_say_the_same_are_broken_once(rt: HostRuntime) -> Result<(), Fail> {
    let mut session = session(rt.alloc())?;
    assert_eq!(rt; session.broken(), 0);
    let first = session.result()?;
    assert_eq!(rt; session.broken(), 2);
    let second = session.result()?;
    assert_eq!(rt; session.broken(), 2);
    assert!(rt; is_same(&first, &second));
    Ok(())
}

/// Whether a print is refused since the results have too many bytes.
fn is_too_long(printed: Result<Text, Refusal>) -> bool {
    matches!(
        printed,
        Err(Refusal::Limit {
            name: LimitName::Result,
            ..
        },)
    )
}

#[test]
fn a_print_has_no_more_bytes_than_are_left(rt: HostRuntime) -> Result<(), Fail> {
    let mut session = session(rt.alloc())?;
    let whole = session.result()?;
    let size = whole.len() as u64;
    assert!(rt; size > 0);
    assert!(rt; is_too_long(session.print(size - 1)));
    let again = session.print(size)?;
    assert!(rt; is_same(&whole, &again));
    Ok(())
}

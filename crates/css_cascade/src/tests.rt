//! Tests: documents with sheets, and the top margin and the refusal of the first element of the body, which is node 3.

ghost use Rattle.std.specs.Prelude.{IsSome};
ghost use Rattle.css_cascade.specs.Entries.{entry_at as entry_of_node};

use crate::{Computed, Styles, cascade};
use css_select::is_element_at;
use css_syntax::parse_sheet;
use css_winner::built_in;
use html_subset::parse;
use mc_base::{ConstructName, Input, Refusal, Rule};
use std::alloc::Global;
use std::test::Fail;

fn read(styles: &Styles, node: u32) -> (u64, Option<ConstructName>)
    requires { IsSome (entry_of_node styles.now node) }
{
    let margin = match &styles.of(node).margin_top {
        Computed::Length { units } => *units,
        _ => 0,
    };
    (margin, styles.refused(node))
}

fn answer(
    alloc: Global,
    document: &str,
    sheet: &str,
) -> Result<(u64, Option<ConstructName>), Refusal> {
    if document.len() > 4096 || sheet.len() > 4096 {
        return Err(Refusal::NoMemory);
    }
    let dom = parse(alloc, document.as_bytes())?;
    let mut sheets = Vec::new(alloc);
    sheets.push(parse_sheet(alloc, sheet.as_bytes())?)?;
    let styles = cascade(alloc, &dom, sheets.as_slice())?;
    if !is_element_at(&dom, 3) {
        return Ok((0, None));
    }
    Ok(read(&styles, 3))
}

#[test]
fn declarations_win(rt: HostRuntime) -> Result<(), Fail> {
    let alloc = rt.alloc();
    for (document, sheet, margin, refused) in [
        (
            "<p style='margin:2px'>",
            "p{margin:4px!important} p{margin:0}",
            256,
            None,
        ),
        ("<p>", "", 1024, None),
        ("<p>", "p{margin:1px} p{margin:2px}", 128, None),
        ("<p class=a>", ".a{margin:1px} p{margin:2px}", 64, None),
        (
            "<p class=a id=b>",
            "#b{margin:1px} .a.a.a{margin:2px} p{margin:3px}",
            64,
            None,
        ),
        (
            "<p class='x a'>",
            "p{color:red;margin:3px!important} .a{margin:2px!important}",
            128,
            None,
        ),
        (
            "<p style='margin:2px!important'>",
            "p{margin:4px!important}",
            128,
            None,
        ),
        ("<p style='margin:2px'>", "#a,p{margin:4px}", 128, None),
        ("<p>", "P{margin:1px} :hover{margin:2px}", 64, None),
        ("<p>", "div{margin:2px}*{margin:1px}", 64, None),
        (
            "<p style='float:left'>",
            "",
            1024,
            Some(ConstructName::Float),
        ),
        (
            "<p style='float:left'>",
            "p{float:none!important}",
            1024,
            None,
        ),
        (
            "<p style='float:left'>",
            "p{display:grid}",
            1024,
            Some(ConstructName::Display),
        ),
        (
            "<p>",
            "p{margin:3vw} p{margin-top:3px}",
            192,
            Some(ConstructName::Unit),
        ),
        (
            "<p>",
            "p{margin:3px} p{margin-top:calc(1px)}",
            0,
            Some(ConstructName::Function),
        ),
    ] {
        let (own_margin, own_refused) = answer(alloc, document, sheet)?;
        assert_eq!(rt; own_margin, margin, "at {document} {sheet}");
        assert_eq!(rt; own_refused, refused, "at {document} {sheet}");
    }
    Ok(())
}

#[test]
fn style_attributes_come_first(rt: HostRuntime) -> Result<(), Fail> {
    let Err(refusal) = answer(rt.alloc(), "<p style=float:left><p style='a:('>", "") else {
        return Ok(assert!(rt; false, "no refusal"));
    };
    let wanted = Refusal::Grammar {
        input: Input::Document,
        offset: 30,
        rule: Rule {
            letter: b's',
            number: 4,
        },
    };
    assert_eq!(rt; refusal, wanted);
    Ok(())
}

#[test]
fn built_in_sheet_is_read(rt: HostRuntime) -> Result<(), Fail> {
    let sheet = built_in(rt.alloc())?;
    assert_eq!(rt; sheet.rules.len(), 19);
    assert_eq!(rt; sheet.construct, None);
    Ok(())
}

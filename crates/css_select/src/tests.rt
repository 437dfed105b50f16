//! Selectors in a notation of pieces with spaces: `div #x .a` is one compound selector, and `/`, `>`, `+` and `~` join two.

ghost use Rattle.std.specs.Prelude.{◌^◌, ◌≤◌, length};
ghost use Rattle.html_subset.specs.WellFormed.{IsWellFormed};

use crate::{Weight, is_element_at, matches, specificity};
use css_data::{AttrOp, Compound, Join, Selector, Test};
use html_subset::{Attribute, Dom, DomNode, NodeKind, parse};
use mc_base::{List, Refusal, Text};
use std::alloc::{AllocError, Global};
use std::process::Abort;
use std::str;
use std::test::Fail;

const DOCUMENT: &[u8] =
    b"<body id=b><div id=d1 class='a b'><p id=p1 lang=en-US>t<span id=s>v</span></p>w<p id=p2 class=a title='one two'></p>\
<a id=k href=x></a></div><div id=d2><h1 id=h></h1><p id=p3 title=''></p></div>";

fn text(alloc: Global, bytes: &[u8]) -> Result<Text, AllocError> {
    let mut text = Text::new(alloc);
    text.extend(bytes)?;
    Ok(text)
}

fn join_of(piece: &str) -> Option<Join> {
    match piece {
        "/" => Some(Join::Descendant),
        ">" => Some(Join::Child),
        "+" => Some(Join::Next),
        "~" => Some(Join::Later),
        _ => None,
    }
}

fn test_of(alloc: Global, piece: &str) -> Result<Option<Test>, AllocError> {
    Ok(Some(match piece.as_bytes() {
        [b'#', name @ ..] => Test::Id {
            text: text(alloc, name)?,
        },
        [b'.', name @ ..] => Test::Class {
            text: text(alloc, name)?,
        },
        b":root" => Test::Root,
        b":first-child" => Test::FirstChild,
        b":last-child" => Test::LastChild,
        b":link" => Test::Link,
        b":odd" => Test::Nth { step: 2, offset: 1 },
        b":-n+2" => Test::Nth {
            step: -1,
            offset: 2,
        },
        b":hover" => Test::Never,
        b"::x" => Test::PseudoElement,
        _ => return Ok(None),
    }))
}

fn selector_of(alloc: Global, notation: &str) -> Result<Selector, AllocError> {
    let mut compounds = Vec::new(alloc);
    let mut joins = Vec::new(alloc);
    let mut element = None;
    let mut tests = Vec::new(alloc);
    for piece in notation.split(' ') {
        if let Some(join) = join_of(piece) {
            compounds.push(Compound {
                element,
                tests: List::of(tests),
            })?;
            joins.push(join)?;
            element = None;
            tests = Vec::new(alloc);
        } else if let Some(test) = test_of(alloc, piece)? {
            tests.push(test)?;
        } else if piece != "*" {
            element = Some(text(alloc, piece.as_bytes())?);
        }
    }
    compounds.push(Compound {
        element,
        tests: List::of(tests),
    })?;
    Ok(Selector {
        compounds: List::of(compounds),
        joins: List::of(joins),
    })
}

fn id_of(attributes: &[Attribute]) -> &[u8] {
    for attribute in attributes {
        if attribute.name.as_slice() == b"id".as_slice() {
            return attribute.value.as_slice();
        }
    }
    b"-"
}

fn push_id(out: &mut String, node: &DomNode) -> Result<(), AllocError> {
    match &node.kind {
        NodeKind::Element {
            name: _,
            attributes,
        } => {
            out.push_str(str::from_utf8(id_of(attributes.as_slice())).unwrap_or("?"))?;
            out.push_str(" ")
        }
        NodeKind::Words { text: _ } => Ok(()),
    }
}

/// The ids of the elements that a selector matches.
fn matched(alloc: Global, dom: &Dom, selector: &Selector) -> Result<String, AllocError>
    requires { IsWellFormed dom.now }
{
    let mut out = String::new(alloc);
    for number in 0..dom.nodes.len() as u32 {
        if is_element_at(dom, number) && matches(selector, dom, number) {
            push_id(&mut out, &dom.nodes.as_slice()[number as usize])?;
        }
    }
    Ok(out)
}

/// The ids of the elements of a document that a selector matches.
fn matched_in(alloc: Global, document: &[u8], selector: &Selector) -> Result<String, Refusal>
    requires { length document.now ≤ 2 ^ 28 }
{
    let dom = parse(alloc, document)?;
    Ok(matched(alloc, &dom, selector)?)
}

fn each_matches(rt: &impl Abort, alloc: Global, cases: &[(&str, &str)]) -> Result<(), Fail> {
    for (notation, wanted) in cases {
        let selector = selector_of(alloc, notation)?;
        let found = matched_in(alloc, DOCUMENT, &selector)?;
        assert!(rt; found.as_str() == *wanted, "at {notation}");
    }
    Ok(())
}

const MATCHES: [(&str, &str); 26] = [
    ("P", "p1 p2 p3 "),
    ("*", "- - b d1 p1 s p2 k d2 h p3 "),
    ("#p2", "p2 "),
    (".a", "d1 p2 "),
    (".b .a", "d1 "),
    (".ab", ""),
    ("div / span", "s "),
    ("div > span", ""),
    ("p > span", "s "),
    ("body / div > p", "p1 p2 p3 "),
    ("p + p", "p2 "),
    ("p + a", "k "),
    ("#p1 + a", ""),
    ("#p1 ~ a", "k "),
    ("span ~ p", ""),
    ("div .b ~ div / p", "p3 "),
    ("div ~ div / span", ""),
    ("html > body > #d1 > #p1 + p ~ a", "k "),
    (":root", "- "),
    (":first-child", "- - d1 p1 s h "),
    (":last-child", "- b s k d2 p3 "),
    (":link", "k "),
    (":odd", "- - d1 p1 s k h "),
    (":-n+2", "- - b d1 p1 s p2 d2 h p3 "),
    (":hover", ""),
    ("::x", ""),
];

#[test]
fn selectors_match(rt: HostRuntime) -> Result<(), Fail> {
    each_matches(&rt, rt.alloc(), &MATCHES)
}

fn attribute_selector(
    alloc: Global,
    name: &str,
    op: AttrOp,
    value: &str,
) -> Result<Selector, AllocError> {
    let mut tests = Vec::new(alloc);
    tests.push(Test::Attr {
        name: text(alloc, name.as_bytes())?,
        op,
        value: text(alloc, value.as_bytes())?,
    })?;
    let mut compounds = Vec::new(alloc);
    compounds.push(Compound {
        element: None,
        tests: List::of(tests),
    })?;
    Ok(Selector {
        compounds: List::of(compounds),
        joins: List::new(alloc),
    })
}

/// The name of an attribute, how it is compared with a value, and the ids of the elements that have it so.
type AttributeCase = (&'static str, AttrOp, &'static str, &'static str);

fn each_compares(rt: &impl Abort, alloc: Global, cases: &[AttributeCase]) -> Result<(), Fail> {
    for (name, op, value, wanted) in cases {
        let selector = attribute_selector(alloc, name, *op, value)?;
        let found = matched_in(alloc, DOCUMENT, &selector)?;
        assert!(rt; found.as_str() == *wanted, "at {name} {value}");
    }
    Ok(())
}

const ATTRIBUTES: [AttributeCase; 16] = [
    ("Lang", AttrOp::Has, "", "p1 "),
    ("title", AttrOp::Equal, "one two", "p2 "),
    ("title", AttrOp::Equal, "", "p3 "),
    ("title", AttrOp::Equal, "One two", ""),
    ("title", AttrOp::Word, "two", "p2 "),
    ("title", AttrOp::Word, "one two", ""),
    ("title", AttrOp::Word, "", ""),
    ("lang", AttrOp::Dash, "en", "p1 "),
    ("lang", AttrOp::Dash, "en-US", "p1 "),
    ("lang", AttrOp::Dash, "e", ""),
    ("title", AttrOp::Prefix, "one ", "p2 "),
    ("title", AttrOp::Prefix, "", ""),
    ("title", AttrOp::Suffix, "two", "p2 "),
    ("title", AttrOp::Suffix, "", ""),
    ("title", AttrOp::Part, "e t", "p2 "),
    ("title", AttrOp::Part, "", ""),
];

#[test]
fn attributes_are_compared(rt: HostRuntime) -> Result<(), Fail> {
    each_compares(&rt, rt.alloc(), &ATTRIBUTES)
}

#[test]
fn specificity_counts(rt: HostRuntime) -> Result<(), Fail> {
    let selector = selector_of(rt.alloc(), "div / p .a #x :first-child")?;
    let wanted = Weight {
        ids: 1,
        classes: 2,
        types: 2,
    };
    assert_eq!(rt; specificity(&selector), wanted);
    Ok(())
}

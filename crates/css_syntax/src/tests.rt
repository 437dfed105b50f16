use crate::{parse_declarations, parse_media, parse_sheet};
use mc_base::{ConstructName, Found, Input, LimitName, NoMemory, Refusal, Rule};
use std::alloc::Global;
use std::test::Fail;

/// How many rules a sheet has, and its first construct; or its refusal.
fn told(alloc: Global, text: &[u8]) -> Result<(usize, Option<Found>), Refusal> {
    if text.len() > 1_000_000 {
        return Err(Refusal::NoMemory);
    }
    let sheet = parse_sheet(alloc, text)?;
    Ok((sheet.rules.len(), sheet.construct))
}

/// The offset of each declaration, how many tokens its value has, and whether it is important.
fn declared(alloc: Global, text: &[u8]) -> Result<Vec<(u64, usize, bool)>, Refusal> {
    let mut all = Vec::new(alloc);
    if text.len() > 1_000_000 {
        return Ok(all);
    }
    let read = parse_declarations(alloc, text)?;
    for declaration in read.as_slice() {
        all.push((
            declaration.offset,
            declaration.value.len(),
            declaration.important,
        ))?;
    }
    Ok(all)
}

/// Whether listed media apply.
fn listed(alloc: Global, text: &[u8]) -> Result<Option<bool>, NoMemory> {
    if text.len() > 1_000_000 {
        return Err(NoMemory);
    }
    parse_media(alloc, text)
}

fn fault(offset: u64, number: u8) -> Result<(usize, Option<Found>), Refusal> {
    Err(Refusal::Grammar {
        input: Input::Sheet,
        offset,
        rule: Rule {
            letter: b's',
            number,
        },
    })
}

fn construct(
    rules: usize,
    offset: u64,
    name: ConstructName,
) -> Result<(usize, Option<Found>), Refusal> {
    Ok((rules, Some(Found { offset, name })))
}

#[test]
fn faults_stand_at_their_bytes(rt: HostRuntime) {
    let cases: [(&[u8], u64, u8); 26] = [
        (b"a{}\x00", 3, 1),
        (b"/* x", 0, 2),
        (b"p{/* x", 1, 4),
        (b"p{a:'x", 1, 4),
        (b"q /* x", 0, 5),
        (b"q'x", 0, 5),
        (b"'x", 0, 3),
        (b"p{a:'x\n}", 4, 3),
        (b"a{(}", 1, 4),
        (b"p{([)}", 1, 4),
        (b"p{)}", 2, 4),
        (b"p}", 0, 5),
        (b"p} q{}", 1, 4),
        (b"q ( {}", 0, 5),
        (b"@media{p}", 7, 5),
        (b"@media{@x}", 7, 5),
        (b"@media{p ) } q", 7, 5),
        (b"p { margin: 0 } q", 16, 5),
        (b"p{margin:0", 1, 4),
        (b"@import x", 0, 5),
        (b"}", 0, 4),
        (b"@media{p(}", 6, 4),
        (b"p{a:f(x}", 1, 4),
        (b"\xef\xbb\xbf)", 3, 4),
        (b"\r\n)", 2, 4),
        (b"p{}/**/q(", 7, 5),
    ];
    for (text, offset, number) in cases {
        assert_eq!(rt; told(rt.alloc(), text), fault(offset, number), "{text:?}");
    }
}

#[test]
fn constructs_stand_at_their_bytes(rt: HostRuntime) {
    let cases: [(&[u8], usize, u64, ConstructName); 12] = [
        (b"@import \"x\";", 0, 0, ConstructName::AtRule),
        (b"p{} @SUPPORTS (x){q{}}", 1, 4, ConstructName::AtRule),
        (b"@media tv{p{}}", 0, 0, ConstructName::Media),
        (b"@media (x){p{}}", 0, 0, ConstructName::Media),
        (b"p:foo{}", 1, 1, ConstructName::PseudoClass),
        (b"q,p:is(a,b) x{}", 1, 3, ConstructName::PseudoClass),
        (b"p::before{}", 1, 1, ConstructName::PseudoElement),
        (b"p:BEFORE(x){}", 1, 1, ConstructName::PseudoElement),
        (b"p{a:\\62}q:foo{}", 2, 4, ConstructName::Escape),
        (b"q:foo{a:\\62}", 1, 1, ConstructName::PseudoClass),
        (b"@media print{p:foo{}}", 0, 14, ConstructName::PseudoClass),
        (b"@page{\\}", 0, 6, ConstructName::Escape),
    ];
    for (text, rules, offset, name) in cases {
        assert_eq!(rt;
            told(rt.alloc(), text),
            construct(rules, offset, name),
            "{text:?}"
        );
    }
}

#[test]
fn rules_are_kept_or_dropped(rt: HostRuntime) {
    let cases: [(&[u8], usize); 35] = [
        (b"", 0),
        (b"p{}", 1),
        (b"p{}q{}", 2),
        (b"p q > a + b ~ c , d{}", 1),
        (b"*{}", 1),
        (b"p:foo 3{}", 0),
        (b"p:foo, 3{}", 0),
        (b"p,{}", 0),
        (b"{}", 0),
        (b"p:hover(x){}", 0),
        (b"p:foo (x){}", 0),
        (b"p:first-child{}", 1),
        (b"p/**/.a{}", 1),
        (b"p/**/q{}", 0),
        (b"#1a{}", 1),
        (b".1a{}", 0),
        (b"[a=1]{}", 0),
        (b"[ a ~= 'x' ]{}", 1),
        (b"[a]#b.c::x{}", 1),
        (b"li:nth-child(o dd){}", 1),
        (b"li:nth-child(-1 n + 3){}", 1),
        (b"li:nth-child(n+-1){}", 0),
        (b"li:nth-child(--n){}", 0),
        (b"li:nth-child(1.0){}", 0),
        (b"li:nth-child(){}", 0),
        (b"li:nth-child{}", 0),
        (b"@ p{}", 0),
        (b"@supports(x){q{}}p{}", 1),
        (b"@media screen , PRINT{p{}}", 1),
        (b"@media{@media print{p{}}q{}}", 1),
        (b"@media print{@media all{p{}}}q{}", 1),
        (b"@-webkit-keyframes x{from{}}p{}", 1),
        (b"@font-face{src:url(x)}", 0),
        (b"@charset 'x';p{}", 1),
        (b"p;q{}", 0),
    ];
    for (text, rules) in cases {
        assert_eq!(rt; told(rt.alloc(), text), Ok((rules, None)), "{text:?}");
    }
}

#[test]
fn rules_have_a_limit(rt: HostRuntime) -> Result<(), Fail> {
    let mut text = Vec::new(rt.alloc());
    for _ in 0..4000 {
        text.extend_from_slice(b"p{}")?;
    }
    assert_eq!(rt; told(rt.alloc(), &text), Ok((4000, None)));
    text.extend_from_slice(b"@media print{3{}}")?;
    let refused = Err(Refusal::Limit {
        name: LimitName::Rules,
        reached: 4001,
        limit: 4000,
    });
    assert_eq!(rt; told(rt.alloc(), &text), refused);
    Ok(())
}

#[test]
fn a_rule_has_its_declarations(rt: HostRuntime) -> Result<(), Fail> {
    let sheet = parse_sheet(rt.alloc(), b"a{color:red;width:1px!important}")?;
    let mut offsets = Vec::new(rt.alloc());
    for rule in sheet.rules.as_slice() {
        for declaration in rule.declarations.as_slice() {
            offsets.push((declaration.offset, declaration.important))?;
        }
    }
    assert_eq!(rt; offsets.as_slice(), [(2, false), (12, true)].as_slice());
    Ok(())
}

#[test]
fn declarations_are_read(rt: HostRuntime) -> Result<(), Fail> {
    let cases: [(&[u8], &[(u64, usize, bool)]); 9] = [
        (b"", &[]),
        (b" color : red ; ; x", &[(1, 1, false)]),
        (b"float:", &[]),
        (b"float:!important", &[]),
        (
            b"float: none ! IMPORTANT ;a:b",
            &[(0, 1, true), (25, 1, false)],
        ),
        (b"float: none !x", &[(0, 4, false)]),
        (b"{;}float:left", &[]),
        (b"a:\\62 ;b:rgb(1,2;3)", &[(7, 7, false)]),
        (b"\xef\xbb\xbfa:-1.5em/**/+2%", &[(3, 2, false)]),
    ];
    for (text, wanted) in cases {
        let read = declared(rt.alloc(), text)?;
        assert_eq!(rt; read.as_slice(), wanted, "{text:?}");
    }
    Ok(())
}

#[test]
fn media_are_listed(rt: HostRuntime) -> Result<(), Fail> {
    let cases: [(&[u8], Option<bool>); 8] = [
        (b"", Some(true)),
        (b" \r", Some(true)),
        (b"print , Screen", Some(true)),
        (b"print", Some(false)),
        (b"print,", None),
        (b"tv", None),
        (b"all /*", None),
        (b"\xef\xbb\xbfall", None),
    ];
    for (text, applies) in cases {
        assert_eq!(rt; listed(rt.alloc(), text)?, applies, "{text:?}");
    }
    Ok(())
}

use crate::declared::{Declared, Longhand, Value};
use crate::parse_declaration;
use css_data::CssToken;
use mc_base::{ConstructName, Decimal, Text};
use std::alloc::{AllocError, Global};
use std::process::Abort;
use std::test::Fail;

/// A token of a test: numbers are in thousandths.
#[derive(Clone, Copy)]
enum Token {
    Ident(&'static [u8]),
    Hash(&'static [u8]),
    Quoted(&'static [u8]),
    Number(i32),
    Whole(i32),
    Percent(i32),
    Size(i32, &'static [u8]),
    Function(&'static [u8]),
    Sign(char),
    Space,
}

fn text(alloc: Global, bytes: &[u8]) -> Result<Text, AllocError> {
    let mut text = Text::new(alloc);
    text.extend(bytes)?;
    Ok(text)
}

fn decimal(thousandths: i32) -> Decimal {
    Decimal {
        negative: thousandths < 0,
        billionths: u64::from(thousandths.unsigned_abs()) * 1_000_000,
    }
}

fn made(alloc: Global, token: Token) -> Result<CssToken, AllocError> {
    Ok(match token {
        Token::Ident(word) => CssToken::Ident {
            text: text(alloc, word)?,
        },
        Token::Hash(word) => CssToken::Hash {
            text: text(alloc, word)?,
        },
        Token::Quoted(word) => CssToken::Quoted {
            text: text(alloc, word)?,
        },
        Token::Number(n) => CssToken::Number {
            value: decimal(n),
            whole: false,
        },
        Token::Whole(n) => CssToken::Number {
            value: decimal(n),
            whole: true,
        },
        Token::Percent(n) => CssToken::Percent { value: decimal(n) },
        Token::Size(n, unit) => CssToken::Dimension {
            value: decimal(n),
            unit: text(alloc, unit)?,
        },
        Token::Function(name) => CssToken::Function {
            name: text(alloc, name)?,
        },
        Token::Sign(ch) => CssToken::Delim { ch },
        Token::Space => CssToken::Space,
    })
}

fn tokens(alloc: Global, value: &[Token]) -> Result<Vec<CssToken>, AllocError> {
    let mut tokens = Vec::new(alloc);
    for one in value {
        tokens.push(made(alloc, *one)?)?;
    }
    Ok(tokens)
}

fn declared(alloc: Global, name: &[u8], value: &[Token]) -> Result<Declared, Fail> {
    let tokens = tokens(alloc, value)?;
    Ok(parse_declaration(alloc, name, tokens.as_slice())?)
}

/// The text of a value and its number in thousandths, as far as it has them.
fn said(value: &Value) -> (&[u8], u64) {
    match value {
        Value::Word { name } => (name.as_slice(), 0),
        Value::Length { value, unit } => (unit.as_slice(), value.billionths / 1_000_000),
        Value::Percent { value } => (b"%", value.billionths / 1_000_000),
        Value::Number { value } => (b"", value.billionths / 1_000_000),
        Value::Names { names } => match names.as_slice() {
            [name, ..] => (name.as_slice(), 0),
            [] => (b"no name", 0),
        },
        Value::Inherit => (b"<inherit>", 0),
        Value::Initial => (b"<initial>", 0),
        Value::Unset => (b"<unset>", 0),
    }
}

/// Whether a declaration sets so many properties, and the last of them to this.
fn is_set(declared: &Declared, count: usize, word: &[u8], number: u64) -> bool {
    match declared {
        Declared::Set(set) => {
            let set = set.as_slice();
            match set.last() {
                Some(Longhand { value, .. }) => {
                    let last = said(value);
                    set.len() == count && word == last.0 && number == last.1
                }
                None => count == 0,
            }
        }
        _ => false,
    }
}

fn is_refused(declared: &Declared, name: ConstructName) -> bool {
    match declared {
        Declared::Refused(found) => *found == name,
        _ => false,
    }
}

fn is_ignored(declared: &Declared) -> bool {
    match declared {
        Declared::Ignored => true,
        _ => false,
    }
}

/// A name, the tokens of its value, how many properties they set, and the last of these values.
type SetCase = (&'static [u8], &'static [Token], usize, &'static [u8], u64);

type IgnoredCase = (&'static [u8], &'static [Token]);

type RefusedCase = (&'static [u8], &'static [Token], ConstructName);

fn each_is_set(rt: &impl Abort, alloc: Global, cases: &[SetCase]) -> Result<(), Fail> {
    for (name, value, count, word, number) in cases {
        let declared = declared(alloc, name, value)?;
        assert!(rt; is_set(&declared, *count, word, *number));
    }
    Ok(())
}

fn each_is_ignored(rt: &impl Abort, alloc: Global, cases: &[IgnoredCase]) -> Result<(), Fail> {
    for (name, value) in cases {
        let declared = declared(alloc, name, value)?;
        assert!(rt; is_ignored(&declared));
    }
    Ok(())
}

fn each_is_refused(rt: &impl Abort, alloc: Global, cases: &[RefusedCase]) -> Result<(), Fail> {
    for (name, value, wanted) in cases {
        let declared = declared(alloc, name, value)?;
        assert!(rt; is_refused(&declared, *wanted));
    }
    Ok(())
}

const TEXT_VALUES: [SetCase; 16] = [
    (b"display", &[Token::Ident(b"block")], 1, b"block", 0),
    (
        b"Display",
        &[Token::Ident(b"LIST-item")],
        1,
        b"list-item",
        0,
    ),
    (b"font-size", &[Token::Ident(b"smaller")], 1, b"em", 800),
    (b"font-size", &[Token::Percent(90000)], 1, b"%", 90000),
    (
        b"font-family",
        &[Token::Ident(b"Times"), Token::Space, Token::Ident(b"New")],
        1,
        b"Times New",
        0,
    ),
    (b"font-weight", &[Token::Ident(b"bolder")], 1, b"bold", 0),
    (b"font-weight", &[Token::Number(599900)], 1, b"", 599900),
    (b"font-style", &[Token::Ident(b"oblique")], 1, b"italic", 0),
    (b"line-height", &[Token::Ident(b"normal")], 1, b"", 1200),
    (b"line-height", &[Token::Whole(0)], 1, b"", 0),
    (b"white-space", &[Token::Ident(b"pre")], 1, b"pre", 0),
    (b"hyphens", &[Token::Ident(b"auto")], 1, b"manual", 0),
    (b"text-align", &[Token::Ident(b"justify")], 1, b"left", 0),
    (b"orphans", &[Token::Whole(2000)], 1, b"", 2000),
    (b"widows", &[Token::Whole(1000)], 1, b"", 1000),
    (b"widows", &[Token::Ident(b"Inherit")], 1, b"<inherit>", 0),
];

#[test]
fn values_of_text_are_set(rt: HostRuntime) -> Result<(), Fail> {
    each_is_set(&rt, rt.alloc(), &TEXT_VALUES)
}

const BOX_VALUES: [SetCase; 21] = [
    (b"margin-top", &[Token::Whole(0)], 1, b"px", 0),
    (b"margin-right", &[Token::Size(500, b"EM")], 1, b"em", 500),
    (b"margin-bottom", &[Token::Percent(10000)], 1, b"%", 10000),
    (b"margin-left", &[Token::Ident(b"auto")], 1, b"auto", 0),
    (b"padding-top", &[Token::Size(2000, b"mm")], 1, b"mm", 2000),
    (b"padding-right", &[Token::Percent(1000)], 1, b"%", 1000),
    (b"padding-bottom", &[Token::Number(0)], 1, b"px", 0),
    (
        b"padding-left",
        &[Token::Size(1000, b"rem")],
        1,
        b"rem",
        1000,
    ),
    (
        b"border-top-width",
        &[Token::Ident(b"thin")],
        1,
        b"px",
        1000,
    ),
    (
        b"border-right-width",
        &[Token::Ident(b"medium")],
        1,
        b"px",
        3000,
    ),
    (
        b"border-bottom-width",
        &[Token::Ident(b"thick")],
        1,
        b"px",
        5000,
    ),
    (
        b"border-left-width",
        &[Token::Size(1000, b"pt")],
        1,
        b"pt",
        1000,
    ),
    (b"border-top-style", &[Token::Ident(b"none")], 1, b"none", 0),
    (
        b"border-right-style",
        &[Token::Ident(b"solid")],
        1,
        b"solid",
        0,
    ),
    (
        b"border-bottom-style",
        &[Token::Ident(b"ridge")],
        1,
        b"ridge",
        0,
    ),
    (
        b"border-left-style",
        &[Token::Ident(b"hidden")],
        1,
        b"hidden",
        0,
    ),
    (b"width", &[Token::Size(1000, b"in")], 1, b"in", 1000),
    (b"max-width", &[Token::Ident(b"none")], 1, b"none", 0),
    (b"height", &[Token::Percent(50000)], 1, b"auto", 0),
    (
        b"box-sizing",
        &[Token::Ident(b"border-box")],
        1,
        b"border-box",
        0,
    ),
    (
        b"box-decoration-break",
        &[Token::Ident(b"clone")],
        1,
        b"clone",
        0,
    ),
];

#[test]
fn values_of_boxes_are_set(rt: HostRuntime) -> Result<(), Fail> {
    each_is_set(&rt, rt.alloc(), &BOX_VALUES)
}

const COLUMN_VALUES: [SetCase; 10] = [
    (
        b"column-width",
        &[Token::Size(10000, b"cm")],
        1,
        b"cm",
        10000,
    ),
    (b"column-count", &[Token::Whole(3000)], 1, b"", 3000),
    (b"column-gap", &[Token::Ident(b"normal")], 1, b"normal", 0),
    (
        b"column-fill",
        &[Token::Ident(b"balance-all")],
        1,
        b"balance-all",
        0,
    ),
    (b"column-span", &[Token::Ident(b"all")], 1, b"all", 0),
    (b"break-before", &[Token::Ident(b"page")], 1, b"auto", 0),
    (b"break-after", &[Token::Ident(b"column")], 1, b"column", 0),
    (
        b"break-inside",
        &[Token::Ident(b"avoid-column")],
        1,
        b"avoid",
        0,
    ),
    (
        b"page-break-after",
        &[Token::Ident(b"always")],
        1,
        b"auto",
        0,
    ),
    (
        b"gap",
        &[Token::Ident(b"normal"), Token::Size(4000, b"pc")],
        1,
        b"pc",
        4000,
    ),
];

#[test]
fn values_of_columns_are_set(rt: HostRuntime) -> Result<(), Fail> {
    each_is_set(&rt, rt.alloc(), &COLUMN_VALUES)
}

const SHORTHAND_VALUES: [SetCase; 9] = [
    (
        b"margin",
        &[Token::Whole(0), Token::Space, Token::Size(2000, b"px")],
        4,
        b"px",
        2000,
    ),
    (
        b"padding",
        &[
            Token::Whole(0),
            Token::Whole(0),
            Token::Whole(0),
            Token::Size(4000, b"px"),
        ],
        4,
        b"px",
        4000,
    ),
    (b"border-width", &[Token::Ident(b"unset")], 4, b"<unset>", 0),
    (
        b"border-style",
        &[Token::Ident(b"dotted"), Token::Ident(b"dashed")],
        4,
        b"dashed",
        0,
    ),
    (
        b"border",
        &[Token::Hash(b"fff"), Token::Ident(b"solid")],
        8,
        b"solid",
        0,
    ),
    (
        b"border-left",
        &[
            Token::Function(b"RGB"),
            Token::Sign('('),
            Token::Sign(')'),
            Token::Sign(')'),
            Token::Whole(0),
        ],
        2,
        b"<initial>",
        0,
    ),
    (
        b"columns",
        &[Token::Whole(0), Token::Whole(2000)],
        2,
        b"",
        2000,
    ),
    (
        b"columns",
        &[Token::Ident(b"auto"), Token::Ident(b"auto")],
        2,
        b"auto",
        0,
    ),
    (b"overflow", &[Token::Ident(b"visible")], 0, b"", 0),
];

#[test]
fn shorthands_set_their_properties(rt: HostRuntime) -> Result<(), Fail> {
    each_is_set(&rt, rt.alloc(), &SHORTHAND_VALUES)
}

const IGNORED_VALUES: [IgnoredCase; 24] = [
    (b"colour", &[Token::Ident(b"red")]),
    (b"display", &[Token::Ident(b"run-in")]),
    (b"font-size", &[Token::Size(-1000, b"px")]),
    (b"font-family", &[Token::Ident(b"a"), Token::Sign(',')]),
    (b"font-weight", &[Token::Number(1000001)]),
    (b"font-style", &[Token::Ident(b"bold")]),
    (b"line-height", &[Token::Whole(-1000)]),
    (b"white-space", &[Token::Ident(b"wrap")]),
    (b"hyphens", &[Token::Quoted(b"none")]),
    (
        b"text-align",
        &[Token::Ident(b"left"), Token::Ident(b"right")],
    ),
    (b"orphans", &[Token::Number(1000)]),
    (b"widows", &[Token::Whole(0)]),
    (
        b"width",
        &[
            Token::Function(b"rgb"),
            Token::Whole(1000),
            Token::Sign(')'),
        ],
    ),
    (b"max-width", &[Token::Ident(b"auto")]),
    (b"height", &[Token::Ident(b"none")]),
    (b"box-sizing", &[Token::Ident(b"padding-box")]),
    (b"column-width", &[Token::Percent(1000)]),
    (b"column-count", &[Token::Whole(0)]),
    (b"column-gap", &[Token::Ident(b"auto")]),
    (b"column-fill", &[Token::Ident(b"none")]),
    (b"column-span", &[Token::Whole(2000)]),
    (b"break-before", &[Token::Ident(b"always")]),
    (b"break-after", &[Token::Ident(b"revert-layer")]),
    (b"break-inside", &[Token::Ident(b"page")]),
];

#[test]
fn values_off_the_table_are_ignored(rt: HostRuntime) -> Result<(), Fail> {
    each_is_ignored(&rt, rt.alloc(), &IGNORED_VALUES)
}

const IGNORED_BOXES: [IgnoredCase; 27] = [
    (b"margin-top", &[Token::Whole(-1000)]),
    (b"margin-right", &[Token::Ident(b"none")]),
    (b"margin-bottom", &[Token::Whole(1000)]),
    (
        b"margin-left",
        &[Token::Ident(b"inherit"), Token::Ident(b"inherit")],
    ),
    (b"padding-top", &[Token::Ident(b"auto")]),
    (b"padding-right", &[Token::Size(-1000, b"px")]),
    (b"padding-bottom", &[Token::Percent(-1000)]),
    (b"padding-left", &[Token::Number(500)]),
    (b"border-top-width", &[Token::Percent(1000)]),
    (b"border-right-width", &[Token::Ident(b"auto")]),
    (b"border-bottom-width", &[Token::Size(-1000, b"px")]),
    (b"border-left-width", &[Token::Ident(b"none")]),
    (b"border-top-style", &[Token::Ident(b"thin")]),
    (b"border-right-style", &[Token::Whole(0)]),
    (b"border-bottom-style", &[Token::Ident(b"wavy")]),
    (b"border-left-style", &[]),
    (b"box-decoration-break", &[Token::Ident(b"none")]),
    (
        b"margin",
        &[
            Token::Whole(0),
            Token::Whole(0),
            Token::Whole(0),
            Token::Whole(0),
            Token::Whole(0),
        ],
    ),
    (
        b"margin",
        &[
            Token::Size(1000, b"px"),
            Token::Size(-1000, b"px"),
            Token::Ident(b"x"),
        ],
    ),
    (b"border", &[Token::Ident(b"solid"), Token::Ident(b"solid")]),
    (b"border", &[Token::Whole(0), Token::Ident(b"initial")]),
    (b"border", &[Token::Function(b"rgb"), Token::Whole(0)]),
    (b"columns", &[Token::Whole(0), Token::Whole(0)]),
    (b"gap", &[Token::Ident(b"auto"), Token::Whole(0)]),
    (b"page-break-inside", &[Token::Ident(b"always")]),
    (b"float", &[Token::Ident(b"Revert")]),
    (b"font", &[Token::Ident(b"inherit")]),
];

#[test]
fn boxes_off_the_table_are_ignored(rt: HostRuntime) -> Result<(), Fail> {
    each_is_ignored(&rt, rt.alloc(), &IGNORED_BOXES)
}

const NO_LENGTH: [Token; 1] = [Token::Size(0, b"px")];

const BARRED_NAMES: [RefusedCase; 20] = [
    (b"float", &NO_LENGTH, ConstructName::Float),
    (b"position", &NO_LENGTH, ConstructName::Position),
    (b"top", &NO_LENGTH, ConstructName::Top),
    (b"right", &NO_LENGTH, ConstructName::Right),
    (b"bottom", &NO_LENGTH, ConstructName::Bottom),
    (b"left", &NO_LENGTH, ConstructName::Left),
    (b"overflow", &NO_LENGTH, ConstructName::Overflow),
    (b"overflow-x", &NO_LENGTH, ConstructName::OverflowX),
    (b"overflow-y", &NO_LENGTH, ConstructName::OverflowY),
    (b"writing-mode", &NO_LENGTH, ConstructName::WritingMode),
    (b"direction", &NO_LENGTH, ConstructName::Direction),
    (b"vertical-align", &NO_LENGTH, ConstructName::VerticalAlign),
    (b"text-indent", &NO_LENGTH, ConstructName::TextIndent),
    (b"text-transform", &NO_LENGTH, ConstructName::TextTransform),
    (b"letter-spacing", &NO_LENGTH, ConstructName::LetterSpacing),
    (b"word-spacing", &NO_LENGTH, ConstructName::WordSpacing),
    (b"min-width", &NO_LENGTH, ConstructName::MinWidth),
    (b"min-height", &NO_LENGTH, ConstructName::MinHeight),
    (b"max-height", &NO_LENGTH, ConstructName::MaxHeight),
    (b"font", &NO_LENGTH, ConstructName::Font),
];

#[test]
fn properties_that_are_not_laid_out_are_refused(rt: HostRuntime) -> Result<(), Fail> {
    each_is_refused(&rt, rt.alloc(), &BARRED_NAMES)
}

const REFUSED_VALUES: [RefusedCase; 14] = [
    (
        b"margin-left",
        &[Token::Size(-4000, b"px")],
        ConstructName::NegativeMargin,
    ),
    (
        b"margin",
        &[Token::Whole(0), Token::Percent(-1000)],
        ConstructName::NegativeMargin,
    ),
    (b"width", &[Token::Size(3000, b"vw")], ConstructName::Unit),
    (b"display", &[Token::Size(3000, b"vw")], ConstructName::Unit),
    (b"display", &[Token::Ident(b"FLEX")], ConstructName::Display),
    (
        b"display",
        &[Token::Ident(b"table-cell")],
        ConstructName::Display,
    ),
    (
        b"display",
        &[Token::Ident(b"inline-tables")],
        ConstructName::Display,
    ),
    (
        b"white-space",
        &[Token::Ident(b"pre-line")],
        ConstructName::WhiteSpace,
    ),
    (
        b"margin",
        &[Token::Size(-1000, b"px"), Token::Ident(b"revert")],
        ConstructName::Revert,
    ),
    (
        b"font-family",
        &[
            Token::Ident(b"revert"),
            Token::Sign(','),
            Token::Ident(b"a"),
        ],
        ConstructName::Revert,
    ),
    (
        b"border",
        &[
            Token::Function(b"hsl"),
            Token::Size(120000, b"deg"),
            Token::Sign(')'),
        ],
        ConstructName::Unit,
    ),
    (
        b"gap",
        &[
            Token::Size(1000, b"vh"),
            Token::Function(b"var"),
            Token::Sign(')'),
        ],
        ConstructName::Function,
    ),
    (
        b"border",
        &[
            Token::Function(b"rgb"),
            Token::Function(b"var"),
            Token::Sign(')'),
        ],
        ConstructName::Function,
    ),
    (
        b"float",
        &[Token::Ident(b"none"), Token::Ident(b"revert")],
        ConstructName::Float,
    ),
];

#[test]
fn what_is_not_laid_out_is_refused_in_order(rt: HostRuntime) -> Result<(), Fail> {
    each_is_refused(&rt, rt.alloc(), &REFUSED_VALUES)
}

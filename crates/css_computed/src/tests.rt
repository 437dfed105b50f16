use crate::{Computed, Style, Winning, style_of};
use css_values::{Property, Value, all_properties};
use mc_base::{Decimal, List, Text, Units};
use std::alloc::{AllocError, Global};
use std::process::Abort;
use std::test::Fail;

/// The number 1, in billionths.
const ONE: u64 = 1_000_000_000;

/// A value of a test; numbers are in billionths.
#[derive(Clone, Copy)]
enum Given {
    Word(&'static [u8]),
    Size(u64, &'static [u8]),
    Percent(u64),
    Number(u64),
    Name(&'static [u8]),
    Inherit,
    Initial,
    Unset,
}

/// What is computed of it.
#[derive(Clone, Copy)]
enum Wanted {
    Word(&'static [u8]),
    Units(Units),
    Percent(u64),
    Number(u64),
    Names(usize),
}

type Settings = &'static [(Property, Given)];

type Case = (Settings, Property, Wanted);

fn decimal(billionths: u64) -> Decimal {
    Decimal {
        negative: false,
        billionths,
    }
}

fn text(alloc: Global, bytes: &[u8]) -> Result<Text, AllocError> {
    let mut text = Text::new(alloc);
    text.extend(bytes)?;
    Ok(text)
}

fn names(alloc: Global, name: &[u8]) -> Result<List<Text>, AllocError> {
    let mut names = List::new(alloc);
    names.push(text(alloc, name)?)?;
    Ok(names)
}

fn made(alloc: Global, given: Given) -> Result<Value, AllocError> {
    Ok(match given {
        Given::Word(word) => Value::Word {
            name: text(alloc, word)?,
        },
        Given::Size(n, unit) => Value::Length {
            value: decimal(n),
            unit: text(alloc, unit)?,
        },
        Given::Percent(n) => Value::Percent { value: decimal(n) },
        Given::Number(n) => Value::Number { value: decimal(n) },
        Given::Name(name) => Value::Names {
            names: names(alloc, name)?,
        },
        Given::Inherit => Value::Inherit,
        Given::Initial => Value::Initial,
        Given::Unset => Value::Unset,
    })
}

/// What is set for a property.
fn set_for(
    alloc: Global,
    settings: &[(Property, Given)],
    property: Property,
) -> Result<Option<Value>, AllocError> {
    for (set, given) in settings {
        if *set == property {
            return Ok(Some(made(alloc, *given)?));
        }
    }
    Ok(None)
}

fn style(
    alloc: Global,
    settings: &[(Property, Given)],
    parent: Option<&Style>,
    root: Option<Units>,
) -> Result<Style, Fail> {
    let mut values = Vec::new(alloc);
    for property in all_properties() {
        values.push(set_for(alloc, settings, *property)?)?;
    }
    let mut winning = Winning::new(alloc);
    for value in &values {
        winning.push(value.as_ref())?;
    }
    Ok(style_of(alloc, &winning, parent, root)?)
}

fn is(value: &Computed, wanted: Wanted) -> bool {
    match (value, wanted) {
        (Computed::Word { name }, Wanted::Word(word)) => name.as_slice() == word,
        (Computed::Length { units }, Wanted::Units(n)) => *units == n,
        (Computed::Percent { value }, Wanted::Percent(n)) => *value == decimal(n),
        (Computed::Number { value }, Wanted::Number(n)) => *value == decimal(n),
        (Computed::Names { names }, Wanted::Names(count)) => names.len() == count,
        _ => false,
    }
}

fn each_is_computed(
    rt: &impl Abort,
    alloc: Global,
    cases: &[Case],
    parent: Option<&Style>,
    root: Option<Units>,
) -> Result<(), Fail> {
    for (i, (settings, property, wanted)) in cases.iter().enumerate() {
        let style = style(alloc, settings, parent, root)?;
        assert!(rt; is(style.get(*property), *wanted), "case {i}");
    }
    Ok(())
}

const AT_THE_ROOT: [Case; 10] = [
    (&[], Property::FontSize, Wanted::Units(1024)),
    (&[], Property::FontFamily, Wanted::Names(0)),
    (&[], Property::LineHeight, Wanted::Number(1_200_000_000)),
    (
        &[(Property::FontSize, Given::Size(2 * ONE, b"rem"))],
        Property::FontSize,
        Wanted::Units(2048),
    ),
    (
        &[(Property::FontSize, Given::Percent(200 * ONE))],
        Property::FontSize,
        Wanted::Units(2048),
    ),
    (
        &[(Property::FontSize, Given::Inherit)],
        Property::FontSize,
        Wanted::Units(1024),
    ),
    (
        &[
            (Property::FontSize, Given::Size(2 * ONE, b"em")),
            (Property::MarginTop, Given::Size(ONE, b"rem")),
        ],
        Property::MarginTop,
        Wanted::Units(2048),
    ),
    (
        &[(Property::MarginTop, Given::Size(ONE, b"em"))],
        Property::MarginTop,
        Wanted::Units(1024),
    ),
    (
        &[(Property::MarginLeft, Given::Size(4 * ONE, b"px"))],
        Property::MarginLeft,
        Wanted::Units(256),
    ),
    (
        &[
            (Property::FontSize, Given::Size(999_999_999 * ONE, b"em")),
            (Property::MarginTop, Given::Size(999_999_999 * ONE, b"em")),
        ],
        Property::MarginTop,
        Wanted::Units(1 << 62),
    ),
];

#[test]
fn lengths_of_the_root_are_of_its_own_font_size(rt: HostRuntime) -> Result<(), Fail> {
    each_is_computed(&rt, rt.alloc(), &AT_THE_ROOT, None, None)
}

const ROOT: [(Property, Given); 7] = [
    (Property::FontSize, Given::Size(20 * ONE, b"px")),
    (Property::FontWeight, Given::Word(b"bold")),
    (Property::LineHeight, Given::Number(ONE + ONE / 2)),
    (Property::TextAlign, Given::Word(b"center")),
    (Property::MarginTop, Given::Size(3 * ONE, b"px")),
    (Property::BorderTopWidth, Given::Size(5 * ONE, b"px")),
    (Property::BorderTopStyle, Given::Word(b"solid")),
];

const TWICE: (Property, Given) = (Property::FontSize, Given::Size(2 * ONE, b"em"));

const BELOW_THE_ROOT: [Case; 29] = [
    (&[TWICE], Property::FontSize, Wanted::Units(2560)),
    (
        &[(Property::FontSize, Given::Percent(150 * ONE))],
        Property::FontSize,
        Wanted::Units(1920),
    ),
    (
        &[TWICE, (Property::MarginTop, Given::Size(ONE, b"em"))],
        Property::MarginTop,
        Wanted::Units(2560),
    ),
    (
        &[TWICE, (Property::MarginTop, Given::Size(ONE, b"rem"))],
        Property::MarginTop,
        Wanted::Units(1280),
    ),
    (
        &[TWICE, (Property::LineHeight, Given::Percent(150 * ONE))],
        Property::LineHeight,
        Wanted::Units(3840),
    ),
    (
        &[(Property::MarginTop, Given::Percent(50 * ONE))],
        Property::MarginTop,
        Wanted::Percent(50 * ONE),
    ),
    (
        &[(Property::MarginTop, Given::Size(ONE, b"pt"))],
        Property::MarginTop,
        Wanted::Units(85),
    ),
    (
        &[(Property::MarginTop, Given::Size(ONE, b"pc"))],
        Property::MarginTop,
        Wanted::Units(1024),
    ),
    (
        &[(Property::MarginTop, Given::Size(ONE, b"in"))],
        Property::MarginTop,
        Wanted::Units(6144),
    ),
    (
        &[(Property::MarginTop, Given::Size(ONE, b"cm"))],
        Property::MarginTop,
        Wanted::Units(2418),
    ),
    (
        &[(Property::MarginTop, Given::Size(ONE, b"mm"))],
        Property::MarginTop,
        Wanted::Units(241),
    ),
    (
        &[(Property::MarginTop, Given::Size(ONE / 100, b"px"))],
        Property::MarginTop,
        Wanted::Units(0),
    ),
    (
        &[(Property::MarginTop, Given::Word(b"auto"))],
        Property::MarginTop,
        Wanted::Word(b"auto"),
    ),
    (&[], Property::LineHeight, Wanted::Number(ONE + ONE / 2)),
    (&[], Property::TextAlign, Wanted::Word(b"center")),
    (
        &[(Property::TextAlign, Given::Unset)],
        Property::TextAlign,
        Wanted::Word(b"center"),
    ),
    (
        &[(Property::TextAlign, Given::Initial)],
        Property::TextAlign,
        Wanted::Word(b"left"),
    ),
    (&[], Property::MarginTop, Wanted::Units(0)),
    (
        &[(Property::MarginTop, Given::Unset)],
        Property::MarginTop,
        Wanted::Units(0),
    ),
    (
        &[(Property::MarginTop, Given::Inherit)],
        Property::MarginTop,
        Wanted::Units(192),
    ),
    (&[], Property::BorderTopWidth, Wanted::Units(0)),
    (
        &[(Property::BorderTopWidth, Given::Inherit)],
        Property::BorderTopWidth,
        Wanted::Units(0),
    ),
    (
        &[(Property::BorderTopStyle, Given::Word(b"solid"))],
        Property::BorderTopWidth,
        Wanted::Units(192),
    ),
    (
        &[
            (Property::BorderTopWidth, Given::Inherit),
            (Property::BorderTopStyle, Given::Inherit),
        ],
        Property::BorderTopWidth,
        Wanted::Units(320),
    ),
    (
        &[
            (Property::BorderTopWidth, Given::Size(ONE, b"px")),
            (Property::BorderTopStyle, Given::Word(b"hidden")),
        ],
        Property::BorderTopWidth,
        Wanted::Units(0),
    ),
    (&[], Property::FontWeight, Wanted::Number(700 * ONE)),
    (
        &[(Property::FontWeight, Given::Word(b"normal"))],
        Property::FontWeight,
        Wanted::Number(400 * ONE),
    ),
    (
        &[(Property::FontWeight, Given::Number(550 * ONE))],
        Property::FontWeight,
        Wanted::Number(550 * ONE),
    ),
    (
        &[(Property::FontFamily, Given::Name(b"serif"))],
        Property::FontFamily,
        Wanted::Names(1),
    ),
];

#[test]
fn values_are_inherited_and_lengths_are_of_the_right_font_size(
    rt: HostRuntime,
) -> Result<(), Fail> {
    let root = style(rt.alloc(), &ROOT, None, None)?;
    let parent = Some(&root);
    each_is_computed(&rt, rt.alloc(), &BELOW_THE_ROOT, parent, Some(1280))
}

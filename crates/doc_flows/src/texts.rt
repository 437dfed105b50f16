//! What a document, a style sheet and a table of metrics say.

ghost use Rattle.std.specs.Prelude.{◌≡◌, ◌≤◌, ◌^◌, length, None, IfOk};
ghost use Rattle.html_subset.specs.WellFormed.{IsWellFormed};
ghost use Rattle.css_cascade.specs.Attributes.{AllAreRead};
ghost use Rattle.css_syntax.specs.Sheets as sheets;
ghost use Rattle.doc_sheets.specs.Own as owning;
ghost use Rattle.font_table.specs.Reading as tables;
ghost use Rattle.box_data.specs.BoxTree as boxes;
ghost use Rattle.doc_flows.specs.Reading as spec;
ghost use Rattle.doc_flows.specs.Parts.{IsReading, read_as};

use css_data::Sheet;
use css_syntax::parse_sheet;
use doc_sheets::{OwnSheets, own_sheets};
use font_table::{Fonts, read_fonts};
use html_grammar::Dom;
use html_subset::parse;
use mc_base::{Found, Input, Refusal};
use std::alloc::Global;

/// A document, the sheets of its style elements, the author's sheet and the faces of the metrics.
#[derive(Drop)]
pub struct Reading {
    pub dom: Dom,
    pub own: OwnSheets,
    pub author: Sheet,
    pub fonts: Fonts,
}

/// Why a construct is refused.
fn found_in(input: Input, found: Option<Found>) -> Option<Refusal>
    ensures { result ≡ spec.found_in input found }
{
    match found {
        Some(found) => Some(Refusal::Construct {
            input,
            offset: found.offset,
            name: found.name,
        }),
        None => None,
    }
}

/// The first of two refusals.
fn or_else(first: Option<Refusal>, other: Option<Refusal>) -> Option<Refusal>
    ensures { result ≡ boxes.or_else first other }
{
    match first {
        Some(refused) => Some(refused),
        None => other,
    }
}

/// The first construct that isn't laid out: of the document, of its style elements, of the sheet.
fn construct_in(reading: &Reading) -> Option<Refusal>
    ensures { result ≡ spec.construct_in (read_as reading.now) }
{
    let document = found_in(Input::Document, reading.dom.construct);
    let own = found_in(Input::Document, reading.own.construct);
    let author = found_in(Input::Sheet, reading.author.construct);
    or_else(document, or_else(own, author))
}

/// What is read, unless a construct in it isn't laid out.
fn laid_out(reading: Reading) -> Result<Reading, Refusal>
    ensures read { IsReading result (spec.unless (spec.construct_in (read_as reading)) (read_as reading)) }
    ensures same { IfOk result (λ r. r ≡ reading) }
{
    match construct_in(&reading) {
        Some(refused) => Err(refused),
        None => Ok(reading),
    }
}

fn with_faces(
    alloc: Global,
    metrics: &[u8],
    dom: Dom,
    own: OwnSheets,
    author: Sheet,
) -> Result<Reading, Refusal>
    requires { length metrics.now ≤ 2 ^ 28 }
    ensures read { IsReading result (spec.with_faces dom own author (tables.all_of metrics.now)) }
    ensures same { IfOk result (λ r. r.dom ≡ dom) }
{
    match read_fonts(alloc, metrics) {
        Ok(fonts) => laid_out(Reading {
            dom,
            own,
            author,
            fonts,
        }),
        Err(refusal) => Err(refusal),
    }
}

fn with_sheet(
    alloc: Global,
    sheet: &[u8],
    metrics: &[u8],
    dom: Dom,
    own: OwnSheets,
) -> Result<Reading, Refusal>
    requires sheet { length sheet.now ≤ 2 ^ 28 }
    requires metrics { length metrics.now ≤ 2 ^ 28 }
    ensures read { IsReading result (spec.with_sheet metrics.now dom own (sheets.sheet_of sheet.now)) }
    ensures same { IfOk result (λ r. r.dom ≡ dom) }
{
    match parse_sheet(alloc, sheet) {
        Ok(author) => with_faces(alloc, metrics, dom, own, author),
        Err(refusal) => Err(refusal),
    }
}

fn with_own(
    alloc: Global,
    document: &[u8],
    sheet: &[u8],
    metrics: &[u8],
    dom: Dom,
) -> Result<Reading, Refusal>
    requires formed { IsWellFormed dom }
    requires document { length document.now ≤ 2 ^ 28 }
    requires sheet { length sheet.now ≤ 2 ^ 28 }
    requires metrics { length metrics.now ≤ 2 ^ 28 }
    ensures read { IsReading result (spec.with_own sheet.now metrics.now dom (owning.own_of document.now dom.nodes)) }
    ensures same { IfOk result (λ r. r.dom ≡ dom) }
{
    match own_sheets(alloc, document, &dom) {
        Ok(own) => with_sheet(alloc, sheet, metrics, dom, own),
        Err(refusal) => Err(refusal),
    }
}

/// What a document, a sheet and a table of metrics say, where they are on their grammars and within their limits, and have no
/// construct that isn't laid out.
///
/// The first of these steps that refuses decides: the document, its style attributes and style elements, the sheet, the metrics;
/// then what isn't laid out in the document, in its style elements and in the sheet.
pub fn read(
    alloc: Global,
    document: &[u8],
    sheet: &[u8],
    metrics: &[u8],
) -> Result<Reading, Refusal>
    requires document { length document.now ≤ 2 ^ 28 }
    requires sheet { length sheet.now ≤ 2 ^ 28 }
    requires metrics { length metrics.now ≤ 2 ^ 28 }
    ensures read { IsReading result (spec.read_of document.now sheet.now metrics.now) }
    ensures formed { IfOk result (λ r. IsWellFormed r.dom) }
    // Its style attributes are on their grammar.
    ensures attributes { IfOk result (λ r. AllAreRead r.dom.nodes) }
    // Nothing in it isn't laid out, as far as its texts tell.
    ensures constructs { IfOk result (λ r. spec.construct_in (read_as r) ≡ None) }
{
    match parse(alloc, document) {
        Ok(dom) => with_own(alloc, document, sheet, metrics, dom),
        Err(refusal) => Err(refusal),
    }
}

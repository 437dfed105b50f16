//! What the words ask for.

ghost use Rattle.std.specs.Prelude.{◌≡◌, ◌<◌, ◌^◌, map, option_map, IfSome};
ghost use Rattle.mc_words.specs.Words as stated;
ghost use Rattle.mc_words.specs.Asked.{asked, page_asked, IsNarrow};

use crate::numbers::{count_number, height_of, start_number, units_of};
use mc_base::Units;

/// A document to lay out: its name, those of its style sheet and of its table of metrics, and the width and the available
/// height, or any, in units.
#[derive(Clone, Copy)]
pub struct Page<'a> {
    pub document: &'a str,
    pub sheet: &'a str,
    pub metrics: &'a str,
    pub width: Units,
    pub height: Option<Units>,
}

/// What the words ask for.
#[derive(Clone, Copy)]
pub enum Command<'a> {
    /// The result of a flow file, by its name.
    Rows { flow: &'a str },
    /// The generated document of a start and a count of paragraphs.
    Gen { start: u64, count: u32 },
    /// How the layout of that document comes out.
    Trial { start: u64, count: u32 },
    /// The result of a document.
    Layout { page: Page<'a> },
    /// Its layout with each cut piece of a row as low as it can be, where the row's `column-fill` is `balance-all`.
    All { page: Page<'a> },
    /// What stands at a point of a document that is laid out.
    Hit { page: Page<'a>, x: Units, y: Units },
    /// The drawing of a document that is laid out, with a rule this wide between columns.
    Draw { page: Page<'a>, rule: Units },
    /// Whether a file, by its name, holds the result of a document.
    Check { page: Page<'a>, printed: &'a str },
    /// Whether it holds the result of a flow file.
    RowsCheck { flow: &'a str, printed: &'a str },
}

fn rows_of<'a>(words: &[&'a str]) -> Option<Command<'a>>
    ensures { option_map asked result ≡ stated.rows_of (map (λ word. word.now) words.now) }
{
    let [flow] = words else {
        return None;
    };
    Some(Command::Rows { flow })
}

fn rows_check_of<'a>(words: &[&'a str]) -> Option<Command<'a>>
    ensures { option_map asked result ≡ stated.rows_check_of (map (λ word. word.now) words.now) }
{
    let [flow, printed] = words else {
        return None;
    };
    Some(Command::RowsCheck { flow, printed })
}

/// A start and a count.
fn numbers_of(words: &[&str]) -> Option<(u64, u32)>
    ensures { result ≡ stated.numbers_of (map (λ word. word.now) words.now) }
{
    let [start, count] = words else {
        return None;
    };
    let start = start_number(start)?;
    let count = count_number(count)?;
    Some((start, count))
}

fn gen_of<'a>(words: &[&'a str]) -> Option<Command<'a>>
    ensures { option_map asked result ≡ stated.gen_of (map (λ word. word.now) words.now) }
{
    let (start, count) = numbers_of(words)?;
    Some(Command::Gen { start, count })
}

fn trial_of<'a>(words: &[&'a str]) -> Option<Command<'a>>
    ensures { option_map asked result ≡ stated.trial_of (map (λ word. word.now) words.now) }
{
    let (start, count) = numbers_of(words)?;
    Some(Command::Trial { start, count })
}

/// A document to lay out, by the names of its files, its width and its available height.
pub fn page_of<'a>(
    document: &'a str,
    sheet: &'a str,
    metrics: &'a str,
    width: &str,
    height: &str,
) -> Option<Page<'a>>
    ensures asked { option_map page_asked result
        ≡ stated.page_of document.now sheet.now metrics.now width.now height.now }
    ensures narrow { IfSome result (λ page. page.width < 2 ^ 60) }
{
    let width = units_of(width)?;
    let height = height_of(height)?;
    Some(Page {
        document,
        sheet,
        metrics,
        width,
        height,
    })
}

/// A point, by its lengths from the left and from the top.
fn point_of(x: &str, y: &str) -> Option<(Units, Units)>
    ensures { result ≡ stated.point_with (stated.units_of x.now) (stated.units_of y.now) }
{
    let x = units_of(x)?;
    let y = units_of(y)?;
    Some((x, y))
}

fn layout_of<'a>(words: &[&'a str]) -> Option<Command<'a>>
    ensures asked { option_map asked result ≡ stated.layout_of (map (λ word. word.now) words.now) }
    ensures narrow { IfSome result IsNarrow }
{
    let [document, sheet, metrics, width, height] = words else {
        return None;
    };
    let page = page_of(document, sheet, metrics, width, height)?;
    Some(Command::Layout { page })
}

fn all_of<'a>(words: &[&'a str]) -> Option<Command<'a>>
    ensures asked { option_map asked result ≡ stated.all_of (map (λ word. word.now) words.now) }
    ensures narrow { IfSome result IsNarrow }
{
    let [document, sheet, metrics, width, height] = words else {
        return None;
    };
    let page = page_of(document, sheet, metrics, width, height)?;
    Some(Command::All { page })
}

fn hit_of<'a>(words: &[&'a str]) -> Option<Command<'a>>
    ensures asked { option_map asked result ≡ stated.hit_of (map (λ word. word.now) words.now) }
    ensures narrow { IfSome result IsNarrow }
{
    let [document, sheet, metrics, width, height, x, y] = words else {
        return None;
    };
    let page = page_of(document, sheet, metrics, width, height)?;
    let (x, y) = point_of(x, y)?;
    Some(Command::Hit { page, x, y })
}

fn draw_of<'a>(words: &[&'a str]) -> Option<Command<'a>>
    ensures asked { option_map asked result ≡ stated.draw_of (map (λ word. word.now) words.now) }
    ensures narrow { IfSome result IsNarrow }
{
    let [document, sheet, metrics, width, height, rule] = words else {
        return None;
    };
    let page = page_of(document, sheet, metrics, width, height)?;
    let rule = units_of(rule)?;
    Some(Command::Draw { page, rule })
}

fn check_of<'a>(words: &[&'a str]) -> Option<Command<'a>>
    ensures asked { option_map asked result ≡ stated.check_of (map (λ word. word.now) words.now) }
    ensures narrow { IfSome result IsNarrow }
{
    let [document, sheet, metrics, width, height, printed] = words else {
        return None;
    };
    let page = page_of(document, sheet, metrics, width, height)?;
    Some(Command::Check { page, printed })
}

/// What the command of this name asks for with these words, if their count and their forms are right.
pub fn command_named<'a>(name: &str, words: &[&'a str]) -> Option<Command<'a>>
    ensures asked { option_map asked result ≡ stated.command_named name.now (map (λ word. word.now) words.now) }
    ensures narrow { IfSome result IsNarrow }
{
    if name == "rows" {
        return rows_of(words);
    }
    if name == "rows-check" {
        return rows_check_of(words);
    }
    if name == "gen" {
        return gen_of(words);
    }
    if name == "trial" {
        return trial_of(words);
    }
    if name == "layout" {
        return layout_of(words);
    }
    if name == "check" {
        return check_of(words);
    }
    if name == "all" {
        return all_of(words);
    }
    if name == "hit" {
        return hit_of(words);
    }
    if name == "draw" {
        return draw_of(words);
    }
    None
}

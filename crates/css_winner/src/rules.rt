//! The style sheets, made ready.

ghost use Rattle.std.specs.Prelude.{◌≡◌, ◌∷◌, [], ℕ, List, map, Some, IfOk, OnOk, slice_get};
ghost use Rattle.std.specs.Option.{option_copied};
ghost use Rattle.css_data.specs.declared.selector.Selector.{Selector as ASelector};
ghost use Rattle.css_winner.specs.Rules as ready;
ghost use Rattle.css_winner.specs.Rules.{IsReady, HasFiled};
ghost use Rattle.css_winner.specs.Keys as keys;
ghost use Rattle.css_winner.specs.Filing.{IsFiled, IsSound};
ghost use Rattle.css_winner.specs.declared.filing.Place.{Place as APlace};

use crate::filing::{Filing, Place};
use crate::key::key_of;
use crate::setting::{Setting, settings_of};
use crate::sheet_text::built_in;
use css_data::{Selector, Sheet, StyleRule};
use mc_base::{List, NoMemory};
use std::alloc::{AllocError, Global};

/// Style sheets that are ready for winners to be found: what each rule sets, by sheet and rule, and the selectors filed under
/// names.
#[derive(Drop)]
pub struct Rules {
    pub built_in: Sheet,
    pub settings: List<List<List<Setting>>>,
    pub filing: Filing,
}

/// Files the selectors of a rule.
fn file_rule(
    alloc: Global,
    filing: &mut Filing,
    sheet: usize,
    rule: usize,
    selectors: &[Selector],
) -> Result<(), AllocError>
    requires { IsSound filing.old }
    ensures sound { OnOk result (IsSound filing.new) }
    ensures kept { OnOk result ((q : List ℕ) (p : APlace) → IsFiled filing.old q p → IsFiled filing.new q p) }
    ensures filed { OnOk result ((k : ℕ) (s : ASelector) → slice_get selectors.now k ≡ Some s
        → IsFiled filing.new (keys.key_of s) (ready.place sheet rule k)) }
{
    for (number, selector) in selectors.iter().enumerate() {
        let key = key_of(alloc, selector)?;
        let place = Place {
            sheet,
            rule,
            selector: number,
        };
        filing.file(alloc, key.as_slice(), place)?;
    }
    Ok(())
}

/// Files the selectors of a sheet.
fn file_sheet(
    alloc: Global,
    filing: &mut Filing,
    sheet: usize,
    rules: &[StyleRule],
) -> Result<(), AllocError>
    requires { IsSound filing.old }
    ensures sound { OnOk result (IsSound filing.new) }
    ensures kept { OnOk result ((q : List ℕ) (p : APlace) → IsFiled filing.old q p → IsFiled filing.new q p) }
    ensures filed { OnOk result (HasFiled filing.new sheet rules.now) }
{
    for (number, rule) in rules.iter().enumerate() {
        file_rule(alloc, filing, sheet, number, rule.selectors.as_slice())?;
    }
    Ok(())
}

/// Files the selectors of all sheets, the built-in one first.
fn file_all(alloc: Global, built_in: &Sheet, sheets: &[Sheet]) -> Result<Filing, AllocError>
    ensures { IfOk result (λ filing. (s : ℕ) (sheet : ready.ASheet) → slice_get (built_in.now ∷ sheets.now) s ≡ Some sheet
        → HasFiled filing s sheet.rules) }
{
    let mut filing = Filing::new(alloc);
    file_sheet(alloc, &mut filing, 0, built_in.rules.as_slice())?;
    for (number, sheet) in sheets.iter().enumerate() {
        file_sheet(alloc, &mut filing, number + 1, sheet.rules.as_slice())?;
    }
    Ok(filing)
}

/// What each rule of a sheet sets.
fn sheet_settings(alloc: Global, rules: &[StyleRule]) -> Result<List<List<Setting>>, NoMemory>
    ensures { IfOk result (λ found. found ≡ ready.rules_settings rules.now) }
{
    let mut found = List::new(alloc);
    for rule in rules {
        found.push(settings_of(alloc, rule.declarations.as_slice())?)?;
    }
    Ok(found)
}

/// What each rule of each sheet sets, the built-in one first.
fn all_settings(
    alloc: Global,
    built_in: &Sheet,
    sheets: &[Sheet],
) -> Result<List<List<List<Setting>>>, NoMemory>
    ensures { IfOk result (λ found. found ≡ ready.all_settings (built_in.now ∷ sheets.now)) }
{
    let mut found = List::new(alloc);
    found.push(sheet_settings(alloc, built_in.rules.as_slice())?)?;
    for sheet in sheets {
        found.push(sheet_settings(alloc, sheet.rules.as_slice())?)?;
    }
    Ok(found)
}

/// Makes the author's sheets ready, with the built-in one before them.
pub fn prepare(alloc: Global, sheets: &[Sheet]) -> Result<Rules, NoMemory>
    ensures { IfOk result (λ rules. IsReady sheets.now rules) }
{
    let built_in = built_in(alloc)?;
    let settings = all_settings(alloc, &built_in, sheets)?;
    let filing = file_all(alloc, &built_in, sheets)?;
    Ok(Rules {
        built_in,
        settings,
        filing,
    })
}

/// A sheet by its number, where the built-in one is 0.
fn sheet_at<'a>(built_in: &'a Sheet, sheets: &'a [Sheet], number: usize) -> Option<&'a Sheet>
    ensures { option_copied result ≡ slice_get (built_in.now ∷ sheets.now) number }
{
    if number == 0 {
        Some(built_in)
    } else {
        sheets.get(number - 1)
    }
}

/// The selector at a place.
pub fn selector_at<'a>(
    built_in: &'a Sheet,
    sheets: &'a [Sheet],
    place: Place,
) -> Option<&'a Selector>
    ensures { option_copied result ≡ ready.selector_at (built_in.now ∷ sheets.now) place }
{
    let sheet = sheet_at(built_in, sheets, place.sheet)?;
    let rule = sheet.rules.as_slice().get(place.rule)?;
    rule.selectors.as_slice().get(place.selector)
}

impl Rules {
    /// What a rule sets.
    pub fn settings_at(&self, sheet: usize, rule: usize) -> &[Setting]
        ensures { result.now ≡ ready.settings_at self.now.settings sheet rule }
    {
        match self.settings.as_slice().get(sheet) {
            Some(rules) => match rules.as_slice().get(rule) {
                Some(settings) => settings.as_slice(),
                None => &[],
            },
            None => &[],
        }
    }
}

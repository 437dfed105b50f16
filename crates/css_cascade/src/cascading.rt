//! The style of each element.

ghost use Rattle.std.specs.Prelude.{◌≡◌, ◌⊎◌, ◌<◌, ◌≤◌, ◌^◌, length, IfOk, IfErr, IsTrue};
ghost use Rattle.std.specs.Option.{option_copied};
ghost use Rattle.mc_base.specs.declared.refusal.Refusal.TheVariants as refusals;
ghost use Rattle.html_subset.specs.WellFormed.{IsWellFormed};
ghost use Rattle.css_select.specs.Places as places;
ghost use Rattle.css_select.specs.Places.{IsElementAt};
ghost use Rattle.css_winner.specs.Rules.{IsReady, all_sheets};
ghost use Rattle.css_cascade.specs.Attributes.{IsFirstFault, own_at};
ghost use Rattle.css_computed.specs.Computing as computing;
ghost use Rattle.css_cascade.specs.Entries as entries;
ghost use Rattle.css_cascade.specs.Cascaded as cascaded;
ghost use Rattle.css_cascade.specs.Cascaded.{IsCascaded, IsStyled};

use crate::attributes::all_own;
use crate::styles::{NodeStyle, Styles, entry_at};
use crate::won::{first_refusal, values_of};
use css_computed::{Computed, Style, style_of};
use css_data::Sheet;
use css_select::is_element_at;
use css_values::Value;
use css_winner::{Rules, Setting, prepare, winners};
use html_grammar::{Dom, NodeId};
use mc_base::{List, NoMemory, Refusal, Units};
use std::alloc::Global;

fn parent_of(dom: &Dom, node: usize) -> Option<usize>
    ensures { result ≡ places.parent_at dom.now node }
{
    match dom.nodes.as_slice().get(node)?.parent {
        Some(parent) => Some(parent as usize),
        None => None,
    }
}

fn style_at(nodes: &[Option<NodeStyle>], node: usize) -> Option<&Style>
    ensures { option_copied result ≡ entries.style_at nodes.now node }
{
    match entry_at(nodes, node) {
        Some(entry) => Some(&entry.style),
        None => None,
    }
}

/// The style of the element that a node stands in.
fn parent_style<'a>(nodes: &'a [Option<NodeStyle>], dom: &Dom, node: usize) -> Option<&'a Style>
    ensures { option_copied result ≡ cascaded.parent_style nodes.now dom.now node }
{
    match parent_of(dom, node) {
        Some(parent) => style_at(nodes, parent),
        None => None,
    }
}

fn font_size(style: &Style) -> Units
    ensures { result ≡ computing.length_or computing.medium style.now.font_size }
{
    match &style.font_size {
        Computed::Length { units } => *units,
        _ => 16 * 64,
    }
}

/// The font size of the root, for what isn't the root.
fn root_size(nodes: &[Option<NodeStyle>], node: usize) -> Option<Units>
    ensures { result ≡ cascaded.root_size nodes.now node }
{
    if node == 0 {
        return None;
    }
    match style_at(nodes, 0) {
        Some(style) => Some(font_size(style)),
        None => None,
    }
}

/// The style of an element, by those before it.
fn styled(
    alloc: Global,
    rules: &Rules,
    sheets: &[Sheet],
    dom: &Dom,
    node: NodeId,
    own: &[Setting],
    nodes: &[Option<NodeStyle>],
) -> Result<NodeStyle, NoMemory>
    requires formed { IsWellFormed dom.now }
    requires element { IsElementAt dom.now node }
    requires ready { IsReady sheets.now rules.now }
    ensures { IfOk result (λ entry. IsStyled (all_sheets sheets.now) dom.now own.now nodes.now node entry) }
{
    let all = winners(alloc, rules, sheets, dom, node, own)?;
    let found = all.as_slice();
    let initial = Value::Initial;
    let winning = values_of(alloc, found, &initial)?;
    let refused = first_refusal(found);
    let number = node as usize;
    let parent = parent_style(nodes, dom, number);
    let root = root_size(nodes, number);
    let style = style_of(alloc, &winning, parent, root)?;
    Ok(NodeStyle { style, refused })
}

/// The entry of a node.
fn entry_of(
    alloc: Global,
    rules: &Rules,
    sheets: &[Sheet],
    dom: &Dom,
    node: NodeId,
    own: &[Setting],
    nodes: &[Option<NodeStyle>],
) -> Result<Option<NodeStyle>, NoMemory>
    requires formed { IsWellFormed dom.now }
    requires ready { IsReady sheets.now rules.now }
    ensures { IfOk result (λ entry. cascaded.IsEntry (all_sheets sheets.now) dom.now own.now nodes.now node entry) }
{
    if !is_element_at(dom, node) {
        return Ok(None);
    }
    let entry = styled(alloc, rules, sheets, dom, node, own, nodes)?;
    Ok(Some(entry))
}

/// The entries of all nodes, each after those before it.
fn all_entries(
    alloc: Global,
    rules: &Rules,
    sheets: &[Sheet],
    dom: &Dom,
    own: &[List<Setting>],
) -> Result<List<Option<NodeStyle>>, NoMemory>
    requires formed { IsWellFormed dom.now }
    requires ready { IsReady sheets.now rules.now }
    requires own { cascaded.AreOwn dom.now own.now }
    ensures { IfOk result (λ nodes. cascaded.HasEntries sheets.now dom.now (length own.now) nodes) }
{
    let mut nodes = List::new(alloc);
    for (number, settings) in own.iter().enumerate() {
        let own = settings.as_slice();
        let before = nodes.as_slice();
        let entry = entry_of(alloc, rules, sheets, dom, number as u32, own, before)?;
        nodes.push(entry)?;
    }
    Ok(nodes)
}

/// The style of each element of a document, with the author's sheets in order; the built-in sheet and the style attributes are
/// added (CSS Cascade 4).
///
/// `Refusal::Grammar` comes exactly where a style attribute is off its grammar: the first in the document, with the rule that
/// it breaks, at its value's first byte. It is found before anything else. Out of memory may be answered for every document.
pub fn cascade(alloc: Global, dom: &Dom, sheets: &[Sheet]) -> Result<Styles, Refusal>
    requires { IsWellFormed dom.now }
    ensures styles { IfOk result (λ styles. IsCascaded sheets.now dom.now styles) }
    ensures refused { IfErr result (λ refusal. (refusal ≡ refusals.NoMemory) ⊎ IsFirstFault dom.now.nodes refusal) }
{
    let own = all_own(alloc, dom)?;
    let rules = prepare(alloc, sheets)?;
    let settings = own.as_slice();
    let nodes = all_entries(alloc, &rules, sheets, dom, settings)?;
    Ok(Styles::seal(nodes))
}

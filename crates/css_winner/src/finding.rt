//! What wins for each property of an element.

ghost use Rattle.std.specs.Prelude.{◌≡◌, ◌++◌, ℕ, List, Some, IfOk, Contains, length, slice_get};
ghost use Rattle.std.specs.Option.{option_copied};
ghost use Rattle.html_subset.specs.WellFormed.{IsWellFormed};
ghost use Rattle.css_data.specs.declared.selector.Selector.{Selector as ASelector};
ghost use Rattle.css_select.specs.Matching.{Matches};
ghost use Rattle.css_select.specs.Places.{IsElementAt};
ghost use Rattle.css_winner.specs.Applying.{Claim};
ghost use Rattle.css_winner.specs.Best.{IsBest};
ghost use Rattle.css_winner.specs.Rules as ready;
ghost use Rattle.css_winner.specs.Rules.{IsReady, all_sheets};
ghost use Rattle.css_winner.specs.Winners.{HasWinners, IsOffered};
ghost use Rattle.css_winner.specs.declared.filing.Place.{Place as APlace};

use crate::best::{Offer, Source, keep_all, nothing};
use crate::filing::Place;
use crate::keys::filed_for;
use crate::rules::{Rules, selector_at};
use crate::setting::Setting;
use css_data::Sheet;
use css_select::{Weight, matches, specificity};
use html_grammar::{Dom, DomNode, NodeId, NodeKind};
use std::alloc::{AllocError, Global};

fn node_at(dom: &Dom, node: usize) -> Option<&DomNode>
    ensures { option_copied result ≡ slice_get dom.now.nodes node }
{
    dom.nodes.as_slice().get(node)
}

/// Where the selectors stand that may match an element.
fn places_for(
    alloc: Global,
    rules: &Rules,
    sheets: &[Sheet],
    dom: &Dom,
    node: NodeId,
) -> Result<Vec<Place>, AllocError>
    requires element { IsElementAt dom.now node }
    requires ready { IsReady sheets.now rules.now }
    ensures { IfOk result (λ places. (p : APlace) (s : ASelector) → ready.selector_at (all_sheets sheets.now) p ≡ Some s
        → Matches s dom.now node → Contains places.items p) }
{
    let Some(node) = node_at(dom, node as usize) else {
        return Ok(Vec::new(alloc));
    };
    match &node.kind {
        NodeKind::Element { name, attributes } => {
            let name = name.as_slice();
            let attributes = attributes.as_slice();
            let places = filed_for(alloc, &rules.filing, name, attributes)?;
            Ok(places)
        }
        NodeKind::Words { text: _ } => Ok(Vec::new(alloc)),
    }
}

/// Keeps what the rule at a place offers, if the selector there matches the element.
fn keep_place<'a>(
    best: &mut Vec<Option<Offer<'a>>>,
    rules: &'a Rules,
    sheets: &[Sheet],
    dom: &Dom,
    node: NodeId,
    place: Place,
)
    requires size { length best.old.items ≡ 60 }
    requires formed { IsWellFormed dom.now }
    requires element { IsElementAt dom.now node }
    requires ready { IsReady sheets.now rules.now }
    ensures size { length best.new.items ≡ 60 }
    ensures offered { (seen : List Claim) → IsBest seen best.old.items
        → (more : List Claim) × IsBest (seen ++ more) best.new.items × IsOffered (all_sheets sheets.now) dom.now node place more }
{
    let Some(selector) = selector_at(&rules.built_in, sheets, place) else {
        return;
    };
    if matches(selector, dom, node) {
        let source = Source {
            built_in: place.sheet == 0,
            inline: false,
            weight: specificity(selector),
            sheet: place.sheet,
            rule: place.rule,
        };
        keep_all(best, &source, rules.settings_at(place.sheet, place.rule));
    }
}

/// What wins for each property of an element, by its place in the two tables: of the declarations of the sheets and of its style
/// attribute, which sets `own`, that apply to it and are about the property the one that no other comes above (CSS Cascade 4,
/// section 6.1).
pub fn winners<'a>(
    alloc: Global,
    rules: &'a Rules,
    sheets: &[Sheet],
    dom: &Dom,
    node: NodeId,
    own: &'a [Setting],
) -> Result<Vec<Option<Offer<'a>>>, AllocError>
    requires formed { IsWellFormed dom.now }
    requires element { IsElementAt dom.now node }
    requires ready { IsReady sheets.now rules.now }
    ensures { IfOk result (λ found. HasWinners (all_sheets sheets.now) dom.now node own.now found.items) }
{
    let places = places_for(alloc, rules, sheets, dom, node)?;
    let mut best = nothing(alloc)?;
    for place in &places {
        keep_place(&mut best, rules, sheets, dom, node, *place);
    }
    let source = Source {
        built_in: false,
        inline: true,
        weight: Weight {
            ids: 0,
            classes: 0,
            types: 0,
        },
        sheet: 0,
        rule: 0,
    };
    keep_all(&mut best, &source, own);
    Ok(best)
}

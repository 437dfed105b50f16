//! The specificity of a selector.

ghost use Rattle.std.specs.Prelude.{◌≡◌, ◌+◌, ◌-◌, ◌^◌, count_by, min};
ghost use Rattle.css_select.specs.Specificity as count;
ghost use Rattle.css_select.specs.Specificity.{capped, classes_of, ids_of, types_of, types_named};

use css_data::{Compound, Selector, Test};

/// A specificity (Selectors 3, section 9): the ids come before the classes, and these before the types.
///
/// Attributes and pseudo-classes count among the classes, and pseudo-elements among the types. Each count ends at the
/// greatest `u32`.
#[derive(Clone, Copy, Debug, PartialEq, Eq)]
pub struct Weight {
    pub ids: u32,
    pub classes: u32,
    pub types: u32,
}

fn is_id(test: &Test) -> bool
    ensures { result ≡ count.is_id test.now }
{
    matches!(test, Test::Id { text: _ })
}

fn is_pseudo_element(test: &Test) -> bool
    ensures { result ≡ count.is_pseudo_element test.now }
{
    matches!(test, Test::PseudoElement)
}

fn is_class(test: &Test) -> bool
    ensures { result ≡ count.is_class test.now }
{
    !matches!(test, Test::Id { text: _ } | Test::PseudoElement)
}

/// A count with more added to it, up to the greatest `u32`.
fn added(total: u32, more: usize) -> u32
    ensures { result ≡ min (total + more) (2 ^ 32 - 1) }
{
    total.saturating_add(more.min(u32::MAX as usize) as u32)
}

fn id_count(compound: &Compound) -> usize
    ensures { result ≡ count_by count.is_id compound.now.tests }
{
    compound
        .tests
        .as_slice()
        .iter()
        .filter(|test| is_id(test))
        .count()
}

fn class_count(compound: &Compound) -> usize
    ensures { result ≡ count_by count.is_class compound.now.tests }
{
    compound
        .tests
        .as_slice()
        .iter()
        .filter(|test| is_class(test))
        .count()
}

fn pseudo_element_count(compound: &Compound) -> usize
    ensures { result ≡ count_by count.is_pseudo_element compound.now.tests }
{
    compound
        .tests
        .as_slice()
        .iter()
        .filter(|test| is_pseudo_element(test))
        .count()
}

fn type_count(compound: &Compound) -> usize
    ensures { result ≡ types_named compound.now.element }
{
    match &compound.element {
        Some(_) => 1,
        None => 0,
    }
}

/// The specificity of a selector.
pub fn specificity(selector: &Selector) -> Weight
    ensures ids { result.ids ≡ capped (ids_of selector.now) }
    ensures classes { result.classes ≡ capped (classes_of selector.now) }
    ensures types { result.types ≡ capped (types_of selector.now) }
{
    let mut ids = 0;
    let mut classes = 0;
    let mut types = 0;
    for compound in selector.compounds.as_slice() {
        ids = added(ids, id_count(compound));
        classes = added(classes, class_count(compound));
        types = added(
            added(types, type_count(compound)),
            pseudo_element_count(compound),
        );
    }
    Weight {
        ids,
        classes,
        types,
    }
}

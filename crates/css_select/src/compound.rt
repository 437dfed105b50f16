//! Whether an element meets a compound selector.

ghost use Rattle.std.specs.Prelude.{◌≡◌, ◌+◌, ◌^◌, ◌<◌, ◌↔◌, All, IsTrue, IfSome, length};
ghost use Rattle.css_select.specs.Attributes.{IsSameName};
ghost use Rattle.css_select.specs.Tests.{AreSteps, GoesTheWay, IsStepped, KindMeets, Meets, Passes};
ghost use Rattle.css_select.specs.Places.{ElementsEnd, ParentsAreEarlier};

use crate::attributes::{has_attribute, same_name};
use crate::places::{is_first_child, is_last_child, parent_of, siblings_before};
use css_data::{AttrOp, Compound, Test};
use html_grammar::{Attribute, Dom, NodeKind};
use mc_base::Text;

/// Whether a way isn't against the steps.
fn goes_the_way(step: i64, way: i128) -> bool
    ensures { IsTrue result ↔ GoesTheWay step way }
{
    if step > 0 {
        way >= 0
    } else if step < 0 {
        way <= 0
    } else {
        true
    }
}

/// Whether so many steps make the way.
fn are_steps(step: i64, way: i128) -> bool
    ensures { IsTrue result ↔ AreSteps step way }
{
    if step == 0 {
        return way == 0;
    }
    if !goes_the_way(step, way) {
        return false;
    }
    way.unsigned_abs() % u128::from(step.unsigned_abs()) == 0
}

/// Whether some step from 0 on takes the offset to the number after this one.
fn is_stepped(step: i64, offset: i64, before: usize) -> bool
    ensures { IsTrue result ↔ IsStepped step offset (before + 1) }
{
    are_steps(step, before as i128 + 1 - i128::from(offset))
}

/// Whether an element with this number, name and attributes passes a test.
fn passes(dom: &Dom, node: usize, name: &[u8], attributes: &[Attribute], test: &Test) -> bool
    requires node_in_range { node < length dom.now.nodes }
    requires parents { ParentsAreEarlier dom.now }
    requires ends { ElementsEnd dom.now }
    ensures { IsTrue result ↔ Passes dom.now node name.now attributes.now test.now }
{
    match test {
        Test::Id { text } => has_attribute(attributes, b"id", AttrOp::Equal, text.as_slice()),
        Test::Class { text } => has_attribute(attributes, b"class", AttrOp::Word, text.as_slice()),
        Test::Attr {
            name: key,
            op,
            value,
        } => has_attribute(attributes, key.as_slice(), *op, value.as_slice()),
        Test::Root => parent_of(dom, node).is_none(),
        Test::FirstChild => is_first_child(dom, node),
        Test::LastChild => is_last_child(dom, node),
        Test::Link => same_name(name, b"a") && has_attribute(attributes, b"href", AttrOp::Has, b""),
        Test::Nth { step, offset } => is_stepped(*step, *offset, siblings_before(dom, node)),
        Test::Never => false,
        Test::PseudoElement => false,
    }
}

fn passes_all(dom: &Dom, node: usize, name: &[u8], attributes: &[Attribute], tests: &[Test]) -> bool
    requires node_in_range { node < length dom.now.nodes }
    requires parents { ParentsAreEarlier dom.now }
    requires ends { ElementsEnd dom.now }
    ensures { IsTrue result ↔ All (Passes dom.now node name.now attributes.now) tests.now }
{
    tests
        .iter()
        .all(|test| passes(dom, node, name, attributes, test))
}

fn is_of_type(name: &[u8], wanted: &Option<Text>) -> bool
    ensures { IsTrue result ↔ IfSome wanted.now (λ w. IsSameName name.now w) }
{
    match wanted {
        Some(wanted) => same_name(name, wanted.as_slice()),
        None => true,
    }
}

fn kind_meets(dom: &Dom, node: usize, compound: &Compound, kind: &NodeKind) -> bool
    requires node_in_range { node < length dom.now.nodes }
    requires parents { ParentsAreEarlier dom.now }
    requires ends { ElementsEnd dom.now }
    ensures { IsTrue result ↔ KindMeets dom.now node compound.now kind.now }
{
    match kind {
        NodeKind::Element { name, attributes } => {
            is_of_type(name.as_slice(), &compound.element)
                && passes_all(
                    dom,
                    node,
                    name.as_slice(),
                    attributes.as_slice(),
                    compound.tests.as_slice(),
                )
        }
        NodeKind::Words { text: _ } => false,
    }
}

/// Whether a node is an element that meets a compound selector.
pub fn meets(dom: &Dom, node: usize, compound: &Compound) -> bool
    requires node_in_range { node < length dom.now.nodes }
    requires parents { ParentsAreEarlier dom.now }
    requires ends { ElementsEnd dom.now }
    ensures { IsTrue result ↔ Meets dom.now compound.now node }
{
    kind_meets(dom, node, compound, &dom.nodes.as_slice()[node].kind)
}

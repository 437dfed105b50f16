//! How wide boxes are, with their margins (CSS 2.1, sections 10.3.3 and 10.4).

ghost use Rattle.std.specs.Prelude.{◌≡◌, ℕ, ◌+◌, ◌-◌, ◌≤◌, ◌<◌, ◌^◌, IfSome};
ghost use Rattle.box_data.specs.BoxTree as trees;
ghost use Rattle.box_data.specs.Widths as widths;
ghost use Rattle.box_places.specs.Parts as parts;
ghost use Rattle.box_places.specs.Bounds.{IsExtent, IsFrame};

use crate::lengths::{less, resolved};
use crate::place::{Frame, edges, less_across};
use mc_base::Units;

/// The margins of a box, and the width of its content.
#[derive(Clone, Copy)]
pub struct Extent {
    pub before: Units,
    pub w: Units,
    pub after: Units,
}

/// What is left of a whole beside two lengths.
fn rest(whole: Units, most: Units, other: Units) -> Units
    requires { whole < 2 ^ 60 }
    ensures value { result ≡ whole - (most + other) }
    ensures small { result < 2 ^ 60 }
{
    whole.saturating_sub(most.saturating_add(other))
}

fn or_zero(margin: Option<Units>) -> Units
    requires { IfSome margin (λ u. u ≤ 2 ^ 62) }
    ensures value { result ≡ trees.or_zero margin }
    ensures small { result ≤ 2 ^ 62 }
{
    match margin {
        None => 0,
        Some(u) => u,
    }
}

/// What `auto` as width gives: the rest.
fn filling(whole: Units, edges: Units, before: Option<Units>, after: Option<Units>) -> Extent
    requires whole { whole < 2 ^ 60 }
    requires edges { edges ≤ 2 ^ 63 + 2 ^ 26 }
    requires before { IfSome before (λ u. u ≤ 2 ^ 62) }
    requires after { IfSome after (λ u. u ≤ 2 ^ 62) }
    ensures value { parts.across_in result ≡ widths.filling whole edges before after }
    ensures small { IsExtent result }
{
    let before = or_zero(before);
    let after = or_zero(after);
    Extent {
        before,
        w: rest(whole, edges + before, after),
        after,
    }
}

/// With a width: two `auto` margins share the rest, one takes it, and without one the right margin is given up.
pub fn fixed(
    whole: Units,
    edges: Units,
    before: Option<Units>,
    after: Option<Units>,
    w: Units,
) -> Extent
    requires whole { whole < 2 ^ 60 }
    requires edges { edges ≤ 2 ^ 63 + 2 ^ 26 }
    requires before { IfSome before (λ u. u ≤ 2 ^ 62) }
    requires after { IfSome after (λ u. u ≤ 2 ^ 62) }
    requires w { w ≤ 2 ^ 62 }
    ensures value { parts.across_in result ≡ widths.fixed whole edges before after w }
    ensures small { IsExtent result }
{
    match (before, after) {
        (None, None) => {
            let rest = rest(whole, edges, w);
            let before = rest / 2;
            Extent {
                before,
                w,
                after: rest - before,
            }
        }
        (None, Some(after)) => Extent {
            before: rest(whole, edges + w, after),
            w,
            after,
        },
        (Some(before), _) => Extent {
            before,
            w,
            after: rest(whole, edges + w, before),
        },
    }
}

fn across_of(
    whole: Units,
    edges: Units,
    before: Option<Units>,
    after: Option<Units>,
    w: Option<Units>,
) -> Extent
    requires whole { whole < 2 ^ 60 }
    requires edges { edges ≤ 2 ^ 63 + 2 ^ 26 }
    requires before { IfSome before (λ u. u ≤ 2 ^ 62) }
    requires after { IfSome after (λ u. u ≤ 2 ^ 62) }
    requires w { IfSome w (λ u. u ≤ 2 ^ 62) }
    ensures value { parts.across_in result ≡ widths.across_of whole edges before after w }
    ensures small { IsExtent result }
{
    match w {
        None => filling(whole, edges, before, after),
        Some(w) => fixed(whole, edges, before, after, w),
    }
}

/// The rule again where the result is wider than `max-width`.
fn at_most(
    whole: Units,
    edges: Units,
    before: Option<Units>,
    after: Option<Units>,
    most: Option<Units>,
    extent: Extent,
) -> Extent
    requires whole { whole < 2 ^ 60 }
    requires edges { edges ≤ 2 ^ 63 + 2 ^ 26 }
    requires before { IfSome before (λ u. u ≤ 2 ^ 62) }
    requires after { IfSome after (λ u. u ≤ 2 ^ 62) }
    requires most { IfSome most (λ u. u ≤ 2 ^ 62) }
    requires extent { IsExtent extent }
    ensures value { parts.across_in result ≡ widths.at_most whole edges before after most (parts.across_in extent) }
    ensures small { IsExtent result }
{
    match most {
        None => extent,
        Some(most) => {
            if most < extent.w {
                fixed(whole, edges, before, after, most)
            } else {
                extent
            }
        }
    }
}

/// How wide a box is that is no image.
pub fn block_extent(frame: &Frame) -> Extent
    requires { IsFrame (2 ^ 60) frame.now }
    ensures value { parts.across_in result ≡ parts.block_across frame.now }
    ensures small { IsExtent result }
{
    let edges = edges(frame);
    let by = less_across(frame);
    let before = resolved(frame.style.margin.left, frame.whole);
    let after = resolved(frame.style.margin.right, frame.whole);
    let most = less(by, resolved(frame.style.max_width, frame.whole));
    let w = less(by, resolved(frame.style.width, frame.whole));
    let extent = across_of(frame.whole, edges, before, after, w);
    at_most(frame.whole, edges, before, after, most, extent)
}

/// How wide a block-level image is whose content is this wide.
pub fn image_extent(frame: &Frame, w: Units) -> Extent
    requires frame { IsFrame (2 ^ 60) frame.now }
    requires w { w ≤ 2 ^ 62 }
    ensures value { parts.across_in result ≡ parts.image_across frame.now w }
    ensures small { IsExtent result }
{
    let before = resolved(frame.style.margin.left, frame.whole);
    let after = resolved(frame.style.margin.right, frame.whole);
    fixed(frame.whole, edges(frame), before, after, w)
}

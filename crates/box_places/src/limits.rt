//! The first used length of a box that is too long.

ghost use Rattle.std.specs.Prelude.{◌≡◌, None, Some, flat_map, OnOk, IfErr};
ghost use Rattle.box_data.specs.Limits as limits;

use box_data::{BoxKind, ImageSize, Placed};
use mc_base::{LimitName, Refusal, Units};

/// The greatest used length (this project's own).
const GREATEST: Units = 1 << 24;

/// The first of these lengths that is too long.
fn first_above(lengths: &[Units]) -> Option<Units>
    ensures { result ≡ limits.first_above limits.greatest_length lengths.now }
{
    for length in lengths {
        if GREATEST < *length {
            return Some(*length);
        }
    }
    None
}

/// The first length of these sizes that is too long.
fn first_size_above(sizes: &[ImageSize]) -> Option<Units>
    ensures { result ≡ limits.first_above limits.greatest_length (flat_map limits.size_lengths sizes.now) }
{
    for size in sizes {
        if GREATEST < size.w {
            return Some(size.w);
        }
        if GREATEST < size.h {
            return Some(size.h);
        }
    }
    None
}

/// The gap of a container, where it is too long.
fn gap_above(place: &Placed) -> Option<Units>
    ensures { result ≡ limits.first_above limits.greatest_length (limits.gap_lengths place.now.kind place.now.gap) }
{
    match place.kind {
        BoxKind::Container => {
            if GREATEST < place.gap {
                Some(place.gap)
            } else {
                None
            }
        }
        BoxKind::Block | BoxKind::Anonymous | BoxKind::ImageBlock => None,
    }
}

/// The first used length of a box that is too long.
#[tactic(auto, using(crate::proofs::LongLengths::first_used))]
fn first_long(place: &Placed) -> Option<Units>
    ensures { result ≡ limits.first_above limits.greatest_length (limits.used_lengths place.now) }
{
    let lengths = [
        place.margin.top,
        place.margin.right,
        place.margin.bottom,
        place.margin.left,
        place.padding.top,
        place.padding.right,
        place.padding.bottom,
        place.padding.left,
        place.w,
    ];
    if let Some(length) = first_above(&lengths) {
        return Some(length);
    }
    if let Some(gap) = gap_above(place) {
        return Some(gap);
    }
    first_size_above(place.images.as_slice())
}

/// Refuses a box with a used length that is too long.
pub fn check_lengths(place: &Placed) -> Result<(), Refusal>
    ensures ok { OnOk result (limits.long (limits.used_lengths place.now) ≡ None) }
    ensures err { IfErr result (λ e. limits.long (limits.used_lengths place.now) ≡ Some e) }
{
    match first_long(place) {
        None => Ok(()),
        Some(reached) => Err(Refusal::Limit {
            name: LimitName::Length,
            reached,
            limit: GREATEST,
        }),
    }
}

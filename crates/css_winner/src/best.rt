//! The best that was found so far for each property.

ghost use Rattle.std.specs.Prelude.{◌≡◌, ◌≤◌, ◌++◌, [], ◌∷◌, List, None, replicate, length, vec_len, IfOk};
ghost use Rattle.css_winner.specs.Applying as applying;
ghost use Rattle.css_winner.specs.Applying.{Claim};
ghost use Rattle.css_winner.specs.Best as bests;
ghost use Rattle.css_winner.specs.Best.{IsBest};

use crate::precedence::{Origin, Precedence, is_above};
use crate::setting::Setting;
use css_select::Weight;
use css_values::target_place;
use std::alloc::{AllocError, Global};

/// What a declaration sets for one property, and where it stands.
#[derive(Clone, Copy)]
pub struct Offer<'a> {
    pub precedence: Precedence,
    pub setting: &'a Setting,
}

/// Where a block stands: whether its sheet is the built-in one, whether it is a style attribute, and the specificity of the
/// selector and the numbers of the sheet and the rule, or zeros.
#[derive(Clone, Copy)]
pub struct Source {
    pub built_in: bool,
    pub inline: bool,
    pub weight: Weight,
    pub sheet: usize,
    pub rule: usize,
}

/// Nothing is found yet.
pub fn nothing<'a>(alloc: Global) -> Result<Vec<Option<Offer<'a>>>, AllocError>
    ensures { IfOk result (λ best. IsBest [] best.items) }
{
    let mut best = Vec::new(alloc);
    for _place in 0..60usize {
        best.push(None)?;
    }
    Ok(best)
}

fn origin_of(built_in: bool, important: bool) -> Origin
    ensures { result ≡ applying.origin_of built_in important }
{
    if built_in {
        Origin::BuiltIn
    } else if important {
        Origin::Important
    } else {
        Origin::Author
    }
}

/// What a setting offers at its place in a block.
fn offer_at<'a>(source: &Source, place: usize, setting: &'a Setting) -> Offer<'a>
    ensures { bests.claim_of result ≡ applying.claim_at source.now place setting.now }
{
    Offer {
        precedence: Precedence {
            origin: origin_of(source.built_in, setting.important),
            inline: source.inline,
            weight: source.weight,
            sheet: source.sheet,
            rule: source.rule,
            place,
        },
        setting,
    }
}

/// Whether an offer comes before what was found.
fn is_better(offer: &Offer, held: &Option<Offer>) -> bool
    ensures { result ≡ bests.is_better offer.now held.now }
{
    match held {
        Some(held) => is_above(&offer.precedence, &held.precedence),
        None => true,
    }
}

/// Keeps an offer if nothing comes above it.
fn keep<'a>(best: &mut Vec<Option<Offer<'a>>>, offer: Offer<'a>)
    requires { length best.old.items ≡ 60 }
    ensures { best.new.items ≡ bests.kept best.old.items offer.entry }
{
    let place = target_place(offer.setting.target);
    if is_better(&offer, &best[place]) {
        best[place] = Some(offer);
    }
}

/// Keeps what a block offers where nothing comes above it.
pub fn keep_all<'a>(best: &mut Vec<Option<Offer<'a>>>, source: &Source, settings: &'a [Setting])
    requires { length best.old.items ≡ 60 }
    ensures size { length best.new.items ≡ 60 }
    ensures kept { (seen : List Claim) → IsBest seen best.old.items
        → IsBest (seen ++ applying.claims_from source.now 0 settings.now) best.new.items }
{
    for (place, setting) in settings.iter().enumerate() {
        keep(best, offer_at(source, place, setting));
    }
}

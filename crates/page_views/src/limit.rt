//! How long a text may be.

ghost use Rattle.std.specs.Prelude.{◌≡◌, ◌<◌, ◌≤◌, ◌+◌, length, IfOk, IfErr};
ghost use Rattle.page_views.specs.Shown.{text_limit};

use mc_base::{LimitName, Refusal, Text};

/// How many bytes the text of a result may have.
pub const TEXT_LIMIT: u64 = 268_435_456;

/// That a text is too long.
pub fn too_long() -> Refusal
    ensures { result ≡ Refusal.Limit LimitName.Result (text_limit + 1) text_limit }
{
    Refusal::Limit {
        name: LimitName::Result,
        reached: TEXT_LIMIT + 1,
        limit: TEXT_LIMIT,
    }
}

/// This text, refused where it is too long.
pub fn limited(text: Text) -> Result<Text, Refusal>
    ensures text { IfOk result (λ found. found ≡ text) }
    ensures short { IfOk result (λ found. length found ≤ text_limit) }
    ensures long { IfErr result (λ refusal. text_limit < length text) }
    ensures told { IfErr result (λ refusal. refusal ≡ Refusal.Limit LimitName.Result (text_limit + 1) text_limit) }
{
    if text.len() as u64 > TEXT_LIMIT {
        return Err(too_long());
    }
    Ok(text)
}

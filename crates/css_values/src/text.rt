//! Words of a style sheet.

ghost use Rattle.std.specs.Prelude.{◌≡◌};
ghost use Rattle.css_values.specs.Words as words;

/// Whether two texts are the same but for the case of ASCII letters.
pub fn is_same(a: &[u8], b: &[u8]) -> bool
    ensures { result ≡ words.same a.now b.now }
{
    a.eq_ignore_ascii_case(b)
}

/// Whether a text begins so, but for the case of ASCII letters.
#[tactic(auto, using(std::proofs::lemmas::List::take_min), unfolding(crate::specs::Words::begins_with))]
pub fn begins_with(front: &[u8], text: &[u8]) -> bool
    ensures { result ≡ words.begins_with front.now text.now }
{
    is_same(text.split_at(front.len().min(text.len())).0, front)
}

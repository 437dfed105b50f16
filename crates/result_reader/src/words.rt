//! The words of a line.

ghost use Rattle.std.specs.Prelude.{◌≡◌, ◌<◌, ◌≤◌, [], ◌∷◌, length, IfSome, MatchOption};
ghost use Rattle.flow_text.specs.Text.{len_before};
ghost use Rattle.result_laws.specs.Words.{parted};
ghost use Rattle.result_reader.specs.Words.{behind, two_of, three_of, four_of};

/// How many bytes stand before the first of this value.
pub fn before(stop: u8, bytes: &[u8]) -> usize
    ensures value { result ≡ len_before stop bytes.now }
    ensures bound { result ≤ length bytes.now }
{
    for (i, byte) in bytes.iter().enumerate() {
        if *byte == stop {
            return i;
        }
    }
    bytes.len()
}

/// The first part of bytes that this one parts, and what follows it: nothing, or that byte and the further parts.
#[tactic(auto, using(crate::proofs::Parts::part_rules))]
pub fn part(stop: u8, bytes: &[u8]) -> (&[u8], &[u8])
    ensures parts { parted stop bytes.now ≡ result.0.now ∷ behind stop result.1.now }
    ensures length { length result.1.now ≤ length bytes.now }
{
    bytes.split_at(before(stop, bytes))
}

/// The first word after a space, and what follows it; none where there is no space.
pub fn word(rest: &[u8]) -> Option<(&[u8], &[u8])>
    ensures words { MatchOption result (behind 32 rest.now ≡ []) (λ x. behind 32 rest.now ≡ x.0.now ∷ behind 32 x.1.now) }
    ensures shorter { IfSome result (λ x. length x.1.now < length rest.now) }
{
    let (_, bytes) = rest.split_first()?;
    Some(part(b' ', bytes))
}

/// The words, each after a space, where there are just two.
#[tactic(auto, using(crate::proofs::Parts::word_rules))]
pub fn two(rest: &[u8]) -> Option<(&[u8], &[u8])>
    ensures { MatchOption result (two_of (behind 32 rest.now) ≡ None) (λ x. behind 32 rest.now ≡ x.0.now ∷ x.1.now ∷ []) }
{
    let (first, rest) = word(rest)?;
    let (second, rest) = word(rest)?;
    if !rest.is_empty() {
        return None;
    }
    Some((first, second))
}

/// The words, each after a space, where there are just three.
#[tactic(auto, using(crate::proofs::Parts::word_rules))]
pub fn three(rest: &[u8]) -> Option<(&[u8], &[u8], &[u8])>
    ensures { MatchOption result (three_of (behind 32 rest.now) ≡ None)
        (λ x. behind 32 rest.now ≡ x.0.now ∷ x.1.now ∷ x.2.now ∷ []) }
{
    let (first, rest) = word(rest)?;
    let (second, third) = two(rest)?;
    Some((first, second, third))
}

/// The words, each after a space, where there are just four.
#[tactic(auto, using(crate::proofs::Parts::word_rules))]
pub fn four(rest: &[u8]) -> Option<(&[u8], &[u8], &[u8], &[u8])>
    ensures { MatchOption result (four_of (behind 32 rest.now) ≡ None)
        (λ x. behind 32 rest.now ≡ x.0.now ∷ x.1.now ∷ x.2.now ∷ x.3.now ∷ []) }
{
    let (first, rest) = word(rest)?;
    let (second, third, fourth) = three(rest)?;
    Some((first, second, third, fourth))
}

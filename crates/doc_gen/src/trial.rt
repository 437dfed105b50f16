//! What a trial of a generated document takes and counts.

ghost use Rattle.std.specs.Prelude.{◌≡◌, ◌≤◌, length};
ghost use Rattle.doc_gen.specs.Trial.{elements_in, trial_metrics};

/// How many elements the generated document of so many paragraphs has.
#[tactic(auto, using(crate::proofs::Elements::elements_are))]
pub fn element_count(paragraphs: u32) -> u64
    ensures { result ≡ elements_in paragraphs }
{
    let paragraphs = u64::from(paragraphs);
    6 + paragraphs + paragraphs.saturating_sub(1) / 16
}

/// The table of metrics that a generated document is laid out with: one face, whose letters are all half as wide as high.
#[tactic(auto, unfolding(crate::specs::Trial::trial_metrics))]
pub fn trial_metrics() -> &'static [u8]
    ensures text { result.now ≡ trial_metrics }
    ensures short { length result.now ≤ 1048576 }
{
    b"metrics 1\nface trial 400 normal 800 200 500\n"
}

#[cfg(test)]
mod tests {
    use super::*;
    use std::test::Fail;

    #[test]
    fn headings_are_elements(rt: HostRuntime) -> Result<(), Fail> {
        let counts = [(0, 6), (1, 7), (16, 22), (17, 24), (40, 48), (5_000, 5_318)];
        for (paragraphs, elements) in counts {
            assert_eq!(rt; element_count(paragraphs), elements);
        }
        Ok(())
    }
}

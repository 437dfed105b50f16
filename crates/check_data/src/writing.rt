//! The lines of a verdict.

ghost use Rattle.std.specs.Prelude.{◌≡◌, ◌∷◌, ◌++◌, [], codes, IfOk, OnOk};
ghost use Rattle.std.specs.Fmt.{decimal};
ghost use Rattle.flow_list.specs.ResultText.{line_words};
ghost use Rattle.result_laws.specs.Failure.{clause_text, verdict_lines};
ghost use Rattle.result_laws.specs.Given.{ended_lines};
ghost use Rattle.check_data.specs.Telling.{clause_of, told};

use crate::verdict::{Clause, Verdict};
use itoa::Buffer;
use mc_base::{NoMemory, Text};
use std::alloc::Global;

/// The word of a clause.
fn clause_word(clause: Clause) -> &'static [u8]
    ensures { result.now ≡ clause_text (clause_of clause) }
{
    match clause {
        Clause::Name => b"name",
        Clause::Twice => b"twice",
        Clause::Avail => b"avail",
        Clause::Hole => b"hole",
        Clause::Empty => b"empty",
        Clause::Same => b"same",
        Clause::Tall => b"tall",
        Clause::Area => b"area",
        Clause::Cite => b"cite",
        Clause::End => b"end",
        Clause::Number => b"number",
        Clause::Long => b"long",
        Clause::Reason => b"reason",
        Clause::Reach => b"reach",
        Clause::Height => b"height",
        Clause::Missing => b"missing",
        Clause::Tree => b"tree",
    }
}

/// Adds the line of a clause that fails.
fn put_failure(out: &mut Text, line: u64, clause: Clause) -> Result<(), NoMemory>
    ensures { OnOk result (out.new ≡ out.old
        ++ line_words (codes "no" ∷ decimal line ∷ clause_text (clause_of clause) ∷ []) ++ 10 ∷ []) }
{
    let mut buffer = Buffer::new();
    out.extend(b"no ")?;
    out.extend(buffer.format(line).as_bytes())?;
    out.push(b' ')?;
    out.extend(clause_word(clause))?;
    out.push(b'\n')?;
    Ok(())
}

/// Adds the line of what a clause wants.
fn put_expected(out: &mut Text, expected: &[u8]) -> Result<(), NoMemory>
    ensures { OnOk result (out.new ≡ out.old ++ line_words (codes "expected" ∷ expected.now ∷ []) ++ 10 ∷ []) }
{
    out.extend(b"expected ")?;
    out.extend(expected)?;
    out.push(b'\n')?;
    Ok(())
}

/// Adds the line of what stands there.
fn put_found(out: &mut Text, found: &[u8]) -> Result<(), NoMemory>
    ensures { OnOk result (out.new ≡ out.old ++ line_words (codes "found" ∷ found.now ∷ []) ++ 10 ∷ []) }
{
    out.extend(b"found ")?;
    out.extend(found)?;
    out.push(b'\n')?;
    Ok(())
}

/// Adds `yes`.
fn put_yes(out: &mut Text) -> Result<(), NoMemory>
    ensures { OnOk result (out.new ≡ out.old ++ codes "yes" ++ 10 ∷ []) }
{
    out.extend(b"yes\n")?;
    Ok(())
}

/// The lines of a verdict, each with its line feed: `yes`, or the line and the clause that fails, what it wants, and what stands
/// there. An Err is running out of memory.
pub fn write_verdict(alloc: Global, verdict: &Verdict) -> Result<Text, NoMemory>
    ensures { IfOk result (λ text. text ≡ ended_lines (verdict_lines (told verdict.now))) }
{
    let mut out = Text::new(alloc);
    match verdict {
        Verdict::Yes => put_yes(&mut out)?,
        Verdict::No {
            line,
            clause,
            expected,
            found,
        } => {
            put_failure(&mut out, *line, *clause)?;
            put_expected(&mut out, expected.as_slice())?;
            put_found(&mut out, found.as_slice())?;
        }
    }
    Ok(out)
}

//! Reading the inputs of a command.

ghost use Rattle.std.specs.Prelude.{◌≡◌, ◌≢◌, ℕ, ◌≤◌, List, length, IfOk, IfErr, IfSome};
ghost use Rattle.mc_base.specs.declared.refusal.Input.TheVariants as inputs;
ghost use Rattle.mc_run.specs.Inputs as stated;
ghost use Rattle.mc_run.specs.Inputs.{OnlyThese, named_texts};
ghost use Rattle.mc_run.specs.Reading as reading;
ghost use Rattle.mc_run.specs.Reading.{IsReadCause, IsReadingCause, IsContent};

use crate::stop::Stop;
use mc_base::{FileFault, Files, Input, LimitName, Refusal};
use mc_words::Page;
use std::alloc::Global;

/// How many bytes an input may have.
fn byte_limit(input: Input) -> u64
    ensures { result ≡ stated.byte_limit input }
{
    match input {
        Input::Document | Input::Flow => 4_194_304,
        Input::Sheet | Input::Metrics | Input::Script => 1_048_576,
        Input::Result => 268_435_456,
    }
}

fn byte_limit_name(input: Input) -> LimitName
    ensures { result ≡ stated.byte_limit_name input }
{
    match input {
        Input::Document => LimitName::Document,
        Input::Sheet => LimitName::Sheet,
        Input::Metrics => LimitName::Metrics,
        Input::Flow => LimitName::Flow,
        Input::Result => LimitName::Result,
        Input::Script => LimitName::Script,
    }
}

/// Why a read of an input stops a command.
fn stop_for(input: Input, fault: FileFault) -> Stop
    ensures { result ≡ reading.stop_for input fault }
{
    match fault {
        FileFault::Failed => Stop::Read { input },
        FileFault::TooLong { .. } => {
            let limit = byte_limit(input);
            Stop::Refused {
                refusal: Refusal::Limit {
                    name: byte_limit_name(input),
                    reached: limit + 1,
                    limit,
                },
            }
        }
        FileFault::NoMemory => Stop::Refused {
            refusal: Refusal::NoMemory,
        },
    }
}

/// Reads an input by its name: its bytes, where the read doesn't fail and they are no more than the input may have.
///
/// Else the answer is why a command stops: the read failed, and the count of faults of that name rose; the bytes are more than
/// the limit; or memory ran out. No content changes, and no other name's count of faults.
pub fn read_input<F: Files>(
    alloc: Global,
    files: &mut F,
    input: Input,
    name: &str,
) -> Result<Vec<u8>, Stop>
    ensures content { (other : List ℕ) → F.held files.new other ≡ F.held files.old other }
    ensures others { (other : List ℕ) → other ≢ name.now → F.faults files.new other ≡ F.faults files.old other }
    ensures later { (other : List ℕ) → F.faults files.old other ≤ F.faults files.new other }
    ensures ok { IfOk result (λ bytes. IsContent (record { input = input; name = name.now }) (F.held files.old) bytes.items) }
    ensures err { IfErr result (IsReadCause (record { input = input; name = name.now }) (F.held files.old)
        (F.faults files.old) (F.faults files.new)) }
{
    let mut bytes = Vec::new(alloc);
    match files.read(name, byte_limit(input), &mut bytes) {
        Ok(()) => Ok(bytes),
        Err(fault) => Err(stop_for(input, fault)),
    }
}

/// The bytes of a document, a style sheet and a table of metrics.
#[derive(Drop)]
pub struct Texts {
    pub document: Vec<u8>,
    pub sheet: Vec<u8>,
    pub metrics: Vec<u8>,
}

/// Reads a document, a style sheet and a table of metrics, in this order, up to the first that isn't read: then the answer is
/// that of `read_input`.
pub fn read_texts<F: Files>(alloc: Global, files: &mut F, page: Page<'_>) -> Result<Texts, Stop>
    ensures content { (other : List ℕ) → F.held files.new other ≡ F.held files.old other }
    ensures others { OnlyThese (F.faults files.old) (F.faults files.new)
        (named_texts page.entry.document.now page.entry.sheet.now page.entry.metrics.now) }
    ensures later { (other : List ℕ) → F.faults files.old other ≤ F.faults files.new other }
    ensures document { IfOk result (λ texts. IsContent (record { input = inputs.Document; name = page.entry.document.now })
        (F.held files.old) texts.document.items) }
    ensures sheet { IfOk result (λ texts. IsContent (record { input = inputs.Sheet; name = page.entry.sheet.now })
        (F.held files.old) texts.sheet.items) }
    ensures metrics { IfOk result (λ texts. IsContent (record { input = inputs.Metrics; name = page.entry.metrics.now })
        (F.held files.old) texts.metrics.items) }
    ensures err { IfErr result (IsReadingCause (named_texts page.entry.document.now page.entry.sheet.now page.entry.metrics.now)
        (F.held files.old) (F.faults files.old) (F.faults files.new)) }
{
    let document = read_input(alloc, files, Input::Document, page.document)?;
    let sheet = read_input(alloc, files, Input::Sheet, page.sheet)?;
    let metrics = read_input(alloc, files, Input::Metrics, page.metrics)?;
    Ok(Texts {
        document,
        sheet,
        metrics,
    })
}

//! What a program reads from and writes to.

ghost use Rattle.std.specs.Prelude.{◌≡◌, ◌≢◌, ℕ, ◌+◌, ◌<◌, ◌≤◌, List, Option, ◌++◌, length, OnOk, OnErr, IfSome, IsErrOf};
ghost use Rattle.std.specs.Io.KnownBytes.{Appends};
ghost use Rattle.mc_base.specs.Outside.{HasRisen, AppendsAtMost, AppendsPart};

use thiserror::Error;

/// Why a file wasn't read.
#[derive(Clone, Copy, Debug, PartialEq, Eq, Error)]
pub enum FileFault {
    /// The file is missing, or reading it failed.
    #[error("read")]
    Failed,
    /// More than `limit` bytes are held.
    #[error("limit")]
    TooLong { limit: u64 },
    /// Out of memory.
    #[error("memory")]
    NoMemory,
}

/// Writing failed.
#[derive(Clone, Copy, Debug, PartialEq, Eq, Error)]
#[error("write")]
pub struct SinkFailed;

/// Texts that are read by name.
///
/// `held` is the bytes of a name, told or not told. `faults` counts the failed reads of each name, and never falls.
pub trait Files {
    ghost held: { Self → List ℕ → Option (List ℕ) };

    ghost faults: { Self → List ℕ → ℕ };

    /// Appends the held bytes of `name` to `into`, at most `limit` of them. After any fault `into` is as before.
    ///
    /// Whatever it answers, it leaves what is held under every name, and the counts of all other names, as they were.
    fn read(&mut self, name: &str, limit: u64, into: &mut Vec<u8>) -> Result<(), FileFault>
        ensures content { (other : List ℕ) → held self.new other ≡ held self.old other }
        ensures others { (other : List ℕ) → other ≢ name.now → faults self.new other ≡ faults self.old other }
        ensures later { faults self.old name.now ≤ faults self.new name.now }
        ensures ok { OnOk result (AppendsAtMost limit into.old.items into.new.items) }
        ensures told { OnOk result (IfSome (held self.old name.now)
            (λ bytes. into.new.items ≡ into.old.items ++ bytes)) }
        ensures err { OnErr result (into.new.items ≡ into.old.items) }
        ensures failed { IsErrOf result FileFault.Failed → faults self.old name.now < faults self.new name.now }
        ensures too_long { (reached : ℕ) → IsErrOf result (FileFault.TooLong reached) →
            (reached ≡ limit) × IfSome (held self.old name.now) (λ bytes. limit < length bytes) };
}

/// Where bytes are written.
///
/// `written` is what was written, told or not told. `faults` counts the failed writes, and never falls. It also counts
/// as risen where it stands at the greatest `u64`.
pub trait Sink {
    ghost written: { Self → Option (List ℕ) };

    ghost faults: { Self → ℕ };

    /// Adds these bytes at the end. After a fault a first part of them was added.
    fn put(&mut self, bytes: &[u8]) -> Result<(), SinkFailed>
        ensures ok { OnOk result (Appends (written self.old) (written self.new) bytes.now) }
        ensures part { OnErr result (AppendsPart (written self.old) (written self.new) bytes.now) }
        ensures risen { OnErr result (HasRisen (faults self.old) (faults self.new)) }
        ensures later { faults self.old ≤ faults self.new };
}

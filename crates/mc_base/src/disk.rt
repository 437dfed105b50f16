//! Files on the disk and a sink over a writer, as standard output is. They tell no content.

ghost use Rattle.std.specs.Prelude.{◌≡◌, ◌≢◌, ℕ, ◌<◌, ◌≤◌, List as Items, [], ◌∷◌, ◌++◌, OnOk, OnErr, None, IsErrOf};
ghost use Rattle.std.specs.Io.{StartsWith};
ghost use Rattle.mc_base.specs.Outside.{times_of, AppendsAtMost};

use crate::noted::note;
use crate::{FileFault, Files, List, Sink, SinkFailed, Text};
use std::alloc::Global;
use std::fs::File;
use std::io::{ErrorKind, Read, Write};
use std::marker::Model;
use std::rt::Files as Disk;

/// Files on the disk. Contracts see the names of the failed reads.
#[derive(Drop)]
pub struct DiskFiles<D: Disk> {
    alloc: Global,
    disk: D,
    failed: List<Text>,
}

impl<D: Disk> Model for DiskFiles<D> {
    ghost use Rattle.std.specs.Prelude.{ℕ, List as Items};

    ghost Value = { Items (Items ℕ) };

    ghost view = { λ d. d.failed };
}

impl<D: Disk> DiskFiles<D> {
    /// The files of this disk, with no fault yet. It takes no memory.
    pub fn new(alloc: Global, disk: D) -> DiskFiles<D>
        ensures { result ≡ [] }
    {
        DiskFiles {
            alloc,
            disk,
            failed: List::new(alloc),
        }
    }
}

/// Appends a file's bytes, at most `limit` of them. After a fault some may have been added.
fn append_file<D: Disk>(
    disk: &D,
    name: &str,
    limit: u64,
    into: &mut Vec<u8>,
) -> Result<(), FileFault>
    ensures ok { OnOk result (AppendsAtMost limit into.old.items into.new.items) }
    ensures front { StartsWith into.new.items into.old.items }
    ensures too_long { (reached : ℕ) → IsErrOf result (FileFault.TooLong reached) → reached ≡ limit }
{
    let Ok(file) = File::open(disk, name) else {
        return Err(FileFault::Failed);
    };
    match file.take(limit.saturating_add(1)).read_to_end(into) {
        Ok(count) if count as u64 > limit => Err(FileFault::TooLong { limit }),
        Ok(_) => Ok(()),
        Err(error) if error.kind() == ErrorKind::OutOfMemory => Err(FileFault::NoMemory),
        Err(_) => Err(FileFault::Failed),
    }
}

impl<D: Disk> Files for DiskFiles<D> {
    ghost held = { λ _ _. None };

    ghost faults = { λ d name. times_of name d };

    #[tactic(auto, using(crate::proofs::NameCounts::note_lemmas))]
    fn read(&mut self, name: &str, limit: u64, into: &mut Vec<u8>) -> Result<(), FileFault>
        ensures others { (other : Items ℕ) → other ≢ name.now → times_of other self.new ≡ times_of other self.old }
        ensures later { times_of name.now self.old ≤ times_of name.now self.new }
        ensures ok { OnOk result (AppendsAtMost limit into.old.items into.new.items) }
        ensures err { OnErr result (into.new.items ≡ into.old.items) }
        ensures failed { IsErrOf result FileFault.Failed → times_of name.now self.old < times_of name.now self.new }
        ensures too_long { (reached : ℕ) → IsErrOf result (FileFault.TooLong reached) → reached ≡ limit }

        ensures noted { IsErrOf result FileFault.Failed → self.new ≡ self.old ++ name.now ∷ [] }
        ensures not_noted { (IsErrOf result FileFault.Failed → ⊥) → self.new ≡ self.old }
    {
        let start = into.len();
        let read = append_file(&self.disk, name, limit, into);
        let Err(fault) = read else {
            return Ok(());
        };
        into.truncate(start);
        if fault == FileFault::Failed {
            return Err(note(self.alloc, &mut self.failed, name));
        }
        Err(fault)
    }
}

/// A sink over a writer, as standard output is. Contracts see its count of faults.
#[derive(Drop)]
pub struct StdSink<W: Write> {
    writer: W,
    faults: u64,
}

impl<W: Write> Model for StdSink<W> {
    ghost use Rattle.std.specs.Prelude.{ℕ};

    ghost Value = { ℕ };

    ghost view = { λ s. s.faults };
}

impl<W: Write> StdSink<W> {
    /// The sink over this writer, with no fault yet. It takes no memory.
    pub fn new(writer: W) -> StdSink<W>
        ensures { result ≡ 0 }
    {
        StdSink { writer, faults: 0 }
    }
}

impl<W: Write> Sink for StdSink<W> {
    ghost written = { λ _. None };

    ghost faults = { λ s. s };

    fn put(&mut self, bytes: &[u8]) -> Result<(), SinkFailed> {
        if self.writer.write_all(bytes).is_err() || self.writer.flush().is_err() {
            self.faults = self.faults.saturating_add(1);
            return Err(SinkFailed);
        }
        Ok(())
    }
}

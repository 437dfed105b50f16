//! Files and a sink in memory, whose failures are planned.

ghost use Rattle.std.specs.Prelude.{◌≡◌, ◌≢◌, ℕ, ◌+◌, ◌-◌, ◌^◌, ◌<◌, ◌≤◌, min, [], ◌∷◌, ◌==◌, List as Items, Some, Option, ◌++◌};
ghost use Rattle.std.specs.Prelude.{length, find, OnOk, OnErr, IfOk, IfSome, IsErrOf, vec_len, vec_capacity, take};
ghost use Rattle.mc_base.specs.Memory.{planned_takes, Puts};
ghost use Rattle.std.specs.Option.{option_copied};
ghost use Rattle.std.specs.Str.{bytes_eq};
ghost use Rattle.mc_base.specs.Outside.{times_of, AppendsAtMost};

use crate::noted::note;
use crate::{FileFault, Files, List, NoMemory, Sink, SinkFailed, Text};
use std::alloc::Global;
use std::marker::Model;

/// A file in memory.
#[derive(Drop)]
pub struct HeldFile {
    pub name: Text,
    pub bytes: Text,
}

/// Files in memory: those that are held, and the numbers of the calls of `read`, from 1, that fail.
///
/// A read of a name that no file has fails too. Of files of one name the first counts.
#[derive(Drop)]
pub struct MemoryFiles {
    alloc: Global,
    files: List<HeldFile>,
    fails: List<u64>,
    calls: u64,
    failed: List<Text>,
}

impl Model for MemoryFiles {
    ghost use Rattle.mc_base.specs.Memory.{FilesInMemory};

    ghost Value = { FilesInMemory };

    ghost view = { λ m. record { files = m.files; fails = m.fails; calls = m.calls; failed = m.failed } };
}

/// The first of these files that has this name.
fn first_named<'a>(files: &'a [HeldFile], name: &str) -> Option<&'a HeldFile>
    ensures { option_copied result ≡ find (λ file. bytes_eq file.name name.now) files.now }
{
    files
        .iter()
        .find(|file| file.name.as_slice() == name.as_bytes())
}

impl MemoryFiles {
    /// Files in memory of which these calls fail. It takes no memory.
    pub fn new(alloc: Global, files: List<HeldFile>, fails: List<u64>) -> MemoryFiles
        ensures { result ≡ record { files = files; fails = fails; calls = 0; failed = [] } }
    {
        MemoryFiles {
            alloc,
            files,
            fails,
            calls: 0,
            failed: List::new(alloc),
        }
    }
}

impl Files for MemoryFiles {
    ghost use Rattle.mc_base.specs.Memory.{held_bytes, next_call, is_planned, IsAnswerUnlessNoMemory};

    ghost held = { λ m name. held_bytes m.files name };

    ghost faults = { λ m name. times_of name m.failed };

    #[tactic(auto, using(crate::proofs::NameCounts::note_lemmas))]
    fn read(&mut self, name: &str, limit: u64, into: &mut Vec<u8>) -> Result<(), FileFault>
        ensures content { (other : Items ℕ) → held_bytes self.new.files other ≡ held_bytes self.old.files other }
        ensures others { (other : Items ℕ) → other ≢ name.now →
            times_of other self.new.failed ≡ times_of other self.old.failed }
        ensures later { times_of name.now self.old.failed ≤ times_of name.now self.new.failed }
        ensures ok { OnOk result (AppendsAtMost limit into.old.items into.new.items) }
        ensures told { OnOk result (IfSome (held_bytes self.old.files name.now)
            (λ bytes. into.new.items ≡ into.old.items ++ bytes)) }
        ensures err { OnErr result (into.new.items ≡ into.old.items) }
        ensures failed { IsErrOf result FileFault.Failed →
            times_of name.now self.old.failed < times_of name.now self.new.failed }
        ensures too_long { (reached : ℕ) → IsErrOf result (FileFault.TooLong reached) →
            (reached ≡ limit) × IfSome (held_bytes self.old.files name.now) (λ bytes. limit < length bytes) }

        ensures call { self.new.calls ≡ next_call self.old.calls }
        ensures noted { IsErrOf result FileFault.Failed → self.new.failed ≡ self.old.failed ++ name.now ∷ [] }
        ensures not_noted { (IsErrOf result FileFault.Failed → ⊥) → self.new.failed ≡ self.old.failed }
        ensures files { self.new.files ≡ self.old.files }
        ensures fails { self.new.fails ≡ self.old.fails }
        ensures answer { IsAnswerUnlessNoMemory (is_planned self.old.fails self.new.calls)
            (held_bytes self.old.files name.now) limit result }
    {
        self.calls = self.calls.saturating_add(1);
        if self.fails.as_slice().contains(&self.calls) {
            return Err(note(self.alloc, &mut self.failed, name));
        }
        let Some(file) = first_named(self.files.as_slice(), name) else {
            return Err(note(self.alloc, &mut self.failed, name));
        };
        let bytes = file.bytes.as_slice();
        if bytes.len() as u64 > limit {
            return Err(FileFault::TooLong { limit });
        }
        match into.extend_from_slice(bytes) {
            Ok(()) => Ok(()),
            Err(_) => Err(FileFault::NoMemory),
        }
    }
}

/// A call of `put`, by its number from 1, that fails after it took this many bytes.
#[derive(Clone, Copy)]
pub struct SinkFail {
    pub call: u64,
    pub takes: u64,
}

/// A sink in memory that holds up to `room` bytes. It takes its memory when it is made, and none later.
///
/// A call that is to fail fails after the bytes that it takes, or fewer where its piece or the room ends before. The
/// first entry for a call counts. A piece that has no room fails after the bytes that have.
#[derive(Drop)]
pub struct MemorySink {
    bytes: Vec<u8>,
    room: u64,
    fails: List<SinkFail>,
    calls: u64,
    faults: u64,
}

impl Model for MemorySink {
    ghost use Rattle.std.specs.Prelude.{◌≤◌, vec_len, vec_capacity};
    ghost use Rattle.mc_base.specs.Memory.{SinkInMemory};

    ghost Value = { SinkInMemory };

    ghost view = { λ m. record { bytes = m.bytes.items; room = m.room; fails = m.fails; calls = m.calls; faults = m.faults } };

    ghost invariant = { λ m. (vec_len m.bytes ≤ m.room) × (m.room ≤ vec_capacity m.bytes) };
}

/// How many bytes the call of this number takes before it fails, if it is to fail.
fn takes_at(fails: &[SinkFail], call: u64) -> Option<u64>
    ensures { result ≡ planned_takes fails.now call }
{
    fails
        .iter()
        .find(|fail| fail.call == call)
        .map(|fail| fail.takes)
}

/// Adds the first bytes of a piece, as many as `most` where it has more. There is room for them.
fn put_front(into: &mut Vec<u8>, piece: &[u8], most: u64)
    requires { vec_len into.old + min most (length piece.now) ≤ vec_capacity into.old }
    ensures items { into.new.items ≡ into.old.items ++ take most piece.now }
    ensures capacity { vec_capacity into.old ≤ vec_capacity into.new }
{
    let count = most.min(piece.len() as u64) as usize;
    let _added = into.extend_from_slice(piece.split_at(count).0);
}

/// Adds what a call takes of a piece, where `left` bytes have room and `planned` says how many it takes before it fails.
fn put_piece(
    into: &mut Vec<u8>,
    planned: Option<u64>,
    left: u64,
    piece: &[u8],
) -> Result<(), SinkFailed>
    requires { vec_len into.old + left ≤ vec_capacity into.old }
    ensures puts { Puts planned left piece.now into.old.items into.new.items result }
    ensures len { vec_len into.new ≤ vec_len into.old + left }
    ensures capacity { vec_capacity into.old ≤ vec_capacity into.new }
{
    match planned {
        Some(takes) => {
            put_front(into, piece, takes.min(left));
            Err(SinkFailed)
        }
        None => {
            put_front(into, piece, left);
            if piece.len() as u64 <= left {
                Ok(())
            } else {
                Err(SinkFailed)
            }
        }
    }
}

impl MemorySink {
    /// A sink with this room, of which these calls fail.
    pub fn new(alloc: Global, room: u64, fails: List<SinkFail>) -> Result<MemorySink, NoMemory>
        ensures { IfOk result (λ sink. sink ≡ record { bytes = []; room = room; fails = fails; calls = 0; faults = 0 }) }
    {
        let bytes = Vec::with_capacity(alloc, room as usize)?;
        Ok(MemorySink {
            bytes,
            room,
            fails,
            calls: 0,
            faults: 0,
        })
    }

    /// What was written.
    pub fn bytes(&self) -> &[u8]
        ensures { result.now ≡ self.now.bytes }
    {
        self.bytes.as_slice()
    }
}

impl Sink for MemorySink {
    ghost use Rattle.std.specs.Io.KnownBytes.{Appends};
    ghost use Rattle.mc_base.specs.Outside.{HasRisen, AppendsPart};
    ghost use Rattle.mc_base.specs.Memory.{next_call, planned_takes, Puts};

    ghost written = { λ m. Some m.bytes };

    ghost faults = { λ m. m.faults };

    fn put(&mut self, bytes: &[u8]) -> Result<(), SinkFailed>
        ensures ok { OnOk result (Appends (Some self.old.bytes) (Some self.new.bytes) bytes.now) }
        ensures part { OnErr result (AppendsPart (Some self.old.bytes) (Some self.new.bytes) bytes.now) }
        ensures risen { OnErr result (HasRisen self.old.faults self.new.faults) }
        ensures later { self.old.faults ≤ self.new.faults }

        ensures call { self.new.calls ≡ next_call self.old.calls }
        ensures no_fault { OnOk result (self.new.faults ≡ self.old.faults) }
        ensures fault { OnErr result (self.new.faults ≡ min (self.old.faults + 1) (2 ^ 64 - 1)) }
        ensures room { self.new.room ≡ self.old.room }
        ensures fails { self.new.fails ≡ self.old.fails }
        ensures puts { Puts (planned_takes self.old.fails self.new.calls) (self.old.room - length self.old.bytes)
            bytes.now self.old.bytes self.new.bytes result }
    {
        self.calls = self.calls.saturating_add(1);
        let planned = takes_at(self.fails.as_slice(), self.calls);
        let left = self.room - self.bytes.len() as u64;
        let done = put_piece(&mut self.bytes, planned, left, bytes);
        if done.is_err() {
            self.faults = self.faults.saturating_add(1);
        }
        done
    }
}

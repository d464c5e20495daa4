//! Files and a sink in memory, which fail at chosen calls.

ghost use Rattle.std.specs.Prelude.{◌≡◌, ◌≢◌, ◌≤◌, ◌<◌, ◌⊎◌, ◌↔◌, [], ◌∷◌, ◌++◌, true, None, Some, length, take, min, vec_len, if◌then◌else◌, option_map, IfOk, IsSomeAnd, IsTrue, OnErr};
ghost use Rattle.cpa_io.specs.Causes.{risen};
ghost use Rattle.cpa_io.specs.Memory.{entries_of, held_under, load_fails, put_fails};

#[cfg(test)]
mod tests;

use crate::files::{Files, LoadFault};
use crate::loads::FailedLoads;
use crate::sink::{Sink, SinkFault};
use cpa_units::limits::MAX_TRACE_FILE;
use std::alloc::Global;
use std::marker::Model;

/// Files that are held in memory. The calls whose numbers are listed fail.
#[derive(Drop)]
pub struct MemoryFiles {
    entries: Vec<(String, Vec<u8>)>,
    failing: Vec<u64>,
    calls: u64,
    failed: FailedLoads,
}

impl Model for MemoryFiles {
    ghost use Rattle.std.specs.Prelude.{string_bytes};
    ghost use Rattle.cpa_io.specs.Memory.{FilesInMemory, entries_of};

    ghost Value = { FilesInMemory };

    ghost view = { λ f. record {
      entries = entries_of f.entries.items;
      failing = f.failing.items;
      calls = f.calls;
      faults = f.failed.count;
      last_failed = string_bytes f.failed.last;
    } };
}

impl MemoryFiles {
    /// The calls are numbered from 0, and a number stays at 2^64 - 1 once it is there.
    pub fn new(alloc: Global, held: Vec<(String, Vec<u8>)>, failing: Vec<u64>) -> MemoryFiles
        ensures entries { result.entries ≡ entries_of held.items }
        ensures failing { result.failing ≡ failing.items }
        ensures calls { result.calls ≡ 0 }
        ensures faults { result.faults ≡ 0 }
        ensures last_failed { result.last_failed ≡ [] }
    {
        MemoryFiles {
            entries: held,
            failing,
            calls: 0,
            failed: FailedLoads::none(alloc),
        }
    }
}

impl Files for MemoryFiles {
    ghost told = { λ _. true };

    ghost held = { λ f name. held_under name f.entries };

    ghost faults = { λ f. f.faults };

    ghost last_failed = { λ f. f.last_failed };

    fn load(&mut self, alloc: Global, name: &str, most: u64) -> Result<Vec<u8>, LoadFault>
        requires { most ≤ MAX_TRACE_FILE }

        // As all files promise.
        ensures within { IfOk result (λ v. vec_len v ≤ most) }
        ensures content { IfOk result (λ v. held_under name.now self.old.entries ≡ Some v.items) }
        ensures too_long { result ≡ Err LoadFault.TooLong →
            IsSomeAnd (held_under name.now self.old.entries) (λ bytes. most < length bytes) }
        ensures missing { held_under name.now self.old.entries ≡ None →
            (result ≡ Err LoadFault.Failed) ⊎ (result ≡ Err LoadFault.Memory) }
        ensures rises { self.old.faults ≤ self.new.faults }
        ensures named { result ≡ Err LoadFault.Failed → self.new.last_failed ≡ name.now }
        ensures entries { self.new.entries ≡ self.old.entries }

        // Want of memory aside, a load fails exactly where its number is listed or nothing is held
        // under the name.
        ensures fails { result ≢ Err LoadFault.Memory →
            (result ≡ Err LoadFault.Failed) ↔ IsTrue (load_fails self.old name.now) }
        ensures counted { self.new.faults ≡
            (if load_fails self.old name.now then risen self.old.faults else self.old.faults) }
        ensures unnamed { result ≢ Err LoadFault.Failed → self.new.last_failed ≡ self.old.last_failed }

        ensures calls { self.new.calls ≡ risen self.old.calls }
        ensures failing { self.new.failing ≡ self.old.failing }
    {
        let number = self.calls;
        self.calls = number.saturating_add(1);
        if self.failing.contains(&number) {
            return Err(self.failed.fail(alloc, name));
        }
        match find_entry(self.entries.as_slice(), name) {
            None => Err(self.failed.fail(alloc, name)),
            Some(bytes) => copy_within(alloc, bytes, most),
        }
    }
}

/// A copy of some bytes, at most so many.
fn copy_within(alloc: Global, bytes: &[u8], most: u64) -> Result<Vec<u8>, LoadFault>
    ensures ok { IfOk result (λ v. v.items ≡ bytes.now) }
    ensures within { IfOk result (λ v. vec_len v ≤ most) }
    ensures too_long { result ≡ Err LoadFault.TooLong → most < length bytes.now }
    ensures held { result ≢ Err LoadFault.Failed }
{
    if bytes.len() as u64 > most {
        return Err(LoadFault::TooLong);
    }
    match Vec::from_slice(alloc, bytes) {
        Ok(copy) => Ok(copy),
        Err(_) => Err(LoadFault::Memory),
    }
}

/// The bytes of the first entry with a name.
fn find_entry<'a>(entries: &'a [(String, Vec<u8>)], name: &str) -> Option<&'a [u8]>
    ensures { option_map (λ bytes. bytes.now) result ≡ held_under name.now (entries_of entries.now) }
{
    for entry in entries {
        if entry.0.as_str() == name {
            return Some(entry.1.as_slice());
        }
    }
    None
}

/// A sink in memory, which takes pieces of one size. The calls whose numbers are listed fail.
#[derive(Drop)]
pub struct MemorySink {
    sent: Vec<u8>,
    piece: usize,
    failing: Vec<u64>,
    calls: u64,
    faults: u64,
}

impl Model for MemorySink {
    ghost use Rattle.std.specs.Prelude.{◌≤◌};
    ghost use Rattle.cpa_io.specs.Memory.{SinkInMemory};

    ghost Value = { SinkInMemory };

    ghost view = { λ s. record {
      sent = s.sent.items;
      piece = s.piece;
      failing = s.failing.items;
      calls = s.calls;
      faults = s.faults;
    } };

    ghost invariant = { λ s. 1 ≤ s.piece };
}

impl MemorySink {
    /// The calls with a piece that isn't empty are numbered from 0, and a number stays at
    /// 2^64 - 1 once it is there.
    pub fn new(alloc: Global, piece: usize, failing: Vec<u64>) -> MemorySink
        requires { 1 ≤ piece }
        ensures sent { result.sent ≡ [] }
        ensures piece { result.piece ≡ piece }
        ensures failing { result.failing ≡ failing.items }
        ensures calls { result.calls ≡ 0 }
        ensures faults { result.faults ≡ 0 }
    {
        MemorySink {
            sent: Vec::new(alloc),
            piece,
            failing,
            calls: 0,
            faults: 0,
        }
    }

    /// The bytes sent so far.
    pub fn sent(&self) -> &[u8]
        ensures { result.now ≡ self.now.sent }
    {
        self.sent.as_slice()
    }
}

impl Sink for MemorySink {
    ghost sent = { λ s. Some s.sent };

    ghost faults = { λ s. s.faults };

    fn put(&mut self, piece: &[u8]) -> Result<usize, SinkFault>
        // As all sinks promise.
        ensures some { IfOk result (λ n. 1 ≤ length piece.now → 1 ≤ n) }
        ensures sent { IfOk result (λ n. self.new.sent ≡ self.old.sent ++ take n piece.now) }
        ensures unsent { OnErr result (self.new.sent ≡ self.old.sent) }
        ensures rises { self.old.faults ≤ self.new.faults }
        ensures empty { length piece.now ≡ 0 → result ≡ Ok 0 }
        ensures idle { length piece.now ≡ 0 → self.new ≡ self.old }

        // Where the call isn't to fail and memory is found, one piece is taken, or all of it.
        ensures takes { IfOk result (λ n. n ≡ min self.old.piece (length piece.now)) }
        ensures fails { (result ≡ Err SinkFault.Failed) ↔ IsTrue (put_fails self.old piece.now) }
        ensures counted { self.new.faults ≡
            (if put_fails self.old piece.now then risen self.old.faults else self.old.faults) }

        ensures calls { 1 ≤ length piece.now → self.new.calls ≡ risen self.old.calls }
        ensures piece { self.new.piece ≡ self.old.piece }
        ensures failing { self.new.failing ≡ self.old.failing }
    {
        if piece.is_empty() {
            return Ok(0);
        }
        let number = self.calls;
        self.calls = number.saturating_add(1);
        if self.failing.contains(&number) {
            self.faults = self.faults.saturating_add(1);
            return Err(SinkFault::Failed);
        }
        let count = self.piece.min(piece.len());
        match self.sent.extend_from_slice(&piece[..count]) {
            Ok(()) => Ok(count),
            Err(_) => Err(SinkFault::Memory),
        }
    }
}

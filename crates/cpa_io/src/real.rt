//! The edge of the program: the system's files, and a writer such as standard output.
//!
//! Both are trusted. They tell no bytes, and count each error of the library.

ghost use Rattle.std.specs.Prelude.{◌≡◌, ◌≢◌, ◌≤◌, [], false, None, length, vec_len, IfOk, OnOk};
ghost use Rattle.cpa_io.specs.Causes.{risen};

use crate::files::{Files, LoadFault};
use crate::loads::FailedLoads;
use crate::sink::{Sink, SinkFault};
use cpa_units::limits::MAX_TRACE_FILE;
use std::alloc::Global;
use std::io::{ErrorKind, Read, Write};
use std::marker::Model;
use std::{io, rt};

/// The files of the system. A contract sees the loads that failed.
#[derive(Drop)]
pub struct RealFiles<R: rt::Files + Drop> {
    runtime: R,
    failed: FailedLoads,
}

impl<R: rt::Files + Drop> Model for RealFiles<R> {
    ghost use Rattle.std.specs.Prelude.{string_bytes};
    ghost use Rattle.cpa_io.specs.Real.{LoadFaults};

    ghost Value = { LoadFaults };

    ghost view = { λ f. record { faults = f.failed.count; last_failed = string_bytes f.failed.last } };
}

impl<R: rt::Files + Drop> RealFiles<R> {
    pub fn new(runtime: R, alloc: Global) -> RealFiles<R>
        ensures faults { result.faults ≡ 0 }
        ensures last_failed { result.last_failed ≡ [] }
    {
        RealFiles {
            runtime,
            failed: FailedLoads::none(alloc),
        }
    }

    /// Counts an error of the library, and answers `Memory` where it says that memory ran out.
    fn fail(&mut self, alloc: Global, name: &str, error: io::Error) -> LoadFault
        ensures fault { result ≢ LoadFault.TooLong }
        ensures counted { self.new.faults ≡ risen self.old.faults }
        ensures rises { self.old.faults ≤ self.new.faults }
        ensures named { result ≡ LoadFault.Failed → self.new.last_failed ≡ name.now }
    {
        let fault = self.failed.fail(alloc, name);
        if error.kind() == ErrorKind::OutOfMemory {
            LoadFault::Memory
        } else {
            fault
        }
    }
}

/// What a reader has left, at most so many bytes and one more.
fn read_some<S: Read + Drop>(alloc: Global, reader: S, most: u64) -> io::Result<Vec<u8>>
    requires { most ≤ MAX_TRACE_FILE }
{
    let mut bytes = Vec::new(alloc);
    let mut part = reader.take(most + 1);
    part.read_to_end(&mut bytes)?;
    Ok(bytes)
}

impl<R: rt::Files + Drop> Files for RealFiles<R> {
    ghost told = { λ _. false };

    ghost held = { λ _ _. None };

    ghost faults = { λ f. f.faults };

    ghost last_failed = { λ f. f.last_failed };

    fn load(&mut self, alloc: Global, name: &str, most: u64) -> Result<Vec<u8>, LoadFault>
        requires { most ≤ MAX_TRACE_FILE }

        // As all files promise.
        ensures within { IfOk result (λ v. vec_len v ≤ most) }
        ensures rises { self.old.faults ≤ self.new.faults }
        ensures named { result ≡ Err LoadFault.Failed → self.new.last_failed ≡ name.now }

        // Each error of the library is counted, and nothing else.
        ensures failed { result ≡ Err LoadFault.Failed → self.new.faults ≡ risen self.old.faults }
        ensures memory { result ≡ Err LoadFault.Memory → self.new.faults ≡ risen self.old.faults }
        ensures too_long { result ≡ Err LoadFault.TooLong → self.new ≡ self.old }
        ensures ok { OnOk result (self.new ≡ self.old) }
    {
        let file = match std::fs::open(&self.runtime, name) {
            Ok(file) => file,
            Err(error) => return Err(self.fail(alloc, name, error)),
        };
        match read_some(alloc, file, most) {
            Ok(bytes) => {
                if bytes.len() as u64 > most {
                    Err(LoadFault::TooLong)
                } else {
                    Ok(bytes)
                }
            }
            Err(error) => Err(self.fail(alloc, name, error)),
        }
    }
}

/// A sink over a writer. A contract sees the count of its faults.
#[derive(Drop)]
pub struct RealSink<W: Write + Drop> {
    writer: W,
    faults: u64,
}

impl<W: Write + Drop> Model for RealSink<W> {
    ghost use Rattle.std.specs.Prelude.{ℕ};

    ghost Value = { ℕ };

    ghost view = { λ s. s.faults };
}

impl<W: Write + Drop> RealSink<W> {
    pub fn new(writer: W) -> RealSink<W>
        ensures { result ≡ 0 }
    {
        RealSink { writer, faults: 0 }
    }
}

impl<W: Write + Drop> Sink for RealSink<W> {
    ghost sent = { λ _. None };

    ghost faults = { λ s. s };

    fn put(&mut self, piece: &[u8]) -> Result<usize, SinkFault>
        // As all sinks promise.
        ensures within { IfOk result (λ n. n ≤ length piece.now) }
        ensures some { IfOk result (λ n. 1 ≤ length piece.now → 1 ≤ n) }
        ensures rises { self.old ≤ self.new }
        ensures empty { length piece.now ≡ 0 → result ≡ Ok 0 }

        // Each error of the library is counted, and a write that takes nothing.
        ensures fault { result ≢ Err SinkFault.Memory }
        ensures failed { result ≡ Err SinkFault.Failed → self.new ≡ risen self.old }
        ensures ok { OnOk result (self.new ≡ self.old) }
    {
        if piece.is_empty() {
            return Ok(0);
        }
        match self.writer.write(piece) {
            Ok(count) if count > 0 => Ok(count),
            _ => {
                self.faults = self.faults.saturating_add(1);
                Err(SinkFault::Failed)
            }
        }
    }
}

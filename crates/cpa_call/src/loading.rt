//! The system and the trace in files that a call names.

ghost use Rattle.std.specs.Prelude.{◌≡◌, ◌≤◌, true, length, vec_len, Some, Ok, IfOk, IfErr};
ghost use Rattle.cpa_units.specs.declared.limits.TheConstants.{MAX_TRACE_FILE};
ghost use Rattle.cpa_file.specs.Reading.{Reading, file_reading_of, IsReadFault};
ghost use Rattle.cpa_trace.specs.Reading.{trace_of};
ghost use Rattle.cpa_sim.specs.Outcome.{CanReplay};
ghost use Rattle.cpa_call.specs.Plans.{Do, Refuse, content_in, system_by, system_in, trace_by, trace_in, traced_in, IsSecond};
ghost use Rattle.cpa_call.specs.Answers.{IsOfOutput};
ghost use Rattle.cpa_call.specs.Ends.{IsEndOf, HasStatus, IsUnreadFile, IsNoUnread};

use crate::calls::refused_by;
use crate::errors::{InputError, Reply};
use crate::lines::{breach_line, file_line, refusal_line, trace_line};
use crate::statuses;
use cpa_file::{FileRefusal, read_system_file as read_file};
use cpa_io::{Files, LoadFault};
use cpa_model::System;
use cpa_trace::{Trace, TraceFault, obeys, read_trace};
use cpa_units::NoMemory;
use cpa_units::limits::{MAX_LARGE_FILE, MAX_TRACE_FILE};
use std::alloc::Global;

/// A system, with a trace that obeys it.
#[derive(Drop)]
pub struct Traced {
    pub system: System,
    pub trace: Trace,
}

/// The bytes of a file of at most so many.
pub fn load_file<F: Files>(
    alloc: Global,
    files: &mut F,
    file: &str,
    most: u64,
) -> Result<Vec<u8>, InputError>
    requires { most ≤ MAX_TRACE_FILE }
    ensures planned { F.told files.old ≡ true → IfOk result (λ v. content_in (F.held files.old) file.now most ≡ Do v.items) }
    ensures within { IfOk result (λ v. vec_len v ≤ most) }
    ensures ended { F.told files.old ≡ true → IfErr result (IsEndOf (content_in (F.held files.old) file.now most)) }
    ensures status { IfErr result HasStatus }
    ensures unread { IfErr result (IsUnreadFile (λ last. last ≡ file.now) (F.faults files.old) (F.faults files.new) (F.last_failed files.new)) }
    ensures told { F.told files.new ≡ F.told files.old }
    ensures held { F.held files.new ≡ F.held files.old }
    ensures rises { F.faults files.old ≤ F.faults files.new }
{
    match files.load(alloc, file, most) {
        Ok(bytes) => Ok(bytes),
        Err(LoadFault::Failed) => Err(InputError::Unread(file_line(alloc, b"cannot read ", file)?)),
        Err(LoadFault::TooLong) => Err(refused_by(
            statuses::FILE_TOO_LONG,
            file_line(alloc, b"too long ", file)?,
        )),
        Err(LoadFault::Memory) => Err(InputError::Memory),
    }
}

/// The reply where a file stands for no system; out of memory has none.
fn refuse_system(alloc: Global, file: &str, refusal: FileRefusal) -> Result<Reply, NoMemory>
    ensures reply { IfOk result (λ reply. (reading : Reading) → IsReadFault refusal reading → system_by file.now reading ≡ Refuse reply.status reply.text.items) }
    ensures status { IfOk result (λ reply. IsOfOutput reply.status) }
{
    match refusal {
        FileRefusal::NotToml => Ok(Reply {
            status: statuses::NOT_TOML,
            text: file_line(alloc, b"not TOML ", file)?,
        }),
        FileRefusal::TooLong => Ok(Reply {
            status: statuses::FILE_TOO_LONG,
            text: file_line(alloc, b"too long ", file)?,
        }),
        FileRefusal::Refused(refusal) => Ok(Reply {
            status: statuses::SYSTEM_REFUSED,
            text: refusal_line(alloc, refusal)?,
        }),
        FileRefusal::Memory => Err(NoMemory),
    }
}

/// How a call ends where a file stands for no system.
fn end_system(alloc: Global, file: &str, refusal: FileRefusal) -> InputError
    ensures ended { (reading : Reading) → IsReadFault refusal reading → IsEndOf (system_by file.now reading) result }
    ensures status { HasStatus result }
    ensures unread { IsNoUnread result }
{
    match refuse_system(alloc, file, refusal) {
        Ok(reply) => InputError::Refused(reply),
        Err(NoMemory) => InputError::Memory,
    }
}

/// The system that the bytes of a file stand for.
fn read_system_file(alloc: Global, file: &str, bytes: &[u8]) -> Result<System, InputError>
    ensures planned { IfOk result (λ s. system_by file.now (file_reading_of bytes.now) ≡ Do s) }
    ensures ended { IfErr result (IsEndOf (system_by file.now (file_reading_of bytes.now))) }
    ensures status { IfErr result HasStatus }
    ensures unread { IfErr result IsNoUnread }
{
    match read_file(alloc, bytes) {
        Ok(system) => Ok(system),
        Err(refusal) => Err(end_system(alloc, file, refusal)),
    }
}

/// The system that a file stands for.
pub fn load_system<F: Files>(alloc: Global, files: &mut F, file: &str) -> Result<System, InputError>
    ensures planned { F.told files.old ≡ true → IfOk result (λ s. system_in (F.held files.old) file.now ≡ Do s) }
    ensures ended { F.told files.old ≡ true → IfErr result (IsEndOf (system_in (F.held files.old) file.now)) }
    ensures status { IfErr result HasStatus }
    ensures unread { IfErr result (IsUnreadFile (λ last. last ≡ file.now) (F.faults files.old) (F.faults files.new) (F.last_failed files.new)) }
    ensures told { F.told files.new ≡ F.told files.old }
    ensures held { F.held files.new ≡ F.held files.old }
    ensures rises { F.faults files.old ≤ F.faults files.new }
{
    let bytes = load_file(alloc, files, file, MAX_LARGE_FILE)?;
    read_system_file(alloc, file, bytes.as_slice())
}

/// The trace that the bytes of a file are, where it obeys the system.
fn read_trace_file(alloc: Global, system: &System, bytes: &[u8]) -> Result<Trace, InputError>
    ensures planned { IfOk result (λ tr. trace_by system.now (trace_of system.now bytes.now) ≡ Do tr) }
    ensures replay { IfOk result (CanReplay system.now) }
    ensures ended { IfErr result (IsEndOf (trace_by system.now (trace_of system.now bytes.now))) }
    ensures status { IfErr result HasStatus }
    ensures unread { IfErr result IsNoUnread }
{
    let trace = match read_trace(alloc, system, bytes) {
        Ok(trace) => trace,
        Err(TraceFault::Memory) => return Err(InputError::Memory),
        Err(fault) => {
            return Err(refused_by(statuses::TRACE_REFUSED, trace_line(alloc, fault)?));
        }
    };
    match obeys(alloc, system, &trace)? {
        None => Ok(trace),
        Some(breach) => Err(refused_by(
            statuses::TRACE_BREACHES,
            breach_line(alloc, system, breach)?,
        )),
    }
}

/// The trace that a file is, where it obeys the system.
pub fn load_trace<F: Files>(
    alloc: Global,
    files: &mut F,
    system: &System,
    file: &str,
) -> Result<Trace, InputError>
    ensures planned { F.told files.old ≡ true → IfOk result (λ tr. trace_in (F.held files.old) system.now file.now ≡ Do tr) }
    ensures replay { IfOk result (CanReplay system.now) }
    ensures ended { F.told files.old ≡ true → IfErr result (IsEndOf (trace_in (F.held files.old) system.now file.now)) }
    ensures status { IfErr result HasStatus }
    ensures unread { IfErr result (IsUnreadFile (λ last. last ≡ file.now) (F.faults files.old) (F.faults files.new) (F.last_failed files.new)) }
    ensures told { F.told files.new ≡ F.told files.old }
    ensures held { F.held files.new ≡ F.held files.old }
    ensures rises { F.faults files.old ≤ F.faults files.new }
{
    let bytes = load_file(alloc, files, file, MAX_TRACE_FILE)?;
    read_trace_file(alloc, system, bytes.as_slice())
}

/// The system that a file stands for, and the trace that another is, where it obeys the system.
pub fn load_traced<F: Files>(
    alloc: Global,
    files: &mut F,
    file: &str,
    trace: &str,
) -> Result<Traced, InputError>
    ensures planned { F.told files.old ≡ true → IfOk result (λ t. traced_in (F.held files.old) file.now trace.now ≡ Do t) }
    ensures replay { IfOk result (λ t. CanReplay t.system t.trace) }
    ensures ended { F.told files.old ≡ true → IfErr result (IsEndOf (traced_in (F.held files.old) file.now trace.now)) }
    ensures status { IfErr result HasStatus }
    ensures unread { IfErr result (IsUnreadFile (IsSecond (F.told files.old) (F.held files.old) file.now trace.now) (F.faults files.old) (F.faults files.new) (F.last_failed files.new)) }
    ensures told { F.told files.new ≡ F.told files.old }
    ensures held { F.held files.new ≡ F.held files.old }
    ensures rises { F.faults files.old ≤ F.faults files.new }
{
    let system = load_system(alloc, files, file)?;
    let trace = load_trace(alloc, files, &system, trace)?;
    Ok(Traced { system, trace })
}

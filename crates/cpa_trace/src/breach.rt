//! Whether a trace obeys a system, and its first breach where it doesn't.

ghost use Rattle.std.specs.Prelude.{◌≡◌, ℕ, ◌+◌, ◌-◌, ◌<◌, ◌≤◌, ◌↔◌, length, None, true, Some, false, IfSome, IfOk, IsOk, is_some, nat_lt};
ghost use Rattle.cpa_events.specs.Streams.{stream_delta_minus, IsStreamInRange};
ghost use Rattle.cpa_model.specs.Clocks.{has_clocks};
ghost use Rattle.cpa_model.specs.SystemLists.{task_at};
ghost use Rattle.cpa_model.specs.Streams.{source_stream};
ghost use Rattle.cpa_trace.specs.Trace.{times_of, executions_of, IsOrdered, FitsSystem, Obeys};
ghost use Rattle.cpa_trace.specs.Breaches.{first_some, has_tasks, is_tdma, first_before, first_too_soon, close_breach, execution_breach, phase_breach, first_breach, first_below, is_out_of_range, IsBreachOf};

use crate::clocks::first_clock_breach;
use crate::trace::Trace;
use cpa_events::Stream;
use cpa_model::{Kind, System, Task};
use cpa_units::{NoMemory, ResId, SourceId, TaskId};
use std::alloc::Global;

/// Why a trace doesn't obey a system.
#[derive(Clone, Copy, Debug, PartialEq, Eq)]
pub enum Breach {
    /// Two events of a source are too close; their times in ticks.
    Close {
        source: SourceId,
        first: u64,
        second: u64,
    },
    /// The execution of a task's job, counted from 1, is out of the task's range.
    Exec {
        task: TaskId,
        job: u64,
    },
    /// The phase of a TDMA resource that has a task isn't below its cycle.
    Phase {
        res: ResId,
    },
    /// An event of a source on a clock, with which its events, and those of the sources before it on the clock, can't come
    /// by one clock; its time in ticks.
    Clock {
        source: SourceId,
        time: u64,
    },
}

/// Whether so many gaps want more time than has passed.
fn is_too_long(stream: &Stream, gaps: u64, passed: u64) -> bool
    ensures { result ≡ nat_lt passed (stream_delta_minus stream.now (gaps + 1)) }
{
    let (gaps, passed) = (gaps as u128, passed as u128);
    passed < gaps * stream.distance as u128
        || passed + (stream.jitter as u128) < gaps * stream.period as u128
}

/// The first event that comes too soon after an earlier one. `ahead` says by how much the source
/// may be ahead of its period: it fills by a period with each event, and empties with time.
fn first_too_soon(stream: &Stream, times: &[u64]) -> Option<usize>
    requires stream { IsStreamInRange stream.now }
    requires ordered { IsOrdered times.now }
    ensures { result ≡ first_too_soon stream.now times.now }
{
    let mut ahead = 0;
    for n in 1..times.len() {
        let passed = times[n] - times[n - 1];
        ahead = (ahead + stream.period).saturating_sub(passed);
        if passed < stream.distance || stream.jitter < ahead {
            return Some(n);
        }
    }
    None
}

/// The first event after which event n comes too soon.
fn first_before(stream: &Stream, times: &[u64], n: usize) -> Option<usize>
    requires there { n < length times.now }
    requires ordered { IsOrdered times.now }
    ensures { result ≡ first_before stream.now times.now n }
{
    for i in 0..n {
        if is_too_long(stream, (n - i) as u64, times[n] - times[i]) {
            return Some(i);
        }
    }
    None
}

/// The first breach of a source.
fn close_breach(system: &System, trace: &Trace, source: SourceId) -> Option<Breach>
    requires there { source.0 < length system.now.sources }
    requires fits { FitsSystem system.now trace.now }
    ensures { result ≡ close_breach system.now trace.now source.0 }
{
    let stream = system.source(source).stream();
    let times = trace.times(source);
    let n = first_too_soon(&stream, times)?;
    let i = first_before(&stream, times, n)?;
    Some(Breach::Close {
        source,
        first: times[i],
        second: times[n],
    })
}

/// The first listed execution, by place, that is out of its task's range.
fn first_out_of_range(task: &Task, executions: &[u64]) -> Option<usize>
    ensures { result ≡ first_below (is_out_of_range task.now executions.now) (length executions.now) }
{
    for k in 0..executions.len() {
        if executions[k] < task.best || task.worst < executions[k] {
            return Some(k);
        }
    }
    None
}

/// The first breach of a task.
fn execution_breach(system: &System, trace: &Trace, task: TaskId) -> Option<Breach>
    requires there { task.0 < length system.now.tasks }
    requires fits { FitsSystem system.now trace.now }
    ensures { result ≡ execution_breach system.now trace.now task.0 }
{
    let k = first_out_of_range(system.task(task), trace.executions(task))?;
    Some(Breach::Exec {
        task,
        job: k as u64 + 1,
    })
}

pub(crate) fn is_tdma(kind: Kind) -> bool
    ensures { result ≡ is_tdma kind }
{
    matches!(kind, Kind::Tdma { .. })
}

/// Whether a task is on a resource.
fn has_tasks(system: &System, res: ResId) -> bool
    ensures { result ≡ has_tasks system.now res.0 }
{
    for k in 0..system.tasks() {
        if system.task(TaskId(k)).res.0 == res.0 {
            return true;
        }
    }
    false
}

/// The breach of a resource.
fn phase_breach(system: &System, trace: &Trace, res: ResId) -> Option<Breach>
    requires there { res.0 < length system.now.resources }
    requires fits { FitsSystem system.now trace.now }
    ensures { result ≡ phase_breach system.now trace.now res.0 }
{
    if is_tdma(system.resource(res).kind)
        && has_tasks(system, res)
        && system.cycle(res) <= trace.phase(res)
    {
        Some(Breach::Phase { res })
    } else {
        None
    }
}

fn first_close_breach(system: &System, trace: &Trace) -> Option<Breach>
    requires { FitsSystem system.now trace.now }
    ensures { result ≡ first_some (close_breach system.now trace.now) (length system.now.sources) }
{
    for k in 0..system.sources() {
        let breach = close_breach(system, trace, SourceId(k));
        if breach.is_some() {
            return breach;
        }
    }
    None
}

fn first_execution_breach(system: &System, trace: &Trace) -> Option<Breach>
    requires { FitsSystem system.now trace.now }
    ensures { result ≡ first_some (execution_breach system.now trace.now) (length system.now.tasks) }
{
    for k in 0..system.tasks() {
        let breach = execution_breach(system, trace, TaskId(k));
        if breach.is_some() {
            return breach;
        }
    }
    None
}

fn first_phase_breach(system: &System, trace: &Trace) -> Option<Breach>
    requires { FitsSystem system.now trace.now }
    ensures { result ≡ first_some (phase_breach system.now trace.now) (length system.now.resources) }
{
    for k in 0..system.resources() {
        let breach = phase_breach(system, trace, ResId(k));
        if breach.is_some() {
            return breach;
        }
    }
    None
}

/// The first breach: of the sources, else of the tasks, else of the resources, else of the sources on clocks.
fn first_breach(alloc: Global, system: &System, trace: &Trace) -> Result<Option<Breach>, NoMemory>
    requires { FitsSystem system.now trace.now }
    ensures first { IfOk result (λ b. b ≡ first_breach system.now trace.now) }
    ensures plain { has_clocks system.now ≡ false → IsOk result }
{
    let close = first_close_breach(system, trace);
    if close.is_some() {
        return Ok(close);
    }
    let execution = first_execution_breach(system, trace);
    if execution.is_some() {
        return Ok(execution);
    }
    let phase = first_phase_breach(system, trace);
    if phase.is_some() {
        return Ok(phase);
    }
    first_clock_breach(alloc, system, trace)
}

/// None where a trace obeys a system; else the first breach. Sources come first in their order, with
/// the least event that is too close to an earlier one, and the least such earlier one; then tasks
/// with the first job that is out of range; then resources; then sources on clocks, with the first event that can't come
/// by the clock of the events before it. The only error is out of memory; a system without clocks needs none.
pub fn obeys(alloc: Global, system: &System, trace: &Trace) -> Result<Option<Breach>, NoMemory>
    requires { FitsSystem system.now trace.now }
    ensures first { IfOk result (λ b. b ≡ first_breach system.now trace.now) }
    ensures obeys { IfOk result (λ b. (b ≡ None) ↔ Obeys system.now trace.now) }
    ensures there { IfOk result (λ b. IfSome b (IsBreachOf system.now)) }
    ensures plain { has_clocks system.now ≡ false → IsOk result }
{
    system.has_rules();
    first_breach(alloc, system, trace)
}

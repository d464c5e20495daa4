//! Generated traces.

ghost use Rattle.std.specs.Prelude.{◌≡◌, if◌then◌else◌, ◌<◌, ◌≤◌, ◌+◌, ◌*◌, [], map, max, length, replicate, IfOk, OnOk};
ghost use Rattle.std.specs.List.{range_with_len};
ghost use Rattle.cpa_model.specs.Rules.{IsSource, IsSystem, IsTask};
ghost use Rattle.cpa_model.specs.Clocks.{offset_on};
ghost use Rattle.cpa_model.specs.SystemLists.{source_at, task_at};
ghost use Rattle.rand_pcg.specs.Lcg.{Lcg};
ghost use Rattle.cpa_gen.specs.Draws.{after_draws, draw};
ghost use Rattle.cpa_trace.specs.Breaches.{has_tasks, is_tdma};
ghost use Rattle.cpa_trace.specs.Trace.{Obeys};
ghost use Rattle.cpa_sim.specs.Outcome.{CanReplay};
ghost use Rattle.cpa_gen.specs.MadeTraces.{before_resource, before_source, before_task, drawn_trace, events_made, executions_drawn, has_phase, jobs_by, jobs_made, late_by, late_drawn, late_first, lateness_made, made_trace, most_made, phase_drawn, phases_of, streams_in, times_made, worst_trace};

use crate::draws::{draw, generator};
use cpa_model::{Kind, Source, System, Task};
use cpa_trace::Trace;
use cpa_units::limits::{MAX_PHASE, MAX_TRACE_JOBS, MAX_TRACE_TIME};
use cpa_units::{NoMemory, ResId, SourceId, TaskId};
use rand_pcg::Pcg32;
use std::alloc::Global;
use std::cmp::min;

/// The most events of a source in a generated trace.
const MADE_EVENTS: u64 = 100;

/// How many streams all tasks of a system have.
fn streams_in(system: &System) -> u64
    ensures value { result ≡ streams_in system.now }
{
    let mut total = 0;
    for i in 0..system.tasks() {
        let count = system.streams(TaskId(i));
        total += u64::from(count);
    }
    total
}

/// The most events of a source in a trace that is generated for a system.
fn most_made(system: &System) -> u64
    ensures value { result ≡ most_made system.now }
    ensures few { result ≤ 100 }
{
    let streams = streams_in(system);
    let share = MAX_TRACE_JOBS / streams.max(1);
    MADE_EVENTS.min(share)
}

/// Where the first period of a source begins: at its offset, where it is on a clock.
fn first_begin(source: &Source) -> u64
    requires { IsSource source.now }
    ensures value { result ≡ offset_on source.now.on_clock }
    ensures early { result < source.now.period }
{
    match &source.on_clock {
        Some(on) => on.offset,
        None => 0,
    }
}

/// How many events a source has in a generated trace, at the most so many.
fn events_made(most: u64, source: &Source) -> u64
    requires { IsSource source.now }
    ensures value { result ≡ events_made most source.now }
    ensures few { result ≤ most }
{
    let first = first_begin(source) + source.jitter;
    if first <= MAX_TRACE_TIME {
        min(most, (MAX_TRACE_TIME - first) / source.period + 1)
    } else {
        0
    }
}

fn later(time: u64, other: u64) -> u64
    ensures { result ≡ max time other }
{
    if time < other { other } else { time }
}

/// How late events are that aren't drawn.
#[derive(Clone, Copy, Debug, PartialEq, Eq)]
pub enum Lateness {
    /// The first one as late as may be, and no other.
    First,
    /// As late as may be up to a moment, and from then on not late.
    Until(u64),
}

/// How late event `m` is where the first one is as late as may be, and no other.
fn late_first(source: &Source, m: u64) -> u64
    ensures { result ≡ late_first source.now m }
{
    if m == 0 { source.jitter } else { 0 }
}

/// How late event `m` is that isn't drawn.
fn late_by(late: Lateness, source: &Source, m: u64) -> u64
    requires source { IsSource source.now }
    requires few { m < 100 }
    ensures { result ≡ late_by late source.now m }
{
    match late {
        Lateness::First => late_first(source, m),
        Lateness::Until(moment) => {
            let begin = first_begin(source) + m * source.period;
            min(source.jitter, moment.saturating_sub(begin))
        }
    }
}

/// The times of a source whose events aren't drawn.
fn worst_times(
    alloc: Global,
    most: u64,
    source: &Source,
    late: Lateness,
) -> Result<Vec<u64>, NoMemory>
    requires source { IsSource source.now }
    requires few { most ≤ 100 }
    ensures { IfOk result (λ v. v.items ≡ times_made most source.now (late_by late source.now)) }
{
    let events = events_made(most, source);
    let mut times = Vec::with_capacity(alloc, events as usize)?;
    let first = first_begin(source);
    let mut earliest = 0;
    for m in 0..events {
        let time = later(
            earliest,
            first + m * source.period + late_by(late, source, m),
        );
        times.push(time)?;
        earliest = time + source.distance;
    }
    Ok(times)
}

/// The times of a source whose events are drawn.
fn drawn_times(
    alloc: Global,
    rng: &mut Pcg32,
    most: u64,
    source: &Source,
) -> Result<Vec<u64>, NoMemory>
    requires source { IsSource source.now }
    requires few { most ≤ 100 }
    ensures times { IfOk result (λ v. v.items ≡ times_made most source.now (late_drawn rng.old 0 source.now)) }
    ensures taken { OnOk result (rng.new ≡ after_draws rng.old (events_made most source.now)) }
{
    let events = events_made(most, source);
    let mut times = Vec::with_capacity(alloc, events as usize)?;
    let first = first_begin(source);
    let mut earliest = 0;
    for m in 0..events {
        let late = draw(rng, source.jitter + 1);
        let time = later(earliest, first + m * source.period + late);
        times.push(time)?;
        earliest = time + source.distance;
    }
    Ok(times)
}

/// The drawn executions of so many jobs of a task.
fn drawn_executions(
    alloc: Global,
    rng: &mut Pcg32,
    task: &Task,
    jobs: u64,
) -> Result<Vec<u64>, NoMemory>
    requires ordered { task.now.best ≤ task.now.worst }
    requires worst { task.now.worst ≤ 10000000 }
    ensures executions { IfOk result (λ v. v.items ≡ executions_drawn rng.old 0 task.now jobs) }
    ensures taken { OnOk result (rng.new ≡ after_draws rng.old jobs) }
{
    let mut executions = Vec::with_capacity(alloc, jobs as usize)?;
    for _ in 0..jobs {
        executions.push(task.best + draw(rng, task.worst - task.best + 1))?;
    }
    Ok(executions)
}

/// The times of all sources, none of whose events are drawn.
fn all_worst_times(
    alloc: Global,
    system: &System,
    late: Lateness,
) -> Result<Vec<Vec<u64>>, NoMemory>
    ensures times { IfOk result (λ v. map (λ w. w.items) v.items ≡ map (λ j. times_made (most_made system.now) (source_at system.now j) (late_by late (source_at system.now j))) (range_with_len 0 (length system.now.sources))) }
    ensures rules { IsSystem system.now }
{
    let most = most_made(system);
    let mut times = Vec::with_capacity(alloc, system.sources() as usize)?;
    for j in 0..system.sources() {
        times.push(worst_times(alloc, most, system.source(SourceId(j)), late)?)?;
    }
    Ok(times)
}

/// No executions for each of so many tasks.
fn no_executions(alloc: Global, tasks: u32) -> Result<Vec<Vec<u64>>, NoMemory>
    ensures { IfOk result (λ v. map (λ w. w.items) v.items ≡ replicate tasks []) }
{
    let mut executions = Vec::with_capacity(alloc, tasks as usize)?;
    for _ in 0..tasks {
        executions.push(Vec::new(alloc))?;
    }
    Ok(executions)
}

/// The trace of even places.
fn worst_trace(alloc: Global, system: &System, late: Lateness) -> Result<Trace, NoMemory>
    ensures value { IfOk result (λ tr. tr ≡ worst_trace system.now late) }
    ensures rules { IsSystem system.now }
{
    let times = all_worst_times(alloc, system, late)?;
    let executions = no_executions(alloc, system.tasks())?;
    let phases = vec![in alloc; 0; system.resources() as usize]?;
    Ok(Trace::of_lists(times, executions, phases))
}

/// The times of all sources, drawn one source after the other.
fn draw_all_times(
    alloc: Global,
    rng: &mut Pcg32,
    system: &System,
) -> Result<Vec<Vec<u64>>, NoMemory>
    ensures times { IfOk result (λ v. map (λ w. w.items) v.items ≡ map (λ j. times_made (most_made system.now) (source_at system.now j) (late_drawn rng.old (before_source system.now j) (source_at system.now j))) (range_with_len 0 (length system.now.sources))) }
    ensures taken { OnOk result (rng.new ≡ after_draws rng.old (before_source system.now (length system.now.sources))) }
    ensures rules { IsSystem system.now }
{
    let most = most_made(system);
    let mut times = Vec::with_capacity(alloc, system.sources() as usize)?;
    for j in 0..system.sources() {
        times.push(drawn_times(alloc, rng, most, system.source(SourceId(j)))?)?;
    }
    Ok(times)
}

/// How many jobs a task has in a generated trace, by the most events of a source.
fn jobs_by(system: &System, most: u64, task: TaskId) -> u64
    requires few { most ≤ 100 }
    requires there { task.0 < length system.now.tasks }
    ensures { result ≡ jobs_by most system.now task.0 }
{
    let mut jobs = 0;
    for k in 0..system.streams(task) {
        jobs += events_made(most, system.source(system.stream(task, k)));
    }
    jobs
}

/// The executions of all tasks, drawn one task after the other.
fn draw_all_executions(
    alloc: Global,
    rng: &mut Pcg32,
    system: &System,
) -> Result<Vec<Vec<u64>>, NoMemory>
    ensures executions { (g : Lcg) → rng.old ≡ after_draws g (before_task system.now 0) → IfOk result (λ v. map (λ w. w.items) v.items ≡ map (λ i. executions_drawn g (before_task system.now i) (task_at system.now i) (jobs_made system.now i)) (range_with_len 0 (length system.now.tasks))) }
    ensures taken { (g : Lcg) → rng.old ≡ after_draws g (before_task system.now 0) → OnOk result (rng.new ≡ after_draws g (before_task system.now (length system.now.tasks))) }
{
    let most = most_made(system);
    let mut executions = Vec::with_capacity(alloc, system.tasks() as usize)?;
    for i in 0..system.tasks() {
        let task = TaskId(i);
        let jobs = jobs_by(system, most, task);
        executions.push(drawn_executions(alloc, rng, system.task(task), jobs)?)?;
    }
    Ok(executions)
}

/// Whether a task is on a resource.
fn has_tasks(system: &System, res: ResId) -> bool
    requires { res.0 < length system.now.resources }
    ensures { result ≡ has_tasks system.now res.0 }
{
    !system.tasks_on(res).is_empty()
}

fn is_tdma(kind: Kind) -> bool
    ensures { result ≡ is_tdma kind }
{
    matches!(kind, Kind::Tdma { .. })
}

/// Whether a phase is drawn for a resource.
fn has_phase(system: &System, res: ResId) -> bool
    requires { res.0 < length system.now.resources }
    ensures { result ≡ has_phase system.now res.0 }
{
    is_tdma(system.resource(res).kind) && has_tasks(system, res)
}

/// The phase of a resource, drawn where it is TDMA and has a task: below the cycle, and one that a trace
/// may have.
fn draw_phase(rng: &mut Pcg32, system: &System, res: ResId) -> u64
    requires there { res.0 < length system.now.resources }
    requires rules { IsSystem system.now }
    ensures value { result ≡ (if has_phase system.now res.0 then draw rng.old 0 (phases_of system.now res.0) else 0) }
    ensures taken { rng.new ≡ after_draws rng.old (if has_phase system.now res.0 then 1 else 0) }
{
    if has_phase(system, res) {
        let phases = system.cycle(res).min(MAX_PHASE + 1);
        draw(rng, phases)
    } else {
        0
    }
}

/// The phases, drawn for each TDMA resource that has a task.
fn draw_all_phases(alloc: Global, rng: &mut Pcg32, system: &System) -> Result<Vec<u64>, NoMemory>
    ensures { (g : Lcg) → rng.old ≡ after_draws g (before_resource system.now 0) → IfOk result (λ v. v.items ≡ map (phase_drawn system.now g) (range_with_len 0 (length system.now.resources))) }
{
    let mut phases = Vec::new(alloc);
    for r in 0..system.resources() {
        phases.push(draw_phase(rng, system, ResId(r)))?;
    }
    Ok(phases)
}

/// The trace of odd places.
fn drawn_trace(alloc: Global, mut rng: Pcg32, system: &System) -> Result<Trace, NoMemory>
    ensures value { IfOk result (λ tr. tr ≡ drawn_trace system.now rng) }
    ensures rules { IsSystem system.now }
{
    let times = draw_all_times(alloc, &mut rng, system)?;
    let executions = draw_all_executions(alloc, &mut rng, system)?;
    let phases = draw_all_phases(alloc, &mut rng, system)?;
    Ok(Trace::of_lists(times, executions, phases))
}

/// How late events are in trace `k`, which is even.
fn how_late(system: &System, number: u64, k: u64) -> Lateness
    ensures { result ≡ lateness_made system.now number k }
{
    if system.has_clocks() && k % 4 == 2 {
        let mut rng = generator(number, k);
        let place = draw(&mut rng, u64::from(system.sources()));
        let source = system.source(SourceId(place as u32));
        let event = draw(&mut rng, 10);
        Lateness::Until(first_begin(source) + event * source.period + source.jitter)
    } else {
        Lateness::First
    }
}

/// Trace `k` that is made for a system from a number. Each source has at most 100 events, and fewer where
/// the system has more than 20,000 streams, by 10,000,000 ticks. Clocks start at 0. Where `k` is even, its first event is as
/// late as may be, or, in every other one where there are clocks, all are up to a moment that is drawn, and each execution is
/// the greatest; else all is drawn by PCG32 (O'Neill 2014), from the
/// stream `k`. The trace obeys the system, and can be replayed. The only error is out of memory.
pub fn make_trace(alloc: Global, system: &System, number: u64, k: u64) -> Result<Trace, NoMemory>
    ensures value { IfOk result (λ tr. tr ≡ made_trace system.now number k) }
    ensures obeys { IfOk result (λ tr. Obeys system.now tr) }
    ensures replays { IfOk result (λ tr. CanReplay system.now tr) }
{
    if k % 2 == 0 {
        worst_trace(alloc, system, how_late(system, number, k))
    } else {
        drawn_trace(alloc, generator(number, k), system)
    }
}

//! The bound of a task below a set of others, where tasks are on clocks.

ghost use Rattle.std.specs.Prelude.{◌≡◌, ℕ, ◌+◌, ◌<◌, ◌++◌, ◌∷◌, [], IsTrue, ◌↔◌, Option, List, length, IfOk};
ghost use Rattle.std.specs.Result.{OnOk};
ghost use Rattle.cpa_units.specs.Bounds.{IsAtMost};
ghost use Rattle.cpa_units.specs.Sets.{holds};
ghost use Rattle.cpa_units.specs.declared.limits.TheConstants.{MAX_TASKS};
ghost use Rattle.cpa_clock.specs.Rivals.{ClockedRival};
ghost use Rattle.cpa_clock.specs.Gathered.{IsGathered, AreGathered};
ghost use Rattle.cpa_model.specs.Clocks.{clock_cycle};
ghost use Rattle.cpa_model.specs.SystemLists.{resource_at};
ghost use Rattle.cpa_local.specs.OnClocks.{source_anchor};
ghost use Rattle.cpa_assign.specs.Placing.{AreSourceCycles, source_anchors, clocked_rival_at, clocked_rivals_at, placed_on_clocks, placed_by_clocks, without};

use crate::placing::{sources_model, stands_above};
use cpa_clock::{Anchor, Gathered, own_clock};
use cpa_model::{Kind, System};
use cpa_units::{Bound, NoMemory, ResId, SourceId, TaskId};
use std::alloc::Global;

/// The cycle of the clock that a source is on; 1 if it is on none.
fn cycle_of(system: &System, source: SourceId) -> u64
    requires { source.0 < length system.now.sources }
    ensures { result ≡ clock_cycle system.now source.0 }
{
    match system.ticking(source) {
        None => 1,
        Some(ticking) => ticking.cycle,
    }
}

/// The cycle of the clock that each source is on, by the sources' places.
pub(crate) fn list_cycles(alloc: Global, system: &System) -> Result<Vec<u64>, NoMemory>
    ensures { IfOk result (λ cycles. AreSourceCycles system.now cycles.items) }
{
    let mut cycles = Vec::new(alloc);
    for place in 0..system.sources() {
        cycles.push(cycle_of(system, SourceId(place)))?;
    }
    Ok(cycles)
}

/// Where the events of a source are on its clock, if it has one.
fn source_anchor(system: &System, source: SourceId) -> Option<Anchor>
    requires { source.0 < length system.now.sources }
    ensures { result ≡ source_anchor system.now source.0 }
{
    match system.ticking(source) {
        None => None,
        Some(ticking) => Some(Anchor {
            clock: ticking.clock.0,
            offset: ticking.offset,
        }),
    }
}

/// Where the streams of a task that sources alone activate are on clocks.
fn source_anchors(
    alloc: Global,
    system: &System,
    task: TaskId,
) -> Result<Vec<Option<Anchor>>, NoMemory>
    requires { task.0 < length system.now.tasks }
    ensures { IfOk result (λ anchors. anchors.items ≡ source_anchors system.now task.0) }
{
    let mut anchors = Vec::new(alloc);
    for k in 0..system.streams(task) {
        anchors.push(source_anchor(system, system.stream(task, k)))?;
    }
    Ok(anchors)
}

/// Adds a task to those that are gathered.
fn add_rival(
    alloc: Global,
    system: &System,
    task: TaskId,
    cycles: &[u64],
    gathered: &mut Gathered,
) -> Result<(), NoMemory>
    requires there { task.0 < length system.now.tasks }
    requires cycles { AreSourceCycles system.now cycles.now }
    requires gathered { (own : Option ℕ) × AreGathered own cycles.now gathered.old }
    requires room { gathered.old.added + 1 < MAX_TASKS }
    ensures { (own : Option ℕ) (rivals : List ClockedRival) → IsGathered own cycles.now rivals gathered.old → OnOk result (IsGathered own cycles.now (rivals ++ clocked_rival_at system.now task.0 ∷ []) gathered.new) }
{
    system.has_rules();
    let input = Some(sources_model(system, task));
    let anchors = source_anchors(alloc, system, task)?;
    let worst = system.task(task).worst;
    gathered.add(&input, anchors.as_slice(), cycles, worst)
}

/// Gathers the tasks above one at the lowest free place, which comes by one stream on this clock, or otherwise.
fn gather_by_clocks(
    alloc: Global,
    system: &System,
    task: TaskId,
    free: &[bool],
    cycles: &[u64],
    own: Option<u32>,
    gathered: &mut Gathered,
) -> Result<(), NoMemory>
    requires there { task.0 < length system.now.tasks }
    requires marks { length free.now ≡ length system.now.tasks }
    requires cycles { AreSourceCycles system.now cycles.now }
    ensures { OnOk result (IsGathered own cycles.now (clocked_rivals_at system.now (without (holds free.now) task.0)) gathered.new) }
{
    gathered.begin(own);
    for k in 0..system.tasks() {
        if stands_above(free, task, TaskId(k)) {
            add_rival(alloc, system, TaskId(k), cycles, gathered)?;
        }
    }
    Ok(())
}

/// Whether the bound of a task at the lowest free place, below all others that are free, is at most so many ticks, where tasks
/// are on clocks, and none keeps another waiting.
pub(crate) fn is_lowest_by_clocks(
    alloc: Global,
    system: &System,
    res: ResId,
    task: TaskId,
    free: &[bool],
    cycles: &[u64],
    gathered: &mut Gathered,
    most: u64,
) -> Result<bool, NoMemory>
    requires there { task.0 < length system.now.tasks }
    requires res { res.0 < length system.now.resources }
    requires marks { length free.now ≡ length system.now.tasks }
    requires cycles { AreSourceCycles system.now cycles.now }
    ensures { IfOk result (λ b. IsTrue b ↔ IsAtMost (placed_by_clocks system.now res.0 (without (holds free.now) task.0) task.0 (resource_at system.now res.0).kind) (Bound.Within most)) }
{
    match system.resource(res).kind {
        Kind::Preemptive | Kind::Ceiling => is_preemptive_within(
            alloc, system, res, task, free, cycles, gathered, most,
        ),
        Kind::RoundRobin | Kind::Tdma { gap: _ } | Kind::Can { bit: _ } | Kind::Fifo => Ok(false),
    }
}

/// The same where a more urgent job takes over at once.
fn is_preemptive_within(
    alloc: Global,
    system: &System,
    res: ResId,
    task: TaskId,
    free: &[bool],
    cycles: &[u64],
    gathered: &mut Gathered,
    most: u64,
) -> Result<bool, NoMemory>
    requires there { task.0 < length system.now.tasks }
    requires res { res.0 < length system.now.resources }
    requires marks { length free.now ≡ length system.now.tasks }
    requires cycles { AreSourceCycles system.now cycles.now }
    ensures { IfOk result (λ b. IsTrue b ↔ IsAtMost (placed_on_clocks system.now res.0 (without (holds free.now) task.0) task.0) (Bound.Within most)) }
{
    system.has_rules();
    let own = sources_model(system, task);
    let anchors = source_anchors(alloc, system, task)?;
    let clock = own_clock(&own, anchors.as_slice());
    gather_by_clocks(alloc, system, task, free, cycles, clock, gathered)?;
    let worst = system.task(task).worst;
    let limit = system.resource(res).limit;
    let bound = cpa_clock::respond(
        alloc,
        &own,
        anchors.as_slice(),
        cycles,
        worst,
        0,
        gathered,
        limit,
    )?;
    Ok(is_at_most(bound, most))
}

/// Whether a bound is a number of at most so many ticks.
fn is_at_most(bound: Bound, most: u64) -> bool
    ensures { IsTrue result ↔ IsAtMost bound (Bound.Within most) }
{
    match bound {
        Bound::Within(ticks) => ticks <= most,
        Bound::Overload => false,
    }
}

//! The bound of a task below a set of others.

ghost use Rattle.std.specs.Prelude.{◌≡◌, ◌<◌, ◌≤◌, ◌↔◌, IsTrue, length, vec_capacity, IfOk, IfSome, IfNone, true};
ghost use Rattle.cpa_units.specs.Sets.{holds};
ghost use Rattle.cpa_events.specs.Events.{IsModelInRange};
ghost use Rattle.cpa_window.specs.Rivals.{IsRival, AreRivals};
ghost use Rattle.cpa_events.specs.Streams.{IsStreamInRange};
ghost use Rattle.cpa_model.specs.SystemLists.{path_at, resource_at, stream_at, streams_of};
ghost use Rattle.cpa_model.specs.Streams.{source_stream};
ghost use Rattle.cpa_units.specs.Bounds.{IsAtMost};
ghost use Rattle.cpa_assign.specs.Orders.{IsInTime, IsPathInTime, IsWithinDeadline};
ghost use Rattle.cpa_assign.specs.Placing.{sources_model, rival_at, rivals_at, placed_by_kind, placed_bound, IsRoom, without, Fits, IsLowestOf, NoneIsLowest};

use crate::below::blocking;
use crate::by_clocks::is_lowest_by_clocks;
use cpa_clock::Gathered;
use cpa_events::{Model, Stream};
use cpa_model::{Kind, System};
use cpa_units::{Bound, NoMemory, PathId, ResId, TaskId};
use cpa_window::Rival;
use std::alloc::Global;

/// How the events of one of a task's streams come from their source.
fn source_stream(system: &System, task: TaskId, k: u32) -> Stream
    requires task { task.0 < length system.now.tasks }
    requires stream { k < length (streams_of system.now task.0) }
    ensures value { result ≡ source_stream system.now (stream_at system.now task.0 k).0 }
    ensures in_range { IsStreamInRange result }
{
    system.source(system.stream(task, k)).stream()
}

/// The event model of a task that sources alone activate.
pub(crate) fn sources_model(system: &System, task: TaskId) -> Model
    requires { task.0 < length system.now.tasks }
    ensures value { result ≡ sources_model system.now task.0 }
    ensures in_range { IsModelInRange result }
{
    let count = system.streams(task);
    let mut model = Model::one(source_stream(system, task, 0));
    for k in 1..count {
        model.append(&Model::one(source_stream(system, task, k)));
    }
    model
}

/// A task as those below it see it.
fn rival(system: &System, task: TaskId) -> Rival
    requires { task.0 < length system.now.tasks }
    ensures value { result ≡ rival_at system.now task.0 }
    ensures in_range { IsRival result }
{
    Rival {
        model: Some(sources_model(system, task)),
        worst: system.task(task).worst,
        slot: 0,
        bound: Bound::Overload,
    }
}

/// Whether another task is free, and so above this one at the lowest free place.
pub(crate) fn stands_above(free: &[bool], task: TaskId, other: TaskId) -> bool
    requires { other.0 < length free.now }
    ensures { result ≡ without (holds free.now) task.0 other.0 }
{
    free[other.0 as usize] && other.0 != task.0
}

/// Gathers the tasks above one at the lowest free place, in the room that there is.
fn gather_above(system: &System, task: TaskId, free: &[bool], rivals: &mut Vec<Rival>)
    requires there { task.0 < length system.now.tasks }
    requires marks { length free.now ≡ length system.now.tasks }
    requires room { length system.now.tasks ≤ vec_capacity rivals.old }
    ensures value { rivals.new.items ≡ rivals_at system.now (without (holds free.now) task.0) }
    ensures in_range { AreRivals rivals.new.items }
    ensures room { vec_capacity rivals.new ≡ vec_capacity rivals.old }
{
    rivals.clear();
    for k in 0..system.tasks() {
        if stands_above(free, task, TaskId(k)) {
            rivals.push_reserved(rival(system, TaskId(k)));
        }
    }
}

/// Whether the bound of a task at the lowest free place, below all others that are free, is at most so many ticks, where
/// none is on a clock. Walks end where it is more.
fn is_lowest_apart(
    system: &System,
    res: ResId,
    task: TaskId,
    free: &[bool],
    rivals: &mut Vec<Rival>,
    most: u64,
) -> bool
    requires there { task.0 < length system.now.tasks }
    requires res { res.0 < length system.now.resources }
    requires marks { length free.now ≡ length system.now.tasks }
    requires room { length system.now.tasks ≤ vec_capacity rivals.old }
    ensures value { IsTrue result ↔ IsAtMost (placed_by_kind system.now res.0 (without (holds free.now) task.0) task.0 (resource_at system.now res.0).kind) (Bound.Within most) }
    ensures room { vec_capacity rivals.new ≡ vec_capacity rivals.old }
{
    gather_above(system, task, free, rivals);
    let own = sources_model(system, task);
    let worst = system.task(task).worst;
    let above = rivals.as_slice();
    let entry = system.resource(res);
    match entry.kind {
        Kind::Preemptive => {
            let regions = blocking(system, res, Kind::Preemptive, task, free);
            cpa_spp::is_within(&own, worst, regions, above, entry.limit, most)
        }
        Kind::Can { bit } => {
            let longest = blocking(system, res, Kind::Can { bit }, task, free);
            cpa_can::is_within(&own, worst, longest, above, bit, entry.limit, most)
        }
        Kind::Ceiling => {
            let sections = blocking(system, res, Kind::Ceiling, task, free);
            cpa_spp::is_within(&own, worst, sections, above, entry.limit, most)
        }
        Kind::RoundRobin | Kind::Tdma { gap: _ } | Kind::Fifo => false,
    }
}

/// What the search for a place has at hand.
#[derive(Drop)]
pub(crate) struct Room {
    /// Whether no task of the resource is on a clock.
    pub(crate) off: bool,
    /// The cycles of clocks, by the places of sources.
    pub(crate) cycles: Vec<u64>,
    /// Room for all tasks.
    pub(crate) rivals: Vec<Rival>,
    pub(crate) gathered: Gathered,
}

/// Whether the bound of a task at the lowest free place, below all others that are free, is at most so many ticks.
#[tactic(auto, unfolding(crate::specs::Placing::placed_bound))]
fn is_lowest_within(
    alloc: Global,
    system: &System,
    res: ResId,
    task: TaskId,
    free: &[bool],
    room: &mut Room,
    most: u64,
) -> Result<bool, NoMemory>
    requires there { task.0 < length system.now.tasks }
    requires res { res.0 < length system.now.resources }
    requires marks { length free.now ≡ length system.now.tasks }
    requires room { IsRoom system.now res.0 room.old }
    ensures value { IfOk result (λ b. IsTrue b ↔ IsAtMost (placed_bound system.now res.0 (without (holds free.now) task.0) task.0) (Bound.Within most)) }
    ensures room { IsRoom system.now res.0 room.new }
{
    if room.off {
        return Ok(is_lowest_apart(system, res, task, free, &mut room.rivals, most));
    }
    let cycles = room.cycles.as_slice();
    is_lowest_by_clocks(
        alloc,
        system,
        res,
        task,
        free,
        cycles,
        &mut room.gathered,
        most,
    )
}

/// The deadline of a path, if the path is of this task alone.
fn own_deadline(system: &System, path: PathId, task: TaskId) -> Option<u64>
    requires { path.0 < length system.now.paths }
    ensures { (b : Bound) → IsPathInTime (path_at system.now path.0) task.0 b ↔ IsWithinDeadline result b }
{
    let entry = system.path(path);
    if entry.tasks.len() != 1 || entry.tasks.get(0).0 != task.0 {
        return None;
    }
    entry.deadline
}

/// The deadline that is met just where two are.
fn shorter(one: Option<u64>, other: Option<u64>) -> Option<u64>
    ensures { (b : Bound) → (IsWithinDeadline one b × IsWithinDeadline other b) ↔ IsWithinDeadline result b }
{
    match (one, other) {
        (Some(a), Some(b)) => Some(a.min(b)),
        (Some(a), None) => Some(a),
        (None, _) => other,
    }
}

/// The least deadline of the paths that are of a task alone, if one of them has any.
fn least_deadline(system: &System, task: TaskId) -> Option<u64>
    ensures { (b : Bound) → IsInTime system.now task.0 b ↔ IsWithinDeadline result b }
{
    let mut least = None;
    for k in 0..system.paths() {
        least = shorter(least, own_deadline(system, PathId(k), task));
    }
    least
}

/// Whether a task at the lowest free place, below all others that are free, is in time.
fn is_lowest_in_time(
    alloc: Global,
    system: &System,
    res: ResId,
    task: TaskId,
    free: &[bool],
    room: &mut Room,
) -> Result<bool, NoMemory>
    requires there { task.0 < length system.now.tasks }
    requires res { res.0 < length system.now.resources }
    requires marks { length free.now ≡ length system.now.tasks }
    requires room { IsRoom system.now res.0 room.old }
    ensures value { IfOk result (λ b. IsTrue b ↔ Fits system.now res.0 (without (holds free.now) task.0) task.0) }
    ensures room { IsRoom system.now res.0 room.new }
{
    match least_deadline(system, task) {
        None => Ok(true),
        Some(deadline) => is_lowest_within(alloc, system, res, task, free, room, deadline),
    }
}

/// The first of the free tasks that is in time at the lowest free place, below all others of them.
pub(crate) fn lowest(
    alloc: Global,
    system: &System,
    res: ResId,
    free: &[bool],
    room: &mut Room,
) -> Result<Option<TaskId>, NoMemory>
    requires res { res.0 < length system.now.resources }
    requires marks { length free.now ≡ length system.now.tasks }
    requires room { IsRoom system.now res.0 room.old }
    ensures found { IfOk result (λ it. IfSome it (λ i. IsLowestOf system.now res.0 (holds free.now) i.0)) }
    ensures there { IfOk result (λ it. IfSome it (λ i. i.0 < length system.now.tasks)) }
    ensures none { IfOk result (λ it. IfNone it (NoneIsLowest system.now res.0 (holds free.now))) }
    ensures room { IsRoom system.now res.0 room.new }
{
    for k in 0..system.tasks() {
        let task = TaskId(k);
        if free[k as usize] && is_lowest_in_time(alloc, system, res, task, free, room)? {
            return Ok(Some(task));
        }
    }
    Ok(None)
}

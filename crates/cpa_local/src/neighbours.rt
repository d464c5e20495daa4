//! The other tasks of a task's resource, as its analysis sees them. All times are in ticks.

ghost use Rattle.std.specs.Prelude.{ℕ, ◌≡◌, ◌<◌, ◌≤◌, ◌==◌, max, map, length, take, None, IfSome, slice_index_or};
ghost use Rattle.cpa_units.specs.declared.limits.TheConstants.{MAX_EXECUTION};
ghost use Rattle.cpa_events.specs.Events.{IsModelInRange};
ghost use Rattle.cpa_window.specs.Rivals.{IsRival, AreRivals};
ghost use Rattle.cpa_model.specs.SystemLists.{SystemLists, task_at, tasks_on, higher_tasks, other_tasks};
ghost use Rattle.cpa_local.specs.Blocking.{blocking_between, blocking_of};
ghost use Rattle.cpa_local.specs.Inputs.{AreInputs, input};
ghost use Rattle.cpa_local.specs.Local.{rival_of};
ghost use Rattle.cpa_local.specs.Solution.{IsVector};
ghost use Rattle.cpa_local.specs.Worked.{IsLongest};

use crate::ceilings::most_with_ceilings;
use crate::prepared_inputs::keep;
use cpa_events::Model;
use cpa_model::{Kind, System, Task};
use cpa_units::{ResId, TaskId, Vector};
use cpa_window::Rival;

/// Puts an input in the place of another.
fn put_input(place: &mut Option<Model>, input: &Option<Model>)
    requires { IfSome input.now IsModelInRange }
    ensures value { place.new ≡ input.now }
    ensures in_range { IfSome place.new IsModelInRange }
{
    match input {
        Some(model) => keep(place, model),
        None => *place = None,
    }
}

/// Puts a task as its neighbours see it in the place of another rival, where the vector has its bound
/// and its input is known.
fn put_rival(system: &System, task: TaskId, x: &Vector, inputs: &[Option<Model>], place: &mut Rival)
    requires there { task.0 < length system.now.tasks }
    requires vector { IsVector system.now x.now }
    requires long { length system.now.tasks ≤ length inputs.now }
    requires known { slice_index_or inputs.now task.0 None ≡ input system.now x.now task.0 }
    ensures value { place.new ≡ rival_of system.now x.now task.0 }
    ensures in_range { IsRival place.new }
{
    system.has_rules();
    let entry = system.task(task);
    place.worst = entry.worst;
    place.slot = entry.turn.slot();
    place.bound = x.get(task);
    put_input(&mut place.model, &inputs[task.0 as usize]);
}

/// Gathers the tasks of higher priority on the resource of a task, in the places of others. Answers how many there are.
pub(crate) fn gather_higher(
    system: &System,
    task: TaskId,
    x: &Vector,
    inputs: &[Option<Model>],
    rivals: &mut [Rival],
) -> usize
    requires there { task.0 < length system.now.tasks }
    requires vector { IsVector system.now x.now }
    requires long { length system.now.tasks ≤ length inputs.now }
    requires known { AreInputs system.now (task_at system.now task.0).res.0 x.now inputs.now }
    requires room { length (tasks_on system.now (task_at system.now task.0).res.0) ≤ length rivals.old }
    ensures value { take result rivals.new ≡ map (rival_of system.now x.now) (higher_tasks system.now task.0) }
    ensures in_range { AreRivals (take result rivals.new) }
    ensures few { result ≤ length rivals.new }
    ensures room { length rivals.new ≡ length rivals.old }
{
    let mut count = 0;
    for other in system.tasks_on(system.task(task).res) {
        if system.is_higher(task, *other) {
            put_rival(system, *other, x, inputs, &mut rivals[count]);
            count += 1;
        }
    }
    count
}

/// Gathers the other tasks on the resource of a task, in the places of others. Answers how many there are.
pub(crate) fn gather_others(
    system: &System,
    task: TaskId,
    x: &Vector,
    inputs: &[Option<Model>],
    rivals: &mut [Rival],
) -> usize
    requires there { task.0 < length system.now.tasks }
    requires vector { IsVector system.now x.now }
    requires long { length system.now.tasks ≤ length inputs.now }
    requires known { AreInputs system.now (task_at system.now task.0).res.0 x.now inputs.now }
    requires room { length (tasks_on system.now (task_at system.now task.0).res.0) ≤ length rivals.old }
    ensures value { take result rivals.new ≡ map (rival_of system.now x.now) (other_tasks system.now task.0) }
    ensures in_range { AreRivals (take result rivals.new) }
    ensures few { result ≤ length rivals.new }
    ensures room { length rivals.new ≡ length rivals.old }
{
    let mut count = 0;
    for other in system.tasks_on(system.task(task).res) {
        if system.is_other(task, *other) {
            put_rival(system, *other, x, inputs, &mut rivals[count]);
            count += 1;
        }
    }
    count
}

/// The greatest of so many ticks, and of those by which a job of the second task keeps one of the first waiting, which is more
/// urgent, on a resource of this kind: by what the kind says, and under ceilings by critical sections besides.
fn most_with(system: &System, kind: Kind, task: TaskId, other: TaskId, most: u64) -> u64
    requires task { task.0 < length system.now.tasks }
    requires other { other.0 < length system.now.tasks }
    requires small { most ≤ MAX_EXECUTION }
    ensures value { result ≡ max most (blocking_between system.now kind task.0 other.0) }
    ensures in_range { result ≤ MAX_EXECUTION }
{
    match kind {
        Kind::Ceiling => most_with_ceilings(system, task, other, most),
        Kind::Preemptive
        | Kind::RoundRobin
        | Kind::Tdma { gap: _ }
        | Kind::Can { bit: _ }
        | Kind::Fifo => most.max(kind.blocking_by(system.task(other))),
    }
}

/// By how many ticks one of lower priority on the resource of a task, whose kind it is, keeps it waiting at most; 0 if there
/// are none.
pub(crate) fn blocking(system: &System, task: TaskId, kind: Kind) -> u64
    requires there { task.0 < length system.now.tasks }
    ensures value { result ≡ blocking_of system.now kind task.0 }
    ensures in_range { result ≤ MAX_EXECUTION }
{
    let mut most: u64 = 0;
    for other in system.tasks_on(system.task(task).res) {
        if system.is_higher(*other, task) {
            most = most_with(system, kind, task, *other, most);
        }
    }
    most
}

/// The same where no task on the resource blocks another by more ticks than the longest. Where that is 0, none is looked at.
pub(crate) fn blocking_within(system: &System, task: TaskId, kind: Kind, longest: u64) -> u64
    requires there { task.0 < length system.now.tasks }
    requires longest { IsLongest system.now (task_at system.now task.0).res.0 longest kind }
    ensures value { result ≡ blocking_of system.now kind task.0 }
    ensures in_range { result ≤ MAX_EXECUTION }
{
    if longest == 0 {
        return 0;
    }
    blocking(system, task, kind)
}

/// By how many ticks a task blocks others at most on a resource of this kind: one with critical sections by less than it takes.
fn most_blocking(kind: Kind, task: &Task) -> u64
    requires { task.now.worst ≤ MAX_EXECUTION }
    ensures { (s : SystemLists) (i j : ℕ) → task_at s j ≡ task.now → blocking_between s kind i j ≤ result }
{
    if task.locks.sections().is_empty() {
        kind.blocking_by(task)
    } else {
        task.worst
    }
}

/// By how many ticks a task on a resource of this kind blocks others at most; 0 where no task has regions of more than a tick,
/// nor critical sections.
pub(crate) fn longest_blocking(system: &System, res: ResId, kind: Kind) -> u64
    requires there { res.0 < length system.now.resources }
    ensures { IsLongest system.now res.0 result kind }
{
    let mut longest: u64 = 0;
    for task in system.tasks_on(res) {
        longest = longest.max(most_blocking(kind, system.task(*task)));
    }
    longest
}

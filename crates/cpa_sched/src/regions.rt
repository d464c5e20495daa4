//! Preemptive resources: whose job runs, and to the end of which region.

ghost use Rattle.std.specs.Prelude.{◌≡◌, ◌+◌, ◌<◌, ◌≤◌, ℕ, min, length, filter, option_map, IfSome, Option};
ghost use Rattle.cpa_units.specs.declared.limits.TheConstants.{MAX_EXECUTION};
ghost use Rattle.cpa_model.specs.declared.entries.Kind.TheVariants.{Preemptive};
ghost use Rattle.cpa_model.specs.SystemLists.{SystemLists, place_of, places_of, tasks_on};
ghost use Rattle.cpa_sched.specs.Steps.{kind_of, most_urgent, preemptive_step, region_of, within_region};
ghost use Rattle.cpa_sched.specs.States.{seen, chose, Belongs};
ghost use Rattle.cpa_sched.specs.Stretches.{ticks_of_region};
ghost use Rattle.cpa_sched.specs.Urgency.{IsByUrgency};
ghost use Rattle.cpa_sched.specs.WaitingRanges.{HasWaitingRange};

use crate::choices::urgent_on;
use crate::orders::{Ranking, WaitingRange, first_waiting};
use crate::state::{Queue, ResState};
use crate::stretches::Stretch;
use cpa_model::System;
use cpa_units::{ResId, TaskId};

/// For how many ticks a job of a task isn't preempted once a region of it has begun.
fn region_of(system: &System, task: TaskId) -> u64
    requires { task.0 < length system.now.tasks }
    ensures value { result ≡ region_of system.now task.0 }
    ensures some { 1 ≤ result }
    ensures most { result ≤ MAX_EXECUTION }
{
    system.task(task).region
}

/// The state in which so many ticks are left of a region of a task.
pub(crate) fn within_region(task: TaskId, left: u64) -> ResState
    ensures { seen result ≡ within_region task.0 left }
{
    if left == 0 {
        ResState::free()
    } else {
        ResState {
            holder: Some(task),
            left,
        }
    }
}

/// The task whose region has begun goes on to its end. The state is that after the first tick.
fn finish_region(state: &mut ResState, task: TaskId, most: u64) -> Stretch
    requires left { 1 ≤ state.old.left }
    requires most { 1 ≤ most }
    ensures step { (s : SystemLists) (urgent : Option ℕ) → chose result.task state.new ≡ preemptive_step s (seen state.old) (Some task.0) urgent }
    ensures ticks { result.ticks ≡ min most (state.new.left + 1) }
    ensures some { 1 ≤ result.ticks }
    ensures most { result.ticks ≤ most }
{
    let left = state.left;
    *state = within_region(task, left - 1);
    Stretch {
        task: Some(task),
        ticks: most.min(left),
    }
}

/// A region of the most urgent task begins, which goes on to its end; where each tick is a region, as long
/// as may be. The state is that after the first tick.
fn begin_region(system: &System, state: &mut ResState, urgent: Option<TaskId>, most: u64) -> Stretch
    requires there { IfSome urgent (λ t. t.0 < length system.now.tasks) }
    requires free { state.old ≡ record { holder = None; left = 0 } }
    requires most { 1 ≤ most }
    ensures step { chose result.task state.new ≡ preemptive_step system.now (seen state.old) None (option_map place_of urgent) }
    ensures ticks { result.ticks ≡ ticks_of_region system.now most (option_map place_of result.task) state.new.left }
    ensures some { 1 ≤ result.ticks }
    ensures most { result.ticks ≤ most }
{
    let Some(task) = urgent else {
        return Stretch {
            task: None,
            ticks: most,
        };
    };
    let region = region_of(system, task);
    if region == 1 {
        return Stretch {
            task: urgent,
            ticks: most,
        };
    }
    *state = ResState {
        holder: urgent,
        left: region - 1,
    };
    Stretch {
        task: urgent,
        ticks: most.min(region),
    }
}

/// From a tick on: a job within a region goes on to its end, else a region of the most urgent waiting one
/// begins. The state is that after the first tick.
pub(crate) fn regions<Q: Queue>(
    system: &System,
    res: ResId,
    state: &mut ResState,
    queue: &Q,
    most: u64,
) -> Stretch
    requires there { res.0 < length system.now.resources }
    requires kind { kind_of system.now res.0 ≡ Preemptive }
    requires belongs { Belongs system.now res.0 (seen state.old) }
    requires most { 1 ≤ most }
    ensures step { chose result.task state.new ≡ preemptive_step system.now (seen state.old) (seen state.old).holder (most_urgent system.now (filter (Q.ready queue.now).waits (tasks_on system.now res.0))) }
    ensures ticks { result.ticks ≡ ticks_of_region system.now most (option_map place_of result.task) state.new.left }
    ensures some { 1 ≤ result.ticks }
    ensures most { result.ticks ≤ most }
{
    let Some(holder) = state.holder else {
        return begin_region(system, state, urgent_on(system, res, queue), most);
    };
    finish_region(state, holder, most)
}

/// The same, of a resource whose tasks are given by urgency.
pub(crate) fn regions_by<Q: Queue>(
    system: &System,
    ranking: &Ranking<'_>,
    waiters: &mut WaitingRange,
    state: &mut ResState,
    queue: &Q,
    most: u64,
) -> Stretch
    requires there { ranking.now.res.0 < length system.now.resources }
    requires ranking { IsByUrgency system.now ranking.now.res.0 (places_of ranking.now.tasks.now) }
    requires waiters { HasWaitingRange (places_of ranking.now.tasks.now) (Q.ready queue.now).waits waiters.old }
    requires kind { kind_of system.now ranking.now.res.0 ≡ Preemptive }
    requires belongs { Belongs system.now ranking.now.res.0 (seen state.old) }
    requires most { 1 ≤ most }
    ensures step { chose result.task state.new ≡ preemptive_step system.now (seen state.old) (seen state.old).holder (most_urgent system.now (filter (Q.ready queue.now).waits (tasks_on system.now ranking.now.res.0))) }
    ensures ticks { result.ticks ≡ ticks_of_region system.now most (option_map place_of result.task) state.new.left }
    ensures some { 1 ≤ result.ticks }
    ensures most { result.ticks ≤ most }
    ensures waiters { HasWaitingRange (places_of ranking.now.tasks.now) (Q.ready queue.now).waits waiters.new }
    ensures since { waiters.new.since ≡ waiters.old.since }
{
    let Some(task) = state.holder else {
        let urgent = first_waiting(ranking.tasks, waiters, queue);
        return begin_region(system, state, urgent, most);
    };
    finish_region(state, task, most)
}

//! Which resources can be given an order.

ghost use Rattle.std.specs.Prelude.{◌≡◌, ◌<◌, ◌≤◌, length};
ghost use Rattle.cpa_units.specs.declared.limits.TheConstants.{MAX_EXECUTION};
ghost use Rattle.cpa_assign.specs.Orders.{is_some_source, are_sources, is_fed_by_sources, is_clocked_task, is_off_clocks, is_preemptive, is_without_sections, is_unblocked, can_compare};

use cpa_model::{Activator, Activators, Kind, System, Task};
use cpa_units::{ResId, TaskId};

/// Whether the tasks on a resource are activated by sources alone.
pub fn is_fed_by_sources(system: &System, res: ResId) -> bool
    ensures { result ≡ is_fed_by_sources system.now res.0 }
{
    for k in 0..system.tasks() {
        let entry = system.task(TaskId(k));
        if entry.res.0 == res.0 && !are_sources(&entry.after) {
            return false;
        }
    }
    true
}

fn is_some_source(after: Activator) -> bool
    ensures { result ≡ is_some_source after }
{
    match after {
        Activator::Source(_) => true,
        Activator::Task(_) => false,
    }
}

/// Whether all activators of a task are sources.
fn are_sources(after: &Activators) -> bool
    ensures { result ≡ are_sources after.now }
{
    for one in after.as_slice() {
        if !is_some_source(*one) {
            return false;
        }
    }
    true
}

/// Whether no task of a resource is ever worse off where another moves from above it to below, which a search for an order
/// leans on: none is on a clock, or none keeps another waiting, by a region, a critical section or on a bus. Of two tasks on one
/// clock that never meet the lower may keep the higher waiting all the same, so that the search may miss an order there.
pub fn can_compare(system: &System, res: ResId) -> bool
    requires { res.0 < length system.now.resources }
    ensures { result ≡ can_compare system.now res.0 }
{
    is_off_clocks(system, res)
        || is_preemptive(system.resource(res).kind) && is_unblocked(system, res)
}

/// Whether a more urgent job takes over at once, but for regions and critical sections.
fn is_preemptive(kind: Kind) -> bool
    ensures { result ≡ is_preemptive kind }
{
    match kind {
        Kind::Preemptive | Kind::Ceiling => true,
        Kind::RoundRobin | Kind::Tdma { gap: _ } | Kind::Can { bit: _ } | Kind::Fifo => false,
    }
}

/// Whether a job of a task keeps no more urgent one waiting: the lesser of its region and its worst time is at most a tick, and it has
/// no critical sections.
fn is_without_sections(task: &Task) -> bool
    requires { task.now.worst ≤ MAX_EXECUTION }
    ensures { result ≡ is_without_sections task.now }
{
    Kind::Preemptive.blocking_by(task) == 0 && task.locks.sections().is_empty()
}

/// Whether no task on a resource has any.
fn is_unblocked(system: &System, res: ResId) -> bool
    ensures { result ≡ is_unblocked system.now res.0 }
{
    for k in 0..system.tasks() {
        let entry = system.task(TaskId(k));
        if entry.res.0 == res.0 && !is_without_sections(entry) {
            return false;
        }
    }
    true
}

/// Whether no stream of a task on a resource comes from a source on a clock.
pub(crate) fn is_off_clocks(system: &System, res: ResId) -> bool
    ensures { result ≡ is_off_clocks system.now res.0 }
{
    for k in 0..system.tasks() {
        let task = TaskId(k);
        if system.task(task).res.0 == res.0 && is_clocked(system, task) {
            return false;
        }
    }
    true
}

/// Whether a stream of a task comes from a source on a clock.
fn is_clocked(system: &System, task: TaskId) -> bool
    requires { task.0 < length system.now.tasks }
    ensures { result ≡ is_clocked_task system.now task.0 }
{
    for k in 0..system.streams(task) {
        if system.source(system.stream(task, k)).on_clock.is_some() {
            return true;
        }
    }
    false
}

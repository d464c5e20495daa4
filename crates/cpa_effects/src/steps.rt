//! How what a task wrote comes to the next.

ghost use Rattle.std.specs.Prelude.{◌≡◌, ◌<◌, length};
ghost use Rattle.cpa_model.specs.SystemLists.{is_higher};
ghost use Rattle.cpa_effects.specs.Bounds.{step_between, is_preemptive, gives_way, is_above, sole_source, is_one_source, have_one_source, passage_between};

use cpa_model::{Activator, Kind, System};
use cpa_units::{SourceId, TaskId};

/// A step from a task to the next of a chain.
#[derive(Clone, Copy, Debug, PartialEq, Eq)]
pub enum Step {
    /// The task before starts no job of the next, which reads what it wrote last.
    Register,
    /// It is one of several activators of the next.
    Merge,
    /// It is the only one.
    Activation,
}

/// How what a task wrote comes to the next.
pub fn step_between(system: &System, before: TaskId, next: TaskId) -> Step
    requires { next.0 < length system.now.tasks }
    ensures { result ≡ step_between system.now before.0 next.0 }
{
    let after = &system.task(next).after;
    if !after.has_task(before) {
        Step::Register
    } else if after.len() == 1 {
        Step::Activation
    } else {
        Step::Merge
    }
}

/// When jobs read what the task before wrote.
#[derive(Clone, Copy, Debug, PartialEq, Eq)]
pub enum Reading {
    /// At any time from their arrival to their end.
    Anywhere,
    /// In a tick in which they run.
    WhileRunning,
}

/// How data passes to the next task, and so what that costs.
#[derive(Clone, Copy, Debug, PartialEq, Eq)]
pub enum Passage {
    /// By a step of whichever tasks.
    By(Step),
    /// By a register, from a task of higher priority on the same preemptive resource, to one whose region is a tick and that
    /// reads while it runs.
    FromAbove,
    /// So, where one source is the only activator of both.
    OfOneSource,
}

fn is_preemptive(kind: Kind) -> bool
    ensures { result ≡ is_preemptive kind }
{
    match kind {
        Kind::Preemptive => true,
        Kind::RoundRobin => false,
        Kind::Tdma { gap: _ } => false,
        Kind::Can { bit: _ } => false,
        Kind::Fifo => false,
        Kind::Ceiling => false,
    }
}

/// Whether a job of a task may be preempted at each tick: on a preemptive resource, where its regions are of a tick.
fn gives_way(system: &System, task: TaskId) -> bool
    requires { task.0 < length system.now.tasks }
    ensures { result ≡ gives_way system.now task.0 }
{
    let entry = system.task(task);
    is_preemptive(system.resource(entry.res).kind) && entry.region == 1
}

/// Whether a task is on the resource of the next, which gives way to it, of higher priority, and starts none of its jobs.
fn is_above(system: &System, before: TaskId, next: TaskId) -> bool
    requires before { before.0 < length system.now.tasks }
    requires next { next.0 < length system.now.tasks }
    ensures { result ≡ is_above system.now before.0 next.0 }
{
    gives_way(system, next)
        && system.is_higher(next, before)
        && !system.task(next).after.has_task(before)
}

/// The source that is the only activator of a list.
fn sole_source(after: &[Activator]) -> Option<SourceId>
    ensures { result ≡ sole_source after.now }
{
    match after {
        [Activator::Source(source)] => Some(*source),
        _ => None,
    }
}

fn is_one_source(first: Option<SourceId>, second: Option<SourceId>) -> bool
    ensures { result ≡ is_one_source first second }
{
    match (first, second) {
        (Some(first), Some(second)) => first.0 == second.0,
        _ => false,
    }
}

/// Whether one source is the only activator of both tasks.
fn have_one_source(system: &System, before: TaskId, next: TaskId) -> bool
    requires before { before.0 < length system.now.tasks }
    requires next { next.0 < length system.now.tasks }
    ensures { result ≡ have_one_source system.now before.0 next.0 }
{
    let first = sole_source(system.task(before).after.as_slice());
    let second = sole_source(system.task(next).after.as_slice());
    is_one_source(first, second)
}

/// How data passes to the next task.
pub fn passage_between(reading: Reading, system: &System, before: TaskId, next: TaskId) -> Passage
    requires before { before.0 < length system.now.tasks }
    requires next { next.0 < length system.now.tasks }
    ensures { result ≡ passage_between reading system.now before.0 next.0 }
{
    match reading {
        Reading::Anywhere => Passage::By(step_between(system, before, next)),
        Reading::WhileRunning => {
            if is_above(system, before, next) {
                if have_one_source(system, before, next) {
                    Passage::OfOneSource
                } else {
                    Passage::FromAbove
                }
            } else {
                Passage::By(step_between(system, before, next))
            }
        }
    }
}

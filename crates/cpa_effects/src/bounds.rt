//! The bounds of chains. All times are in ticks.

ghost use Rattle.std.specs.Prelude.{◌≡◌, ◌<◌, ◌≤◌, ◌+◌, ◌-◌, length, All};
ghost use Rattle.std.specs.List.{range_with_len};
ghost use Rattle.cpa_units.specs.Bounds.{RespectsLimit, bound_of, bound_plus};
ghost use Rattle.cpa_units.specs.declared.limits.TheConstants.{MAX_CHAIN};
ghost use Rattle.cpa_events.specs.Events.{IsModelInRange};
ghost use Rattle.cpa_local.specs.Solution.{IsVector};
ghost use Rattle.cpa_model.specs.SystemLists.{may_fall_silent};
ghost use Rattle.cpa_effects.specs.Bounds.{next_event, wait_of, reading_wait, read_from, forward, backward_cost, passage_in, task_in, latency_by, reaction_by, age_by, held_by, latency_of, reaction_of, age_of, held_of};

use crate::steps::{Passage, Reading, Step, passage_between};
use cpa_events::Model;
use cpa_local::input;
use cpa_model::System;
use cpa_units::{Bound, TaskId, Vector};

/// The greatest time from one event to the next, of whichever stream it is.
fn next_event(model: &Model) -> u64
    requires { IsModelInRange model.now }
    ensures value { result ≡ next_event model.now }
    ensures few { result ≤ 5200000000 }
{
    let mut least = model.get(0).delta_plus(2);
    for k in 0..model.len() {
        least = least.min(model.get(k).delta_plus(2));
    }
    least
}

/// Whether some stream of a task is that of a sporadic source.
fn may_fall_silent(system: &System, task: TaskId) -> bool
    requires { task.0 < length system.now.tasks }
    ensures { result ≡ may_fall_silent system.now task.0 }
{
    for k in 0..system.streams(task) {
        if system.source(system.stream(task, k)).sporadic {
            return true;
        }
    }
    false
}

/// How long a moment that an event of a task has just missed can come before the next: a tick less than the greatest
/// time between two. `Overload` where its input is unbounded, or some stream of it is that of a sporadic source.
#[tactic(auto, unfolding(crate::specs::Bounds::wait_of))]
pub fn wait(system: &System, task: TaskId, x: &Vector) -> Bound
    requires there { task.0 < length system.now.tasks }
    requires vector { IsVector system.now x.now }
    ensures value { result ≡ wait_of system.now x.now task.0 }
    ensures few { RespectsLimit 5200000000 result }
{
    if may_fall_silent(system, task) {
        return Bound::Overload;
    }
    match input(system, task, x) {
        None => Bound::Overload,
        Some(model) => Bound::Within(next_event(&model).saturating_sub(1)),
    }
}

fn reading_wait(step: Step, wait: Bound) -> Bound
    requires { RespectsLimit 5200000000 wait }
    ensures value { result ≡ reading_wait step wait }
    ensures few { RespectsLimit 5200000000 result }
{
    match step {
        Step::Register => wait,
        Step::Merge => Bound::Within(0),
        Step::Activation => Bound::Within(0),
    }
}

fn read_from(step: Step, old: Bound, renewed: Bound) -> Bound
    requires old { RespectsLimit 190000000000 old }
    requires renewed { RespectsLimit 190000000000 renewed }
    ensures value { result ≡ read_from step old renewed }
    ensures few { RespectsLimit 190000000000 result }
{
    match step {
        Step::Register => renewed,
        Step::Merge => renewed,
        Step::Activation => old,
    }
}

/// What came before a task, and its bound.
fn with_response(system: &System, x: &Vector, task: TaskId, before: Bound) -> Bound
    requires there { task.0 < length system.now.tasks }
    requires vector { IsVector system.now x.now }
    requires few { RespectsLimit 190000000000 before }
    ensures value { result ≡ bound_plus before (bound_of x.now task.0) }
    ensures few { RespectsLimit 191000000000 result }
{
    before.plus(x.get(task))
}

/// A task's bound and a wait.
fn with_wait(system: &System, x: &Vector, task: TaskId, wait: Bound) -> Bound
    requires there { task.0 < length system.now.tasks }
    requires vector { IsVector system.now x.now }
    requires few { RespectsLimit 5200000000 wait }
    ensures value { result ≡ bound_plus (bound_of x.now task.0) wait }
    ensures few { RespectsLimit 5300000000 result }
{
    x.get(task).plus(wait)
}

/// How long it takes from a job of the task in place k to one of the next that knows of it.
fn forward(reading: Reading, system: &System, x: &Vector, tasks: &[TaskId], k: usize) -> Bound
    requires next { k + 1 < length tasks.now }
    requires there { All (λ (i : TaskId). i.0 < length system.now.tasks) tasks.now }
    requires vector { IsVector system.now x.now }
    ensures value { result ≡ forward reading system.now x.now tasks.now k }
    ensures few { RespectsLimit 5300000000 result }
{
    let before = tasks[k];
    let next = tasks[k + 1];
    let wait = wait(system, next, x);
    match passage_between(reading, system, before, next) {
        Passage::By(step) => with_wait(system, x, before, reading_wait(step, wait)),
        Passage::FromAbove => wait,
        Passage::OfOneSource => Bound::Within(0),
    }
}

/// How long after the first job of a chain one of the task in place k + 1 comes that has its data, where that in place k
/// comes so long after it, and what overwrites it so.
fn backward(
    reading: Reading,
    system: &System,
    x: &Vector,
    tasks: &[TaskId],
    k: usize,
    old: Bound,
    renewed: Bound,
) -> Bound
    requires next { k + 1 < length tasks.now }
    requires there { All (λ (i : TaskId). i.0 < length system.now.tasks) tasks.now }
    requires vector { IsVector system.now x.now }
    requires old { RespectsLimit 190000000000 old }
    requires renewed { RespectsLimit 190000000000 renewed }
    ensures value { result ≡ backward_cost (passage_in reading system.now tasks.now k) (bound_of x.now (task_in tasks.now k).0) old renewed }
{
    let before = tasks[k];
    let next = tasks[k + 1];
    match passage_between(reading, system, before, next) {
        Passage::By(step) => with_response(system, x, before, read_from(step, old, renewed)),
        Passage::FromAbove => renewed,
        Passage::OfOneSource => old,
    }
}

/// From a job of the first task of a chain to the end of the first job of the last that knows of it, where jobs read so. A
/// chain has 1 to 32 tasks, each of which may stand in it more than once.
#[tactic(auto, unfolding(crate::specs::Bounds::latency_by))]
pub fn latency_by(reading: Reading, system: &System, x: &Vector, tasks: &[TaskId]) -> Bound
    requires some { 0 < length tasks.now }
    requires few { length tasks.now ≤ MAX_CHAIN }
    requires there { All (λ (i : TaskId). i.0 < length system.now.tasks) tasks.now }
    requires vector { IsVector system.now x.now }
    ensures value { result ≡ latency_by reading system.now x.now tasks.now }
    ensures few { RespectsLimit 190000000000 result }
{
    let last = tasks.len() - 1;
    let mut sum = Bound::Within(0);
    for k in 0..last {
        sum = sum.plus(forward(reading, system, x, tasks, k));
    }
    sum.plus(x.get(tasks[last]))
}

/// From an event that the first task has just missed to the end of the first job of the last that knows of it: the
/// reaction time (Feiertag et al. 2008; first to first; so named by Günzel et al. 2023).
#[tactic(auto, unfolding(crate::specs::Bounds::reaction_by))]
pub fn reaction_by(reading: Reading, system: &System, x: &Vector, tasks: &[TaskId]) -> Bound
    requires some { 0 < length tasks.now }
    requires few { length tasks.now ≤ MAX_CHAIN }
    requires there { All (λ (i : TaskId). i.0 < length system.now.tasks) tasks.now }
    requires vector { IsVector system.now x.now }
    ensures value { result ≡ reaction_by reading system.now x.now tasks.now }
{
    wait(system, tasks[0], x).plus(latency_by(reading, system, x, tasks))
}

/// How old the data of a job of the last task can be at its end, from the arrival of the job of the first task: the data
/// age (Feiertag et al. 2008; last to last; the reduced data age of Günzel et al. 2023).
#[tactic(auto, unfolding(crate::specs::Bounds::age_by))]
pub fn age_by(reading: Reading, system: &System, x: &Vector, tasks: &[TaskId]) -> Bound
    requires some { 0 < length tasks.now }
    requires few { length tasks.now ≤ MAX_CHAIN }
    requires there { All (λ (i : TaskId). i.0 < length system.now.tasks) tasks.now }
    requires vector { IsVector system.now x.now }
    ensures value { result ≡ age_by reading system.now x.now tasks.now }
    ensures few { RespectsLimit 190000000000 result }
{
    let last = tasks.len() - 1;
    let mut old = Bound::Within(0);
    let mut renewed = wait(system, tasks[0], x);
    for k in 0..last {
        let next = backward(reading, system, x, tasks, k, old, renewed);
        renewed = renewed.plus(forward(reading, system, x, tasks, k));
        old = next;
    }
    old.plus(x.get(tasks[last]))
}

/// How old the data in the register of the last task can be until it is overwritten, from the arrival of the job of the
/// first task (the data age of Günzel et al. 2023): as long as a reaction takes.
#[tactic(auto, unfolding(crate::specs::Bounds::held_by))]
pub fn held_by(reading: Reading, system: &System, x: &Vector, tasks: &[TaskId]) -> Bound
    requires some { 0 < length tasks.now }
    requires few { length tasks.now ≤ MAX_CHAIN }
    requires there { All (λ (i : TaskId). i.0 < length system.now.tasks) tasks.now }
    requires vector { IsVector system.now x.now }
    ensures value { result ≡ held_by reading system.now x.now tasks.now }
{
    let last = tasks.len() - 1;
    let mut renewed = wait(system, tasks[0], x);
    for k in 0..last {
        renewed = renewed.plus(forward(reading, system, x, tasks, k));
    }
    renewed.plus(x.get(tasks[last]))
}

/// The latency of a chain, whenever its jobs read.
pub fn latency(system: &System, x: &Vector, tasks: &[TaskId]) -> Bound
    requires some { 0 < length tasks.now }
    requires few { length tasks.now ≤ MAX_CHAIN }
    requires there { All (λ (i : TaskId). i.0 < length system.now.tasks) tasks.now }
    requires vector { IsVector system.now x.now }
    ensures value { result ≡ latency_of system.now x.now tasks.now }
    ensures few { RespectsLimit 190000000000 result }
{
    latency_by(Reading::Anywhere, system, x, tasks)
}

/// The reaction time of a chain, whenever its jobs read.
pub fn reaction(system: &System, x: &Vector, tasks: &[TaskId]) -> Bound
    requires some { 0 < length tasks.now }
    requires few { length tasks.now ≤ MAX_CHAIN }
    requires there { All (λ (i : TaskId). i.0 < length system.now.tasks) tasks.now }
    requires vector { IsVector system.now x.now }
    ensures value { result ≡ reaction_of system.now x.now tasks.now }
{
    reaction_by(Reading::Anywhere, system, x, tasks)
}

/// The data age of a chain, whenever its jobs read.
pub fn age(system: &System, x: &Vector, tasks: &[TaskId]) -> Bound
    requires some { 0 < length tasks.now }
    requires few { length tasks.now ≤ MAX_CHAIN }
    requires there { All (λ (i : TaskId). i.0 < length system.now.tasks) tasks.now }
    requires vector { IsVector system.now x.now }
    ensures value { result ≡ age_of system.now x.now tasks.now }
    ensures few { RespectsLimit 190000000000 result }
{
    age_by(Reading::Anywhere, system, x, tasks)
}

/// How long data is held along a chain, whenever its jobs read.
pub fn held(system: &System, x: &Vector, tasks: &[TaskId]) -> Bound
    requires some { 0 < length tasks.now }
    requires few { length tasks.now ≤ MAX_CHAIN }
    requires there { All (λ (i : TaskId). i.0 < length system.now.tasks) tasks.now }
    requires vector { IsVector system.now x.now }
    ensures value { result ≡ held_of system.now x.now tasks.now }
{
    held_by(Reading::Anywhere, system, x, tasks)
}

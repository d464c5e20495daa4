//! The analysis of all tasks on a resource, one after the other.

ghost use Rattle.std.specs.Prelude.{ℕ, ◌≡◌, ◌<◌, ◌≤◌, length, slice_set};
ghost use Rattle.std.specs.Bool.{OnFalse};
ghost use Rattle.std.specs.Result.{OnOk, OnErr};
ghost use Rattle.cpa_units.specs.Bounds.{IsAtMost, bound_of, bound_max};
ghost use Rattle.cpa_model.specs.declared.entries.Kind.TheVariants.{Fifo};
ghost use Rattle.cpa_model.specs.SystemLists.{task_at, resource_at};
ghost use Rattle.cpa_local.specs.Local.{response};
ghost use Rattle.cpa_local.specs.Rising.{IsRisen, IsRaised, AgreeOutside, HasInputsApart, TasksOn};
ghost use Rattle.cpa_local.specs.Trails.{IsKept, NewMarksAre};
ghost use Rattle.cpa_local.specs.Worked.{IsPrepared};

use crate::analysis::respond_prepared;
use crate::scratch::Scratch;
use crate::trail::Trail;
use cpa_model::System;
use cpa_units::{Bound, NoMemory, ResId, TaskId, Vector};
use std::alloc::Global;

/// Raises the bounds on a resource by its analysis, task after task, each at the vector as it has risen
/// by then, and marks its tasks. No bound rises above the least solution. `back` may be false only
/// where no bound on the resource bears on an input of its tasks: these are then worked out once for
/// all of them, and else again after each bound that has risen. The place is below the number of
/// resources, the vector nowhere above the least solution, and the trail has room for all tasks. Where
/// memory is refused, which only a system with clocks asks for, some bounds may have risen all the same.
pub fn raise(
    alloc: Global,
    system: &System,
    res: ResId,
    back: bool,
    x: &mut Vector,
    trail: &mut Trail,
) -> Result<(), NoMemory>
    requires in_range { res.0 < length system.now.resources }
    requires apart { OnFalse back (HasInputsApart system.now res.0) }
    requires start { IsRisen system.now x.old x.old }
    requires room { length system.now.tasks ≤ trail.old.room }
    ensures raised { OnOk result (IsRaised system.now res.0 x.old x.new trail.old trail.new) }
    ensures risen { IsRisen system.now x.old x.new }
    ensures kept { IsKept trail.old trail.new }
    ensures fresh { NewMarksAre trail.old trail.new (TasksOn system.now (λ q. q ≡ res.0)) }
{
    trail.mark_all(system, res);
    raise_all(alloc, system, res, back, x, &mut trail.work)
}

/// The same without marks.
fn raise_all(
    alloc: Global,
    system: &System,
    res: ResId,
    back: bool,
    x: &mut Vector,
    work: &mut Scratch,
) -> Result<(), NoMemory>
    requires in_range { res.0 < length system.now.resources }
    requires apart { OnFalse back (HasInputsApart system.now res.0) }
    requires start { IsRisen system.now x.old x.old }
    requires room { length system.now.tasks ≤ length work.old.inputs }
    ensures risen { IsRisen system.now x.old x.new }
    ensures others { AgreeOutside system.now res.0 x.new x.old }
    ensures answered { OnOk result ((i : ℕ) → i < length system.now.tasks → (task_at system.now i).res.0 ≡ res.0 → IsAtMost (response system.now x.old i) (bound_of x.new i)) }
    ensures room { length work.new.inputs ≡ length work.old.inputs }
{
    work.prepare(system, res, x)?;
    if system.resource(res).kind.is_queue() {
        return raise_queue(alloc, system, res, x, work);
    }
    for task in system.tasks_on(res) {
        raise_task(alloc, system, res, *task, back, x, work)?;
    }
    Ok(())
}

/// The same of a queue, all of whose tasks have one bound: the first one's analysis is that of all. What
/// the analyses share is worked out for the vector before.
fn raise_queue(
    alloc: Global,
    system: &System,
    res: ResId,
    x: &mut Vector,
    work: &mut Scratch,
) -> Result<(), NoMemory>
    requires in_range { res.0 < length system.now.resources }
    requires kind { (resource_at system.now res.0).kind ≡ Fifo }
    requires start { IsRisen system.now x.old x.old }
    requires room { length system.now.tasks ≤ length work.old.inputs }
    requires prepared { IsPrepared system.now res.0 x.old work.old }
    ensures risen { IsRisen system.now x.old x.new }
    ensures others { AgreeOutside system.now res.0 x.new x.old }
    ensures answered { OnOk result ((i : ℕ) → i < length system.now.tasks → (task_at system.now i).res.0 ≡ res.0 → IsAtMost (response system.now x.old i) (bound_of x.new i)) }
    ensures room { length work.new.inputs ≡ length work.old.inputs }
{
    let tasks = system.tasks_on(res);
    if tasks.is_empty() {
        return Ok(());
    }
    let bound = respond_prepared(alloc, system, tasks[0], x, work)?;
    raise_to(system, res, bound, x);
    Ok(())
}

/// Raises the bounds on a resource to this one, where that is what its analysis finds for each task.
fn raise_to(system: &System, res: ResId, bound: Bound, x: &mut Vector)
    requires in_range { res.0 < length system.now.resources }
    requires start { IsRisen system.now x.old x.old }
    requires one { (i : ℕ) → i < length system.now.tasks → (task_at system.now i).res.0 ≡ res.0 → bound ≡ response system.now x.old i }
    ensures risen { IsRisen system.now x.old x.new }
    ensures others { AgreeOutside system.now res.0 x.new x.old }
    ensures answered { (i : ℕ) → i < length system.now.tasks → (task_at system.now i).res.0 ≡ res.0 → IsAtMost (response system.now x.old i) (bound_of x.new i) }
{
    for task in system.tasks_on(res) {
        let raised = bound.max(x.get(*task));
        x.set(*task, raised);
    }
}

/// Raises the bound of a task on a resource by its analysis. What the analyses on it share is worked out
/// for the vector before and after. Where memory is refused the vector stays as it is.
fn raise_task(
    alloc: Global,
    system: &System,
    res: ResId,
    task: TaskId,
    back: bool,
    x: &mut Vector,
    work: &mut Scratch,
) -> Result<(), NoMemory>
    requires in_range { res.0 < length system.now.resources }
    requires there { task.0 < length system.now.tasks }
    requires on { (task_at system.now task.0).res.0 ≡ res.0 }
    requires apart { OnFalse back (HasInputsApart system.now res.0) }
    requires start { IsRisen system.now x.old x.old }
    requires room { length system.now.tasks ≤ length work.old.inputs }
    requires prepared { IsPrepared system.now res.0 x.old work.old }
    ensures raised { OnOk result (x.new ≡ slice_set x.old task.0 (bound_max (response system.now x.old task.0) (bound_of x.old task.0))) }
    ensures same { OnErr result (x.new ≡ x.old) }
    ensures prepared { IsPrepared system.now res.0 x.new work.new }
    ensures room { length work.new.inputs ≡ length work.old.inputs }
{
    system.has_rules();
    let bound = respond_prepared(alloc, system, task, x, work)?;
    let before = x.get(task);
    let raised = bound.max(before);
    if raised == before {
        return Ok(());
    }
    x.set(task, raised);
    if back {
        work.follow(system, res, x);
    }
    Ok(())
}

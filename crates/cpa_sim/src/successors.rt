//! Which tasks each source and each task activates.

ghost use Rattle.std.specs.Prelude.{◌≡◌, ◌<◌, ◌+◌, ℕ, [], length, map, replicate, true, OnOk, IfOk};
ghost use Rattle.cpa_model.specs.SystemLists.{task_at};
ghost use Rattle.cpa_sim.specs.Arrivals.{with_task, HasList, with_fed, with_activated, AreSuccessors, HasSingle};

use cpa_model::{Activator, System};
use cpa_units::{NoMemory, TaskId};
use std::alloc::Global;

/// The tasks that have each source and each task among their activators, in the order of the tasks.
#[derive(Drop)]
pub(crate) struct Successors {
    /// Those of each source.
    pub(crate) by_source: Vec<Vec<TaskId>>,
    /// Those of each task.
    pub(crate) by_task: Vec<Vec<TaskId>>,
    /// Whether no task has more than one activator.
    pub(crate) single: bool,
}

/// As many empty lists.
fn empty_lists(alloc: Global, count: u32) -> Result<Vec<Vec<TaskId>>, NoMemory>
    ensures { IfOk result (λ v. map (λ w. w.items) v.items ≡ replicate count []) }
{
    let mut lists = Vec::new(alloc);
    for _ in 0..count {
        lists.push(Vec::new(alloc))?;
    }
    Ok(lists)
}

/// Adds a task to one of some lists.
fn push_at(lists: &mut Vec<Vec<TaskId>>, place: usize, task: TaskId) -> Result<(), NoMemory>
    requires { place < length lists.old.items }
    ensures { OnOk result (map (λ w. w.items) lists.new.items ≡ with_task (map (λ w. w.items) lists.old.items) place task) }
{
    lists[place].push(task)?;
    Ok(())
}

/// Adds a task to those that follow one of its activators.
fn put(successors: &mut Successors, task: TaskId, after: Activator) -> Result<(), NoMemory>
    requires { HasList after (length successors.old.by_source.items) (length successors.old.by_task.items) }
    ensures fed { OnOk result (map (λ v. v.items) successors.new.by_source.items ≡ with_fed after task (map (λ v. v.items) successors.old.by_source.items)) }
    ensures activated { OnOk result (map (λ v. v.items) successors.new.by_task.items ≡ with_activated after task (map (λ v. v.items) successors.old.by_task.items)) }
{
    match after {
        Activator::Source(source) => push_at(&mut successors.by_source, source.0 as usize, task),
        Activator::Task(before) => push_at(&mut successors.by_task, before.0 as usize, task),
    }
}

/// Adds a task to those that follow each of its activators.
fn put_all(system: &System, successors: &mut Successors, task: TaskId) -> Result<(), NoMemory>
    requires there { task.0 < length system.now.tasks }
    requires so_far { AreSuccessors system.now task.0 (map (λ v. v.items) successors.old.by_source.items) (map (λ v. v.items) successors.old.by_task.items) }
    ensures { OnOk result (AreSuccessors system.now (task.0 + 1) (map (λ v. v.items) successors.new.by_source.items) (map (λ v. v.items) successors.new.by_task.items)) }
{
    for after in system.task(task).after.as_slice() {
        put(successors, task, *after)?;
    }
    Ok(())
}

/// Whether no task has more than one activator.
fn has_single(system: &System) -> bool
    ensures { result ≡ true → HasSingle system.now }
{
    for k in 0..system.tasks() {
        if system.task(TaskId(k)).after.len() > 1 {
            return false;
        }
    }
    true
}

/// The successors of each source and each task.
pub(crate) fn find_successors(alloc: Global, system: &System) -> Result<Successors, NoMemory>
    ensures single { IfOk result (λ f. f.single ≡ true → HasSingle system.now) }
    ensures successors { IfOk result (λ f. AreSuccessors system.now (length system.now.tasks) (map (λ v. v.items) f.by_source.items) (map (λ v. v.items) f.by_task.items)) }
{
    let mut successors = Successors {
        by_source: empty_lists(alloc, system.sources())?,
        by_task: empty_lists(alloc, system.tasks())?,
        single: false,
    };
    for k in 0..system.tasks() {
        put_all(system, &mut successors, TaskId(k))?;
    }
    successors.single = has_single(system);
    Ok(successors)
}

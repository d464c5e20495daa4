//! The tasks of each resource, found once and kept with the system.

ghost use Rattle.std.specs.Prelude.{◌≡◌, ◌<◌, ◌≤◌, ◌++◌, ◌∷◌, All, List, length, map, replicate, [], IfOk, OnOk, OnErr};
ghost use Rattle.cpa_units.specs.declared.places.TaskId.{TaskId};
ghost use Rattle.cpa_units.specs.declared.limits.TheConstants.{MAX_TASKS};
ghost use Rattle.cpa_model.specs.declared.entries.Task.{Task};
ghost use Rattle.cpa_model.specs.Changes.{ids_without};
ghost use Rattle.cpa_model.specs.ResourceTasks.{AreTasksByResource, with_task_added};

use crate::entries::{Resource, Task, close_up_ids};
use cpa_units::{NoMemory, ResId, TaskId};
use std::alloc::Global;
use std::marker::Model;

/// The tasks of one resource, in their order.
#[derive(Debug, Drop)]
pub(crate) struct ResourceTasks {
    tasks: Vec<TaskId>,
}

impl Model for ResourceTasks {
    ghost use Rattle.std.specs.Prelude.{List};
    ghost use Rattle.cpa_units.specs.declared.places.TaskId.{TaskId};

    ghost Value = { List TaskId };

    ghost view = { λ r. r.tasks.items };
}

impl ResourceTasks {
    fn empty(alloc: Global) -> ResourceTasks
        ensures { result ≡ [] }
    {
        ResourceTasks {
            tasks: Vec::new(alloc),
        }
    }

    fn copy(&self, alloc: Global) -> Result<ResourceTasks, NoMemory>
        ensures { IfOk result (λ copy. copy ≡ self.now) }
    {
        let tasks = Vec::from_slice(alloc, self.tasks.as_slice())?;
        Ok(ResourceTasks { tasks })
    }

    pub(crate) fn tasks(&self) -> &[TaskId]
        ensures { result.now ≡ self.now }
    {
        self.tasks.as_slice()
    }

    /// Adds a task at the end.
    fn push(&mut self, task: TaskId) -> Result<(), NoMemory>
        ensures ok { OnOk result (self.new ≡ self.old ++ task ∷ []) }
        ensures err { OnErr result (self.new ≡ self.old) }
    {
        match self.tasks.push(task) {
            Ok(()) => Ok(()),
            Err(_) => Err(NoMemory),
        }
    }

    /// Takes away a task, and closes up the places of later ones.
    fn take_out(&mut self, removed: TaskId)
        ensures { self.new ≡ ids_without removed.0 self.old }
    {
        self.tasks.retain(|task| task.0 != removed.0);
        close_up_ids(self.tasks.as_mut_slice(), removed);
    }
}

/// So many lists without tasks.
fn empty_task_lists(alloc: Global, count: usize) -> Result<Vec<ResourceTasks>, NoMemory>
    ensures { IfOk result (λ v. v.items ≡ replicate count []) }
{
    let mut task_lists = Vec::new(alloc);
    for _ in 0..count {
        task_lists.push(ResourceTasks::empty(alloc))?;
    }
    Ok(task_lists)
}

/// Adds a task to those of its resource.
pub(crate) fn list_task(
    task_lists: &mut Vec<ResourceTasks>,
    res: ResId,
    task: TaskId,
) -> Result<(), NoMemory>
    requires { res.0 < length task_lists.old.items }
    ensures ok { OnOk result (task_lists.new.items ≡ with_task_added task_lists.old.items res.0 task) }
    ensures err { OnErr result (task_lists.new.items ≡ task_lists.old.items) }
{
    task_lists[res.0 as usize].push(task)
}

/// The tasks of each of some resources, on which all tasks are.
pub(crate) fn gather(
    alloc: Global,
    resources: &[Resource],
    tasks: &[Task],
) -> Result<Vec<ResourceTasks>, NoMemory>
    requires few { length tasks.now ≤ MAX_TASKS }
    requires placed { All (λ (t : Task). t.res.0 < length resources.now) tasks.now }
    ensures { IfOk result (λ v. AreTasksByResource (length resources.now) tasks.now (length tasks.now) v.items) }
{
    let mut task_lists = empty_task_lists(alloc, resources.len())?;
    for k in 0..tasks.len() {
        list_task(&mut task_lists, tasks[k].res, TaskId(k as u32))?;
    }
    Ok(task_lists)
}

/// Equal lists.
pub(crate) fn copy_task_lists(
    alloc: Global,
    task_lists: &[ResourceTasks],
) -> Result<Vec<ResourceTasks>, NoMemory>
    ensures { IfOk result (λ copies. copies.items ≡ task_lists.now) }
{
    let mut copies = Vec::new(alloc);
    for list in task_lists {
        copies.push(list.copy(alloc)?)?;
    }
    Ok(copies)
}

/// Takes a task out of the list that has it, and closes up the places of later ones.
pub(crate) fn take_out(task_lists: &mut [ResourceTasks], removed: TaskId)
    ensures { task_lists.new ≡ map (ids_without removed.0) task_lists.old }
{
    for list in task_lists.iter_mut() {
        list.take_out(removed);
    }
}

//! What resources read, along the chains of their tasks.

ghost use Rattle.std.specs.Prelude.{◌<◌, ℕ, ◌⊎◌, ◌↔◌, IsTrue, length};
ghost use Rattle.cpa_units.specs.Sets.{Members};
ghost use Rattle.cpa_model.specs.Rules.{IsSystem};
ghost use Rattle.cpa_depend.specs.Cone.{Reads, HasEarlierOn, AreReads, LeadsBack};

use cpa_model::{Activator, System};
use cpa_units::{ResId, ResSet, TaskId};

/// The set, with the resources of all earlier tasks of a task's chains, one chain after the other.
#[cold]
#[inline(never)]
fn with_each_chain(system: &System, task: TaskId, set: ResSet) -> ResSet
    requires rules { IsSystem system.now }
    requires there { task.0 < length system.now.tasks }
    ensures { (q : ℕ) → Members result q ↔ (Members set q ⊎ HasEarlierOn system.now task.0 q) }
{
    let mut all = set;
    for after in system.task(task).after.as_slice() {
        if let Activator::Task(earlier) = *after {
            let wider = all.with(system.task(earlier).res);
            all = with_each_chain(system, earlier, wider);
        }
    }
    all
}

/// The same, which is one walk back while tasks have one activator.
fn with_earlier(system: &System, task: TaskId, set: ResSet) -> ResSet
    requires rules { IsSystem system.now }
    requires there { task.0 < length system.now.tasks }
    ensures { (q : ℕ) → Members result q ↔ (Members set q ⊎ HasEarlierOn system.now task.0 q) }
{
    let mut all = set;
    let mut at = task;
    'steps: while let Some(after) = system.task(at).after.only() {
        let Activator::Task(earlier) = after else {
            return all;
        };
        at = earlier;
        all = all.with(system.task(at).res);
    }
    with_each_chain(system, at, all)
}

/// Whether an earlier task of a chain of a task is on a resource.
fn has_earlier_on(system: &System, task: TaskId, res: ResId) -> bool
    requires rules { IsSystem system.now }
    requires there { task.0 < length system.now.tasks }
    requires in_range { res.0 < length system.now.resources }
    ensures { IsTrue result ↔ HasEarlierOn system.now task.0 res.0 }
{
    with_earlier(system, task, ResSet::none()).has(res)
}

/// Exactly the resources that a resource reads: itself, and those of all earlier tasks in the chains
/// of its tasks. All are places below the number of resources.
pub fn reads(system: &System, res: ResId) -> ResSet
    requires { res.0 < length system.now.resources }
    ensures { (q : ℕ) → Members result q ↔ Reads system.now res.0 q }
{
    let tasks = system.tasks_on(res);
    let mut set = ResSet::none().with(res);
    for task in tasks {
        set = with_earlier(system, *task, set);
    }
    set
}

/// Whether a task on a resource has an earlier task of a chain of it on that resource as well.
pub fn has_cyclic_chain(system: &System, res: ResId) -> bool
    requires { res.0 < length system.now.resources }
    ensures { IsTrue result ↔ LeadsBack system.now res.0 }
{
    for task in system.tasks_on(res) {
        if has_earlier_on(system, *task, res) {
            return true;
        }
    }
    false
}

/// Exactly what each resource reads, by its place; places from the number of resources on say nothing.
pub fn reads_of_all(system: &System) -> [ResSet; 128]
    ensures { AreReads system.now result }
{
    let mut all = [ResSet::none(); 128];
    for place in 0..system.resources() {
        all[place as usize] = reads(system, ResId(place));
    }
    all
}

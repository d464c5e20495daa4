//! The resources that an edit touches.

ghost use Rattle.std.specs.Prelude.{◌≡◌, ◌<◌, ◌==◌, ℕ, is_none, false, None};
ghost use Rattle.std.specs.List.{list_any};
ghost use Rattle.cpa_units.specs.Sets.{holds};
ghost use Rattle.cpa_model.specs.SystemLists.{is_fed_by, task_named, tasks_on};
ghost use Rattle.cpa_edit.specs.Named.{resource_of_task};
ghost use Rattle.cpa_edit.specs.Edited.{refusal, touches};

use crate::edit::Edit;
use crate::lookups::{resource_named, resource_of, source_named, task_named};
use cpa_model::System;
use cpa_units::{Name, ResId, ResSet, SourceId, TaskId};

fn only(res: ResId) -> ResSet
    requires { res.0 < 128 }
    ensures { (r : ℕ) → holds result r ≡ (r == res.0) }
{
    ResSet::none().with(res)
}

/// The resources of the tasks that a source feeds directly.
fn fed_by(system: &System, source: SourceId) -> ResSet
    ensures { (r : ℕ) → holds result r ≡ list_any (is_fed_by system.now source.0) (tasks_on system.now r) }
{
    let mut set = ResSet::none();
    for place in 0..system.tasks() {
        let task = system.task(TaskId(place));
        if task.after.has_source(source) {
            set = set.with(task.res);
        }
    }
    set
}

/// The resource of the task with a name, which there is.
fn resource_of_task(system: &System, task: &Name) -> ResId
    requires { is_none (task_named system.now task.now) ≡ false }
    ensures value { result.0 ≡ resource_of_task system.now task.now }
    ensures small { result.0 < 128 }
{
    system.has_rules();
    resource_of(system, task_named(system, task))
}

/// The resources that an edit touches, which breaks no rule.
pub(crate) fn touched(system: &System, edit: &Edit) -> ResSet
    requires { refusal system.now edit.now ≡ None }
    ensures { (r : ℕ) → holds result r ≡ touches system.now edit.now r }
{
    match edit {
        Edit::Exec { task, .. } => only(resource_of_task(system, task)),
        Edit::Priority { task, .. } => only(resource_of_task(system, task)),
        Edit::Swap { first, second } => {
            let one = resource_of_task(system, first);
            only(one).with(resource_of_task(system, second))
        }
        Edit::Slot { task, .. } => only(resource_of_task(system, task)),
        Edit::Source { name, .. } => fed_by(system, source_named(system, name)),
        Edit::Offset { name, .. } => fed_by(system, source_named(system, name)),
        Edit::Add { res, .. } => {
            system.has_rules();
            only(resource_named(system, res))
        }
        Edit::Remove { task } => only(resource_of_task(system, task)),
    }
}

//! The bounds of tasks whose streams, or whose neighbours' streams, are on clocks. All times are in ticks.

ghost use Rattle.std.specs.Prelude.{◌≡◌, ℕ, ◌<◌, ◌≤◌, List, map, length, Some, IfOk};
ghost use Rattle.std.specs.Result.{OnOk};
ghost use Rattle.cpa_units.specs.declared.bound.Bound.{Bound};
ghost use Rattle.cpa_units.specs.declared.limits.TheConstants.{MAX_EXECUTION};
ghost use Rattle.cpa_clock.specs.Gathered.{IsInputOn, IsGathered, own_clock};
ghost use Rattle.cpa_model.specs.declared.entries.Kind.TheVariants.{Can};
ghost use Rattle.cpa_model.specs.Rules.{IsSystem};
ghost use Rattle.cpa_model.specs.SystemLists.{task_at, resource_of, higher_tasks};
ghost use Rattle.cpa_local.specs.Blocking.{blocking_of};
ghost use Rattle.cpa_local.specs.Inputs.{AreInputs};
ghost use Rattle.cpa_local.specs.Local.{priority_bound, bound_by_kind};
ghost use Rattle.cpa_local.specs.OnClocks.{anchor_list, anchors_of};
ghost use Rattle.cpa_local.specs.Worked.{HasAnchors, AreInputsOn, clocked_rival_by};

use crate::clocks::Clocks;
use cpa_clock::{Gathered, own_clock};
use cpa_events::Model;
use cpa_model::System;
use cpa_units::{Bound, NoMemory, TaskId};
use std::alloc::Global;

/// Gathers by clocks the tasks of higher priority on the resource of a task, whose input this is.
fn gather_by_clocks(
    system: &System,
    task: TaskId,
    own: &Model,
    inputs: &[Option<Model>],
    clocks: &Clocks,
    gathered: &mut Gathered,
) -> Result<(), NoMemory>
    requires there { task.0 < length system.now.tasks }
    requires long { length system.now.tasks ≤ length inputs.now }
    requires anchors { HasAnchors system.now (task_at system.now task.0).res.0 clocks.now }
    requires inputs { AreInputsOn system.now (task_at system.now task.0).res.0 clocks.now.cycles inputs.now }
    ensures { OnOk result (IsGathered (own_clock own.now (anchors_of system.now task.0)) clocks.now.cycles (map (clocked_rival_by system.now inputs.now) (higher_tasks system.now task.0)) gathered.new) }
{
    gathered.begin(own_clock(own, clocks.anchors(task)));
    for other in system.tasks_on(system.task(task).res) {
        if system.is_higher(task, *other) {
            let input = &inputs[other.0 as usize];
            let worst = system.task(*other).worst;
            gathered.add(input, clocks.anchors(*other), clocks.cycles(), worst)?;
        }
    }
    Ok(())
}

/// The bound under preemptive priority of a task with this input, which is blocked for so many ticks at most.
#[cold]
#[inline(never)]
pub(crate) fn preemptive_by_clocks(
    alloc: Global,
    system: &System,
    task: TaskId,
    own: &Model,
    blocking: u64,
    inputs: &[Option<Model>],
    clocks: &Clocks,
    gathered: &mut Gathered,
) -> Result<Bound, NoMemory>
    requires rules { IsSystem system.now }
    requires there { task.0 < length system.now.tasks }
    requires long { length system.now.tasks ≤ length inputs.now }
    requires own { IsInputOn clocks.now.cycles (anchor_list system.now task.0) (Some own.now) }
    requires small { blocking ≤ MAX_EXECUTION }
    requires anchors { HasAnchors system.now (task_at system.now task.0).res.0 clocks.now }
    requires inputs { AreInputsOn system.now (task_at system.now task.0).res.0 clocks.now.cycles inputs.now }
    ensures { (x : List Bound) → AreInputs system.now (task_at system.now task.0).res.0 x inputs.now → IfOk result (λ b. b ≡ priority_bound system.now x task.0 own.now blocking) }
{
    gather_by_clocks(system, task, own, inputs, clocks, gathered)?;
    let entry = system.task(task);
    let limit = system.resource(entry.res).limit;
    cpa_clock::respond(
        alloc,
        own,
        clocks.anchors(task),
        clocks.cycles(),
        entry.worst,
        blocking,
        gathered,
        limit,
    )
}

/// The same on a CAN bus whose bits take so many ticks.
#[cold]
#[inline(never)]
pub(crate) fn can_by_clocks(
    alloc: Global,
    system: &System,
    task: TaskId,
    own: &Model,
    blocking: u64,
    bit: u64,
    inputs: &[Option<Model>],
    clocks: &Clocks,
    gathered: &mut Gathered,
) -> Result<Bound, NoMemory>
    requires rules { IsSystem system.now }
    requires there { task.0 < length system.now.tasks }
    requires kind { (resource_of system.now task.0).kind ≡ Can bit }
    requires long { length system.now.tasks ≤ length inputs.now }
    requires own { IsInputOn clocks.now.cycles (anchor_list system.now task.0) (Some own.now) }
    requires blocking { blocking ≡ blocking_of system.now (Can bit) task.0 }
    requires small { blocking ≤ MAX_EXECUTION }
    requires anchors { HasAnchors system.now (task_at system.now task.0).res.0 clocks.now }
    requires inputs { AreInputsOn system.now (task_at system.now task.0).res.0 clocks.now.cycles inputs.now }
    ensures { (x : List Bound) → AreInputs system.now (task_at system.now task.0).res.0 x inputs.now → IfOk result (λ b. b ≡ bound_by_kind system.now x task.0 own.now (Can bit)) }
{
    gather_by_clocks(system, task, own, inputs, clocks, gathered)?;
    let entry = system.task(task);
    let limit = system.resource(entry.res).limit;
    cpa_clock::respond_can(
        alloc,
        own,
        clocks.anchors(task),
        clocks.cycles(),
        entry.worst,
        blocking,
        gathered,
        bit,
        limit,
    )
}

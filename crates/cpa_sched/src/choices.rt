//! Whom a rule looks for among the tasks of a resource.

ghost use Rattle.std.specs.Prelude.{◌≡◌, ◌<◌, ◌≤◌, filter, length, option_map, IfSome};
ghost use Rattle.cpa_model.specs.declared.entries.Kind.TheVariants.{Tdma};
ghost use Rattle.cpa_model.specs.SystemLists.{cycle_of, place_of, tasks_on};
ghost use Rattle.cpa_sched.specs.Steps.{first_of, kind_of, last_of, most_urgent, owner_at, ring_after};
ghost use Rattle.cpa_sched.specs.States.{IsWaiting};
ghost use Rattle.cpa_sched.specs.Stretches.{ticks_to_end};

use crate::scans::{Owner, most_urgent, next_waiting, owner_at};
use crate::state::Queue;
use cpa_model::System;
use cpa_units::{ResId, TaskId};

/// The last task of a resource.
pub(crate) fn last_on(system: &System, res: ResId) -> Option<TaskId>
    requires { res.0 < length system.now.resources }
    ensures { option_map place_of result ≡ last_of (tasks_on system.now res.0) }
{
    system.tasks_on(res).last().copied()
}

/// The waiting task of a resource with the smallest priority number.
pub(crate) fn urgent_on<Q: Queue>(system: &System, res: ResId, queue: &Q) -> Option<TaskId>
    requires { res.0 < length system.now.resources }
    ensures { option_map place_of result ≡ most_urgent system.now (filter (Q.ready queue.now).waits (tasks_on system.now res.0)) }
{
    most_urgent(system, system.tasks_on(res), queue)
}

/// The next waiting task on a resource's ring after the holder, which comes last itself.
pub(crate) fn next_on<Q: Queue>(
    system: &System,
    res: ResId,
    queue: &Q,
    holder: TaskId,
) -> Option<TaskId>
    requires there { res.0 < length system.now.resources }
    requires holder { holder.0 < length system.now.tasks }
    ensures next { option_map place_of result ≡ first_of (filter (Q.ready queue.now).waits (ring_after system.now res.0 holder.0)) }
    ensures waits { IfSome result (λ t. IsWaiting system.now res.0 (Q.ready queue.now).waits t.0) }
{
    next_waiting(system.tasks_on(res), queue, holder)
}

/// The owner of a place in the cycle of a TDMA resource.
pub(crate) fn owner_on(system: &System, res: ResId, gap: u64, place: u64) -> Owner
    requires there { res.0 < length system.now.resources }
    requires kind { kind_of system.now res.0 ≡ Tdma gap }
    requires place { place < cycle_of system.now res.0 }
    ensures task { option_map place_of result.task ≡ owner_at system.now (tasks_on system.now res.0) place }
    ensures left { result.left ≡ ticks_to_end system.now gap (tasks_on system.now res.0) place }
    ensures some { 1 ≤ result.left }
{
    owner_at(system, system.tasks_on(res), gap, place)
}

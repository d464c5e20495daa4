//! FIFO resources: the task runs whose earliest pending job arrived first.

ghost use Rattle.std.specs.Prelude.{◌≡◌, ◌<◌, ◌≤◌, true, Some, filter, length, option_map, IfSome};
ghost use Rattle.cpa_model.specs.declared.entries.Kind.TheVariants.{Fifo};
ghost use Rattle.cpa_model.specs.SystemLists.{place_of, places_of, tasks_on};
ghost use Rattle.cpa_sched.specs.Steps.{ResourceState, fifo_step, kind_of};
ghost use Rattle.cpa_sched.specs.States.{IsWaiting};
ghost use Rattle.cpa_sched.specs.Least.{lesser, least_by};
ghost use Rattle.cpa_sched.specs.Urgency.{IsByUrgency};
ghost use Rattle.cpa_sched.specs.WaitingRanges.{CameSince, HasWaitingRange};
ghost use Rattle.cpa_sched.specs.Fifo.{FifoNeverIdles, FifoWaits, FifoComesFirst, FifoStays, FifoGoesOn};

use crate::orders::{Ranking, WaitingRange, first_waiting};
use crate::state::Queue;
use crate::stretches::Stretch;
use cpa_model::System;
use cpa_units::{ResId, TaskId};

/// Of a task and one that stands after it that whose job arrived first.
fn earlier<Q: Queue>(queue: &Q, task: TaskId, later: TaskId) -> TaskId
    requires task { (Q.ready queue.now).waits task.0 ≡ true }
    requires later { (Q.ready queue.now).waits later.0 ≡ true }
    ensures value { result.0 ≡ lesser (Q.ready queue.now).arrival task.0 (Some later.0) }
    ensures waits { (Q.ready queue.now).waits result.0 ≡ true }
{
    if queue.arrival(later) < queue.arrival(task) {
        later
    } else {
        task
    }
}

/// The task of a list that waits and whose job arrived first.
fn earliest<Q: Queue>(tasks: &[TaskId], queue: &Q) -> Option<TaskId>
    ensures { option_map place_of result ≡ least_by (Q.ready queue.now).arrival (filter (Q.ready queue.now).waits (places_of tasks.now)) }
{
    let mut first: Option<TaskId> = None;
    for &task in tasks {
        if queue.waits(task) {
            first = match first {
                None => Some(task),
                Some(other) => Some(earlier(queue, other, task)),
            };
        }
    }
    first
}

/// FIFO: the task whose earliest pending job arrived first runs, the first in the file where several did, and
/// goes on for as long as may be.
pub(crate) fn first_come<Q: Queue>(system: &System, res: ResId, queue: &Q, most: u64) -> Stretch
    requires there { res.0 < length system.now.resources }
    ensures step { (st : ResourceState) → record { task = option_map place_of result.task; state = st } ≡ fifo_step system.now res.0 st (Q.ready queue.now) }
    ensures ticks { result.ticks ≡ most }
    ensures waits { IfSome result.task (λ t. IsWaiting system.now res.0 (Q.ready queue.now).waits t.0) }
{
    Stretch {
        task: earliest(system.tasks_on(res), queue),
        ticks: most,
    }
}

/// The same, of a resource whose tasks are given by urgency, which on a queue is their order in the file.
/// Where no job came before that of the first of them that waits it looks no further.
pub(crate) fn first_come_within<Q: Queue>(
    system: &System,
    ranking: &Ranking<'_>,
    waiters: &mut WaitingRange,
    queue: &Q,
    most: u64,
) -> Stretch
    requires there { ranking.now.res.0 < length system.now.resources }
    requires kind { kind_of system.now ranking.now.res.0 ≡ Fifo }
    requires ranking { IsByUrgency system.now ranking.now.res.0 (places_of ranking.now.tasks.now) }
    requires waiters { HasWaitingRange (places_of ranking.now.tasks.now) (Q.ready queue.now).waits waiters.old }
    requires since { CameSince system.now ranking.now.res.0 (Q.ready queue.now).waits (Q.ready queue.now).arrival waiters.old.since }
    ensures step { (st : ResourceState) → record { task = option_map place_of result.task; state = st } ≡ fifo_step system.now ranking.now.res.0 st (Q.ready queue.now) }
    ensures ticks { result.ticks ≡ most }
    ensures waiters { HasWaitingRange (places_of ranking.now.tasks.now) (Q.ready queue.now).waits waiters.new }
    ensures since { CameSince system.now ranking.now.res.0 (Q.ready queue.now).waits (Q.ready queue.now).arrival waiters.new.since }
{
    system.has_rules();
    let Some(task) = first_waiting(ranking.tasks, waiters, queue) else {
        waiters.since = u64::MAX;
        return Stretch {
            task: None,
            ticks: most,
        };
    };
    if queue.arrival(task) <= waiters.since {
        return Stretch {
            task: Some(task),
            ticks: most,
        };
    }
    let stretch = first_come(system, ranking.res, queue, most);
    if let Some(first) = stretch.task {
        waiters.since = queue.arrival(first);
    }
    stretch
}

/// What holds of the FIFO rule: it never idles while a task waits, whoever runs waits, no pending job comes
/// before the one that runs, and that runs on until it is complete.
pub fn fifo_has_laws()
    ensures busy { FifoNeverIdles }
    ensures waits { FifoWaits }
    ensures first { FifoComesFirst }
    ensures stays { FifoStays }
    ensures goes_on { FifoGoesOn }
{}

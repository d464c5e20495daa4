//! Locks under immediate priority ceilings: the task runs whose earliest pending job is the most urgent by its
//! active priority. Regions are sections in which no other task runs. All times are in ticks.

ghost use Rattle.std.specs.Prelude.{◌≡◌, ◌+◌, ◌<◌, ◌≤◌, ◌&&◌, ℕ, All, Some, nat_lt, filter, length, option_map};
ghost use Rattle.cpa_units.specs.declared.places.TaskId.{TaskId};
ghost use Rattle.cpa_model.specs.Rules.{IsSection};
ghost use Rattle.cpa_model.specs.Locks.{lock_sections, regions_of, sections_of};
ghost use Rattle.cpa_model.specs.SystemLists.{task_at, tasks_on, place_of, places_of, priority_of};
ghost use Rattle.cpa_sched.specs.Least.{lesser, least_by};
ghost use Rattle.cpa_sched.specs.Locks.{urgency, urgency_of, ticks_to_release};
ghost use Rattle.cpa_sched.specs.Steps.{ResourceState, ceiling_step};
ghost use Rattle.cpa_sched.specs.Stretches.{ticks_of_section};
ghost use Rattle.cpa_sched.specs.Ceilings.{CeilingNeverIdles, CeilingWaits, CeilingComesFirst, CeilingStays};

use crate::state::Queue;
use crate::stretches::Stretch;
use cpa_model::{CriticalSection, System};
use cpa_units::{ResId, TaskId};

/// Whether a job that has had so many ticks has had at least one of a section, and not all.
fn is_within(section: &CriticalSection, received: u64) -> bool
    requires { IsSection section.now }
    ensures { result ≡ (nat_lt section.now.start received && nat_lt received (section.now.start + section.now.length)) }
{
    section.start < received && received < section.start + section.length
}

/// How urgent a job of a task with critical sections is that has had so many ticks: the smaller the more.
fn lock_urgency(system: &System, task: TaskId, received: u64) -> u64
    requires { task.0 < length system.now.tasks }
    ensures { result ≡ urgency (priority_of (task_at system.now task.0).turn) (lock_sections system.now task.0) received }
{
    let entry = system.task(task);
    let mut active = entry.turn.priority();
    let mut holds = false;
    for section in entry.locks.sections() {
        if is_within(section, received) {
            active = active.min(system.ceiling(entry.res, section.lock.bytes()));
            holds = true;
        }
    }
    2 * u64::from(active) + if holds { 0 } else { 1 }
}

/// The same of a task with regions, of which a job has no more than the ticks that it takes at most.
fn region_urgency(base: u32, region: u64, worst: u64, received: u64) -> u64
    requires { 1 < region }
    ensures { result ≡ urgency base (regions_of region worst) received }
{
    if received / region < worst && received % region != 0 {
        0
    } else {
        2 * u64::from(base) + 1
    }
}

/// How urgent a job of a task is that has had so many ticks: the smaller the more.
fn urgency_after(system: &System, task: TaskId, received: u64) -> u64
    requires { task.0 < length system.now.tasks }
    ensures { result ≡ urgency (priority_of (task_at system.now task.0).turn) (sections_of system.now task.0) received }
{
    let entry = system.task(task);
    if 1 < entry.region {
        region_urgency(entry.turn.priority(), entry.region, entry.worst, received)
    } else {
        lock_urgency(system, task, received)
    }
}

/// The ticks to the next end of a critical section of a task whose job has had so many, at most so many.
fn lock_ticks(system: &System, task: TaskId, received: u64, most: u64) -> u64
    requires there { task.0 < length system.now.tasks }
    requires most { 1 ≤ most }
    ensures value { result ≡ ticks_to_release most (lock_sections system.now task.0) received }
    ensures some { 1 ≤ result }
    ensures most { result ≤ most }
{
    let mut least = most;
    for section in system.task(task).locks.sections() {
        let end = section.start + section.length;
        if received < end {
            least = least.min(end - received);
        }
    }
    least
}

/// The same of a task with regions.
fn region_ticks(region: u64, worst: u64, received: u64, most: u64) -> u64
    requires region { 1 < region }
    requires most { 1 ≤ most }
    ensures value { result ≡ ticks_to_release most (regions_of region worst) received }
    ensures some { 1 ≤ result }
    ensures most { result ≤ most }
{
    if received / region < worst {
        most.min(region - received % region)
    } else {
        most
    }
}

/// The ticks to the next end of a section of a task whose job has had so many, at most so many.
fn ticks_to_release(system: &System, task: TaskId, received: u64, most: u64) -> u64
    requires there { task.0 < length system.now.tasks }
    requires most { 1 ≤ most }
    ensures value { result ≡ ticks_to_release most (sections_of system.now task.0) received }
    ensures some { 1 ≤ result }
    ensures most { result ≤ most }
{
    let entry = system.task(task);
    if 1 < entry.region {
        region_ticks(entry.region, entry.worst, received, most)
    } else {
        lock_ticks(system, task, received, most)
    }
}

/// A task that waits, and how urgent its earliest pending job is.
#[derive(Clone, Copy)]
struct Candidate {
    task: TaskId,
    urgency: u64,
}

/// Of a candidate and one that stands after it the more urgent.
fn more_active(candidate: Candidate, later: Candidate) -> Candidate
    ensures task { (number : ℕ → ℕ) → number candidate.task.0 ≡ candidate.urgency → number later.task.0 ≡ later.urgency → result.task.0 ≡ lesser number candidate.task.0 (Some later.task.0) }
    ensures urgency { (number : ℕ → ℕ) → number candidate.task.0 ≡ candidate.urgency → number later.task.0 ≡ later.urgency → number result.task.0 ≡ result.urgency }
{
    if later.urgency < candidate.urgency {
        later
    } else {
        candidate
    }
}

/// The task of a list that waits and whose job is the most urgent.
fn most_active_of<Q: Queue>(system: &System, tasks: &[TaskId], queue: &Q) -> Option<TaskId>
    requires { All (λ (t : TaskId). t.0 < length system.now.tasks) tasks.now }
    ensures { option_map place_of result ≡ least_by (urgency_of system.now (Q.ready queue.now).received) (filter (Q.ready queue.now).waits (places_of tasks.now)) }
{
    let mut first: Option<Candidate> = None;
    for &task in tasks {
        if queue.waits(task) {
            let urgency = urgency_after(system, task, queue.received(task));
            let candidate = Candidate { task, urgency };
            first = match first {
                None => Some(candidate),
                Some(other) => Some(more_active(other, candidate)),
            };
        }
    }
    match first {
        None => None,
        Some(candidate) => Some(candidate.task),
    }
}

/// Ceilings: the task runs whose earliest pending job is the most urgent by its active priority, and goes on to the
/// next end of one of its sections.
pub(crate) fn most_active<Q: Queue>(system: &System, res: ResId, queue: &Q, most: u64) -> Stretch
    requires there { res.0 < length system.now.resources }
    requires most { 1 ≤ most }
    ensures step { (st : ResourceState) → record { task = option_map place_of result.task; state = st } ≡ ceiling_step system.now res.0 st (Q.ready queue.now) }
    ensures ticks { result.ticks ≡ ticks_of_section system.now most (option_map place_of result.task) (Q.ready queue.now).received }
    ensures some { 1 ≤ result.ticks }
    ensures most { result.ticks ≤ most }
{
    let Some(task) = most_active_of(system, system.tasks_on(res), queue) else {
        return Stretch {
            task: None,
            ticks: most,
        };
    };
    Stretch {
        task: Some(task),
        ticks: ticks_to_release(system, task, queue.received(task), most),
    }
}

/// What holds of the rule of ceilings: it never idles while a task waits, whoever runs waits, no pending job is more
/// urgent by its active priority than the one that runs, and that runs on to the next end of one of its sections.
pub fn ceilings_have_laws()
    ensures busy { CeilingNeverIdles }
    ensures waits { CeilingWaits }
    ensures first { CeilingComesFirst }
    ensures stays { CeilingStays }
{}

//! By how long a task of lower priority keeps one waiting under priority ceilings, looked at only where that is more than is known
//! of another. All times are in ticks.

ghost use Rattle.std.specs.Prelude.{◌≡◌, ◌<◌, ◌≤◌, ◌&&◌, nat_le, max, length};
ghost use Rattle.cpa_units.specs.declared.limits.TheConstants.{MAX_EXECUTION, MAX_PRIORITY};
ghost use Rattle.cpa_model.specs.Locks.{uses_lock, ceiling_of, section_of, lock_sections, section_blocking, blocking_by_sections, ceiling_blocking};
ghost use Rattle.cpa_model.specs.SystemLists.{task_at, priority_of};

use cpa_model::{CriticalSection, System, Task, uses_lock};
use cpa_units::limits::MAX_PRIORITY;
use cpa_units::{ResId, TaskId};

/// Whether a task has this priority or a more urgent one, and uses a lock.
fn is_user(task: &Task, priority: u32, lock: &[u8]) -> bool
    ensures { result ≡ (nat_le (priority_of task.now.turn) priority && uses_lock lock.now task.now) }
{
    task.turn.priority() <= priority && uses_lock(task, lock)
}

/// Whether the ceiling of a lock is no less urgent than a priority: a task of the resource with that priority, or a more urgent
/// one, uses the lock (Sha, Rajkumar, Lehoczky, 1990).
fn reaches(system: &System, res: ResId, priority: u32, lock: &[u8]) -> bool
    requires { res.0 < length system.now.resources }
    ensures { result ≡ nat_le (ceiling_of system.now res.0 lock.now) priority }
{
    if u64::from(priority) >= MAX_PRIORITY {
        return true;
    }
    for task in system.tasks_on(res) {
        if is_user(system.task(*task), priority, lock) {
            return true;
        }
    }
    false
}

/// The greatest of so many ticks, and of those by which a critical section of a task keeps a job of this priority waiting. Who uses
/// its lock is looked at only where that is more.
fn most_with_section(
    system: &System,
    priority: u32,
    lower: &Task,
    section: &CriticalSection,
    most: u64,
) -> u64
    requires { lower.now.res.0 < length system.now.resources }
    ensures { result ≡ max most (section_blocking priority lower.now.worst (section_of system.now lower.now.res.0 section.now)) }
{
    let held = section.length.min(lower.worst).saturating_sub(1);
    if held > most && reaches(system, lower.res, priority, section.lock.bytes()) {
        held
    } else {
        most
    }
}

/// The same of all critical sections of a task.
fn most_with_sections(system: &System, priority: u32, lower: TaskId, most: u64) -> u64
    requires { lower.0 < length system.now.tasks }
    ensures { result ≡ max most (blocking_by_sections priority (task_at system.now lower.0).worst (lock_sections system.now lower.0)) }
{
    let entry = system.task(lower);
    let mut longest = most;
    for section in entry.locks.sections() {
        longest = most_with_section(system, priority, entry, section, longest);
    }
    longest
}

/// The greatest of so many ticks, and of those by which a job of the second task, which has begun, keeps one of the first waiting,
/// which is more urgent.
pub(crate) fn most_with_ceilings(system: &System, task: TaskId, lower: TaskId, most: u64) -> u64
    requires task { task.0 < length system.now.tasks }
    requires lower { lower.0 < length system.now.tasks }
    requires small { most ≤ MAX_EXECUTION }
    ensures value { result ≡ max most (ceiling_blocking system.now task.0 lower.0) }
    ensures in_range { result ≤ MAX_EXECUTION }
{
    let entry = system.task(lower);
    let region = entry.region.min(entry.worst).saturating_sub(1);
    most_with_sections(
        system,
        system.task(task).turn.priority(),
        lower,
        most.max(region),
    )
}

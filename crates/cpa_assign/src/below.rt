//! By how long the tasks below one at the lowest free place keep it waiting.

ghost use Rattle.std.specs.Prelude.{◌≡◌, ◌<◌, ◌≤◌, ◌&&◌, max, length};
ghost use Rattle.cpa_units.specs.declared.limits.TheConstants.{MAX_EXECUTION};
ghost use Rattle.cpa_units.specs.Sets.{holds};
ghost use Rattle.cpa_model.specs.SystemLists.{is_on};
ghost use Rattle.cpa_assign.specs.Placing.{is_below, is_reaching, reaches, placed_section, placed_sections, placed_between, placed_blocking, without};

use crate::placing::stands_above;
use cpa_model::{CriticalSection, Kind, System, Task, uses_lock};
use cpa_units::{ResId, TaskId};

/// Whether another task of the resource is below this one at the lowest free place.
fn stands_below(system: &System, res: ResId, free: &[bool], task: TaskId, other: TaskId) -> bool
    requires there { other.0 < length system.now.tasks }
    requires marks { length free.now ≡ length system.now.tasks }
    ensures { result ≡ is_below system.now res.0 (without (holds free.now) task.0) task.0 other.0 }
{
    system.task(other).res.0 == res.0 && !(stands_above(free, task, other) || other.0 == task.0)
}

/// Whether another task of the resource is the one at the lowest free place, or above it, and uses a lock.
fn is_user(
    system: &System,
    res: ResId,
    free: &[bool],
    task: TaskId,
    lock: &[u8],
    other: TaskId,
) -> bool
    requires there { other.0 < length system.now.tasks }
    requires marks { length free.now ≡ length system.now.tasks }
    ensures { result ≡ (is_on system.now res.0 other.0 && is_reaching system.now (without (holds free.now) task.0) task.0 lock.now other.0) }
{
    let entry = system.task(other);
    entry.res.0 == res.0
        && (stands_above(free, task, other) || other.0 == task.0)
        && uses_lock(entry, lock)
}

/// Whether a lock is used by the task at the lowest free place, or by one above it: then its ceiling is no less urgent.
fn reaches(system: &System, res: ResId, free: &[bool], task: TaskId, lock: &[u8]) -> bool
    requires marks { length free.now ≡ length system.now.tasks }
    ensures { result ≡ reaches system.now res.0 (without (holds free.now) task.0) task.0 lock.now }
{
    for k in 0..system.tasks() {
        if is_user(system, res, free, task, lock, TaskId(k)) {
            return true;
        }
    }
    false
}

/// The greatest of so many ticks, and of those by which a critical section of a task below, which takes so long, keeps the one
/// at the lowest free place waiting. Who uses its lock is looked at only where that is more.
fn most_with_section(
    system: &System,
    res: ResId,
    free: &[bool],
    task: TaskId,
    worst: u64,
    section: &CriticalSection,
    most: u64,
) -> u64
    requires marks { length free.now ≡ length system.now.tasks }
    ensures { result ≡ max most (placed_section system.now res.0 (without (holds free.now) task.0) task.0 worst section.now) }
{
    let held = section.length.min(worst).saturating_sub(1);
    if held > most && reaches(system, res, free, task, section.lock.bytes()) {
        held
    } else {
        most
    }
}

/// The same of all critical sections of a task below.
fn most_with_sections(
    system: &System,
    res: ResId,
    free: &[bool],
    task: TaskId,
    lower: &Task,
    most: u64,
) -> u64
    requires marks { length free.now ≡ length system.now.tasks }
    ensures { result ≡ max most (placed_sections system.now res.0 (without (holds free.now) task.0) task.0 lower.now.worst lower.now.locks) }
{
    let mut longest = most;
    for section in lower.locks.sections() {
        longest = most_with_section(system, res, free, task, lower.worst, section, longest);
    }
    longest
}

/// The greatest of so many ticks, and of those by which a task below the one at the lowest free place, on a resource of this
/// kind, keeps it waiting.
fn most_with_task(
    system: &System,
    res: ResId,
    kind: Kind,
    free: &[bool],
    task: TaskId,
    other: TaskId,
    most: u64,
) -> u64
    requires there { other.0 < length system.now.tasks }
    requires marks { length free.now ≡ length system.now.tasks }
    requires small { most ≤ MAX_EXECUTION }
    ensures value { result ≡ max most (placed_between system.now res.0 (without (holds free.now) task.0) task.0 kind other.0) }
    ensures in_range { result ≤ MAX_EXECUTION }
{
    let entry = system.task(other);
    let longest = most.max(kind.blocking_by(entry));
    match kind {
        Kind::Ceiling => most_with_sections(system, res, free, task, entry, longest),
        Kind::Preemptive
        | Kind::RoundRobin
        | Kind::Tdma { gap: _ }
        | Kind::Can { bit: _ }
        | Kind::Fifo => longest,
    }
}

/// The greatest blocking by one of the tasks below one at the lowest free place, on a resource of this kind; 0 if there are none.
pub(crate) fn blocking(system: &System, res: ResId, kind: Kind, task: TaskId, free: &[bool]) -> u64
    requires marks { length free.now ≡ length system.now.tasks }
    ensures value { result ≡ placed_blocking system.now res.0 (without (holds free.now) task.0) task.0 kind }
    ensures in_range { result ≤ MAX_EXECUTION }
{
    let mut most: u64 = 0;
    for k in 0..system.tasks() {
        if stands_below(system, res, free, task, TaskId(k)) {
            most = most_with_task(system, res, kind, free, task, TaskId(k), most);
        }
    }
    most
}

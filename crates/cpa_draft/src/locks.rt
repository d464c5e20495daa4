//! Critical sections of the tasks of a draft.

ghost use Rattle.std.specs.Prelude.{◌≡◌, ◌+◌, ◌<◌, ◌-◌, ◌^◌, take, IfSome};
ghost use Rattle.std.specs.List.{list_any};
ghost use Rattle.std.specs.Str.{bytes_eq};
ghost use Rattle.cpa_draft.specs.First.{first_place};
ghost use Rattle.cpa_draft.specs.Numbers.{nat_of};
ghost use Rattle.cpa_draft.specs.Refusals.{crosses, have_crossing, share_lock, is_elsewhere, mislocked_after, mislocked};
ghost use Rattle.cpa_draft.specs.declared.draft.DraftLock.{DraftLock};

use crate::draft::{Draft, DraftLock, DraftTask, MAX_SECTIONS};
use crate::entry_checks::refuse_at;
use crate::numbers::{natural, natural_or};
use crate::refusal::{Part, Refusal};

/// After how many ticks of a job a critical section ends.
fn end_of(lock: &DraftLock) -> u64
    ensures { result ≡ nat_of lock.now.start + nat_of lock.now.length }
{
    natural(lock.start) + natural(lock.length)
}

/// Whether the second of two sections begins within the first, and ends after it.
fn crosses(first: &DraftLock, second: &DraftLock) -> bool
    ensures { result ≡ crosses first.now second.now }
{
    let begin = natural(second.start);
    natural(first.start) < begin && begin < end_of(first) && end_of(first) < end_of(second)
}

fn crosses_any(first: &DraftLock, locks: &[DraftLock]) -> bool
    ensures { result ≡ list_any (crosses first.now) locks.now }
{
    locks.iter().any(|second| crosses(first, second))
}

fn have_crossing(locks: &[DraftLock]) -> bool
    ensures { result ≡ have_crossing locks.now }
{
    locks.iter().any(|first| crosses_any(first, locks))
}

/// Whether one of some sections is of the lock with a name.
fn has_lock(name: &[u8], locks: &[DraftLock]) -> bool
    ensures { result ≡ list_any (λ (b : DraftLock). bytes_eq name.now b.name) locks.now }
{
    locks.iter().any(|lock| name == lock.name.bytes())
}

/// Whether two tasks have a lock in common.
fn share_lock(locks: &[DraftLock], others: &[DraftLock]) -> bool
    ensures { result ≡ share_lock locks.now others.now }
{
    locks.iter().any(|lock| has_lock(lock.name.bytes(), others))
}

/// Whether another task has one of the locks of a task, and is on another resource.
fn is_elsewhere(task: &DraftTask, other: &DraftTask) -> bool
    ensures { result ≡ is_elsewhere task.now other.now }
{
    if task.on.bytes() == other.on.bytes() {
        return false;
    }
    share_lock(task.locks.sections(), other.locks.sections())
}

fn any_elsewhere(task: &DraftTask, earlier: &[DraftTask]) -> bool
    ensures { result ≡ list_any (is_elsewhere task.now) earlier.now }
{
    earlier.iter().any(|other| is_elsewhere(task, other))
}

/// Whether reason 16 applies to a task behind others.
fn is_mislocked(earlier: &[DraftTask], task: &DraftTask) -> bool
    ensures { result ≡ mislocked_after earlier.now task.now }
{
    let locks = task.locks.sections();
    if locks.len() == 0 {
        return false;
    }
    locks.len() > MAX_SECTIONS
        || natural_or(1, task.region) > 1
        || have_crossing(locks)
        || any_elsewhere(task, earlier)
}

fn first_mislocked(tasks: &[DraftTask]) -> Option<usize>
    ensures place { result ≡ first_place (λ k t. mislocked_after (take k tasks.now) t) tasks.now }
    ensures within { IfSome result (λ k. k < 2 ^ 64 - 1) }
{
    for (k, task) in tasks.iter().enumerate() {
        if is_mislocked(&tasks[..k], task) {
            return Some(k);
        }
    }
    None
}

/// Reason 16.
#[tactic(auto, unfolding(crate::specs::Refusals::mislocked))]
pub(crate) fn refuse_mislocked(draft: &Draft) -> Option<Refusal>
    ensures { result ≡ mislocked draft.now }
{
    refuse_at(16, Part::Task, first_mislocked(draft.task_entries()))
}

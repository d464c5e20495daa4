//! The times of paths from end to end, and what they say of deadlines. All times are in ticks.

ghost use Rattle.std.specs.Prelude.{◌≡◌, ◌<◌, length, count_by, All};
ghost use Rattle.cpa_units.specs.Bounds.{bound_of, sum_bounds};
ghost use Rattle.cpa_model.specs.SystemLists.{task_at, path_at};
ghost use Rattle.cpa_local.specs.Solution.{IsVector};
ghost use Rattle.std.specs.List.{sum_by};
ghost use Rattle.cpa_local.specs.Paths.{path_best, path_worst, deadline_verdict_of, is_missed_by, is_missed, is_overload};

use cpa_model::{System, TaskList};
use cpa_units::{Bound, PathId, TaskId, Vector};

/// The verdict on a path's deadline: met or missed by the greatest time, or that this has no bound, or that there is no
/// deadline.
#[derive(Clone, Copy, Debug, PartialEq, Eq)]
pub enum DeadlineVerdict {
    Met,
    Missed,
    Unknown,
    NoDeadline,
}

fn sum_best(system: &System, tasks: &TaskList) -> u64
    requires { All (λ i. i.0 < length system.now.tasks) tasks.now }
    ensures { result ≡ sum_by (λ i. (task_at system.now i.0).best) tasks.now }
{
    let mut sum = 0u64;
    for k in 0..tasks.len() {
        sum += system.task(tasks.get(k)).best;
    }
    sum
}

/// The least time of a path from end to end.
pub fn path_best(system: &System, path: PathId) -> u64
    requires { path.0 < length system.now.paths }
    ensures { result ≡ path_best system.now (path_at system.now path.0) }
{
    sum_best(system, &system.path(path).tasks)
}

fn sum_worst(system: &System, tasks: &TaskList, x: &Vector) -> Bound
    requires there { All (λ i. i.0 < length system.now.tasks) tasks.now }
    requires vector { IsVector system.now x.now }
    ensures { result ≡ sum_bounds (λ i. bound_of x.now i.0) tasks.now }
{
    let mut sum = Bound::Within(0);
    for k in 0..tasks.len() {
        sum = sum.plus(x.get(tasks.get(k)));
    }
    sum
}

/// The greatest time of a path from end to end, by the bounds of its tasks.
pub fn path_worst(system: &System, path: PathId, x: &Vector) -> Bound
    requires there { path.0 < length system.now.paths }
    requires vector { IsVector system.now x.now }
    ensures { result ≡ path_worst x.now (path_at system.now path.0) }
{
    sum_worst(system, &system.path(path).tasks, x)
}

/// The verdict on a deadline, by the greatest time.
pub fn deadline_verdict(deadline: Option<u64>, worst: Bound) -> DeadlineVerdict
    ensures { result ≡ deadline_verdict_of deadline worst }
{
    match deadline {
        None => DeadlineVerdict::NoDeadline,
        Some(deadline) => match worst {
            Bound::Overload => DeadlineVerdict::Unknown,
            Bound::Within(worst) if worst <= deadline => DeadlineVerdict::Met,
            Bound::Within(_) => DeadlineVerdict::Missed,
        },
    }
}

fn is_missed_by(verdict: DeadlineVerdict) -> bool
    ensures { result ≡ is_missed_by verdict }
{
    match verdict {
        DeadlineVerdict::Missed => true,
        DeadlineVerdict::Met | DeadlineVerdict::Unknown | DeadlineVerdict::NoDeadline => false,
    }
}

/// Whether a path's deadline is missed.
pub fn is_missed(system: &System, path: PathId, x: &Vector) -> bool
    requires there { path.0 < length system.now.paths }
    requires vector { IsVector system.now x.now }
    ensures { result ≡ is_missed x.now (path_at system.now path.0) }
{
    let worst = path_worst(system, path, x);
    is_missed_by(deadline_verdict(system.path(path).deadline, worst))
}

/// Whether a bound is an overload.
pub fn is_overload(bound: Bound) -> bool
    ensures { result ≡ is_overload bound }
{
    match bound {
        Bound::Within(_) => false,
        Bound::Overload => true,
    }
}

/// How many bounds are overloads.
pub fn count_overloads(x: &Vector) -> u32
    ensures { result ≡ count_by is_overload x.now }
{
    let mut count = 0u32;
    for k in 0..x.len() {
        if is_overload(x.get(TaskId(k))) {
            count += 1;
        }
    }
    count
}

/// How many paths miss their deadlines.
pub fn count_missed(system: &System, x: &Vector) -> u32
    requires { IsVector system.now x.now }
    ensures { result ≡ count_by (is_missed x.now) system.now.paths }
{
    let mut count = 0u32;
    for k in 0..system.paths() {
        if is_missed(system, PathId(k), x) {
            count += 1;
        }
    }
    count
}

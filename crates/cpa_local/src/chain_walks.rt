//! The ways back from tasks along their chains, as long as one activator alone leads on (Richter's
//! thesis, 2005; SymTA/S).

ghost use Rattle.std.specs.Prelude.{◌≡◌, ◌<◌, ◌≤◌, ◌+◌, ◌-◌, ◌*◌, ◌∷◌, ◌↔◌, [], length, max, Some};
ghost use Rattle.cpa_units.specs.declared.limits.TheConstants.{MAX_CHAIN, MAX_EXECUTION, MAX_LIMIT};
ghost use Rattle.cpa_units.specs.declared.places.TaskId.{TaskId};
ghost use Rattle.cpa_model.specs.declared.entries.Activator.TheVariants.{Task as ByTask};
ghost use Rattle.cpa_model.specs.Rules.{IsSystem};
ghost use Rattle.cpa_model.specs.SystemLists.{depth_of};
ghost use Rattle.cpa_local.specs.Gathered.{EndsThere};
ghost use Rattle.cpa_local.specs.Solution.{IsVector};

use cpa_events::Stream;
use cpa_model::{Activator, Activators, System};
use cpa_units::{Bound, TaskId, Vector};

/// The tasks in a row from one on to another, given by their responses, in ticks.
#[derive(Clone, Copy)]
pub(crate) struct ChainWalk {
    /// By how much they vary in all.
    pub(crate) late: u64,
    /// How long the next completion comes after one at least.
    pub(crate) least: u64,
}

impl ChainWalk {
    /// The way of no tasks.
    pub(crate) fn none() -> ChainWalk
        ensures late { result.late ≡ 0 }
        ensures least { result.least ≡ 0 }
    {
        ChainWalk { late: 0, least: 0 }
    }

    /// The way with a task before it, whose response takes from `best` to `bound` ticks.
    pub(crate) fn after(self, best: u64, bound: u64) -> ChainWalk
        requires order { best ≤ bound }
        requires room { self.late + bound ≤ MAX_CHAIN * MAX_LIMIT }
        ensures late { result.late ≡ self.late + (bound - best) }
        ensures least { result.least ≡ max self.least (best - self.late) }
    {
        ChainWalk {
            late: self.late + (bound - best),
            least: self.least.max(best.saturating_sub(self.late)),
        }
    }
}

/// Where a way back from a task ends.
pub(crate) enum WalkEnd {
    /// At a source, which sends this, as it is where the way began.
    Sent(Stream),
    /// At a task with several activators, after the way to it.
    Several(TaskId, ChainWalk),
    /// What comes along the way is unbounded.
    Unbounded,
}

/// The task that alone activates a task; none where there are several, or a source does.
#[inline(always)]
pub(crate) fn only_task(after: &Activators) -> Option<TaskId>
    ensures { (j : TaskId) → result ≡ Some j ↔ after.now ≡ ByTask j ∷ [] }
{
    if after.len() != 1 {
        return None;
    }
    match after.get(0) {
        Activator::Source(_) => None,
        Activator::Task(earlier) => Some(earlier),
    }
}

/// Goes on back from a task, which a way has come to, while it has one activator.
pub(crate) fn walk(system: &System, task: TaskId, x: &Vector, way: ChainWalk) -> WalkEnd
    requires rules { IsSystem system.now }
    requires there { task.0 < length system.now.tasks }
    requires vector { IsVector system.now x.now }
    requires late { way.late + depth_of system.now task.0 * MAX_LIMIT ≤ MAX_CHAIN * MAX_LIMIT }
    requires least { way.least ≤ MAX_EXECUTION }
    ensures { EndsThere system.now x.now task.0 way result }
{
    let mut at = task;
    let mut entry = system.task(at);
    let mut back = way;
    'steps: while let Some(after) = entry.after.only() {
        match after {
            Activator::Source(source) => {
                let stream = system.source(source).stream();
                return WalkEnd::Sent(stream.later(back.late, back.least));
            }
            Activator::Task(earlier) => {
                let Bound::Within(bound) = x.get(earlier) else {
                    return WalkEnd::Unbounded;
                };
                at = earlier;
                entry = system.task(at);
                back = back.after(entry.best, bound);
            }
        }
    }
    WalkEnd::Several(at, back)
}

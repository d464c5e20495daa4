//! Bounds on how many jobs wait. Times are in ticks.

ghost use Rattle.std.specs.Prelude.{◌≡◌, ◌<◌, ◌^◌, length};
ghost use Rattle.cpa_units.specs.Bounds.{RespectsLimit};
ghost use Rattle.cpa_local.specs.Solution.{IsVector};
ghost use Rattle.cpa_buffer.specs.Buffers.{buffer_of, buffer_on};
ghost use Rattle.cpa_buffer.specs.Work.{most_work_on};

use cpa_local::input;
use cpa_model::System;
use cpa_units::{Bound, ResId, TaskId, Vector};

/// How many jobs of a task can be pending at once: the most events of its input in its bound (Richter's
/// thesis, 2005; pyCPA). `Overload` where its bound or its input is no number.
#[tactic(auto, unfolding(crate::specs::Buffers::buffer_of))]
pub fn buffer(system: &System, task: TaskId, x: &Vector) -> Bound
    requires there { task.0 < length system.now.tasks }
    requires vector { IsVector system.now x.now }
    ensures value { result ≡ buffer_of system.now x.now task.0 }
    ensures few { RespectsLimit (2 ^ 38) result }
{
    match x.get(task) {
        Bound::Overload => Bound::Overload,
        Bound::Within(bound) => match input(system, task, x) {
            None => Bound::Overload,
            Some(model) => Bound::Within(model.eta_plus(bound)),
        },
    }
}

/// How many jobs of all tasks of a resource can be pending at once: the sum of their buffers, which is 0
/// where there are no tasks and `Overload` where one of them is.
#[tactic(auto, unfolding(crate::specs::Buffers::buffer_on))]
pub fn buffer_on(system: &System, res: ResId, x: &Vector) -> Bound
    requires there { res.0 < length system.now.resources }
    requires vector { IsVector system.now x.now }
    ensures { result ≡ buffer_on system.now x.now res.0 }
{
    let mut sum = Bound::Within(0);
    for task in system.tasks_on(res) {
        sum = sum.plus(buffer(system, *task, x));
    }
    sum
}

/// How many ticks of work can wait on a resource at once, what its pending jobs still need: the greatest bound of its tasks,
/// which is 0 where there are none and `Overload` where one of them is. By then all that waits is done.
#[tactic(auto, unfolding(crate::specs::Work::most_work_on))]
pub fn most_work_on(system: &System, res: ResId, x: &Vector) -> Bound
    requires there { res.0 < length system.now.resources }
    requires vector { IsVector system.now x.now }
    ensures { result ≡ most_work_on system.now x.now res.0 }
{
    let mut most = Bound::Within(0);
    for task in system.tasks_on(res) {
        most = most.max(x.get(*task));
    }
    most
}

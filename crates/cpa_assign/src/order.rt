//! Priority orders, and the search for the best.

ghost use Rattle.std.specs.Prelude.{◌≡◌, ◌<◌, length, map, slice_get, Some, IfOk};
ghost use Rattle.cpa_model.specs.SystemLists.{task_places, is_on};
ghost use Rattle.cpa_assign.specs.Orders.{IsOrderOf, IsOrderable};

use crate::able::is_off_clocks;
use crate::by_clocks::list_cycles;
use crate::placing::{Room, lowest};
use cpa_clock::Gathered;
use cpa_model::System;
use cpa_units::{NoMemory, ResId, TaskId};
use std::alloc::Global;
use std::marker::Model;

/// The tasks of a resource by priority. Contracts see them as a list, whose first has the highest.
#[derive(Debug, Drop)]
pub struct Order {
    tasks: Vec<TaskId>,
}

impl Model for Order {
    ghost use Rattle.std.specs.Prelude.{◌<◌, ◌^◌, List, length};
    ghost use Rattle.cpa_units.specs.declared.places.TaskId.{TaskId};

    ghost Value = { List TaskId };

    ghost view = { λ o. o.tasks.items };

    ghost invariant = { λ o. length o.tasks.items < 2 ^ 32 };
}

impl Order {
    /// The number of tasks.
    pub fn len(&self) -> u32
        ensures { result ≡ length self.now }
    {
        self.tasks.len() as u32
    }

    /// The k-th task, counted from 0.
    pub fn task(&self, k: u32) -> TaskId
        requires { k < length self.now }
        ensures { slice_get self.now k ≡ Some result }
    {
        self.tasks[k as usize]
    }
}

/// Which tasks are on a resource.
fn marks_of(alloc: Global, system: &System, res: ResId) -> Result<Vec<bool>, NoMemory>
    ensures { IfOk result (λ marks. marks.items ≡ map (is_on system.now res.0) (task_places system.now)) }
{
    let mut marks = Vec::new(alloc);
    for k in 0..system.tasks() {
        marks.push(system.task(TaskId(k)).res.0 == res.0)?;
    }
    Ok(marks)
}

/// The order of a resource's tasks that meets the deadlines of all paths of one of them alone; of
/// several it is the one whose tasks, from the lowest place up, come first by place. None where no
/// order meets. The resource is preemptive, has priority ceilings or is a CAN bus, and its tasks are activated by sources
/// alone. None of these is on a clock, or it is no bus and no task has a region or a critical section.
pub fn assign(alloc: Global, system: &System, res: ResId) -> Result<Option<Order>, NoMemory>
    requires { IsOrderable system.now res.0 }
    ensures { IfOk result (IsOrderOf system.now res.0) }
{
    let off = is_off_clocks(system, res);
    let cycles = list_cycles(alloc, system)?;
    let rivals = Vec::with_capacity(alloc, system.tasks() as usize)?;
    let gathered = Gathered::new(alloc);
    let mut room = Room {
        off,
        cycles,
        rivals,
        gathered,
    };
    let mut free = marks_of(alloc, system, res)?;
    let mut tasks = Vec::new(alloc);
    let count = system.tasks_on(res).len();
    for placed in 0..count {
        let found = lowest(alloc, system, res, free.as_slice(), &mut room)?;
        let Some(task) = found else {
            return Ok(None);
        };
        free[task.0 as usize] = false;
        tasks.insert(0, task)?;
    }
    Ok(Some(Order { tasks }))
}

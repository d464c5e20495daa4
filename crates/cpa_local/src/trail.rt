//! Which tasks were analysed.

ghost use Rattle.std.specs.Prelude.{◌≡◌, ◌≤◌, ◌<◌, ◌↔◌, ℕ, length, IfOk, IsTrue};
ghost use Rattle.cpa_units.specs.declared.limits.TheConstants.{MAX_TASKS};
ghost use Rattle.cpa_units.specs.Sizes.{most_tasks};
ghost use Rattle.cpa_local.specs.Trails.{IsMarked, IsKept, NewMarksAre, AreMarked};
ghost use Rattle.cpa_local.specs.Rising.{TasksOn};

use crate::scratch::Scratch;
use cpa_model::System;
use cpa_units::limits::Size;
use cpa_units::{NoMemory, ResId, TaskId};
use std::alloc::Global;
use std::marker::Model;

/// A mark for each task that was analysed, and room for what analyses gather, taken beforehand.
#[derive(Drop)]
pub struct Trail {
    marks: [bool; 8192],
    pub(crate) work: Scratch,
}

impl Model for Trail {
    ghost use Rattle.std.specs.Prelude.{◌≡◌, length};
    ghost use Rattle.cpa_local.specs.Trails.{Marks};

    ghost Value = { Marks };

    ghost view = { λ t. record { marks = t.marks; room = length t.work.inputs } };

    ghost invariant = { λ t. length t.marks ≡ 8192 };
}

impl Trail {
    /// A trail without marks, with room for a system of so many tasks, at most 8192.
    pub fn with_room(alloc: Global, tasks: u32) -> Result<Trail, NoMemory>
        requires { tasks ≤ MAX_TASKS }
        ensures room { IfOk result (λ t. t.room ≡ tasks) }
        ensures none { IfOk result (λ t. (i : ℕ) → IsMarked t i → ⊥) }
    {
        let work = Scratch::with_room(alloc, tasks)?;
        Ok(Trail {
            marks: [false; 8192],
            work,
        })
    }

    /// A trail without marks, with room for any system of this size.
    pub fn of_size(alloc: Global, size: Size) -> Result<Trail, NoMemory>
        ensures room { IfOk result (λ t. t.room ≡ most_tasks size) }
        ensures none { IfOk result (λ t. (i : ℕ) → IsMarked t i → ⊥) }
    {
        let most = size.most_tasks();
        let tasks = most as u32;
        Trail::with_room(alloc, tasks)
    }

    /// Whether a task, whose place is below 8192, was analysed.
    pub fn marked(&self, task: TaskId) -> bool
        requires { task.0 < MAX_TASKS }
        ensures { IsTrue result ↔ IsMarked self.now task.0 }
    {
        self.marks[task.0 as usize]
    }

    /// Sets each mark of another trail as well.
    pub fn join(&mut self, other: &Trail)
        ensures kept { IsKept self.old self.new }
        ensures fresh { NewMarksAre self.old self.new (IsMarked other.now) }
        ensures marked { AreMarked self.new (IsMarked other.now) }
    {
        for task in 0..self.marks.len() {
            if other.marks[task] {
                self.marks[task] = true;
            }
        }
    }

    /// Sets a task's mark.
    pub(crate) fn mark(&mut self, task: TaskId)
        requires { task.0 < MAX_TASKS }
        ensures kept { IsKept self.old self.new }
        ensures fresh { NewMarksAre self.old self.new (λ i. i ≡ task.0) }
        ensures marked { AreMarked self.new (λ i. i ≡ task.0) }
    {
        self.marks[task.0 as usize] = true;
    }

    /// Sets the mark of each task on a resource.
    pub(crate) fn mark_all(&mut self, system: &System, res: ResId)
        requires { res.0 < length system.now.resources }
        ensures kept { IsKept self.old self.new }
        ensures fresh { NewMarksAre self.old self.new (TasksOn system.now (λ q. q ≡ res.0)) }
        ensures marked { AreMarked self.new (TasksOn system.now (λ q. q ≡ res.0)) }
    {
        for task in system.tasks_on(res) {
            self.mark(*task);
        }
    }
}

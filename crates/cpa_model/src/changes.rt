//! Copies of a system, and the changes that keep its rules.

ghost use Rattle.std.specs.Prelude.{◌≡◌, ◌<◌, length, map, IfOk, OnErr};
ghost use Rattle.cpa_model.specs.Rules.{IsSystem};
ghost use Rattle.cpa_model.specs.Changes.{with_exec, with_turn, with_swapped, with_source, with_offset, at_offset, with_task, without_task, id_without, activator_without, task_without, path_without};

use crate::clocks::{renew_clock, set_kept_offset};
use crate::entries::{Activator, OnClock, Path, Resource, Source, Task, TaskList, Turn};
use crate::system::System;
use crate::task_lists::{copy_task_lists, list_task, take_out};
use cpa_units::{Name, NoMemory, SourceId, TaskId};
use std::alloc::Global;

fn copy_resource(alloc: Global, resource: &Resource) -> Result<Resource, NoMemory>
    ensures { IfOk result (λ copy. copy ≡ resource.now) }
{
    Ok(Resource {
        name: resource.name.copy(alloc)?,
        kind: resource.kind,
        limit: resource.limit,
    })
}

fn copy_on_clock(alloc: Global, on: &Option<OnClock>) -> Result<Option<OnClock>, NoMemory>
    ensures { IfOk result (λ copy. copy ≡ on.now) }
{
    match on {
        None => Ok(None),
        Some(on) => Ok(Some(OnClock {
            clock: on.clock.copy(alloc)?,
            offset: on.offset,
        })),
    }
}

fn copy_source(alloc: Global, source: &Source) -> Result<Source, NoMemory>
    ensures { IfOk result (λ copy. copy ≡ source.now) }
{
    Ok(Source {
        name: source.name.copy(alloc)?,
        period: source.period,
        jitter: source.jitter,
        distance: source.distance,
        sporadic: source.sporadic,
        on_clock: copy_on_clock(alloc, &source.on_clock)?,
    })
}

fn copy_task(alloc: Global, task: &Task) -> Result<Task, NoMemory>
    ensures { IfOk result (λ copy. copy ≡ task.now) }
{
    Ok(Task {
        name: task.name.copy(alloc)?,
        res: task.res,
        best: task.best,
        worst: task.worst,
        turn: task.turn,
        after: task.after.duplicate(),
        region: task.region,
        locks: task.locks.copy(alloc)?,
    })
}

fn copy_path(alloc: Global, path: &Path) -> Result<Path, NoMemory>
    ensures { IfOk result (λ copy. copy ≡ path.now) }
{
    Ok(Path {
        name: path.name.copy(alloc)?,
        tasks: path.tasks.copy(alloc)?,
        deadline: path.deadline,
    })
}

fn copy_resources(alloc: Global, resources: &[Resource]) -> Result<Vec<Resource>, NoMemory>
    ensures { IfOk result (λ copies. copies.items ≡ resources.now) }
{
    let mut copies = Vec::new(alloc);
    for resource in resources {
        copies.push(copy_resource(alloc, resource)?)?;
    }
    Ok(copies)
}

fn copy_sources(alloc: Global, sources: &[Source]) -> Result<Vec<Source>, NoMemory>
    ensures { IfOk result (λ copies. copies.items ≡ sources.now) }
{
    let mut copies = Vec::new(alloc);
    for source in sources {
        copies.push(copy_source(alloc, source)?)?;
    }
    Ok(copies)
}

fn copy_tasks(alloc: Global, tasks: &[Task]) -> Result<Vec<Task>, NoMemory>
    ensures { IfOk result (λ copies. copies.items ≡ tasks.now) }
{
    let mut copies = Vec::new(alloc);
    for task in tasks {
        copies.push(copy_task(alloc, task)?)?;
    }
    Ok(copies)
}

fn copy_paths(alloc: Global, paths: &[Path]) -> Result<Vec<Path>, NoMemory>
    ensures { IfOk result (λ copies. copies.items ≡ paths.now) }
{
    let mut copies = Vec::new(alloc);
    for path in paths {
        copies.push(copy_path(alloc, path)?)?;
    }
    Ok(copies)
}

/// The place of a task once another is gone.
pub(crate) fn id_without(removed: TaskId, task: TaskId) -> TaskId
    ensures { result ≡ id_without removed.0 task }
{
    if removed.0 < task.0 {
        TaskId(task.0 - 1)
    } else {
        task
    }
}

/// What an activator is once a task is gone.
pub(crate) fn activator_without(removed: TaskId, after: Activator) -> Activator
    ensures { result ≡ activator_without removed.0 after }
{
    match after {
        Activator::Source(source) => Activator::Source(source),
        Activator::Task(task) => Activator::Task(id_without(removed, task)),
    }
}

/// What the activators of tasks are once a task is gone.
fn close_up_tasks(tasks: &mut [Task], removed: TaskId)
    ensures { tasks.new ≡ map (task_without removed.0) tasks.old }
{
    for task in tasks.iter_mut() {
        task.after.close_up(removed);
    }
}

/// What the tasks of paths are once a task is gone.
fn close_up_paths(paths: &mut [Path], removed: TaskId)
    ensures { paths.new ≡ map (path_without removed.0) paths.old }
{
    for path in paths.iter_mut() {
        path.tasks.close_up(removed);
    }
}

/// A source that is on a clock has this offset there.
fn move_on_clock(source: &mut Source, offset: u64)
    ensures { source.new ≡ record source.old { on_clock = at_offset offset source.old.on_clock } }
{
    if let Some(on) = &mut source.on_clock {
        on.offset = offset;
    }
}

impl System {
    /// An equal system.
    pub fn copy(&self, alloc: Global) -> Result<System, NoMemory>
        ensures { IfOk result (λ copy. copy ≡ self.now) }
    {
        let resources = copy_resources(alloc, self.resources.as_slice())?;
        let sources = copy_sources(alloc, self.sources.as_slice())?;
        let tasks = copy_tasks(alloc, self.tasks.as_slice())?;
        let paths = copy_paths(alloc, self.paths.as_slice())?;
        let task_lists = copy_task_lists(alloc, self.task_lists.as_slice())?;
        let clocks = Vec::from_slice(alloc, self.clocks.as_slice())?;
        Ok(System {
            size: self.size,
            resources,
            sources,
            tasks,
            paths,
            task_lists,
            clocks,
        })
    }

    /// Sets a task's least and greatest execution. The system keeps its rules with them.
    pub fn set_exec(&mut self, task: TaskId, best: u64, worst: u64)
        requires there { task.0 < length self.old.tasks }
        requires rules { IsSystem (with_exec self.old task.0 best worst) }
        ensures { self.new ≡ with_exec self.old task.0 best worst }
    {
        let entry = &mut self.tasks[task.0 as usize];
        entry.best = best;
        entry.worst = worst;
    }

    /// Sets a task's priority or slot. The system keeps its rules with it.
    pub fn set_turn(&mut self, task: TaskId, turn: Turn)
        requires there { task.0 < length self.old.tasks }
        requires rules { IsSystem (with_turn self.old task.0 turn) }
        ensures { self.new ≡ with_turn self.old task.0 turn }
    {
        let entry = &mut self.tasks[task.0 as usize];
        entry.turn = turn;
    }

    /// Exchanges the priorities or slots of two tasks. The system keeps its rules then.
    pub fn swap_turns(&mut self, first: TaskId, second: TaskId)
        requires first { first.0 < length self.old.tasks }
        requires second { second.0 < length self.old.tasks }
        requires rules { IsSystem (with_swapped self.old first.0 second.0) }
        ensures { self.new ≡ with_swapped self.old first.0 second.0 }
    {
        let first_turn = self.tasks[first.0 as usize].turn;
        let second_turn = self.tasks[second.0 as usize].turn;
        let entry = &mut self.tasks[first.0 as usize];
        entry.turn = second_turn;
        let other = &mut self.tasks[second.0 as usize];
        other.turn = first_turn;
    }

    /// Sets a source's event model. The system keeps its rules with it.
    pub fn set_source(&mut self, source: SourceId, period: u64, jitter: u64, distance: u64)
        requires there { source.0 < length self.old.sources }
        requires rules { IsSystem (with_source self.old source.0 period jitter distance) }
        ensures { self.new ≡ with_source self.old source.0 period jitter distance }
    {
        let entry = &mut self.sources[source.0 as usize];
        entry.period = period;
        entry.jitter = jitter;
        entry.distance = distance;
        renew_clock(
            self.clocks.as_mut_slice(),
            self.sources.as_slice(),
            source.0 as usize,
        );
    }

    /// Sets the offset of a source that is on a clock. The system keeps its rules with it.
    pub fn set_offset(&mut self, source: SourceId, offset: u64)
        requires there { source.0 < length self.old.sources }
        requires rules { IsSystem (with_offset self.old source.0 offset) }
        ensures { self.new ≡ with_offset self.old source.0 offset }
    {
        move_on_clock(&mut self.sources[source.0 as usize], offset);
        set_kept_offset(self.clocks.as_mut_slice(), source.0 as usize, offset);
    }

    /// Adds a task as the last. The system keeps its rules with it.
    pub fn push_task(&mut self, task: Task) -> Result<TaskId, NoMemory>
        requires rules { IsSystem (with_task self.old task) }
        ensures ok { IfOk result (λ id. self.new ≡ with_task self.old task) }
        ensures place { IfOk result (λ id. id.0 ≡ length self.old.tasks) }
        ensures unchanged { OnErr result (self.new ≡ self.old) }
    {
        let place = TaskId(self.tasks.len() as u32);
        self.tasks.reserve(1)?;
        list_task(&mut self.task_lists, task.res, place)?;
        self.tasks.push(task)?;
        Ok(place)
    }

    /// Removes a task; later ones move up by one place, and are named by it. The system keeps its rules then.
    pub fn remove_task(&mut self, task: TaskId)
        requires there { task.0 < length self.old.tasks }
        requires rules { IsSystem (without_task self.old task.0) }
        ensures { self.new ≡ without_task self.old task.0 }
    {
        let _removed = self.tasks.remove(task.0 as usize);
        close_up_tasks(self.tasks.as_mut_slice(), task);
        close_up_paths(self.paths.as_mut_slice(), task);
        take_out(self.task_lists.as_mut_slice(), task);
    }
}

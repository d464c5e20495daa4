//! A system that keeps its rules.

ghost use Rattle.std.specs.Prelude.{◌≡◌, ◌<◌, ◌≤◌, length, All, IfOk};
ghost use Rattle.cpa_units.specs.declared.places.TaskId.{TaskId};
ghost use Rattle.cpa_events.specs.declared.TheConstants.{MAX_STREAMS};

use crate::chains::{chain_depth, chain_stream, chain_streams};
use crate::clocks::{Ticking, gather_clocks};
use crate::entries::{Path, Resource, Source, Task, first_with_name, gap_of};
use crate::task_lists::{ResourceTasks, gather};
use cpa_units::limits::{MAX_CHAIN, Size};
use cpa_units::{NoMemory, PathId, ResId, SourceId, TaskId};
use std::alloc::Global;
use std::marker::Model;

/// A system, which keeps its rules. Beside its lists it knows the tasks of each resource, and where sources are on clocks.
#[derive(Debug, Drop)]
pub struct System {
    pub(crate) size: Size,
    pub(crate) resources: Vec<Resource>,
    pub(crate) sources: Vec<Source>,
    pub(crate) tasks: Vec<Task>,
    pub(crate) paths: Vec<Path>,
    pub(crate) task_lists: Vec<ResourceTasks>,
    pub(crate) clocks: Vec<Option<Ticking>>,
}

impl Model for System {
    ghost use Rattle.cpa_model.specs.SystemLists.{SystemLists};
    ghost use Rattle.std.specs.Prelude.{length};
    ghost use Rattle.cpa_model.specs.Rules.{IsSystem};
    ghost use Rattle.cpa_model.specs.ResourceTasks.{AreTasksByResource};
    ghost use Rattle.std.specs.Prelude.{◌≡◌};
    ghost use Rattle.cpa_model.specs.Clocks.{of_sources, kept_clocks};

    ghost Value = { SystemLists };

    ghost view = { λ s. record { size = s.size; resources = s.resources.items; sources = s.sources.items; tasks = s.tasks.items; paths = s.paths.items } };

    ghost invariant = { λ s. IsSystem (record { size = s.size; resources = s.resources.items; sources = s.sources.items; tasks = s.tasks.items; paths = s.paths.items }) × AreTasksByResource (length s.resources.items) s.tasks.items (length s.tasks.items) s.task_lists.items × (s.clocks.items ≡ kept_clocks (of_sources s.sources.items)) };
}

/// What threads may be handed and may share.
fn crosses_threads<T: Send + Sync>(_value: &T) {}

impl System {
    ghost use Rattle.cpa_model.specs.SystemLists.{resource_at, source_at, task_at, path_at, is_higher, is_other, places_of, tasks_on, resource_named, source_named, task_named, root_of, stream_at, streams_of, depth_of, cycle_of};
    ghost use Rattle.cpa_model.specs.Clocks.{ticking_of, has_clocks};
    ghost use Rattle.cpa_model.specs.Rules.{IsSystem, IsResource, IsSource, IsTask, IsPath};

    /// A system keeps its rules, and it can be handed to other threads and shared by them. The call does nothing.
    pub fn has_rules(&self)
        ensures { IsSystem self.now }
    {
        crosses_threads(self);
        let _ = &self.tasks;
    }

    /// The system of four lists that keep the rules.
    pub fn of_lists(
        alloc: Global,
        size: Size,
        resources: Vec<Resource>,
        sources: Vec<Source>,
        tasks: Vec<Task>,
        paths: Vec<Path>,
    ) -> Result<System, NoMemory>
        requires { IsSystem (record { size = size; resources = resources.items; sources = sources.items; tasks = tasks.items; paths = paths.items }) }
        ensures { IfOk result (λ s. s ≡ record { size = size; resources = resources.items; sources = sources.items; tasks = tasks.items; paths = paths.items }) }
    {
        let task_lists = gather(alloc, resources.as_slice(), tasks.as_slice())?;
        let clocks = gather_clocks(alloc, sources.as_slice())?;
        Ok(System {
            size,
            resources,
            sources,
            tasks,
            paths,
            task_lists,
            clocks,
        })
    }

    /// How large the system may be.
    pub fn size(&self) -> Size
        ensures { result ≡ self.now.size }
    {
        self.size
    }

    /// The number of resources.
    pub fn resources(&self) -> u32
        ensures count { result ≡ length self.now.resources }
        ensures rules { IsSystem self.now }
    {
        self.resources.len() as u32
    }

    /// The number of sources.
    pub fn sources(&self) -> u32
        ensures count { result ≡ length self.now.sources }
        ensures rules { IsSystem self.now }
    {
        self.sources.len() as u32
    }

    /// The number of tasks.
    pub fn tasks(&self) -> u32
        ensures count { result ≡ length self.now.tasks }
        ensures rules { IsSystem self.now }
    {
        self.tasks.len() as u32
    }

    /// The number of paths.
    pub fn paths(&self) -> u32
        ensures count { result ≡ length self.now.paths }
        ensures rules { IsSystem self.now }
    {
        self.paths.len() as u32
    }

    pub fn resource(&self, res: ResId) -> &Resource
        requires { res.0 < length self.now.resources }
        ensures value { result.now ≡ resource_at self.now res.0 }
        ensures rules { IsResource result.now }
    {
        &self.resources[res.0 as usize]
    }

    pub fn source(&self, source: SourceId) -> &Source
        requires { source.0 < length self.now.sources }
        ensures value { result.now ≡ source_at self.now source.0 }
        ensures rules { IsSource result.now }
    {
        &self.sources[source.0 as usize]
    }

    /// Where a source is on a clock, if it is on one.
    pub fn ticking(&self, source: SourceId) -> Option<Ticking>
        requires { source.0 < length self.now.sources }
        ensures { result ≡ ticking_of self.now source.0 }
    {
        if self.clocks.is_empty() {
            None
        } else {
            self.clocks[source.0 as usize]
        }
    }

    /// Whether some source is on a clock.
    pub fn has_clocks(&self) -> bool
        ensures value { result ≡ has_clocks self.now }
        ensures rules { IsSystem self.now }
    {
        !self.clocks.is_empty()
    }

    pub fn task(&self, task: TaskId) -> &Task
        requires { task.0 < length self.now.tasks }
        ensures value { result.now ≡ task_at self.now task.0 }
        ensures rules { IsTask self.now result.now }
    {
        &self.tasks[task.0 as usize]
    }

    pub fn path(&self, path: PathId) -> &Path
        requires { path.0 < length self.now.paths }
        ensures value { result.now ≡ path_at self.now path.0 }
        ensures rules { IsPath self.now result.now }
    {
        &self.paths[path.0 as usize]
    }

    /// Whether the second task is on the resource of the first, and of higher priority.
    pub fn is_higher(&self, task: TaskId, other: TaskId) -> bool
        requires task { task.0 < length self.now.tasks }
        requires other { other.0 < length self.now.tasks }
        ensures { result ≡ is_higher self.now task.0 other.0 }
    {
        let first = self.task(task);
        let second = self.task(other);
        first.res.0 == second.res.0 && second.turn.priority() < first.turn.priority()
    }

    /// Whether the second task is another on the resource of the first.
    pub fn is_other(&self, task: TaskId, other: TaskId) -> bool
        requires task { task.0 < length self.now.tasks }
        requires other { other.0 < length self.now.tasks }
        ensures { result ≡ is_other self.now task.0 other.0 }
    {
        self.task(task).res.0 == self.task(other).res.0 && other.0 != task.0
    }

    /// The tasks of a resource, in their order.
    pub fn tasks_on(&self, res: ResId) -> &[TaskId]
        requires { res.0 < length self.now.resources }
        ensures places { places_of result.now ≡ tasks_on self.now res.0 }
        ensures there { All (λ (t : TaskId). t.0 < length self.now.tasks) result.now }
        ensures rules { IsSystem self.now }
    {
        self.task_lists[res.0 as usize].tasks()
    }

    /// The resource with a name.
    pub fn find_resource(&self, name: &[u8]) -> Option<ResId>
        ensures { result ≡ resource_named self.now name.now }
    {
        match first_with_name(self.resources.as_slice(), name) {
            None => None,
            Some(place) => Some(ResId(place as u32)),
        }
    }

    /// The source with a name.
    pub fn find_source(&self, name: &[u8]) -> Option<SourceId>
        ensures { result ≡ source_named self.now name.now }
    {
        match first_with_name(self.sources.as_slice(), name) {
            None => None,
            Some(place) => Some(SourceId(place as u32)),
        }
    }

    /// The task with a name.
    pub fn find_task(&self, name: &[u8]) -> Option<TaskId>
        ensures { result ≡ task_named self.now name.now }
    {
        match first_with_name(self.tasks.as_slice(), name) {
            None => None,
            Some(place) => Some(TaskId(place as u32)),
        }
    }

    /// The number of a task's streams: one for each chain from a source to it.
    pub fn streams(&self, task: TaskId) -> u32
        requires { task.0 < length self.now.tasks }
        ensures count { result ≡ length (streams_of self.now task.0) }
        ensures some { 1 ≤ result }
        ensures few { result ≤ MAX_STREAMS }
    {
        chain_streams(self.tasks.as_slice(), MAX_CHAIN as u32, task.0 as usize)
    }

    /// The source of one of a task's streams, by the order of activators.
    pub fn stream(&self, task: TaskId, k: u32) -> SourceId
        requires task { task.0 < length self.now.tasks }
        requires stream { k < length (streams_of self.now task.0) }
        ensures source { result ≡ stream_at self.now task.0 k }
        ensures there { result.0 < length self.now.sources }
    {
        match chain_stream(self.tasks.as_slice(), MAX_CHAIN as u32, task.0 as usize, k) {
            Ok(source) => source,
            Err(_) => unreachable!(),
        }
    }

    /// The source of a task's first stream.
    pub fn root(&self, task: TaskId) -> SourceId
        requires { task.0 < length self.now.tasks }
        ensures source { result ≡ root_of self.now task.0 }
        ensures there { result.0 < length self.now.sources }
    {
        self.has_rules();
        self.stream(task, 0)
    }

    /// The number of tasks in a task's longest chain up to and with itself.
    pub fn depth(&self, task: TaskId) -> u32
        requires { task.0 < length self.now.tasks }
        ensures { result ≡ depth_of self.now task.0 }
    {
        match chain_depth(self.tasks.as_slice(), MAX_CHAIN as u32, task.0 as usize) {
            None => 0,
            Some(depth) => depth,
        }
    }

    /// The slots of a resource's tasks and its gap, which are the cycle of a TDMA resource.
    pub fn cycle(&self, res: ResId) -> u64
        requires { res.0 < length self.now.resources }
        ensures { result ≡ cycle_of self.now res.0 }
    {
        let mut cycle = gap_of(self.resources[res.0 as usize].kind);
        for task in self.tasks_on(res) {
            cycle += self.task(*task).turn.slot();
        }
        cycle
    }
}

//! What the names of a system name.

ghost use Rattle.std.specs.Prelude.{◌≡◌, ◌<◌, length, map, IfOk, IfSome};
ghost use Rattle.cpa_model.specs.declared.entries.Resource.{Resource};
ghost use Rattle.cpa_model.specs.declared.entries.Source.{Source};
ghost use Rattle.cpa_model.specs.declared.entries.Task.{Task};
ghost use Rattle.cpa_trace.specs.Index.{IsIndex};

use crate::names::Names;
use cpa_model::System;
use cpa_units::{NoMemory, ResId, SourceId, TaskId};
use std::alloc::Global;

/// The names of a system's resources, sources and tasks, made once for all rows.
#[derive(Drop)]
pub struct Index {
    resources: Names,
    sources: Names,
    tasks: Names,
}

fn resource_names(alloc: Global, system: &System) -> Result<Names, NoMemory>
    ensures { IfOk result (λ names. names ≡ map (λ (r : Resource). r.name) system.now.resources) }
{
    let mut names = Names::new(alloc);
    for k in 0..system.resources() {
        names.add(alloc, system.resource(ResId(k)).name.bytes())?;
    }
    Ok(names)
}

fn source_names(alloc: Global, system: &System) -> Result<Names, NoMemory>
    ensures { IfOk result (λ names. names ≡ map (λ (r : Source). r.name) system.now.sources) }
{
    let mut names = Names::new(alloc);
    for k in 0..system.sources() {
        names.add(alloc, system.source(SourceId(k)).name.bytes())?;
    }
    Ok(names)
}

fn task_names(alloc: Global, system: &System) -> Result<Names, NoMemory>
    ensures { IfOk result (λ names. names ≡ map (λ (t : Task). t.name) system.now.tasks) }
{
    let mut names = Names::new(alloc);
    for i in 0..system.tasks() {
        names.add(alloc, system.task(TaskId(i)).name.bytes())?;
    }
    Ok(names)
}

impl Index {
    ghost use Rattle.cpa_model.specs.SystemLists.{resource_named, source_named, task_named};

    /// The index of a system.
    pub fn of(alloc: Global, system: &System) -> Result<Index, NoMemory>
        ensures { IfOk result (λ index. IsIndex system.now index) }
    {
        Ok(Index {
            resources: resource_names(alloc, system)?,
            sources: source_names(alloc, system)?,
            tasks: task_names(alloc, system)?,
        })
    }

    /// The resource with a name.
    pub fn resource(&self, system: &System, name: &[u8]) -> Option<ResId>
        requires { IsIndex system.now self.now }
        ensures value { result ≡ resource_named system.now name.now }
        ensures there { IfSome result (λ r. r.0 < length system.now.resources) }
    {
        let place = self.resources.place(name)?;
        let there = place < system.resources() as usize;
        prove!(there);
        Some(ResId(place as u32))
    }

    /// The source with a name.
    pub fn source(&self, system: &System, name: &[u8]) -> Option<SourceId>
        requires { IsIndex system.now self.now }
        ensures value { result ≡ source_named system.now name.now }
        ensures there { IfSome result (λ k. k.0 < length system.now.sources) }
    {
        let place = self.sources.place(name)?;
        let there = place < system.sources() as usize;
        prove!(there);
        Some(SourceId(place as u32))
    }

    /// The task with a name.
    pub fn task(&self, system: &System, name: &[u8]) -> Option<TaskId>
        requires { IsIndex system.now self.now }
        ensures value { result ≡ task_named system.now name.now }
        ensures there { IfSome result (λ i. i.0 < length system.now.tasks) }
    {
        let place = self.tasks.place(name)?;
        let there = place < system.tasks() as usize;
        prove!(there);
        Some(TaskId(place as u32))
    }
}

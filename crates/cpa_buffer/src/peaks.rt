//! How many jobs were pending at once in a run. Times are in ticks.

ghost use Rattle.std.specs.Prelude.{◌≡◌, ◌<◌, ◌++◌, length, slice_index_or, map, IfOk, OnOk};
ghost use Rattle.std.specs.List.{range_with_len};
ghost use Rattle.cpa_model.specs.SystemLists.{task_places};
ghost use Rattle.cpa_trace.specs.Trace.{TraceLists};
ghost use Rattle.cpa_sim.specs.Outcome.{jobs_seen, outcome_of};
ghost use Rattle.cpa_buffer.specs.Buffers.{peak_of, peak_on};
ghost use Rattle.cpa_buffer.specs.Peaks.{arrivals_of, ends_of, peaks_of, IsRun};

use crate::sweep::most_inside;
use cpa_model::System;
use cpa_sim::Outcome;
use cpa_units::{NoMemory, ResId, TaskId};
use std::alloc::Global;
use std::marker::Model;

/// The greatest numbers of pending jobs at one time of a run.
#[derive(Debug, Drop)]
pub struct Peaks {
    per_task: Vec<u64>,
    per_resource: Vec<u64>,
}

impl Model for Peaks {
    ghost use Rattle.cpa_buffer.specs.Peaks.{PeakLists};

    ghost Value = { PeakLists };

    ghost view = { λ p. record { tasks = p.per_task.items; resources = p.per_resource.items } };
}

impl Peaks {
    /// The greatest number of pending jobs of a task.
    pub fn task(&self, task: TaskId) -> u64
        requires { task.0 < length self.now.tasks }
        ensures { result ≡ slice_index_or self.now.tasks task.0 0 }
    {
        self.per_task[task.0 as usize]
    }

    /// The greatest number of pending jobs of all tasks of a resource together.
    pub fn resource(&self, res: ResId) -> u64
        requires { res.0 < length self.now.resources }
        ensures { result ≡ slice_index_or self.now.resources res.0 0 }
    {
        self.per_resource[res.0 as usize]
    }
}

/// Adds when the jobs of a task arrived, and when those that are complete ended.
fn collect(
    outcome: &Outcome,
    task: TaskId,
    arrivals: &mut Vec<u64>,
    ends: &mut Vec<u64>,
) -> Result<(), NoMemory>
    requires { task.0 < length outcome.now.jobs }
    ensures arrivals { OnOk result (arrivals.new.items ≡ arrivals.old.items ++ arrivals_of (jobs_seen outcome.now task.0)) }
    ensures ends { OnOk result (ends.new.items ≡ ends.old.items ++ ends_of (jobs_seen outcome.now task.0)) }
{
    for k in 0..outcome.count(task) {
        let job = outcome.job(task, k);
        arrivals.push(job.arrival)?;
        if let Some(end) = job.end {
            ends.push(end)?;
        }
    }
    Ok(())
}

/// The greatest number of pending jobs of a task.
fn task_peak(
    alloc: Global,
    system: &System,
    outcome: &Outcome,
    task: TaskId,
) -> Result<u64, NoMemory>
    requires there { task.0 < length system.now.tasks }
    requires run { IsRun system.now outcome.now }
    ensures { IfOk result (λ peak. (tr : TraceLists) → outcome.now ≡ outcome_of system.now tr → peak ≡ peak_of system.now tr task.0) }
{
    let mut arrivals = Vec::new(alloc);
    let mut ends = Vec::new(alloc);
    collect(outcome, task, &mut arrivals, &mut ends)?;
    most_inside(arrivals, ends)
}

/// The greatest number of pending jobs of all tasks of a resource together.
fn resource_peak(
    alloc: Global,
    system: &System,
    outcome: &Outcome,
    res: ResId,
) -> Result<u64, NoMemory>
    requires there { res.0 < length system.now.resources }
    requires run { IsRun system.now outcome.now }
    ensures { IfOk result (λ peak. (tr : TraceLists) → outcome.now ≡ outcome_of system.now tr → peak ≡ peak_on system.now tr res.0) }
{
    let mut arrivals = Vec::new(alloc);
    let mut ends = Vec::new(alloc);
    for task in system.tasks_on(res) {
        collect(outcome, *task, &mut arrivals, &mut ends)?;
    }
    most_inside(arrivals, ends)
}

/// The peaks of all tasks, in their order.
fn task_peaks(alloc: Global, system: &System, outcome: &Outcome) -> Result<Vec<u64>, NoMemory>
    requires { IsRun system.now outcome.now }
    ensures peaks { IfOk result (λ v. (tr : TraceLists) → outcome.now ≡ outcome_of system.now tr → v.items ≡ map (peak_of system.now tr) (task_places system.now)) }
    ensures count { IfOk result (λ v. length v.items ≡ length system.now.tasks) }
{
    let mut peaks = Vec::new(alloc);
    for k in 0..system.tasks() {
        let peak = task_peak(alloc, system, outcome, TaskId(k))?;
        peaks.push(peak)?;
    }
    Ok(peaks)
}

/// The peaks of all resources, in their order.
fn resource_peaks(alloc: Global, system: &System, outcome: &Outcome) -> Result<Vec<u64>, NoMemory>
    requires { IsRun system.now outcome.now }
    ensures peaks { IfOk result (λ v. (tr : TraceLists) → outcome.now ≡ outcome_of system.now tr → v.items ≡ map (peak_on system.now tr) (range_with_len 0 (length system.now.resources))) }
    ensures count { IfOk result (λ v. length v.items ≡ length system.now.resources) }
{
    let mut peaks = Vec::new(alloc);
    for k in 0..system.resources() {
        let peak = resource_peak(alloc, system, outcome, ResId(k))?;
        peaks.push(peak)?;
    }
    Ok(peaks)
}

/// The greatest numbers of jobs that are pending at one time, from 0 up to and with the end of a run: per
/// task, and per resource of all its tasks together. A job that arrives at the end counts there, and one
/// that is complete at the end doesn't.
#[tactic(auto, unfolding(crate::specs::Peaks::peaks_of))]
pub fn find_peaks(alloc: Global, system: &System, outcome: &Outcome) -> Result<Peaks, NoMemory>
    requires run { IsRun system.now outcome.now }
    ensures peaks { IfOk result (λ p. (tr : TraceLists) → outcome.now ≡ outcome_of system.now tr → p ≡ peaks_of system.now tr) }
    ensures tasks { IfOk result (λ p. length p.tasks ≡ length system.now.tasks) }
    ensures resources { IfOk result (λ p. length p.resources ≡ length system.now.resources) }
{
    let per_task = task_peaks(alloc, system, outcome)?;
    let per_resource = resource_peaks(alloc, system, outcome)?;
    Ok(Peaks {
        per_task,
        per_resource,
    })
}

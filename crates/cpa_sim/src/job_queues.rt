//! What is known of the jobs of one task, in the order in which they come. Times are in ticks.

ghost use Rattle.std.specs.Prelude.{◌≡◌, ◌<◌, ◌≤◌, ◌+◌, ◌++◌, [], if◌then◌else◌, length, true, false, Some, None, option_map, vec_capacity, IfOk, IfSome, OnOk, OnErr, IsOk, nat_le};
ghost use Rattle.std.specs.List.{list_any};
ghost use Rattle.cpa_units.specs.declared.limits.TheConstants.{HORIZON, MAX_TRACE_JOBS};
ghost use Rattle.cpa_sim.specs.JobQueues.{QueueCounts, has_pending, arrival_of, arrivals_of, empty_queue, kept_of, causes_of, new_seen, with_arrivals, completed_queue, shorter_queue, worked};
ghost use Rattle.cpa_trace.specs.Trace.{need};
ghost use Rattle.cpa_sim.specs.Outcome.{CanReplay};

use crate::jobs::{Cause, Causes, Keeping};
use crate::seen_job::SeenJob;
use cpa_model::System;
use cpa_trace::Trace;
use cpa_units::limits::MAX_TRACE_JOBS;
use cpa_units::{NoMemory, TaskId};
use std::alloc::Global;
use std::marker::Model;

/// The jobs of a task so far, of which the first ones are complete, and no others. What is seen of them is
/// kept where that is asked for, and so is when each arrived, in room that is taken at the start; all else
/// takes the same room, however many there are.
#[derive(Debug, Drop)]
pub(crate) struct JobQueue {
    /// How many there are.
    count: u64,
    /// How many of them are complete.
    done: u64,
    /// What the next job to be complete still needs, be it there or yet to come.
    left: u64,
    /// For how many there is room.
    room: u64,
    kept: Option<Vec<SeenJob>>,
    /// When each arrived.
    came: Option<Vec<u32>>,
}

impl Model for JobQueue {
    ghost use Rattle.std.specs.Prelude.{option_map, vec_capacity};
    ghost use Rattle.cpa_sim.specs.JobQueues.{QueueCounts, IsQueue};

    ghost Value = { QueueCounts };

    ghost view = { λ l. record { count = l.count; done = l.done; left = l.left; room = l.room; kept = option_map (λ v. v.items) l.kept; came = option_map (λ v. v.items) l.came } };

    ghost invariant = { λ l. IsQueue (record { count = l.count; done = l.done; left = l.left; room = l.room; kept = option_map (λ v. v.items) l.kept; came = option_map (λ v. v.items) l.came }) (option_map (λ v. vec_capacity v) l.came) };
}

/// Adds jobs that these causes start now.
fn push_jobs(jobs: &mut Vec<SeenJob>, causes: Causes, now: u64) -> Result<(), NoMemory>
    requires numbers { causes.first + causes.count ≤ MAX_TRACE_JOBS }
    requires horizon { now ≤ HORIZON }
    ensures { OnOk result (jobs.new.items ≡ jobs.old.items ++ new_seen now (causes_of causes)) }
{
    for k in 0..causes.count {
        let cause = Cause {
            by: causes.by,
            number: causes.first + k,
        };
        jobs.push(SeenJob::new(now, cause))?;
    }
    Ok(())
}

/// Adds jobs that these causes start now to those that are kept, if they are. Where memory runs out, those
/// so far are lost.
fn keep(kept: &mut Option<Vec<SeenJob>>, causes: Causes, now: u64) -> Result<(), NoMemory>
    requires numbers { causes.first + causes.count ≤ MAX_TRACE_JOBS }
    requires horizon { now ≤ HORIZON }
    ensures more { OnOk result (option_map (λ v. v.items) kept.new ≡ option_map (λ jobs. jobs ++ new_seen now (causes_of causes)) (option_map (λ v. v.items) kept.old)) }
    ensures lost { OnErr result (kept.new ≡ None) }
    ensures memory { kept.old ≡ None → IsOk result }
{
    if let Some(jobs) = kept {
        if push_jobs(jobs, causes, now).is_err() {
            *kept = None;
            return Err(NoMemory);
        }
    }
    Ok(())
}

/// Adds the arrivals of so many jobs that arrive now.
fn push_arrivals(times: &mut Vec<u32>, causes: Causes, now: u64)
    requires horizon { now ≤ HORIZON }
    requires room { length times.old.items + causes.count ≤ vec_capacity times.old }
    ensures items { times.new.items ≡ times.old.items ++ arrivals_of (new_seen now (causes_of causes)) }
    ensures capacity { vec_capacity times.new ≡ vec_capacity times.old }
{
    for _ in 0..causes.count {
        times.push_reserved(now as u32);
    }
}

/// Adds the arrivals of jobs that these causes start now to those that are kept, if they are, in the room
/// that there is.
fn keep_arrivals(came: &mut Option<Vec<u32>>, causes: Causes, now: u64)
    requires horizon { now ≤ HORIZON }
    requires room { IfSome came.old (λ v. length v.items + causes.count ≤ vec_capacity v) }
    ensures more { option_map (λ v. v.items) came.new ≡ option_map (λ times. times ++ arrivals_of (new_seen now (causes_of causes))) (option_map (λ v. v.items) came.old) }
    ensures capacity { option_map (λ v. vec_capacity v) came.new ≡ option_map (λ v. vec_capacity v) came.old }
{
    if let Some(times) = came {
        push_arrivals(times, causes, now);
    }
}

/// Room for what is seen of so many jobs, or for when so many arrived, if it is kept.
fn room_for<T>(alloc: Global, keeps: bool, room: u64) -> Result<Option<Vec<T>>, NoMemory>
    requires { room ≤ MAX_TRACE_JOBS }
    ensures items { IfOk result (λ kept. option_map (λ v. v.items) kept ≡ (if keeps then Some [] else None)) }
    ensures capacity { IfOk result (λ kept. option_map (λ v. vec_capacity v) kept ≡ (if keeps then Some room else None)) }
{
    if keeps {
        Ok(Some(Vec::with_capacity(alloc, room as usize)?))
    } else {
        Ok(None)
    }
}

impl JobQueue {
    /// No job so far. The first one needs so many ticks.
    pub(crate) fn new(alloc: Global, keeping: Keeping, need: u64) -> Result<JobQueue, NoMemory>
        requires some { 1 ≤ need }
        requires room { keeping.room ≤ MAX_TRACE_JOBS }
        ensures { IfOk result (λ queue. queue ≡ empty_queue keeping need) }
    {
        Ok(JobQueue {
            count: 0,
            done: 0,
            left: need,
            room: keeping.room,
            kept: room_for(alloc, keeping.jobs, keeping.room)?,
            came: room_for(alloc, keeping.arrivals, keeping.room)?,
        })
    }

    /// Whether some job is pending.
    pub(crate) fn waits(&self) -> bool
        ensures { result ≡ has_pending self.now }
    {
        self.done < self.count
    }

    /// How many jobs are complete.
    pub(crate) fn done(&self) -> u64
        ensures value { result ≡ self.now.done }
        ensures few { result ≤ MAX_TRACE_JOBS }
    {
        self.done
    }

    /// When the earliest pending job arrived, where arrivals are kept.
    pub(crate) fn arrival(&self) -> u64
        requires { has_pending self.now ≡ true }
        ensures { result ≡ arrival_of self.now }
    {
        match &self.came {
            None => 0,
            Some(times) => u64::from(times[self.done as usize]),
        }
    }

    /// The number of the job after the earliest pending one.
    pub(crate) fn after_first(&self) -> u64
        requires { has_pending self.now ≡ true }
        ensures { result ≡ self.now.done + 1 }
    {
        self.done + 1
    }

    /// What the next job to be complete still needs.
    pub(crate) fn left(&self) -> u64
        ensures value { result ≡ self.now.left }
        ensures some { 1 ≤ result }
    {
        self.left
    }

    /// What is seen of the jobs; nothing where they aren't kept.
    pub(crate) fn jobs(&self) -> &[SeenJob]
        ensures { result.now ≡ kept_of self.now }
    {
        match &self.kept {
            None => &[],
            Some(jobs) => jobs.as_slice(),
        }
    }

    /// Adds jobs that these causes start now. Where memory runs out, those so far are lost.
    pub(crate) fn arrive(&mut self, causes: Causes, now: u64) -> Result<(), NoMemory>
        requires few { self.old.count + causes.count ≤ self.old.room }
        requires numbers { causes.first + causes.count ≤ MAX_TRACE_JOBS }
        requires horizon { now ≤ HORIZON }
        ensures queue { OnOk result (self.new ≡ with_arrivals now (causes_of causes) self.old) }
        ensures memory { self.old.kept ≡ None → IsOk result }
    {
        keep(&mut self.kept, causes, now)?;
        keep_arrivals(&mut self.came, causes, now);
        self.count += causes.count;
        Ok(())
    }

    /// Gives the earliest pending job some ticks, fewer than it needs.
    pub(crate) fn shorten(&mut self, ticks: u64)
        requires { ticks < self.old.left }
        ensures { self.new ≡ shorter_queue ticks self.old }
    {
        self.left -= ticks;
    }

    /// The earliest pending job is complete now; the one after it needs so many ticks.
    pub(crate) fn complete(&mut self, now: u64, next: u64)
        requires waits { has_pending self.old ≡ true }
        requires some { 1 ≤ next }
        requires horizon { now ≤ HORIZON }
        ensures { self.new ≡ completed_queue next now self.old }
    {
        if let Some(jobs) = &mut self.kept {
            jobs[self.done as usize].complete(now);
        }
        self.done += 1;
        self.left = next;
    }
}

/// Whether some job of some task is pending.
pub(crate) fn someone_waits(queues: &[JobQueue]) -> bool
    ensures { result ≡ list_any has_pending queues.now }
{
    for queue in queues {
        if queue.waits() {
            return true;
        }
    }
    false
}

/// What job `k` of a task needs: its listed execution, or the task's greatest.
pub(crate) fn need(system: &System, trace: &Trace, task: TaskId, k: u64) -> u64
    requires there { task.0 < length system.now.tasks }
    requires can { CanReplay system.now trace.now }
    ensures value { result ≡ need system.now trace.now task.0 k }
    ensures some { 1 ≤ result }
{
    if k < trace.execs(task) {
        trace.exec(task, k)
    } else {
        system.task(task).worst
    }
}

/// Gives the earliest pending job of a task some ticks, after which it is `now`. Answers whether it is
/// complete.
pub(crate) fn work(
    system: &System,
    trace: &Trace,
    task: TaskId,
    queue: &mut JobQueue,
    ticks: u64,
    now: u64,
) -> bool
    requires there { task.0 < length system.now.tasks }
    requires can { CanReplay system.now trace.now }
    requires waits { has_pending queue.old ≡ true }
    requires horizon { now ≤ HORIZON }
    ensures queue { queue.new ≡ worked (need system.now trace.now task.0) ticks now queue.old }
    ensures ends { result ≡ nat_le queue.old.left ticks }
{
    if ticks < queue.left() {
        queue.shorten(ticks);
        return false;
    }
    let next = need(system, trace, task, queue.after_first());
    queue.complete(now, next);
    true
}

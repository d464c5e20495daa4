//! Who runs on each resource. Times are in ticks.

ghost use Rattle.std.specs.Prelude.{◌≡◌, ◌<◌, ◌≤◌, ◌+◌, ◌^◌, ◌==◌, ◌&&◌, ◌||◌, ℕ, length, map, Some, None, true, false, All, option_map, IfSome};
ghost use Rattle.std.specs.List.{list_any};
ghost use Rattle.cpa_units.specs.declared.limits.TheConstants.{HORIZON};
ghost use Rattle.cpa_units.specs.Sets.{holds};
ghost use Rattle.cpa_model.specs.SystemLists.{place_of, places_of, task_at};
ghost use Rattle.cpa_trace.specs.Trace.{phase_of, need};
ghost use Rattle.cpa_sched.specs.Steps.{kind_of, completed};
ghost use Rattle.cpa_sched.specs.Stretches.{IsStretch, state_later};
ghost use Rattle.cpa_sched.specs.States.{seen, Belongs, FrameWaits, IsWaiting};
ghost use Rattle.cpa_sched.specs.Urgency.{IsByUrgency};
ghost use Rattle.cpa_sched.specs.WaitingRanges.{CameSince, HasWaitingRange};
ghost use Rattle.cpa_sim.specs.Arrivals.{listed};
ghost use Rattle.cpa_sim.specs.JobQueues.{served_queue};
ghost use Rattle.cpa_sim.specs.Orders.{AreOrders, AreReached};
ghost use Rattle.cpa_sim.specs.Outcome.{CanReplay};
ghost use Rattle.cpa_sim.specs.Run.{settled};
ghost use Rattle.cpa_sim.specs.Simulation.{queue_at, dispatch_at, runner, runs_at, waiting, arrived, ready, state_by, state_now, Foresees, HasEnough, IsServed, AreEnding};

use crate::job_queues::{JobQueue, need, work};
use cpa_model::System;
use cpa_sched::{Queue, Ranking, ResState, Stretch, WaitingRange, begin_within, completed, go_on};
use cpa_trace::Trace;
use cpa_units::limits::{HORIZON, MAX_PHASE};
use cpa_units::{ResId, ResSet, TaskId};

/// What is dispatched on a resource: as long as the same tasks wait, the same task runs, or nobody does,
/// for so many ticks.
#[derive(Clone, Copy)]
pub(crate) struct Dispatch {
    /// The state after the first of these ticks; the state now, where none of them has gone by.
    pub(crate) state: ResState,
    pub(crate) running: Option<TaskId>,
    /// How many ticks were foreseen.
    pub(crate) ticks: u64,
    /// How many of them have gone by.
    pub(crate) gone: u64,
    /// Whether the job that ran is complete now.
    pub(crate) ends: bool,
    /// Between which places of its list by urgency those of its tasks stand that wait, and since when their
    /// jobs came.
    pub(crate) waiters: WaitingRange,
}

/// The tasks of a system, of which the step rules see who waits.
#[derive(Clone, Copy)]
pub(crate) struct Waiting<'a> {
    pub(crate) system: &'a System,
    pub(crate) trace: &'a Trace,
    pub(crate) queues: &'a [JobQueue],
    ghost can: { CanReplay system.now trace.now },
    ghost all: { length queues.now ≡ length system.now.tasks },
}

impl Queue for Waiting<'_> {
    ghost use Rattle.cpa_sim.specs.Simulation.{ready};

    ghost ready = { λ q. ready q.system.now q.trace.now q.queues.now };

    fn waits(&self, task: TaskId) -> bool {
        let place = task.0 as usize;
        if place < self.queues.len() {
            self.queues[place].waits()
        } else {
            false
        }
    }

    fn arrival(&self, task: TaskId) -> u64 {
        let place = task.0 as usize;
        if place < self.queues.len() {
            self.queues[place].arrival()
        } else {
            0
        }
    }

    fn received(&self, task: TaskId) -> u64 {
        let queue = &self.queues[task.0 as usize];
        need(self.system, self.trace, task, queue.done()).saturating_sub(queue.left())
    }
}

/// Whether some of a resource's tasks waits.
fn is_busy(queues: &[JobQueue], tasks: &[TaskId]) -> bool
    requires { All (λ (t : TaskId). t.0 < length queues.now) tasks.now }
    ensures { result ≡ list_any (waiting queues.now) (places_of tasks.now) }
{
    for task in tasks {
        if queues[task.0 as usize].waits() {
            return true;
        }
    }
    false
}

/// How a resource goes on from now while the same tasks wait, for at most so many ticks, and its state
/// after the first of them. A phase that is past the limit of traces counts nowhere.
fn begin_now(
    system: &System,
    trace: &Trace,
    queues: &[JobQueue],
    ranking: &Ranking<'_>,
    waiters: &mut WaitingRange,
    state: &mut ResState,
    now: u64,
    most: u64,
) -> Stretch
    requires there { ranking.now.res.0 < length system.now.resources }
    requires ranking { IsByUrgency system.now ranking.now.res.0 (places_of ranking.now.tasks.now) }
    requires waiters { HasWaitingRange (places_of ranking.now.tasks.now) (waiting queues.now) waiters.old }
    requires since { CameSince system.now ranking.now.res.0 (waiting queues.now) (arrived queues.now) waiters.old.since }
    requires can { CanReplay system.now trace.now }
    requires queues { length queues.now ≡ length system.now.tasks }
    requires belongs { Belongs system.now ranking.now.res.0 (seen state.old) }
    requires frame { FrameWaits (kind_of system.now ranking.now.res.0) (seen state.old) (waiting queues.now) }
    requires some { 1 ≤ most }
    requires horizon { now + most ≤ HORIZON }
    ensures stretch { (n : ℕ) → n < result.ticks → IsStretch system.now ranking.now.res.0 (seen state.old) (ready system.now trace.now queues.now) now (phase_of trace.now ranking.now.res.0) (n + 1) (option_map place_of result.task) (state_later (kind_of system.now ranking.now.res.0) (option_map place_of result.task) (seen state.new) n) }
    ensures some { 1 ≤ result.ticks }
    ensures waiters { HasWaitingRange (places_of ranking.now.tasks.now) (waiting queues.now) waiters.new }
    ensures since { CameSince system.now ranking.now.res.0 (waiting queues.now) (arrived queues.now) waiters.new.since }
    ensures waits { IfSome result.task (λ t. IsWaiting system.now ranking.now.res.0 (waiting queues.now) t.0) }
{
    let queue = Waiting {
        system,
        trace,
        queues,
    };
    let phase = trace.phase(ranking.res).min(MAX_PHASE);
    begin_within(system, ranking, waiters, state, &queue, now, phase, most)
}

/// For how many ticks of a stretch the job that runs isn't complete before the last of them is over.
fn ticks_within(queues: &[JobQueue], stretch: Stretch) -> u64
    requires some { 1 ≤ stretch.ticks }
    requires there { IfSome stretch.task (λ t. t.0 < length queues.now) }
    requires waits { IfSome stretch.task (λ t. waiting queues.now t.0 ≡ true) }
    ensures some { 1 ≤ result }
    ensures most { result ≤ stretch.ticks }
    ensures enough { (i : ℕ) → option_map place_of stretch.task ≡ Some i → result ≤ (queue_at queues.now i).left }
{
    match stretch.task {
        None => stretch.ticks,
        Some(task) => stretch.ticks.min(queues[task.0 as usize].left()),
    }
}

/// Brings the state of a resource to date: nothing is foreseen any more.
pub(crate) fn refresh(system: &System, dispatch: &mut Dispatch, res: ResId)
    requires { res.0 < length system.now.resources }
    ensures state { seen dispatch.new.state ≡ state_now (kind_of system.now res.0) dispatch.old }
    ensures gone { dispatch.new.gone ≡ 0 }
    ensures ticks { dispatch.new.ticks ≡ 0 }
    ensures running { dispatch.new.running ≡ dispatch.old.running }
    ensures ends { dispatch.new.ends ≡ dispatch.old.ends }
    ensures waiters { dispatch.new.waiters ≡ dispatch.old.waiters }
{
    dispatch.ticks = 0;
    if dispatch.gone == 0 {
        return;
    }
    go_on(
        system,
        res,
        &mut dispatch.state,
        dispatch.running,
        dispatch.gone - 1,
    );
    dispatch.gone = 0;
}

/// Foresees what becomes of a resource from now on. Where none of its tasks waits, nobody runs and its
/// state stays the same for as long as that is so, also past the ends of slots and gaps.
fn foresee(
    system: &System,
    trace: &Trace,
    queues: &[JobQueue],
    ranking: &Ranking<'_>,
    dispatch: &mut Dispatch,
    now: u64,
)
    requires there { ranking.now.res.0 < length system.now.resources }
    requires ranking { IsByUrgency system.now ranking.now.res.0 (places_of ranking.now.tasks.now) }
    requires waiters { HasWaitingRange (places_of ranking.now.tasks.now) (waiting queues.now) dispatch.old.waiters }
    requires since { CameSince system.now ranking.now.res.0 (waiting queues.now) (arrived queues.now) dispatch.old.waiters.since }
    requires can { CanReplay system.now trace.now }
    requires queues { length queues.now ≡ length system.now.tasks }
    requires belongs { Belongs system.now ranking.now.res.0 (state_now (kind_of system.now ranking.now.res.0) dispatch.old) }
    requires frame { FrameWaits (kind_of system.now ranking.now.res.0) (state_now (kind_of system.now ranking.now.res.0) dispatch.old) (waiting queues.now) }
    requires horizon { now < HORIZON }
    ensures foresees { Foresees system.now ranking.now.res.0 (state_now (kind_of system.now ranking.now.res.0) dispatch.old) (ready system.now trace.now queues.now) now (phase_of trace.now ranking.now.res.0) dispatch.new }
    ensures some { dispatch.new.gone < dispatch.new.ticks }
    ensures enough { HasEnough queues.now dispatch.new }
    ensures waiters { HasWaitingRange (places_of ranking.now.tasks.now) (waiting queues.now) dispatch.new.waiters }
    ensures since { CameSince system.now ranking.now.res.0 (waiting queues.now) (arrived queues.now) dispatch.new.waiters.since }
{
    refresh(system, dispatch, ranking.res);
    let most = HORIZON - now;
    let state = &mut dispatch.state;
    let waiters = &mut dispatch.waiters;
    let stretch = begin_now(system, trace, queues, ranking, waiters, state, now, most);
    if stretch.task.is_none()
        && stretch.ticks < most
        && !is_busy(queues, system.tasks_on(ranking.res))
    {
        dispatch.running = None;
        dispatch.ticks = most;
        return;
    }
    dispatch.running = stretch.task;
    dispatch.ticks = ticks_within(queues, stretch);
}

/// Foresees what becomes of a resource, where nothing is foreseen of it so far.
fn foresee_more(
    system: &System,
    trace: &Trace,
    queues: &[JobQueue],
    orders: &Vec<Vec<TaskId>>,
    dispatch: &mut Dispatch,
    res: ResId,
    now: u64,
)
    requires there { res.0 < length system.now.resources }
    requires orders { AreOrders system.now (map (λ v. v.items) orders.now.items) }
    requires waiters { HasWaitingRange (places_of (listed (map (λ v. v.items) orders.now.items) res.0)) (waiting queues.now) dispatch.old.waiters }
    requires since { CameSince system.now res.0 (waiting queues.now) (arrived queues.now) dispatch.old.waiters.since }
    requires can { CanReplay system.now trace.now }
    requires queues { length queues.now ≡ length system.now.tasks }
    requires belongs { Belongs system.now res.0 (state_now (kind_of system.now res.0) dispatch.old) }
    requires frame { FrameWaits (kind_of system.now res.0) (state_now (kind_of system.now res.0) dispatch.old) (waiting queues.now) }
    requires horizon { now < HORIZON }
    requires foresees { Foresees system.now res.0 (state_now (kind_of system.now res.0) dispatch.old) (ready system.now trace.now queues.now) now (phase_of trace.now res.0) dispatch.old }
    requires enough { HasEnough queues.now dispatch.old }
    ensures foresees { Foresees system.now res.0 (state_now (kind_of system.now res.0) dispatch.old) (ready system.now trace.now queues.now) now (phase_of trace.now res.0) dispatch.new }
    ensures some { dispatch.new.gone < dispatch.new.ticks }
    ensures enough { HasEnough queues.now dispatch.new }
    ensures waiters { HasWaitingRange (places_of (listed (map (λ v. v.items) orders.now.items) res.0)) (waiting queues.now) dispatch.new.waiters }
    ensures since { CameSince system.now res.0 (waiting queues.now) (arrived queues.now) dispatch.new.waiters.since }
{
    if dispatch.gone < dispatch.ticks {
        return;
    }
    let ranking = Ranking {
        res,
        tasks: orders[res.0 as usize].as_slice(),
    };
    foresee(system, trace, queues, &ranking, dispatch, now);
}

/// Foresees what becomes of all resources. Answers for how many ticks from now on, at most so many, the
/// same tasks run on all of them, and no job is complete before the last of them is over.
pub(crate) fn foresee_all(
    system: &System,
    trace: &Trace,
    queues: &[JobQueue],
    orders: &Vec<Vec<TaskId>>,
    dispatches: &mut Vec<Dispatch>,
    now: u64,
    most: u64,
) -> u64
    requires orders { AreOrders system.now (map (λ v. v.items) orders.now.items) }
    requires can { CanReplay system.now trace.now }
    requires queues { length queues.now ≡ length system.now.tasks }
    requires dispatches { length dispatches.old.items ≡ length system.now.resources }
    requires belongs { (r : ℕ) → r < length system.now.resources → Belongs system.now r (state_now (kind_of system.now r) (dispatch_at dispatches.old.items r)) }
    requires frames { (r : ℕ) → r < length system.now.resources → FrameWaits (kind_of system.now r) (state_now (kind_of system.now r) (dispatch_at dispatches.old.items r)) (waiting queues.now) }
    requires foresees { (r : ℕ) → r < length system.now.resources → Foresees system.now r (state_now (kind_of system.now r) (dispatch_at dispatches.old.items r)) (ready system.now trace.now queues.now) now (phase_of trace.now r) (dispatch_at dispatches.old.items r) }
    requires enough { (r : ℕ) → r < length system.now.resources → HasEnough queues.now (dispatch_at dispatches.old.items r) }
    requires reached { AreReached system.now (map (λ v. v.items) orders.now.items) queues.now dispatches.old.items }
    requires some { 1 ≤ most }
    requires horizon { now < HORIZON }
    ensures count { length dispatches.new.items ≡ length system.now.resources }
    ensures foresees { (r : ℕ) → r < length system.now.resources → Foresees system.now r (state_now (kind_of system.now r) (dispatch_at dispatches.old.items r)) (ready system.now trace.now queues.now) now (phase_of trace.now r) (dispatch_at dispatches.new.items r) }
    ensures enough { (r : ℕ) → r < length system.now.resources → HasEnough queues.now (dispatch_at dispatches.new.items r) }
    ensures reached { AreReached system.now (map (λ v. v.items) orders.now.items) queues.now dispatches.new.items }
    ensures some { 1 ≤ result }
    ensures most { result ≤ most }
    ensures fits { (r : ℕ) → r < length system.now.resources → (dispatch_at dispatches.new.items r).gone + result ≤ (dispatch_at dispatches.new.items r).ticks }
{
    system.has_rules();
    let mut ticks = most;
    for (k, dispatch) in dispatches.iter_mut().enumerate() {
        let res = ResId(k as u32);
        foresee_more(system, trace, queues, orders, dispatch, res, now);
        ticks = ticks.min(dispatch.ticks - dispatch.gone);
    }
    ticks
}

/// Where the job that ran is complete, nothing is foreseen any more, and neither a frame nor a region goes
/// on.
fn complete(system: &System, dispatch: &mut Dispatch, res: ResId)
    requires there { res.0 < length system.now.resources }
    requires belongs { Belongs system.now res.0 (state_now (kind_of system.now res.0) dispatch.old) }
    ensures state { seen dispatch.new.state ≡ completed (kind_of system.now res.0) (state_now (kind_of system.now res.0) dispatch.old) }
    ensures gone { dispatch.new.gone ≡ 0 }
    ensures ticks { dispatch.new.ticks ≡ 0 }
    ensures running { dispatch.new.running ≡ dispatch.old.running }
    ensures ends { dispatch.new.ends ≡ dispatch.old.ends }
    ensures waiters { dispatch.new.waiters ≡ dispatch.old.waiters }
{
    refresh(system, dispatch, res);
    completed(system, res, &mut dispatch.state);
}

/// Lets the task that runs on a resource do so for some ticks, after which it is `now`. Answers whether its
/// job ends.
fn serve(
    system: &System,
    trace: &Trace,
    queues: &mut Vec<JobQueue>,
    dispatch: &mut Dispatch,
    res: ResId,
    ticks: u64,
    now: u64,
) -> bool
    requires there { res.0 < length system.now.resources }
    requires can { CanReplay system.now trace.now }
    requires queues { length queues.old.items ≡ length system.now.tasks }
    requires horizon { now ≤ HORIZON }
    requires fits { dispatch.old.gone + ticks ≤ dispatch.old.ticks }
    requires belongs { Belongs system.now res.0 (state_by (kind_of system.now res.0) (runner dispatch.old) (seen dispatch.old.state) (dispatch.old.gone + ticks)) }
    requires waits { (i : ℕ) → runner dispatch.old ≡ Some i → IsWaiting system.now res.0 (waiting queues.old.items) i }
    ensures count { length queues.new.items ≡ length system.now.tasks }
    ensures queues { (i : ℕ) → queue_at queues.new.items i ≡ served_queue (need system.now trace.now i) (runs_at dispatch.old i) ticks now (queue_at queues.old.items i) }
    ensures served { IsServed system.now res.0 queues.old.items ticks dispatch.old dispatch.new }
    ensures ends { result ≡ dispatch.new.ends }
{
    dispatch.gone += ticks;
    match dispatch.running {
        None => {
            dispatch.ends = false;
            false
        }
        Some(task) => {
            let queue = &mut queues[task.0 as usize];
            let ends = work(system, trace, task, queue, ticks, now);
            dispatch.ends = ends;
            if ends {
                complete(system, dispatch, res);
            }
            ends
        }
    }
}

/// A set with a resource more, if that is to be a member.
fn with_if(set: ResSet, res: ResId, member: bool) -> ResSet
    requires { res.0 < 128 }
    ensures { (r : ℕ) → holds result r ≡ ((r == res.0 && member) || holds set r) }
{
    if member { set.with(res) } else { set }
}

/// Lets each task that runs do so for some ticks, after which it is `now`. Answers the resources on which
/// a job ends.
pub(crate) fn serve_all(
    system: &System,
    trace: &Trace,
    queues: &mut Vec<JobQueue>,
    dispatches: &mut Vec<Dispatch>,
    ticks: u64,
    now: u64,
) -> ResSet
    requires can { CanReplay system.now trace.now }
    requires queues { length queues.old.items ≡ length system.now.tasks }
    requires dispatches { length dispatches.old.items ≡ length system.now.resources }
    requires horizon { now ≤ HORIZON }
    requires fits { (r : ℕ) → r < length system.now.resources → (dispatch_at dispatches.old.items r).gone + ticks ≤ (dispatch_at dispatches.old.items r).ticks }
    requires belongs { (r : ℕ) → r < length system.now.resources → Belongs system.now r (state_by (kind_of system.now r) (runner (dispatch_at dispatches.old.items r)) (seen (dispatch_at dispatches.old.items r).state) ((dispatch_at dispatches.old.items r).gone + ticks)) }
    requires waits { (r i : ℕ) → r < length system.now.resources → runner (dispatch_at dispatches.old.items r) ≡ Some i → IsWaiting system.now r (waiting queues.old.items) i }
    requires placed { (i : ℕ) → i < length system.now.tasks → (task_at system.now i).res.0 < length system.now.resources }
    ensures count { length queues.new.items ≡ length system.now.tasks }
    ensures count_dispatches { length dispatches.new.items ≡ length system.now.resources }
    ensures queues { (i : ℕ) → i < length system.now.tasks → queue_at queues.new.items i ≡ served_queue (need system.now trace.now i) (runs_at (dispatch_at dispatches.old.items (task_at system.now i).res.0) i) ticks now (queue_at queues.old.items i) }
    ensures served { (r : ℕ) → r < length system.now.resources → IsServed system.now r queues.old.items ticks (dispatch_at dispatches.old.items r) (dispatch_at dispatches.new.items r) }
    ensures ended { AreEnding dispatches.new.items result }
{
    system.has_rules();
    let mut ended = ResSet::none();
    for (k, dispatch) in dispatches.iter_mut().enumerate() {
        let res = ResId(k as u32);
        let ends = serve(system, trace, queues, dispatch, res, ticks, now);
        ended = with_if(ended, res, ends);
    }
    ended
}

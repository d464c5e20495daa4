//! A resource that is followed along a run, with the end of each segment as it starts. Times are in ticks.

ghost use Rattle.std.specs.Prelude.{◌≡◌, ◌<◌, ◌≤◌, ◌+◌, ℕ, length, Some, IfOk};
ghost use Rattle.std.specs.Option.{ForSome, option_to_list};
ghost use Rattle.cpa_sim.specs.Outcome.{CanReplay, end_of};
ghost use Rattle.cpa_sim.specs.Served.{served_at};
ghost use Rattle.cpa_audit.specs.Segments.{is_job, segment_at, stop_of};
ghost use Rattle.cpa_segments.specs.Tracking.{IsAhead, IsTracking};

use cpa_audit::Segment;
use cpa_model::System;
use cpa_sim::{Replay, Served};
use cpa_trace::Trace;
use cpa_units::{NoMemory, ResId};
use std::alloc::Global;

/// A resource that is followed: who got its last tick, and a replay of its own, which is ahead of the run up
/// to the end of the resource's last segment. `since` is the moment before that replay's time.
#[derive(Drop)]
pub(crate) struct SegmentTracker<'a> {
    pub(crate) last: Option<Served>,
    pub(crate) replay: Replay<'a>,
    pub(crate) since: u64,
}

impl<'a> SegmentTracker<'a> {
    /// At tick 0. The condition on the trace is that of `Replay::start`.
    pub(crate) fn start(
        alloc: Global,
        system: &'a System,
        trace: &'a Trace,
    ) -> Result<SegmentTracker<'a>, NoMemory>
        requires { CanReplay system.now trace.now }
        ensures { (r : ℕ) → IfOk result (λ f. IsTracking system.now trace.now r 0 f) }
    {
        system.has_rules();
        let replay = Replay::start(alloc, system, trace)?;
        Ok(SegmentTracker {
            last: None,
            replay,
            since: 0,
        })
    }

    /// Takes the replay to its next moment.
    fn advance(&mut self)
        requires ahead { IsAhead self.old.replay.system self.old.replay.trace self.old }
        requires more { self.old.replay.time < end_of self.old.replay.system self.old.replay.trace }
        ensures ahead { IsAhead self.old.replay.system self.old.replay.trace self.new }
        ensures since { self.new.since ≡ self.old.replay.time }
        ensures later { self.old.replay.time < self.new.replay.time }
        ensures last { self.new.last ≡ self.old.last }
    {
        self.since = self.replay.time();
        self.replay.advance();
    }
}

/// Whether it is this job that ran.
fn is_job(ran: Option<Served>, job: Served) -> bool
    ensures { result ≡ is_job ran job }
{
    match ran {
        None => false,
        Some(other) => other.task.0 == job.task.0 && other.job == job.job,
    }
}

/// Takes the replay past a tick, and no further than to the moment after it.
fn catch_up(tracker: &mut SegmentTracker<'_>, time: u64)
    requires ahead { IsAhead tracker.old.replay.system tracker.old.replay.trace tracker.old }
    requires within { time < end_of tracker.old.replay.system tracker.old.replay.trace }
    requires behind { tracker.old.since ≤ time }
    ensures ahead { IsAhead tracker.old.replay.system tracker.old.replay.trace tracker.new }
    ensures past { time < tracker.new.replay.time }
    ensures behind { tracker.new.since ≤ time }
    ensures last { tracker.new.last ≡ tracker.old.last }
{
    'behind: while tracker.replay.time() <= time {
        tracker.advance();
    }
}

/// Where the segment of a job stops that gets the tick at its start.
fn find_segment_end(tracker: &mut SegmentTracker<'_>, res: ResId, job: Served, start: u64) -> u64
    requires there { res.0 < length tracker.old.replay.system.resources }
    requires ahead { IsAhead tracker.old.replay.system tracker.old.replay.trace tracker.old }
    requires within { start < end_of tracker.old.replay.system tracker.old.replay.trace }
    requires behind { tracker.old.since ≤ start }
    requires gets { served_at tracker.old.replay.system tracker.old.replay.trace start res.0 ≡ Some job }
    ensures stop { result ≡ stop_of tracker.old.replay.system tracker.old.replay.trace res.0 job start }
    ensures ahead { IsAhead tracker.old.replay.system tracker.old.replay.trace tracker.new }
    ensures goes { (u : ℕ) → start ≤ u → u < tracker.new.since → served_at tracker.old.replay.system tracker.old.replay.trace u res.0 ≡ Some job }
    ensures last { tracker.new.last ≡ tracker.old.last }
{
    catch_up(tracker, start);
    'going: while is_job(tracker.replay.ran(res), job) {
        if !tracker.replay.goes_on() {
            return tracker.replay.time();
        }
        tracker.advance();
    }
    tracker.since
}

/// Follows a resource over a tick, which this job gets: the segment that it starts with it, if it starts one.
pub(crate) fn follow(
    tracker: &mut SegmentTracker<'_>,
    res: ResId,
    ran: Option<Served>,
    time: u64,
) -> Option<Segment>
    requires there { res.0 < length tracker.old.replay.system.resources }
    requires within { time < end_of tracker.old.replay.system tracker.old.replay.trace }
    requires served { served_at tracker.old.replay.system tracker.old.replay.trace time res.0 ≡ ran }
    requires tracking { IsTracking tracker.old.replay.system tracker.old.replay.trace res.0 time tracker.old }
    ensures tracking { IsTracking tracker.old.replay.system tracker.old.replay.trace res.0 (time + 1) tracker.new }
    ensures starts { option_to_list result ≡ segment_at tracker.old.replay.system tracker.old.replay.trace time res.0 }
    ensures task { ForSome result (λ seg. seg.task.0 < length tracker.old.replay.system.tasks) }
{
    let was = tracker.last;
    tracker.last = ran;
    let job = ran?;
    if is_job(was, job) {
        return None;
    }
    Some(Segment {
        task: job.task,
        start: time,
        end: find_segment_end(tracker, res, job, time),
    })
}

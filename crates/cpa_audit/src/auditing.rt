//! The audit: along a run, with one open segment per resource. Times are in ticks.

ghost use Rattle.std.specs.Prelude.{◌≡◌, ◌<◌, ◌≤◌, ◌+◌, ◌^◌, ℕ, length, replicate, None, if◌then◌else◌, IfOk};
ghost use Rattle.std.specs.List.{list_any};
ghost use Rattle.std.specs.Option.{ForSome};
ghost use Rattle.cpa_sim.specs.Outcome.{CanReplay, end_of};
ghost use Rattle.cpa_audit.specs.Compared.{IsFollowed};
ghost use Rattle.cpa_audit.specs.Firsts.{IsFirst};
ghost use Rattle.cpa_audit.specs.Segments.{same_job, segments};
ghost use Rattle.cpa_audit.specs.AuditText.{NamesTasks};
ghost use Rattle.cpa_audit.specs.Findings.{same_segment, finding_of};
ghost use Rattle.cpa_audit.specs.Auditing.{goes_on, opened, count_of, earlier, compared, closed, found, open_at, put, going_after, first_after, count_after, lies_before, is_settled};

use crate::finding::Finding;
use crate::schedule::{Schedule, Segment};
use cpa_model::System;
use cpa_sim::{Replay, Served};
use cpa_trace::Trace;
use cpa_units::{NoMemory, ResId};
use std::alloc::Global;

/// A segment that goes on: its job, its start, and its place among all segments.
#[derive(Clone, Copy)]
pub(crate) struct Open {
    pub(crate) job: Served,
    pub(crate) start: u64,
    pub(crate) place: u64,
}

/// A place, counted from 0, at which the schedule hasn't the segment that is expected there.
#[derive(Clone, Copy)]
pub(crate) struct Difference {
    pub(crate) place: u64,
    pub(crate) expected: Segment,
}

/// How far the run's segments were compared: the one that goes on on each resource, how many have
/// started, and the first that differs of those that have ended.
#[derive(Drop)]
struct SoFar {
    opens: Vec<Option<Open>>,
    count: u64,
    first: Option<Difference>,
}

/// Whether two segments are the same.
fn is_same(a: Segment, b: Segment) -> bool
    ensures { result ≡ same_segment a b }
{
    a.task.0 == b.task.0 && a.start == b.start && a.end == b.end
}

/// Whether the job of an open segment goes on.
fn goes_on(going: Option<Open>, ran: Option<Served>) -> bool
    ensures { result ≡ goes_on going ran }
{
    match (going, ran) {
        (Some(open), Some(job)) => job.task.0 == open.job.task.0 && job.job == open.job.job,
        _ => false,
    }
}

/// The segment that starts where a job gets the ticks from a time on.
fn opened(ran: Option<Served>, time: u64, count: u64) -> Option<Open>
    ensures { result ≡ opened ran time count }
{
    match ran {
        None => None,
        Some(job) => Some(Open {
            job,
            start: time,
            place: count,
        }),
    }
}

/// How many segments start then.
fn count_of(ran: Option<Served>) -> u64
    ensures value { result ≡ count_of ran }
    ensures small { result ≤ 1 }
{
    match ran {
        None => 0,
        Some(_) => 1,
    }
}

/// The earlier of two differences.
fn earlier(first: Option<Difference>, other: Difference) -> Difference
    ensures { result ≡ earlier first other }
{
    match first {
        Some(first) if first.place <= other.place => first,
        _ => other,
    }
}

/// The first difference so far, once a segment's end is known.
fn compared(
    schedule: &Schedule,
    first: Option<Difference>,
    place: u64,
    expected: Segment,
) -> Option<Difference>
    ensures { result ≡ compared schedule.now first place expected }
{
    if place < u64::from(schedule.len()) && is_same(schedule.get(place as u32), expected) {
        return first;
    }
    Some(earlier(first, Difference { place, expected }))
}

/// The first difference so far, once an open segment has ended.
fn closed(
    schedule: &Schedule,
    first: Option<Difference>,
    going: Option<Open>,
    time: u64,
) -> Option<Difference>
    ensures { result ≡ closed schedule.now first going time }
{
    match going {
        None => first,
        Some(open) => {
            let expected = Segment {
                task: open.job.task,
                start: open.start,
                end: time,
            };
            compared(schedule, first, open.place, expected)
        }
    }
}

/// A resource's job from a time on: the segment before ends, and a new one starts, where it is another.
fn follow(schedule: &Schedule, so_far: &mut SoFar, res: ResId, ran: Option<Served>, time: u64)
    requires there { res.0 < length so_far.old.opens.items }
    requires few { so_far.old.count < 2 ^ 40 }
    ensures long { length so_far.new.opens.items ≡ length so_far.old.opens.items }
    ensures opens { (r : ℕ) → open_at so_far.new.opens.items r ≡ put (open_at so_far.old.opens.items) res.0 (going_after (open_at so_far.old.opens.items res.0) ran time so_far.old.count) r }
    ensures first { so_far.new.first ≡ first_after schedule.now so_far.old.first (open_at so_far.old.opens.items res.0) ran time }
    ensures count { so_far.new.count ≡ so_far.old.count + count_after (open_at so_far.old.opens.items res.0) ran }
{
    let going = so_far.opens[res.0 as usize];
    if goes_on(going, ran) {
        return;
    }
    so_far.first = closed(schedule, so_far.first, going, time);
    so_far.opens[res.0 as usize] = opened(ran, time, so_far.count);
    so_far.count += count_of(ran);
}

/// Nothing compared so far.
fn start(alloc: Global, system: &System) -> Result<SoFar, NoMemory>
    ensures opens { IfOk result (λ a. a.opens.items ≡ replicate (length system.now.resources) None) }
    ensures count { IfOk result (λ a. a.count ≡ 0) }
    ensures first { IfOk result (λ a. a.first ≡ None) }
{
    let opens = vec![in alloc; None; system.resources() as usize]?;
    Ok(SoFar {
        opens,
        count: 0,
        first: None,
    })
}

/// What is found at the end.
fn found(schedule: &Schedule, count: u64, first: Option<Difference>) -> Finding
    requires { ForSome first (λ d. d.place ≤ length schedule.now) }
    ensures { result ≡ found schedule.now count first }
{
    let given = u64::from(schedule.len());
    match first {
        Some(first) => Finding::Wrong {
            segment: first.place as u32 + 1,
            expected: Some(first.expected),
        },
        None if count < given => Finding::Wrong {
            segment: count as u32 + 1,
            expected: None,
        },
        None => Finding::Same,
    }
}

/// All resources are followed over the ticks that a run has passed since a time.
fn follow_all(
    system: &System,
    trace: &Trace,
    schedule: &Schedule,
    so_far: &mut SoFar,
    replay: &Replay<'_>,
    time: u64,
)
    requires system { replay.now.system ≡ system.now }
    requires trace { replay.now.trace ≡ trace.now }
    requires since { replay.now.since ≡ time }
    requires later { time < replay.now.time }
    requires within { replay.now.time ≤ end_of system.now trace.now }
    requires followed { IsFollowed system.now trace.now schedule.now 0 time time so_far.old.opens.items so_far.old.count so_far.old.first }
    ensures { IsFollowed system.now trace.now schedule.now 0 replay.now.time replay.now.time so_far.new.opens.items so_far.new.count so_far.new.first }
{
    for k in 0..system.resources() {
        let ran = replay.ran(ResId(k));
        follow(schedule, so_far, ResId(k), ran, time);
    }
}

/// At the end of the run all segments end.
fn close_all(system: &System, trace: &Trace, schedule: &Schedule, so_far: &mut SoFar, end: u64)
    requires end { end ≡ end_of system.now trace.now }
    requires few { so_far.old.count < 2 ^ 39 }
    requires followed { IsFollowed system.now trace.now schedule.now 0 end end so_far.old.opens.items so_far.old.count so_far.old.first }
    ensures count { so_far.new.count ≡ so_far.old.count }
    ensures first { IsFirst schedule.now (segments system.now trace.now) so_far.new.first }
{
    for k in 0..system.resources() {
        follow(schedule, so_far, ResId(k), None, end);
    }
}

/// Whether a segment that goes on lies before a place.
fn lies_before(going: Option<Open>, place: u64) -> bool
    ensures { result ≡ lies_before place going }
{
    match going {
        None => false,
        Some(open) => open.place < place,
    }
}

/// Whether one of the segments that go on lies before a place.
fn some_before(opens: &[Option<Open>], place: u64) -> bool
    ensures { result ≡ list_any (lies_before place) opens.now }
{
    for &going in opens {
        if lies_before(going, place) {
            return true;
        }
    }
    false
}

/// Whether the first difference of all is known: no segment that goes on lies before the first so far.
fn is_settled(so_far: &SoFar) -> bool
    ensures { result ≡ is_settled so_far.now.opens.items so_far.now.first }
{
    match so_far.first {
        None => false,
        Some(first) => !some_before(so_far.opens.as_slice(), first.place),
    }
}

/// What there is to say of a schedule, beside the segments of the run of a trace, which is followed no
/// further than to where the first difference is known. The condition on the trace is that of `replay`.
/// Memory is wanted at its start alone, for the resources and tasks of the system, however many jobs the
/// run has.
pub fn audit(
    alloc: Global,
    system: &System,
    trace: &Trace,
    schedule: &Schedule,
) -> Result<Finding, NoMemory>
    requires { CanReplay system.now trace.now }
    ensures finding { IfOk result (λ f. f ≡ finding_of schedule.now (segments system.now trace.now)) }
    ensures names { IfOk result (λ f. NamesTasks system.now f) }
{
    system.has_rules();
    let mut replay = Replay::start(alloc, system, trace)?;
    let mut so_far = start(alloc, system)?;
    'moments: while replay.goes_on() {
        let time = replay.time();
        replay.advance();
        follow_all(system, trace, schedule, &mut so_far, &replay, time);
        if is_settled(&so_far) {
            return Ok(found(schedule, so_far.count, so_far.first));
        }
    }
    close_all(system, trace, schedule, &mut so_far, replay.time());
    Ok(found(schedule, so_far.count, so_far.first))
}

//! The events of sources, as time goes by. Times are in ticks.

ghost use Rattle.std.specs.Prelude.{◌≡◌, ◌<◌, ◌≤◌, ◌+◌, ◌-◌, ℕ, length, nat_lt, nat_le};
ghost use Rattle.std.specs.List.{list_any, range_with_len};
ghost use Rattle.cpa_units.specs.declared.limits.TheConstants.{HORIZON, MAX_TRACE_TIME};
ghost use Rattle.cpa_model.specs.Rules.{IsSystem};
ghost use Rattle.cpa_trace.specs.Trace.{times_of, time_of};
ghost use Rattle.cpa_sim.specs.SourceCursors.{IsPassed, IsAhead};
ghost use Rattle.cpa_sim.specs.Run.{events_at};
ghost use Rattle.cpa_sim.specs.Outcome.{CanReplay, events_from};

use cpa_model::System;
use cpa_trace::Trace;
use cpa_units::SourceId;
use cpa_units::limits::HORIZON;

/// How far a source's events have passed.
#[derive(Clone, Copy)]
pub(crate) struct SourceCursor {
    /// The first event that is still to come.
    pub(crate) next: u64,
    /// Before this time it doesn't come.
    pub(crate) time: u64,
}

/// A time that no run reaches.
pub(crate) const NEVER: u64 = HORIZON + 1;

/// Lets the events of a source pass that come now. Answers the first event after them.
pub(crate) fn pass(trace: &Trace, source: SourceId, next: u64, now: u64) -> u64
    requires there { source.0 < length trace.now.times }
    requires ahead { IsAhead (times_of trace.now source.0) now next }
    ensures fresh { events_at trace.now source.0 now ≡ range_with_len next (result - next) }
    ensures later { next ≤ result }
    ensures passed { IsPassed (times_of trace.now source.0) now result }
{
    let events = trace.events(source);
    let mut at = next;
    'events: while at < events && trace.time(source, at) == now {
        at += 1;
    }
    at
}

/// When the next event of a source comes, or else a time that no run reaches.
pub(crate) fn next_time(trace: &Trace, source: SourceId, next: u64, now: u64) -> u64
    requires there { source.0 < length trace.now.times }
    requires passed { IsPassed (times_of trace.now source.0) now next }
    requires horizon { now ≤ HORIZON }
    ensures later { now < result }
    ensures ahead { IsAhead (times_of trace.now source.0) result next }
{
    if next < trace.events(source) {
        trace.time(source, next)
    } else {
        NEVER
    }
}

/// The first time from which on no event of a source comes.
fn after_last(trace: &Trace, source: SourceId) -> u64
    requires there { source.0 < length trace.now.times }
    requires times { (n : ℕ) → n < length (times_of trace.now source.0) → time_of trace.now source.0 n ≤ MAX_TRACE_TIME }
    ensures value { (t : ℕ) → list_any (λ time. nat_le t time) (times_of trace.now source.0) ≡ nat_lt t result }
    ensures small { result ≤ MAX_TRACE_TIME + 1 }
{
    let events = trace.events(source);
    if events == 0 {
        0
    } else {
        trace.time(source, events - 1) + 1
    }
}

/// The first time from which on no event comes.
pub(crate) fn quiet_from(system: &System, trace: &Trace) -> u64
    requires { CanReplay system.now trace.now }
    ensures value { (t : ℕ) → events_from trace.now t ≡ nat_lt t result }
    ensures small { result ≤ MAX_TRACE_TIME + 1 }
    ensures rules { IsSystem system.now }
{
    let mut quiet = 0u64;
    for k in 0..system.sources() {
        quiet = quiet.max(after_last(trace, SourceId(k)));
    }
    quiet
}

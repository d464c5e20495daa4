//! Streams with offsets on a clock.

ghost use Rattle.std.specs.Prelude.{◌≡◌, ◌+◌, ◌%◌, ◌<◌, ◌≤◌};
ghost use Rattle.cpa_units.specs.Numbers.{IsExecution};
ghost use Rattle.cpa_phase.specs.Streams.{phase_at, phased_from, sent_on, IsPlaced, IsPhased};

use crate::phased::Phased;
use cpa_events::{MAX_MODEL_JITTER, Stream};
use cpa_units::limits::{MAX_EXECUTION, MAX_LIMIT};

/// The greatest offset of a stream, in ticks: that of a source, and what the tasks of a chain add.
pub const MAX_OFFSET: u64 = 2_000_000_000;

/// The most streams of one clock that the tasks of a resource have: 32 for each of 8,192 tasks.
pub const MAX_PLACED: usize = 262_144;

/// A stream on a clock: event m comes from `offset + m * period` to that and the jitter after the
/// clock's start. `worst` is how long the task that it starts takes for each at most.
#[derive(Clone, Copy, Debug)]
pub struct Placed {
    pub stream: Stream,
    pub offset: u64,
    pub worst: u64,
}

impl Placed {
    /// How long after the moment x the next moment is at which an event comes as late as it can.
    #[inline(always)]
    pub fn phase(&self, x: u64) -> u64
        requires placed { IsPlaced self.now }
        ensures value { result ≡ phase_at self.now x }
        ensures less { result < self.now.stream.period }
    {
        let period = self.stream.period;
        let to = rest(self.offset + self.stream.jitter, period);
        let from = rest(x, period);
        if from <= to {
            to - from
        } else {
            to + period - from
        }
    }

    /// The stream of a task's completions, where its jobs come by this one, each is done after `best` to `bound`
    /// ticks, and the task that they start takes so long.
    pub fn sent_on(&self, best: u64, bound: u64, worst: u64) -> Placed
        requires placed { IsPlaced self.now }
        requires best { IsExecution best }
        requires order { best ≤ bound }
        requires bound { bound ≤ MAX_LIMIT }
        requires worst { worst ≤ MAX_EXECUTION }
        requires jitter { self.now.stream.jitter + bound ≤ MAX_MODEL_JITTER }
        requires offset { self.now.offset + best ≤ MAX_OFFSET }
        ensures value { result ≡ sent_on best bound worst self.now }
        ensures in_range { IsPlaced result }
    {
        Placed {
            stream: self.stream.after_response(best, bound),
            offset: self.offset + best,
            worst,
        }
    }

    /// The stream as a window sees it that starts at x.
    #[inline(always)]
    pub fn phased_from(&self, x: u64) -> Phased
        requires placed { IsPlaced self.now }
        ensures value { result ≡ phased_from x self.now }
        ensures in_range { IsPhased result }
    {
        Phased {
            stream: self.stream,
            phase: self.phase(x),
            worst: self.worst,
        }
    }
}

/// What is left of x but for whole periods. Most moments are within the first two, and need no division.
#[inline(always)]
fn rest(x: u64, period: u64) -> u64
    requires { 0 < period }
    ensures value { result ≡ x % period }
    ensures less { result < period }
{
    if x < period {
        return x;
    }
    if x - period < period {
        x - period
    } else {
        x % period
    }
}

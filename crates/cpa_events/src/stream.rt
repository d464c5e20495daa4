//! One stream of events.

ghost use Rattle.std.specs.Prelude.{◌≡◌, ℕ, ◌-◌, ◌+◌, ◌*◌, ◌^◌, ◌≤◌};
ghost use Rattle.cpa_units.specs.Numbers.{IsExecution};
ghost use Rattle.cpa_units.specs.declared.limits.TheConstants.{MAX_EXECUTION};
ghost use Rattle.cpa_events.specs.Streams.{stream_delta_minus, stream_delta_plus, stream_eta_plus, stream_after_response, stream_later, IsStreamInRange};

use cpa_units::limits::{MAX_LIMIT, MAX_PERIOD};

/// The greatest jitter of a stream, in ticks: that of a source, and what the tasks of a chain add.
pub const MAX_MODEL_JITTER: u64 = 4_200_000_000;

/// A stream of events, in ticks.
#[derive(Clone, Copy, Debug, PartialEq, Eq)]
pub struct Stream {
    /// One event comes in each period on average; from 1 to a thousand million.
    pub period: u64,
    /// By how much an event may come late; at most 4.2 thousand million.
    pub jitter: u64,
    /// Any two events are at least so far apart; at most a thousand million, 0 where they needn't be.
    pub distance: u64,
}

impl Stream {
    /// The most events in any window of `delta` ticks, whose end does not count: the greatest n
    /// with `delta_minus(n)` below `delta`.
    #[inline(always)]
    pub fn eta_plus(&self, delta: u64) -> u64
        requires stream { IsStreamInRange self.now }
        requires window { delta ≤ 2 ^ 63 }
        ensures { result ≡ stream_eta_plus self.now delta }
    {
        if delta == 0 {
            return 0;
        }
        let by_period = (delta + self.jitter).div_ceil(self.period);
        if self.distance == 0 {
            by_period
        } else {
            by_period.min(delta.div_ceil(self.distance))
        }
    }

    /// The least time from the first to the last of n events in a row, in ticks.
    #[inline(always)]
    pub fn delta_minus(&self, n: u64) -> u64
        requires stream { IsStreamInRange self.now }
        requires events { n ≤ 2 ^ 33 }
        ensures value { result ≡ stream_delta_minus self.now n }
        ensures small { result ≤ 2 ^ 33 * MAX_PERIOD }
    {
        if n == 0 {
            return 0;
        }
        let gaps = n - 1;
        (gaps * self.distance).max((gaps * self.period).saturating_sub(self.jitter))
    }

    /// Up to which length windows have no more events than one of `delta` ticks: when the next event
    /// can come.
    #[inline(always)]
    pub fn constant_until(&self, delta: u64) -> u64
        requires stream { IsStreamInRange self.now }
        requires window { delta ≤ 2 ^ 31 }
        ensures { (w : ℕ) → delta ≤ w → w ≤ result → stream_eta_plus self.now w ≡ stream_eta_plus self.now delta }
    {
        self.delta_minus(self.eta_plus(delta) + 1)
    }

    /// The greatest time from the first to the last of n events in a row, in ticks.
    pub fn delta_plus(&self, n: u64) -> u64
        requires stream { IsStreamInRange self.now }
        requires events { n ≤ 2 ^ 33 }
        ensures { result ≡ stream_delta_plus self.now n }
    {
        if n < 2 {
            return 0;
        }
        (n - 1) * self.period + self.jitter
    }

    /// The stream of a task's completions, where its jobs come by this one and each is done after
    /// `best` to `bound` ticks.
    pub fn after_response(&self, best: u64, bound: u64) -> Stream
        requires stream { IsStreamInRange self.now }
        requires best { IsExecution best }
        requires order { best ≤ bound }
        requires bound { bound ≤ MAX_LIMIT }
        requires room { self.now.jitter + bound ≤ MAX_MODEL_JITTER }
        ensures value { result ≡ stream_after_response best bound self.now }
        ensures in_range { IsStreamInRange result }
    {
        let late = bound - best;
        Stream {
            period: self.period,
            jitter: self.jitter + late,
            distance: self.distance.saturating_sub(late).max(best),
        }
    }
    /// The stream of the completions of the last of several tasks in a row, where their responses may
    /// vary by `late` ticks in all, and none is sooner than `least` ticks after the one before.
    pub fn later(&self, late: u64, least: u64) -> Stream
        requires stream { IsStreamInRange self.now }
        requires late { late ≤ MAX_MODEL_JITTER }
        requires least { least ≤ MAX_EXECUTION }
        requires room { self.now.jitter + late ≤ MAX_MODEL_JITTER }
        ensures value { result ≡ stream_later late least self.now }
        ensures in_range { IsStreamInRange result }
    {
        Stream {
            period: self.period,
            jitter: self.jitter + late,
            distance: self.distance.saturating_sub(late).max(least),
        }
    }
}

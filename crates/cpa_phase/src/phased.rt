//! Streams as a window sees them that starts at some moment of their clock.

ghost use Rattle.std.specs.Prelude.{◌≡◌, ◌+◌, ◌*◌, ◌^◌, ◌<◌, ◌≤◌, map, OnOk};
ghost use Rattle.cpa_phase.specs.Phases.{earliest_arrival, arrivals, by_period};
ghost use Rattle.cpa_phase.specs.Streams.{phased_from, phased_work, IsPhased, ArePlaced, ArePhased};

use crate::placed::Placed;
use cpa_events::Stream;
use cpa_units::NoMemory;
use cpa_units::limits::{MAX_BIT, MAX_LIMIT};

/// A stream from the start of a window on. `phase` is how long after the start the next moment is at which an event comes
/// as late as it can, and `worst` is how long the task that it starts takes for each event at most.
#[derive(Clone, Copy, Debug)]
pub struct Phased {
    pub stream: Stream,
    pub phase: u64,
    pub worst: u64,
}

impl Phased {
    /// How long after the start n events can have come at the earliest.
    #[inline(always)]
    pub fn earliest_arrival(&self, n: u64) -> u64
        requires phased { IsPhased self.now }
        requires events { n ≤ 2 ^ 33 }
        ensures { result ≡ earliest_arrival self.now.stream self.now.phase n }
    {
        if n == 0 {
            return 0;
        }
        let gaps = n - 1;
        let nominal = self.phase + gaps * self.stream.period;
        (gaps * self.stream.distance).max(nominal.saturating_sub(self.stream.jitter))
    }

    /// The most events in a window of so many ticks, whose end does not count.
    #[inline(always)]
    pub fn arrivals(&self, window: u64) -> u64
        requires phased { IsPhased self.now }
        requires window { window ≤ 2 ^ 32 }
        ensures value { result ≡ arrivals self.now.stream self.now.phase window }
        ensures small { result ≤ 2 ^ 33 }
    {
        if window == 0 {
            return 0;
        }
        let by_period = self.by_period(window);
        if by_period <= 1 {
            return by_period;
        }
        if self.stream.distance == 0 {
            by_period
        } else {
            by_period.min(window.div_ceil(self.stream.distance))
        }
    }

    /// As many whole periods, and parts of one, as the window has from the phase on. Most windows have one at
    /// most, and need no division.
    #[inline(always)]
    fn by_period(&self, window: u64) -> u64
        requires phased { IsPhased self.now }
        requires window { window ≤ 2 ^ 32 }
        ensures value { result ≡ by_period self.now.stream self.now.phase window }
        ensures small { result ≤ 2 ^ 33 }
    {
        let reach = window + self.stream.jitter;
        if reach <= self.phase {
            0
        } else if reach - self.phase <= self.stream.period {
            1
        } else {
            (reach - self.phase).div_ceil(self.stream.period)
        }
    }

    /// The work of those events.
    #[inline(always)]
    pub fn work(&self, window: u64) -> u64
        requires phased { IsPhased self.now }
        requires window { window ≤ 2 ^ 32 }
        ensures value { result ≡ arrivals self.now.stream self.now.phase window * self.now.worst }
        ensures small { result ≤ 2 ^ 57 }
    {
        self.arrivals(window) * self.worst
    }
}

/// The streams of a clock as a window sees them that starts at x, in place of what `phased` has.
pub fn put_phased(phased: &mut Vec<Phased>, streams: &[Placed], x: u64) -> Result<(), NoMemory>
    requires { ArePlaced streams.now }
    ensures { OnOk result (phased.new.items ≡ map (phased_from x) streams.now) }
{
    phased.clear();
    for stream in streams {
        phased.push(stream.phased_from(x))?;
    }
    Ok(())
}

/// The work of streams from the start of a window on.
#[inline(always)]
pub fn phased_work(phased: &[Phased], window: u64) -> u128
    requires phased { ArePhased phased.now }
    requires window { window ≤ MAX_LIMIT + MAX_BIT }
    ensures value { result ≡ phased_work phased.now window }
    ensures small { result ≤ 2 ^ 75 }
{
    let mut total = 0;
    for stream in phased {
        total += u128::from(stream.work(window));
    }
    total
}

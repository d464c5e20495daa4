//! Clocks that a task isn't on.

ghost use Rattle.std.specs.Prelude.{◌≡◌, ◌^◌, ◌≤◌, ◌+◌};
ghost use Rattle.cpa_phase.specs.Streams.{work_from, ArePlaced, IsPlacedOn};
ghost use Rattle.cpa_phase.specs.Clocks.{clock_work, clocks_work, IsClock, AreClocks, IsMostFromCandidates};

use crate::placed::Placed;
use cpa_units::limits::{MAX_BIT, MAX_LIMIT};

/// The streams of a clock, each of which repeats after a period that divides the cycle.
#[derive(Debug, Drop)]
pub struct Clock {
    pub cycle: u64,
    pub streams: Vec<Placed>,
}

/// The work of some streams of one clock in a window that starts at x.
#[inline(always)]
pub fn work_from(streams: &[Placed], x: u64, window: u64) -> u128
    requires streams { ArePlaced streams.now }
    requires window { window ≤ MAX_LIMIT + MAX_BIT }
    ensures value { result ≡ work_from streams.now x window }
    ensures small { result ≤ 2 ^ 75 }
{
    let mut total = 0;
    for stream in streams {
        total += u128::from(stream.phased_from(x).work(window));
    }
    total
}

/// The most work that the streams of a clock bring in a window, wherever it starts: it is looked at from
/// each candidate of one of them.
pub fn clock_work(clock: &Clock, window: u64) -> u128
    requires clock { IsClock clock.now }
    requires window { window ≤ MAX_LIMIT + MAX_BIT }
    ensures value { result ≡ clock_work clock.now.streams.items clock.now.cycle window }
    ensures small { result ≤ 2 ^ 75 }
{
    let mut most = 0;
    for stream in &clock.streams {
        most = most_from_candidates(clock, stream, window, most);
    }
    most
}

/// The most so far, and from the candidates of one more stream.
fn most_from_candidates(clock: &Clock, stream: &Placed, window: u64, before: u128) -> u128
    requires clock { IsClock clock.now }
    requires stream { IsPlacedOn clock.now.cycle stream.now }
    requires window { window ≤ MAX_LIMIT + MAX_BIT }
    requires before { before ≤ clock_work clock.now.streams.items clock.now.cycle window }
    requires small { before ≤ 2 ^ 75 }
    ensures more { before ≤ result }
    ensures candidates { IsMostFromCandidates clock.now window stream.now result }
    ensures most { result ≤ clock_work clock.now.streams.items clock.now.cycle window }
    ensures small { result ≤ 2 ^ 75 }
{
    let mut most = before;
    let mut x = 1 + stream.phase(1);
    while x <= clock.cycle {
        most = most.max(work_from(&clock.streams, x, window));
        x += stream.stream.period;
    }
    most
}

/// The work of the streams of several clocks, each of which brings the most that it can.
pub fn clocks_work(clocks: &[Clock], window: u64) -> u128
    requires clocks { AreClocks clocks.now }
    requires window { window ≤ MAX_LIMIT + MAX_BIT }
    ensures value { result ≡ clocks_work clocks.now window }
    ensures small { result ≤ 2 ^ 88 }
{
    let mut total = 0;
    for clock in clocks {
        total += clock_work(clock, window);
    }
    total
}

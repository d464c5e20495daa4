//! Where a stream is on a clock.

ghost use Rattle.std.specs.Prelude.{◌≡◌};
ghost use Rattle.cpa_clock.specs.Anchors.{placed_at};

use cpa_events::Stream;
use cpa_phase::Placed;

/// Where a stream is on a clock: its event number n comes from `offset + n * period` after the clock's start to that and
/// its jitter.
#[derive(Clone, Copy, Debug, PartialEq, Eq)]
pub struct Anchor {
    /// The number of the clock.
    pub clock: u32,
    /// In ticks.
    pub offset: u64,
}

/// A stream on a clock, and how long the task that it starts takes for each event at most.
pub(crate) fn placed_at(stream: Stream, anchor: Anchor, worst: u64) -> Placed
    ensures { result ≡ placed_at stream anchor worst }
{
    Placed {
        stream,
        offset: anchor.offset,
        worst,
    }
}

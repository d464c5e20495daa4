//! Streams as models keep them.

ghost use Rattle.std.specs.Prelude.{◌≡◌};
ghost use Rattle.cpa_events.specs.Streams.{IsStreamInRange};

use crate::stream::Stream;

/// A stream in range, whose numbers fit 32 bits each. Contracts see the stream.
#[derive(Clone, Copy, Debug)]
pub(crate) struct CompactStream {
    period: u32,
    jitter: u32,
    distance: u32,
}

impl std::marker::Model for CompactStream {
    ghost use Rattle.cpa_events.specs.declared.stream.Stream.{Stream};

    ghost Value = { Stream };

    ghost view = { λ k. record { period = k.period; jitter = k.jitter; distance = k.distance } };

    ghost inverse = { λ s. record { period = s.period; jitter = s.jitter; distance = s.distance } };
}

impl CompactStream {
    pub(crate) fn of(stream: Stream) -> CompactStream
        requires { IsStreamInRange stream }
        ensures { result ≡ stream }
    {
        CompactStream {
            period: stream.period as u32,
            jitter: stream.jitter as u32,
            distance: stream.distance as u32,
        }
    }

    /// The stream itself.
    #[inline(always)]
    pub(crate) fn stream(&self) -> Stream
        ensures { result ≡ self.now }
    {
        Stream {
            period: u64::from(self.period),
            jitter: u64::from(self.jitter),
            distance: u64::from(self.distance),
        }
    }
}

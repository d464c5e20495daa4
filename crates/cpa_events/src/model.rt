//! Streams that come side by side.

ghost use Rattle.std.specs.Prelude.{◌≡◌, ℕ, ◌-◌, ◌+◌, ◌*◌, ◌^◌, ◌<◌, ◌≤◌, ◌++◌, [], ◌∷◌, All, length, slice_index_or};
ghost use Rattle.std.specs.Option.{ForSome};
ghost use Rattle.cpa_units.specs.Numbers.{IsExecution};
ghost use Rattle.cpa_units.specs.declared.limits.TheConstants.{MAX_PERIOD};
ghost use Rattle.cpa_events.specs.Streams.{stream_delta_minus, IsStreamInRange};
ghost use Rattle.cpa_events.specs.Events.{delta_minus, delta_plus, eta_plus, after_response, IsModelInRange, HasJitterUpTo};

use crate::MAX_STREAMS;
use crate::compact_stream::CompactStream;
use crate::stream::{MAX_MODEL_JITTER, Stream};
use cpa_units::limits::MAX_LIMIT;

/// How many streams a model has room for: two more than may count. So a rival (`cpa_window`) has 448
/// bytes, seven lines of a cache, and what the walks read of each lies in one line.
const ROOM: usize = 34;

/// A list of 1 to 32 streams. Contracts see that list.
#[derive(Debug, Drop)]
pub struct Model {
    len: u32,
    streams: [CompactStream; ROOM],
}

impl std::marker::Model for Model {
    ghost use Rattle.std.specs.Prelude.{◌≡◌, ◌≤◌, List, length, take};
    ghost use Rattle.cpa_events.specs.declared.stream.Stream.{Stream};

    ghost Value = { List Stream };

    ghost view = { λ m. take m.len m.streams };

    ghost invariant = { λ m. (1 ≤ m.len) × (m.len ≤ 32) × (length m.streams ≡ 34) };
}

impl Model {
    /// The model of one stream.
    pub fn one(stream: Stream) -> Model
        requires { IsStreamInRange stream }
        ensures value { result ≡ stream ∷ [] }
        ensures in_range { IsModelInRange result }
    {
        Model {
            len: 1,
            streams: [CompactStream::of(stream); ROOM],
        }
    }

    /// The same list once more.
    pub fn duplicate(&self) -> Model
        ensures { result ≡ self.now }
    {
        Model {
            len: self.len,
            streams: self.streams,
        }
    }

    /// How many streams there are.
    pub fn len(&self) -> u32
        ensures value { result ≡ length self.now }
        ensures some { 1 ≤ result }
        ensures few { result ≤ MAX_STREAMS }
    {
        self.len
    }

    /// A stream by its place.
    pub fn get(&self, k: u32) -> Stream
        requires { k < length self.now }
        ensures { result ≡ slice_index_or self.now k result }
    {
        self.kept(k).stream()
    }

    /// Adds a stream at the end.
    pub fn push(&mut self, stream: Stream)
        requires stream { IsStreamInRange stream }
        requires room { length self.old < MAX_STREAMS }
        ensures { self.new ≡ self.old ++ stream ∷ [] }
    {
        self.push_kept(CompactStream::of(stream));
    }

    /// Adds the streams of another model at the end.
    pub fn append(&mut self, other: &Model)
        requires { length self.old + length other.now ≤ MAX_STREAMS }
        ensures { self.new ≡ self.old ++ other.now }
    {
        for k in 0..other.len() {
            self.push_kept(other.kept(k));
        }
    }

    /// The most events in any window of `delta` ticks, whose end does not count.
    #[inline(always)]
    pub fn eta_plus(&self, delta: u64) -> u64
        requires model { IsModelInRange self.now }
        requires window { delta ≤ 2 ^ 32 }
        ensures { result ≡ eta_plus self.now delta }
    {
        match self.only() {
            Some(stream) => stream.eta_plus(delta),
            None => events_in(self.streams(), delta) as u64,
        }
    }

    /// The least time from the first to the last of n events in a row, in ticks.
    #[inline(always)]
    pub fn delta_minus(&self, n: u64) -> u64
        requires model { IsModelInRange self.now }
        requires events { n ≤ 2 ^ 33 }
        ensures { result ≡ delta_minus self.now n }
    {
        match self.only() {
            Some(stream) => stream.delta_minus(n),
            None => least_time(self.streams(), n),
        }
    }

    /// Up to which length windows have no more events than one of `delta` ticks: when the next event
    /// can come.
    #[inline(always)]
    #[tactic(auto, unfolding(crate::specs::Events::eta_plus))]
    pub fn constant_until(&self, delta: u64) -> u64
        requires model { IsModelInRange self.now }
        requires window { delta ≤ 2 ^ 31 }
        ensures { (w : ℕ) → delta ≤ w → w ≤ result → eta_plus self.now w ≡ eta_plus self.now delta }
    {
        match self.only() {
            Some(stream) => stream.constant_until(delta),
            None => steady(self.streams(), delta),
        }
    }

    /// The greatest time from the first to the last of n events in a row, in ticks.
    pub fn delta_plus(&self, n: u64) -> u64
        requires model { IsModelInRange self.now }
        requires one { length self.now ≡ 1 }
        requires events { n ≤ 2 ^ 33 }
        ensures { result ≡ delta_plus self.now n }
    {
        self.get(0).delta_plus(n)
    }

    /// The model of a task's completions, where its jobs come by this one and each is done after
    /// `best` to `bound` ticks.
    pub fn after_response(&self, best: u64, bound: u64) -> Model
        requires model { IsModelInRange self.now }
        requires best { IsExecution best }
        requires order { best ≤ bound }
        requires bound { bound ≤ MAX_LIMIT }
        requires room { HasJitterUpTo self.now (MAX_MODEL_JITTER - bound) }
        ensures model { result ≡ after_response self.now best bound }
        ensures in_range { IsModelInRange result }
    {
        let mut sent = self.duplicate();
        sent.set_after_response(self, best, bound);
        sent
    }

    /// Becomes the model of a task's completions, where its jobs come by another one. As with the
    /// two calls below no more is written than the streams that count.
    pub fn set_after_response(&mut self, received: &Model, best: u64, bound: u64)
        requires model { IsModelInRange received.now }
        requires best { IsExecution best }
        requires order { best ≤ bound }
        requires bound { bound ≤ MAX_LIMIT }
        requires room { HasJitterUpTo received.now (MAX_MODEL_JITTER - bound) }
        ensures model { self.new ≡ after_response received.now best bound }
        ensures in_range { IsModelInRange self.new }
    {
        self.set_one(received.get(0).after_response(best, bound));
        for k in 1..received.len() {
            self.push(received.get(k).after_response(best, bound));
        }
    }

    /// Becomes the list of one stream.
    pub fn set_one(&mut self, stream: Stream)
        requires { IsStreamInRange stream }
        ensures value { self.new ≡ stream ∷ [] }
        ensures in_range { IsModelInRange self.new }
    {
        self.begin(CompactStream::of(stream));
    }

    /// Becomes the list of another model.
    pub fn copy_from(&mut self, other: &Model)
        ensures { self.new ≡ other.now }
    {
        let count = other.len();
        self.begin(other.kept(0));
        for k in 1..count {
            self.push_kept(other.kept(k));
        }
    }

    /// The stream of a model that has one.
    #[inline(always)]
    fn only(&self) -> Option<Stream>
        ensures { ForSome result (λ s. self.now ≡ s ∷ []) }
    {
        if self.len == 1 {
            Some(self.streams[0].stream())
        } else {
            None
        }
    }

    /// A stream by its place, as it is kept.
    fn kept(&self, k: u32) -> CompactStream
        requires { k < length self.now }
        ensures { result ≡ slice_index_or self.now k result }
    {
        self.streams[k as usize]
    }

    /// Becomes the list of one stream.
    fn begin(&mut self, stream: CompactStream)
        ensures { self.new ≡ stream ∷ [] }
    {
        self.streams[0] = stream;
        self.len = 1;
    }

    /// Adds a stream, as it is kept, at the end.
    fn push_kept(&mut self, stream: CompactStream)
        requires { length self.old < MAX_STREAMS }
        ensures { self.new ≡ self.old ++ stream ∷ [] }
    {
        self.streams[self.len as usize] = stream;
        self.len += 1;
    }

    fn streams(&self) -> &[CompactStream]
        ensures value { result.now ≡ self.now }
        ensures some { 1 ≤ length result.now }
        ensures few { length result.now ≤ MAX_STREAMS }
    {
        &self.streams[..self.len as usize]
    }
}

/// The most events of all streams in a window of `delta` ticks.
#[cold]
#[inline(never)]
#[tactic(auto, unfolding(crate::specs::Events::eta_plus))]
fn events_in(streams: &[CompactStream], delta: u64) -> u128
    requires streams { IsModelInRange streams.now }
    requires window { delta ≤ 2 ^ 63 }
    ensures { result ≡ eta_plus streams.now delta }
{
    let mut total = 0;
    for stream in streams {
        total += u128::from(stream.stream().eta_plus(delta));
    }
    total
}

/// Up to which length windows have no more events of the streams than one of `delta` ticks.
#[cold]
#[inline(never)]
#[tactic(auto, unfolding(crate::specs::Events::eta_plus))]
fn steady(streams: &[CompactStream], delta: u64) -> u64
    requires streams { IsModelInRange streams.now }
    requires window { delta ≤ 2 ^ 31 }
    ensures { (w : ℕ) → delta ≤ w → w ≤ result → eta_plus streams.now w ≡ eta_plus streams.now delta }
{
    let mut until = u64::MAX;
    for stream in streams {
        until = until.min(stream.stream().constant_until(delta));
    }
    until
}

/// The least time from the first to the last of n events of all streams.
#[cold]
#[inline(never)]
fn least_time(streams: &[CompactStream], n: u64) -> u64
    requires streams { IsModelInRange streams.now }
    requires events { n ≤ 2 ^ 33 }
    ensures { result ≡ delta_minus streams.now n }
{
    least_room(streams, n, least_alone(streams, n))
}

/// The least of the times in which the streams have n events, each alone.
fn least_alone(streams: &[CompactStream], n: u64) -> u64
    requires streams { IsModelInRange streams.now }
    requires events { n ≤ 2 ^ 33 }
    ensures room { n ≤ eta_plus streams.now (result + 1) }
    ensures small { result ≤ 2 ^ 33 * MAX_PERIOD }
{
    let mut least = streams[0].stream().delta_minus(n);
    for stream in streams {
        least = least.min(stream.stream().delta_minus(n));
    }
    least
}

/// The least time whose window, with its end, has room for n events, found by halving; `enough` has.
fn least_room(streams: &[CompactStream], n: u64, enough: u64) -> u64
    requires streams { IsModelInRange streams.now }
    requires room { n ≤ eta_plus streams.now (enough + 1) }
    requires small { enough < 2 ^ 63 }
    ensures { result ≡ delta_minus streams.now n }
{
    let mut low = 0;
    let mut high = enough;
    while low < high {
        let middle = low + (high - low) / 2;
        if events_in(streams, middle + 1) < u128::from(n) {
            low = middle + 1;
        } else {
            high = middle;
        }
    }
    low
}

//! Rivals that are gathered by clocks.

ghost use Rattle.std.specs.Prelude.{◌≡◌, ℕ, ◌+◌, ◌<◌, ◌≤◌, ◌++◌, [], ◌∷◌, None, Some, Option, List, length, OnOk};
ghost use Rattle.std.specs.Option.{ForSome};
ghost use Rattle.cpa_units.specs.declared.limits.TheConstants.{MAX_EXECUTION, MAX_TASKS};
ghost use Rattle.cpa_events.specs.Streams.{IsStreamInRange};
ghost use Rattle.cpa_events.specs.Events.{IsModelInRange};
ghost use Rattle.cpa_phase.specs.declared.placed.Placed.{Placed as PlacedStream};
ghost use Rattle.cpa_clock.specs.declared.anchor.Anchor.{Anchor as AnchorAt};
ghost use Rattle.cpa_clock.specs.Anchors.{placed_at};
ghost use Rattle.cpa_clock.specs.Rivals.{ClockedRival, streams_on, free_rival};
ghost use Rattle.cpa_clock.specs.Gathered.{AreCycles, IsInputOn, IsClockOf, IsGathered, AreGathered, HasLists, HasStreams, added_rival, anchors_at, as_one, free_streams, model_of, more_at, streams_so_far};

use crate::anchor::{Anchor, placed_at};
use crate::clock_lists::ClockLists;
use cpa_events::{MAX_STREAMS, Model, Stream};
use cpa_phase::Placed;
use cpa_units::limits::{MAX_EXECUTION, MAX_TASKS};
use cpa_units::{Bound, NoMemory};
use cpa_window::Rival;
use std::alloc::Global;

/// Rivals that were gathered by the clocks of their streams, for the analysis of one task. Room that was needed is kept.
#[derive(Drop)]
pub struct Gathered {
    /// The clock of the task, if it comes by one stream on it.
    pub(crate) own: Option<u32>,
    /// How many rivals were added.
    pub(crate) added: u32,
    /// The streams on that clock.
    pub(crate) joint: Vec<Placed>,
    /// Those on each other clock.
    pub(crate) others: ClockLists,
    /// Those on no clock, of each rival that has any.
    pub(crate) free: Vec<Rival>,
}

impl Gathered {
    /// Nothing is gathered.
    pub fn new(alloc: Global) -> Gathered
        ensures { (cycles : List ℕ) → IsGathered None cycles [] result }
    {
        Gathered {
            own: None,
            added: 0,
            joint: Vec::new(alloc),
            others: ClockLists::new(alloc),
            free: Vec::new(alloc),
        }
    }

    /// Begins once more with no rivals, for a task whose one stream is on this clock, or on none.
    pub fn begin(&mut self, own: Option<u32>)
        ensures { (cycles : List ℕ) → IsGathered own cycles [] self.new }
    {
        self.own = own;
        self.added = 0;
        self.joint.clear();
        self.others.clear();
        self.free.clear();
    }

    /// Adds a rival by its input, where each of its streams is on a clock, the cycles of the clocks by their numbers, and
    /// how long it takes at most for each event. An unbounded input is on no clock.
    pub fn add(
        &mut self,
        input: &Option<Model>,
        anchors: &[Option<Anchor>],
        cycles: &[u64],
        worst: u64,
    ) -> Result<(), NoMemory>
        requires cycles { AreCycles cycles.now }
        requires input { IsInputOn cycles.now anchors.now input.now }
        requires worst { worst ≤ MAX_EXECUTION }
        requires gathered { (own : Option ℕ) × AreGathered own cycles.now self.old }
        requires room { self.old.added + 1 < MAX_TASKS }
        ensures { (own : Option ℕ) (rivals : List ClockedRival) → IsGathered own cycles.now rivals self.old → OnOk result (IsGathered own cycles.now (rivals ++ added_rival input.now anchors.now worst ∷ []) self.new) }
    {
        match input {
            Some(model) => self.add_bounded(model, anchors, cycles, worst),
            None => self.add_unbounded(worst),
        }
    }

    /// Adds a rival whose input is bounded.
    fn add_bounded(
        &mut self,
        model: &Model,
        anchors: &[Option<Anchor>],
        cycles: &[u64],
        worst: u64,
    ) -> Result<(), NoMemory>
        requires input { IsInputOn cycles.now anchors.now (Some model.now) }
        requires worst { worst ≤ MAX_EXECUTION }
        requires long { HasLists self.old.others }
        requires room { self.old.added + 1 < MAX_TASKS }
        ensures { (own : Option ℕ) (rivals : List ClockedRival) → IsGathered own cycles.now rivals self.old → OnOk result (IsGathered own cycles.now (rivals ++ added_rival (Some model.now) anchors.now worst ∷ []) self.new) }
    {
        self.add_streams(model, anchors, cycles, worst)?;
        self.add_free(model, anchors, worst)?;
        self.added += 1;
        Ok(())
    }

    /// Adds one whose input is unbounded.
    fn add_unbounded(&mut self, worst: u64) -> Result<(), NoMemory>
        requires worst { worst ≤ MAX_EXECUTION }
        requires room { self.old.added + 1 < MAX_TASKS }
        ensures { (own : Option ℕ) (cycles : List ℕ) (rivals : List ClockedRival) (anchors : List (Option AnchorAt)) → IsGathered own cycles rivals self.old → OnOk result (IsGathered own cycles (rivals ++ added_rival None anchors worst ∷ []) self.new) }
    {
        self.free.push(rival_of(None, worst))?;
        self.added += 1;
        Ok(())
    }

    /// Adds the streams of an input that are on clocks.
    fn add_streams(
        &mut self,
        model: &Model,
        anchors: &[Option<Anchor>],
        cycles: &[u64],
        worst: u64,
    ) -> Result<(), NoMemory>
        requires input { IsInputOn cycles.now anchors.now (Some model.now) }
        requires long { HasLists self.old.others }
        ensures added { self.new.added ≡ self.old.added }
        ensures free { self.new.free ≡ self.old.free }
        ensures more { (own : Option ℕ) (rivals : List ClockedRival) → HasStreams own cycles.now (λ c. streams_on c rivals) self.old → OnOk result (HasStreams own cycles.now (λ c. streams_on c (rivals ++ added_rival (Some model.now) anchors.now worst ∷ [])) self.new) }
    {
        for k in 0..model.len() {
            if let Some(anchor) = anchors[k as usize] {
                self.add_stream(anchor, cycles[anchor.clock as usize], model.get(k), worst)?;
            }
        }
        Ok(())
    }

    /// Adds the streams of an input that are on no clock, if it has any.
    fn add_free(
        &mut self,
        model: &Model,
        anchors: &[Option<Anchor>],
        worst: u64,
    ) -> Result<(), NoMemory>
        requires model { IsModelInRange model.now }
        requires anchors { length anchors.now ≡ length model.now }
        ensures own { self.new.own ≡ self.old.own }
        ensures added { self.new.added ≡ self.old.added }
        ensures joint { self.new.joint ≡ self.old.joint }
        ensures others { self.new.others ≡ self.old.others }
        ensures free { OnOk result (self.new.free.items ≡ self.old.free.items ++ as_one worst (model_of (free_streams (anchors_at anchors.now) 0 model.now))) }
    {
        if let Some(free) = free_part(model, anchors) {
            self.free.push(rival_of(Some(free), worst))?;
        }
        Ok(())
    }

    /// Adds a stream that is on a clock of this cycle.
    fn add_stream(
        &mut self,
        anchor: Anchor,
        cycle: u64,
        stream: Stream,
        worst: u64,
    ) -> Result<(), NoMemory>
        requires { HasLists self.old.others }
        ensures added { self.new.added ≡ self.old.added }
        ensures free { self.new.free ≡ self.old.free }
        ensures long { OnOk result (HasLists self.new.others) }
        ensures more { (own : Option ℕ) (cycles : List ℕ) (lists : ℕ → List PlacedStream) → IsClockOf cycles anchor.clock cycle → HasStreams own cycles lists self.old → OnOk result (HasStreams own cycles (more_at anchor.clock (placed_at stream anchor worst) lists) self.new) }
    {
        let placed = placed_at(stream, anchor, worst);
        if self.own == Some(anchor.clock) {
            self.joint.push(placed)?;
        } else {
            self.others.push(anchor.clock, cycle, placed)?;
        }
        Ok(())
    }
}

/// The streams of an input that are on no clock, if it has any.
fn free_part(model: &Model, anchors: &[Option<Anchor>]) -> Option<Model>
    requires model { IsModelInRange model.now }
    requires anchors { length anchors.now ≡ length model.now }
    ensures { result ≡ model_of (free_streams (anchors_at anchors.now) 0 model.now) }
{
    let mut free = None;
    for k in 0..model.len() {
        if anchors[k as usize].is_none() {
            free = Some(with_stream(free, model.get(k)));
        }
    }
    free
}

/// A stream at the end of a model, if there is one so far.
fn with_stream(model: Option<Model>, stream: Stream) -> Model
    requires stream { IsStreamInRange stream }
    requires room { ForSome model (λ m. length m < MAX_STREAMS) }
    ensures { result ≡ streams_so_far model ++ stream ∷ [] }
{
    match model {
        Some(mut longer) => {
            longer.push(stream);
            longer
        }
        None => Model::one(stream),
    }
}

/// A rival as those of `cpa_window` are, where neither its slot nor its bound count.
fn rival_of(model: Option<Model>, worst: u64) -> Rival
    ensures { result ≡ free_rival worst model }
{
    Rival {
        worst,
        slot: 0,
        model,
        bound: Bound::Overload,
    }
}

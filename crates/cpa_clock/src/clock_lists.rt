//! The streams on several clocks, by the numbers of the clocks.

ghost use Rattle.std.specs.Prelude.{◌≡◌, ℕ, ◌<◌, ◌≤◌, [], List, length, OnOk, IfOk, IfSome, IfNone};
ghost use Rattle.cpa_phase.specs.declared.placed.Placed.{Placed};
ghost use Rattle.cpa_clock.specs.Gathered.{AreLists, HasLists, HasNoPlace, IsClockOf, IsPlaceOf, IsEmptyAt, AreSameBefore, HasMoreAt, IsNoted, clocks_in, more_at};

use cpa_phase::{Clock, Placed};
use cpa_units::NoMemory;
use std::alloc::Global;

/// Lists of streams, one of each clock that occurs. Their room is kept when they are emptied.
#[derive(Drop)]
pub(crate) struct ClockLists {
    alloc: Global,
    /// The numbers of the clocks that occur, in the order in which they came.
    numbers: Vec<u32>,
    /// The lists of these, and behind them others that were needed before.
    clocks: Vec<Clock>,
    /// By the number of a clock its place among those that occur. What stands at other numbers says nothing.
    places: Vec<usize>,
}

impl ClockLists {
    /// No clock occurs.
    pub(crate) fn new(alloc: Global) -> ClockLists
        ensures { (cycles : List ℕ) → AreLists cycles (λ c. []) result }
    {
        ClockLists {
            alloc,
            numbers: Vec::new(alloc),
            clocks: Vec::new(alloc),
            places: Vec::new(alloc),
        }
    }

    /// Empties all lists.
    pub(crate) fn clear(&mut self)
        ensures { (cycles : List ℕ) → AreLists cycles (λ c. []) self.new }
    {
        self.numbers.clear();
    }

    /// The clocks that occur, with their streams.
    pub(crate) fn clocks(&self) -> &[Clock]
        requires { HasLists self.now }
        ensures { result.now ≡ clocks_in self.now }
    {
        &self.clocks[..self.numbers.len()]
    }

    /// Puts a stream at the end of the list of a clock, which has this cycle.
    pub(crate) fn push(&mut self, number: u32, cycle: u64, stream: Placed) -> Result<(), NoMemory>
        requires { HasLists self.old }
        ensures long { OnOk result (HasLists self.new) }
        ensures more { (cycles : List ℕ) (lists : ℕ → List Placed) → IsClockOf cycles number cycle → AreLists cycles lists self.old → OnOk result (AreLists cycles (more_at number stream lists) self.new) }
    {
        let place = self.place_of(number, cycle)?;
        push_at(&mut self.clocks, place, stream)?;
        Ok(())
    }

    /// The place of a clock, which occurs from then on.
    fn place_of(&mut self, number: u32, cycle: u64) -> Result<usize, NoMemory>
        requires { HasLists self.old }
        ensures long { OnOk result (HasLists self.new) }
        ensures place { IfOk result (λ k. IsPlaceOf self.new number k) }
        ensures same { (cycles : List ℕ) (lists : ℕ → List Placed) → IsClockOf cycles number cycle → AreLists cycles lists self.old → OnOk result (AreLists cycles lists self.new) }
    {
        match self.find(number) {
            Some(place) => Ok(place),
            None => self.open(number, cycle),
        }
    }

    /// The place of a clock that occurs.
    fn find(&self, number: u32) -> Option<usize>
        ensures place { IfSome result (λ k. IsPlaceOf self.now number k) }
        ensures none { (cycles : List ℕ) (lists : ℕ → List Placed) → AreLists cycles lists self.now → IfNone result (HasNoPlace self.now number) }
    {
        let place = *self.places.get(number as usize)?;
        if place < self.numbers.len() && self.numbers[place] == number {
            Some(place)
        } else {
            None
        }
    }

    /// An empty list for a clock that hasn't occurred, and its place.
    fn open(&mut self, number: u32, cycle: u64) -> Result<usize, NoMemory>
        requires { HasLists self.old }
        ensures long { OnOk result (HasLists self.new) }
        ensures place { IfOk result (λ k. IsPlaceOf self.new number k) }
        ensures same { (cycles : List ℕ) (lists : ℕ → List Placed) → IsClockOf cycles number cycle → HasNoPlace self.old number → AreLists cycles lists self.old → OnOk result (AreLists cycles lists self.new) }
    {
        let place = self.numbers.len();
        put_list(&mut self.clocks, place, cycle, self.alloc)?;
        self.numbers.push(number)?;
        put_place(&mut self.places, number, place)?;
        Ok(place)
    }
}

/// Puts a clock without streams at a place, in the room of one that was there, or behind all.
fn put_list(
    clocks: &mut Vec<Clock>,
    place: usize,
    cycle: u64,
    alloc: Global,
) -> Result<(), NoMemory>
    requires { place ≤ length clocks.old.items }
    ensures long { OnOk result (place < length clocks.new.items) }
    ensures empty { OnOk result (IsEmptyAt clocks.new.items place cycle) }
    ensures before { OnOk result (AreSameBefore place clocks.old.items clocks.new.items) }
{
    if place < clocks.len() {
        let clock = &mut clocks[place];
        clock.cycle = cycle;
        clock.streams.clear();
    } else {
        let streams = Vec::new(alloc);
        clocks.push(Clock { cycle, streams })?;
    }
    Ok(())
}

/// Puts a stream at the end of the list at a place.
fn push_at(clocks: &mut Vec<Clock>, place: usize, stream: Placed) -> Result<(), NoMemory>
    requires { place < length clocks.old.items }
    ensures { OnOk result (HasMoreAt place stream clocks.old.items clocks.new.items) }
{
    clocks[place].streams.push(stream)?;
    Ok(())
}

/// Notes the place of a clock.
fn put_place(places: &mut Vec<usize>, number: u32, place: usize) -> Result<(), NoMemory>
    ensures { OnOk result (IsNoted places.old.items places.new.items number place) }
{
    let at = number as usize;
    if places.len() <= at {
        places.resize(at + 1, 0)?;
    }
    places[at] = place;
    Ok(())
}

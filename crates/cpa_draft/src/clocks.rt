//! Clocks of a draft, and when the schedule of each repeats.

ghost use Rattle.std.specs.Prelude.{◌≡◌, ◌<◌, ◌≤◌, ◌-◌, ◌^◌, ◌+◌, ◌++◌, ◌∷◌, [], ℕ, List, true, not, take, if◌then◌else◌, Ok, None, Some, All, IfOk, IfSome, OnOk};
ghost use Rattle.std.specs.Int.{IsGcd};
ghost use Rattle.std.specs.Str.{bytes_eq};
ghost use Rattle.cpa_units.specs.declared.limits.TheConstants.{MAX_PERIOD};
ghost use Rattle.cpa_draft.specs.First.{first_place};
ghost use Rattle.cpa_draft.specs.Clocks.{least_common_multiple, is_overlong, Measures, IsShort, IsTicking, is_long, joined, measured, AreMeasured};
ghost use Rattle.cpa_draft.specs.Refusals.{too_long_clock};
ghost use Rattle.cpa_draft.specs.declared.draft.DraftSource.{DraftSource};

use crate::draft::{Draft, DraftSource};
use crate::entry_checks::refuse_at;
use crate::numbers::natural;
use crate::refusal::{Part, Refusal};
use cpa_units::limits::MAX_PERIOD;
use indexmap::IndexMap;
use std::alloc::{AllocError, Global};
use std::marker::Model;

/// The most events that the cycle of a clock may have.
pub const MAX_STARTS: u64 = 4_096;

/// When the schedule of some sources of a clock repeats, and how many events it has until then.
#[derive(Clone, Copy, Debug)]
struct Measure {
    cycle: u64,
    starts: u64,
}

/// The measure of each clock whose name was met.
#[derive(Drop)]
struct Clocks {
    measures: IndexMap<Vec<u8>, Measure>,
}

impl Model for Clocks {
    ghost use Rattle.std.specs.Prelude.{ℕ, Vec, map};
    ghost use Rattle.std.specs.declared.alloc.Global.{Global};
    ghost use Rattle.cpa_draft.specs.Clocks.{Measures};
    ghost use Rattle.cpa_draft.specs.declared.clocks.Measure.{Measure};

    ghost Value = { Measures };

    ghost view = { λ c. map (λ (e : Vec ℕ Global × Measure). (e.0.items, e.1)) c.measures.entries };
}

/// The greatest common divisor, by Euclid's algorithm.
fn greatest_divisor(a: u64, b: u64) -> u64
    ensures { IsGcd a b result }
{
    let mut high = a;
    let mut low = b;
    while low != 0 {
        let rest = high % low;
        high = low;
        low = rest;
    }
    high
}

/// The least common multiple.
pub fn least_multiple(a: u64, b: u64) -> u64
    requires a { (0 < a) × (a ≤ MAX_PERIOD) }
    requires b { (0 < b) × (b ≤ MAX_PERIOD) }
    ensures { result ≡ least_common_multiple a b }
{
    a / greatest_divisor(a, b) * b
}

/// The measure with one more source, unless that is too long.
fn join(measure: Measure, period: u64) -> Option<Measure>
    requires measure { IsShort measure }
    requires period { (0 < period) × (period ≤ MAX_PERIOD) }
    ensures { result ≡ (if is_long (joined measure period) then None else Some (joined measure period)) }
{
    let cycle = least_multiple(measure.cycle, period);
    if cycle > MAX_PERIOD {
        return None;
    }
    let starts = measure.starts * (cycle / measure.cycle) + cycle / period;
    if starts > MAX_STARTS {
        return None;
    }
    Some(Measure { cycle, starts })
}

impl Clocks {
    fn new(alloc: Global) -> Clocks
        ensures { result ≡ [] }
    {
        Clocks {
            measures: IndexMap::new(alloc),
        }
    }

    /// The measure of a clock, also where no source of it was met.
    fn measure(&self, name: &[u8]) -> Measure
        ensures { result ≡ measured self.now name.now }
    {
        match self.measures.get(name) {
            Some(measure) => *measure,
            None => Measure {
                cycle: 1,
                starts: 0,
            },
        }
    }

    /// Changes the measure of a clock.
    fn put(&mut self, alloc: Global, name: &[u8], measure: Measure) -> Result<(), AllocError>
        ensures { OnOk result ((other : List ℕ) → measured self.new other ≡ (if bytes_eq other name.now then measure else measured self.old other)) }
    {
        let name = Vec::from_slice(alloc, name)?;
        self.measures.insert(name, measure)?;
        Ok(())
    }

    /// Joins a source to a clock, and says whether it isn't too long then.
    fn join(&mut self, alloc: Global, name: &[u8], period: u64) -> Result<bool, AllocError>
        requires measure { IsShort (measured self.old name.now) }
        requires period { (0 < period) × (period ≤ MAX_PERIOD) }
        ensures told { IfOk result (λ fits. fits ≡ not (is_long (joined (measured self.old name.now) period))) }
        ensures joined { result ≡ Ok true → (other : List ℕ) → measured self.new other ≡ (if bytes_eq other name.now then joined (measured self.old name.now) period else measured self.old other) }
    {
        match join(self.measure(name), period) {
            None => Ok(false),
            Some(measure) => {
                self.put(alloc, name, measure)?;
                Ok(true)
            }
        }
    }

    /// Adds a source after others, and says whether the clock that it is on isn't too long then.
    fn add(&mut self, alloc: Global, source: &DraftSource) -> Result<bool, AllocError>
        requires short { (name : List ℕ) → IsShort (measured self.old name) }
        requires period { IsTicking source.now }
        ensures told { (sources : List DraftSource) → AreMeasured sources self.old → IfOk result (λ fits. fits ≡ not (is_overlong source.now.clock (sources ++ source.now ∷ []))) }
        ensures added { (sources : List DraftSource) → AreMeasured sources self.old → result ≡ Ok true → AreMeasured (sources ++ source.now ∷ []) self.new }
    {
        match &source.clock {
            None => Ok(true),
            Some(name) => self.join(alloc, name.bytes(), natural(source.period)),
        }
    }
}

/// The first source with which its clock is too long.
fn first_overlong(alloc: Global, sources: &[DraftSource]) -> Result<Option<usize>, AllocError>
    requires { All IsTicking sources.now }
    ensures place { IfOk result (λ r. r ≡ first_place (λ k r. is_overlong r.clock (take (k + 1) sources.now)) sources.now) }
    ensures within { IfOk result (λ r. IfSome r (λ k. k < 2 ^ 64 - 1)) }
{
    let mut clocks = Clocks::new(alloc);
    for (k, source) in sources.iter().enumerate() {
        if !clocks.add(alloc, source)? {
            return Ok(Some(k));
        }
    }
    Ok(None)
}

/// Reason 15, where no number is out of its range.
#[tactic(auto, unfolding(crate::specs::Refusals::too_long_clock))]
pub(crate) fn refuse_too_long_clock(
    alloc: Global,
    draft: &Draft,
) -> Result<Option<Refusal>, AllocError>
    requires { All IsTicking draft.now.sources }
    ensures { IfOk result (λ r. r ≡ too_long_clock draft.now) }
{
    let place = first_overlong(alloc, draft.source_entries())?;
    Ok(refuse_at(15, Part::Source, place))
}

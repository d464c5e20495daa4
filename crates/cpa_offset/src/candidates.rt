//! The search through the candidates of the critical instant.

ghost use Rattle.std.specs.Prelude.{◌≡◌, ℕ, ◌+◌, ◌<◌, ◌≤◌, All, List, ◌∷◌, IfOk, OnOk};
ghost use Rattle.cpa_units.specs.declared.bound.Bound.{Bound};
ghost use Rattle.cpa_units.specs.declared.limits.TheConstants.{MAX_PERIOD};
ghost use Rattle.cpa_units.specs.Bounds.{IsAtMost, greatest_of};
ghost use Rattle.cpa_phase.specs.declared.clock.Clock.{Clock};
ghost use Rattle.cpa_phase.specs.Streams.{IsPlacedOn};
ghost use Rattle.cpa_phase.specs.Known.{AreKnown};
ghost use Rattle.cpa_offset.specs.Candidates.{GrowsNearer, IsGreatestFromCandidates};

use cpa_phase::{KnownWork, Phased, Placed};
use cpa_units::limits::MAX_PERIOD;
use cpa_units::{Bound, NoMemory};
use std::alloc::Global;

/// The bounds of a task by the moment of its clock at which a busy window starts.
pub trait FromMoment {
    ghost bound: { Self → ℕ → Bound };

    /// The other clocks, whose work may be known.
    ghost clocks: { Self → List Clock };

    /// That of the moment x. What `phased` has is lost: it is room for the streams of the clock.
    fn bound_from(
        &self,
        phased: &mut Vec<Phased>,
        known: &mut KnownWork,
        x: u64,
    ) -> Result<Bound, NoMemory>
        requires { AreKnown (clocks self.now) known.old }
        ensures value { IfOk result (λ b. b ≡ bound self.now x) }
        ensures known { OnOk result (AreKnown (clocks self.now) known.new) };
}

/// The greatest of them in a cycle. Only the candidates of the streams are looked at, so no bound may be smaller
/// where no stream's phase is longer.
pub fn greatest_from_candidates<B: FromMoment>(
    alloc: Global,
    bounds: &B,
    own: &Placed,
    joint: &[Placed],
    cycle: u64,
) -> Result<Bound, NoMemory>
    requires own { IsPlacedOn cycle own.now }
    requires joint { All (IsPlacedOn cycle) joint.now }
    requires some { 0 < cycle }
    requires short { cycle ≤ MAX_PERIOD }
    requires nearer { GrowsNearer own.now (own.now ∷ joint.now) (B.bound bounds.now) }
    ensures { IfOk result (λ b. b ≡ greatest_of (B.bound bounds.now) cycle) }
{
    let mut phased = Vec::new(alloc);
    let mut known = KnownWork::new(alloc);
    let none = Bound::Within(0);
    let mut greatest = greatest_from(bounds, own, cycle, &mut phased, &mut known, none)?;
    for stream in joint {
        greatest = greatest_from(bounds, stream, cycle, &mut phased, &mut known, greatest)?;
    }
    Ok(greatest)
}

/// The greatest so far, and from the candidates of one more stream. Nothing is greater than an overload, so the search ends with it.
fn greatest_from<B: FromMoment>(
    bounds: &B,
    stream: &Placed,
    cycle: u64,
    phased: &mut Vec<Phased>,
    known: &mut KnownWork,
    before: Bound,
) -> Result<Bound, NoMemory>
    requires stream { IsPlacedOn cycle stream.now }
    requires some { 0 < cycle }
    requires short { cycle ≤ MAX_PERIOD }
    requires before { IsAtMost before (greatest_of (B.bound bounds.now) cycle) }
    requires known { AreKnown (B.clocks bounds.now) known.old }
    ensures more { IfOk result (λ b. IsAtMost before b) }
    ensures candidates { IfOk result (λ b. IsGreatestFromCandidates (B.bound bounds.now) cycle stream.now b) }
    ensures most { IfOk result (λ b. IsAtMost b (greatest_of (B.bound bounds.now) cycle)) }
    ensures known { OnOk result (AreKnown (B.clocks bounds.now) known.new) }
{
    let mut greatest = before;
    let mut x = 1 + stream.phase(1);
    while x <= cycle {
        if matches!(greatest, Bound::Overload) {
            return Ok(greatest);
        }
        let here = bounds.bound_from(phased, known, x)?;
        greatest = greatest.max(here);
        x += stream.stream.period;
    }
    Ok(greatest)
}

//! The bound, from each candidate of the critical instant.

ghost use Rattle.std.specs.Prelude.{◌≡◌, ◌+◌, ◌<◌, ◌≤◌, All, IfOk, false};
ghost use Rattle.cpa_units.specs.declared.limits.TheConstants.{MAX_BIT, MAX_EXECUTION, MAX_LIMIT, MAX_PERIOD};
ghost use Rattle.cpa_units.specs.Numbers.{IsExecution};
ghost use Rattle.cpa_events.specs.Events.{IsModelInRange};
ghost use Rattle.cpa_window.specs.Rivals.{AreRivals, some_unbounded};
ghost use Rattle.cpa_phase.specs.Streams.{IsPlaced, IsPlacedOn, ArePlaced};
ghost use Rattle.cpa_phase.specs.Clocks.{AreClocks};
ghost use Rattle.cpa_offset.specs.Offsets.{elsewhere};
ghost use Rattle.cpa_offset_can.specs.CanOffsets.{can_bound_from, can_offset_bound, can_apart_bound};

use crate::frames::{FrameStarts, frames_bound};
use crate::own::{Apart, OnClock};
use cpa_events::Model;
use cpa_offset::{FromMoment, greatest_from_candidates};
use cpa_phase::{Clock, KnownWork, Phased, Placed, put_phased};
use cpa_units::limits::{MAX_BIT, MAX_EXECUTION, MAX_LIMIT, MAX_PERIOD};
use cpa_units::{Bound, NoMemory};
use cpa_window::{Rival, some_unbounded};
use std::alloc::Global;

/// A task whose jobs are frames, and all that may keep it waiting, all of it bounded.
#[derive(Clone, Copy)]
struct Asked<'a> {
    own: &'a Placed,
    blocking: u64,
    joint: &'a [Placed],
    clocks: &'a [Clock],
    free: &'a [Rival],
    bit: u64,
    limit: u64,
    ghost own_in_range: { IsPlaced own.now },
    ghost execution: { IsExecution own.now.worst },
    ghost blocking_in_range: { blocking ≤ MAX_EXECUTION },
    ghost joint_in_range: { ArePlaced joint.now },
    ghost clocks_in_range: { AreClocks clocks.now },
    ghost free_in_range: { AreRivals free.now },
    ghost bounded: { some_unbounded free.now ≡ false },
    ghost bit_in_range: { bit ≤ MAX_BIT },
    ghost limit_in_range: { limit ≤ MAX_LIMIT },
}

impl<'a> FromMoment for Asked<'a> {
    ghost bound = { λ a x. can_bound_from a.own.now a.blocking a.joint.now (elsewhere a.clocks.now a.free.now) a.bit a.limit x };

    ghost clocks = { λ a. a.clocks.now };

    fn bound_from(
        &self,
        phased: &mut Vec<Phased>,
        known: &mut KnownWork,
        x: u64,
    ) -> Result<Bound, NoMemory> {
        put_phased(phased, self.joint, x)?;
        let starts = FrameStarts {
            worst: self.own.worst,
            blocking: self.blocking,
            bit: self.bit,
            phased: phased.as_slice(),
            clocks: self.clocks,
            free: self.free,
        };
        let own = OnClock {
            phased: self.own.phased_from(x),
        };
        Ok(frames_bound(&own, &starts, known, self.limit))
    }
}

/// The bound of a frame that comes by one stream on a clock, where a busy window and the end of each frame in it are at
/// most `limit`. `joint` are the streams of higher priority on its clock, which repeats after `cycle`, and `clocks`
/// those on each other clock; `free` are the tasks of higher priority as far as they come by streams without a clock,
/// `blocking` is the longest frame of lower priority, and `bit` the time of a bit.
pub fn respond(
    alloc: Global,
    own: &Placed,
    blocking: u64,
    joint: &[Placed],
    clocks: &[Clock],
    free: &[Rival],
    bit: u64,
    limit: u64,
    cycle: u64,
) -> Result<Bound, NoMemory>
    requires own { IsPlacedOn cycle own.now }
    requires worst { IsExecution own.now.worst }
    requires blocking { blocking ≤ MAX_EXECUTION }
    requires joint { ArePlaced joint.now }
    requires joint_on { All (IsPlacedOn cycle) joint.now }
    requires clocks { AreClocks clocks.now }
    requires free { AreRivals free.now }
    requires bit { bit ≤ MAX_BIT }
    requires limit { limit ≤ MAX_LIMIT }
    requires some { 0 < cycle }
    requires short { cycle ≤ MAX_PERIOD }
    ensures { IfOk result (λ b. b ≡ can_offset_bound own.now blocking joint.now (elsewhere clocks.now free.now) bit limit cycle) }
{
    if some_unbounded(free) {
        return Ok(Bound::Overload);
    }
    let asked = Asked {
        own,
        blocking,
        joint,
        clocks,
        free,
        bit,
        limit,
    };
    greatest_from_candidates(alloc, &asked, own, joint, cycle)
}

/// The bound of a frame that comes by several streams, or by one without a clock. `clocks` are the streams of higher
/// priority on each clock.
pub fn respond_apart(
    alloc: Global,
    own: &Model,
    worst: u64,
    blocking: u64,
    clocks: &[Clock],
    free: &[Rival],
    bit: u64,
    limit: u64,
) -> Bound
    requires own { IsModelInRange own.now }
    requires worst { IsExecution worst }
    requires blocking { blocking ≤ MAX_EXECUTION }
    requires clocks { AreClocks clocks.now }
    requires free { AreRivals free.now }
    requires bit { bit ≤ MAX_BIT }
    requires limit { limit ≤ MAX_LIMIT }
    ensures { result ≡ can_apart_bound own.now worst blocking (elsewhere clocks.now free.now) bit limit }
{
    if some_unbounded(free) {
        return Bound::Overload;
    }
    let starts = FrameStarts {
        worst,
        blocking,
        bit,
        phased: &[],
        clocks,
        free,
    };
    let mut known = KnownWork::new(alloc);
    frames_bound(&Apart { model: own }, &starts, &mut known, limit)
}

//! The bound, from each candidate of the critical instant.

ghost use Rattle.std.specs.Prelude.{◌≡◌, ◌+◌, ◌<◌, ◌≤◌, All, IfOk, false};
ghost use Rattle.cpa_units.specs.declared.limits.TheConstants.{MAX_EXECUTION, MAX_LIMIT, MAX_PERIOD};
ghost use Rattle.cpa_units.specs.Numbers.{IsExecution};
ghost use Rattle.cpa_events.specs.Events.{IsModelInRange};
ghost use Rattle.cpa_window.specs.Rivals.{AreRivals, some_unbounded};
ghost use Rattle.cpa_phase.specs.Streams.{IsPlaced, IsPlacedOn, ArePlaced};
ghost use Rattle.cpa_phase.specs.Clocks.{AreClocks};
ghost use Rattle.cpa_offset.specs.Idle.{IsIdle};
ghost use Rattle.cpa_offset.specs.Offsets.{elsewhere, bound_from, offset_bound, apart_bound};

use crate::candidates::{FromMoment, greatest_from_candidates};
use crate::idle::{idle_by, is_over};
use crate::jobs::{Jobs, window_bound};
use cpa_events::Model;
use cpa_phase::{Clock, KnownWork, Phased, Placed, put_phased};
use cpa_units::limits::{MAX_EXECUTION, MAX_LIMIT, MAX_PERIOD};
use cpa_units::{Bound, NoMemory};
use cpa_window::{Rival, busy_window_bound, some_unbounded};
use std::alloc::Global;

/// A task, and all that may keep it waiting, all of it bounded.
#[derive(Clone, Copy)]
struct Asked<'a> {
    own: &'a Placed,
    blocking: u64,
    joint: &'a [Placed],
    clocks: &'a [Clock],
    free: &'a [Rival],
    limit: u64,
    /// By when all others are done, wherever a window starts.
    idle: Option<u64>,
    ghost own_in_range: { IsPlaced own.now },
    ghost execution: { IsExecution own.now.worst },
    ghost blocking_in_range: { blocking ≤ MAX_EXECUTION },
    ghost joint_in_range: { ArePlaced joint.now },
    ghost clocks_in_range: { AreClocks clocks.now },
    ghost free_in_range: { AreRivals free.now },
    ghost bounded: { some_unbounded free.now ≡ false },
    ghost limit_in_range: { limit ≤ MAX_LIMIT },
    ghost others_done: { IsIdle blocking joint.now clocks.now free.now limit idle },
}

impl<'a> FromMoment for Asked<'a> {
    ghost bound = { λ a x. bound_from a.own.now a.blocking a.joint.now (elsewhere a.clocks.now a.free.now) a.limit x };

    ghost clocks = { λ a. a.clocks.now };

    fn bound_from(
        &self,
        phased: &mut Vec<Phased>,
        known: &mut KnownWork,
        x: u64,
    ) -> Result<Bound, NoMemory> {
        let own = self.own.phased_from(x);
        if is_over(self.idle, own.earliest_arrival(1)) {
            return Ok(Bound::Within(0));
        }
        put_phased(phased, self.joint, x)?;
        let jobs = Jobs {
            worst: self.own.worst,
            blocking: self.blocking,
            phased: phased.as_slice(),
            clocks: self.clocks,
            free: self.free,
        };
        Ok(window_bound(&jobs, known, &own, self.limit))
    }
}

/// The bound of a task whose jobs come by one stream on a clock, where a window is at most `limit`. `joint` are
/// the streams of higher priority on its clock, which repeats after `cycle`, and `clocks` those on each other
/// clock; `free` are the tasks of higher priority as far as they come by streams without a clock, and `blocking` is
/// by how many ticks a task of lower priority may hold it up once it has begun a region.
pub fn respond(
    alloc: Global,
    own: &Placed,
    blocking: u64,
    joint: &[Placed],
    clocks: &[Clock],
    free: &[Rival],
    limit: u64,
    cycle: u64,
) -> Result<Bound, NoMemory>
    requires own { IsPlacedOn cycle own.now }
    requires worst { IsExecution own.now.worst }
    requires blocking { blocking ≤ MAX_EXECUTION }
    requires joint { ArePlaced joint.now }
    requires joint_on { All (IsPlacedOn cycle) joint.now }
    requires clocks { AreClocks clocks.now }
    requires free { AreRivals free.now }
    requires limit { limit ≤ MAX_LIMIT }
    requires some { 0 < cycle }
    requires short { cycle ≤ MAX_PERIOD }
    ensures { IfOk result (λ b. b ≡ offset_bound own.now blocking joint.now (elsewhere clocks.now free.now) limit cycle) }
{
    if some_unbounded(free) {
        return Ok(Bound::Overload);
    }
    let asked = Asked {
        own,
        blocking,
        joint,
        clocks,
        free,
        limit,
        idle: idle_by(alloc, own.worst, blocking, joint, clocks, free, limit)?,
    };
    greatest_from_candidates(alloc, &asked, own, joint, cycle)
}

/// The bound of a task whose jobs come by several streams, or by one without a clock. `clocks` are the streams of
/// higher priority on each clock.
pub fn respond_apart(
    own: &Model,
    worst: u64,
    blocking: u64,
    clocks: &[Clock],
    free: &[Rival],
    limit: u64,
) -> Bound
    requires own { IsModelInRange own.now }
    requires worst { IsExecution worst }
    requires blocking { blocking ≤ MAX_EXECUTION }
    requires clocks { AreClocks clocks.now }
    requires free { AreRivals free.now }
    requires limit { limit ≤ MAX_LIMIT }
    ensures { result ≡ apart_bound own.now worst blocking (elsewhere clocks.now free.now) limit }
{
    if some_unbounded(free) {
        return Bound::Overload;
    }
    let jobs = Jobs {
        worst,
        blocking,
        phased: &[],
        clocks,
        free,
    };
    busy_window_bound(&jobs, own, limit)
}

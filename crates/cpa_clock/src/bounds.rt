//! The bounds of a task whose rivals are gathered.

ghost use Rattle.std.specs.Prelude.{◌≡◌, ℕ, ◌≤◌, Some, List, length, IfOk};
ghost use Rattle.cpa_units.specs.Numbers.{IsExecution};
ghost use Rattle.cpa_units.specs.declared.limits.TheConstants.{MAX_BIT, MAX_EXECUTION, MAX_LIMIT};
ghost use Rattle.cpa_clock.specs.Rivals.{ClockedRival};
ghost use Rattle.cpa_clock.specs.Clocked.{only_anchor, clocked_preemptive_bound, clocked_can_bound};
ghost use Rattle.cpa_clock.specs.Gathered.{AreCycles, IsInputOn, IsGathered, AreGathered, anchors_at, cycles_at, own_clock};

use crate::anchor::{Anchor, placed_at};
use crate::gathered::Gathered;
use cpa_events::Model;
use cpa_units::limits::{MAX_BIT, MAX_EXECUTION, MAX_LIMIT};
use cpa_units::{Bound, NoMemory};
use std::alloc::Global;

/// The clock of a task that comes by one stream on it; none where it comes otherwise.
pub fn own_clock(own: &Model, anchors: &[Option<Anchor>]) -> Option<u32>
    ensures { result ≡ own_clock own.now (anchors_at anchors.now) }
{
    only_anchor(own, anchors).map(|anchor| anchor.clock)
}

/// Where a task is on a clock that comes by one stream on it.
fn only_anchor(own: &Model, anchors: &[Option<Anchor>]) -> Option<Anchor>
    ensures { result ≡ only_anchor own.now (anchors_at anchors.now) }
{
    if own.len() == 1 {
        anchors.first().copied().flatten()
    } else {
        None
    }
}

/// The bound of a task under preemptive priority, where a window is at most `limit`. `anchors` say where its streams are on
/// clocks, whose cycles are given by their numbers, `gathered` are the tasks of higher priority, and `blocking` is by how
/// many ticks a task of lower priority may hold it up once it has begun a region.
pub fn respond(
    alloc: Global,
    own: &Model,
    anchors: &[Option<Anchor>],
    cycles: &[u64],
    worst: u64,
    blocking: u64,
    gathered: &Gathered,
    limit: u64,
) -> Result<Bound, NoMemory>
    requires cycles { AreCycles cycles.now }
    requires own { IsInputOn cycles.now anchors.now (Some own.now) }
    requires worst { IsExecution worst }
    requires blocking { blocking ≤ MAX_EXECUTION }
    requires limit { limit ≤ MAX_LIMIT }
    requires gathered { AreGathered (own_clock own.now (anchors_at anchors.now)) cycles.now gathered.now }
    ensures { (rivals : List ClockedRival) → IsGathered (own_clock own.now (anchors_at anchors.now)) cycles.now rivals gathered.now → IfOk result (λ b. b ≡ clocked_preemptive_bound own.now (anchors_at anchors.now) worst blocking rivals (cycles_at cycles.now) (length cycles.now) limit) }
{
    let clocks = gathered.others.clocks();
    let free = gathered.free.as_slice();
    match only_anchor(own, anchors) {
        Some(anchor) => {
            let placed = placed_at(own.get(0), anchor, worst);
            let cycle = cycles[anchor.clock as usize];
            let joint = gathered.joint.as_slice();
            cpa_offset::respond(alloc, &placed, blocking, joint, clocks, free, limit, cycle)
        }
        None => Ok(cpa_offset::respond_apart(own, worst, blocking, clocks, free, limit)),
    }
}

/// The bound of a frame on a CAN bus whose bits take so many ticks, likewise; `blocking` is the longest frame of lower
/// priority.
pub fn respond_can(
    alloc: Global,
    own: &Model,
    anchors: &[Option<Anchor>],
    cycles: &[u64],
    worst: u64,
    blocking: u64,
    gathered: &Gathered,
    bit: u64,
    limit: u64,
) -> Result<Bound, NoMemory>
    requires cycles { AreCycles cycles.now }
    requires own { IsInputOn cycles.now anchors.now (Some own.now) }
    requires worst { IsExecution worst }
    requires blocking { blocking ≤ MAX_EXECUTION }
    requires bit { bit ≤ MAX_BIT }
    requires limit { limit ≤ MAX_LIMIT }
    requires gathered { AreGathered (own_clock own.now (anchors_at anchors.now)) cycles.now gathered.now }
    ensures { (rivals : List ClockedRival) → IsGathered (own_clock own.now (anchors_at anchors.now)) cycles.now rivals gathered.now → IfOk result (λ b. b ≡ clocked_can_bound own.now (anchors_at anchors.now) worst blocking rivals (cycles_at cycles.now) (length cycles.now) bit limit) }
{
    let clocks = gathered.others.clocks();
    let free = gathered.free.as_slice();
    match only_anchor(own, anchors) {
        Some(anchor) => {
            let placed = placed_at(own.get(0), anchor, worst);
            let cycle = cycles[anchor.clock as usize];
            let joint = gathered.joint.as_slice();
            cpa_offset_can::respond(
                alloc, &placed, blocking, joint, clocks, free, bit, limit, cycle,
            )
        }
        None => Ok(cpa_offset_can::respond_apart(
            alloc, own, worst, blocking, clocks, free, bit, limit,
        )),
    }
}

//! When all others are done, wherever a window starts.

ghost use Rattle.std.specs.Prelude.{◌≡◌, ℕ, ◌≤◌, map, Some, OnOk, IfOk, IsTrue};
ghost use Rattle.cpa_units.specs.Numbers.{IsExecution};
ghost use Rattle.cpa_units.specs.declared.limits.TheConstants.{MAX_EXECUTION, MAX_LIMIT};
ghost use Rattle.cpa_window.specs.Rivals.{AreRivals};
ghost use Rattle.cpa_phase.specs.Streams.{ArePlaced};
ghost use Rattle.cpa_phase.specs.Clocks.{AreClocks};
ghost use Rattle.cpa_offset.specs.Idle.{at_once, IsIdle};

use crate::jobs::{Jobs, window_of};
use cpa_phase::{Clock, KnownWork, Phased, Placed};
use cpa_units::NoMemory;
use cpa_units::limits::{MAX_EXECUTION, MAX_LIMIT};
use cpa_window::Rival;
use std::alloc::Global;

/// By when all others are done, wherever a window starts; none where that isn't known. They are by then even if the
/// streams of the clock all come at once.
pub(crate) fn idle_by(
    alloc: Global,
    worst: u64,
    blocking: u64,
    joint: &[Placed],
    clocks: &[Clock],
    free: &[Rival],
    limit: u64,
) -> Result<Option<u64>, NoMemory>
    requires worst { IsExecution worst }
    requires blocking { blocking ≤ MAX_EXECUTION }
    requires joint { ArePlaced joint.now }
    requires clocks { AreClocks clocks.now }
    requires free { AreRivals free.now }
    requires limit { limit ≤ MAX_LIMIT }
    ensures { IfOk result (IsIdle blocking joint.now clocks.now free.now limit) }
{
    let mut phased = Vec::new(alloc);
    put_at_once(&mut phased, joint)?;
    let jobs = Jobs {
        worst,
        blocking,
        phased: phased.as_slice(),
        clocks,
        free,
    };
    let mut known = KnownWork::new(alloc);
    Ok(window_of(&jobs, &mut known, 0, 1, limit))
}

/// Whether others are known to be done by then.
#[inline(always)]
pub(crate) fn is_over(idle: Option<u64>, moment: u64) -> bool
    ensures { IsTrue result → (end : ℕ) × (idle ≡ Some end) × (end ≤ moment) }
{
    match idle {
        Some(end) => end <= moment,
        None => false,
    }
}

/// Streams as a window sees them whose first events all come at once, in place of what `phased` has.
fn put_at_once(phased: &mut Vec<Phased>, streams: &[Placed]) -> Result<(), NoMemory>
    ensures { OnOk result (phased.new.items ≡ map at_once streams.now) }
{
    phased.clear();
    for placed in streams {
        phased.push(Phased {
            stream: placed.stream,
            phase: 0,
            worst: placed.worst,
        })?;
    }
    Ok(())
}

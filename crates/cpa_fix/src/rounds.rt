//! One round of analyses.

ghost use Rattle.std.specs.Prelude.{ℕ, ◌<◌, length};
ghost use Rattle.std.specs.Result.{OnOk};
ghost use Rattle.std.specs.Thread.{IsSync};
ghost use Rattle.cpa_units.specs.Sets.{holds, Members};
ghost use Rattle.cpa_local.specs.Trails.{IsKept, NewMarksAre, AreMarked};
ghost use Rattle.cpa_local.specs.Rising.{IsRisen, TasksOn};
ghost use Rattle.cpa_fix.specs.Rounds.{MayStart, IsRound};

use crate::readings::Readings;
use cpa_local::Trail;
use cpa_model::System;
use cpa_units::{NoMemory, ResSet, Vector};
use std::alloc::Global;

/// Analyses each dirty resource, in any order and by any number of workers. A round is handed an `H`: one by several
/// workers takes what starts threads, and one on the calling thread takes anything.
pub trait Round<H> {
    /// One round: raises bounds on the members of `dirty`, none above the least solution, and keeps a
    /// reading of each of them, sound and nowhere below the vector at the start. A round may start at a
    /// vector of the system nowhere above the least solution, with sound readings and a trail that has
    /// room for all tasks; members are places below the number of resources.
    ///
    /// After Ok other bounds and readings are as before, and the trail has the marks that it had and
    /// those of all tasks on members. Where memory is refused the vector hasn't fallen and is nowhere
    /// above the least solution, and new marks are of tasks on members; nothing is said of readings.
    fn round(
        &mut self,
        rt: &H,
        alloc: Global,
        system: &System,
        x: &mut Vector,
        dirty: ResSet,
        readings: &mut Readings,
        trail: &mut Trail,
    ) -> Result<(), NoMemory>
        requires handle { IsSync H.row }
        requires start { MayStart system.now x.old readings.old trail.old }
        requires in_range { (r : ℕ) → Members dirty r → r < length system.now.resources }
        ensures risen { IsRisen system.now x.old x.new }
        ensures kept { IsKept trail.old trail.new }
        ensures fresh { NewMarksAre trail.old trail.new (TasksOn system.now (Members dirty)) }
        ensures done { OnOk result (IsRound system.now (holds dirty) x.old x.new readings.old readings.new) }
        ensures marked { OnOk result (AreMarked trail.new (TasksOn system.now (Members dirty))) };
}

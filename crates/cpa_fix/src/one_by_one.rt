//! A round on the calling thread.

ghost use Rattle.std.specs.Prelude.{ℕ, ◌<◌, ◌≡◌, ◌==◌, length};
ghost use Rattle.std.specs.Result.{OnOk};
ghost use Rattle.cpa_local.specs.Trails.{IsKept, NewMarksAre, AreMarked};
ghost use Rattle.cpa_local.specs.Rising.{IsRisen, TasksOn};
ghost use Rattle.cpa_fix.specs.Rounds.{MayStart, IsRound};

use crate::analysing::analyse;
use crate::readings::Readings;
use crate::rounds::Round;
use cpa_local::Trail;
use cpa_model::System;
use cpa_units::{NoMemory, ResId, ResSet, Vector};
use std::alloc::Global;

/// Analyses one resource after another, in their order.
#[derive(Clone, Copy, Debug)]
pub struct OneByOne;

impl<H> Round<H> for OneByOne {
    fn round(
        &mut self,
        _rt: &H,
        alloc: Global,
        system: &System,
        x: &mut Vector,
        dirty: ResSet,
        readings: &mut Readings,
        trail: &mut Trail,
    ) -> Result<(), NoMemory> {
        let count = system.resources();
        for place in 0..count {
            let res = ResId(place);
            if dirty.has(res) {
                round_of_one(alloc, system, res, x, readings, trail)?;
            }
        }
        Ok(())
    }
}

/// A round over one resource, whose place is below the number of resources, as `Round` has it.
pub fn round_of_one(
    alloc: Global,
    system: &System,
    res: ResId,
    x: &mut Vector,
    readings: &mut Readings,
    trail: &mut Trail,
) -> Result<(), NoMemory>
    requires start { MayStart system.now x.old readings.old trail.old }
    requires in_range { res.0 < length system.now.resources }
    ensures risen { IsRisen system.now x.old x.new }
    ensures kept { IsKept trail.old trail.new }
    ensures fresh { NewMarksAre trail.old trail.new (TasksOn system.now (λ r. r ≡ res.0)) }
    ensures done { OnOk result (IsRound system.now (λ r. r == res.0) x.old x.new readings.old readings.new) }
    ensures marked { OnOk result (AreMarked trail.new (TasksOn system.now (λ r. r ≡ res.0))) }
{
    let old = readings.take(res);
    let reading = analyse(alloc, system, res, old, x, trail)?;
    readings.put(res, reading);
    Ok(())
}

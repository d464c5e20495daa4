//! The analysis of one resource.

ghost use Rattle.std.specs.Prelude.{◌<◌, ◌≤◌, ◌≡◌, ◌↔◌, IsTrue, length, IfOk};
ghost use Rattle.std.specs.Bool.{OnFalse};
ghost use Rattle.std.specs.Result.{OnOk};
ghost use Rattle.cpa_units.specs.Bounds.{IsNowhereAbove};
ghost use Rattle.cpa_local.specs.Trails.{IsKept, NewMarksAre};
ghost use Rattle.cpa_depend.specs.Cone.{LeadsBack};
ghost use Rattle.cpa_fix.specs.Readings.{IsSound};
ghost use Rattle.cpa_local.specs.Rising.{IsRisen, IsRaised, AgreeOutside, TasksOn};
ghost use Rattle.cpa_fix.specs.Rounds.{HasNoFeedback};

use crate::readings::Reading;
use cpa_depend::has_cyclic_chain;
use cpa_local::{Trail, raise};
use cpa_model::System;
use cpa_units::{NoMemory, ResId, Vector};
use std::alloc::Global;

/// Analyses a resource at a vector of the system nowhere above the least solution: raises the bounds
/// on it in `x`, none above the least solution, marks its tasks, and gives a sound reading of it, in the
/// room of an old one if there is one: the vector before, or the raised one where the analysis would be
/// the same there, so that the resource isn't dirty by its own bounds. The place is below the number of
/// resources, and the trail has room for all tasks. Where memory is refused bounds may have risen all
/// the same.
pub fn analyse(
    alloc: Global,
    system: &System,
    res: ResId,
    old: Option<Reading>,
    x: &mut Vector,
    trail: &mut Trail,
) -> Result<Reading, NoMemory>
    requires in_range { res.0 < length system.now.resources }
    requires start { IsRisen system.now x.old x.old }
    requires room { length system.now.tasks ≤ trail.old.room }
    ensures risen { IsRisen system.now x.old x.new }
    ensures kept { IsKept trail.old trail.new }
    ensures fresh { NewMarksAre trail.old trail.new (TasksOn system.now (λ r. r ≡ res.0)) }
    ensures raised { OnOk result (IsRaised system.now res.0 x.old x.new trail.old trail.new) }
    ensures sound { IfOk result (λ reading. IsSound system.now res.0 reading.seen x.new) }
    ensures up { IfOk result (λ reading. IsNowhereAbove x.old reading.seen) }
    ensures outside { IfOk result (λ reading. AgreeOutside system.now res.0 reading.seen x.new) }
{
    let back = has_cyclic_chain(system, res);
    if has_feedback(system, res, back) {
        let reading = reading_at(alloc, old, x)?;
        raise(alloc, system, res, back, x, trail)?;
        Ok(reading)
    } else {
        raise(alloc, system, res, back, x, trail)?;
        let reading = reading_at(alloc, old, x)?;
        Ok(reading)
    }
}

/// The reading that a resource was analysed at this vector, in the room of an old one if there is one.
fn reading_at(alloc: Global, old: Option<Reading>, x: &Vector) -> Result<Reading, NoMemory>
    ensures { IfOk result (λ reading. reading.seen ≡ x.now) }
{
    match old {
        Some(mut reading) if reading.seen.len() == x.len() => {
            reading.seen.assign(x);
            Ok(reading)
        }
        _ => {
            let seen = x.copy(alloc)?;
            Ok(Reading { seen })
        }
    }
}

/// Whether the bounds on a resource may bear on its own analysis.
fn has_feedback(system: &System, res: ResId, back: bool) -> bool
    requires in_range { res.0 < length system.now.resources }
    requires back { IsTrue back ↔ LeadsBack system.now res.0 }
    ensures { OnFalse result (HasNoFeedback system.now res.0) }
{
    if system.resource(res).kind.has_feedback() {
        return true;
    }
    back
}

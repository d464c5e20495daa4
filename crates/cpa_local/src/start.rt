//! The vector from which a solution is looked for.

ghost use Rattle.std.specs.Prelude.{◌≡◌, IfOk};
ghost use Rattle.cpa_units.specs.Bounds.{IsNowhereAbove};
ghost use Rattle.cpa_local.specs.Solution.{IsVector, floor_of, least_of};

use cpa_model::System;
use cpa_units::{Bound, NoMemory, TaskId, Vector};
use std::alloc::Global;

/// Each task's least execution, in ticks. No vector of the system is anywhere below it, and so neither
/// is the least solution.
pub fn floor(alloc: Global, system: &System) -> Result<Vector, NoMemory>
    ensures value { IfOk result (λ x. x ≡ floor_of system.now) }
    ensures vector { IfOk result (λ x. IsVector system.now x) }
    ensures below { IfOk result (λ x. IsNowhereAbove x (least_of system.now)) }
{
    let mut x = Vector::filled(alloc, system.tasks(), Bound::Overload)?;
    for k in 0..system.tasks() {
        x.set(TaskId(k), Bound::Within(system.task(TaskId(k)).best));
    }
    Ok(x)
}

//! What tasks receive.

ghost use Rattle.std.specs.Prelude.{◌≡◌, ◌<◌, length, IfSome};
ghost use Rattle.cpa_events.specs.Events.{IsModelInRange};
ghost use Rattle.cpa_local.specs.Inputs.{AreKnown, input, found_if};
ghost use Rattle.cpa_local.specs.Solution.{IsVector};

use crate::gathering::find_along;
use crate::scratch::no_model;
use cpa_events::Model;
use cpa_model::System;
use cpa_units::{TaskId, Vector};

/// Marks where the input of no task is known.
static NONE_KNOWN: [bool; 8192] = [false; 8192];

/// The input of a task at a vector, as an event model in ticks; none where it is unbounded. It is
/// what the task's activators send, one after the other: jitter grows along each chain by what each
/// response may vary (Richter's thesis, 2005).
pub fn input(system: &System, task: TaskId, x: &Vector) -> Option<Model>
    requires there { task.0 < length system.now.tasks }
    requires vector { IsVector system.now x.now }
    ensures value { result ≡ input system.now x.now task.0 }
    ensures in_range { IfSome result IsModelInRange }
{
    let mut found = no_model();
    if find_input(system, task, x, &mut found) {
        Some(found)
    } else {
        None
    }
}

/// Finds the input of a task, where none is known. False where it is unbounded.
pub(crate) fn find_input(system: &System, task: TaskId, x: &Vector, found: &mut Model) -> bool
    requires there { task.0 < length system.now.tasks }
    requires vector { IsVector system.now x.now }
    ensures value { found_if result found.new ≡ input system.now x.now task.0 }
    ensures in_range { IfSome (found_if result found.new) IsModelInRange }
{
    system.has_rules();
    find_along(system, task, x, &NONE_KNOWN, &[], found)
}

//! What the calling thread does: it analyses all that is dirty, or, after the workers, takes the bounds from
//! the board, and analyses what none of them handed in.

ghost use Rattle.std.specs.Prelude.{◌≡◌, ℕ, ◌<◌, length};
ghost use Rattle.std.specs.Result.{OnOk};
ghost use Rattle.cpa_units.specs.Sets.{holds, Members};
ghost use Rattle.cpa_local.specs.Solution.{IsVector};
ghost use Rattle.cpa_local.specs.Trails.{IsKept, NewMarksAre, AreMarked};
ghost use Rattle.cpa_local.specs.Rising.{IsRisen, TasksOn};
ghost use Rattle.cpa_fix.specs.Rounds.{MayStart, IsRound};
ghost use Rattle.cpa_workers.specs.Workers.{IsRoundResult, IsTaken, IsMissing};

use crate::board_words::read_word;
use crate::dirty_resources::DirtyResources;
use crate::gate::{Gate, NoGate};
use cpa_fix::{Readings, round_of_one};
use cpa_local::Trail;
use cpa_model::System;
use cpa_units::{NoMemory, ResId, ResSet, TaskId, Vector};
use std::alloc::Global;

/// The result of all workers.
#[derive(Drop)]
pub struct RoundResult {
    pub words: Vec<u64>,
    pub found: Readings,
    pub trail: Trail,
}

/// Takes the bounds on dirty resources from the words.
fn take_words(system: &System, x: &mut Vector, dirty: ResSet, words: &[u64])
    requires vector { IsVector system.now x.old }
    requires long { length words.now ≡ length system.now.tasks }
    ensures { IsTaken system.now dirty x.old words.now x.new }
{
    for place in 0..system.tasks() {
        if dirty.has(system.task(TaskId(place)).res) {
            x.set(TaskId(place), read_word(words[place as usize]));
        }
    }
}

/// The dirty resources of which no reading was found.
fn missing(system: &System, dirty: ResSet, found: &Readings) -> ResSet
    requires in_range { (r : ℕ) → Members dirty r → r < length system.now.resources }
    requires long { length found.now ≡ length system.now.resources }
    ensures { IsMissing dirty found.now result }
{
    let mut set = ResSet::none();
    for place in 0..system.resources() {
        let res = ResId(place);
        if dirty.has(res) && found.get(res).is_none() {
            set = set.with(res);
        }
    }
    set
}

/// A round on the calling thread, through the gate.
pub fn alone<G: Gate>(
    alloc: Global,
    dirty: &DirtyResources,
    x: &mut Vector,
    readings: &mut Readings,
    trail: &mut Trail,
    gate: &G,
) -> Result<(), NoMemory>
    requires { MayStart dirty.now.system.now x.old readings.old trail.old }
    ensures risen { IsRisen dirty.now.system.now x.old x.new }
    ensures kept { IsKept trail.old trail.new }
    ensures fresh { NewMarksAre trail.old trail.new (TasksOn dirty.now.system.now (Members dirty.now.set)) }
    ensures done { OnOk result (IsRound dirty.now.system.now (holds dirty.now.set) x.old x.new readings.old readings.new) }
    ensures marked { OnOk result (AreMarked trail.new (TasksOn dirty.now.system.now (Members dirty.now.set))) }
{
    let count = dirty.system.resources();
    for place in 0..count {
        let res = ResId(place);
        if dirty.set.has(res) {
            gate.enter(res);
            round_of_one(alloc, dirty.system, res, x, readings, trail)?;
        }
    }
    Ok(())
}

/// The rest of a round whose workers are through.
pub fn settle(
    alloc: Global,
    dirty: &DirtyResources,
    outcome: RoundResult,
    x: &mut Vector,
    readings: &mut Readings,
    trail: &mut Trail,
) -> Result<(), NoMemory>
    requires start { MayStart dirty.now.system.now x.old readings.old trail.old }
    requires outcome { IsRoundResult dirty.now.system.now dirty.now.set x.old outcome.words.items outcome.found outcome.trail }
    ensures risen { IsRisen dirty.now.system.now x.old x.new }
    ensures kept { IsKept trail.old trail.new }
    ensures fresh { NewMarksAre trail.old trail.new (TasksOn dirty.now.system.now (Members dirty.now.set)) }
    ensures done { OnOk result (IsRound dirty.now.system.now (holds dirty.now.set) x.old x.new readings.old readings.new) }
    ensures marked { OnOk result (AreMarked trail.new (TasksOn dirty.now.system.now (Members dirty.now.set))) }
{
    let system = dirty.system;
    trail.join(&outcome.trail);
    take_words(system, x, dirty.set, outcome.words.as_slice());
    let set = missing(system, dirty.set, &outcome.found);
    readings.take_over(outcome.found);
    let missing = DirtyResources { system, set };
    alone(alloc, &missing, x, readings, trail, &NoGate)
}

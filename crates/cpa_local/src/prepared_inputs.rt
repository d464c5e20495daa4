//! The inputs of a resource's tasks, worked out once for all their analyses.

ghost use Rattle.std.specs.Prelude.{◌≡◌, ◌<◌, ◌≤◌, ◌-◌, length, Some, None, slice_index_or, IfSome};
ghost use Rattle.std.specs.Option.{ForSome, option_copied};
ghost use Rattle.std.specs.Result.{OnOk};
ghost use Rattle.cpa_units.specs.declared.limits.TheConstants.{MAX_LIMIT};
ghost use Rattle.cpa_units.specs.Bounds.{bound_of};
ghost use Rattle.cpa_events.specs.declared.stream.TheConstants.{MAX_MODEL_JITTER};
ghost use Rattle.cpa_events.specs.Events.{IsModelInRange, HasJitterUpTo};
ghost use Rattle.cpa_model.specs.SystemLists.{task_at, resource_at, resource_of};
ghost use Rattle.cpa_local.specs.Inputs.{AreInputs, AreKnown, input, output_of, found_if};
ghost use Rattle.cpa_local.specs.Solution.{IsVector};
ghost use Rattle.cpa_local.specs.Worked.{IsPrepared, HasCycle, IsLongest, HasLongest, HasInputs, HasClocks, AreAnchored};

use crate::chain_walks::only_task;
use crate::gathering::find_along;
use crate::inputs::find_input;
use crate::neighbours::longest_blocking;
use crate::scratch::Scratch;
use cpa_events::Model;
use cpa_model::{Kind, System};
use cpa_units::{Bound, NoMemory, ResId, TaskId, Vector};

impl Scratch {
    /// Works out what the analyses of a resource's tasks at a vector share, in place of what it was
    /// before: the cycle under TDMA, else the input of each task, where tasks have priorities also where their
    /// streams are on clocks, and under preemptive priority, also with ceilings, by how much one blocks others at most.
    pub(crate) fn prepare(
        &mut self,
        system: &System,
        res: ResId,
        x: &Vector,
    ) -> Result<(), NoMemory>
        requires there { res.0 < length system.now.resources }
        requires vector { IsVector system.now x.now }
        requires room { length system.now.tasks ≤ length self.old.inputs }
        ensures prepared { OnOk result (IsPrepared system.now res.0 x.now self.new) }
        ensures room { length self.new.inputs ≡ length self.old.inputs }
    {
        match system.resource(res).kind {
            Kind::Tdma { gap: _ } => {
                self.shared.cycle = system.cycle(res);
            }
            Kind::Preemptive => self.prepare_preempted(system, res, Kind::Preemptive, x)?,
            Kind::Ceiling => self.prepare_preempted(system, res, Kind::Ceiling, x)?,
            Kind::RoundRobin | Kind::Fifo => {
                learn(system, res, x, &mut self.inputs, &mut self.found);
            }
            Kind::Can { bit: _ } => {
                self.clocks.learn(system, res)?;
                learn(system, res, x, &mut self.inputs, &mut self.found);
            }
        }
        Ok(())
    }

    /// The same on a resource of this kind, under preemptive priority, also with ceilings.
    fn prepare_preempted(
        &mut self,
        system: &System,
        res: ResId,
        kind: Kind,
        x: &Vector,
    ) -> Result<(), NoMemory>
        requires there { res.0 < length system.now.resources }
        requires vector { IsVector system.now x.now }
        requires room { length system.now.tasks ≤ length self.old.inputs }
        ensures longest { OnOk result (IsLongest system.now res.0 self.new.longest kind) }
        ensures inputs { OnOk result (AreInputs system.now res.0 x.now self.new.inputs) }
        ensures clocks { OnOk result (AreAnchored system.now res.0 self.new.clocks) }
        ensures room { length self.new.inputs ≡ length self.old.inputs }
    {
        self.clocks.learn(system, res)?;
        self.shared.longest = longest_blocking(system, res, kind);
        learn(system, res, x, &mut self.inputs, &mut self.found);
        Ok(())
    }

    /// The same where it was worked out for the resource, at any vector of the system.
    pub(crate) fn follow(&mut self, system: &System, res: ResId, x: &Vector)
        requires there { res.0 < length system.now.resources }
        requires vector { IsVector system.now x.now }
        requires room { length system.now.tasks ≤ length self.old.inputs }
        requires cycle { HasCycle system.now res.0 self.old.cycle (resource_at system.now res.0).kind }
        requires longest { HasLongest system.now res.0 self.old.longest (resource_at system.now res.0).kind }
        requires clocks { HasClocks system.now res.0 self.old.clocks (resource_at system.now res.0).kind }
        ensures prepared { IsPrepared system.now res.0 x.now self.new }
        ensures room { length self.new.inputs ≡ length self.old.inputs }
    {
        if system.resource(res).kind.wants_inputs() {
            learn(system, res, x, &mut self.inputs, &mut self.found);
        }
    }
}

/// The input of a task, from a list that has it where its resource's kind wants that; else it is put
/// in the room for one.
pub(crate) fn own_input<'a>(
    system: &System,
    task: TaskId,
    x: &Vector,
    inputs: &'a [Option<Model>],
    found: &'a mut Model,
) -> Option<&'a Model>
    requires there { task.0 < length system.now.tasks }
    requires vector { IsVector system.now x.now }
    requires long { length system.now.tasks ≤ length inputs.now }
    requires known { HasInputs system.now (task_at system.now task.0).res.0 x.now inputs.now (resource_of system.now task.0).kind }
    ensures value { option_copied result ≡ input system.now x.now task.0 }
    ensures in_range { IfSome (option_copied result) IsModelInRange }
{
    if system.resource(system.task(task).res).kind.wants_inputs() {
        kept_input(system, task, x, inputs)
    } else if find_input(system, task, x, found) {
        Some(found)
    } else {
        None
    }
}

/// The input of a task, from a list that has it.
fn kept_input<'a>(
    system: &System,
    task: TaskId,
    x: &Vector,
    inputs: &'a [Option<Model>],
) -> Option<&'a Model>
    requires there { task.0 < length system.now.tasks }
    requires vector { IsVector system.now x.now }
    requires long { length system.now.tasks ≤ length inputs.now }
    requires known { slice_index_or inputs.now task.0 None ≡ input system.now x.now task.0 }
    ensures value { option_copied result ≡ input system.now x.now task.0 }
    ensures in_range { IfSome (option_copied result) IsModelInRange }
{
    system.has_rules();
    inputs[task.0 as usize].as_ref()
}

/// Keeps a model in a place.
pub(crate) fn keep(place: &mut Option<Model>, model: &Model)
    ensures { place.new ≡ Some model.now }
{
    match place {
        Some(kept) => kept.copy_from(model),
        None => *place = Some(model.duplicate()),
    }
}

/// Works out the input of each task on a resource. What is known of earlier tasks that are on it too
/// isn't looked for once more.
fn learn(
    system: &System,
    res: ResId,
    x: &Vector,
    inputs: &mut Vec<Option<Model>>,
    found: &mut Model,
)
    requires there { res.0 < length system.now.resources }
    requires vector { IsVector system.now x.now }
    requires long { length system.now.tasks ≤ length inputs.old.items }
    ensures known { AreInputs system.now res.0 x.now inputs.new.items }
    ensures long { length inputs.new.items ≡ length inputs.old.items }
{
    let mut known = [false; 8192];
    for task in system.tasks_on(res) {
        let place = task.0 as usize;
        if find_by_known(system, *task, x, &known, inputs.as_slice(), found) {
            keep(&mut inputs[place], found);
        } else {
            inputs[place] = None;
        }
        known[place] = true;
    }
}

/// Finds what comes out of a task with this input, which has room for what its response adds. False
/// where it is unbounded.
fn find_output(
    system: &System,
    task: TaskId,
    x: &Vector,
    received: &Option<Model>,
    found: &mut Model,
) -> bool
    requires there { task.0 < length system.now.tasks }
    requires vector { IsVector system.now x.now }
    requires in_range { ForSome received.now IsModelInRange }
    requires jitter { ForSome received.now (λ m. HasJitterUpTo m (MAX_MODEL_JITTER - MAX_LIMIT)) }
    ensures { found_if result found.new ≡ output_of (task_at system.now task.0).best (bound_of x.now task.0) received.now }
{
    let best = system.task(task).best;
    match (x.get(task), received) {
        (Bound::Within(bound), Some(model)) => {
            found.set_after_response(model, best, bound);
            true
        }
        _ => false,
    }
}

/// Finds the input of a task, from that of the one task before it where that is known. False where it
/// is unbounded.
fn find_by_known(
    system: &System,
    task: TaskId,
    x: &Vector,
    known: &[bool; 8192],
    inputs: &[Option<Model>],
    found: &mut Model,
) -> bool
    requires there { task.0 < length system.now.tasks }
    requires vector { IsVector system.now x.now }
    requires known { AreKnown system.now x.now known.now inputs.now }
    ensures { found_if result found.new ≡ input system.now x.now task.0 }
{
    system.has_rules();
    match only_task(&system.task(task).after) {
        Some(earlier) if known[earlier.0 as usize] => {
            find_output(system, earlier, x, &inputs[earlier.0 as usize], found)
        }
        _ => find_along(system, task, x, known, inputs, found),
    }
}

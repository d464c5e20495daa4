//! The bound of one task, by the rule of its resource's kind. All times are in ticks.

ghost use Rattle.std.specs.Prelude.{◌≡◌, ℕ, ◌<◌, ◌≤◌, List, Some, length, vec_capacity, IfOk};
ghost use Rattle.cpa_units.specs.declared.bound.Bound.{Bound};
ghost use Rattle.cpa_units.specs.Numbers.{IsExecution};
ghost use Rattle.cpa_events.specs.Events.{IsModelInRange};
ghost use Rattle.cpa_model.specs.declared.entries.Kind.TheVariants.{RoundRobin, Tdma, Can, Fifo};
ghost use Rattle.cpa_model.specs.SystemLists.{task_at, tasks_on, resource_of, slot_of, cycle_of};
ghost use Rattle.cpa_model.specs.Rules.{IsSystem};
ghost use Rattle.cpa_local.specs.Local.{priority_bound, bound_by_kind, response};
ghost use Rattle.cpa_local.specs.Solution.{IsVector};
ghost use Rattle.cpa_local.specs.Inputs.{AreInputs, input};
ghost use Rattle.cpa_local.specs.Trails.{IsKept, NewMarksAre, AreMarked};
ghost use Rattle.cpa_local.specs.Worked.{IsPrepared, HasCycle, HasLongest, HasInputs, HasClocks, AreAnchored};
ghost use Rattle.cpa_units.specs.declared.limits.TheConstants.{MAX_EXECUTION};

use crate::by_clocks::{can_by_clocks, preemptive_by_clocks};
use crate::clocks::Clocks;
use crate::neighbours::{blocking, blocking_within, gather_higher, gather_others};
use crate::prepared_inputs::own_input;
use crate::scratch::{Scratch, Shared, make_rivals};
use crate::trail::Trail;
use cpa_clock::{Gathered, plain_bounds_are_the_same};
use cpa_events::Model;
use cpa_model::{Kind, System};
use cpa_units::{Bound, NoMemory, TaskId, Vector};
use cpa_window::Rival;
use std::alloc::Global;

/// The bound of a task at a vector, in ticks: the component of the analysis for that task, where all
/// other tasks keep to their bounds (Richter's thesis, 2005). `Overload` where its input is unbounded,
/// or by the rule of its resource's kind. It is computed in the trail's room, which must be enough for
/// all tasks; where a system has clocks, more may be wanted. The task is marked.
#[tactic(auto, unfolding(crate::specs::Local::response))]
pub fn respond(
    alloc: Global,
    system: &System,
    task: TaskId,
    x: &Vector,
    trail: &mut Trail,
) -> Result<Bound, NoMemory>
    requires there { task.0 < length system.now.tasks }
    requires vector { IsVector system.now x.now }
    requires room { length system.now.tasks ≤ trail.old.room }
    ensures value { IfOk result (λ b. b ≡ response system.now x.now task.0) }
    ensures kept { IsKept trail.old trail.new }
    ensures fresh { NewMarksAre trail.old trail.new (λ i. i ≡ task.0) }
    ensures marked { AreMarked trail.new (λ i. i ≡ task.0) }
{
    let tasks = system.tasks();
    prove!(tasks <= 8192);
    trail.mark(task);
    trail.work.prepare(system, system.task(task).res, x)?;
    respond_prepared(alloc, system, task, x, &mut trail.work)
}

/// The same, where what the analyses on the task's resource share at the vector is worked out. It stays
/// as it is.
#[tactic(auto, unfolding(crate::specs::Local::response))]
pub(crate) fn respond_prepared(
    alloc: Global,
    system: &System,
    task: TaskId,
    x: &Vector,
    work: &mut Scratch,
) -> Result<Bound, NoMemory>
    requires there { task.0 < length system.now.tasks }
    requires vector { IsVector system.now x.now }
    requires room { length system.now.tasks ≤ length work.old.inputs }
    requires prepared { IsPrepared system.now (task_at system.now task.0).res.0 x.now work.old }
    ensures value { IfOk result (λ b. b ≡ response system.now x.now task.0) }
    ensures same { work.new ≡ work.old }
{
    make_rivals(
        &mut work.rivals,
        system.tasks_on(system.task(task).res).len(),
    );
    let inputs = work.inputs.as_slice();
    let Some(own) = own_input(system, task, x, inputs, &mut work.found) else {
        return Ok(Bound::Overload);
    };
    bound_by_kind(
        alloc,
        system,
        task,
        x,
        own,
        work.shared,
        inputs,
        work.rivals.as_mut_slice(),
        &work.clocks,
        &mut work.gathered,
    )
}

/// The bound of a task with a bounded input, by the rule of the resource's kind.
fn bound_by_kind(
    alloc: Global,
    system: &System,
    task: TaskId,
    x: &Vector,
    own: &Model,
    shared: Shared,
    inputs: &[Option<Model>],
    rivals: &mut [Rival],
    clocks: &Clocks,
    gathered: &mut Gathered,
) -> Result<Bound, NoMemory>
    requires rules { IsSystem system.now }
    requires there { task.0 < length system.now.tasks }
    requires vector { IsVector system.now x.now }
    requires own { IsModelInRange own.now }
    requires received { input system.now x.now task.0 ≡ Some own.now }
    requires long { length system.now.tasks ≤ length inputs.now }
    requires cycle { HasCycle system.now (task_at system.now task.0).res.0 shared.cycle (resource_of system.now task.0).kind }
    requires longest { HasLongest system.now (task_at system.now task.0).res.0 shared.longest (resource_of system.now task.0).kind }
    requires known { HasInputs system.now (task_at system.now task.0).res.0 x.now inputs.now (resource_of system.now task.0).kind }
    requires clocks { HasClocks system.now (task_at system.now task.0).res.0 clocks.now (resource_of system.now task.0).kind }
    requires room { length (tasks_on system.now (task_at system.now task.0).res.0) ≤ length rivals.old }
    ensures value { IfOk result (λ b. b ≡ bound_by_kind system.now x.now task.0 own.now (resource_of system.now task.0).kind) }
    ensures room { length rivals.new ≡ length rivals.old }
{
    match system.resource(system.task(task).res).kind {
        Kind::Preemptive => {
            let blocking = blocking_within(system, task, Kind::Preemptive, shared.longest);
            preemptive(
                alloc, system, task, x, own, blocking, inputs, rivals, clocks, gathered,
            )
        }
        Kind::Ceiling => {
            let blocking = blocking_within(system, task, Kind::Ceiling, shared.longest);
            preemptive(
                alloc, system, task, x, own, blocking, inputs, rivals, clocks, gathered,
            )
        }
        Kind::RoundRobin => Ok(round_robin(system, task, x, own, inputs, rivals)),
        Kind::Tdma { gap: _ } => Ok(tdma(system, task, own, shared.cycle)),
        Kind::Can { bit } => can(
            alloc, system, task, x, own, bit, inputs, rivals, clocks, gathered,
        ),
        Kind::Fifo => Ok(fifo(system, task, x, own, inputs, rivals)),
    }
}

/// The bound under preemptive priority, also with ceilings, of a task that is blocked for so many ticks at most.
fn preemptive(
    alloc: Global,
    system: &System,
    task: TaskId,
    x: &Vector,
    own: &Model,
    blocking: u64,
    inputs: &[Option<Model>],
    rivals: &mut [Rival],
    clocks: &Clocks,
    gathered: &mut Gathered,
) -> Result<Bound, NoMemory>
    requires rules { IsSystem system.now }
    requires there { task.0 < length system.now.tasks }
    requires vector { IsVector system.now x.now }
    requires own { IsModelInRange own.now }
    requires received { input system.now x.now task.0 ≡ Some own.now }
    requires small { blocking ≤ MAX_EXECUTION }
    requires long { length system.now.tasks ≤ length inputs.now }
    requires known { AreInputs system.now (task_at system.now task.0).res.0 x.now inputs.now }
    requires clocks { AreAnchored system.now (task_at system.now task.0).res.0 clocks.now }
    requires room { length (tasks_on system.now (task_at system.now task.0).res.0) ≤ length rivals.old }
    ensures value { IfOk result (λ b. b ≡ priority_bound system.now x.now task.0 own.now blocking) }
    ensures room { length rivals.new ≡ length rivals.old }
{
    if clocks.is_on() {
        return preemptive_by_clocks(alloc, system, task, own, blocking, inputs, clocks, gathered);
    }
    plain_bounds_are_the_same();
    let count = gather_higher(system, task, x, inputs, rivals);
    let entry = system.task(task);
    let limit = system.resource(entry.res).limit;
    let rivals = &rivals[..count];
    Ok(cpa_spp::respond(own, entry.worst, blocking, rivals, limit))
}

/// The bound under slotted round robin.
fn round_robin(
    system: &System,
    task: TaskId,
    x: &Vector,
    own: &Model,
    inputs: &[Option<Model>],
    rivals: &mut [Rival],
) -> Bound
    requires there { task.0 < length system.now.tasks }
    requires kind { (resource_of system.now task.0).kind ≡ RoundRobin }
    requires vector { IsVector system.now x.now }
    requires own { IsModelInRange own.now }
    requires long { length system.now.tasks ≤ length inputs.now }
    requires known { AreInputs system.now (task_at system.now task.0).res.0 x.now inputs.now }
    requires room { length (tasks_on system.now (task_at system.now task.0).res.0) ≤ length rivals.old }
    ensures value { result ≡ bound_by_kind system.now x.now task.0 own.now RoundRobin }
    ensures room { length rivals.new ≡ length rivals.old }
{
    let count = gather_others(system, task, x, inputs, rivals);
    let entry = system.task(task);
    let limit = system.resource(entry.res).limit;
    cpa_rr::respond(own, entry.worst, entry.turn.slot(), &rivals[..count], limit)
}

/// The bound under TDMA, which is the same at every vector. The gap is in the cycle.
fn tdma(system: &System, task: TaskId, own: &Model, cycle: u64) -> Bound
    requires rules { IsSystem system.now }
    requires there { task.0 < length system.now.tasks }
    requires slot { IsExecution (slot_of (task_at system.now task.0).turn) }
    requires own { IsModelInRange own.now }
    requires cycle { cycle ≡ cycle_of system.now (task_at system.now task.0).res.0 }
    ensures { (x : List Bound) (gap : ℕ) → result ≡ bound_by_kind system.now x task.0 own.now (Tdma gap) }
{
    let entry = system.task(task);
    let limit = system.resource(entry.res).limit;
    cpa_tdma::respond(own, entry.worst, entry.turn.slot(), cycle, limit)
}

/// The bound where jobs are served in the order in which they came: all other tasks are rivals.
fn fifo(
    system: &System,
    task: TaskId,
    x: &Vector,
    own: &Model,
    inputs: &[Option<Model>],
    rivals: &mut [Rival],
) -> Bound
    requires there { task.0 < length system.now.tasks }
    requires vector { IsVector system.now x.now }
    requires own { IsModelInRange own.now }
    requires long { length system.now.tasks ≤ length inputs.now }
    requires known { AreInputs system.now (task_at system.now task.0).res.0 x.now inputs.now }
    requires room { length (tasks_on system.now (task_at system.now task.0).res.0) ≤ length rivals.old }
    ensures value { result ≡ bound_by_kind system.now x.now task.0 own.now Fifo }
    ensures room { length rivals.new ≡ length rivals.old }
{
    let others = gather_others(system, task, x, inputs, rivals);
    let entry = system.task(task);
    let limit = system.resource(entry.res).limit;
    cpa_fifo::respond(own, entry.worst, &rivals[..others], limit)
}

/// The bound on a CAN bus whose bits take so many ticks.
fn can(
    alloc: Global,
    system: &System,
    task: TaskId,
    x: &Vector,
    own: &Model,
    bit: u64,
    inputs: &[Option<Model>],
    rivals: &mut [Rival],
    clocks: &Clocks,
    gathered: &mut Gathered,
) -> Result<Bound, NoMemory>
    requires rules { IsSystem system.now }
    requires there { task.0 < length system.now.tasks }
    requires kind { (resource_of system.now task.0).kind ≡ Can bit }
    requires vector { IsVector system.now x.now }
    requires own { IsModelInRange own.now }
    requires received { input system.now x.now task.0 ≡ Some own.now }
    requires long { length system.now.tasks ≤ length inputs.now }
    requires known { AreInputs system.now (task_at system.now task.0).res.0 x.now inputs.now }
    requires clocks { AreAnchored system.now (task_at system.now task.0).res.0 clocks.now }
    requires room { length (tasks_on system.now (task_at system.now task.0).res.0) ≤ length rivals.old }
    ensures value { IfOk result (λ b. b ≡ bound_by_kind system.now x.now task.0 own.now (Can bit)) }
    ensures room { length rivals.new ≡ length rivals.old }
{
    let longest = blocking(system, task, Kind::Can { bit });
    if clocks.is_on() {
        return can_by_clocks(
            alloc, system, task, own, longest, bit, inputs, clocks, gathered,
        );
    }
    plain_bounds_are_the_same();
    let count = gather_higher(system, task, x, inputs, rivals);
    let entry = system.task(task);
    let limit = system.resource(entry.res).limit;
    let rivals = &rivals[..count];
    Ok(cpa_can::respond(own, entry.worst, longest, rivals, bit, limit))
}

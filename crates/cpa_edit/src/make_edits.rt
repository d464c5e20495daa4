//! Making the edits, one by one. None of them breaks a rule.

ghost use Rattle.std.specs.Prelude.{◌≡◌, ◌<◌, ◌^◌, None, OnOk, OnErr, unwrap_or};
ghost use Rattle.cpa_model.specs.Rules.{IsSystem};
ghost use Rattle.cpa_model.specs.declared.entries.Activator.TheVariants as activator;
ghost use Rattle.cpa_edit.specs.declared.edit.Edit.TheVariants.{Exec, Priority, Swap, Slot, Source, Offset, Add, Remove};
ghost use Rattle.cpa_edit.specs.Named.{activator_named, turn_of};
ghost use Rattle.cpa_edit.specs.Edited.{change, refusal};

use crate::edit::Numbers;
use crate::lookups::{find_activator, resource_named, source_named, task_named};
use cpa_model::{Activator, Activators, Kind, Locks, System, Task, Turn};
use cpa_units::{Name, NoMemory, SourceId};
use std::alloc::Global;

pub(crate) fn make_exec(system: &mut System, task: &Name, best: u64, worst: u64)
    requires { refusal system.old (Exec task.now best worst) ≡ None }
    ensures { system.new ≡ change system.old (Exec task.now best worst) }
{
    system.has_rules();
    let id = task_named(system, task);
    system.set_exec(id, best, worst);
}

pub(crate) fn make_priority(system: &mut System, task: &Name, number: u64)
    requires allowed { refusal system.old (Priority task.now number) ≡ None }
    requires rules { IsSystem (change system.old (Priority task.now number)) }
    ensures { system.new ≡ change system.old (Priority task.now number) }
{
    let id = task_named(system, task);
    system.set_turn(id, Turn::Priority(number as u32));
}

pub(crate) fn make_swap(system: &mut System, first: &Name, second: &Name)
    requires allowed { refusal system.old (Swap first.now second.now) ≡ None }
    requires rules { IsSystem (change system.old (Swap first.now second.now)) }
    ensures { system.new ≡ change system.old (Swap first.now second.now) }
{
    let one = task_named(system, first);
    let other = task_named(system, second);
    system.swap_turns(one, other);
}

pub(crate) fn make_slot(system: &mut System, task: &Name, ticks: u64)
    requires allowed { refusal system.old (Slot task.now ticks) ≡ None }
    requires rules { IsSystem (change system.old (Slot task.now ticks)) }
    ensures { system.new ≡ change system.old (Slot task.now ticks) }
{
    let id = task_named(system, task);
    system.set_turn(id, Turn::Slot(ticks));
}

pub(crate) fn make_source(system: &mut System, name: &Name, period: u64, jitter: u64, distance: u64)
    requires allowed { refusal system.old (Source name.now period jitter distance) ≡ None }
    requires rules { IsSystem (change system.old (Source name.now period jitter distance)) }
    ensures { system.new ≡ change system.old (Source name.now period jitter distance) }
{
    let id = source_named(system, name);
    system.set_source(id, period, jitter, distance);
}

pub(crate) fn make_offset(system: &mut System, name: &Name, offset: u64)
    requires allowed { refusal system.old (Offset name.now offset) ≡ None }
    requires rules { IsSystem (change system.old (Offset name.now offset)) }
    ensures { system.new ≡ change system.old (Offset name.now offset) }
{
    let id = source_named(system, name);
    system.set_offset(id, offset);
}

/// The source or the task with a name, where there is one.
fn activator_named(system: &System, name: &Name) -> Activator
    ensures { result ≡ unwrap_or (activator_named system.now name.now) (activator.Source (record { 0 = 0 })) }
{
    find_activator(system, name).unwrap_or(Activator::Source(SourceId(0)))
}

/// What a number is on a resource of a kind: a priority or a slot, and neither where tasks queue.
fn turn_of(kind: Kind, number: u64) -> Turn
    requires { number < 2 ^ 32 }
    ensures { result ≡ turn_of kind number }
{
    match kind {
        Kind::Preemptive | Kind::Can { bit: _ } | Kind::Ceiling => { Turn::Priority(number as u32) }
        Kind::RoundRobin | Kind::Tdma { gap: _ } => Turn::Slot(number),
        Kind::Fifo => Turn::Queued,
    }
}

pub(crate) fn make_addition(
    alloc: Global,
    system: &mut System,
    name: &Name,
    res: &Name,
    after: &Name,
    numbers: Numbers,
) -> Result<(), NoMemory>
    requires allowed { refusal system.old (Add name.now res.now after.now numbers.best numbers.worst numbers.number) ≡ None }
    requires rules { IsSystem (change system.old (Add name.now res.now after.now numbers.best numbers.worst numbers.number)) }
    ensures made { OnOk result (system.new ≡ change system.old (Add name.now res.now after.now numbers.best numbers.worst numbers.number)) }
    ensures unchanged { OnErr result (system.new ≡ system.old) }
{
    let place = resource_named(system, res);
    let turn = turn_of(system.resource(place).kind, numbers.number);
    let task = Task {
        name: name.copy(alloc)?,
        res: place,
        after: Activators::one(activator_named(system, after)),
        best: numbers.best,
        worst: numbers.worst,
        turn,
        region: 1,
        locks: Locks::none(),
    };
    system.push_task(task)?;
    Ok(())
}

pub(crate) fn make_removal(system: &mut System, task: &Name)
    requires allowed { refusal system.old (Remove task.now) ≡ None }
    requires rules { IsSystem (change system.old (Remove task.now)) }
    ensures { system.new ≡ change system.old (Remove task.now) }
{
    let id = task_named(system, task);
    system.remove_task(id);
}

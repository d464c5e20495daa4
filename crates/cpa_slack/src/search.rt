//! The search for the most ticks by which a task may grow.

ghost use Rattle.std.specs.Prelude.{◌≡◌, ◌<◌, ◌≤◌, ◌+◌, ◌↔◌, IsTrue, length, IfOk, OnOk, if◌then◌else◌};
ghost use Rattle.cpa_units.specs.Sizes.{most_execution};
ghost use Rattle.cpa_units.specs.Bounds.{IsNowhereAbove};
ghost use Rattle.cpa_model.specs.SystemLists.{task_at, path_at};
ghost use Rattle.cpa_local.specs.Solution.{IsVector, least_of};
ghost use Rattle.cpa_local.specs.Trails.{IsKept, NewMarksAre, AreMarked};
ghost use Rattle.cpa_slack.specs.Slack.{longer, IsLonger, HoldsPath, HoldsAt, Holds, IsMostUpTo, IsSlack};

use crate::slack::Slack;
use cpa_fix::{Readings, Round, solve};
use cpa_local::{Trail, floor, path_worst};
use cpa_model::System;
use cpa_units::{Bound, NoMemory, PathId, TaskId, Vector};
use std::alloc::Global;

/// The task of a system that is to grow, and by how many ticks at most.
#[derive(Drop)]
struct Growth<'a> {
    system: &'a System,
    task: TaskId,
    most: u64,
    ghost there: { task.0 < length system.now.tasks },
    ghost in_range: { (task_at system.now task.0).worst + most ≤ most_execution system.now.size },
}

/// A copy of a system in which a task may have grown, and a vector from which the search for its least
/// solution may begin: the least solution with the most ticks that are known to hold.
#[derive(Drop)]
struct Trial {
    system: System,
    held: Vector,
}

/// Whether a path takes at most its deadline by these bounds, if it has one.
fn path_holds(system: &System, path: PathId, x: &Vector) -> bool
    requires there { path.0 < length system.now.paths }
    requires vector { IsVector system.now x.now }
    ensures { IsTrue result ↔ HoldsPath x.now (path_at system.now path.0) }
{
    match system.path(path).deadline {
        None => true,
        Some(deadline) => match path_worst(system, path, x) {
            Bound::Within(worst) => worst <= deadline,
            Bound::Overload => false,
        },
    }
}

/// Whether each path does.
fn all_hold(system: &System, x: &Vector) -> bool
    requires { IsVector system.now x.now }
    ensures { IsTrue result ↔ HoldsAt system.now x.now }
{
    for k in 0..system.paths() {
        if !path_holds(system, PathId(k), x) {
            return false;
        }
    }
    true
}

/// The least solution of a system, searched for from a vector nowhere above it. The system is analysed
/// whole: every task of it is marked. Where memory is refused, too, new marks are of its tasks alone.
fn least<H: Sync, R: Round<H>>(
    rt: &H,
    alloc: Global,
    system: &System,
    start: Vector,
    round: &mut R,
    trail: &mut Trail,
) -> Result<Vector, NoMemory>
    requires vector { IsVector system.now start }
    requires below { IsNowhereAbove start (least_of system.now) }
    requires room { length system.now.tasks ≤ trail.old.room }
    ensures least { IfOk result (λ x. x ≡ least_of system.now) }
    ensures vector { IfOk result (IsVector system.now) }
    ensures kept { IsKept trail.old trail.new }
    ensures fresh { NewMarksAre trail.old trail.new (λ i. i < length system.now.tasks) }
    ensures marked { OnOk result (AreMarked trail.new (λ i. i < length system.now.tasks)) }
{
    system.has_rules();
    let kept = Readings::none(alloc, system)?;
    let solution = solve(rt, alloc, system, start, kept, round, trail)?;
    Ok(solution.bounds)
}

/// By how much the greatest execution of a task may grow, in ticks, while each path with a deadline
/// takes at most that in the least solution. The trail has room for all tasks. The system is analysed
/// whole: every task of it is marked. Where memory is refused, too, new marks are of its tasks alone.
pub fn find_slack<H: Sync, R: Round<H>>(
    rt: &H,
    alloc: Global,
    system: &System,
    task: TaskId,
    round: &mut R,
    trail: &mut Trail,
) -> Result<Slack, NoMemory>
    requires there { task.0 < length system.now.tasks }
    requires room { length system.now.tasks ≤ trail.old.room }
    ensures slack { IfOk result (IsSlack system.now task.0) }
    ensures kept { IsKept trail.old trail.new }
    ensures fresh { NewMarksAre trail.old trail.new (λ i. i < length system.now.tasks) }
    ensures marked { OnOk result (AreMarked trail.new (λ i. i < length system.now.tasks)) }
{
    system.has_rules();
    let start = floor(alloc, system)?;
    let bounds = least(rt, alloc, system, start, round, trail)?;
    if !all_hold(system, &bounds) {
        return Ok(Slack::Missed);
    }
    let room = system.size().most_execution() - system.task(task).worst;
    let growth = Growth {
        system,
        task,
        most: room,
    };
    let ticks = most_ticks(rt, alloc, &growth, bounds, round, trail)?;
    Ok(Slack::Add {
        ticks,
        limit: ticks == room,
    })
}

/// The most ticks with which all holds, where it does without any.
fn most_ticks<H: Sync, R: Round<H>>(
    rt: &H,
    alloc: Global,
    growth: &Growth,
    bounds: Vector,
    round: &mut R,
    trail: &mut Trail,
) -> Result<u64, NoMemory>
    requires holds { Holds growth.now.system.now }
    requires bounds { bounds ≡ least_of growth.now.system.now }
    requires room { length growth.now.system.now.tasks ≤ trail.old.room }
    ensures found { IfOk result (IsMostUpTo growth.now.system.now growth.now.task.0 growth.now.most) }
    ensures kept { IsKept trail.old trail.new }
    ensures fresh { NewMarksAre trail.old trail.new (λ i. i < length growth.now.system.now.tasks) }
{
    let system = growth.system.copy(alloc)?;
    let mut trial = Trial {
        system,
        held: bounds,
    };
    halve(rt, alloc, growth, &mut trial, round, trail)
}

/// The same by a copy of the system and its least solution. Each search begins at the least solution
/// with the most ticks that are known to hold by then, at first that without any.
fn halve<H: Sync, R: Round<H>>(
    rt: &H,
    alloc: Global,
    growth: &Growth,
    trial: &mut Trial,
    round: &mut R,
    trail: &mut Trail,
) -> Result<u64, NoMemory>
    requires holds { Holds growth.now.system.now }
    requires longer { IsLonger growth.now.system.now growth.now.task.0 trial.old.system }
    requires held { trial.old.held ≡ least_of growth.now.system.now }
    requires room { length growth.now.system.now.tasks ≤ trail.old.room }
    ensures found { IfOk result (IsMostUpTo growth.now.system.now growth.now.task.0 growth.now.most) }
    ensures kept { IsKept trail.old trail.new }
    ensures fresh { NewMarksAre trail.old trail.new (λ i. i < length growth.now.system.now.tasks) }
{
    growth.system.has_rules();
    let mut holding = 0;
    let mut past = growth.most + 1;
    while past - holding > 1 {
        let middle = holding + (past - holding) / 2;
        lengthen(&mut trial.system, growth, middle);
        if holds_longer(rt, alloc, trial, round, trail)? {
            holding = middle;
        } else {
            past = middle;
        }
    }
    Ok(holding)
}

/// Whether all holds in the system of a trial. If so, the vector from which the search may begin becomes
/// its least solution, else it stays.
fn holds_longer<H: Sync, R: Round<H>>(
    rt: &H,
    alloc: Global,
    trial: &mut Trial,
    round: &mut R,
    trail: &mut Trail,
) -> Result<bool, NoMemory>
    requires vector { IsVector trial.old.system trial.old.held }
    requires below { IsNowhereAbove trial.old.held (least_of trial.old.system) }
    requires room { length trial.old.system.tasks ≤ trail.old.room }
    ensures system { trial.new.system ≡ trial.old.system }
    ensures holds { IfOk result (λ holds. IsTrue holds ↔ Holds trial.old.system) }
    ensures held { IfOk result (λ holds. trial.new.held ≡ (if holds then least_of trial.old.system else trial.old.held)) }
    ensures kept { IsKept trail.old trail.new }
    ensures fresh { NewMarksAre trail.old trail.new (λ i. i < length trial.old.system.tasks) }
{
    let start = trial.held.copy(alloc)?;
    let found = least(rt, alloc, &trial.system, start, round, trail)?;
    if all_hold(&trial.system, &found) {
        trial.held = found;
        Ok(true)
    } else {
        Ok(false)
    }
}

/// Lets the task of a copy, which may have another greatest execution there already, take so many ticks
/// more than in the system.
fn lengthen(copy: &mut System, growth: &Growth, ticks: u64)
    requires few { ticks ≤ growth.now.most }
    requires copy { IsLonger growth.now.system.now growth.now.task.0 copy.old }
    ensures { copy.new ≡ longer growth.now.system.now growth.now.task.0 ticks }
{
    let task = growth.task;
    growth.system.has_rules();
    let entry = growth.system.task(task);
    copy.set_exec(task, entry.best, entry.worst + ticks);
}

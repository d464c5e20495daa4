//! The search for the least solution.

ghost use Rattle.std.specs.Prelude.{ℕ, ◌<◌, ◌≡◌, ◌↔◌, IsTrue, length, IfOk};
ghost use Rattle.std.specs.Bool.{OnTrue, OnFalse};
ghost use Rattle.std.specs.Result.{OnOk};
ghost use Rattle.cpa_units.specs.Sets.{Members};
ghost use Rattle.cpa_model.specs.Rules.{IsSystem};
ghost use Rattle.cpa_local.specs.Solution.{IsVector, IsLeast, least_of};
ghost use Rattle.cpa_local.specs.Trails.{IsKept, NewMarksAre, AreMarked};
ghost use Rattle.cpa_depend.specs.Cone.{Reads, InCone, AreReads, IsClosedUnder};
ghost use Rattle.cpa_fix.specs.Readings.{AgreeOnReads, AreSound, HasCleanReading, AreCleanBeyond, AreKeptBeyond, IsDirty, IsSolved};
ghost use Rattle.cpa_local.specs.Rising.{TasksOn};
ghost use Rattle.cpa_fix.specs.Rounds.{MayStart};
ghost use Rattle.cpa_fix.specs.Stale.{Differs, DiffersOn, AgreeOn, IsStale, AreStale};

use crate::readings::Readings;
use crate::rounds::Round;
use cpa_depend::reads_of_all;
use cpa_local::{Trail, floor};
use cpa_model::System;
use cpa_units::{Bound, NoMemory, ResId, ResSet, Vector};
use std::alloc::Global;

/// The least solution, with a reading of each resource.
#[derive(Debug, Drop)]
pub struct Solution {
    pub bounds: Vector,
    pub readings: Readings,
}

/// The least solution of a system, in ticks, by rounds that begin at `start` with the readings that
/// are kept and go on until every resource is clean. The start is a vector of the system nowhere above
/// the least solution, the readings are sound at it, and the trail has room for all tasks.
///
/// All tasks on resources that were dirty at the start are then marked. New marks are of tasks on
/// resources in their cone alone, also where memory is refused; start and readings are given up then.
pub fn solve<H: Sync, R: Round<H>>(
    rt: &H,
    alloc: Global,
    system: &System,
    start: Vector,
    kept: Readings,
    round: &mut R,
    trail: &mut Trail,
) -> Result<Solution, NoMemory>
    requires { MayStart system.now start kept trail.old }
    ensures least { IfOk result (λ it. IsLeast system.now it.bounds) }
    ensures solved { IfOk result (λ it. IsSolved system.now it.bounds it.readings) }
    ensures kept { IsKept trail.old trail.new }
    ensures fresh { NewMarksAre trail.old trail.new (TasksOn system.now (InCone system.now (IsDirty system.now kept start))) }
    ensures marked { OnOk result (AreMarked trail.new (TasksOn system.now (IsDirty system.now kept start))) }
{
    let reads = reads_of_all(system);
    let all = ResSet::first(system.resources());
    solve_within(rt, alloc, system, &reads, all, start, kept, round, trail)
}

/// The same, where resources beyond `reach` are known to be clean at the start, and `reach` has every
/// resource that reads a member: only members are looked at, and the readings of others are kept. The
/// table says what each resource reads.
pub fn solve_within<H: Sync, R: Round<H>>(
    rt: &H,
    alloc: Global,
    system: &System,
    reads: &[ResSet; 128],
    reach: ResSet,
    start: Vector,
    kept: Readings,
    round: &mut R,
    trail: &mut Trail,
) -> Result<Solution, NoMemory>
    requires start { MayStart system.now start kept trail.old }
    requires reads { AreReads system.now reads.now }
    requires beyond { AreCleanBeyond system.now kept start reach }
    requires closed { IsClosedUnder system.now reach }
    ensures least { IfOk result (λ it. IsLeast system.now it.bounds) }
    ensures solved { IfOk result (λ it. IsSolved system.now it.bounds it.readings) }
    ensures beyond { IfOk result (λ it. AreKeptBeyond kept it.readings reach) }
    ensures kept { IsKept trail.old trail.new }
    ensures fresh { NewMarksAre trail.old trail.new (TasksOn system.now (InCone system.now (IsDirty system.now kept start))) }
    ensures marked { OnOk result (AreMarked trail.new (TasksOn system.now (IsDirty system.now kept start))) }
{
    let mut x = start;
    let mut readings = kept;
    let mut dirty = dirty_resources(system, reads, reach, &x, &readings);
    'rounds: while let Some(set) = dirty {
        round.round(rt, alloc, system, &mut x, set, &mut readings, trail)?;
        dirty = dirty_resources(system, reads, reach, &x, &readings);
    }
    Ok(Solution {
        bounds: x,
        readings,
    })
}

/// The resources that aren't clean, where the table says what each reads and those beyond `reach` are
/// clean; none where all are.
fn dirty_resources(
    system: &System,
    reads: &[ResSet; 128],
    reach: ResSet,
    x: &Vector,
    readings: &Readings,
) -> Option<ResSet>
    requires reads { AreReads system.now reads.now }
    requires vector { IsVector system.now x.now }
    requires sound { AreSound system.now readings.now x.now }
    requires beyond { AreCleanBeyond system.now readings.now x.now reach }
    ensures stale { AreStale system.now readings.now x.now result }
    ensures rules { IsSystem system.now }
{
    let count = system.resources();
    let mut dirty = ResSet::none();
    let mut found = false;
    for place in 0..count {
        let res = ResId(place);
        if reach.has(res) && is_stale(system, res, reads[place as usize], x, readings) {
            dirty = dirty.with(res);
            found = true;
        }
    }
    if found { Some(dirty) } else { None }
}

/// Whether a resource that reads those of `read` has no reading that is up to date.
fn is_stale(system: &System, res: ResId, read: ResSet, x: &Vector, readings: &Readings) -> bool
    requires vector { IsVector system.now x.now }
    requires in_range { res.0 < length system.now.resources }
    requires read { (q : ℕ) → Members read q ↔ Reads system.now res.0 q }
    requires sound { AreSound system.now readings.now x.now }
    ensures yes { OnTrue result (IsStale system.now readings.now x.now res.0) }
    ensures no { OnFalse result (HasCleanReading system.now readings.now x.now res.0) }
{
    match readings.get(res) {
        None => true,
        Some(reading) => differs(system, res, read, &reading.seen, x),
    }
}

/// Whether two vectors differ for a task on one of the resources of `read`, which `res` reads.
fn differs(system: &System, res: ResId, read: ResSet, seen: &Vector, x: &Vector) -> bool
    requires in_range { res.0 < length system.now.resources }
    requires read { (q : ℕ) → Members read q ↔ Reads system.now res.0 q }
    requires seen { IsVector system.now seen.now }
    requires vector { IsVector system.now x.now }
    ensures yes { OnTrue result (Differs system.now res.0 seen.now x.now) }
    ensures no { OnFalse result (AgreeOnReads system.now res.0 seen.now x.now) }
{
    system.has_rules();
    let mut from = 0;
    'others: while let Some(other) = read.next(from) {
        if differs_on(system, other, seen, x) {
            return true;
        }
        from = other.0 + 1;
    }
    false
}

/// Whether two vectors differ for a task on a resource.
fn differs_on(system: &System, res: ResId, seen: &Vector, x: &Vector) -> bool
    requires in_range { res.0 < length system.now.resources }
    requires seen { IsVector system.now seen.now }
    requires vector { IsVector system.now x.now }
    ensures yes { OnTrue result (DiffersOn system.now res.0 seen.now x.now) }
    ensures no { OnFalse result (AgreeOn system.now res.0 seen.now x.now) }
{
    for task in system.tasks_on(res) {
        if !is_same(seen.get(*task), x.get(*task)) {
            return true;
        }
    }
    false
}

/// Whether two bounds are equal.
fn is_same(a: Bound, b: Bound) -> bool
    ensures { IsTrue result ↔ (a ≡ b) }
{
    match (a, b) {
        (Bound::Within(m), Bound::Within(n)) => m == n,
        (Bound::Overload, Bound::Overload) => true,
        _ => false,
    }
}

/// The bounds of the least solution of a system, in ticks, found from nothing by rounds of this kind.
pub fn least_bounds<H: Sync, R: Round<H>>(
    rt: &H,
    alloc: Global,
    system: &System,
    round: &mut R,
) -> Result<Vector, NoMemory>
    ensures least { IfOk result (λ x. IsLeast system.now x) }
    ensures value { IfOk result (λ x. x ≡ least_of system.now) }
    ensures vector { IfOk result (λ x. IsVector system.now x) }
{
    let start = floor(alloc, system)?;
    let kept = Readings::none(alloc, system)?;
    let mut trail = Trail::with_room(alloc, system.tasks())?;
    let solution = solve(rt, alloc, system, start, kept, round, &mut trail)?;
    Ok(solution.bounds)
}

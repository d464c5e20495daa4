mod gates;

use crate::systems::{ENDLESS_JITTER, needs_shared};
use cpa_file::read_system;
use cpa_fix::{OneByOne, Readings, Round, solve};
use cpa_local::{Trail, floor};
use cpa_model::System;
use cpa_units::Bound::{Overload, Within};
use cpa_units::{Bound, ResId, ResSet, TaskId};
use cpa_workers::{Gate, NoGate, Shared};
use gates::{FREE, IN_TURN, MEET, TURNED, held};
use std::alloc::Global;
use std::sync::atomic::Ordering::SeqCst;
use std::test::Fail;

/// The bounds of the tasks.
const BOUNDS: [Bound; 5] = [Overload, Overload, Overload, Overload, Within(4)];

/// Whether a search by these rounds finds the bounds of the tasks.
fn finds_bounds<H: Sync, R: Round<H>>(
    rt: &H,
    alloc: Global,
    system: &System,
    round: &mut R,
) -> Result<bool, Fail> {
    let mut trail = Trail::with_room(alloc, system.tasks())?;
    let start = floor(alloc, system)?;
    let kept = Readings::none(alloc, system)?;
    let found = solve(rt, alloc, system, start, kept, round, &mut trail)?;
    let mut right = found.bounds.len() == 5;
    for place in 0..found.bounds.len() {
        right = right && BOUNDS.get(place as usize) == Some(&found.bounds.get(TaskId(place)));
    }
    Ok(right)
}

/// The bound of a task in the reading of a resource, after a round over all.
fn seen_in_round<H: Sync, R: Round<H>>(
    rt: &H,
    alloc: Global,
    system: &System,
    round: &mut R,
    (res, task): (ResId, TaskId),
) -> Result<Option<Bound>, Fail> {
    let mut x = floor(alloc, system)?;
    let mut kept = Readings::none(alloc, system)?;
    let mut trail = Trail::with_room(alloc, system.tasks())?;
    let dirty = ResSet::first(system.resources());
    round.round(rt, alloc, system, &mut x, dirty, &mut kept, &mut trail)?;
    if res.0 >= system.resources() {
        return Ok(None);
    }
    match kept.get(res) {
        Some(reading) if task.0 < reading.seen.len() => Ok(Some(reading.seen.get(task))),
        _ => Ok(None),
    }
}

/// Two workers: while one has q, the other analyses p and goes on to r; q then sees what came of p.
#[test]
fn raise_is_seen(rt: HostRuntime) -> Result<(), Fail> {
    let alloc = rt.alloc();
    let system = read_system(alloc, ENDLESS_JITTER.as_bytes())?;
    let (gate, meetings) = held(alloc, IN_TURN)?;
    let mut round: Shared<Box<dyn Gate>> = Shared::new(2, gate);
    let seen = seen_in_round(&rt, alloc, &system, &mut round, (ResId(1), TaskId(0)))?;
    assert!(rt; meetings.missed.load(SeqCst) == 0 && seen == Some(Within(90)));
    Ok(())
}

/// While one worker is held before p, the other analyses q and goes on to r; p then sees what came of q, which it
/// wouldn't on one thread, where p comes first.
#[test]
fn raise_is_seen_back(rt: HostRuntime) -> Result<(), Fail> {
    let alloc = rt.alloc();
    let system = read_system(alloc, ENDLESS_JITTER.as_bytes())?;
    let (gate, meetings) = held(alloc, TURNED)?;
    let mut round: Shared<Box<dyn Gate>> = Shared::new(2, gate);
    let seen = seen_in_round(&rt, alloc, &system, &mut round, (ResId(0), TaskId(2)))?;
    assert!(rt; meetings.missed.load(SeqCst) == 0 && seen == Some(Within(90)));
    Ok(())
}

/// Two analyses are under way at the same time.
#[test]
fn analyses_meet(rt: HostRuntime) -> Result<(), Fail> {
    let alloc = rt.alloc();
    let system = read_system(alloc, ENDLESS_JITTER.as_bytes())?;
    let (gate, meetings) = held(alloc, MEET)?;
    let mut round: Shared<Box<dyn Gate>> = Shared::new(2, gate);
    let right = finds_bounds(&rt, alloc, &system, &mut round)?;
    assert!(rt; right && meetings.met.load(SeqCst) >= 2 && meetings.missed.load(SeqCst) == 0);
    Ok(())
}

/// However many workers there are, the bounds are those of one thread without a board. Through a gate all of them come; with
/// none as many as pay, which is one here.
#[test]
fn workers_agree(rt: HostRuntime) -> Result<(), Fail> {
    let alloc = rt.alloc();
    let system = read_system(alloc, ENDLESS_JITTER.as_bytes())?;
    let mut right = finds_bounds(&rt, alloc, &system, &mut OneByOne)?;
    let mut paying = Shared::new(2, NoGate);
    needs_shared(&paying);
    right = right && finds_bounds(&rt, alloc, &system, &mut paying)?;
    for workers in [1, 2, 3, 64] {
        let (gate, _meetings) = held(alloc, FREE)?;
        let mut round: Shared<Box<dyn Gate>> = Shared::new(workers, gate);
        right = right && finds_bounds(&rt, alloc, &system, &mut round)?;
    }
    assert!(rt; right);
    Ok(())
}

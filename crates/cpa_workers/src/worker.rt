//! What one worker does.

ghost use Rattle.std.specs.Prelude.{◌≡◌, ℕ, ◌<◌, length, IfOk};
ghost use Rattle.std.specs.Result.{OnOk};
ghost use Rattle.cpa_units.specs.Bounds.{IsAtMost, IsNowhereAbove, bound_of};
ghost use Rattle.cpa_units.specs.Sets.{Members};
ghost use Rattle.cpa_model.specs.SystemLists.{task_at};
ghost use Rattle.cpa_local.specs.Solution.{IsVector, least_of};
ghost use Rattle.cpa_workers.specs.BoardWords.{bound_at, IsNoLower};
ghost use Rattle.cpa_workers.specs.Workers.{AreDirty, IsSeated, IsLook, IsWork};

use crate::board_words::read_word;
use crate::gate::Gate;
use cpa_board::{Board, Seat};
use cpa_depend::reads;
use cpa_fix::{Readings, analyse};
use cpa_local::Trail;
use cpa_model::System;
use cpa_units::{NoMemory, ResId, ResSet, Vector};
use std::alloc::Global;

/// What all workers of a round share: the system, the board, the bounds at the start, and the dirty
/// resources, also as a list of places to claim.
#[derive(Clone, Copy)]
pub struct WorkerTask<'a> {
    pub system: &'a System,
    pub board: &'a Board,
    pub starts: &'a Vector,
    pub dirty: ResSet,
    pub list: &'a [ResId],
}

/// What a worker hands in.
#[derive(Drop)]
pub struct WorkerResult {
    pub seat: Seat,
    pub found: Readings,
    pub trail: Trail,
}

/// Takes the bounds on a dirty resource as the board has them now.
fn look_on(job: &WorkerTask, seat: &mut Seat, res: ResId, x: &mut Vector)
    requires in_range { res.0 < length job.now.system.now.resources }
    requires dirty { Members job.now.dirty res.0 }
    requires vector { IsVector job.now.system.now job.now.starts.now }
    requires seated { IsSeated job.now.system.now job.now.board.now job.now.starts.now seat.old }
    requires look { IsLook job.now.system.now job.now.dirty job.now.starts.now x.old seat.old.seen }
    ensures seated { IsSeated job.now.system.now job.now.board.now job.now.starts.now seat.new }
    ensures grew { IsNoLower seat.old.seen seat.new.seen }
    ensures look { IsLook job.now.system.now job.now.dirty job.now.starts.now x.new seat.new.seen }
{
    for task in job.system.tasks_on(res) {
        let word = seat.load(job.board, task.0);
        x.set(*task, read_word(word));
    }
}

/// The bounds at the start, with those on dirty resources that a resource reads as the board has them
/// now.
fn look(alloc: Global, job: &WorkerTask, seat: &mut Seat, res: ResId) -> Result<Vector, NoMemory>
    requires in_range { res.0 < length job.now.system.now.resources }
    requires vector { IsVector job.now.system.now job.now.starts.now }
    requires seated { IsSeated job.now.system.now job.now.board.now job.now.starts.now seat.old }
    ensures seated { IsSeated job.now.system.now job.now.board.now job.now.starts.now seat.new }
    ensures grew { IsNoLower seat.old.seen seat.new.seen }
    ensures look { IfOk result (λ x. IsLook job.now.system.now job.now.dirty job.now.starts.now x seat.new.seen) }
{
    let read = reads(job.system, res);
    let mut x = job.starts.copy(alloc)?;
    for place in 0..job.system.resources() {
        let on = ResId(place);
        if job.dirty.has(on) && read.has(on) {
            look_on(job, seat, on, &mut x);
        }
    }
    Ok(x)
}

/// Raises the words of the tasks on a resource to their bounds.
fn announce(job: &WorkerTask, seat: &mut Seat, res: ResId, x: &Vector)
    requires in_range { res.0 < length job.now.system.now.resources }
    requires vector { IsVector job.now.system.now x.now }
    requires below { IsNowhereAbove x.now (least_of job.now.system.now) }
    requires seated { IsSeated job.now.system.now job.now.board.now job.now.starts.now seat.old }
    ensures seated { IsSeated job.now.system.now job.now.board.now job.now.starts.now seat.new }
    ensures grew { IsNoLower seat.old.seen seat.new.seen }
    ensures told { (i : ℕ) → i < length job.now.system.now.tasks → (task_at job.now.system.now i).res.0 ≡ res.0 → IsAtMost (bound_of x.now i) (bound_at seat.new.seen i) }
{
    for task in job.system.tasks_on(res) {
        seat.raise(job.board, task.0, x.get(*task).word());
    }
}

/// Analyses a dirty resource at what the board has, and gives its result to the board.
fn visit(
    alloc: Global,
    job: &WorkerTask,
    seat: &mut Seat,
    res: ResId,
    found: &mut Readings,
    trail: &mut Trail,
) -> Result<(), NoMemory>
    requires in_range { res.0 < length job.now.system.now.resources }
    requires dirty { Members job.now.dirty res.0 }
    requires vector { IsVector job.now.system.now job.now.starts.now }
    requires work { IsWork job.now.system.now job.now.board.now job.now.dirty job.now.starts.now seat.old found.old trail.old }
    ensures { OnOk result (IsWork job.now.system.now job.now.board.now job.now.dirty job.now.starts.now seat.new found.new trail.new) }
{
    let mut x = look(alloc, job, seat, res)?;
    let reading = analyse(alloc, job.system, res, None, &mut x, trail)?;
    announce(job, seat, res, &x);
    found.put(res, reading);
    Ok(())
}

/// Claims places of the list, and analyses the resource at each.
pub fn work<G: Gate>(
    alloc: Global,
    job: &WorkerTask,
    mut seat: Seat,
    gate: &G,
) -> Result<WorkerResult, NoMemory>
    requires list { AreDirty job.now.system.now job.now.dirty job.now.list.now }
    requires vector { IsVector job.now.system.now job.now.starts.now }
    requires seated { IsSeated job.now.system.now job.now.board.now job.now.starts.now seat }
    ensures { IfOk result (λ h. IsWork job.now.system.now job.now.board.now job.now.dirty job.now.starts.now h.seat h.found h.trail) }
{
    let mut found = Readings::none(alloc, job.system)?;
    let mut trail = Trail::with_room(alloc, job.system.tasks())?;
    let most = job.list.len() + 1;
    'claims: for _ in 0..most {
        let place = seat.claim(job.board);
        if place >= job.list.len() as u64 {
            break;
        }
        let res = job.list[place as usize];
        gate.enter(res);
        visit(alloc, job, &mut seat, res, &mut found, &mut trail)?;
    }
    Ok(WorkerResult { seat, found, trail })
}

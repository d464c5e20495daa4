//! Workers side by side.

ghost use Rattle.std.specs.Prelude.{IfOk};
ghost use Rattle.std.specs.Thread.{IsSync};
ghost use Rattle.cpa_local.specs.Solution.{IsVector};
ghost use Rattle.cpa_workers.specs.Workers.{AreDirty, IsSeated, IsWork};

use crate::gate::Gate;
use crate::worker::{WorkerResult, WorkerTask, work};
use cpa_board::Seat;
use cpa_units::NoMemory;
use std::alloc::Global;
use std::thread::{Threads, join};

/// What two workers hand in, by one seat.
fn merge(job: &WorkerTask, one: WorkerResult, other: WorkerResult) -> WorkerResult
    requires one { IsWork job.now.system.now job.now.board.now job.now.dirty job.now.starts.now one.seat one.found one.trail }
    requires other { IsWork job.now.system.now job.now.board.now job.now.dirty job.now.starts.now other.seat other.found other.trail }
    ensures { IsWork job.now.system.now job.now.board.now job.now.dirty job.now.starts.now result.seat result.found result.trail }
{
    let WorkerResult {
        mut seat,
        mut found,
        mut trail,
    } = one;
    seat.join(job.board, other.seat);
    found.take_over(other.found);
    trail.join(&other.trail);
    WorkerResult { seat, found, trail }
}

/// So many workers, each with a seat of its own, and what they hand in together. The closures capture the
/// parts of the job one by one, since the contract of one that captures the job says nothing to its caller.
pub fn work_together<G: Gate, H: Threads + Sync>(
    rt: &H,
    alloc: Global,
    workers: u32,
    job: &WorkerTask,
    mut seat: Seat,
    gate: &G,
) -> Result<WorkerResult, NoMemory>
    requires list { AreDirty job.now.system.now job.now.dirty job.now.list.now }
    requires vector { IsVector job.now.system.now job.now.starts.now }
    requires seated { IsSeated job.now.system.now job.now.board.now job.now.starts.now seat }
    ensures { IfOk result (λ h. IsWork job.now.system.now job.now.board.now job.now.dirty job.now.starts.now h.seat h.found h.trail) }
{
    if workers <= 1 {
        return work(alloc, job, seat, gate);
    }
    let WorkerTask {
        system,
        board,
        starts,
        dirty,
        list,
    } = *job;
    let half = workers / 2;
    let rest = workers - half;
    let second = seat.split(board)?;
    let (one, other) = join(
        rt,
        move || -> Result<WorkerResult, NoMemory>
            requires sync { IsSync H.row }
            requires list { AreDirty system.now dirty list.now }
            requires vector { IsVector system.now starts.now }
            requires seated { IsSeated system.now board.now starts.now second }
            ensures handed { IfOk result (λ h. IsWork system.entry.now board.entry.now dirty starts.entry.now h.seat h.found h.trail) }
        {
            let job = WorkerTask {
                system: &*system,
                board: &*board,
                starts: &*starts,
                dirty,
                list: &*list,
            };
            work_together(rt, alloc, half, &job, second, gate)
        },
        move || -> Result<WorkerResult, NoMemory>
            requires sync { IsSync H.row }
            requires list { AreDirty system.now dirty list.now }
            requires vector { IsVector system.now starts.now }
            requires seated { IsSeated system.now board.now starts.now seat }
            ensures handed { IfOk result (λ h. IsWork system.entry.now board.entry.now dirty starts.entry.now h.seat h.found h.trail) }
        {
            let job = WorkerTask {
                system: &*system,
                board: &*board,
                starts: &*starts,
                dirty,
                list: &*list,
            };
            work_together(rt, alloc, rest, &job, seat, gate)
        },
    );
    Ok(merge(job, one?, other?))
}

//! Searches for the least solution by so many workers, and a board's opening and closing, which
//! bench/time_workers.py times.

ghost use Rattle.std.specs.Prelude.{◌≤◌};

use crate::crowd::crowd;
use cpa_fix::{OneByOne, Readings, Round, solve};
use cpa_local::{Trail, floor};
use cpa_model::System;
use cpa_units::NoMemory;
use cpa_workers::{Gate, NoGate, Shared};
use std::alloc::Global;
use std::thread::Threads;

fn search<H: Sync, R: Round<H>>(
    rt: &H,
    alloc: Global,
    system: &System,
    round: &mut R,
) -> Result<(), NoMemory> {
    let start = floor(alloc, system)?;
    let kept = Readings::none(alloc, system)?;
    let mut trail = Trail::with_room(alloc, system.tasks())?;
    solve(rt, alloc, system, start, kept, round, &mut trail)?;
    Ok(())
}

/// A search by so many workers, with any gate that rounds can be had for.
fn search_with<H: Threads + Sync, G: Gate>(
    rt: &H,
    alloc: Global,
    system: &System,
    workers: u32,
    gate: G,
) -> Result<(), NoMemory>
where
    Shared<G>: Round<H>,
    requires { (1 ≤ workers) × (workers ≤ 64) }
{
    search(rt, alloc, system, &mut Shared::new(workers, gate))
}

/// Without a system a board is opened and closed; with 0 workers the search is on this thread alone.
pub fn run_once<H: Threads + Sync>(
    rt: &H,
    alloc: Global,
    system: &Option<System>,
    workers: u32,
) -> Result<(), NoMemory>
where
    Shared<NoGate>: Round<H>,
{
    let Some(system) = system else {
        return crowd(alloc);
    };
    if workers == 0 {
        search(&(), alloc, system, &mut OneByOne)
    } else {
        search_with(rt, alloc, system, workers.min(64), NoGate)
    }
}

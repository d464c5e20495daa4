//! Does what the scripts of bench/ time alone: walks through busy windows, the reading of files, edits, traces, and
//! searches by several workers.
#![tactic(auto)]

mod bounds;
mod crowd;
mod edits;
mod reading;
mod searches;
mod traces;

use bounds::Rivals;
use cpa_fix::Round;
use cpa_io::RealFiles;
use cpa_model::System;
use cpa_units::Bound;
use cpa_workers::{NoGate, Shared};
use searches::run_once;
use std::alloc::Global;
use std::rt::Clock;
use std::thread::Threads;
use std::time::Instant;
use std::{env, io};

/// Prints the bound of each case.
fn print_bounds<R: AllocGlobal + Print>(rt: &R, alloc: Global, cases: &[String]) -> io::Result<()> {
    let rivals = Rivals::make(alloc)?;
    for case in cases {
        match rivals.bound(case) {
            Some(Bound::Within(ticks)) => println!(rt; "{case} {ticks}")?,
            Some(Bound::Overload) => println!(rt; "{case} overload")?,
            None => println!(rt; "{case} is no case")?,
        }
    }
    Ok(())
}

/// Prints the least nanoseconds of so many searches, and whether none of them wanted memory.
fn time_searches<R: Clock + Print + Threads + Sync>(
    rt: &R,
    alloc: Global,
    times: &str,
    workers: &str,
    system: &Option<System>,
) -> io::Result<()>
where
    Shared<NoGate>: Round<R>,
{
    let workers: u32 = workers.parse().unwrap_or(0);
    let times: u64 = times.parse().unwrap_or(1);
    let mut least = u128::MAX;
    let mut done = true;
    for _ in 0..times {
        let begun = Instant::now(rt)?;
        done = run_once(rt, alloc, system, workers).is_ok() && done;
        least = least.min(begun.elapsed(rt)?.as_nanos());
    }
    println!(rt; "done {done} nanoseconds {least}")?;
    Ok(())
}

fn main(rt: HostRuntime) -> io::Result<()> {
    let alloc = rt.alloc();
    let mut words = Vec::new(alloc);
    for word in env::args(&rt)?.skip(1) {
        words.push(word)?;
    }
    let mut files = RealFiles::new(&rt, alloc);
    let Some((what, words)) = words.as_slice().split_first() else {
        return Ok(());
    };
    let answer = match (what.as_str(), words) {
        ("bounds", cases) => return print_bounds(&rt, alloc, cases),
        ("searches", [times, workers]) => return time_searches(&rt, alloc, times, workers, &None),
        ("searches", [times, workers, file]) => {
            let system = reading::system_in(alloc, &mut files, file);
            return time_searches(&rt, alloc, times, workers, &system);
        }
        ("reading", [way, file]) => reading::answer(alloc, &mut files, way, file),
        ("edits", [way, file, script]) => edits::answer(alloc, &mut files, way, file, script),
        ("traces", [way, file, trace]) => traces::answer(alloc, &mut files, way, file, trace),
        _ => "words refused",
    };
    println!(rt; "{what} {answer}")?;
    Ok(())
}

//! Runs under many generated traces.

ghost use Rattle.std.specs.Prelude.{◌≡◌, ◌<◌, ◌≤◌, ◌-◌, ◌∷◌, [], IfOk, length};
ghost use Rattle.std.specs.List.{AllZip, range_with_len};
ghost use Rattle.std.specs.Result.{IsOkAnd};
ghost use Rattle.cpa_units.specs.declared.limits.TheConstants.{MAX_TRACES};
ghost use Rattle.cpa_local.specs.Solution.{IsClosed};
ghost use Rattle.cpa_gen.specs.Adding.{IsSmall, seen_plus};
ghost use Rattle.cpa_gen.specs.Seen.{seen_over};

use crate::observation::{Seen, see};
use cpa_model::System;
use cpa_units::{NoMemory, Vector};
use rayon::prelude::*;
use std::alloc::{AllocError, Global};
use std::cmp::min;
use std::thread::Threads;

/// How many runs are kept until they are added up.
const BATCH: u64 = 64;

/// Runs of a system under generated traces of a number, which are held against a vector.
#[derive(Drop)]
struct GeneratedRuns<'a> {
    system: &'a System,
    x: &'a Vector,
    number: u64,
    ghost long: { length x.now ≡ length system.now.tasks },
}

/// What is seen under traces `from` to `to`, without the last, each on any thread; in the order of the traces.
fn see_batch<R: Threads + Sync>(
    rt: &R,
    alloc: Global,
    runs: &GeneratedRuns,
    from: u64,
    to: u64,
) -> Result<Vec<Result<Seen, NoMemory>>, AllocError>
    ensures { IfOk result (λ v. AllZip (λ k s. IfOk s (λ seen. seen ≡ seen_over runs.now.system.now runs.now.x.now runs.now.number (k ∷ []))) (range_with_len from (to - from)) v.items) }
{
    let system = runs.system;
    let x = runs.x;
    let number = runs.number;
    (from..to)
        .into_par_iter()
        .with_min_len(1)
        .map(
            |k: u64| -> Result<Seen, NoMemory>
                requires { length x.now ≡ length system.now.tasks }
                ensures { IfOk result (λ seen. seen ≡ seen_over system.entry.now x.entry.now number (k ∷ [])) }
            { see(alloc, system, x, number, k) },
        )
        .collect(rt, alloc)
}

/// What is seen before, and in one run more.
fn add(alloc: Global, total: &Seen, one: &Result<Seen, NoMemory>) -> Result<Seen, NoMemory>
    requires small { IsSmall (length total.now.tallies) total.now }
    requires small_too { IfOk one.now (λ seen. IsSmall (length total.now.tallies) seen) }
    ensures { IfOk result (λ seen. IsOkAnd one.now (λ o. seen ≡ seen_plus total.now o)) }
{
    match one {
        Ok(seen) => total.plus(alloc, seen),
        Err(_) => Err(NoMemory),
    }
}

/// What is seen under the traces before `to`, from what is seen under those before `from`.
fn see_more<R: Threads + Sync>(
    rt: &R,
    alloc: Global,
    runs: &GeneratedRuns,
    mut total: Seen,
    from: u64,
    to: u64,
) -> Result<Seen, NoMemory>
    requires ordered { from ≤ to }
    requires few { to ≤ MAX_TRACES }
    requires seen { total ≡ seen_over runs.now.system.now runs.now.x.now runs.now.number (range_with_len 0 from) }
    ensures { IfOk result (λ seen. seen ≡ seen_over runs.now.system.now runs.now.x.now runs.now.number (range_with_len 0 to)) }
{
    runs.system.has_rules();
    let batch = see_batch(rt, alloc, runs, from, to)?;
    for i in 0..batch.len() {
        total = add(alloc, &total, &batch[i])?;
    }
    Ok(total)
}

/// What is seen of a system in its runs under at most 10,000 generated traces of a number, those from 0 on, as if they were
/// replayed one after the other; they are replayed on several threads. Where the vector is closed no job is beyond its
/// bound. The only error is out of memory.
pub fn hammer<R: Threads + Sync>(
    rt: &R,
    alloc: Global,
    system: &System,
    x: &Vector,
    number: u64,
    traces: u64,
) -> Result<Seen, NoMemory>
    requires long { length x.now ≡ length system.now.tasks }
    requires few { traces ≤ MAX_TRACES }
    ensures value { IfOk result (λ seen. seen ≡ seen_over system.now x.now number (range_with_len 0 traces)) }
    ensures belongs { IfOk result (λ seen. length seen.tallies ≡ length system.now.tasks) }
    ensures none { IsClosed system.now x.now → IfOk result (λ seen. seen.beyond ≡ 0) }
{
    system.has_rules();
    let runs = GeneratedRuns { system, x, number };
    let mut total = Seen::none(alloc, system.tasks())?;
    let mut from = 0;
    while from < traces {
        let to = min(from + BATCH, traces);
        total = see_more(rt, alloc, &runs, total, from, to)?;
        from = to;
    }
    Ok(total)
}

/// The same on the calling thread, one run after the other.
pub fn hammer_one_by_one(
    alloc: Global,
    system: &System,
    x: &Vector,
    number: u64,
    traces: u64,
) -> Result<Seen, NoMemory>
    requires long { length x.now ≡ length system.now.tasks }
    requires few { traces ≤ MAX_TRACES }
    ensures value { IfOk result (λ seen. seen ≡ seen_over system.now x.now number (range_with_len 0 traces)) }
    ensures belongs { IfOk result (λ seen. length seen.tallies ≡ length system.now.tasks) }
    ensures none { IsClosed system.now x.now → IfOk result (λ seen. seen.beyond ≡ 0) }
{
    system.has_rules();
    let mut total = Seen::none(alloc, system.tasks())?;
    for k in 0..traces {
        let one = see(alloc, system, x, number, k);
        total = add(alloc, &total, &one)?;
    }
    Ok(total)
}

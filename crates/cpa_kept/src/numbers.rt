//! The bounds of the system that is kept, as numbers.

ghost use Rattle.std.specs.Prelude.{◌≡◌, map, IsSome, IfSome};
ghost use Rattle.cpa_units.specs.Words.{word_of};
ghost use Rattle.cpa_local.specs.Solution.{IsVector};
ghost use Rattle.cpa_memory.specs.Given.{over};
ghost use Rattle.cpa_kept.specs.Kept.{kept_in};
ghost use Rattle.cpa_kept.specs.Numbers.{TellsNumbers, latencies_of};

use crate::handle::Handle;
use cpa_local::path_worst;
use cpa_model::System;
use cpa_report::verdict;
use cpa_session::Session;
use cpa_units::{Bound, PathId, TaskId, Vector};
use std::alloc::Global;

/// The verdict on a system, as a report has it, and how many numbers there are.
#[derive(Clone, Copy, Debug, PartialEq, Eq)]
pub struct Told {
    pub status: u8,
    pub count: usize,
}

/// A bound as a number, the greatest one where there is none.
fn number(bound: Bound) -> u64
    ensures { result ≡ word_of bound }
{
    match bound {
        Bound::Within(ticks) => ticks,
        Bound::Overload => u64::MAX,
    }
}

/// Writes bounds to the beginning of a buffer, as far as there is room.
fn put_bounds(bounds: &Vector, out: &mut [u64])
    ensures { out.new ≡ over (map word_of bounds.now) out.old }
{
    let count = (bounds.len() as usize).min(out.len());
    for k in 0..count {
        out[k] = number(bounds.get(TaskId(k as u32)));
    }
}

/// Writes the latencies of paths to the beginning of a buffer, as far as there is room.
fn put_latencies(system: &System, bounds: &Vector, out: &mut [u64])
    requires { IsVector system.now bounds.now }
    ensures { out.new ≡ over (map word_of (latencies_of system.now bounds.now)) out.old }
{
    let count = (system.paths() as usize).min(out.len());
    for k in 0..count {
        out[k] = number(path_worst(system, PathId(k as u32), bounds));
    }
}

/// Writes the bounds of a session.
fn tell_bounds(session: &Session, out: &mut [u64]) -> Told
    ensures { TellsNumbers session.now (λ x. x) result.status out.old out.new result.count }
{
    let system = session.system();
    let bounds = session.bounds();
    system.has_rules();
    put_bounds(bounds, out);
    Told {
        status: verdict(system, bounds),
        count: bounds.len() as usize,
    }
}

/// Writes the latencies of the paths of a session.
fn tell_latencies(session: &Session, out: &mut [u64]) -> Told
    ensures { TellsNumbers session.now (latencies_of session.now) result.status out.old out.new result.count }
{
    let system = session.system();
    let bounds = session.bounds();
    system.has_rules();
    put_latencies(system, bounds, out);
    Told {
        status: verdict(system, bounds),
        count: system.paths() as usize,
    }
}

/// Writes the bounds of the system that is kept, in the order of its tasks, as far as the buffer has room.
pub fn bounds(alloc: Global, handle: &mut Handle, out: &mut [u64]) -> Told
    requires { IsSome (kept_in handle.old) }
    ensures told { IfSome (kept_in handle.old) (λ s. TellsNumbers s (λ x. x) result.status out.old out.new result.count) }
    ensures unchanged { kept_in handle.new ≡ kept_in handle.old }
{
    let session = handle.take(alloc);
    let told = tell_bounds(&session, out);
    handle.put(session);
    told
}

/// Writes the latencies of the paths of the system that is kept, in their order, as far as the buffer has room.
pub fn latencies(alloc: Global, handle: &mut Handle, out: &mut [u64]) -> Told
    requires { IsSome (kept_in handle.old) }
    ensures told { IfSome (kept_in handle.old) (λ s. TellsNumbers s (latencies_of s) result.status out.old out.new result.count) }
    ensures unchanged { kept_in handle.new ≡ kept_in handle.old }
{
    let session = handle.take(alloc);
    let told = tell_latencies(&session, out);
    handle.put(session);
    told
}

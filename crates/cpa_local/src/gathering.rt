//! The streams of a task's input, gathered along all its chains (Richter's thesis, 2005; SymTA/S).

ghost use Rattle.std.specs.Prelude.{◌≡◌, ◌<◌, ◌≤◌, ◌+◌, ◌-◌, ◌*◌, ◌++◌, ◌∷◌, [], length, max, None, Some, MatchOption};
ghost use Rattle.std.specs.Option.{ForSome};
ghost use Rattle.cpa_units.specs.declared.limits.TheConstants.{MAX_CHAIN, MAX_EXECUTION, MAX_LIMIT};
ghost use Rattle.cpa_events.specs.declared.TheConstants.{MAX_STREAMS};
ghost use Rattle.cpa_events.specs.declared.stream.TheConstants.{MAX_MODEL_JITTER};
ghost use Rattle.cpa_events.specs.Streams.{IsStreamInRange};
ghost use Rattle.cpa_events.specs.Events.{IsModelInRange, HasJitterUpTo};
ghost use Rattle.cpa_model.specs.declared.entries.Activator.TheVariants.{Task as ByTask};
ghost use Rattle.cpa_model.specs.Rules.{IsSystem};
ghost use Rattle.cpa_model.specs.SystemLists.{depth_of, streams_of};
ghost use Rattle.cpa_local.specs.Inputs.{AreKnown, input, found_if, joined};
ghost use Rattle.cpa_local.specs.Gathered.{IsOnWay, later_of, so_far};
ghost use Rattle.cpa_local.specs.Solution.{IsVector};

use crate::chain_walks::{ChainWalk, WalkEnd, walk};
use cpa_events::{Model, Stream};
use cpa_model::{Activator, System};
use cpa_units::{Bound, TaskId, Vector};

/// Puts a stream behind those that were found so far.
fn put(found: &mut Model, none: bool, stream: Stream)
    requires in_range { IsStreamInRange stream }
    requires room { length (so_far none found.old) < MAX_STREAMS }
    ensures { found.new ≡ so_far none found.old ++ stream ∷ [] }
{
    if none {
        found.set_one(stream);
    } else {
        found.push(stream);
    }
}

/// Puts the streams of an input, as they are at the end of a way, behind those that were found so far.
/// False where it is unbounded.
#[cold]
fn put_all(input: &Option<Model>, way: ChainWalk, none: bool, found: &mut Model) -> bool
    requires in_range { ForSome input.now IsModelInRange }
    requires late { way.late ≤ MAX_MODEL_JITTER }
    requires jitter { ForSome input.now (λ m. HasJitterUpTo m (MAX_MODEL_JITTER - way.late)) }
    requires least { way.least ≤ MAX_EXECUTION }
    requires room { ForSome input.now (λ m. length (so_far none found.old) + length m ≤ MAX_STREAMS) }
    ensures { found_if result found.new ≡ joined (Some (so_far none found.old)) (later_of way.late way.least input.now) }
{
    let Some(model) = input else {
        return false;
    };
    let mut first = none;
    for k in 0..model.len() {
        let stream = model.get(k).later(way.late, way.least);
        put(found, first, stream);
        first = false;
    }
    true
}

/// Puts the streams of a task's input, as they are at the end of a way, behind those that were found so
/// far. Those of a task whose input is known aren't looked for once more. False where the input is
/// unbounded.
#[cold]
#[inline(never)]
fn gather(
    system: &System,
    task: TaskId,
    x: &Vector,
    known: &[bool; 8192],
    inputs: &[Option<Model>],
    way: ChainWalk,
    none: bool,
    found: &mut Model,
) -> bool
    requires there { task.0 < length system.now.tasks }
    requires vector { IsVector system.now x.now }
    requires known { AreKnown system.now x.now known.now inputs.now }
    requires late { way.late + depth_of system.now task.0 * MAX_LIMIT ≤ MAX_CHAIN * MAX_LIMIT }
    requires least { way.least ≤ MAX_EXECUTION }
    requires room { length (so_far none found.old) + length (streams_of system.now task.0) ≤ MAX_STREAMS }
    ensures { found_if result found.new ≡ joined (Some (so_far none found.old)) (later_of way.late way.least (input system.now x.now task.0)) }
{
    system.has_rules();
    let mut first = none;
    for after in system.task(task).after.as_slice() {
        let all = match *after {
            Activator::Source(source) => {
                let stream = system.source(source).stream();
                put(found, first, stream.later(way.late, way.least));
                true
            }
            Activator::Task(earlier) => {
                let Bound::Within(bound) = x.get(earlier) else {
                    return false;
                };
                let longer = way.after(system.task(earlier).best, bound);
                let place = earlier.0 as usize;
                if known[place] {
                    put_all(&inputs[place], longer, first, found)
                } else {
                    match walk(system, earlier, x, longer) {
                        WalkEnd::Sent(stream) => {
                            put(found, first, stream);
                            true
                        }
                        WalkEnd::Several(at, back) => {
                            gather(system, at, x, known, inputs, back, first, found)
                        }
                        WalkEnd::Unbounded => false,
                    }
                }
            }
        };
        if !all {
            return false;
        }
        first = false;
    }
    true
}

/// Finds the input of a task along its chains. Those of tasks with several activators aren't looked for
/// once more where they are known. False where it is unbounded.
pub(crate) fn find_along(
    system: &System,
    task: TaskId,
    x: &Vector,
    known: &[bool; 8192],
    inputs: &[Option<Model>],
    found: &mut Model,
) -> bool
    requires rules { IsSystem system.now }
    requires there { task.0 < length system.now.tasks }
    requires vector { IsVector system.now x.now }
    requires known { AreKnown system.now x.now known.now inputs.now }
    ensures { found_if result found.new ≡ input system.now x.now task.0 }
{
    match walk(system, task, x, ChainWalk::none()) {
        WalkEnd::Sent(stream) => {
            found.set_one(stream);
            true
        }
        WalkEnd::Several(at, way) => gather(system, at, x, known, inputs, way, true, found),
        WalkEnd::Unbounded => false,
    }
}

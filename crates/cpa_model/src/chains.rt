//! Chains of activators. Each walk follows at most so many tasks in a row.

ghost use Rattle.std.specs.Option.{ForSome};
ghost use Rattle.cpa_model.specs.declared.entries.Activator.TheVariants.{Task as ByTask};
ghost use Rattle.cpa_units.specs.declared.places.TaskId.{TaskId};
ghost use Rattle.std.specs.Prelude.{◌≡◌, ◌≢◌, ◌+◌, ◌<◌, ◌≤◌, [], ◌∷◌, suc, length, IfSome, MatchResult, option_map, slice_get, slice_index_or, Some, None};
ghost use Rattle.cpa_events.specs.declared.TheConstants.{MAX_STREAMS};
ghost use Rattle.cpa_draft.specs.Chains.{longer};
ghost use Rattle.cpa_model.specs.Chains.{activators, depth_within, streams_within};

use crate::entries::{Activator, Task};
use cpa_units::{SourceId, TaskId};

/// The activators of the task at a place, none where there is no task.
fn activators_of(tasks: &[Task], task: usize) -> &[Activator]
    ensures { result.now ≡ slice_index_or (activators tasks.now) task [] }
{
    if task < tasks.len() {
        tasks[task].after.as_slice()
    } else {
        &[]
    }
}

/// The longer of two chains, none where one has no end.
fn longer(first: Option<u32>, second: Option<u32>) -> Option<u32>
    ensures { result ≡ longer first second }
{
    match (first, second) {
        (Some(a), Some(b)) => Some(a.max(b)),
        _ => None,
    }
}

/// A chain with a task more.
fn one_more(depth: Option<u32>, most: u32) -> Option<u32>
    requires { IfSome depth (λ d. d < most) }
    ensures { result ≡ option_map suc depth }
{
    match depth {
        None => None,
        Some(tasks) => Some(tasks + 1),
    }
}

/// The number of tasks in a task's longest chain up to and with itself.
pub(crate) fn chain_depth(tasks: &[Task], most: u32, task: usize) -> Option<u32>
    ensures value { result ≡ depth_within (activators tasks.now) most task }
    ensures few { IfSome result (λ d. d ≤ most) }
{
    if most == 0 {
        return None;
    }
    let mut longest = Some(1);
    for after in activators_of(tasks, task) {
        let depth = match *after {
            Activator::Source(_) => Some(1),
            Activator::Task(next) => {
                one_more(chain_depth(tasks, most - 1, next.0 as usize), most)
            }
        };
        longest = longer(longest, depth);
    }
    longest
}

/// The task that alone activates the task at a place, if one does.
fn only_task(tasks: &[Task], task: usize) -> Option<TaskId>
    ensures alone { ForSome result (λ j. slice_index_or (activators tasks.now) task [] ≡ ByTask j ∷ []) }
    ensures none { result ≡ None → (j : TaskId) → slice_index_or (activators tasks.now) task [] ≢ ByTask j ∷ [] }
{
    let after = activators_of(tasks, task);
    if after.len() != 1 {
        return None;
    }
    match after[0] {
        Activator::Task(next) => Some(next),
        Activator::Source(_) => None,
    }
}

/// Goes back from a task while one task alone activates it. What comes to where that ends, over as many tasks as are
/// left, is what comes to the task.
fn go_back(tasks: &[Task], most: u32, task: usize) -> (usize, u32)
    ensures streams { streams_within (activators tasks.now) most task ≡ streams_within (activators tasks.now) result.1 result.0 }
    ensures fewer { result.1 ≤ most }
{
    let mut at = task;
    for passed in 0..most {
        match only_task(tasks, at) {
            Some(next) => at = next.0 as usize,
            None => return (at, most - passed),
        }
    }
    (at, 0)
}

/// The number of a task's streams.
pub(crate) fn chain_streams(tasks: &[Task], most: u32, task: usize) -> u32
    requires { length (streams_within (activators tasks.now) most task) ≤ MAX_STREAMS }
    ensures { result ≡ length (streams_within (activators tasks.now) most task) }
{
    let (at, left) = go_back(tasks, most, task);
    if left == 0 {
        return 0;
    }
    let mut count = 0;
    for after in activators_of(tasks, at) {
        let streams = match *after {
            Activator::Source(_) => 1,
            Activator::Task(next) => chain_streams(tasks, left - 1, next.0 as usize),
        };
        count += streams;
    }
    count
}

/// The source of a task's stream by its place, or else how far the place is past all of them.
pub(crate) fn chain_stream(
    tasks: &[Task],
    most: u32,
    task: usize,
    place: u32,
) -> Result<SourceId, u32>
    ensures { MatchResult result (λ source. slice_get (streams_within (activators tasks.now) most task) place ≡ Some source) (λ past. past + length (streams_within (activators tasks.now) most task) ≡ place) }
{
    let (at, left) = go_back(tasks, most, task);
    if left == 0 {
        return Err(place);
    }
    let mut ahead = place;
    for after in activators_of(tasks, at) {
        let found = match *after {
            Activator::Source(source) if ahead == 0 => Ok(source),
            Activator::Source(_) => Err(ahead - 1),
            Activator::Task(next) => chain_stream(tasks, left - 1, next.0 as usize, ahead),
        };
        match found {
            Ok(source) => return Ok(source),
            Err(past) => ahead = past,
        }
    }
    Err(ahead)
}

//! How many streams come to each task of a draft.

ghost use Rattle.std.specs.List.{list_all};
ghost use Rattle.std.specs.Prelude.{◌≡◌, ◌+◌, ◌-◌, ◌<◌, ◌^◌, ◌||◌, ℕ, nat_le, nat_lt, length, map, slice_index_or, IfOk, IfSome};
ghost use Rattle.cpa_draft.specs.First.{first_place};
ghost use Rattle.cpa_draft.specs.Chains.{count_step};
ghost use Rattle.cpa_draft.specs.Names.{links_of};
ghost use Rattle.cpa_draft.specs.Refusals.{has_double, is_misfed, misfed};
ghost use Rattle.cpa_draft.specs.Search.{capped_streams, AreStreams, TellsTooMany};
ghost use Rattle.cpa_events.specs.declared.TheConstants.{MAX_STREAMS};
ghost use Rattle.cpa_units.specs.declared.limits.TheConstants.{MAX_CHAIN};

use crate::draft::{Draft, DraftTask, Raw};
use crate::entry_checks::refuse_at;
use crate::links::{Link, Links};
use crate::names::has_double;
use crate::refusal::{Part, Refusal};
use cpa_events::MAX_STREAMS;
use cpa_units::limits::MAX_CHAIN;
use std::alloc::{AllocError, Global};

/// The number that stands at a task's place.
fn count_at(counts: &[usize], task: usize) -> usize
    ensures { result ≡ slice_index_or counts.now task 0 }
{
    match counts.get(task) {
        Some(count) => *count,
        None => 0,
    }
}

/// What comes by an activator, where the streams of tasks are counted.
fn count_by(counts: &[usize], link: Link) -> usize
    ensures { result ≡ count_step link (λ j. slice_index_or counts.now j 0) }
{
    match link {
        Link::Nothing => 0,
        Link::Source => 1,
        Link::Task(task) => count_at(counts, task),
    }
}

/// What comes by all activators of a task, up to one more than may.
fn count_streams(counts: &[usize], links: &[Link]) -> usize
    ensures { result ≡ capped_streams counts.now links.now }
{
    let mut streams: usize = 0;
    for link in links {
        streams = streams
            .saturating_add(count_by(counts, *link))
            .min(MAX_STREAMS + 1);
    }
    streams
}

/// The same for each task.
fn count_all(alloc: Global, counts: &[usize], links: &[Links]) -> Result<Vec<usize>, AllocError>
    ensures { IfOk result (λ v. v.items ≡ map (capped_streams counts.now) links.now) }
{
    links
        .iter()
        .map(|activators| count_streams(counts, activators.links()))
        .collect(alloc)
}

/// The number of streams of each task, up to one more than may be. The streams over chains of one task, of two and so
/// on are counted one after the other.
fn count_rounds(alloc: Global, links: &[Links]) -> Result<Vec<usize>, AllocError>
    ensures { IfOk result (λ v. AreStreams links.now MAX_CHAIN v.items) }
{
    let mut counts: Vec<usize> = vec![in alloc; 0; links.len()]?;
    for _tasks in 0..MAX_CHAIN {
        counts = count_all(alloc, counts.as_slice(), links)?;
    }
    Ok(counts)
}

/// Whether no task has two activators.
fn have_one_each(links: &[Links]) -> bool
    ensures { result ≡ list_all (λ ls. nat_le (length ls) 1) links.now }
{
    links.iter().all(|activators| activators.links().len() <= 1)
}

/// Numbers by which it shows which tasks have too many streams. Where no task has two activators, none has, and
/// nothing is counted.
fn measure_streams(alloc: Global, links: &[Links]) -> Result<Vec<usize>, AllocError>
    ensures { IfOk result (λ v. TellsTooMany links.now v.items) }
{
    if have_one_each(links) {
        return Ok(Vec::new(alloc));
    }
    count_rounds(alloc, links)
}

/// Whether a task has no activator, one twice, or too many streams.
fn is_misfed(alloc: Global, names: &[Raw], streams: usize) -> Result<bool, AllocError>
    ensures { IfOk result (λ r. r ≡ ((nat_le (length names.now) 0 || has_double names.now) || nat_lt MAX_STREAMS streams)) }
{
    Ok(names.len() <= 0 || has_double(alloc, names)? || streams > MAX_STREAMS)
}

fn first_misfed(
    alloc: Global,
    draft: &Draft,
    links: &[Links],
    tasks: &[DraftTask],
) -> Result<Option<usize>, AllocError>
    requires { links.now ≡ links_of draft.now }
    ensures place { IfOk result (λ r. r ≡ first_place (is_misfed draft.now) tasks.now) }
    ensures within { IfOk result (λ r. IfSome r (λ k. k < 2 ^ 64 - 1)) }
{
    let streams = measure_streams(alloc, links)?;
    for (place, task) in tasks.iter().enumerate() {
        if is_misfed(alloc, task.after.names(), count_at(&streams, place))? {
            return Ok(Some(place));
        }
    }
    Ok(None)
}

/// Reason 14.
#[tactic(auto, unfolding(crate::specs::Refusals::misfed))]
pub(crate) fn refuse_misfed(
    alloc: Global,
    draft: &Draft,
    links: &[Links],
) -> Result<Option<Refusal>, AllocError>
    requires { links.now ≡ links_of draft.now }
    ensures { IfOk result (λ r. r ≡ misfed draft.now) }
{
    let place = first_misfed(alloc, draft, links, draft.task_entries())?;
    Ok(refuse_at(14, Part::Task, place))
}

//! Why a draft is refused: the reasons of names, ranges and chains.

ghost use Rattle.std.specs.Prelude.{◌≡◌, ◌<◌, ◌-◌, ◌^◌, ◌||◌, [], Ok, None, Some, is_none, not, length, slice_index_or, IfOk, IfSome};
ghost use Rattle.std.specs.List.{list_all, list_any};
ghost use Rattle.std.specs.Option.{ForSome};
ghost use Rattle.cpa_draft.specs.First.{first_place};
ghost use Rattle.cpa_draft.specs.Names.{AreTables, resource_names, activity_names, place_of, link_of, links_of, is_nothing, is_task};
ghost use Rattle.cpa_draft.specs.Chains.{first_longer};
ghost use Rattle.cpa_draft.specs.Search.{AreWithin, KnowsChains, NoneOpen};
ghost use Rattle.cpa_units.specs.declared.limits.TheConstants.{MAX_CHAIN};
ghost use Rattle.cpa_draft.specs.Refusals.{◌or_else◌, refusal_at, out_of_range, no_name, known_name, unknown_name, endless, long_chain, too_many, by_chains};

use crate::chains::{Mark, first_long, measure_chains};
use crate::draft::{Draft, DraftPath, DraftTask, Raw};
use crate::entry::{
    first_past, first_unfit, first_unnamed, first_unnamed_source, first_unnamed_task,
};
use crate::links::{Link, Links, links_at};
use crate::names::{Names, add_names};
use crate::refusal::{Part, Refusal};
use crate::tables::Tables;
use std::alloc::{AllocError, Global};

pub(crate) fn refuse(reason: u8, part: Part, place: usize) -> Option<Refusal>
    requires { place < 2 ^ 64 - 1 }
    ensures { result ≡ refusal_at reason part (Some place) }
{
    Some(Refusal {
        reason,
        part,
        place: place as u64 + 1,
    })
}

pub(crate) fn refuse_at(reason: u8, part: Part, place: Option<usize>) -> Option<Refusal>
    requires { ForSome place (λ k. k < 2 ^ 64 - 1) }
    ensures { result ≡ refusal_at reason part place }
{
    match place {
        None => None,
        Some(place) => refuse(reason, part, place),
    }
}

/// The refusal of the first of the marked places.
fn first_refused(
    reason: u8,
    resource: Option<usize>,
    source: Option<usize>,
    task: Option<usize>,
    path: Option<usize>,
) -> Option<Refusal>
    requires resource { ForSome resource (λ k. k < 2 ^ 64 - 1) }
    requires source { ForSome source (λ k. k < 2 ^ 64 - 1) }
    requires task { ForSome task (λ k. k < 2 ^ 64 - 1) }
    requires path { ForSome path (λ k. k < 2 ^ 64 - 1) }
    ensures { result ≡ (refusal_at reason Part.Resource resource or_else refusal_at reason Part.Source source
        or_else refusal_at reason Part.Task task or_else refusal_at reason Part.Path path) }
{
    match (resource, source, task, path) {
        (Some(place), _, _, _) => refuse(reason, Part::Resource, place),
        (None, Some(place), _, _) => refuse(reason, Part::Source, place),
        (None, None, Some(place), _) => refuse(reason, Part::Task, place),
        (None, None, None, Some(place)) => refuse(reason, Part::Path, place),
        (None, None, None, None) => None,
    }
}

/// Reason 2.
#[tactic(auto, unfolding(crate::specs::Refusals::out_of_range))]
pub(crate) fn refuse_out_of_range(draft: &Draft) -> Option<Refusal>
    ensures { result ≡ out_of_range draft.now }
{
    first_refused(
        2,
        first_unfit(draft.size(), draft.resource_entries()),
        first_unfit(draft.size(), draft.source_entries()),
        first_unfit(draft.size(), draft.task_entries()),
        first_unfit(draft.size(), draft.path_entries()),
    )
}

/// Reason 3.
#[tactic(auto, unfolding(crate::specs::Refusals::no_name))]
pub(crate) fn refuse_no_name(draft: &Draft) -> Option<Refusal>
    ensures { result ≡ no_name draft.now }
{
    first_refused(
        3,
        first_unnamed(draft.resource_entries()),
        first_unnamed_source(draft.source_entries()),
        first_unnamed_task(draft.task_entries()),
        first_unnamed(draft.path_entries()),
    )
}

/// Reason 4. Where it doesn't apply, the tables have all names.
#[tactic(auto, unfolding(crate::specs::Refusals::known_name))]
pub(crate) fn refuse_known_name(
    alloc: Global,
    draft: &Draft,
    tables: &mut Tables,
) -> Result<Option<Refusal>, AllocError>
    requires no_resources { tables.old.resources ≡ [] }
    requires no_activities { tables.old.activities ≡ [] }
    ensures refusal { IfOk result (λ r. r ≡ known_name draft.now) }
    ensures tables { result ≡ Ok None → AreTables draft.now tables.new.resources tables.new.activities }
{
    if let Some(place) = add_names(alloc, &mut tables.resources, draft.resource_entries())? {
        return Ok(refuse(4, Part::Resource, place));
    }
    if let Some(place) = add_names(alloc, &mut tables.activities, draft.source_entries())? {
        return Ok(refuse(4, Part::Source, place));
    }
    if let Some(place) = add_names(alloc, &mut tables.activities, draft.task_entries())? {
        return Ok(refuse(4, Part::Task, place));
    }
    let mut paths = Names::new(alloc);
    if let Some(place) = add_names(alloc, &mut paths, draft.path_entries())? {
        return Ok(refuse(4, Part::Path, place));
    }
    Ok(None)
}

fn is_nothing(link: Link) -> bool
    ensures { result ≡ is_nothing link }
{
    match link {
        Link::Nothing => true,
        _ => false,
    }
}

fn lacks_activator(links: &[Link]) -> bool
    ensures { result ≡ list_any is_nothing links.now }
{
    links.iter().any(|link| is_nothing(*link))
}

fn lacks_name(draft: &Draft, tables: &Tables, task: &DraftTask, links: &[Link]) -> bool
    requires { AreTables draft.now tables.now.resources tables.now.activities }
    ensures { result ≡ (is_none (place_of (resource_names draft.now) task.now.on) || list_any is_nothing links.now) }
{
    tables.resource(draft, task.on.bytes()).is_none() || lacks_activator(links)
}

fn first_lacking(
    draft: &Draft,
    tables: &Tables,
    links: &[Links],
    tasks: &[DraftTask],
) -> Option<usize>
    requires { AreTables draft.now tables.now.resources tables.now.activities }
    ensures place { result ≡ first_place (λ k t. is_none (place_of (resource_names draft.now) t.on) || list_any is_nothing (slice_index_or links.now k [])) tasks.now }
    ensures within { IfSome result (λ k. k < 2 ^ 64 - 1) }
{
    tasks.iter().enumerate().position(|(k, task)| lacks_name(
        draft,
        tables,
        task,
        links_at(links, k),
    ))
}

fn names_task(draft: &Draft, tables: &Tables, name: &[u8]) -> bool
    requires { AreTables draft.now tables.now.resources tables.now.activities }
    ensures { result ≡ is_task (link_of draft.now name.now) }
{
    match tables.link(draft, name) {
        Link::Task(_) => true,
        _ => false,
    }
}

fn are_tasks(draft: &Draft, tables: &Tables, names: &[Raw]) -> bool
    requires { AreTables draft.now tables.now.resources tables.now.activities }
    ensures { result ≡ list_all (λ name. is_task (link_of draft.now name)) names.now }
{
    names
        .iter()
        .all(|name| names_task(draft, tables, name.bytes()))
}

fn first_path_lacking(draft: &Draft, tables: &Tables, paths: &[DraftPath]) -> Option<usize>
    requires { AreTables draft.now tables.now.resources tables.now.activities }
    ensures place { result ≡ first_place (λ k p. not (list_all (λ name. is_task (link_of draft.now name)) p.tasks)) paths.now }
    ensures within { IfSome result (λ k. k < 2 ^ 64 - 1) }
{
    paths
        .iter()
        .enumerate()
        .position(|(_, path)| !are_tasks(draft, tables, path.tasks.names()))
}

/// Reason 5.
#[tactic(auto, unfolding(crate::specs::Refusals::unknown_name))]
pub(crate) fn refuse_unknown_name(
    draft: &Draft,
    tables: &Tables,
    links: &[Links],
) -> Option<Refusal>
    requires tables { AreTables draft.now tables.now.resources tables.now.activities }
    requires links { links.now ≡ links_of draft.now }
    ensures { result ≡ unknown_name draft.now }
{
    match first_lacking(draft, tables, links, draft.task_entries()) {
        Some(place) => refuse(5, Part::Task, place),
        None => refuse_at(
            5,
            Part::Path,
            first_path_lacking(draft, tables, draft.path_entries()),
        ),
    }
}

/// Reasons 6 and 7, for tasks of which none waits.
fn refuse_measured(
    alloc: Global,
    links: &[Links],
    marks: &mut [Mark],
) -> Result<Option<Refusal>, AllocError>
    requires within { AreWithin links.now }
    requires count { length marks.old ≡ length links.now }
    requires known { KnowsChains links.now marks.old }
    requires none_open { NoneOpen marks.old }
    ensures { IfOk result (λ r. r ≡ (refusal_at 6 Part.Task (first_longer links.now (length links.now))
        or_else refusal_at 7 Part.Task (first_longer links.now MAX_CHAIN))) }
{
    match measure_chains(alloc, links, marks)? {
        Some(place) => Ok(refuse(6, Part::Task, place)),
        None => Ok(refuse_at(7, Part::Task, first_long(links, marks))),
    }
}

/// Reasons 6 and 7.
#[tactic(auto, unfolding(crate::specs::Refusals::endless, crate::specs::Refusals::long_chain))]
pub(crate) fn refuse_chain(
    alloc: Global,
    draft: &Draft,
    links: &[Links],
) -> Result<Option<Refusal>, AllocError>
    requires { links.now ≡ links_of draft.now }
    ensures { IfOk result (λ r. r ≡ by_chains draft.now) }
{
    let mut marks: Vec<Mark> = vec![in alloc; Mark::New; links.len()]?;
    refuse_measured(alloc, links, marks.as_mut_slice())
}

/// Reason 12.
#[tactic(auto, unfolding(crate::specs::Refusals::too_many))]
pub(crate) fn refuse_too_many(draft: &Draft) -> Option<Refusal>
    ensures { result ≡ too_many draft.now }
{
    first_refused(
        12,
        first_past(draft.size().most_resources(), draft.resource_entries()),
        first_past(draft.size().most_sources(), draft.source_entries()),
        first_past(draft.size().most_tasks(), draft.task_entries()),
        first_past(draft.size().most_paths(), draft.path_entries()),
    )
}

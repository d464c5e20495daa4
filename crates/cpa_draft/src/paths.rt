//! Whether the tasks of the paths of a draft are linked.

ghost use Rattle.std.specs.Prelude.{◌≡◌, ◌<◌, ◌-◌, ◌^◌, ◌||◌, [], nat_le, length, slice_index_or, true, false, not, IfOk, IfSome};
ghost use Rattle.std.specs.List.{list_all, list_any};
ghost use Rattle.std.specs.Str.{bytes_eq};
ghost use Rattle.cpa_draft.specs.First.{first_place};
ghost use Rattle.cpa_draft.specs.DraftLists.{task_at};
ghost use Rattle.cpa_draft.specs.Names.{AreTables, link_of, is_after};
ghost use Rattle.cpa_draft.specs.Refusals.{is_linked, unlinked};
ghost use Rattle.cpa_draft.specs.Search.{is_short, HaveSameNames, AreLongLists, AreLookedUp};

use crate::draft::{Draft, DraftPath, DraftTask, Raw};
use crate::entry_checks::refuse_at;
use crate::links::Link;
use crate::names::{Names, different};
use crate::refusal::{Part, Refusal};
use crate::tables::Tables;
use cpa_events::MAX_STREAMS;
use std::alloc::{AllocError, Global};

/// Whether a list of names is looked through, and no set made of it.
fn is_short(names: &[Raw]) -> bool
    ensures { result ≡ is_short names.now }
{
    names.len() <= MAX_STREAMS
}

/// Whether all lists of activators are short.
fn are_short(tasks: &[DraftTask]) -> bool
    ensures { result ≡ list_all (λ t. is_short t.after) tasks.now }
{
    tasks.iter().all(|task| is_short(task.after.names()))
}

/// The names of a list that isn't short.
fn long_list(alloc: Global, names: &[Raw]) -> Result<Names, AllocError>
    ensures { IfOk result (λ r. is_short names.now ≡ false → HaveSameNames names.now r) }
{
    if is_short(names) {
        return Ok(Names::new(alloc));
    }
    different(alloc, names)
}

/// For each task whose list of activators isn't short, its names.
fn long_lists(alloc: Global, draft: &Draft) -> Result<Vec<Names>, AllocError>
    ensures { IfOk result (λ v. AreLongLists draft.now v.items) }
{
    let mut lists = Vec::new(alloc);
    let tasks = draft.task_entries();
    if are_short(tasks) {
        return Ok(lists);
    }
    for task in tasks {
        lists.push(long_list(alloc, task.after.names())?)?;
    }
    Ok(lists)
}

/// Whether a name is among the activators of the task at a place.
fn is_activator(draft: &Draft, lists: &[Names], name: &[u8], place: usize) -> bool
    requires { AreLongLists draft.now lists.now }
    ensures { result ≡ list_any (bytes_eq name.now) (task_at draft.now place).after }
{
    match draft.task_entries().get(place) {
        None => false,
        Some(task) if is_short(task.after.names()) => task.after.has(name),
        Some(_) => is_in_list(lists, name, place),
    }
}

/// Whether the list at a place has a name.
fn is_in_list(lists: &[Names], name: &[u8], place: usize) -> bool
    ensures { result ≡ list_any (bytes_eq name.now) (slice_index_or lists.now place []) }
{
    match lists.get(place) {
        Some(names) => names.has(name),
        None => false,
    }
}

/// Whether a link is a task and a name is among its activators.
fn is_after(draft: &Draft, lists: &[Names], name: &[u8], link: Link) -> bool
    requires { AreLongLists draft.now lists.now }
    ensures { result ≡ is_after draft.now name.now link }
{
    match link {
        Link::Task(place) => is_activator(draft, lists, name, place),
        _ => false,
    }
}

fn name_at(names: &[Raw], place: usize) -> &[u8]
    ensures { result.now ≡ slice_index_or names.now place [] }
{
    match names.get(place) {
        Some(name) => name.bytes(),
        None => &[],
    }
}

/// Whether the name before a task of a path is among its activators.
fn is_fed(draft: &Draft, tables: &Tables, lists: &[Names], names: &[Raw], place: usize) -> bool
    requires { AreLookedUp draft.now tables.now.resources tables.now.activities lists.now }
    ensures { result ≡ is_after draft.now (slice_index_or names.now (place - 1) []) (link_of draft.now (slice_index_or names.now place [])) }
{
    let name = name_at(names, place.saturating_sub(1));
    is_after(
        draft,
        lists,
        name,
        tables.link(draft, name_at(names, place)),
    )
}

/// Whether the name of each task of a path but its last is among the activators of the next.
fn is_linked(draft: &Draft, tables: &Tables, lists: &[Names], names: &[Raw]) -> bool
    requires { AreLookedUp draft.now tables.now.resources tables.now.activities lists.now }
    ensures { result ≡ is_linked draft.now names.now }
{
    (1..names.len()).all(|place| is_fed(draft, tables, lists, names, place))
}

fn misfits_path(draft: &Draft, tables: &Tables, lists: &[Names], path: &DraftPath) -> bool
    requires { AreLookedUp draft.now tables.now.resources tables.now.activities lists.now }
    ensures { result ≡ (nat_le (length path.now.tasks) 0 || not (is_linked draft.now path.now.tasks)) }
{
    path.tasks.names().len() <= 0 || !is_linked(draft, tables, lists, path.tasks.names())
}

fn first_unlinked(
    draft: &Draft,
    tables: &Tables,
    lists: &[Names],
    paths: &[DraftPath],
) -> Option<usize>
    requires { AreLookedUp draft.now tables.now.resources tables.now.activities lists.now }
    ensures place { result ≡ first_place (λ k p. nat_le (length p.tasks) 0 || not (is_linked draft.now p.tasks)) paths.now }
    ensures within { IfSome result (λ k. k < 2 ^ 64 - 1) }
{
    paths
        .iter()
        .enumerate()
        .position(|(_, path)| misfits_path(draft, tables, lists, path))
}

/// Reason 11.
#[tactic(auto, unfolding(crate::specs::Refusals::unlinked))]
pub(crate) fn refuse_unlinked(
    alloc: Global,
    draft: &Draft,
    tables: &Tables,
) -> Result<Option<Refusal>, AllocError>
    requires { AreTables draft.now tables.now.resources tables.now.activities }
    ensures { IfOk result (λ r. r ≡ unlinked draft.now) }
{
    let lists = long_lists(alloc, draft)?;
    let place = first_unlinked(draft, tables, &lists, draft.path_entries());
    Ok(refuse_at(11, Part::Path, place))
}

//! Whether a draft is refused.

ghost use Rattle.std.specs.Prelude.{◌≡◌, [], Ok, None, IfOk};
ghost use Rattle.cpa_draft.specs.Names.{AreTables, links_of};
ghost use Rattle.cpa_draft.specs.Refusals.{by_own_names, by_links, by_kinds, first_refusal};
ghost use Rattle.cpa_draft.specs.Validated.{Validates};

use crate::clocks::refuse_too_long_clock;
use crate::draft::Draft;
use crate::entry_checks::{
    refuse_chain, refuse_known_name, refuse_no_name, refuse_out_of_range, refuse_too_many,
    refuse_unknown_name,
};
use crate::kind_checks::{refuse_crossed, refuse_misfit};
use crate::links::Links;
use crate::locks::refuse_mislocked;
use crate::names::Names;
use crate::paths::refuse_unlinked;
use crate::ranks::refuse_known_priority;
use crate::refusal::{BuildFault, Refusal};
use crate::streams::refuse_misfed;
use crate::tables::{Tables, collect_activators};
use std::alloc::{AllocError, Global};

/// Reasons 3 and 4. Where none of them applies, the tables have all names.
fn refuse_own_names(
    alloc: Global,
    draft: &Draft,
    tables: &mut Tables,
) -> Result<Option<Refusal>, AllocError>
    requires no_resources { tables.old.resources ≡ [] }
    requires no_activities { tables.old.activities ≡ [] }
    ensures refusal { IfOk result (λ r. r ≡ by_own_names draft.now) }
    ensures tables { result ≡ Ok None → AreTables draft.now tables.new.resources tables.new.activities }
{
    if let Some(refusal) = refuse_no_name(draft) {
        return Ok(Some(refusal));
    }
    refuse_known_name(alloc, draft, tables)
}

/// Reasons 5 to 7.
fn refuse_links(
    alloc: Global,
    draft: &Draft,
    tables: &Tables,
    links: &[Links],
) -> Result<Option<Refusal>, AllocError>
    requires tables { AreTables draft.now tables.now.resources tables.now.activities }
    requires links { links.now ≡ links_of draft.now }
    ensures { IfOk result (λ r. r ≡ by_links draft.now) }
{
    if let Some(refusal) = refuse_unknown_name(draft, tables, links) {
        return Ok(Some(refusal));
    }
    refuse_chain(alloc, draft, links)
}

/// Reasons 8 to 11.
fn refuse_kinds(
    alloc: Global,
    draft: &Draft,
    tables: &Tables,
) -> Result<Option<Refusal>, AllocError>
    requires { AreTables draft.now tables.now.resources tables.now.activities }
    ensures { IfOk result (λ r. r ≡ by_kinds draft.now) }
{
    if let Some(refusal) = refuse_known_priority(alloc, draft, tables)? {
        return Ok(Some(refusal));
    }
    if let Some(refusal) = refuse_misfit(draft, tables) {
        return Ok(Some(refusal));
    }
    if let Some(refusal) = refuse_crossed(draft) {
        return Ok(Some(refusal));
    }
    refuse_unlinked(alloc, draft, tables)
}

/// The first reason that applies, with its first place. Where there is none, the tables have all names.
#[tactic(auto, unfolding(crate::specs::Refusals::first_refusal))]
fn find_refusal(
    alloc: Global,
    draft: &Draft,
    tables: &mut Tables,
) -> Result<Option<Refusal>, AllocError>
    requires no_resources { tables.old.resources ≡ [] }
    requires no_activities { tables.old.activities ≡ [] }
    ensures refusal { IfOk result (λ r. r ≡ first_refusal draft.now) }
    ensures tables { result ≡ Ok None → AreTables draft.now tables.new.resources tables.new.activities }
{
    if let Some(refusal) = refuse_out_of_range(draft) {
        return Ok(Some(refusal));
    }
    if let Some(refusal) = refuse_own_names(alloc, draft, tables)? {
        return Ok(Some(refusal));
    }
    let links = collect_activators(alloc, draft, tables, draft.task_entries())?;
    if let Some(refusal) = refuse_links(alloc, draft, tables, links.as_slice())? {
        return Ok(Some(refusal));
    }
    if let Some(refusal) = refuse_kinds(alloc, draft, tables)? {
        return Ok(Some(refusal));
    }
    if let Some(refusal) = refuse_too_many(draft) {
        return Ok(Some(refusal));
    }
    if let Some(refusal) = refuse_misfed(alloc, draft, links.as_slice())? {
        return Ok(Some(refusal));
    }
    if let Some(refusal) = refuse_too_long_clock(alloc, draft)? {
        return Ok(Some(refusal));
    }
    Ok(refuse_mislocked(draft))
}

/// Refused exactly where one of reasons 2 to 12 and 14 to 16 applies, with the first of them and its first place. Otherwise
/// the places of the names.
pub fn validate(alloc: Global, draft: &Draft) -> Result<Tables, BuildFault>
    ensures refusal { Validates result (first_refusal draft.now) }
    ensures tables { IfOk result (λ tables. AreTables draft.now tables.resources tables.activities) }
{
    let mut tables = Tables {
        resources: Names::new(alloc),
        activities: Names::new(alloc),
    };
    match find_refusal(alloc, draft, &mut tables)? {
        Some(refusal) => Err(BuildFault::Refused(refusal)),
        None => Ok(tables),
    }
}

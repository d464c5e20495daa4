//! What the names of a draft name.

ghost use Rattle.std.specs.Prelude.{◌≡◌, [], length, IfOk, IfSome, None, unwrap_or, map};
ghost use Rattle.cpa_draft.specs.Names.{resource_names, activity_names, place_of, kind_of, link_of, links_of, AreTables};

use crate::draft::{Draft, DraftTask, KindWord, Raw};
use crate::links::{Link, Links};
use crate::names::Names;
use std::alloc::{AllocError, Global};

/// The places of names: of resources, and of sources and then tasks.
#[derive(Drop)]
pub struct Tables {
    pub resources: Names,
    pub activities: Names,
}

impl Tables {
    ghost use Rattle.std.specs.Prelude.{◌≡◌};
    ghost use Rattle.cpa_draft.specs.Names.{AreTables, resource_names, activity_names, place_of, kind_of, link_of};

    /// The place of the resource with a name.
    pub fn resource(&self, draft: &Draft, name: &[u8]) -> Option<usize>
        requires { AreTables draft.now self.now.resources self.now.activities }
        ensures { result ≡ place_of (resource_names draft.now) name.now }
    {
        self.resources.place(name)
    }

    /// The place of a name among the sources and then the tasks.
    pub fn activity(&self, draft: &Draft, name: &[u8]) -> Option<usize>
        requires { AreTables draft.now self.now.resources self.now.activities }
        ensures { result ≡ place_of (activity_names draft.now) name.now }
    {
        self.activities.place(name)
    }

    /// The kind of the resource with a name.
    pub fn kind(&self, draft: &Draft, name: &[u8]) -> Option<KindWord>
        requires { AreTables draft.now self.now.resources self.now.activities }
        ensures { result ≡ kind_of draft.now name.now }
    {
        draft.kind_of(self.resource(draft, name))
    }

    /// What a name names among sources and tasks.
    pub fn link(&self, draft: &Draft, name: &[u8]) -> Link
        requires { AreTables draft.now self.now.resources self.now.activities }
        ensures { result ≡ link_of draft.now name.now }
    {
        let sources = draft.source_entries().len();
        match self.activity(draft, name) {
            None => Link::Nothing,
            Some(place) => {
                if place < sources {
                    Link::Source
                } else {
                    Link::Task(place - sources)
                }
            }
        }
    }
}

/// What each of some names names.
fn collect_several(
    alloc: Global,
    draft: &Draft,
    tables: &Tables,
    names: &[Raw],
) -> Result<Vec<Link>, AllocError>
    requires { AreTables draft.now tables.now.resources tables.now.activities }
    ensures { IfOk result (λ v. v.items ≡ map (link_of draft.now) names.now) }
{
    names
        .iter()
        .map(|name| tables.link(draft, name.bytes()))
        .collect(alloc)
}

/// The same, which takes no memory for one name.
fn collect_links(
    alloc: Global,
    draft: &Draft,
    tables: &Tables,
    names: &[Raw],
) -> Result<Links, AllocError>
    requires { AreTables draft.now tables.now.resources tables.now.activities }
    ensures { IfOk result (λ links. links ≡ map (link_of draft.now) names.now) }
{
    match names {
        [name] => Ok(Links::one(tables.link(draft, name.bytes()))),
        _ => Ok(Links::new(collect_several(alloc, draft, tables, names)?)),
    }
}

/// The activators of each task.
pub(crate) fn collect_activators(
    alloc: Global,
    draft: &Draft,
    tables: &Tables,
    tasks: &[DraftTask],
) -> Result<Vec<Links>, AllocError>
    requires { AreTables draft.now tables.now.resources tables.now.activities }
    ensures { IfOk result (λ v. v.items ≡ map (λ t. map (link_of draft.now) t.after) tasks.now) }
{
    let mut activators = Vec::new(alloc);
    for task in tasks {
        activators.push(collect_links(alloc, draft, tables, task.after.names())?)?;
    }
    Ok(activators)
}

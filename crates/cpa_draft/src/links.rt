//! What the activators of each task of a draft are.

ghost use Rattle.std.specs.Prelude.{◌≡◌, [], ◌∷◌, slice_index_or};

use std::marker::Model;
use std::slice;

/// What a name names among the sources and the tasks of a draft.
#[derive(Clone, Copy, Debug, PartialEq, Eq)]
pub enum Link {
    Nothing,
    Source,
    /// The task at this place, from 0.
    Task(usize),
}

/// What the names of a task's activators name. One alone takes no memory.
#[derive(Drop)]
pub struct Links {
    held: HeldLinks,
}

#[derive(Drop)]
enum HeldLinks {
    One(Link),
    Several(Vec<Link>),
}

impl Model for Links {
    ghost use Rattle.std.specs.Prelude.{List};
    ghost use Rattle.cpa_draft.specs.declared.links.Link.{Link};
    ghost use Rattle.cpa_draft.specs.Held.{links_held};

    ghost Value = { List Link };

    ghost view = { λ l. links_held l.held };
}

impl Links {
    pub(crate) fn new(links: Vec<Link>) -> Links
        ensures { result ≡ links.items }
    {
        Links {
            held: HeldLinks::Several(links),
        }
    }

    pub(crate) fn one(link: Link) -> Links
        ensures { result ≡ link ∷ [] }
    {
        Links {
            held: HeldLinks::One(link),
        }
    }

    pub(crate) fn links(&self) -> &[Link]
        ensures { result.now ≡ self.now }
    {
        match &self.held {
            HeldLinks::One(link) => slice::from_ref(link),
            HeldLinks::Several(links) => links.as_slice(),
        }
    }
}

/// The activators of a task, none where there is no such task.
pub(crate) fn links_at(links: &[Links], task: usize) -> &[Link]
    ensures { result.now ≡ slice_index_or links.now task [] }
{
    match links.get(task) {
        Some(activators) => activators.links(),
        None => &[],
    }
}

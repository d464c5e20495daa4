//! Names and their places in a list.

ghost use Rattle.std.specs.Prelude.{◌≡◌, ◌∷◌, ◌++◌, [], ◌<◌, ◌-◌, ◌^◌, map, position, true, false, None, IfOk, IfSome};
ghost use Rattle.std.specs.List.{list_any};
ghost use Rattle.std.specs.Str.{bytes_eq};
ghost use Rattle.cpa_draft.specs.First.{first_known};
ghost use Rattle.cpa_draft.specs.Refusals.{has_double};
ghost use Rattle.cpa_draft.specs.Search.{HaveSameNames};

use crate::draft::Raw;
use crate::entry::Named;
use indexmap::IndexSet;
use std::alloc::{AllocError, Global};
use std::marker::Model;

/// A list of different names, each of which is found by its bytes.
#[derive(Drop)]
pub struct Names {
    set: IndexSet<Vec<u8>>,
}

impl Model for Names {
    ghost use Rattle.std.specs.Prelude.{List, ℕ, map, Vec};
    ghost use Rattle.std.specs.declared.alloc.Global.{Global};
    ghost use Rattle.indexmap.specs.IndexSet.{keys};

    ghost Value = { List (List ℕ) };

    ghost view = { λ n. map (λ (v : Vec ℕ Global). v.items) n.set.keys };
}

impl Names {
    pub fn new(alloc: Global) -> Names
        ensures { result ≡ [] }
    {
        Names {
            set: IndexSet::new(alloc),
        }
    }

    /// The place of a name.
    pub fn place(&self, name: &[u8]) -> Option<usize>
        ensures { result ≡ position (bytes_eq name.now) self.now }
    {
        self.set.get_index_of(name)
    }

    /// Whether the list has a name.
    pub(crate) fn has(&self, name: &[u8]) -> bool
        ensures { result ≡ list_any (bytes_eq name.now) self.now }
    {
        self.set.contains(name)
    }

    /// Puts a name at the end, unless the list has it, and says whether it was new.
    pub(crate) fn add(&mut self, alloc: Global, name: &[u8]) -> Result<bool, AllocError>
        ensures new { result ≡ Ok true → list_any (bytes_eq name.now) self.old ≡ false }
        ensures added { result ≡ Ok true → self.new ≡ self.old ++ name.now ∷ [] }
        ensures known { result ≡ Ok false → list_any (bytes_eq name.now) self.old ≡ true }
        ensures unchanged { result ≡ Ok false → self.new ≡ self.old }
    {
        let name = Vec::from_slice(alloc, name)?;
        let (_, new) = self.set.insert_full(name)?;
        Ok(new)
    }
}

/// The first entry whose name is known. The names of those before it go to the end.
pub(crate) fn add_names<E: Named>(
    alloc: Global,
    names: &mut Names,
    entries: &[E],
) -> Result<Option<usize>, AllocError>
    ensures place { IfOk result (λ r. r ≡ first_known E.named names.old entries.now) }
    ensures added { result ≡ Ok None → names.new ≡ names.old ++ map E.named entries.now }
    ensures within { IfOk result (λ r. IfSome r (λ k. k < 2 ^ 64 - 1)) }
{
    for (k, entry) in entries.iter().enumerate() {
        if !names.add(alloc, entry.name())? {
            return Ok(Some(k));
        }
    }
    Ok(None)
}

/// Whether some name is there twice.
pub(crate) fn has_double(alloc: Global, names: &[Raw]) -> Result<bool, AllocError>
    ensures { IfOk result (λ r. r ≡ has_double names.now) }
{
    if names.len() <= 1 {
        return Ok(false);
    }
    let mut before = Names::new(alloc);
    Ok(add_names(alloc, &mut before, names)?.is_some())
}

/// The names of a list, each once.
pub(crate) fn different(alloc: Global, names: &[Raw]) -> Result<Names, AllocError>
    ensures { IfOk result (λ r. HaveSameNames names.now r) }
{
    let mut found = Names::new(alloc);
    for name in names {
        found.add(alloc, name.bytes())?;
    }
    Ok(found)
}

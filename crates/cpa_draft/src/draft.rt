//! A system as it was read, before its rules are looked at.

ghost use Rattle.std.specs.Prelude.{◌≡◌};

use crate::numbers::natural_or;
use cpa_units::limits::Size;
use std::marker::Model;
use std::slice;

/// Bytes that may be a name.
#[derive(Debug, Drop)]
pub struct Raw {
    bytes: Vec<u8>,
}

impl Model for Raw {
    ghost use Rattle.std.specs.Prelude.{List, ℕ};

    ghost Value = { List ℕ };

    ghost view = { λ r. r.bytes.items };
}

impl Raw {
    pub fn new(bytes: Vec<u8>) -> Raw
        ensures { result ≡ bytes.items }
    {
        Raw { bytes }
    }

    pub fn bytes(&self) -> &[u8]
        ensures { result.now ≡ self.now }
    {
        self.bytes.as_slice()
    }
}

/// Several texts that may be names. One alone takes no memory beyond its own.
#[derive(Debug, Drop)]
pub struct RawList {
    held: HeldNames,
}

#[derive(Debug, Drop)]
enum HeldNames {
    One(Raw),
    Several(Vec<Raw>),
}

impl Model for RawList {
    ghost use Rattle.std.specs.Prelude.{List, ℕ};
    ghost use Rattle.cpa_draft.specs.Held.{names_held};

    ghost Value = { List (List ℕ) };

    ghost view = { λ r. names_held r.held };
}

impl RawList {
    ghost use Rattle.std.specs.Prelude.{[], ◌∷◌};
    ghost use Rattle.std.specs.List.{list_any};
    ghost use Rattle.std.specs.Str.{bytes_eq};

    pub fn new(names: Vec<Raw>) -> RawList
        ensures { result ≡ names.items }
    {
        RawList {
            held: HeldNames::Several(names),
        }
    }

    /// The list of one name.
    pub fn one(name: Raw) -> RawList
        ensures { result ≡ name ∷ [] }
    {
        RawList {
            held: HeldNames::One(name),
        }
    }

    pub fn names(&self) -> &[Raw]
        ensures { result.now ≡ self.now }
    {
        match &self.held {
            HeldNames::One(name) => slice::from_ref(name),
            HeldNames::Several(names) => names.as_slice(),
        }
    }

    /// Whether a name is one of them.
    pub(crate) fn has(&self, name: &[u8]) -> bool
        ensures { result ≡ list_any (bytes_eq name.now) self.now }
    {
        self.names().iter().any(|other| name == other.bytes())
    }
}

/// The word for a resource's kind.
#[derive(Clone, Copy, Debug, PartialEq, Eq)]
pub enum KindWord {
    Preemptive,
    RoundRobin,
    Tdma,
    Can,
    Fifo,
    Ceiling,
}

/// A resource as it was read: a field is `None` where the file lacks the key.
#[derive(Debug, Drop)]
pub struct DraftResource {
    pub name: Raw,
    pub kind: KindWord,
    pub limit: Option<i64>,
    pub gap: Option<i64>,
    pub bit: Option<i64>,
    /// Bits in a tick on a port.
    pub rate: Option<i64>,
}

/// A source as it was read.
#[derive(Debug, Drop)]
pub struct DraftSource {
    pub name: Raw,
    pub period: i64,
    pub jitter: Option<i64>,
    pub distance: Option<i64>,
    /// Whether it may fall silent; a file says so by `sporadic = true`.
    pub sporadic: bool,
    /// The name of the clock that it is on, if it is on one.
    pub clock: Option<Raw>,
    /// How long after the clock's start its first event comes; only beside a clock.
    pub offset: Option<i64>,
}

/// The most critical sections of a task.
pub const MAX_SECTIONS: usize = 64;

/// A critical section of a task as it was read.
#[derive(Debug, Drop)]
pub struct DraftLock {
    /// The name of the lock that it holds.
    pub name: Raw,
    /// After how many ticks of each job it begins.
    pub start: i64,
    /// How many ticks it takes, unless the job ends before.
    pub length: i64,
}

/// The critical sections of a task. None take no memory.
#[derive(Debug, Drop)]
pub struct DraftLocks {
    held: Option<Vec<DraftLock>>,
}

impl Model for DraftLocks {
    ghost use Rattle.std.specs.Prelude.{List, [], option_map, unwrap_or};
    ghost use Rattle.cpa_draft.specs.declared.draft.DraftLock.{DraftLock};

    ghost Value = { List DraftLock };

    ghost view = { λ l. unwrap_or (option_map (λ v. v.items) l.held) [] };
}

impl DraftLocks {
    ghost use Rattle.std.specs.Prelude.{[]};

    pub fn none() -> DraftLocks
        ensures { result ≡ [] }
    {
        DraftLocks { held: None }
    }

    pub fn new(locks: Vec<DraftLock>) -> DraftLocks
        ensures { result ≡ locks.items }
    {
        DraftLocks { held: Some(locks) }
    }

    pub fn sections(&self) -> &[DraftLock]
        ensures { result.now ≡ self.now }
    {
        match &self.held {
            None => &[],
            Some(locks) => locks.as_slice(),
        }
    }
}

/// A task as it was read. Each of the names in `after` is an activator's.
#[derive(Debug, Drop)]
pub struct DraftTask {
    pub name: Raw,
    pub on: Raw,
    pub after: RawList,
    pub best: Option<i64>,
    pub worst: Option<i64>,
    pub payload: Option<i64>,
    pub extended: Option<bool>,
    pub priority: Option<i64>,
    pub slot: Option<i64>,
    pub region: Option<i64>,
    /// Its critical sections, under priority ceilings.
    pub locks: DraftLocks,
}

/// A path as it was read.
#[derive(Debug, Drop)]
pub struct DraftPath {
    pub name: Raw,
    pub tasks: RawList,
    pub deadline: Option<i64>,
}

/// The entries of a system file, in their order, and how large the system may be.
#[derive(Debug, Drop)]
pub struct Draft {
    pub size: Size,
    pub resources: Vec<DraftResource>,
    pub sources: Vec<DraftSource>,
    pub tasks: Vec<DraftTask>,
    pub paths: Vec<DraftPath>,
}

impl Model for Draft {
    ghost use Rattle.cpa_draft.specs.DraftLists.{DraftLists};

    ghost Value = { DraftLists };

    ghost view = { λ d. record { size = d.size; resources = d.resources.items; sources = d.sources.items; tasks = d.tasks.items; paths = d.paths.items } };
}

impl Draft {
    ghost use Rattle.std.specs.Prelude.{option_map};
    ghost use Rattle.cpa_draft.specs.Numbers.{nat_or};
    ghost use Rattle.cpa_draft.specs.DraftLists.{resource_at};

    /// How large the system may be.
    pub fn size(&self) -> Size
        ensures { result ≡ self.now.size }
    {
        self.size
    }

    pub fn resource_entries(&self) -> &[DraftResource]
        ensures { result.now ≡ self.now.resources }
    {
        self.resources.as_slice()
    }

    pub fn source_entries(&self) -> &[DraftSource]
        ensures { result.now ≡ self.now.sources }
    {
        self.sources.as_slice()
    }

    pub fn task_entries(&self) -> &[DraftTask]
        ensures { result.now ≡ self.now.tasks }
    {
        self.tasks.as_slice()
    }

    pub fn path_entries(&self) -> &[DraftPath]
        ensures { result.now ≡ self.now.paths }
    {
        self.paths.as_slice()
    }

    /// The kind of the resource at a place, preemptive where there is none.
    pub(crate) fn kind_at(&self, place: usize) -> KindWord
        ensures { result ≡ (resource_at self.now place).kind }
    {
        match self.resources.get(place) {
            Some(resource) => resource.kind,
            None => KindWord::Preemptive,
        }
    }

    /// The kind of the resource at a place, if there is a place.
    pub fn kind_of(&self, place: Option<usize>) -> Option<KindWord>
        ensures { result ≡ option_map (λ k. (resource_at self.now k).kind) place }
    {
        match place {
            None => None,
            Some(place) => Some(self.kind_at(place)),
        }
    }

    /// The bit time of the resource at a place, 1 where none is given.
    pub fn bit_at(&self, place: usize) -> u64
        ensures { result ≡ nat_or 1 (resource_at self.now place).bit }
    {
        match self.resources.get(place) {
            Some(resource) => natural_or(1, resource.bit),
            None => 1,
        }
    }

    /// The rate of the resource at a place in bits in a tick, 1 where none is given.
    pub fn rate_at(&self, place: usize) -> u64
        ensures { result ≡ nat_or 1 (resource_at self.now place).rate }
    {
        match self.resources.get(place) {
            Some(resource) => natural_or(1, resource.rate),
            None => 1,
        }
    }
}

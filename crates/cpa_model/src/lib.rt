//! The checked system: resources, sources, tasks and paths.
//!
//! A system is made by `System::build` from a draft, and keeps all rules from then on.
#![tactic(auto)]

pub mod activators;
pub mod build;
mod chains;
mod changes;
pub mod clocks;
pub mod entries;
mod kinds;
pub mod locks;
pub mod system;
mod task_lists;

pub use activators::{Activators, MAX_ACTIVATORS};
pub use build::own_drafts_have_laws;
pub use clocks::Ticking;
pub use cpa_draft::{
    BuildFault, Draft, DraftLock, DraftLocks, DraftPath, DraftResource, DraftSource, DraftTask,
    KindWord, Part, Raw, RawList, Refusal,
};
pub use entries::{Activator, Kind, OnClock, Path, Resource, Source, Task, TaskList, Turn};
pub use locks::{CriticalSection, Locks, uses_lock};
pub use system::System;

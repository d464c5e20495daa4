//! Critical sections of tasks, under immediate priority ceilings. All times are in ticks.

ghost use Rattle.std.specs.Prelude.{◌≡◌, ◌<◌, IfOk, length};
ghost use Rattle.cpa_units.specs.declared.limits.TheConstants.{MAX_PRIORITY};
ghost use Rattle.cpa_model.specs.Locks.{uses_lock, ceiling_of};

use crate::entries::Task;
use crate::system::System;
use cpa_units::limits::MAX_PRIORITY;
use cpa_units::{Name, NoMemory, ResId};
use std::alloc::Global;
use std::marker::Model;

/// A critical section of a task: once a job has had more than `start` ticks it holds the lock, until it has had `start` and
/// `length` ticks, or is complete.
#[derive(Debug, Drop)]
pub struct CriticalSection {
    pub lock: Name,
    /// 0 to 10,000,000.
    pub start: u64,
    /// 1 to 10,000,000.
    pub length: u64,
}

fn copy_section(alloc: Global, section: &CriticalSection) -> Result<CriticalSection, NoMemory>
    ensures { IfOk result (λ copy. copy ≡ section.now) }
{
    Ok(CriticalSection {
        lock: section.lock.copy(alloc)?,
        start: section.start,
        length: section.length,
    })
}

fn copy_sections(
    alloc: Global,
    sections: &[CriticalSection],
) -> Result<Vec<CriticalSection>, NoMemory>
    ensures { IfOk result (λ copies. copies.items ≡ sections.now) }
{
    let mut copies = Vec::new(alloc);
    for section in sections {
        copies.push(copy_section(alloc, section)?)?;
    }
    Ok(copies)
}

/// The critical sections of a task, at most 64. None take no memory.
#[derive(Debug, Drop)]
pub struct Locks {
    held: Option<Vec<CriticalSection>>,
}

impl Model for Locks {
    ghost use Rattle.std.specs.Prelude.{List, [], option_map, unwrap_or};
    ghost use Rattle.cpa_model.specs.declared.locks.CriticalSection.{CriticalSection};

    ghost Value = { List CriticalSection };

    ghost view = { λ l. unwrap_or (option_map (λ v. v.items) l.held) [] };
}

impl Locks {
    ghost use Rattle.std.specs.Prelude.{[]};

    pub fn none() -> Locks
        ensures { result ≡ [] }
    {
        Locks { held: None }
    }

    pub fn new(sections: Vec<CriticalSection>) -> Locks
        ensures { result ≡ sections.items }
    {
        Locks {
            held: Some(sections),
        }
    }

    pub fn sections(&self) -> &[CriticalSection]
        ensures { result.now ≡ self.now }
    {
        match &self.held {
            None => &[],
            Some(sections) => sections.as_slice(),
        }
    }

    pub(crate) fn copy(&self, alloc: Global) -> Result<Locks, NoMemory>
        ensures { IfOk result (λ copy. copy ≡ self.now) }
    {
        match &self.held {
            None => Ok(Locks::none()),
            Some(sections) => Ok(Locks::new(copy_sections(alloc, sections.as_slice())?)),
        }
    }
}

/// Whether a task uses a lock.
pub fn uses_lock(task: &Task, lock: &[u8]) -> bool
    ensures { result ≡ uses_lock lock.now task.now }
{
    task.locks
        .sections()
        .iter()
        .any(|section| lock == section.lock.bytes())
}

impl System {
    /// The ceiling of a lock: the smallest priority number among the tasks of a resource that use it, and 536,870,911 where none does
    /// (Sha, Rajkumar, Lehoczky, 1990).
    pub fn ceiling(&self, res: ResId, lock: &[u8]) -> u32
        requires { res.0 < length self.now.resources }
        ensures { result ≡ ceiling_of self.now res.0 lock.now }
    {
        let mut least = MAX_PRIORITY as u32;
        for task in self.tasks_on(res) {
            let entry = self.task(*task);
            if uses_lock(entry, lock) {
                least = least.min(entry.turn.priority());
            }
        }
        least
    }
}

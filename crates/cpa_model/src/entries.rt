//! The entries of a system. Times are in ticks.

ghost use Rattle.std.specs.Prelude.{◌≡◌, ◌<◌, ◌^◌, length, map, slice_get, Some, IfSome, IfOk, position, ◌≤◌};
ghost use Rattle.std.specs.Str.{bytes_eq};
ghost use Rattle.cpa_units.specs.declared.limits.TheConstants.{MAX_JITTER};
ghost use Rattle.cpa_events.specs.Streams.{IsStreamInRange};
ghost use Rattle.cpa_model.specs.SystemLists.{gap_of, priority_of, slot_of};
ghost use Rattle.cpa_model.specs.Streams.{stream_of};
ghost use Rattle.cpa_model.specs.Rules.{IsSource};
ghost use Rattle.cpa_model.specs.Changes.{id_without};

use crate::activators::Activators;
use crate::changes::id_without;
use crate::locks::Locks;
use cpa_events::Stream;
use cpa_units::{Name, NoMemory, ResId, SourceId, TaskId};
use std::alloc::Global;
use std::marker::Model;

/// How a resource chooses among its tasks.
#[derive(Clone, Copy, Debug, PartialEq, Eq)]
pub enum Kind {
    /// The pending task with the smallest priority number runs, but a region that has begun goes on.
    Preemptive,
    /// The tasks take turns, each for its slot at most.
    RoundRobin,
    /// Each task has its slot in a cycle, whose end is a gap of so many ticks.
    Tdma { gap: u64 },
    /// Frames on a bus whose bits take so many ticks; a started frame goes on.
    Can { bit: u64 },
    /// The job that came first is served, whatever its task.
    Fifo,
    /// As preemptive, but a job within a critical section has the ceiling of its lock as priority.
    Ceiling,
}

/// A processor or a bus.
#[derive(Debug, Drop)]
pub struct Resource {
    pub name: Name,
    pub kind: Kind,
    /// The longest window that is looked at, 1 to 100,000,000.
    pub limit: u64,
}

/// Where events come from, by the standard event model.
#[derive(Debug, Drop)]
pub struct Source {
    pub name: Name,
    /// 1 to 1,000,000,000.
    pub period: u64,
    /// 0 to 1,000,000,000.
    pub jitter: u64,
    /// The least time between two events, 0 to the period.
    pub distance: u64,
    /// Whether it may fall silent. The bounds of tasks and paths are the same; those of effect chains don't hold then.
    pub sporadic: bool,
    /// Where it is on a clock, if it is on one.
    pub on_clock: Option<OnClock>,
}

/// Where a source is on a clock. Its event number n comes from `offset + n * period` after the clock's start to that and its
/// jitter, and none is left out: static offsets of Tindell (1994).
#[derive(Debug, Drop)]
pub struct OnClock {
    /// The name that all sources on the clock have in common.
    pub clock: Name,
    /// 0 to the period - 1.
    pub offset: u64,
}

impl Source {
    /// The stream in which its events come, in ticks (Richter's thesis, 2005).
    pub fn stream(&self) -> Stream
        requires { IsSource self.now }
        ensures value { result ≡ stream_of self.now }
        ensures in_range { IsStreamInRange result }
        ensures jitter { result.jitter ≤ MAX_JITTER }
    {
        Stream {
            period: self.period,
            jitter: self.jitter,
            distance: self.distance,
        }
    }
}

/// What starts jobs of a task: each event of a source, or each completion of a task.
#[derive(Clone, Copy, Debug, PartialEq, Eq)]
pub enum Activator {
    Source(SourceId),
    Task(TaskId),
}

/// What a task has among those of its resource.
#[derive(Clone, Copy, Debug, PartialEq, Eq)]
pub enum Turn {
    /// The smaller number is the higher priority. 0 to 536,870,911.
    Priority(u32),
    /// The ticks of a turn, 1 to 10,000,000.
    Slot(u64),
    /// Neither: its jobs are served in the order in which they came.
    Queued,
}

impl Turn {
    /// The priority number, 0 where there is none.
    #[inline(always)]
    pub fn priority(self) -> u32
        ensures { result ≡ priority_of self }
    {
        match self {
            Turn::Priority(number) => number,
            Turn::Slot(_) | Turn::Queued => 0,
        }
    }

    /// The slot in ticks, 0 where there is none.
    #[inline(always)]
    pub fn slot(self) -> u64
        ensures { result ≡ slot_of self }
    {
        match self {
            Turn::Priority(_) | Turn::Queued => 0,
            Turn::Slot(ticks) => ticks,
        }
    }
}

/// A task, or the frames of one sender on a bus.
#[derive(Debug, Drop)]
pub struct Task {
    pub name: Name,
    pub res: ResId,
    /// The least execution, 1 to the greatest.
    pub best: u64,
    /// The greatest execution, at most 10,000,000.
    pub worst: u64,
    pub turn: Turn,
    /// Any one of them starts a job.
    pub after: Activators,
    /// For so many ticks a job isn't preempted once it has begun a region, 1 to 10,000,000; 1 where the resource is neither
    /// preemptive nor has ceilings.
    pub region: u64,
    /// Its critical sections, of which none cross; none where the resource has no ceilings, or beside a region of more than a
    /// tick.
    pub locks: Locks,
}

/// The tasks of a path, each of which is an activator of the next.
#[derive(Debug, Drop)]
pub struct TaskList {
    tasks: Vec<TaskId>,
}

/// What the places of tasks are once a task is gone.
pub(crate) fn close_up_ids(tasks: &mut [TaskId], removed: TaskId)
    ensures { tasks.new ≡ map (id_without removed.0) tasks.old }
{
    for task in tasks.iter_mut() {
        *task = id_without(removed, *task);
    }
}

impl Model for TaskList {
    ghost use Rattle.std.specs.Prelude.{◌<◌, ◌^◌, List, length};
    ghost use Rattle.cpa_units.specs.declared.places.TaskId.{TaskId};

    ghost Value = { List TaskId };

    ghost view = { λ t. t.tasks.items };

    ghost invariant = { λ t. length t.tasks.items < 2 ^ 32 };
}

impl TaskList {
    pub fn new(tasks: Vec<TaskId>) -> TaskList
        requires { length tasks.items < 2 ^ 32 }
        ensures { result ≡ tasks.items }
    {
        TaskList { tasks }
    }

    pub fn len(&self) -> u32
        ensures { result ≡ length self.now }
    {
        self.tasks.len() as u32
    }

    pub fn get(&self, k: u32) -> TaskId
        requires { k < length self.now }
        ensures { slice_get self.now k ≡ Some result }
    {
        self.tasks[k as usize]
    }

    pub(crate) fn copy(&self, alloc: Global) -> Result<TaskList, NoMemory>
        ensures { IfOk result (λ copy. copy ≡ self.now) }
    {
        let tasks = Vec::from_slice(alloc, self.tasks.as_slice())?;
        Ok(TaskList { tasks })
    }

    /// What the tasks are once a task is gone.
    pub(crate) fn close_up(&mut self, removed: TaskId)
        ensures { self.new ≡ map (id_without removed.0) self.old }
    {
        close_up_ids(self.tasks.as_mut_slice(), removed);
    }
}

/// A chain of tasks from end to end, with the time that it may take.
#[derive(Debug, Drop)]
pub struct Path {
    pub name: Name,
    pub tasks: TaskList,
    /// 1 to 1,000,000,000.
    pub deadline: Option<u64>,
}

/// What has a name.
pub(crate) trait Named {
    ghost use Rattle.std.specs.Prelude.{◌≡◌, List, ℕ};

    ghost named: { Self → List ℕ };

    fn name_bytes(&self) -> &[u8]
        ensures { result.now ≡ named self.now };
}

impl Named for Resource {
    ghost named = { λ e. e.name };

    fn name_bytes(&self) -> &[u8] {
        self.name.bytes()
    }
}

impl Named for Source {
    ghost named = { λ e. e.name };

    fn name_bytes(&self) -> &[u8] {
        self.name.bytes()
    }
}

impl Named for Task {
    ghost named = { λ e. e.name };

    fn name_bytes(&self) -> &[u8] {
        self.name.bytes()
    }
}

/// The place of the first entry with a name.
pub(crate) fn first_with_name<E: Named>(entries: &[E], name: &[u8]) -> Option<usize>
    ensures place { result ≡ position (λ e. bytes_eq name.now (E.named e)) entries.now }
    ensures within { IfSome result (λ k. k < length entries.now) }
{
    entries.iter().position(|entry| name == entry.name_bytes())
}

/// The gap of a kind, 0 where it has none.
pub(crate) fn gap_of(kind: Kind) -> u64
    ensures { result ≡ gap_of kind }
{
    match kind {
        Kind::Tdma { gap } => gap,
        _ => 0,
    }
}

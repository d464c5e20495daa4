//! What a system built from a draft answers.

use cpa_cases::LOCKED;
use cpa_file::{FileRefusal, read_system};
use cpa_model::{
    Activator, BuildFault, Draft, DraftSource, Kind, Part, Raw, Refusal, System, Turn,
};
use cpa_units::limits::Size;
use cpa_units::{PathId, ResId, SourceId, TaskId};
use std::test::Fail;

/// Two tasks on a processor, a frame between them, another frame, two tasks on a TDMA bus, of which the second comes after both
/// frames; and one path over three tasks.
const TEXT: &str = r#"format = 2
resource = [
  { name = "cpu", kind = "preemptive" },
  { name = "bus", kind = "can", bit = 2 },
  { name = "table", kind = "tdma", gap = 5 },
]
source = [{ name = "sa", period = 10 }, { name = "sb", period = 20 }]
task = [
  { name = "a", on = "cpu", after = ["sa"], best = 2, worst = 7, priority = 1 },
  { name = "f", on = "bus", after = ["a"], payload = 8, priority = 1 },
  { name = "b", on = "cpu", after = ["f"], best = 2, worst = 7, priority = 2 },
  { name = "g", on = "bus", after = ["sb"], payload = 0, extended = true, priority = 2 },
  { name = "x", on = "table", after = ["sb"], best = 2, worst = 7, slot = 30 },
  { name = "y", on = "table", after = ["g", "f"], best = 2, worst = 7, slot = 12 },
]
path = [{ name = "p", tasks = ["a", "f", "b"], deadline = 40 }]
"#;

/// The place, the kind and the limit of the resource with a name.
fn resource_of(system: &System, name: &str) -> Option<(ResId, Kind, u64)> {
    let res = system.find_resource(name.as_bytes())?;
    if system.resources() <= res.0 {
        return None;
    }
    let resource = system.resource(res);
    Some((res, resource.kind, resource.limit))
}

/// What a system has of a task: how many activators and streams, and the last of each; how long it runs; its turn; the source of its
/// first stream, and the length of its longest chain.
#[derive(Clone, Copy, Debug, PartialEq)]
struct Seen {
    task: TaskId,
    counts: (u32, u32),
    after: Activator,
    last: SourceId,
    executions: (u64, u64),
    turn: Turn,
    root: SourceId,
    depth: u32,
}

/// What it has of the task with a name.
fn task_of(system: &System, name: &str) -> Option<Seen> {
    let task = system.find_task(name.as_bytes())?;
    if system.tasks() <= task.0 {
        return None;
    }
    let it = system.task(task);
    let counts = (it.after.len(), system.streams(task));
    Some(Seen {
        task,
        counts,
        after: it.after.get(counts.0 - 1),
        last: system.stream(task, counts.1 - 1),
        executions: (it.best, it.worst),
        turn: it.turn,
        root: system.root(task),
        depth: system.depth(task),
    })
}

/// The cycle of the third resource, and whether its tasks are the last two; and of the first path the deadline, how many tasks it
/// has, and the third of them.
fn lists_of(system: &System) -> Option<(u64, bool, Option<u64>, u32, TaskId)> {
    if system.resources() != 3 || system.paths() == 0 {
        return None;
    }
    let tasks = system.tasks_on(ResId(2));
    let path = system.path(PathId(0));
    if path.tasks.len() < 3 {
        return None;
    }
    Some((
        system.cycle(ResId(2)),
        tasks == [TaskId(4), TaskId(5)].as_slice(),
        path.deadline,
        path.tasks.len(),
        path.tasks.get(2),
    ))
}

/// The name of each task of the system, and what it has of it. The executions of frames are those of the case *frame_lengths*.
const TASKS: [(&str, Seen); 6] = [
    (
        "a",
        Seen {
            task: TaskId(0),
            counts: (1, 1),
            after: Activator::Source(SourceId(0)),
            last: SourceId(0),
            executions: (2, 7),
            turn: Turn::Priority(1),
            root: SourceId(0),
            depth: 1,
        },
    ),
    (
        "f",
        Seen {
            task: TaskId(1),
            counts: (1, 1),
            after: Activator::Task(TaskId(0)),
            last: SourceId(0),
            executions: (222, 270),
            turn: Turn::Priority(1),
            root: SourceId(0),
            depth: 2,
        },
    ),
    (
        "b",
        Seen {
            task: TaskId(2),
            counts: (1, 1),
            after: Activator::Task(TaskId(1)),
            last: SourceId(0),
            executions: (2, 7),
            turn: Turn::Priority(2),
            root: SourceId(0),
            depth: 3,
        },
    ),
    (
        "g",
        Seen {
            task: TaskId(3),
            counts: (1, 1),
            after: Activator::Source(SourceId(1)),
            last: SourceId(1),
            executions: (134, 160),
            turn: Turn::Priority(2),
            root: SourceId(1),
            depth: 1,
        },
    ),
    (
        "x",
        Seen {
            task: TaskId(4),
            counts: (1, 1),
            after: Activator::Source(SourceId(1)),
            last: SourceId(1),
            executions: (2, 7),
            turn: Turn::Slot(30),
            root: SourceId(1),
            depth: 1,
        },
    ),
    (
        "y",
        Seen {
            task: TaskId(5),
            counts: (2, 2),
            after: Activator::Task(TaskId(1)),
            last: SourceId(0),
            executions: (2, 7),
            turn: Turn::Slot(12),
            root: SourceId(1),
            depth: 3,
        },
    ),
];

/// The name of the first task of which the system has something else.
fn wrong_task(system: &System) -> Option<&'static str> {
    for (name, seen) in &TASKS {
        if task_of(system, name) != Some(*seen) {
            return Some(*name);
        }
    }
    None
}

#[test]
fn builds_a_system(rt: HostRuntime) -> Result<(), Fail> {
    let alloc = rt.alloc();
    let system = read_system(alloc, TEXT.as_bytes())?;
    let copy = system.copy(alloc)?;
    let wrong = wrong_task(&system);
    let resources = [
        resource_of(&system, "cpu"),
        resource_of(&system, "bus"),
        resource_of(&system, "table"),
    ];
    assert!(rt; wrong.is_none(), "{wrong:?}");
    assert!(rt;
        resources
            == [
                Some((ResId(0), Kind::Preemptive, 1_000_000)),
                Some((ResId(1), Kind::Can { bit: 2 }, 1_000_000)),
                Some((ResId(2), Kind::Tdma { gap: 5 }, 1_000_000)),
            ]
            && (system.sources(), system.tasks(), system.paths()) == (2, 6, 1)
            && system.find_source("sb".as_bytes()) == Some(SourceId(1))
            && system.find_source("a".as_bytes()).is_none()
            && system.find_task("sa".as_bytes()).is_none()
            && lists_of(&system) == Some((47, true, Some(40), 3, TaskId(2)))
            && copy.find_task("y".as_bytes()) == Some(TaskId(5))
    );
    Ok(())
}

/// Frames on a port at 100 bits in a tick, a task beside them, and a frame at a bit in a tick.
const QUEUES: &str = r#"format = 4
resource = [{ name = "port", kind = "fifo", rate = 100 }, { name = "line", kind = "fifo" }]
source = [{ name = "s", period = 10000 }]
task = [
  { name = "a", on = "port", after = "s", payload = 0 },
  { name = "b", on = "port", after = "s", payload = 46 },
  { name = "c", on = "port", after = "s", payload = 62 },
  { name = "d", on = "port", after = "s", payload = 1500 },
  { name = "e", on = "port", after = "a", best = 2, worst = 7 },
  { name = "f", on = "line", after = "b", payload = 46 },
]
"#;

/// The name of each of these tasks, and its executions: 8 bits for each byte of a frame, with 38 bytes beside at least 46 of payload.
const LENGTHS: [(&str, (u64, u64)); 6] = [
    ("a", (6, 7)),
    ("b", (6, 7)),
    ("c", (8, 8)),
    ("d", (123, 124)),
    ("e", (2, 7)),
    ("f", (672, 672)),
];

/// The name of the first task of which the system has something else.
fn wrong_length(system: &System) -> Option<&'static str> {
    for (name, executions) in &LENGTHS {
        let seen = task_of(system, name).map(|seen| (seen.executions, seen.turn));
        if seen != Some((*executions, Turn::Queued)) {
            return Some(*name);
        }
    }
    None
}

#[test]
fn builds_queues(rt: HostRuntime) -> Result<(), Fail> {
    let system = read_system(rt.alloc(), QUEUES.as_bytes())?;
    let wrong = wrong_length(&system);
    let port = resource_of(&system, "port");
    assert!(rt;
        wrong.is_none() && port == Some((ResId(0), Kind::Fifo, 1_000_000)),
        "{wrong:?} {port:?}"
    );
    Ok(())
}

/// The ceilings of two locks on a processor, and of one that isn't used on a resource.
fn ceilings_of(system: &System) -> Option<[u32; 3]> {
    if system.resources() != 2 {
        return None;
    }
    Some([
        system.ceiling(ResId(0), "bus".as_bytes()),
        system.ceiling(ResId(0), "file".as_bytes()),
        system.ceiling(ResId(1), "bus".as_bytes()),
    ])
}

/// The ceilings of a processor's locks.
#[test]
fn knows_ceilings(rt: HostRuntime) -> Result<(), Fail> {
    let alloc = rt.alloc();
    let system = read_system(alloc, LOCKED.as_bytes())?;
    let copy = system.copy(alloc)?;
    let ceilings = ceilings_of(&copy);
    assert!(rt; ceilings == Some([1, 3, 536_870_911]), "{ceilings:?}");
    Ok(())
}

/// A third source without a period, in the text and in a draft of sources alone.
#[test]
fn refuses_the_first_place(rt: HostRuntime) -> Result<(), Fail> {
    let alloc = rt.alloc();
    let want = Refusal {
        reason: 2,
        part: Part::Source,
        place: 3,
    };
    let text = TEXT.replace(alloc, "20 }", "20 }, { name = \"t\", period = 0 }")?;
    let read = read_system(alloc, text.as_bytes()).err();
    let mut sources = Vec::new(alloc);
    for period in [10, 20, 0] {
        sources.push(DraftSource {
            name: Raw::new(Vec::new(alloc)),
            period,
            jitter: None,
            distance: None,
            sporadic: false,
            clock: None,
            offset: None,
        })?;
    }
    let draft = Draft {
        size: Size::Small,
        resources: Vec::new(alloc),
        sources,
        tasks: Vec::new(alloc),
        paths: Vec::new(alloc),
    };
    let built = System::build(alloc, draft).err();
    assert!(rt;
        read == Some(FileRefusal::Refused(want)) && built == Some(BuildFault::Refused(want))
    );
    Ok(())
}

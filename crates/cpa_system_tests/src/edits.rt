pub(crate) mod systems;

use cpa_cases::{GATEWAY, LOCKED, ON_A_CLOCK};
use cpa_edit::{EditFault, EditRefusal, ScriptFault, Step, apply, read_script};
use cpa_file::read_system;
use cpa_model::{Activator, System, Turn};
use cpa_units::{PathId, ResId, SourceId, TaskId};
use std::alloc::{AllocError, Global};
use std::test::Fail;
use systems::{COOPERATIVE, CROSSING_CHAINS, JOINED, LADDER, WORKS};

/// Takes values that threads may share.
pub(crate) fn needs_shared<T: Send + Sync>(_value: &T) {}

/// The lines of the steps of each text, with a bar between each two, or why they are no scripts.
type Text = (Result<&'static [u32], ScriptFault>, &'static str);

const TEXTS: [Text; 8] = [
    (Ok(&[]), "|\r| \t \n# exec\n \t #\n\r\n\t# exec a 1\r\n"),
    (
        Ok(&[1]),
        "report\n\r|report\r|\texec  a\t1 2 \t\r\n|exec a 0123456789 9999999999",
    ),
    (
        Err(ScriptFault::BadLine(2)),
        "report\n\rreport|\nexec a 1|report\nreport 1\nexec",
    ),
    (Ok(&[1, 2]), "report\r\nreport"),
    (
        Ok(&[1, 2, 3, 4]),
        "exec a 1 2\npriority a 1\nswap a b\nslot a 9",
    ),
    (
        Ok(&[1, 2, 3, 5]),
        "source s 1 2 3\nadd a b c 1 2 3\nremove a\n\nreport\n|source s 1 2 3\noffset s 9\nremove a\n\nreport\n",
    ),
    (
        Err(ScriptFault::BadLine(1)),
        "exec report 1 2 # no comment|exec a 1 12345678901|exec a 00000000001 2|exec a 1 2 3|priority a 1 2|swap a b c|slot a|source s 1 2 3 4|offset s|offset s 1 2|offset s -1|add a b c 1 2|remove a b|exec a 1 -2|exec a 1 2,|remove a!|Exec a 1 2|stop|report\r\r\n",
    ),
    (
        Ok(&[3, 4, 6, 7, 8, 9, 10, 12]),
        "# each form\n\nexec a 1 2\r\npriority a 3\n  # swap\nswap a b\nslot a 4\nsource s 5 6 7\nadd c r b 8 9 10\nremove c\n\nreport",
    ),
];

/// Numbers of line feeds, and texts after them.
const FEEDS: [(usize, &[Text]); 4] = [
    (0, &TEXTS),
    (
        9_999,
        &[
            (Ok(&[10_000]), "report|report\n"),
            (Err(ScriptFault::BadLine(10_000)), "exec"),
        ],
    ),
    (
        10_000,
        &[(Ok(&[]), ""), (Err(ScriptFault::TooManyLines), "#|\r")],
    ),
    (10_001, &[(Err(ScriptFault::TooManyLines), "")]),
];

/// Whether so many line feeds and a text are a script with steps on these lines, or no script for this reason.
fn reads_as(
    alloc: Global,
    feeds: usize,
    text: &str,
    wanted: Result<&[u32], ScriptFault>,
) -> Result<bool, AllocError> {
    let mut bytes = "\n".as_bytes().repeat(alloc, feeds)?;
    bytes.extend_from_slice(text.as_bytes())?;
    match (read_script(alloc, bytes.as_slice()), wanted) {
        (Ok(script), Ok(lines)) => {
            needs_shared(&script);
            let mut right = script.len() as usize == lines.len();
            for k in 0..script.len() {
                right &= lines.get(k as usize).copied() == Some(script.line(k));
            }
            Ok(right)
        }
        (Err(fault), Err(wanted)) => Ok(fault == wanted),
        _ => Ok(false),
    }
}

#[test]
fn reads_lines(rt: HostRuntime) -> Result<(), Fail> {
    let alloc = rt.alloc();
    for (feeds, rows) in &FEEDS {
        for (wanted, texts) in *rows {
            for text in texts.split('|') {
                assert!(rt; reads_as(alloc, *feeds, text, *wanted)?, "{text}");
            }
        }
    }
    Ok(())
}

/// Applies a script's edits in turn. Answers what became of the last: which of the first four resources it touched, or the number
/// of its refusal.
fn run(alloc: Global, system: &mut System, text: &str) -> Result<Result<[bool; 4], u8>, Fail> {
    let script = read_script(alloc, text.as_bytes())?;
    let mut last = Ok([false; 4]);
    for k in 0..script.len() {
        if let Step::Change(edit) = script.step(k) {
            last = match apply(alloc, system, edit) {
                Ok(touched) => Ok([
                    touched.has(ResId(0)),
                    touched.has(ResId(1)),
                    touched.has(ResId(2)),
                    touched.has(ResId(3)),
                ]),
                Err(EditFault::Refused(EditRefusal(number))) => Err(number),
                Err(EditFault::Memory) => return Err(Fail::from(AllocError)),
            };
        }
    }
    Ok(last)
}

const NONE: [bool; 4] = [false, false, false, false];

const CPU: [bool; 4] = [true, false, false, false];

const BUS: [bool; 4] = [false, true, false, false];

const RING: [bool; 4] = [false, false, true, false];

const TABLE: [bool; 4] = [false, false, false, true];

const CPU_AND_RING: [bool; 4] = [true, false, true, false];

const BUS_AND_CPU: [bool; 4] = [true, true, false, false];

const CPU_AND_TABLE: [bool; 4] = [true, false, false, true];

/// What becomes of the last edit of each script in a text, with a bar between each two.
type Row = (Result<[bool; 4], u8>, &'static str);

/// Scripts over the system of all kinds, each from the same.
const OUTCOMES: [Row; 18] = [
    (Ok(NONE), "report"),
    (
        Ok(CPU),
        "exec b 2 8\nexec b 2 7|priority a 1|priority a 536870911|swap a b|swap a a|source sa 10 0 0|source sa 1000000000 1000000000 1000000000|source sb 20 5 20|add c cpu sb 1 2 3|add c cpu f 1 2 0|remove a|add c cpu sb 1 2 3\nremove zz\nremove a|add r ring a 1 2 3\nremove r\nremove a",
    ),
    (
        Ok(BUS),
        "exec f 5 5|priority f 1|priority f 9|swap f f|add c bus a 1 2 1",
    ),
    (Ok(CPU_AND_RING), "add r ring sb 1 2 3\nsource sb 20 5 20"),
    (
        Ok(RING),
        "add cpu ring sa 1 1 1000000|add r ring sa 1 2 3\nslot r 3",
    ),
    (
        Ok(TABLE),
        "add t table f 1000000 1000000 1|add t table sa 1 2 3\nslot t 1000000",
    ),
    // Names of nothing.
    (
        Err(1),
        "exec zz 1 2|exec sa 1 2|priority cpu 1|swap a zz|swap zz a|slot zz 1|source a 1 0 0|add c sa sa 1 2 3|add c cpu cpu 1 2 3|add c cpu c 1 2 3|remove sa|remove a\nremove a",
    ),
    // What doesn't fit the kind.
    (
        Err(2),
        "slot a 2|slot f 2|swap a f|add r ring a 1 2 3\npriority r 0|add t table a 1 2 3\npriority t 0|add r ring a 1 2 3\nswap r r|add t table a 1 2 3\nswap t t|add r ring a 1 2 3\nswap a r",
    ),
    // Numbers out of their range.
    (
        Err(3),
        "exec a 0 2|exec a 1 1000001|priority a 536870912|add r ring a 1 2 3\nslot r 0|add t table a 1 2 3\nslot t 1000001|source sa 0 0 0|source sa 1000000001 0 0|source sa 10 1000000001 0|source sa 10 5 11|add r ring a 1 2 0|add c cpu a 1 2 536870912|add c cpu a 0 2 3",
    ),
    // A priority that another task has.
    (Err(4), "priority a 2|add c cpu sb 1 2 8|add c bus sb 1 2 9"),
    // The least execution above the greatest.
    (Err(5), "exec b 9 3|add c cpu sb 2 1 3"),
    // A task that is needed: by a task and a path, by a path alone, by a task alone.
    (Err(6), "remove k|remove f|add r ring a 1 2 3\nremove a"),
    // A name that a task or a source has.
    (Err(7), "add a cpu sa 1 1 9|add sb ring sa 1 1 9"),
    // Two at once.
    (Err(1), "source a 0 0 0|add a cpu zz 1 1 1"),
    (Err(2), "slot a 0|add r ring a 1 2 3\npriority r 536870912"),
    (Err(3), "priority a 536870912|exec a 9 0|add r ring a 9 3 0"),
    (Err(4), "add c cpu sa 9 3 1|add a cpu sa 1 1 1"),
    (Err(5), "add a cpu sa 9 3 9"),
];

/// The same over the system with several activators.
const JOINED_OUTCOMES: [Row; 5] = [
    (Ok(CPU_AND_TABLE), "source sa 10 1 0"),
    (Ok(CPU), "source sb 20 5 20|remove z"),
    (Ok(BUS_AND_CPU), "source sc 40 5 0"),
    (Ok(RING), "add y ring k 1 1 1|add y ring k 1 1 1\nremove y"),
    // A first, a third and a last activator.
    (
        Err(6),
        "remove x|remove m|remove n|remove k|remove z\nremove x|add y ring z 1 1 1\nremove z",
    ),
];

/// And over the longest chain, whose last task has as many streams as there may be.
const LADDER_OUTCOMES: [Row; 5] = [
    (Ok(TABLE), "add u table t30 1 1 1"),
    (Ok(RING), "remove t31"),
    (Err(9), "add u table t31 1 1 1"),
    (Err(7), "add t31 table t31 1 1 1"),
    (Err(6), "remove t0|remove t30"),
];

/// And over the system with two fixed points.
const CROSSING_OUTCOMES: &[Row] = &[(Ok(CPU), "exec a1 1 22|exec a1 1 22\nexec a1 1 20")];

/// And over the system whose sources are on clocks.
const CLOCK_OUTCOMES: [Row; 6] = [
    (
        Ok(CPU),
        "offset sa 9|offset sb 0|offset sb 19|source sb 6 0 0|source sa 4096 0 0\nsource sb 4096 9 9",
    ),
    (Ok(NONE), "offset sc 0|source sd 7 0 0"),
    (Err(1), "offset zz 1|offset low 1"),
    (Err(2), "offset sd 1|offset sd 1000000000"),
    (Err(3), "offset sa 1000000000"),
    // An offset that isn't below its period, a cycle that is too long, and one that has too many events.
    (
        Err(10),
        "offset sa 10|source sb 5 0 0|source sa 40000 0 0\nsource sb 39999 0 0|source sa 1 0 0\nsource sb 4096 0 0",
    ),
];

/// And over the system with queues, whose gateway is the second resource and whose port is the fourth.
const QUEUE_OUTCOMES: [Row; 8] = [
    (
        Ok(BUS),
        "exec ca 5 31|add d gateway wb 1 10000000 0|add d gateway sa 1 2 0\nremove d|add d gateway sa 1 2 0\nexec d 2 2",
    ),
    (Ok(TABLE), "remove pl|add d port log 1 2 0"),
    (Ok(BUS_AND_CPU), "add d gateway sa 1 2 0\nsource sa 400 0 0"),
    // A task of a queue has neither a priority nor a slot.
    (
        Err(2),
        "priority ca 0|slot ca 0|slot ca 1|swap ca cb|swap ca ca|swap ca ra|swap ra ca|add d gateway sa 1 2 0\npriority d 0",
    ),
    // And no number but 0.
    (
        Err(3),
        "add d gateway sa 1 2 1|add d port sa 1 2 536870912|add d gateway sa 0 2 0|add ca gateway sa 9 2 1",
    ),
    (Err(5), "add ca gateway sa 9 2 0"),
    (Err(6), "remove ca|remove log"),
    (Err(7), "add ca gateway sa 1 2 0"),
];

/// And over the system with locks, whose processor takes what a preemptive one takes.
const LOCK_OUTCOMES: [Row; 6] = [
    (
        Ok(CPU),
        "exec logger 1 1|exec logger 5 11|priority control 9|priority logger 0|swap control logger|add d cpu rare 1 2 4|add d cpu rare 1 2 4\nremove d",
    ),
    (Ok(CPU), "remove logger|remove filter"),
    (Err(2), "slot control 1|slot logger 2|swap control spare"),
    (Err(4), "priority control 2|add d cpu rare 1 2 3"),
    (Err(6), "remove control"),
    (Err(7), "add control cpu rare 1 2 4"),
];

/// The first of these scripts over copies of a system of which something else comes than is wanted.
fn wrongly_judged(alloc: Global, system: &System, row: &Row) -> Result<Option<&'static str>, Fail> {
    for text in row.1.split('|') {
        let mut copy = system.copy(alloc)?;
        if run(alloc, &mut copy, text)? != row.0 {
            return Ok(Some(text));
        }
    }
    Ok(None)
}

#[test]
fn accepts_and_refuses(rt: HostRuntime) -> Result<(), Fail> {
    let alloc = rt.alloc();
    let tables: [(&str, &[Row]); 7] = [
        (WORKS, &OUTCOMES),
        (JOINED, &JOINED_OUTCOMES),
        (LADDER, &LADDER_OUTCOMES),
        (CROSSING_CHAINS, CROSSING_OUTCOMES),
        (ON_A_CLOCK, &CLOCK_OUTCOMES),
        (GATEWAY, &QUEUE_OUTCOMES),
        (LOCKED, &LOCK_OUTCOMES),
    ];
    for (file, rows) in tables {
        let system = read_system(alloc, file.as_bytes())?;
        for row in rows {
            let wrong = wrongly_judged(alloc, &system, row)?;
            assert!(rt; wrong.is_none(), "{wrong:?}");
        }
    }
    Ok(())
}

/// A script, and the numbers of the system after it.
type Change = (&'static str, &'static [u64]);

/// The numbers of the system before each of `CHANGES`, and after an edit that changes nothing or is refused.
#[rattlefmt::skip]
const BEFORE: &[u64] = &[
    10, 0, 0, 20, 0, 0,
    0, 0, 0, 1, 3, 1, 0,
    0, 0, 1, 2, 7, 2, 1,
    0, 0, 1, 1, 2, 8, 2,
    1, 1, 2, 1, 2, 9, 3,
    3, 0, 1, 2, 1, 3, 0, 0,
    2, 2, 3,
];

/// Scripts, each from the same system, and the numbers afterwards.
#[rattlefmt::skip]
const CHANGES: [Change; 12] = [
    ("", BEFORE),
    ("swap a a\npriority b 2\nexec a 1 3\nsource sb 20 0 0\nswap f f", BEFORE),
    ("exec b 9 3\nexec a 2 1000001\npriority a 2\nremove k\nremove f\nadd a cpu sa 1 1 9", BEFORE),
    ("add c cpu sb 1 2 3\nremove c", BEFORE),
    ("exec b 3 8", &[
        10, 0, 0, 20, 0, 0,
        0, 0, 0, 1, 3, 1, 0,
        0, 0, 1, 3, 8, 2, 1,
        0, 0, 1, 1, 2, 8, 2,
        1, 1, 2, 1, 2, 9, 3,
        3, 0, 1, 2, 1, 3, 0, 0,
        2, 2, 3,
    ]),
    ("priority b 7", &[
        10, 0, 0, 20, 0, 0,
        0, 0, 0, 1, 3, 1, 0,
        0, 0, 1, 2, 7, 7, 1,
        0, 0, 1, 1, 2, 8, 2,
        1, 1, 2, 1, 2, 9, 3,
        3, 0, 1, 2, 1, 3, 0, 0,
        2, 2, 3,
    ]),
    ("swap a k", &[
        10, 0, 0, 20, 0, 0,
        0, 0, 0, 1, 3, 8, 0,
        0, 0, 1, 2, 7, 2, 1,
        0, 0, 1, 1, 2, 1, 2,
        1, 1, 2, 1, 2, 9, 3,
        3, 0, 1, 2, 1, 3, 0, 0,
        2, 2, 3,
    ]),
    ("source sb 30 4 5", &[
        10, 0, 0, 30, 4, 5,
        0, 0, 0, 1, 3, 1, 0,
        0, 0, 1, 2, 7, 2, 1,
        0, 0, 1, 1, 2, 8, 2,
        1, 1, 2, 1, 2, 9, 3,
        3, 0, 1, 2, 1, 3, 0, 0,
        2, 2, 3,
    ]),
    ("add r ring f 4 5 6\nslot r 7", &[
        10, 0, 0, 20, 0, 0,
        0, 0, 0, 1, 3, 1, 0,
        0, 0, 1, 2, 7, 2, 1,
        0, 0, 1, 1, 2, 8, 2,
        1, 1, 2, 1, 2, 9, 3,
        2, 1, 3, 4, 5, 7, 4,
        3, 0, 1, 2, 1, 3, 1, 4, 0,
        2, 2, 3,
    ]),
    // The task in the middle of its resource's list: `f`, which is after `k`, and the path over both name them by their new places.
    ("remove b", &[
        10, 0, 0, 20, 0, 0,
        0, 0, 0, 1, 3, 1, 0,
        0, 0, 1, 1, 2, 8, 1,
        1, 1, 1, 1, 2, 9, 2,
        2, 0, 1, 1, 2, 0, 0,
        2, 1, 2,
    ]),
    ("remove b\nadd b cpu f 2 7 2", &[
        10, 0, 0, 20, 0, 0,
        0, 0, 0, 1, 3, 1, 0,
        0, 0, 1, 1, 2, 8, 1,
        1, 1, 1, 1, 2, 9, 2,
        0, 1, 2, 2, 7, 2, 3,
        3, 0, 1, 3, 1, 2, 0, 0,
        2, 1, 2,
    ]),
    // Scripts change copies alone.
    ("", BEFORE),
];

/// The numbers of the system with several activators.
#[rattlefmt::skip]
const JOINED_BEFORE: &[u64] = &[
    10, 0, 0, 20, 0, 0, 40, 0, 0,
    0, 0, 2, 1, 1, 9, 0,
    0, 0, 2, 1, 2, 7, 1,
    0, 0, 0, 0, 1, 1, 3, 1, 2,
    1, 1, 2, 0, 2, 1, 2, 1, 3,
    3, 1, 1, 0, 0, 1, 2, 1, 3, 1, 2, 3, 4,
    3, 0, 1, 2, 1, 3, 0, 1, 4,
    3, 2, 3, 4,
];

#[rattlefmt::skip]
const JOINED_CHANGES: [Change; 4] = [
    ("", JOINED_BEFORE),
    ("remove x\nremove m\nremove n\nremove k", JOINED_BEFORE),
    // Whoever stood behind `z` has moved up, in each place of each list.
    ("remove z", &[
        10, 0, 0, 20, 0, 0, 40, 0, 0,
        0, 0, 2, 1, 2, 7, 0,
        0, 0, 0, 0, 1, 1, 3, 1, 1,
        1, 1, 1, 0, 2, 1, 2, 1, 2,
        3, 1, 0, 0, 0, 1, 1, 1, 2, 1, 2, 3, 3,
        2, 0, 1, 1, 2, 0, 1, 3,
        3, 1, 2, 3,
    ]),
    ("add y ring m 4 5 6\nremove z", &[
        10, 0, 0, 20, 0, 0, 40, 0, 0,
        0, 0, 2, 1, 2, 7, 0,
        0, 0, 0, 0, 1, 1, 3, 1, 1,
        1, 1, 1, 0, 2, 1, 2, 1, 2,
        3, 1, 0, 0, 0, 1, 1, 1, 2, 1, 2, 3, 3,
        2, 1, 1, 4, 5, 6, 4,
        2, 0, 1, 1, 2, 1, 4, 1, 3,
        3, 1, 2, 3,
    ]),
];

/// Scripts over the system with two fixed points, where `a1` takes up to 22 ticks, and where it takes 20 again.
#[rattlefmt::skip]
const CROSSING: [Change; 2] = [
    ("exec a1 1 22", &[
        100, 0, 0, 100, 0, 0,
        0, 0, 0, 1, 22, 2, 0,
        1, 1, 0, 10, 30, 1, 1,
        1, 0, 1, 1, 20, 2, 2,
        0, 1, 2, 10, 30, 1, 3,
        2, 0, 3, 2, 1, 2,
    ]),
    ("exec a1 1 22\nexec a1 1 20", &[
        100, 0, 0, 100, 0, 0,
        0, 0, 0, 1, 20, 2, 0,
        1, 1, 0, 10, 30, 1, 1,
        1, 0, 1, 1, 20, 2, 2,
        0, 1, 2, 10, 30, 1, 3,
        2, 0, 3, 2, 1, 2,
    ]),
];

/// The numbers of each task: its resource, its activators, each 0 and the place of a source or 1 and that of a task, its executions,
/// its turn, and the place that its name has, 1000 where it has none.
fn add_tasks(numbers: &mut Vec<u64>, system: &System) -> Result<(), AllocError> {
    for i in 0..system.tasks() {
        let task = system.task(TaskId(i));
        numbers.push(u64::from(task.res.0))?;
        for k in 0..task.after.len() {
            let (by_task, place) = match task.after.get(k) {
                Activator::Source(source) => (0, source.0),
                Activator::Task(task) => (1, task.0),
            };
            numbers.extend_from_slice(&[by_task, u64::from(place)])?;
        }
        let turn = match task.turn {
            Turn::Priority(number) => u64::from(number),
            Turn::Slot(ticks) => ticks,
            Turn::Queued => 0,
        };
        let found = system.find_task(task.name.bytes()).unwrap_or(TaskId(1000));
        numbers.extend_from_slice(&[task.best, task.worst, turn, u64::from(found.0)])?;
    }
    Ok(())
}

/// The tasks of each resource, behind their number.
fn add_task_lists(numbers: &mut Vec<u64>, system: &System) -> Result<(), AllocError> {
    for r in 0..system.resources() {
        let tasks = system.tasks_on(ResId(r));
        numbers.push(tasks.len() as u64)?;
        for task in tasks {
            numbers.push(u64::from(task.0))?;
        }
    }
    Ok(())
}

/// The tasks of each path, behind their number.
fn add_paths(numbers: &mut Vec<u64>, system: &System) -> Result<(), AllocError> {
    for k in 0..system.paths() {
        let tasks = &system.path(PathId(k)).tasks;
        numbers.push(u64::from(tasks.len()))?;
        for n in 0..tasks.len() {
            numbers.push(u64::from(tasks.get(n).0))?;
        }
    }
    Ok(())
}

/// Whether a system has these numbers: of its sources, its tasks, what is on each resource, and its paths.
fn has_numbers(alloc: Global, system: &System, wanted: &[u64]) -> Result<bool, AllocError> {
    let mut numbers = Vec::new(alloc);
    for k in 0..system.sources() {
        let source = system.source(SourceId(k));
        numbers.extend_from_slice(&[source.period, source.jitter, source.distance])?;
    }
    add_tasks(&mut numbers, system)?;
    add_task_lists(&mut numbers, system)?;
    add_paths(&mut numbers, system)?;
    Ok(numbers.as_slice() == wanted)
}

/// Whether a copy of a system has these numbers after a script.
fn changes_to(alloc: Global, system: &System, change: &Change) -> Result<bool, Fail> {
    let mut copy = system.copy(alloc)?;
    let _ = run(alloc, &mut copy, change.0)?;
    Ok(has_numbers(alloc, &copy, change.1)?)
}

#[test]
fn changes_what_is_named(rt: HostRuntime) -> Result<(), Fail> {
    let alloc = rt.alloc();
    let tables: [(&str, &[Change]); 3] = [
        (WORKS, &CHANGES),
        (JOINED, &JOINED_CHANGES),
        (CROSSING_CHAINS, &CROSSING),
    ];
    for (file, changes) in tables {
        let system = read_system(alloc, file.as_bytes())?;
        for change in changes {
            assert!(rt; changes_to(alloc, &system, change)?, "{}", change.0);
        }
    }
    Ok(())
}

/// Scripts over the system with regions, and the regions afterwards.
const REGIONS: [Change; 4] = [
    ("", &[2, 4, 1]),
    (
        "exec a 3 5\npriority b 9\nswap a b\nsource s 20 0 0",
        &[2, 4, 1],
    ),
    ("add d cpu s 1 2 5", &[2, 4, 1, 1]),
    ("remove a", &[4, 1]),
];

/// Whether the tasks of a copy of a system have these regions after a script.
fn has_regions(alloc: Global, system: &System, change: &Change) -> Result<bool, Fail> {
    let mut copy = system.copy(alloc)?;
    let _ = run(alloc, &mut copy, change.0)?;
    let mut regions = Vec::new(alloc);
    for i in 0..copy.tasks() {
        regions.push(copy.task(TaskId(i)).region)?;
    }
    Ok(regions.as_slice() == change.1)
}

#[test]
fn keeps_regions(rt: HostRuntime) -> Result<(), Fail> {
    let alloc = rt.alloc();
    let system = read_system(alloc, COOPERATIVE.as_bytes())?;
    for change in &REGIONS {
        assert!(rt; has_regions(alloc, &system, change)?, "{}", change.0);
    }
    Ok(())
}

/// A chain of 32 tasks, and one task more.
const CHAIN: [Row; 2] = [
    (
        Ok(RING),
        "add c0 ring sa 1 1 1|add c1 ring c0 1 1 1|add c2 ring c1 1 1 1|add c3 ring c2 1 1 1|add c4 ring c3 1 1 1|add c5 ring c4 1 1 1|add c6 ring c5 1 1 1|add c7 ring c6 1 1 1|add c8 ring c7 1 1 1|add c9 ring c8 1 1 1|add c10 ring c9 1 1 1|add c11 ring c10 1 1 1|add c12 ring c11 1 1 1|add c13 ring c12 1 1 1|add c14 ring c13 1 1 1|add c15 ring c14 1 1 1|add c16 ring c15 1 1 1|add c17 ring c16 1 1 1|add c18 ring c17 1 1 1|add c19 ring c18 1 1 1|add c20 ring c19 1 1 1|add c21 ring c20 1 1 1|add c22 ring c21 1 1 1|add c23 ring c22 1 1 1|add c24 ring c23 1 1 1|add c25 ring c24 1 1 1|add c26 ring c25 1 1 1|add c27 ring c26 1 1 1|add c28 ring c27 1 1 1|add c29 ring c28 1 1 1|add c30 ring c29 1 1 1|add c31 ring c30 1 1 1",
    ),
    (Err(9), "add c32 ring c31 1 1 1"),
];

/// Edits of a system with a chain of 32 tasks, and with 512 tasks, in turn.
const FULL: [Row; 8] = [
    (Err(8), "add u table sa 1 1 1|add u table c31 1 1 1"),
    (Err(7), "add a table c31 1 1 1"),
    (Err(1), "add u table zz 1 1 1"),
    (Ok(TABLE), "remove t0"),
    (Err(9), "add u table c31 1 1 1"),
    (Err(7), "add a table c31 1 1 1"),
    (Ok(TABLE), "add u table c30 1 1 1"),
    (Err(8), "add v table sa 1 1 1"),
];

/// The first of these scripts, one after the other, of which something else comes than is wanted.
fn wrongly_ended(
    alloc: Global,
    system: &mut System,
    rows: &[Row],
) -> Result<Option<&'static str>, Fail> {
    for (wanted, texts) in rows {
        for text in texts.split('|') {
            if run(alloc, system, text)? != *wanted {
                return Ok(Some(text));
            }
        }
    }
    Ok(None)
}

/// Adds 477 tasks `t0`, `t1` and so on, and answers how many were accepted.
fn add_many(alloc: Global, system: &mut System) -> Result<u32, Fail> {
    let mut accepted = 0u32;
    for k in 0..477 {
        let text = format!(in alloc; "add t{k} table sa 1 1 1")?;
        if run(alloc, system, &text)? == Ok(TABLE) {
            accepted = accepted.saturating_add(1);
        }
    }
    Ok(accepted)
}

/// A chain of 32 tasks and 512 tasks are taken, and not one more.
#[test]
fn keeps_to_the_limits(rt: HostRuntime) -> Result<(), Fail> {
    let alloc = rt.alloc();
    let mut system = read_system(alloc, WORKS.as_bytes())?;
    let chain = wrongly_ended(alloc, &mut system, &CHAIN)?;
    let taken = (add_many(alloc, &mut system)?, system.tasks());
    let full = wrongly_ended(alloc, &mut system, &FULL)?;
    assert!(rt;
        chain.is_none() && taken == (476, 512) && full.is_none(),
        "{chain:?} {taken:?} {full:?}"
    );
    Ok(())
}

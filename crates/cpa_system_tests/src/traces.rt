mod systems;

ghost use Rattle.cpa_trace.specs.Trace.{FitsSystem};

use crate::edits::needs_shared;
use crate::edits::systems::LADDER;
use cpa_cases::ON_A_CLOCK;
use cpa_file::read_system;
use cpa_model::System;
use cpa_trace::{Breach, Trace, TraceFault, obeys, read_trace};
use cpa_units::{ResId, SourceId, TaskId};
use std::alloc::{AllocError, Global};
use std::test::Fail;
use systems::{CROWD, THREE_TASKS};

/// The number of events of each source, each with their times.
fn add_times(numbers: &mut Vec<u64>, system: &System, trace: &Trace) -> Result<(), AllocError>
    requires { FitsSystem system.now trace.now }
{
    for k in 0..system.sources() {
        let events = trace.events(SourceId(k));
        numbers.push(events)?;
        for n in 0..events {
            numbers.push(trace.time(SourceId(k), n))?;
        }
    }
    Ok(())
}

/// The number of executions of each task, each with them.
fn add_executions(numbers: &mut Vec<u64>, system: &System, trace: &Trace) -> Result<(), AllocError>
    requires { FitsSystem system.now trace.now }
{
    for i in 0..system.tasks() {
        let execs = trace.execs(TaskId(i));
        numbers.push(execs)?;
        for n in 0..execs {
            numbers.push(trace.exec(TaskId(i), n))?;
        }
    }
    Ok(())
}

/// All numbers of a trace: of the sources, of the tasks, and the phases.
fn numbers_of(alloc: Global, system: &System, trace: &Trace) -> Result<Vec<u64>, AllocError>
    requires { FitsSystem system.now trace.now }
{
    let mut numbers = Vec::new(alloc);
    add_times(&mut numbers, system, trace)?;
    add_executions(&mut numbers, system, trace)?;
    for r in 0..system.resources() {
        numbers.push(trace.phase(ResId(r)))?;
    }
    Ok(numbers)
}

/// Files with each check of a row broken alone, and with two at once: what is told is the first in the
/// order of the checks, and the first row.
const REFUSALS: [(&[u8], Option<TraceFault>); 37] = [
    // The form of a row.
    (b"event", Some(TraceFault::BadRow(1))),
    (b"event,sa", Some(TraceFault::BadRow(1))),
    (b"event,sa,0,0", Some(TraceFault::BadRow(1))),
    (b"events,sa,0", Some(TraceFault::BadRow(1))),
    (b"Phase,ring,0", Some(TraceFault::BadRow(1))),
    (b",sa,0", Some(TraceFault::BadRow(1))),
    (b"event,sa,", Some(TraceFault::BadRow(1))),
    (b"event,sa,-1", Some(TraceFault::BadRow(1))),
    (b"exec,a, 1", Some(TraceFault::BadRow(1))),
    (b"event,sa,00000000000", Some(TraceFault::BadRow(1))),
    (
        b"event,sa,0\nevent,sa,7\nevent,sa,x",
        Some(TraceFault::BadRow(3)),
    ),
    (b"phase,ring,0\nphase,ring,0", Some(TraceFault::BadRow(2))),
    // What is named.
    (b"event,zz,0", Some(TraceFault::UnknownName(1))),
    (b"event,a,0", Some(TraceFault::UnknownName(1))),
    (b"event,,0", Some(TraceFault::UnknownName(1))),
    (b"exec,zz,1", Some(TraceFault::UnknownName(1))),
    (b"exec,sa,1", Some(TraceFault::UnknownName(1))),
    (b"phase,zz,0", Some(TraceFault::UnknownName(1))),
    (b"phase,cpu,0", Some(TraceFault::UnknownName(1))),
    // Numbers out of their range.
    (b"event,sa,10000001", Some(TraceFault::OutOfRange(1))),
    (b"event,sa,7\nevent,sa,6", Some(TraceFault::OutOfRange(2))),
    (b"exec,a,0", Some(TraceFault::OutOfRange(1))),
    (b"exec,a,1000001", Some(TraceFault::OutOfRange(1))),
    (b"phase,ring,1000000001", Some(TraceFault::OutOfRange(1))),
    // Two at once.
    (b"event,zz", Some(TraceFault::BadRow(1))),
    (b"events,zz,10000001", Some(TraceFault::BadRow(1))),
    (b"exec,zz,99999999999", Some(TraceFault::BadRow(1))),
    (
        b"phase,ring,0\nphase,ring,1000000001",
        Some(TraceFault::BadRow(2)),
    ),
    (b"event,zz,10000001", Some(TraceFault::UnknownName(1))),
    (b"exec,zz,0", Some(TraceFault::UnknownName(1))),
    (b"phase,cpu,1000000001", Some(TraceFault::UnknownName(1))),
    (
        b"event,sa,1\nexec,a,0\nevent",
        Some(TraceFault::OutOfRange(2)),
    ),
    // Bytes that are no UTF-8, a mark that isn't at the start, an empty line, a comma in quotes.
    (b"event,\xff,0", Some(TraceFault::UnknownName(1))),
    (b"\xff,sa,0", Some(TraceFault::BadRow(1))),
    (
        b"event,sa,0\n\xef\xbb\xbfevent,sa,0",
        Some(TraceFault::BadRow(2)),
    ),
    (b"event,sa,0\n\n\nevent", Some(TraceFault::BadRow(2))),
    (b"event,\"s,a\",0", Some(TraceFault::UnknownName(1))),
];

/// A system, a row and how often it stands in files, and what comes after it in each, with what is wrong with that file.
struct Files {
    system: &'static str,
    row: &'static str,
    count: usize,
    ends: &'static [(&'static [u8], Option<TraceFault>)],
}

const ROWS: [Files; 5] = [
    Files {
        system: THREE_TASKS,
        row: "",
        count: 0,
        ends: &REFUSALS,
    },
    // Each event on the ladder starts a job for each of the 528 streams.
    Files {
        system: LADDER,
        row: "event,sa,0\n",
        count: 3_787,
        ends: &[(b"", None)],
    },
    Files {
        system: LADDER,
        row: "event,sa,0\n",
        count: 3_788,
        ends: &[(b"", Some(TraceFault::TooMany))],
    },
    // 200,000 rows are taken, and of a further one only that it is there is seen.
    Files {
        system: THREE_TASKS,
        row: "event,sb,10000000\n",
        count: 200_000,
        ends: &[(b"\n\r\n", None), (b"x", Some(TraceFault::TooMany))],
    },
    Files {
        system: THREE_TASKS,
        row: "event,sb,10000000\n",
        count: 199_999,
        ends: &[(b"x", Some(TraceFault::BadRow(200_000)))],
    },
];

/// 2,000,000 jobs are taken, and not one more. They are looked at after all rows.
const JOBS: [Files; 2] = [
    Files {
        system: CROWD,
        row: "event,sa,0\n",
        count: 181_818,
        ends: &[
            (b"event,sb,0\nevent,sb,0", None),
            (
                b"event,sb,0\nevent,sb,0\nevent,sb,0",
                Some(TraceFault::TooMany),
            ),
        ],
    },
    Files {
        system: CROWD,
        row: "event,sa,0\n",
        count: 181_819,
        ends: &[(b"event,sb", Some(TraceFault::BadRow(181_820)))],
    },
];

/// What is wrong with one of these files.
fn fault_of(alloc: Global, files: &Files, end: &[u8]) -> Result<Option<TraceFault>, Fail> {
    let mut bytes = files.row.repeat(alloc, files.count)?.into_bytes();
    bytes.extend_from_slice(end)?;
    let system = read_system(alloc, files.system.as_bytes())?;
    Ok(read_trace(alloc, &system, bytes.as_slice()).err())
}

/// The end of a file of which something else is told than is wanted.
fn wrong_end(alloc: Global, all: &[Files]) -> Result<Option<&'static [u8]>, Fail> {
    let mut wrong = None;
    for files in all {
        for (end, fault) in files.ends {
            if fault_of(alloc, files, end)? != *fault {
                wrong = Some(*end);
            }
        }
    }
    Ok(wrong)
}

#[test]
fn refuses_the_first_row(rt: HostRuntime) -> Result<(), Fail> {
    let wrong = wrong_end(rt.alloc(), &ROWS)?;
    assert!(rt; wrong.is_none(), "{wrong:?}");
    Ok(())
}

#[test]
fn counts_jobs(rt: HostRuntime) -> Result<(), Fail> {
    let wrong = wrong_end(rt.alloc(), &JOBS)?;
    assert!(rt; wrong.is_none(), "{wrong:?}");
    Ok(())
}

/// What is looked at of a trace: all its numbers, or its first breach.
enum Seen {
    Numbers(&'static [u64]),
    First(Option<Breach>),
}

/// Files and their traces. Events of `sa` may come 4 ticks apart, and n of them in no less than 10 * (n - 1) - 25 ticks; those of
/// `sb` 20 ticks apart.
const TRACES: [(&[u8], Seen); 21] = [
    // Rows of each sort at the ends of their ranges, a mark of the byte order, quotes, an empty line and either end of a row.
    (b"", Seen::Numbers(&[0, 0, 0, 0, 0, 0, 0, 0])),
    (b"\xef\xbb\xbf", Seen::Numbers(&[0, 0, 0, 0, 0, 0, 0, 0])),
    (
        b"event,sa,4\r\n\"event\",\"sb\",\"0000000005\"\n\nexec,a,3\nphase,ring,39\nevent,sa,4\nexec,a,2",
        Seen::Numbers(&[2, 4, 4, 1, 5, 2, 3, 2, 0, 0, 0, 39, 0]),
    ),
    (
        b"\xef\xbb\xbfevent,sb,10000000\r\nexec,x,1000000\r\nphase,idle,1000000000\r\nexec,b,1\r\n",
        Seen::Numbers(&[0, 1, 10_000_000, 0, 1, 1, 1, 1_000_000, 0, 0, 1_000_000_000]),
    ),
    (b"", Seen::First(None)),
    (
        b"event,sa,0\nevent,sa,4\nevent,sa,8\nevent,sa,12",
        Seen::First(None),
    ),
    // By distance alone, where an earlier event is too close, and where none is.
    (
        b"event,sa,0\nevent,sa,3",
        Seen::First(Some(Breach::Close {
            source: SourceId(0),
            first: 0,
            second: 3,
        })),
    ),
    (
        b"event,sa,0\nevent,sa,4\nevent,sa,7",
        Seen::First(Some(Breach::Close {
            source: SourceId(0),
            first: 0,
            second: 7,
        })),
    ),
    (
        b"event,sa,0\nevent,sa,5\nevent,sa,8",
        Seen::First(Some(Breach::Close {
            source: SourceId(0),
            first: 5,
            second: 8,
        })),
    ),
    // By period and jitter alone, though each is far enough from the one before.
    (
        b"event,sa,0\nevent,sa,4\nevent,sa,8\nevent,sa,12\nevent,sa,16\nevent,sa,20",
        Seen::First(Some(Breach::Close {
            source: SourceId(0),
            first: 0,
            second: 20,
        })),
    ),
    // By both, at different events.
    (
        b"event,sa,0\nevent,sa,4\nevent,sa,8\nevent,sa,12\nevent,sa,16\nevent,sa,20\nevent,sa,20",
        Seen::First(Some(Breach::Close {
            source: SourceId(0),
            first: 0,
            second: 20,
        })),
    ),
    (
        b"event,sa,0\nevent,sa,9\nevent,sa,9\nevent,sa,13\nevent,sa,17\nevent,sa,21\nevent,sa,25",
        Seen::First(Some(Breach::Close {
            source: SourceId(0),
            first: 9,
            second: 9,
        })),
    ),
    // In the second source.
    (
        b"event,sa,0\nevent,sb,0\nevent,sb,20\nevent,sb,39",
        Seen::First(Some(Breach::Close {
            source: SourceId(1),
            first: 0,
            second: 39,
        })),
    ),
    (
        b"event,sb,5\nevent,sb,5",
        Seen::First(Some(Breach::Close {
            source: SourceId(1),
            first: 5,
            second: 5,
        })),
    ),
    // Executions, also of a job that never arrives.
    (
        b"exec,b,7\nexec,b,8\nexec,a,1",
        Seen::First(Some(Breach::Exec {
            task: TaskId(0),
            job: 1,
        })),
    ),
    (
        b"exec,b,7\nexec,b,8",
        Seen::First(Some(Breach::Exec {
            task: TaskId(1),
            job: 2,
        })),
    ),
    (b"event,sa,0\nexec,a,2\nexec,a,7", Seen::First(None)),
    // Phases.
    (b"phase,ring,39\nphase,idle,1000000000", Seen::First(None)),
    (
        b"phase,idle,5\nphase,ring,40",
        Seen::First(Some(Breach::Phase { res: ResId(1) })),
    ),
    // Sources before tasks before resources.
    (
        b"phase,ring,40\nexec,a,1",
        Seen::First(Some(Breach::Exec {
            task: TaskId(0),
            job: 1,
        })),
    ),
    (
        b"phase,ring,40\nexec,a,1\nevent,sb,1\nevent,sb,1",
        Seen::First(Some(Breach::Close {
            source: SourceId(1),
            first: 1,
            second: 1,
        })),
    ),
];

/// Whether this is seen of the trace of a file.
fn is_seen(alloc: Global, bytes: &[u8], seen: &Seen) -> Result<bool, Fail> {
    let system = read_system(alloc, THREE_TASKS.as_bytes())?;
    let trace = read_trace(alloc, &system, bytes)?;
    match seen {
        Seen::Numbers(numbers) => { Ok(numbers_of(alloc, &system, &trace)?.as_slice() == *numbers) }
        Seen::First(breach) => Ok(obeys(alloc, &system, &trace)? == *breach),
    }
}

#[test]
fn reads_a_trace(rt: HostRuntime) -> Result<(), Fail> {
    let alloc = rt.alloc();
    let mut wrong = None;
    for (bytes, seen) in &TRACES {
        if !is_seen(alloc, bytes, seen)? {
            wrong = Some(*bytes);
        }
    }
    assert!(rt; wrong.is_none(), "{wrong:?}");
    Ok(())
}

/// Traces of the system whose sources are on clocks, and the first breach.
const CLOCKED: [(&[u8], Option<Breach>); 10] = [
    // The clock starts at 3, and an event may be a tick late.
    (
        b"event,sa,3\nevent,sa,13\nevent,sb,8\nevent,sb,29\nevent,sc,0\nevent,sd,5",
        None,
    ),
    // It started before the trace did: the second event of `sa` is the first that is seen.
    (b"event,sa,3\nevent,sb,19", None),
    (b"event,sc,7\nevent,sc,47\nevent,sb,0", None),
    (
        b"event,sa,3\nevent,sb,7",
        Some(Breach::Clock {
            source: SourceId(1),
            time: 7,
        }),
    ),
    (
        b"event,sa,3\nevent,sb,10",
        Some(Breach::Clock {
            source: SourceId(1),
            time: 10,
        }),
    ),
    // An event is left out.
    (
        b"event,sa,0\nevent,sa,10\nevent,sa,30\nevent,sa,40",
        Some(Breach::Clock {
            source: SourceId(0),
            time: 30,
        }),
    ),
    // The first is on time at the latest, and then the third is late by 2.
    (
        b"event,sb,0\nevent,sb,20\nevent,sb,42",
        Some(Breach::Clock {
            source: SourceId(1),
            time: 42,
        }),
    ),
    (
        b"event,sa,0\nevent,sb,5\nevent,sc,0\nevent,sc,41",
        Some(Breach::Clock {
            source: SourceId(2),
            time: 41,
        }),
    ),
    // All else comes before what clocks say.
    (
        b"event,sa,0\nevent,sa,30\nexec,low,1",
        Some(Breach::Exec {
            task: TaskId(1),
            job: 1,
        }),
    ),
    (
        b"event,sa,0\nevent,sa,30\nevent,sb,0\nevent,sb,1",
        Some(Breach::Close {
            source: SourceId(1),
            first: 0,
            second: 1,
        }),
    ),
];

/// Whether this is the first breach of the trace of a file.
fn is_first(alloc: Global, bytes: &[u8], breach: Option<Breach>) -> Result<bool, Fail> {
    let system = read_system(alloc, ON_A_CLOCK.as_bytes())?;
    let trace = read_trace(alloc, &system, bytes)?;
    Ok(obeys(alloc, &system, &trace)? == breach)
}

#[test]
fn judges_clocks(rt: HostRuntime) -> Result<(), Fail> {
    let alloc = rt.alloc();
    let mut wrong = None;
    for (bytes, breach) in &CLOCKED {
        if !is_first(alloc, bytes, *breach)? {
            wrong = Some(*bytes);
        }
    }
    assert!(rt; wrong.is_none(), "{wrong:?}");
    Ok(())
}

/// A trace that is built call by call.
#[test]
fn builds_a_trace(rt: HostRuntime) -> Result<(), Fail> {
    let alloc = rt.alloc();
    let system = read_system(alloc, THREE_TASKS.as_bytes())?;
    assert!(rt; (system.sources(), system.tasks(), system.resources()) == (2, 3, 3));
    let mut trace = Trace::empty(alloc, &system)?;
    needs_shared(&trace);
    trace.add_event(SourceId(0), 5)?;
    trace.add_exec(TaskId(0), 7)?;
    trace.set_phase(ResId(2), 99);
    let numbers = numbers_of(alloc, &system, &trace)?;
    assert!(rt;
        numbers.as_slice() == [1, 5, 0, 1, 7, 0, 0, 0, 0, 99].as_slice()
            && obeys(alloc, &system, &trace)?.is_none()
    );
    Ok(())
}

//! A session that is kept, under edits.

use cpa_kept::{Handle, bounds, close, edit, handles_cross_threads, latencies, open, report};
use cpa_units::NoMemory;
use std::alloc::Global;
use std::test::Fail;

/// Two tasks on one processor; the path of the second has the deadline 9.
const SYSTEM: &str =
    "format = 1\nresource = [{ name = \"cpu\", kind = \"preemptive\" }]\nsource = [{ name = \"sa\", period = 10 }, { name = \"sb\", period = 20 }]\ntask = [{ name = \"a\", on = \"cpu\", after = \"sa\", best = 1, worst = 3, priority = 1 }, { name = \"b\", on = \"cpu\", after = \"sb\", best = 2, worst = 7, priority = 2 }]\npath = [{ name = \"p\", tasks = [\"b\"], deadline = 9 }]\n";

/// What is seen after an edit: its status, the verdict, both bounds, and the latency of the path.
#[derive(Clone, Copy, Debug, PartialEq, Eq)]
struct Seen {
    status: u8,
    verdict: u8,
    first: u64,
    second: u64,
    latency: u64,
}

/// Edits, one after the other. The second task waits for one job of the first where both are done within 10 ticks.
const EDITS: [(&str, Seen); 4] = [
    (
        "exec b 2 5",
        Seen {
            status: 0,
            verdict: 0,
            first: 3,
            second: 8,
            latency: 8,
        },
    ),
    (
        "exec zz 1 2",
        Seen {
            status: 21,
            verdict: 0,
            first: 3,
            second: 8,
            latency: 8,
        },
    ),
    (
        "report",
        Seen {
            status: 15,
            verdict: 0,
            first: 3,
            second: 8,
            latency: 8,
        },
    ),
    (
        "exec a 1 10",
        Seen {
            status: 0,
            verdict: 2,
            first: 10,
            second: u64::MAX,
            latency: u64::MAX,
        },
    ),
];

/// Makes an edit and looks; None of a handle that isn't open.
fn look(alloc: Global, handle: &mut Handle, text: &str) -> Result<Option<Seen>, NoMemory> {
    if !handle.is_open() {
        return Ok(None);
    }
    let status = edit(alloc, handle, text.as_bytes())?.status;
    if !handle.is_open() {
        return Ok(None);
    }
    let mut numbers = [0u64; 2];
    let verdict = bounds(alloc, handle, &mut numbers).status;
    if !handle.is_open() {
        return Ok(None);
    }
    let mut paths = [0u64; 1];
    latencies(alloc, handle, &mut paths);
    Ok(Some(Seen {
        status,
        verdict,
        first: numbers[0],
        second: numbers[1],
        latency: paths[0],
    }))
}

/// Opens a closed handle; whether it is open then.
fn start(alloc: Global, handle: &mut Handle) -> Result<bool, NoMemory> {
    if handle.is_open() {
        return Ok(false);
    }
    open(alloc, handle, SYSTEM.as_bytes())?;
    Ok(handle.is_open())
}

#[test]
fn keeps_a_session(rt: HostRuntime) -> Result<(), Fail> {
    let alloc = rt.alloc();
    let mut handle = Handle::closed();
    handles_cross_threads(&handle);
    assert!(rt; start(alloc, &mut handle)?);
    for (text, wanted) in &EDITS {
        let seen = look(alloc, &mut handle, text)?;
        assert!(rt; seen == Some(*wanted), "{text}");
    }
    close(alloc, &mut handle);
    Ok(())
}

/// The report of a system that is kept, and its status.
fn report_of(alloc: Global, handle: &mut Handle) -> Result<Option<(u8, Vec<u8>)>, NoMemory> {
    if !handle.is_open() {
        return Ok(None);
    }
    let reply = report(alloc, handle)?;
    Ok(Some((reply.status, reply.text)))
}

#[test]
fn reports_a_session(rt: HostRuntime) -> Result<(), Fail> {
    let alloc = rt.alloc();
    let mut handle = Handle::closed();
    assert!(rt; start(alloc, &mut handle)?);
    let seen = match report_of(alloc, &mut handle)? {
        Some((status, text)) => status == 1 && text.len() > 100,
        None => false,
    };
    assert!(rt; seen);
    close(alloc, &mut handle);
    Ok(())
}

use crate::audits::{LONG_SCHEDULES, REFUSED_ROWS, RINGS, RUNS as RECORDED};
use crate::buffers::{REFUSED, WAITING};
use crate::calls::{
    Call, Faults, LongCall, NO_FAULTS, NO_OPTION, Options, WORKERS, call, open_gates, try_calls,
    try_long_calls,
};
use crate::car::{CAR_NETWORK, CAR_NETWORK_REPORT};
use crate::cases::*;
use crate::generated::{HAMMERED, LOADS};
use crate::orders::{GROWTHS, ORDERS};
use crate::runs::{REFUSED_TRACES, RUNS, RUNS_OF_SEVERAL};
use crate::sessions::{EDITS, REFUSED_EDITS, SESSION_REPORTS};
use cpa_cases::{BURST, GATEWAY, LOCKED, LONG_WINDOW, TWO_TASKS};
use std::test::Fail;

const ANALYSE: &[&str] = &["analyse", "sys"];

/// No number of workers, and several of them, as words that are accepted.
const ANALYSE_BY: Options = &[
    &[],
    &["--workers", "2"],
    &["--workers=3"],
    &["--workers", "008"],
    &["--workers=64"],
];

/// Systems whose tasks stand alone.
const SINGLE_TASKS: [Call; 11] = [
    (ANALYSE, &[("sys", TWO_TASKS)], 0, &[TWO_TASKS_REPORT]),
    (ANALYSE, &[("sys", LIMIT_REACHED)], 0, &[TWO_TASKS_REPORT]),
    (ANALYSE, &[("sys", REGIONS)], 0, &[REGIONS_REPORT]),
    (ANALYSE, &[("sys", LIMIT_BELOW)], 2, &[LIMIT_BELOW_REPORT]),
    (ANALYSE, &[("sys", LONG_WINDOW)], 0, &[LONG_WINDOW_REPORT]),
    (ANALYSE, &[("sys", BURST)], 0, &[BURST_REPORT]),
    (ANALYSE, &[("sys", DAVIS_BUS)], 1, &[DAVIS_BUS_REPORT]),
    (
        ANALYSE,
        &[("sys", FRAME_LENGTHS)],
        0,
        &[FRAME_LENGTHS_REPORT],
    ),
    (ANALYSE, &[("sys", TDMA_GAP)], 0, &[TDMA_GAP_REPORT]),
    (ANALYSE, &[("sys", ROUND_ROBIN)], 0, &[ROUND_ROBIN_REPORT]),
    (
        ANALYSE,
        &[("sys", ROUND_ROBIN_SHARE)],
        2,
        &[ROUND_ROBIN_SHARE_REPORT],
    ),
];

/// Systems of chains.
const CHAINS: [Call; 7] = [
    (
        ANALYSE,
        &[("sys", CROSSING_CHAINS)],
        1,
        &[CROSSING_CHAINS_REPORT],
    ),
    (
        ANALYSE,
        &[("sys", ENDLESS_JITTER)],
        2,
        &[ENDLESS_JITTER_REPORT],
    ),
    (
        ANALYSE,
        &[("sys", TWO_SOLUTIONS)],
        0,
        &[TWO_SOLUTIONS_REPORT],
    ),
    (
        ANALYSE,
        &[("sys", GREATER_SOLUTION)],
        0,
        &[GREATER_SOLUTION_REPORT],
    ),
    (
        ANALYSE,
        &[("sys", THERE_AND_BACK)],
        0,
        &[THERE_AND_BACK_REPORT],
    ),
    (
        ANALYSE,
        &[("sys", BEHIND_OVERLOAD)],
        2,
        &[BEHIND_OVERLOAD_REPORT],
    ),
    (ANALYSE, &[("sys", CAR_NETWORK)], 0, &[CAR_NETWORK_REPORT]),
];

/// Systems with the largest numbers, without tasks, in format 2, with queues, and with locks.
const FURTHER_SYSTEMS: [Call; 10] = [
    (
        ANALYSE,
        &[("sys", LARGEST_JITTER)],
        2,
        &[LARGEST_JITTER_REPORT],
    ),
    (ANALYSE, &[("sys", LARGEST_GAP)], 2, &[LARGEST_GAP_REPORT]),
    (ANALYSE, &[("sys", "format = 1")], 0, &[EMPTY_REPORT]),
    (ANALYSE, &[("sys", NO_TASKS)], 0, &[EMPTY_REPORT]),
    (
        ANALYSE,
        &[("sys", PLAIN_IN_FORMAT_TWO)],
        0,
        &[TWO_TASKS_REPORT],
    ),
    (
        ANALYSE,
        &[("sys", TWO_ACTIVATORS)],
        0,
        &[TWO_ACTIVATORS_REPORT],
    ),
    (
        ANALYSE,
        &[("sys", SHARED_SOURCE)],
        0,
        &[SHARED_SOURCE_REPORT],
    ),
    (ANALYSE, &[("sys", JOINED_KINDS)], 0, &[JOINED_KINDS_REPORT]),
    (ANALYSE, &[("sys", GATEWAY)], 0, &[GATEWAY_REPORT]),
    (ANALYSE, &[("sys", LOCKED)], 0, &[LOCKED_REPORT]),
];

/// Systems that are refused.
const REFUSALS: [Call; 7] = [
    (ANALYSE, &[("sys", CUT_NAME)], 13, &["not TOML sys\n"]),
    (
        ANALYSE,
        &[("sys", OTHER_FORMAT)],
        14,
        &["system refused reason 13 file 0\n"],
    ),
    (
        ANALYSE,
        &[("sys", WORST_ZERO)],
        14,
        &["system refused reason 2 task 2\n"],
    ),
    (
        ANALYSE,
        &[("sys", NO_ACTIVATOR)],
        14,
        &["system refused reason 5 task 3\n"],
    ),
    (
        ANALYSE,
        &[("sys", NO_SOURCE)],
        14,
        &["system refused reason 6 task 1\n"],
    ),
    (
        ANALYSE,
        &[("sys", ONE_PRIORITY)],
        14,
        &["system refused reason 8 task 2\n"],
    ),
    (
        ANALYSE,
        &[("sys", NAMED_TWICE)],
        14,
        &["system refused reason 14 task 1\n"],
    ),
];

/// What a cut of the two tasks after so many bytes answers. Nothing is left out of an entry at the ends of the first three
/// lines, before and after their line feeds, and where the last line feed alone is cut off.
fn cut_answer(cut: usize) -> (u8, &'static str) {
    match cut {
        0 => (14, "system refused reason 1 file 0\n"),
        10 | 11 | 61 | 62 | 131 | 132 => (0, EMPTY_REPORT),
        300 => (0, TWO_TASKS_REPORT),
        _ => (13, "not TOML sys\n"),
    }
}

#[test]
fn reads_cut_files(rt: HostRuntime) -> Result<(), Fail> {
    for cut in 0..TWO_TASKS.len() {
        let held: Option<(&str, &[u8])> = Some(("sys", &TWO_TASKS.as_bytes()[..cut]));
        let (seen, sink) = call(&rt, ANALYSE, &[], &[], held, &NO_FAULTS)?;
        let (status, text) = cut_answer(cut);
        assert!(rt; seen == status && sink.sent() == text.as_bytes(), "{cut}");
    }
    Ok(())
}

const HELD: &[(&str, &str)] = &[("sys", TWO_TASKS)];

const WORDS_REFUSED: &[&str] = &["words refused\n"];

/// Words that aren't accepted. Which are is tried in `cpa_system_tests`.
const REFUSED_WORDS: [Call; 8] = [
    (&[], HELD, 10, WORDS_REFUSED),
    (&["analyse"], HELD, 10, WORDS_REFUSED),
    (
        &["analyse", "sys", "--workers", "0"],
        HELD,
        10,
        WORDS_REFUSED,
    ),
    (
        &["analyse", "sys", "--workers", "65"],
        HELD,
        10,
        WORDS_REFUSED,
    ),
    (&["generate", "1", "129"], HELD, 10, WORDS_REFUSED),
    (&["hammer", "sys", "1", "0"], HELD, 10, WORDS_REFUSED),
    (
        &["audit", "sys", "tr", "sch", "--workers", "1"],
        HELD,
        10,
        WORDS_REFUSED,
    ),
    (&["help"], HELD, 10, WORDS_REFUSED),
];

#[test]
fn analyses_single_tasks(rt: HostRuntime) -> Result<(), Fail> {
    try_calls(&rt, &SINGLE_TASKS, ANALYSE_BY, open_gates(rt.alloc())?)
}

#[test]
fn analyses_chains(rt: HostRuntime) -> Result<(), Fail> {
    try_calls(&rt, &CHAINS, ANALYSE_BY, open_gates(rt.alloc())?)
}

#[test]
fn analyses_further_systems(rt: HostRuntime) -> Result<(), Fail> {
    try_calls(&rt, &FURTHER_SYSTEMS, ANALYSE_BY, open_gates(rt.alloc())?)
}

#[test]
fn refuses_systems_and_words(rt: HostRuntime) -> Result<(), Fail> {
    try_calls(&rt, &REFUSALS, ANALYSE_BY, open_gates(rt.alloc())?)?;
    try_calls(&rt, &REFUSED_WORDS, NO_OPTION, open_gates(rt.alloc())?)
}

/// Each trace of the tables, held as `tr` beside its system.
#[test]
fn simulates(rt: HostRuntime) -> Result<(), Fail> {
    try_calls(&rt, &RUNS, NO_OPTION, open_gates(rt.alloc())?)?;
    try_calls(&rt, &RUNS_OF_SEVERAL, NO_OPTION, open_gates(rt.alloc())?)
}

#[test]
fn refuses_traces_and_schedules(rt: HostRuntime) -> Result<(), Fail> {
    try_calls(&rt, &REFUSED_TRACES, NO_OPTION, open_gates(rt.alloc())?)?;
    try_calls(&rt, &REFUSED_ROWS, NO_OPTION, open_gates(rt.alloc())?)
}

/// Each script of the tables, held as `scr` beside its system, by several numbers of workers: the bytes are the same.
#[test]
fn edits(rt: HostRuntime) -> Result<(), Fail> {
    try_calls(&rt, &EDITS, WORKERS, open_gates(rt.alloc())?)?;
    try_calls(&rt, &REFUSED_EDITS, WORKERS, open_gates(rt.alloc())?)
}

#[test]
fn loads_and_hammers(rt: HostRuntime) -> Result<(), Fail> {
    try_calls(&rt, &LOADS, WORKERS, open_gates(rt.alloc())?)?;
    try_calls(&rt, &HAMMERED, NO_OPTION, open_gates(rt.alloc())?)
}

#[test]
fn tells_orders_and_slack(rt: HostRuntime) -> Result<(), Fail> {
    try_calls(&rt, &ORDERS, NO_OPTION, open_gates(rt.alloc())?)?;
    try_calls(&rt, &GROWTHS, WORKERS, open_gates(rt.alloc())?)
}

#[test]
fn tells_buffers(rt: HostRuntime) -> Result<(), Fail> {
    try_calls(&rt, &WAITING, WORKERS, open_gates(rt.alloc())?)?;
    try_calls(&rt, &REFUSED, WORKERS, open_gates(rt.alloc())?)
}

#[test]
fn audits(rt: HostRuntime) -> Result<(), Fail> {
    try_calls(&rt, &RINGS, NO_OPTION, open_gates(rt.alloc())?)?;
    try_calls(&rt, &RECORDED, NO_OPTION, open_gates(rt.alloc())?)
}

#[test]
fn reads_long_files(rt: HostRuntime) -> Result<(), Fail> {
    try_long_calls(&rt, &LONG_FILES)?;
    try_long_calls(&rt, &LONG_SCHEDULES)
}

/// Words over the two tasks, a script and a file that was cut, the faults, the status and the text.
const FAULTS: [(&[&str], Faults<'static>, u8, &str); 6] = [
    (&["analyse", "zz"], NO_FAULTS, 11, "cannot read zz\n"),
    (
        &["simulate", "sys", "zz"],
        NO_FAULTS,
        11,
        "cannot read zz\n",
    ),
    (&["simulate", "cut", "zz"], NO_FAULTS, 13, "not TOML cut\n"),
    (
        &["analyse", "sys"],
        Faults {
            loads: &[],
            piece: 8,
            puts: &[5],
        },
        20,
        "task a cpu period 10 jitter 0 distance 0",
    ),
    (
        &["session", "sys", "scr"],
        Faults {
            loads: &[0],
            piece: 4096,
            puts: &[0],
        },
        20,
        "",
    ),
    (
        &["session", "sys", "scr"],
        Faults {
            loads: &[],
            piece: 4096,
            puts: &[1],
        },
        20,
        TWO_TASKS_REPORT,
    ),
];

#[test]
fn tells_faults(rt: HostRuntime) -> Result<(), Fail> {
    let held = [
        ("sys", TWO_TASKS),
        ("scr", SESSION_REPORTS),
        ("cut", CUT_NAME),
    ];
    for (words, faults, status, text) in &FAULTS {
        let (seen, sink) = call(&rt, words, &[], &held, None, faults)?;
        assert!(rt; seen == *status && sink.sent() == text.as_bytes(), "{text}");
    }
    Ok(())
}

/// Files that are a byte or a line too long, or where tables would stand too deep in one another.
const LONG_FILES: [LongCall; 5] = [
    (
        ANALYSE,
        &[],
        ("sys", b"#", &[b'#'; 64], 16_384),
        12,
        "too long sys\n",
    ),
    (
        ANALYSE,
        &[],
        ("sys", b"format = ", b"[", 10_000),
        13,
        "not TOML sys\n",
    ),
    (
        &["session", "sys", "scr"],
        &[("sys", LONG_WINDOW)],
        ("scr", b"", b"\n", 10_001),
        15,
        "script refused too many lines\n",
    ),
    (
        &["session", "sys", "scr"],
        &[("sys", LONG_WINDOW)],
        ("scr", b"#", &[b'#'; 64], 16_384),
        12,
        "too long scr\n",
    ),
    (
        &["simulate", "sys", "tr"],
        &[("sys", LONG_WINDOW)],
        ("tr", b"x", &[b'x'; 64], 262_144),
        12,
        "too long tr\n",
    ),
];

/// A sink that takes one byte at a time, and fails after each number of them in turn.
#[test]
fn sends_a_prefix(rt: HostRuntime) -> Result<(), Fail> {
    let report = TWO_TASKS_REPORT.as_bytes();
    assert!(rt; report.len() == 149);
    for sent in 0..150 {
        let faults = Faults {
            loads: &[],
            piece: 1,
            puts: &[sent as u64],
        };
        let (seen, sink) = call(&rt, ANALYSE, &[], HELD, None, &faults)?;
        let status = if sent < report.len() { 20 } else { 0 };
        let right = seen == status && Some(sink.sent()) == report.get(..sent);
        assert!(rt; right, "{sent}");
    }
    Ok(())
}

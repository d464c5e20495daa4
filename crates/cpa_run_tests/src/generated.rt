//! Calls of the commands on generated systems and generated traces.

use crate::calls::{Call, NO_FAULTS, call};
use crate::car::CAR_NETWORK;
use crate::cases::{LIMIT_BELOW, TWO_ACTIVATORS};
use cpa_cases::LONG_WINDOW;
use std::test::Fail;

/// Summaries of generated systems.
pub const LOADS: [Call; 3] = [
    (
        &["load", "42", "1"],
        &[],
        0,
        &["load number 42 size 1 bounds 1153\nsummary tasks 3 overload 0 missed 0\n"],
    ),
    (
        &["load", "7", "0"],
        &[],
        0,
        &["load number 7 size 0 bounds 0\nsummary tasks 0 overload 0 missed 0\n"],
    ),
    (&["load", "1", "128"], &[], 0, &[LARGE_SUMMARY]),
];

const LARGE_SUMMARY: &str =
    "load number 1 size 128 bounds 494143\nsummary tasks 384 overload 0 missed 0\n";

/// What is seen of systems under generated traces.
pub const HAMMERED: [Call; 5] = [
    (
        &["hammer", "sys", "1", "1"],
        &[("sys", LONG_WINDOW)],
        0,
        &[
            "task a jobs 100 worst 26 bound 26\ntask b jobs 100 worst 118 bound 118\nsummary traces 1 jobs 200 beyond 0\n",
        ],
    ),
    (
        &["hammer", "sys", "1", "1"],
        &[("sys", LIMIT_BELOW)],
        0,
        &[
            "task a jobs 100 worst 3 bound 3\ntask b jobs 100 worst 10 bound overload\nsummary traces 1 jobs 200 beyond 0\n",
        ],
    ),
    (
        &["hammer", "sys", "1", "2"],
        &[("sys", TWO_ACTIVATORS)],
        0,
        &[
            "task m jobs 400 worst 6 bound 6\ntask n jobs 400 worst 3 bound 4\nsummary traces 2 jobs 800 beyond 0\n",
        ],
    ),
    (
        &["hammer", "sys", "4294967295", "10000"],
        &[("sys", "format = 1")],
        0,
        &["summary traces 10000 jobs 0 beyond 0\n"],
    ),
    (
        &["hammer", "sys", "1", "1"],
        &[("sys", "format = 3")],
        14,
        &["system refused reason 13 file 0\n"],
    ),
];

/// The report of a generated system, whose numbers are worked out from the generator's outputs.
const MADE_REPORT: &str = "task t0a p0 period 100000 jitter 97 distance 0 best 162 worst 324
task t0f b0 period 100000 jitter 259 distance 162 best 206 worst 250
task t0b p0 period 100000 jitter 303 distance 206 best 127 worst 579
path c0 best 495 worst 1153 deadline 100000 met
summary tasks 3 overload 0 missed 0
";

/// The number and the size of a generated system, and how its report ends.
const MADE: &[(&str, &str, &str)] = &[
    ("42", "1", MADE_REPORT),
    ("1", "128", "\nsummary tasks 384 overload 0 missed 0\n"),
];

/// What is generated is read back: its report is that of the generated system, and ends as the summary by `load` does.
#[test]
fn reads_generated_files(rt: HostRuntime) -> Result<(), Fail> {
    for (number, size, end) in MADE {
        let words = ["generate", number, size];
        let (made, file) = call(&rt, &words, &[], &[], None, &NO_FAULTS)?;
        let held = Some(("sys", file.sent()));
        let (status, report) = call(&rt, &["analyse", "sys"], &[], &[], held, &NO_FAULTS)?;
        let whole = *size != "1" || report.sent().len() == end.len();
        let right = made == 0 && status == 0 && whole && report.sent().ends_with(end.as_bytes());
        assert!(rt; right, "{end}");
    }
    Ok(())
}

/// By so many traces, no job was beyond its bound.
#[test]
fn hammers_the_car_network(rt: HostRuntime) -> Result<(), Fail> {
    let held = [("sys", CAR_NETWORK)];
    for traces in ["1", "50"] {
        let words = ["hammer", "sys", "7", traces];
        let (status, sink) = call(&rt, &words, &[], &held, None, &NO_FAULTS)?;
        assert!(rt;
            status == 0 && sink.sent().ends_with(b" beyond 0\n"),
            "{traces}"
        );
    }
    Ok(())
}

ghost use Rattle.std.specs.Prelude.{◌≤◌};
ghost use Rattle.cpa_sim.specs.Outcome.{CanReplay};

use crate::systems::vector;
use cpa_cases::LONG_WINDOW;
use cpa_file::{print_system, read_system};
use cpa_gen::{hammer, hammer_text, load_text, make_system, make_trace};
use cpa_local::floor;
use cpa_model::System;
use cpa_trace::Trace;
use cpa_units::Bound::Within;
use cpa_units::{Bound, NoMemory, ResId, SourceId, TaskId};
use std::alloc::{AllocError, Global};
use std::test::Fail;
use std::thread::Threads;

/// The system of number 42 and size 1. Its draws are 3, 97, 224, 7, 155 and 0.
const EXAMPLE: &str = r#"format = 1
resource = [{ name = "p0", kind = "preemptive" }, { name = "b0", kind = "can", bit = 2 }]
source = [{ name = "s0", period = 100000, jitter = 97 }]
task = [
  { name = "t0a", on = "p0", after = "s0", best = 162, worst = 324, priority = 0 },
  { name = "t0f", on = "b0", after = "t0a", best = 206, worst = 250, priority = 0 },
  { name = "t0b", on = "p0", after = "t0f", best = 127, worst = 255, priority = 1 },
]
path = [{ name = "c0", tasks = ["t0a", "t0f", "t0b"], deadline = 100000 }]
"#;

/// How many resources, sources, tasks and paths a generated system has.
fn counts_of(alloc: Global, size: u32) -> Result<[u32; 4], NoMemory>
    requires { size ≤ 128 }
{
    let system = make_system(alloc, 7, size)?;
    Ok([
        system.resources(),
        system.sources(),
        system.tasks(),
        system.paths(),
    ])
}

#[test]
fn makes_systems(rt: HostRuntime) -> Result<(), Fail> {
    let alloc = rt.alloc();
    let counts = [
        counts_of(alloc, 0)?,
        counts_of(alloc, 9)?,
        counts_of(alloc, 128)?,
    ];
    let system = make_system(alloc, 42, 1)?;
    let x = floor(alloc, &system)?;
    let file = print_system(alloc, &system)?;
    let wanted = print_system(alloc, &read_system(alloc, EXAMPLE.as_bytes())?)?;
    let text = load_text(alloc, 42, 1, &system, &x)?;
    let load = "load number 42 size 1 bounds 495\nsummary tasks 3 overload 0 missed 0\n";
    assert!(rt; counts == [[0, 0, 0, 0], [5, 9, 27, 9], [48, 128, 384, 128]]);
    assert!(rt; file.as_slice() == wanted.as_slice() && text.as_slice() == load.as_bytes());
    Ok(())
}

fn add_times(numbers: &mut Vec<u64>, system: &System, trace: &Trace) -> Result<(), AllocError>
    requires { CanReplay system.now trace.now }
{
    for k in 0..system.sources() {
        let events = trace.events(SourceId(k));
        numbers.push(events)?;
        for n in 0..events {
            numbers.push(trace.time(SourceId(k), n))?;
        }
    }
    Ok(())
}

fn add_executions(numbers: &mut Vec<u64>, system: &System, trace: &Trace) -> Result<(), AllocError>
    requires { CanReplay system.now trace.now }
{
    for i in 0..system.tasks() {
        let execs = trace.execs(TaskId(i));
        numbers.push(execs)?;
        for n in 0..execs {
            numbers.push(trace.exec(TaskId(i), n))?;
        }
    }
    Ok(())
}

/// All numbers of a generated trace: per source the number of its events and their times, per task that of its executions
/// and these, and the phases.
fn numbers_of(alloc: Global, system: &System, number: u64, k: u64) -> Result<Vec<u64>, NoMemory> {
    let trace = make_trace(alloc, system, number, k)?;
    let mut numbers = Vec::new(alloc);
    add_times(&mut numbers, system, &trace)?;
    add_executions(&mut numbers, system, &trace)?;
    for r in 0..system.resources() {
        numbers.push(trace.phase(ResId(r)))?;
    }
    Ok(numbers)
}

/// Trace 0 of any number: the second event of the first source is pushed to its distance from the first.
const WORST: &[u64] = &[
    4, 1_000_000, 4_000_000, 7_000_000, 10_000_000, 0, 2, 3_000_000, 4_000_000, 0, 0, 0, 0, 0, 0, 0,
];

/// Trace 1 of number 25. Events 2 and 3 of the first source are pushed; executions are drawn at both ends of their
/// ranges; a phase is drawn for the bus that has a task.
const DRAWN: &[u64] = &[
    4, 21_646, 3_723_448, 6_723_448, 9_723_448, 0, 2, 2_605_825, 5_976_627, 4, 2, 1, 1, 1, 0, 4, 5,
    5, 5, 5, 2, 7, 9, 0, 2, 0,
];

/// A processor and a TDMA bus, whose cycle is 5. Another such bus has no task. Events of the first source are as far
/// apart as its period; the jitter of the second is past the last time of a trace.
const TWO_BUSES: &str = r#"format = 1
resource = [{ name = "cpu", kind = "preemptive" }, { name = "ring", kind = "tdma", gap = 3 }, { name = "idle", kind = "tdma" }]
source = [
  { name = "sa", period = 3000000, jitter = 1000000, distance = 3000000 },
  { name = "sb", period = 1000, jitter = 10000001 },
  { name = "sc", period = 4000000, jitter = 3000000, distance = 500000 },
]
task = [
  { name = "a", on = "ring", after = "sa", best = 1, worst = 2, slot = 2 },
  { name = "b", on = "cpu", after = "sb", best = 9, worst = 9, priority = 1 },
  { name = "c", on = "cpu", after = "a", best = 5, worst = 5, priority = 2 },
  { name = "d", on = "cpu", after = "sc", best = 7, worst = 9, priority = 3 },
]
"#;

#[test]
fn makes_traces(rt: HostRuntime) -> Result<(), Fail> {
    let alloc = rt.alloc();
    let system = read_system(alloc, TWO_BUSES.as_bytes())?;
    let worst = numbers_of(alloc, &system, 25, 0)?;
    let drawn = numbers_of(alloc, &system, 25, 1)?;
    assert!(rt;
        worst.as_slice() == WORST && drawn.as_slice() == DRAWN,
        "{worst:?} {drawn:?}"
    );
    Ok(())
}

/// A system, bounds of its tasks, a number of traces, and the text of so many traces beside these bounds.
struct Hammered {
    system: &'static str,
    bounds: &'static [Bound],
    traces: u8,
    text: &'static str,
}

/// A bound that is reached, one too small, and no task.
const HAMMERED: [Hammered; 3] = [
    Hammered {
        system: LONG_WINDOW,
        bounds: &[Within(26), Within(118)],
        traces: 1,
        text: "task a jobs 100 worst 26 bound 26\ntask b jobs 100 worst 118 bound 118\nsummary traces 1 jobs 200 beyond 0\n",
    },
    Hammered {
        system: LONG_WINDOW,
        bounds: &[Within(25)],
        traces: 130,
        text: "task a jobs 13000 worst 26 bound 25\ntask b jobs 13000 worst 118 bound overload\nsummary traces 130 jobs 26000 beyond 13000\n",
    },
    Hammered {
        system: "format = 1",
        bounds: &[],
        traces: 3,
        text: "summary traces 3 jobs 0 beyond 0\n",
    },
];

/// What is written of a system under generated traces.
fn written<H: Threads + Sync>(rt: &H, alloc: Global, case: &Hammered) -> Result<Vec<u8>, Fail> {
    let system = read_system(alloc, case.system.as_bytes())?;
    let x = vector(alloc, system.tasks(), case.bounds)?;
    let seen = hammer(rt, alloc, &system, &x, 1, u64::from(case.traces))?;
    Ok(hammer_text(alloc, &system, &x, &seen)?)
}

#[test]
fn hammers(rt: HostRuntime) -> Result<(), Fail> {
    for case in &HAMMERED {
        let text = written(&rt, rt.alloc(), case)?;
        assert!(rt; text.as_slice() == case.text.as_bytes(), "{}", case.text);
    }
    Ok(())
}

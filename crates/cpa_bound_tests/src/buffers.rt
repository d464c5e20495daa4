ghost use Rattle.std.specs.Prelude.{◌≡◌, length};

use cpa_buffer::{Peaks, buffer_text, find_peaks};
use cpa_cases::{BURST, LONG_WINDOW};
use cpa_file::read_system;
use cpa_fix::{OneByOne, least_bounds};
use cpa_model::System;
use cpa_sim::replay;
use cpa_trace::read_trace;
use cpa_units::{NoMemory, ResId, TaskId};
use std::alloc::Global;
use std::test::Fail;

/// A processor without tasks.
const NO_TASKS: &str = r#"format = 1
resource = [{ name = "cpu", kind = "preemptive" }]
"#;

/// A chain of two tasks on one processor: while the first has jobs, the second's wait.
const CHAIN: &str = r#"format = 1
resource = [{ name = "cpu", kind = "preemptive" }]
source = [{ name = "s", period = 100 }]
task = [
  { name = "a", on = "cpu", after = "s", best = 1, worst = 1, priority = 1 },
  { name = "b", on = "cpu", after = "a", best = 1, worst = 1, priority = 2 },
]
"#;

/// A system, the rows of a trace, and the peaks of the tasks and then those of the resources.
const RUNS: [(&str, &str, &[u64]); 5] = [
    (NO_TASKS, "", &[0]),
    // No event; a backlog of the second task; bursts of both tasks at different times, so that the peak of the processor is
    // less than the sum.
    (LONG_WINDOW, "", &[0, 0, 0]),
    (
        LONG_WINDOW,
        "event,sa,0\nevent,sa,70\nevent,sa,140\nevent,sa,210\nevent,sa,280\nevent,sa,350\nevent,sa,420\nevent,sa,490\nevent,sa,560\nevent,sa,630\nevent,sb,0\nevent,sb,100\nevent,sb,200\nevent,sb,300\nevent,sb,400\nevent,sb,500\nevent,sb,600\n",
        &[1, 2, 3],
    ),
    (
        LONG_WINDOW,
        "event,sa,0\nevent,sa,0\nevent,sb,100\nevent,sb,100\nevent,sb,100\n",
        &[2, 3, 3],
    ),
    // At the horizon, which cuts this run off, a job of the first task is complete and one of the second arrives: the one
    // doesn't count there, and the other does.
    (
        CHAIN,
        "event,s,10000000\nevent,s,10000000\nevent,s,10000000\nevent,s,10000000\nevent,s,10000000\nevent,s,10000000\nevent,s,10000000\nevent,s,10000000\nevent,s,10000000\nevent,s,10000000\nevent,s,10000000\nexec,a,1000000\nexec,a,1000000\nexec,a,1000000\nexec,a,1000000\nexec,a,1000000\nexec,a,1000000\nexec,a,1000000\nexec,a,1000000\nexec,a,1000000\nexec,a,1000000\nexec,a,1000000\n",
        &[11, 10, 11],
    ),
];

/// The peaks of the tasks and then those of the resources.
fn list_peaks(alloc: Global, system: &System, peaks: &Peaks) -> Result<Vec<u64>, NoMemory>
    requires tasks { length peaks.now.tasks ≡ length system.now.tasks }
    requires resources { length peaks.now.resources ≡ length system.now.resources }
{
    let mut all = Vec::new(alloc);
    for k in 0..system.tasks() {
        all.push(peaks.task(TaskId(k)))?;
    }
    for k in 0..system.resources() {
        all.push(peaks.resource(ResId(k)))?;
    }
    Ok(all)
}

fn peaks_of(alloc: Global, system: &str, rows: &str) -> Result<Vec<u64>, Fail> {
    let system = read_system(alloc, system.as_bytes())?;
    let trace = read_trace(alloc, &system, rows.as_bytes())?;
    let outcome = replay(alloc, &system, &trace)?;
    let peaks = find_peaks(alloc, &system, &outcome)?;
    Ok(list_peaks(alloc, &system, &peaks)?)
}

#[test]
fn finds_peaks(rt: HostRuntime) -> Result<(), Fail> {
    for (system, rows, wanted) in &RUNS {
        let peaks = peaks_of(rt.alloc(), system, rows)?;
        assert!(rt; peaks.as_slice() == *wanted, "{wanted:?}");
    }
    Ok(())
}

/// A queue that two sources feed, of which one sends three events at once.
const QUEUE: &str = r#"format = 4
resource = [{ name = "out", kind = "fifo" }]
source = [{ name = "s", period = 10, jitter = 20 }, { name = "q", period = 20 }]
task = [
  { name = "a", on = "out", after = "s", best = 2, worst = 2 },
  { name = "b", on = "out", after = "q", best = 5, worst = 5 },
]
"#;

/// A system, the rows of a trace, and what is written of it.
const TEXTS: [(&str, &str, &str); 2] = [
    // Three events come at one instant, one more when the last of them isn't complete.
    (
        BURST,
        "event,s,25\nevent,s,25\nevent,s,25\nevent,s,30\n",
        "buffer t bound 4 peak 3\nresource cpu bound 4 peak 3\nsummary tasks 1 overload 0\n",
    ),
    // All that come at once take 11 ticks, in which one more may come.
    (
        QUEUE,
        "event,s,0\nevent,s,0\nevent,s,0\nevent,q,0\nevent,s,10\n",
        "buffer a bound 4 peak 3\nbuffer b bound 1 peak 1\nresource out bound 5 peak 4\nqueue out work 11\nsummary tasks 2 overload 0\n",
    ),
];

fn text_of(alloc: Global, system: &str, rows: &str) -> Result<Vec<u8>, Fail> {
    let system = read_system(alloc, system.as_bytes())?;
    let trace = read_trace(alloc, &system, rows.as_bytes())?;
    let outcome = replay(alloc, &system, &trace)?;
    let peaks = find_peaks(alloc, &system, &outcome)?;
    let x = least_bounds(&(), alloc, &system, &mut OneByOne)?;
    Ok(buffer_text(alloc, &system, &x, &peaks)?)
}

#[test]
fn tells_buffers(rt: HostRuntime) -> Result<(), Fail> {
    for (system, rows, wanted) in &TEXTS {
        let text = text_of(rt.alloc(), system, rows)?;
        assert!(rt; text.as_slice() == wanted.as_bytes(), "{wanted}");
    }
    Ok(())
}

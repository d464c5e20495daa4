//! Calls of `chain` over files in memory. The bounds are those of the rules of docs/DEFINITIONS.md, followed in Python.

use cpa_effects::write_chain;
use cpa_io::{MemoryFiles, MemorySink};
use cpa_units::limits::MAX_SYSTEM_FILE;
use std::alloc::{AllocError, Global};
use std::test::Fail;

/// A filter reads what a sensor wrote last, and starts an actuator. Waits: 9, 19 and 24; bounds: 3, 7 and 9.
pub(crate) const EFFECTS: &str = r#"format = 1
resource = [{ name = "cpu", kind = "preemptive" }]
source = [{ name = "fast", period = 10 }, { name = "slow", period = 20 }]
task = [
  { name = "sense", on = "cpu", after = "fast", best = 1, worst = 3, priority = 1 },
  { name = "filter", on = "cpu", after = "slow", best = 2, worst = 4, priority = 2 },
  { name = "act", on = "cpu", after = "filter", best = 1, worst = 2, priority = 3 },
]
"#;

/// Any one of a source and a task starts `b`, which has two streams, and so has `m`.
const MERGE: &str = r#"format = 2
resource = [{ name = "cpu", kind = "preemptive" }, { name = "bus", kind = "can", bit = 1 }]
source = [{ name = "sa", period = 10, jitter = 4 }, { name = "sb", period = 30 }]
task = [
  { name = "a", on = "cpu", after = "sa", best = 1, worst = 2, priority = 1 },
  { name = "b", on = "cpu", after = ["sb", "a"], best = 1, worst = 3, priority = 2 },
  { name = "m", on = "bus", after = "b", best = 2, worst = 2, priority = 1 },
]
"#;

/// `a` has the wait 9 and the bound 8; `b` has no bound, and so `c` has none.
pub(crate) const ENDLESS: &str = r#"format = 1
resource = [{ name = "cpu", kind = "preemptive", limit = 100 }]
source = [{ name = "s", period = 10 }]
task = [
  { name = "a", on = "cpu", after = "s", best = 1, worst = 8, priority = 1 },
  { name = "b", on = "cpu", after = "s", best = 1, worst = 8, priority = 2 },
  { name = "c", on = "cpu", after = "b", best = 1, worst = 8, priority = 3 },
]
"#;

/// One source starts both tasks.
const SHARED: &str = r#"format = 1
resource = [{ name = "cpu", kind = "preemptive" }]
source = [{ name = "s", period = 10 }]
task = [
  { name = "a", on = "cpu", after = "s", best = 1, worst = 2, priority = 1 },
  { name = "b", on = "cpu", after = "s", best = 1, worst = 3, priority = 2 },
]
"#;

/// The files that all calls are made over, and beside them `long`, which is a byte too long for a system.
const HELD: [(&str, &str); 7] = [
    ("sys", EFFECTS),
    ("shared", SHARED),
    ("merge", MERGE),
    ("endless", ENDLESS),
    ("none", "format = 1\n"),
    ("bad", "x"),
    ("other", "format = 3\n"),
];

/// The numbers of the loads that fail, how many bytes the sink takes at once, and the numbers of the puts that fail.
type Faults = (&'static [u64], usize, &'static [u64]);

const NONE: Faults = (&[], 4096, &[]);

/// The faults of a call, its words, the status and the text.
const CALLS: [(Faults, &[&str], u8, &str); 23] = [
    // Jobs read while they run: the sensor's response drops out of the step to the filter.
    (
        NONE,
        &["--while-running", "sys", "sense", "filter", "act"],
        0,
        "step sense first wait 9 response 3\nstep filter above wait 19 response 7\nstep act activation wait 24 response 9\nchain while-running tasks 3 reaction 44 age 25 held 44 if sources stay near\n",
    ),
    // One source: the step costs nothing where jobs read while they run, and a response and a wait where they don't.
    (
        NONE,
        &["shared", "a", "b", "--while-running"],
        0,
        "step a first wait 9 response 2\nstep b same-source wait 9 response 5\nchain while-running tasks 2 reaction 14 age 5 held 14 if sources stay near\n",
    ),
    (
        NONE,
        &["shared", "a", "b"],
        0,
        "step a first wait 9 response 2\nstep b register wait 9 response 5\nchain tasks 2 reaction 25 age 16 held 25 if sources stay near\n",
    ),
    (
        NONE,
        &["--while-running", "sys", "act", "--while-running"],
        10,
        "words refused\n",
    ),
    (
        NONE,
        &["sys", "--while-running", "act"],
        10,
        "words refused\n",
    ),
    (
        NONE,
        &["sys", "sense", "filter", "act"],
        0,
        "step sense first wait 9 response 3\nstep filter register wait 19 response 7\nstep act activation wait 24 response 9\nchain tasks 3 reaction 47 age 28 held 47 if sources stay near\n",
    ),
    (
        NONE,
        &["sys", "act"],
        0,
        "step act first wait 24 response 9\nchain tasks 1 reaction 33 age 9 held 33 if sources stay near\n",
    ),
    // A task that reads what it wrote itself.
    (
        NONE,
        &["sys", "sense", "sense"],
        0,
        "step sense first wait 9 response 3\nstep sense register wait 9 response 3\nchain tasks 2 reaction 24 age 15 held 24 if sources stay near\n",
    ),
    (
        NONE,
        &["merge", "a", "b", "m"],
        0,
        "step a first wait 13 response 2\nstep b merge wait 14 response 10\nstep m activation wait 23 response 5\nchain tasks 3 reaction 30 age 30 held 30 if sources stay near\n",
    ),
    (
        NONE,
        &["merge", "m", "a"],
        0,
        "step m first wait 23 response 5\nstep a register wait 13 response 2\nchain tasks 2 reaction 43 age 30 held 43 if sources stay near\n",
    ),
    (
        NONE,
        &["endless", "a", "c"],
        2,
        "step a first wait 9 response 8\nstep c register wait overload response overload\nchain tasks 2 reaction overload age overload held overload if sources stay near\n",
    ),
    (NONE, &[], 10, "words refused\n"),
    (NONE, &["sys"], 10, "words refused\n"),
    (NONE, &["-sys", "act"], 10, "words refused\n"),
    (NONE, &["sys", "act", ""], 10, "words refused\n"),
    (NONE, &["zz", "act"], 11, "cannot read zz\n"),
    (NONE, &["long", "act"], 12, "too long long\n"),
    (NONE, &["bad", "act"], 13, "not TOML bad\n"),
    (
        NONE,
        &["other", "act"],
        14,
        "system refused reason 13 file 0\n",
    ),
    (NONE, &["none", "act"], 18, "chain refused 1\n"),
    // A source is no task.
    (NONE, &["sys", "act", "fast", "zz"], 18, "chain refused 2\n"),
    ((&[0], 4096, &[]), &["sys", "act"], 11, "cannot read sys\n"),
    // The first seven bytes are sent, and then the sink fails.
    ((&[], 7, &[1]), &["sys", "act"], 20, "step ac"),
];

/// The files.
fn held(alloc: Global) -> Result<Vec<(String, Vec<u8>)>, AllocError> {
    let mut held = Vec::new(alloc);
    for (name, text) in &HELD {
        held.push((
            String::from_str(alloc, name)?,
            Vec::from_slice(alloc, text.as_bytes())?,
        ))?;
    }
    let long = vec![in alloc; b'#'; MAX_SYSTEM_FILE as usize + 1]?;
    held.push((String::from_str(alloc, "long")?, long))?;
    Ok(held)
}

/// The status and the bytes sent of a call.
fn call(alloc: Global, words: &[&str], faults: &Faults) -> Result<(u8, MemorySink), AllocError> {
    let (loads, piece, puts) = *faults;
    let mut given = Vec::new(alloc);
    for word in words {
        given.push(String::from_str(alloc, word)?)?;
    }
    let mut files = MemoryFiles::new(alloc, held(alloc)?, Vec::from_slice(alloc, loads)?);
    let mut sink = MemorySink::new(alloc, piece.max(1), Vec::from_slice(alloc, puts)?);
    let status = write_chain(alloc, given.as_slice(), &mut files, &mut sink);
    Ok((status, sink))
}

#[test]
fn answers_chains(rt: HostRuntime) -> Result<(), Fail> {
    let alloc = rt.alloc();
    let mut wrong = None;
    for (k, (faults, words, status, text)) in CALLS.iter().enumerate() {
        let (answer, sink) = call(alloc, words, faults)?;
        if answer != *status || sink.sent() != text.as_bytes() {
            wrong = Some(k);
        }
    }
    assert!(rt; wrong.is_none(), "{wrong:?}");
    Ok(())
}

/// The status of a call that names a task so many times.
fn repeat(alloc: Global, count: u32) -> Result<u8, AllocError> {
    let mut given = Vec::new(alloc);
    given.push(String::from_str(alloc, "sys")?)?;
    for _ in 0..count {
        given.push(String::from_str(alloc, "act")?)?;
    }
    let mut files = MemoryFiles::new(alloc, held(alloc)?, Vec::new(alloc));
    let mut sink = MemorySink::new(alloc, 4096, Vec::new(alloc));
    Ok(write_chain(alloc, given.as_slice(), &mut files, &mut sink))
}

/// A chain has 32 tasks at most.
#[test]
fn counts_tasks(rt: HostRuntime) -> Result<(), Fail> {
    let alloc = rt.alloc();
    let most = repeat(alloc, 32)?;
    let more = repeat(alloc, 33)?;
    assert!(rt; most == 0 && more == 10, "{most} {more}");
    Ok(())
}

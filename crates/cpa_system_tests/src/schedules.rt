//! Calls of `schedule` over files in memory.

use cpa_cases::{FOUR_KINDS, FOUR_KINDS_RUN, FOUR_KINDS_TRACE, LATE_JOBS, LATE_RUN, LATE_TRACE};
use cpa_io::{MemoryFiles, MemorySink};
use cpa_segments::write_schedule;
use cpa_units::limits::MAX_SYSTEM_FILE;
use std::alloc::{AllocError, Global};
use std::test::Fail;

/// A task that either of two sources starts, and one after it on another resource.
const TWO_ACTIVATORS: &str = r#"format = 2
resource = [{ name = "cpu", kind = "preemptive" }, { name = "q", kind = "preemptive" }]
source = [{ name = "sa", period = 10 }, { name = "sb", period = 20 }]
task = [
  { name = "m", on = "cpu", after = ["sa", "sb"], best = 1, worst = 3, priority = 1 },
  { name = "n", on = "q", after = "m", best = 2, worst = 2, priority = 1 },
]
"#;

/// A task that needs one tick for each event.
const ONE_TICK: &str = r#"format = 1
resource = [{ name = "cpu", kind = "preemptive" }]
source = [{ name = "s", period = 10 }]
task = [{ name = "t", on = "cpu", after = "s", best = 1, worst = 1, priority = 1 }]
"#;

/// The files that all calls are made over, and beside them `long`, which is a byte too long for a system.
const HELD: [(&str, &str); 10] = [
    ("sys", FOUR_KINDS),
    ("tr", FOUR_KINDS_TRACE),
    ("late", LATE_JOBS),
    ("late_tr", LATE_TRACE),
    ("two", TWO_ACTIVATORS),
    ("two_tr", "event,sa,0\nevent,sb,0\n"),
    ("none", "format = 1\n"),
    ("bad", "x"),
    ("other", "format = 3\n"),
    ("empty", ""),
];

/// The numbers of the loads that fail, how many bytes the sink takes at once, and the numbers of the puts that fail.
type Faults = (&'static [u64], usize, &'static [u64]);

const NONE: Faults = (&[], 4096, &[]);

/// The faults of a call, its words, the status and the text.
const CALLS: [(Faults, &[&str], u8, &str); 20] = [
    (NONE, &["sys", "tr"], 0, FOUR_KINDS_RUN),
    (NONE, &["late", "late_tr"], 0, LATE_RUN),
    (NONE, &["two", "two_tr"], 0, "m,0,3\nm,3,6\nn,3,5\nn,6,8\n"),
    (NONE, &["sys", "empty"], 0, ""),
    (NONE, &["none", "empty"], 0, ""),
    (NONE, &[], 10, "words refused\n"),
    (NONE, &["sys"], 10, "words refused\n"),
    (NONE, &["sys", "-tr"], 10, "words refused\n"),
    (NONE, &["", "tr"], 10, "words refused\n"),
    (NONE, &["sys", "tr", "tr"], 10, "words refused\n"),
    (NONE, &["schedule", "sys", "tr"], 10, "words refused\n"),
    (NONE, &["zz", "tr"], 11, "cannot read zz\n"),
    (NONE, &["sys", "zz"], 11, "cannot read zz\n"),
    (NONE, &["long", "zz"], 12, "too long long\n"),
    (NONE, &["bad", "zz"], 13, "not TOML bad\n"),
    (
        NONE,
        &["other", "zz"],
        14,
        "system refused reason 13 file 0\n",
    ),
    (NONE, &["sys", "bad"], 16, "trace refused row 1 malformed\n"),
    (
        NONE,
        &["sys", "late_tr"],
        17,
        "trace disobeys source s times 10000000 10000000\n",
    ),
    ((&[1], 4096, &[]), &["sys", "tr"], 11, "cannot read tr\n"),
    // The first seven bytes are sent, and then the sink fails.
    ((&[], 7, &[1]), &["sys", "tr"], 20, "low,0,2"),
];

/// The files.
fn held(alloc: Global) -> Result<Vec<(String, Vec<u8>)>, AllocError> {
    let mut held = Vec::new(alloc);
    for (name, text) in &HELD {
        held.push((
            String::from_str(alloc, name)?,
            Vec::from_slice(alloc, text.as_bytes())?,
        ))?;
    }
    let long = vec![in alloc; b'#'; MAX_SYSTEM_FILE as usize + 1]?;
    held.push((String::from_str(alloc, "long")?, long))?;
    Ok(held)
}

/// A trace with an event every ten ticks, and the schedule of a task that needs one tick for each.
fn long_run(alloc: Global, events: u32) -> Result<(Vec<u8>, Vec<u8>), AllocError> {
    let mut trace = Vec::new(alloc);
    let mut schedule = Vec::new(alloc);
    for time in (0..u64::from(events)).map(|k| 10 * k) {
        trace.extend_from_slice(format!(in alloc; "event,s,{time}\n")?.as_bytes())?;
        schedule.extend_from_slice(format!(in alloc; "t,{time},{}\n", time + 1)?.as_bytes())?;
    }
    Ok((trace, schedule))
}

/// The status and the bytes sent of a call.
fn call(alloc: Global, words: &[&str], faults: &Faults) -> Result<(u8, MemorySink), AllocError> {
    let (loads, piece, puts) = *faults;
    let mut given = Vec::new(alloc);
    for word in words {
        given.push(String::from_str(alloc, word)?)?;
    }
    let mut files = MemoryFiles::new(alloc, held(alloc)?, Vec::from_slice(alloc, loads)?);
    let mut sink = MemorySink::new(alloc, piece.max(1), Vec::from_slice(alloc, puts)?);
    let status = write_schedule(alloc, given.as_slice(), &mut files, &mut sink);
    Ok((status, sink))
}

#[test]
fn answers_calls(rt: HostRuntime) -> Result<(), Fail> {
    let alloc = rt.alloc();
    let mut wrong = None;
    for (k, (faults, words, status, text)) in CALLS.iter().enumerate() {
        let (answer, sink) = call(alloc, words, faults)?;
        if answer != *status || sink.sent() != text.as_bytes() {
            wrong = Some(k);
        }
    }
    assert!(rt; wrong.is_none(), "{wrong:?}");
    Ok(())
}

/// A schedule that is longer than what is sent at once: 6,000 rows, above 65,536 bytes.
#[test]
fn sends_long_schedule(rt: HostRuntime) -> Result<(), Fail> {
    let alloc = rt.alloc();
    let (trace, schedule) = long_run(alloc, 6000)?;
    let mut held = Vec::new(alloc);
    held.push((
        String::from_str(alloc, "sys")?,
        Vec::from_slice(alloc, ONE_TICK.as_bytes())?,
    ))?;
    held.push((String::from_str(alloc, "tr")?, trace))?;
    let mut words = Vec::new(alloc);
    words.push(String::from_str(alloc, "sys")?)?;
    words.push(String::from_str(alloc, "tr")?)?;
    let mut files = MemoryFiles::new(alloc, held, Vec::new(alloc));
    let mut sink = MemorySink::new(alloc, 4096, Vec::new(alloc));
    let status = write_schedule(alloc, words.as_slice(), &mut files, &mut sink);
    assert!(rt; schedule.len() > 65536 && status == 0 && sink.sent() == schedule.as_slice());
    Ok(())
}

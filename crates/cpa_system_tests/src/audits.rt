use cpa_audit::{ScheduleFault, audit, audit_text, read_schedule};
use cpa_file::read_system;
use cpa_trace::read_trace;
use std::alloc::Global;
use std::test::Fail;

/// Two tasks on a ring.
const ROUND_ROBIN: &str = r#"format = 1
resource = [{ name = "rr", kind = "round-robin" }]
source = [{ name = "sa", period = 50 }, { name = "sb", period = 50 }]
task = [
  { name = "a", on = "rr", after = "sa", best = 3, worst = 3, slot = 2 },
  { name = "b", on = "rr", after = "sb", best = 1, worst = 1, slot = 4 },
]
"#;

/// A resource of each kind.
const FOUR_KINDS: &str = r#"format = 1
resource = [
  { name = "cpu", kind = "preemptive" },
  { name = "bus", kind = "can" },
  { name = "rr", kind = "round-robin" },
  { name = "table", kind = "tdma", gap = 1 },
]
source = [{ name = "first", period = 50 }, { name = "second", period = 50 }]
task = [
  { name = "low", on = "cpu", after = "first", best = 3, worst = 3, priority = 2 },
  { name = "high", on = "cpu", after = "second", best = 1, worst = 1, priority = 1 },
  { name = "long", on = "bus", after = "first", best = 3, worst = 3, priority = 2 },
  { name = "urgent", on = "bus", after = "second", best = 2, worst = 2, priority = 1 },
  { name = "p", on = "rr", after = "first", best = 2, worst = 2, slot = 1 },
  { name = "q", on = "rr", after = "first", best = 1, worst = 1, slot = 1 },
  { name = "u", on = "table", after = "first", best = 4, worst = 4, slot = 2 },
]
"#;

/// A schedule beside the run of a trace, and what is told of it.
struct Case {
    system: &'static str,
    trace: &'static str,
    schedule: &'static [u8],
    line: &'static str,
}

const BOTH: &str = "event,sa,0\nevent,sb,0";

const CASES: [Case; 10] = [
    Case {
        system: ROUND_ROBIN,
        trace: BOTH,
        schedule: b"a,0,2\nb,2,3\na,3,4",
        line: "audit same segments 3\n",
    },
    // The end of a segment alone differs.
    Case {
        system: ROUND_ROBIN,
        trace: BOTH,
        schedule: b"a,0,2\nb,2,4\na,3,4",
        line: "audit wrong segment 2 expected b 2 3\n",
    },
    Case {
        system: ROUND_ROBIN,
        trace: BOTH,
        schedule: b"a,0,2\nb,2,3",
        line: "audit wrong segment 3 expected a 3 4\n",
    },
    Case {
        system: ROUND_ROBIN,
        trace: BOTH,
        schedule: b"a,0,2\nb,2,3\na,3,4\na,9,10",
        line: "audit wrong segment 4 expected none\n",
    },
    Case {
        system: ROUND_ROBIN,
        trace: BOTH,
        schedule: b"",
        line: "audit wrong segment 1 expected a 0 2\n",
    },
    // A byte order mark.
    Case {
        system: ROUND_ROBIN,
        trace: BOTH,
        schedule: b"\xef\xbb\xbfa,0,2\nb,2,3\na,3,4",
        line: "audit same segments 3\n",
    },
    // Two jobs of a task, one right after the other.
    Case {
        system: ROUND_ROBIN,
        trace: "event,sa,0\nevent,sa,0",
        schedule: b"a,0,3\na,3,6",
        line: "audit same segments 2\n",
    },
    Case {
        system: ROUND_ROBIN,
        trace: "event,sa,0\nevent,sa,0",
        schedule: b"a,0,6",
        line: "audit wrong segment 1 expected a 0 3\n",
    },
    // No run, and no schedule.
    Case {
        system: ROUND_ROBIN,
        trace: "",
        schedule: b"",
        line: "audit same segments 0\n",
    },
    // A job that is interrupted, a frame that holds up a more urgent one, turns that end, and slots that begin
    // in mid-cycle.
    Case {
        system: FOUR_KINDS,
        trace: "event,first,0\nevent,second,1\nphase,table,1",
        schedule: b"low,0,1\nlong,0,3\np,0,1\nu,0,1\nhigh,1,2\nq,1,2\nlow,2,4\np,2,3\nu,2,4\nurgent,3,5\nu,5,6",
        line: "audit same segments 11\n",
    },
];

/// The line that is told of the schedule of a case.
fn line_of(alloc: Global, case: &Case) -> Result<Vec<u8>, Fail> {
    let system = read_system(alloc, case.system.as_bytes())?;
    let trace = read_trace(alloc, &system, case.trace.as_bytes())?;
    let schedule = read_schedule(alloc, &system, case.schedule)?;
    let finding = audit(alloc, &system, &trace, &schedule)?;
    Ok(audit_text(alloc, &system, &schedule, &finding)?)
}

#[test]
fn audits_schedules(rt: HostRuntime) -> Result<(), Fail> {
    let alloc = rt.alloc();
    let mut wrong = None;
    for case in &CASES {
        if line_of(alloc, case)?.as_slice() != case.line.as_bytes() {
            wrong = Some(case.line);
        }
    }
    assert!(rt; wrong.is_none(), "{wrong:?}");
    Ok(())
}

/// Schedules that are refused.
const REFUSALS: [(&[u8], ScheduleFault); 8] = [
    (b"a,0,2\nb,3,3", ScheduleFault::OutOfRange(2)),
    (b"zz,5,3", ScheduleFault::UnknownName(1)),
    (b"zz,x,3", ScheduleFault::BadRow(1)),
    (b"a,0,20000001", ScheduleFault::OutOfRange(1)),
    (b"a,0", ScheduleFault::BadRow(1)),
    (b"a,0,1,2", ScheduleFault::BadRow(1)),
    (b"a,00000000000,3", ScheduleFault::BadRow(1)),
    (b"\xff,5,3", ScheduleFault::UnknownName(1)),
];

#[test]
fn refuses_schedules(rt: HostRuntime) -> Result<(), Fail> {
    let alloc = rt.alloc();
    let system = read_system(alloc, ROUND_ROBIN.as_bytes())?;
    let mut told = true;
    for (bytes, fault) in &REFUSALS {
        told &= read_schedule(alloc, &system, bytes).err() == Some(*fault);
    }
    assert!(rt; told);
    Ok(())
}

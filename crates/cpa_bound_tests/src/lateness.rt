use crate::systems::vector;
use cpa_file::read_system;
use cpa_sim::replay;
use cpa_sound::beyond;
use cpa_trace::read_trace;
use cpa_units::Bound;
use cpa_units::Bound::{Overload, Within};
use std::alloc::Global;
use std::test::Fail;

/// Two tasks, of which the second has jobs that wait for one another, and an idle processor.
const LONG_WINDOW: &str = r#"format = 1
resource = [{ name = "p", kind = "preemptive" }, { name = "q", kind = "preemptive" }]
source = [{ name = "sa", period = 70 }, { name = "sb", period = 100 }]
task = [
  { name = "a", on = "p", after = "sa", best = 26, worst = 26, priority = 1 },
  { name = "b", on = "p", after = "sb", best = 62, worst = 62, priority = 2 },
]
"#;

/// Two tasks on a ring.
const RING: &str = r#"format = 1
resource = [{ name = "p", kind = "round-robin" }, { name = "q", kind = "round-robin" }]
source = [{ name = "sa", period = 20 }, { name = "sb", period = 20 }]
task = [
  { name = "a", on = "p", after = "sa", best = 3, worst = 3, slot = 2 },
  { name = "b", on = "p", after = "sb", best = 1, worst = 1, slot = 4 },
]
"#;

/// The same, where the second is activated more often than it can be done.
const FULL_RING: &str = r#"format = 1
resource = [{ name = "p", kind = "round-robin" }, { name = "q", kind = "round-robin" }]
source = [{ name = "sa", period = 20 }, { name = "sb", period = 5 }]
task = [
  { name = "a", on = "p", after = "sa", best = 3, worst = 3, slot = 2 },
  { name = "b", on = "p", after = "sb", best = 10, worst = 10, slot = 4 },
]
"#;

/// Two chains that cross.
const CROSSING_CHAINS: &str = r#"format = 1
resource = [{ name = "p", kind = "preemptive" }, { name = "q", kind = "preemptive" }]
source = [{ name = "sa", period = 100 }, { name = "sb", period = 100 }]
task = [
  { name = "a1", on = "p", after = "sa", best = 5, worst = 10, priority = 2 },
  { name = "a2", on = "q", after = "a1", best = 5, worst = 10, priority = 1 },
  { name = "b1", on = "q", after = "sb", best = 10, worst = 20, priority = 2 },
  { name = "b2", on = "p", after = "b1", best = 10, worst = 20, priority = 1 },
]
"#;

/// A case by its name: a trace of a system, two lists of bounds, and how many jobs are beyond each.
struct Case {
    name: &'static str,
    system: &'static str,
    rows: &'static str,
    bounds: &'static [Bound],
    closer: &'static [Bound],
    beyond: [u64; 2],
}

const CASES: [Case; 5] = [
    // The slowest job ends exactly at its bound.
    Case {
        name: "beyond_long_window",
        system: LONG_WINDOW,
        rows: "event,sa,0\nevent,sa,70\nevent,sa,140\nevent,sa,210\nevent,sa,280\nevent,sa,350\nevent,sa,420\nevent,sa,490\nevent,sa,560\nevent,sa,630\nevent,sb,0\nevent,sb,100\nevent,sb,200\nevent,sb,300\nevent,sb,400\nevent,sb,500\nevent,sb,600\n",
        bounds: &[Within(26), Within(118)],
        closer: &[Within(26), Within(117)],
        beyond: [0, 1],
    },
    Case {
        name: "beyond_round_robin",
        system: RING,
        rows: "event,sa,0\nevent,sb,0",
        bounds: &[Within(4), Within(3)],
        closer: &[Within(4), Within(2)],
        beyond: [0, 1],
    },
    // A holder that was idle has some of its slot left.
    Case {
        name: "beyond_idle_holder",
        system: RING,
        rows: "event,sa,0\nevent,sb,0\nevent,sa,20\nevent,sb,20",
        bounds: &[Within(4), Within(3)],
        closer: &[Within(3), Within(3)],
        beyond: [0, 2],
    },
    // Neither processor can be analysed before the other.
    Case {
        name: "beyond_crossing_chains",
        system: CROSSING_CHAINS,
        rows: "event,sa,0\nevent,sb,0\nevent,sa,100\nevent,sb,100",
        bounds: &[Within(30), Within(10), Within(30), Within(20)],
        closer: &[Within(30), Within(10), Within(29), Within(20)],
        beyond: [0, 2],
    },
    // The second task gets ever more behind, and the bound of the first holds all the same.
    Case {
        name: "beyond_overloaded_neighbour",
        system: FULL_RING,
        rows: "event,sa,1\nevent,sa,21\nevent,sb,0\nevent,sb,5\nevent,sb,10\nevent,sb,15\nevent,sb,20\n",
        bounds: &[Within(11), Overload],
        closer: &[Within(9), Overload],
        beyond: [0, 1],
    },
];

/// How many jobs of a case's run are beyond each list of bounds.
fn counts(alloc: Global, case: &Case) -> Result<[u64; 2], Fail> {
    let system = read_system(alloc, case.system.as_bytes())?;
    let trace = read_trace(alloc, &system, case.rows.as_bytes())?;
    let outcome = replay(alloc, &system, &trace)?;
    let bounds = vector(alloc, system.tasks(), case.bounds)?;
    let closer = vector(alloc, system.tasks(), case.closer)?;
    Ok([
        beyond(&system, &bounds, &trace, &outcome),
        beyond(&system, &closer, &trace, &outcome),
    ])
}

#[test]
fn counts_jobs_beyond(rt: HostRuntime) -> Result<(), Fail> {
    for case in &CASES {
        let seen = counts(rt.alloc(), case)?;
        assert!(rt; seen == case.beyond, "{}", case.name);
    }
    Ok(())
}

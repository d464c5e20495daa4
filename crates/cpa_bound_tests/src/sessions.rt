use crate::systems::ENDLESS_JITTER;
use cpa_cases::TWO_TASKS;
use cpa_edit::{Edit, EditFault, EditRefusal, Step, read_script};
use cpa_file::{print_system, read_system};
use cpa_fix::OneByOne;
use cpa_local::Trail;
use cpa_session::Session;
use cpa_units::Bound::{Overload, Within};
use cpa_units::{Bound, TaskId, Vector};
use std::alloc::{AllocError, Global};
use std::test::Fail;

/// Two chains that cross on `p` and `q` and meet two fixed points, and a task alone on `r`.
const NARROW: &str = r#"format = 1
resource = [
  { name = "p", kind = "preemptive", limit = 1000 },
  { name = "q", kind = "preemptive", limit = 1000 },
  { name = "r", kind = "preemptive", limit = 1000 },
]
source = [{ name = "sa", period = 100 }, { name = "sb", period = 100 }, { name = "sc", period = 50, jitter = 5 }]
task = [
  { name = "a1", on = "p", after = "sa", best = 1, worst = 20, priority = 2 },
  { name = "a2", on = "q", after = "a1", best = 10, worst = 30, priority = 1 },
  { name = "b1", on = "q", after = "sb", best = 1, worst = 20, priority = 2 },
  { name = "b2", on = "p", after = "b1", best = 10, worst = 30, priority = 1 },
  { name = "c", on = "r", after = "sc", best = 2, worst = 4, priority = 1 },
]
"#;

/// Resources of four kinds. `a` comes after two sources, `b` after `a` and a source, and `c` after a source and `b`.
const JOINED: &str = r#"format = 2
resource = [
  { name = "p", kind = "preemptive", limit = 1000 },
  { name = "q", kind = "can", limit = 1000 },
  { name = "r", kind = "round-robin", limit = 1000 },
  { name = "t", kind = "tdma", limit = 1000 },
]
source = [{ name = "sa", period = 100 }, { name = "sb", period = 100 }, { name = "sc", period = 50, jitter = 5 }]
task = [
  { name = "a", on = "p", after = ["sa", "sb"], best = 1, worst = 10, priority = 1 },
  { name = "b", on = "q", after = ["a", "sc"], best = 2, worst = 4, priority = 1 },
  { name = "c", on = "r", after = ["sc", "b"], best = 1, worst = 3, slot = 2 },
  { name = "d", on = "t", after = "sb", best = 1, worst = 2, slot = 2 },
  { name = "e", on = "r", after = "sa", best = 1, worst = 3, slot = 3 },
]
"#;

/// Edits in turn from the same system, and what is seen after the last.
struct Case {
    system: &'static str,
    script: &'static str,
    /// The rule that the last edit breaks, 0 where it is made.
    broken: u8,
    /// The tasks that the last edit marks, or the start where there is no edit.
    marks: &'static [u32],
    /// The greatest execution and the bound of each task.
    tasks: &'static [(u64, Bound)],
}

/// The tasks of the narrow system.
const AT_START: &[(u64, Bound)] = &[
    (20, Within(50)),
    (30, Within(30)),
    (20, Within(50)),
    (30, Within(30)),
    (4, Within(4)),
];

/// The same tasks, where `a1` takes up to 22.
const RAISED: &[(u64, Bound)] = &[
    (22, Within(82)),
    (30, Within(41)),
    (20, Within(80)),
    (30, Within(39)),
    (4, Within(4)),
];

const CASES: [Case; 17] = [
    Case {
        system: NARROW,
        script: "",
        broken: 0,
        marks: &[0, 1, 2, 3, 4],
        tasks: AT_START,
    },
    // An execution rises, and falls again: the greater of two fixed points, and the least once more.
    Case {
        system: NARROW,
        script: "exec a1 1 22",
        broken: 0,
        marks: &[0, 1, 2, 3],
        tasks: RAISED,
    },
    Case {
        system: NARROW,
        script: "exec a1 1 22\nexec a1 1 20",
        broken: 0,
        marks: &[0, 1, 2, 3],
        tasks: AT_START,
    },
    // The edit reaches every resource that has tasks.
    Case {
        system: NARROW,
        script: "remove c\nexec a1 1 22",
        broken: 0,
        marks: &[0, 1, 2, 3],
        tasks: &[
            (22, Within(82)),
            (30, Within(41)),
            (20, Within(80)),
            (30, Within(39)),
        ],
    },
    Case {
        system: NARROW,
        script: "remove c",
        broken: 0,
        marks: &[],
        tasks: &[
            (20, Within(50)),
            (30, Within(30)),
            (20, Within(50)),
            (30, Within(30)),
        ],
    },
    Case {
        system: NARROW,
        script: "add d r sc 1 2 3",
        broken: 0,
        marks: &[4, 5],
        tasks: &[
            (20, Within(50)),
            (30, Within(30)),
            (20, Within(50)),
            (30, Within(30)),
            (4, Within(4)),
            (2, Within(6)),
        ],
    },
    // The edit reaches one task alone.
    Case {
        system: ENDLESS_JITTER,
        script: "exec c 2 5",
        broken: 0,
        marks: &[4],
        tasks: &[
            (30, Overload),
            (60, Overload),
            (30, Overload),
            (60, Overload),
            (5, Within(5)),
        ],
    },
    // Sources and tasks that stand second in a list of activators: all that comes after them is analysed again.
    Case {
        system: JOINED,
        script: "",
        broken: 0,
        marks: &[0, 1, 2, 3, 4],
        tasks: &[
            (10, Within(20)),
            (4, Within(12)),
            (3, Within(15)),
            (2, Within(2)),
            (3, Within(5)),
        ],
    },
    Case {
        system: JOINED,
        script: "exec d 1 3",
        broken: 0,
        marks: &[3],
        tasks: &[
            (10, Within(20)),
            (4, Within(12)),
            (3, Within(15)),
            (3, Within(3)),
            (3, Within(5)),
        ],
    },
    Case {
        system: JOINED,
        script: "source sc 50 6 0",
        broken: 0,
        marks: &[1, 2, 4],
        tasks: &[
            (10, Within(20)),
            (4, Within(12)),
            (3, Within(15)),
            (2, Within(2)),
            (3, Within(5)),
        ],
    },
    Case {
        system: JOINED,
        script: "source sb 100 1 0",
        broken: 0,
        marks: &[0, 1, 2, 3, 4],
        tasks: &[
            (10, Within(20)),
            (4, Within(12)),
            (3, Within(15)),
            (2, Within(2)),
            (3, Within(5)),
        ],
    },
    Case {
        system: JOINED,
        script: "exec b 2 5",
        broken: 0,
        marks: &[1, 2, 4],
        tasks: &[
            (10, Within(20)),
            (5, Within(15)),
            (3, Within(15)),
            (2, Within(2)),
            (3, Within(5)),
        ],
    },
    Case {
        system: JOINED,
        script: "add f t b 1 1 1\nexec a 1 12",
        broken: 0,
        marks: &[0, 1, 2, 3, 4, 5],
        tasks: &[
            (12, Within(24)),
            (4, Within(12)),
            (3, Within(15)),
            (2, Within(3)),
            (3, Within(5)),
            (1, Within(9)),
        ],
    },
    // Activators that are needed, whether first or second; a task with several that goes.
    Case {
        system: JOINED,
        script: "remove c\nexec b 2 5",
        broken: 0,
        marks: &[1],
        tasks: &[
            (10, Within(20)),
            (5, Within(15)),
            (2, Within(2)),
            (3, Within(3)),
        ],
    },
    Case {
        system: JOINED,
        script: "remove b",
        broken: 6,
        marks: &[],
        tasks: &[
            (10, Within(20)),
            (4, Within(12)),
            (3, Within(15)),
            (2, Within(2)),
            (3, Within(5)),
        ],
    },
    Case {
        system: JOINED,
        script: "remove a",
        broken: 6,
        marks: &[],
        tasks: &[
            (10, Within(20)),
            (4, Within(12)),
            (3, Within(15)),
            (2, Within(2)),
            (3, Within(5)),
        ],
    },
    // The last edit is refused.
    Case {
        system: NARROW,
        script: "exec c 2 5\nexec a1 23 22",
        broken: 5,
        marks: &[],
        tasks: &[
            (20, Within(50)),
            (30, Within(30)),
            (20, Within(50)),
            (30, Within(30)),
            (5, Within(5)),
        ],
    },
];

/// A session on a system, and a trail with the marks of its tasks.
fn start(alloc: Global, text: &str) -> Result<(Session, Trail), Fail> {
    let system = read_system(alloc, text.as_bytes())?;
    let mut trail = Trail::of_size(alloc, system.size())?;
    let session = Session::start(&(), alloc, system, &mut OneByOne, &mut trail)?;
    Ok((session, trail))
}

/// Makes an edit, and answers the rule that it breaks, else 0. The trail is left with the marks of the edit.
fn make(alloc: Global, session: &mut Session, edit: &Edit, trail: &mut Trail) -> Result<u8, Fail> {
    *trail = Trail::of_size(alloc, session.system().size())?;
    match session.edit(&(), alloc, edit, &mut OneByOne, trail) {
        Ok(()) => Ok(0),
        Err(EditFault::Refused(EditRefusal(number))) => Ok(number),
        Err(EditFault::Memory) => Err(Fail::from(AllocError)),
    }
}

/// Whether a trail marks these tasks and no other.
fn has_marks(trail: &Trail, marks: &[u32]) -> bool {
    for place in 0..512 {
        if trail.marked(TaskId(place)) != marks.contains(&place) {
            return false;
        }
    }
    true
}

/// Whether the tasks of a session have these executions and bounds.
fn has_tasks(session: &Session, tasks: &[(u64, Bound)]) -> bool {
    let system = session.system();
    let bounds = session.bounds();
    for place in 0..system.tasks().min(bounds.len()) {
        let task = TaskId(place);
        if tasks.get(place as usize) != Some(&(system.task(task).worst, bounds.get(task))) {
            return false;
        }
    }
    system.tasks() == bounds.len() && tasks.len() == bounds.len() as usize
}

fn is_met(alloc: Global, case: &Case) -> Result<bool, Fail> {
    let script = read_script(alloc, case.script.as_bytes())?;
    let (mut session, mut trail) = start(alloc, case.system)?;
    let mut broken = 0;
    for k in 0..script.len() {
        if let Step::Change(edit) = script.step(k) {
            broken = make(alloc, &mut session, edit, &mut trail)?;
        }
    }
    Ok(broken == case.broken && has_marks(&trail, case.marks) && has_tasks(&session, case.tasks))
}

#[test]
fn edits(rt: HostRuntime) -> Result<(), Fail> {
    for case in &CASES {
        assert!(rt; is_met(rt.alloc(), case)?, "{}", case.script);
    }
    Ok(())
}

const SESSION_REPORTS: &str = "report\nexec b 2 8\nreport\nexec b 2 7\n";

fn are_equal(first: &Vector, second: &Vector) -> bool {
    for place in 0..first.len().min(second.len()) {
        if first.get(TaskId(place)) != second.get(TaskId(place)) {
            return false;
        }
    }
    first.len() == second.len()
}

/// Makes an edit. Where it runs out of memory, says whether the session is as before: the file of its system, which stands
/// for all four lists of it, and all bounds.
fn edits_or_keeps(alloc: Global, session: &mut Session, edit: &Edit) -> Result<bool, Fail> {
    let bounds = session.bounds().copy(alloc)?;
    let file = print_system(alloc, session.system())?;
    let mut trail = Trail::of_size(alloc, session.system().size())?;
    match session.edit(&(), alloc, edit, &mut OneByOne, &mut trail) {
        Err(EditFault::Memory) => {
            let now = print_system(alloc, session.system())?;
            Ok(now.as_slice() == file.as_slice() && are_equal(session.bounds(), &bounds))
        }
        Err(EditFault::Refused(_)) => Ok(false),
        Ok(()) => Ok(true),
    }
}

/// Where an edit of the case *session_reports* runs out of memory the session is as before. Each allocation in turn is
/// refused by tests/hard_use/check_refused_memory.sh; wherever else one is, the test ends with the fault of the allocation.
#[test]
fn edit_without_memory(rt: HostRuntime) -> Result<(), Fail> {
    let alloc = rt.alloc();
    let script = read_script(alloc, SESSION_REPORTS.as_bytes())?;
    let (mut session, _) = start(alloc, TWO_TASKS)?;
    let mut right = true;
    for k in 0..script.len() {
        if let Step::Change(edit) = script.step(k) {
            right = right && edits_or_keeps(alloc, &mut session, edit)?;
        }
    }
    assert!(rt; right);
    Ok(())
}

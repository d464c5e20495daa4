use crate::systems::needs_shared;
use cpa_file::read_system;
use cpa_local::{Trail, floor, input, respond};
use cpa_units::Bound::Within;
use cpa_units::TaskId;
use std::test::Fail;

/// A task that a source activates, and a task of lower priority that it activates in turn.
const CHAIN: &str = r#"format = 1
resource = [{ name = "cpu", kind = "preemptive" }]
source = [{ name = "s", period = 100 }]
task = [
  { name = "a", on = "cpu", after = "s", best = 2, worst = 7, priority = 1 },
  { name = "b", on = "cpu", after = "a", best = 2, worst = 7, priority = 2 },
]
"#;

#[test]
fn a_chain_of_two(rt: HostRuntime) -> Result<(), Fail> {
    let alloc = rt.alloc();
    let system = read_system(alloc, CHAIN.as_bytes())?;
    let x = floor(alloc, &system)?;
    let mut trail = Trail::with_room(alloc, system.tasks())?;
    needs_shared(&trail);
    assert!(rt; system.tasks() == 2);
    let first = respond(alloc, &system, TaskId(0), &x, &mut trail)?;
    let second = respond(alloc, &system, TaskId(1), &x, &mut trail)?;
    let jitter = match input(&system, TaskId(1), &x) {
        Some(model) => Some(model.get(0).jitter),
        None => None,
    };
    let marks = [trail.marked(TaskId(1)), trail.marked(TaskId(2))];
    assert!(rt; first == Within(7) && second == Within(14));
    assert!(rt; jitter == Some(0) && marks == [true, false]);
    Ok(())
}

/// A task under another, whose sources share a clock, or whose sources' clocks aren't the same.
const SHARED_CLOCK: &str = r#"format = 4
resource = [{ name = "cpu", kind = "preemptive" }]
source = [
  { name = "sa", period = 10, clock = "c" },
  { name = "sb", period = 10, clock = "c", offset = 5 },
]
task = [
  { name = "a", on = "cpu", after = "sa", best = 4, worst = 4, priority = 1 },
  { name = "b", on = "cpu", after = "sb", best = 3, worst = 3, priority = 2 },
]
"#;

/// What stands in place of its offset, its second clock and its kind, and the bound of the second task. A task before it keeps it waiting
/// for what is left of its 4 ticks.
const BY_CLOCKS: [(&str, &str, &str, u64); 9] = [
    ("offset = 5", "offset = 5", "preemptive", 3),
    ("offset = 5", "offset = 4", "preemptive", 3),
    ("offset = 5", "offset = 3", "preemptive", 4),
    ("offset = 5", "offset = 2", "preemptive", 5),
    ("offset = 5", "offset = 0", "preemptive", 7),
    ("offset = 5", "offset = 8", "preemptive", 7),
    ("offset = 5", "offset = 8", "can", 3),
    ("offset = 5", "offset = 2, jitter = 2", "can", 5),
    ("\"c\", offset = 5", "\"d\", offset = 5", "preemptive", 7),
];

#[test]
fn clocks_keep_tasks_apart(rt: HostRuntime) -> Result<(), Fail> {
    let alloc = rt.alloc();
    let mut wrong = None;
    for (old, new, kind, bound) in &BY_CLOCKS {
        let text = SHARED_CLOCK
            .replace(alloc, old, new)?
            .replace(alloc, "preemptive", kind)?;
        let system = read_system(alloc, text.as_bytes())?;
        let x = floor(alloc, &system)?;
        let mut trail = Trail::with_room(alloc, system.tasks())?;
        if system.tasks() == 2
            && respond(alloc, &system, TaskId(1), &x, &mut trail)? != Within(*bound)
        {
            wrong = Some(*new);
        }
    }
    assert!(rt; wrong.is_none(), "{wrong:?}");
    Ok(())
}

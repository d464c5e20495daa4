use cpa_cases::{ENDLESS_WITHOUT_DEADLINE, TWO_TASKS};
use cpa_file::read_system;
use cpa_fix::OneByOne;
use cpa_local::Trail;
use cpa_slack::{find_slack, slack_text};
use cpa_units::TaskId;
use std::alloc::Global;
use std::test::Fail;

/// The example of Davis et al.
const DAVIS_BUS: &str = r#"format = 1
resource = [{ name = "bus", kind = "can", bit = 1 }]
source = [{ name = "s1", period = 250 }, { name = "s2", period = 350 }, { name = "s3", period = 350 }]
task = [
  { name = "m1", on = "bus", after = "s1", best = 100, worst = 100, priority = 1 },
  { name = "m2", on = "bus", after = "s2", best = 100, worst = 100, priority = 2 },
  { name = "m3", on = "bus", after = "s3", best = 100, worst = 100, priority = 3 },
]
"#;

/// A system, its paths, one of its tasks, and the line of that task.
const CASES: [(&str, &str, u32, &str); 6] = [
    // The bounds are 14 and then 15.
    (TWO_TASKS, B_BY_14, 1, "slack b 1 next missed\n"),
    // A tick more of the first task comes twice before the second is done.
    (TWO_TASKS, B_BY_14, 0, "slack a 0 next missed\n"),
    (TWO_TASKS, "", 1, "slack b 999993 next limit\n"),
    (
        DAVIS_BUS,
        "path = [{ name = 'd', tasks = ['m3'], deadline = 325 }]",
        0,
        "slack m1 none\n",
    ),
    // Four tasks are overloaded, and there is no deadline.
    (
        ENDLESS_WITHOUT_DEADLINE,
        "",
        4,
        "slack c 999996 next limit\n",
    ),
    (
        ENDLESS_WITHOUT_DEADLINE,
        "path = [{ name = 'd', tasks = ['a1', 'a2'], deadline = 500 }]",
        4,
        "slack c none\n",
    ),
];

const B_BY_14: &str = "path = [{ name = 'd', tasks = ['b'], deadline = 14 }]";

/// The line of a task; nothing where there is no such task.
fn line(
    alloc: Global,
    (system, paths, task, _): &(&str, &str, u32, &str),
) -> Result<Vec<u8>, Fail> {
    let system = read_system(alloc, format!(in alloc; "{system}{paths}")?.as_bytes())?;
    let task = TaskId(*task);
    if task.0 >= system.tasks() {
        return Ok(Vec::new(alloc));
    }
    let mut trail = Trail::of_size(alloc, system.size())?;
    let slack = find_slack(&(), alloc, &system, task, &mut OneByOne, &mut trail)?;
    Ok(slack_text(alloc, &system, task, &slack)?)
}

#[test]
fn tells_what_comes_next(rt: HostRuntime) -> Result<(), Fail> {
    for case in &CASES {
        let text = line(rt.alloc(), case)?;
        assert!(rt; text.as_slice() == case.3.as_bytes(), "{}", case.3);
    }
    Ok(())
}

ghost use Rattle.std.specs.Prelude.{◌≡◌, ◌<◌, length, true, false, slice_index_or};
ghost use Rattle.cpa_sched.specs.Steps.{kind_of};
ghost use Rattle.cpa_sched.specs.States.{seen, Belongs, FrameWaits};

use cpa_file::read_system;
use cpa_model::{Kind, System};
use cpa_sched::{Queue, ResState, Stretch, begin, completed, first_state, go_on, pick, span};
use cpa_units::{ResId, TaskId};
use std::test::Fail;

/// Two tasks with slots of 3 and 2 ticks, in turn.
const RING: &str = r#"format = 1
resource = [{ name = "r", kind = "round-robin" }]
source = [{ name = "s", period = 100 }]
task = [
  { name = "a", on = "r", after = "s", best = 2, worst = 7, slot = 3 },
  { name = "b", on = "r", after = "s", best = 2, worst = 7, slot = 2 },
]
"#;

/// The same by the time, with a gap.
const TABLE: &str = r#"format = 1
resource = [{ name = "r", kind = "tdma", gap = 2 }]
source = [{ name = "s", period = 100 }]
task = [
  { name = "a", on = "r", after = "s", best = 2, worst = 7, slot = 3 },
  { name = "b", on = "r", after = "s", best = 2, worst = 7, slot = 2 },
]
"#;

/// Two tasks by their priorities, the second with regions of 3 ticks.
const REGIONS: &str = r#"format = 4
resource = [{ name = "r", kind = "preemptive" }]
source = [{ name = "s", period = 100 }]
task = [
  { name = "a", on = "r", after = "s", best = 2, worst = 7, priority = 1 },
  { name = "b", on = "r", after = "s", best = 2, worst = 7, priority = 2, region = 3 },
]
"#;

/// Two tasks that are served in the order in which their jobs came.
const QUEUE: &str = r#"format = 4
resource = [{ name = "r", kind = "fifo" }]
source = [{ name = "s", period = 100 }]
task = [
  { name = "a", on = "r", after = "s", best = 2, worst = 7 },
  { name = "b", on = "r", after = "s", best = 2, worst = 7 },
]
"#;

/// After its first tick a job of the second task holds the lock of the first one for three ticks, and for its last two ticks a lock of
/// its own.
const SECTIONS: &str = r#"format = 4
resource = [{ name = "r", kind = "ceiling" }]
source = [{ name = "s", period = 100 }]
task = [
  { name = "a", on = "r", after = "s", best = 2, worst = 7, priority = 1, locks = [{ name = "bus", start = 0, length = 7 }] },
  { name = "b", on = "r", after = "s", best = 2, worst = 7, priority = 2, locks = [{ name = "bus", start = 1, length = 3 }, { name = "own", start = 5, length = 2 }] },
]
"#;

/// The tasks that wait, when their earliest pending jobs arrived, and what these have had.
#[derive(Drop)]
struct Waiting([bool; 2], [u64; 2], [u64; 2]);

impl Queue for Waiting {
    ghost use Rattle.std.specs.Prelude.{false, slice_index_or};

    ghost ready = { λ q. record { waits = λ i. slice_index_or q.0 i false; arrival = λ i. slice_index_or q.1 i 0; received = λ i. slice_index_or q.2 i 0 } };

    fn waits(&self, task: TaskId) -> bool {
        if task.0 < 2 {
            self.0[task.0 as usize]
        } else {
            false
        }
    }

    fn arrival(&self, task: TaskId) -> u64 {
        if task.0 < 2 {
            self.1[task.0 as usize]
        } else {
            0
        }
    }

    fn received(&self, task: TaskId) -> u64 {
        if task.0 < 2 {
            self.2[task.0 as usize]
        } else {
            0
        }
    }
}

/// Whether the task of a frame or a region that has begun waits.
fn frame_waits(system: &System, res: ResId, state: &ResState, queue: &Waiting) -> bool
    requires { res.0 < length system.now.resources }
    ensures { result ≡ true → FrameWaits (kind_of system.now res.0) (seen state.now) (⟦<Waiting as Queue>⟧.ready queue.now).waits }
{
    match (system.resource(res).kind, state.holder) {
        (Kind::Preemptive, Some(holder)) => queue.waits(holder),
        (Kind::Can { bit: _ }, Some(holder)) => queue.waits(holder),
        _ => true,
    }
}

const A: Option<TaskId> = Some(TaskId(0));

const B: Option<TaskId> = Some(TaskId(1));

/// Who runs in the first eight ticks, where these tasks wait in the first of them, and those from then on.
fn eight_ticks(system: &System, res: ResId, first: &Waiting, then: &Waiting) -> [Option<TaskId>; 8]
    requires { res.0 < length system.now.resources }
{
    let mut state = first_state(system, res);
    let mut ran = [None; 8];
    for tick in 0..8 {
        let queue = if tick == 0 { first } else { then };
        if frame_waits(system, res, &state, queue) {
            ran[tick] = pick(system, res, &mut state, queue, tick as u64, 0);
        }
    }
    ran
}

/// Who runs in the first four stretches, and how long.
fn four_stretches(
    system: &System,
    res: ResId,
    queue: &Waiting,
    phase: u32,
) -> [(Option<TaskId>, u64); 4]
    requires { res.0 < length system.now.resources }
{
    let mut state = first_state(system, res);
    let mut tick = 0;
    let mut ran = [(None, 0); 4];
    for k in 0..4 {
        if frame_waits(system, res, &state, queue) && tick < 100 {
            let Stretch { task, ticks } = span(
                system,
                res,
                &mut state,
                queue,
                tick,
                phase as u64,
                9,
            );
            completed(system, res, &mut state);
            ran[k] = (task, ticks);
            tick += ticks;
        }
    }
    ran
}

/// Who runs first, for how long, and what is left of the turn after the first tick and after one more.
fn first_turn(system: &System, res: ResId, queue: &Waiting) -> (Option<TaskId>, u64, u64, u64)
    requires { res.0 < length system.now.resources }
{
    let mut state = first_state(system, res);
    if !frame_waits(system, res, &state, queue) {
        return (None, 0, 0, 0);
    }
    let Stretch { task, ticks } = begin(system, res, &mut state, queue, 0, 0, 9);
    let left = state.left;
    go_on(system, res, &mut state, task, 1);
    (task, ticks, left, state.left)
}

/// Turns go round and are used up; slots come by the phase.
#[test]
fn takes_turns(rt: HostRuntime) -> Result<(), Fail> {
    let alloc = rt.alloc();
    let ring = read_system(alloc, RING.as_bytes())?;
    let table = read_system(alloc, TABLE.as_bytes())?;
    let both = Waiting([true, true], [0, 0], [0, 0]);
    let res = ResId(0);
    assert!(rt;
        ring.resources() == 1
            && table.resources() == 1
            && first_turn(&ring, res, &both) == (A, 3, 2, 1)
            && eight_ticks(&ring, res, &both, &both) == [A, A, A, B, B, A, A, A]
            && four_stretches(&table, res, &both, 3) == [(B, 2), (None, 2), (A, 3), (B, 2)]
    );
    Ok(())
}

/// A region that has begun goes on while a more urgent task waits, and a stretch ends with its region.
#[test]
fn takes_regions(rt: HostRuntime) -> Result<(), Fail> {
    let alloc = rt.alloc();
    let system = read_system(alloc, REGIONS.as_bytes())?;
    let second = Waiting([false, true], [0, 0], [0, 0]);
    let both = Waiting([true, true], [0, 0], [0, 0]);
    let res = ResId(0);
    assert!(rt;
        system.resources() == 1
            && eight_ticks(&system, res, &second, &both) == [B, B, B, A, A, A, A, A]
            && four_stretches(&system, res, &second, 0) == [(B, 3); 4]
            && four_stretches(&system, res, &both, 0) == [(A, 9); 4]
            && first_turn(&system, res, &second) == (B, 3, 2, 1)
    );
    Ok(())
}

/// The job that came first is served, of those that came at once that of the first task in the file, and one
/// that comes later doesn't take the resource.
#[test]
fn takes_jobs_as_they_came(rt: HostRuntime) -> Result<(), Fail> {
    let alloc = rt.alloc();
    let system = read_system(alloc, QUEUE.as_bytes())?;
    let second = Waiting([false, true], [9, 3], [0, 0]);
    let second_first = Waiting([true, true], [4, 3], [0, 0]);
    let at_once = Waiting([true, true], [3, 3], [0, 0]);
    let none = Waiting([false, false], [1, 2], [0, 0]);
    let res = ResId(0);
    assert!(rt;
        system.resources() == 1
            && eight_ticks(&system, res, &second, &second_first) == [B; 8]
            && eight_ticks(&system, res, &at_once, &at_once) == [A; 8]
            && four_stretches(&system, res, &second_first, 0) == [(B, 9); 4]
            && four_stretches(&system, res, &none, 0) == [(None, 9); 4]
            && first_turn(&system, res, &at_once) == (A, 9, 0, 0)
    );
    Ok(())
}

/// What jobs have had, and who runs then, for how long.
const TURNS: [([bool; 2], [u64; 2], Option<TaskId>, u64); 12] = [
    ([true, true], [0, 0], A, 7),
    ([true, true], [0, 1], A, 7),
    ([true, true], [0, 2], B, 2),
    ([true, true], [0, 3], B, 1),
    ([true, true], [0, 4], A, 7),
    ([true, true], [0, 6], A, 7),
    ([true, true], [1, 2], A, 6),
    ([false, true], [0, 0], B, 4),
    ([false, true], [0, 1], B, 3),
    ([false, true], [0, 4], B, 3),
    ([false, true], [0, 6], B, 1),
    ([false, true], [0, 7], B, 9),
];

/// The first of these turns that is another one.
fn wrong_turn(system: &System, res: ResId) -> Option<usize>
    requires { res.0 < length system.now.resources }
{
    for k in 0..TURNS.len() {
        let (waits, received, task, ticks) = TURNS[k];
        let queue = Waiting(waits, [0, 0], received);
        if first_turn(system, res, &queue) != (task, ticks, 0, 0) {
            return Some(k);
        }
    }
    None
}

/// A job within a section has the ceiling of its lock as priority, and runs on before one that has the same; a stretch ends with a section.
#[test]
fn takes_sections(rt: HostRuntime) -> Result<(), Fail> {
    let alloc = rt.alloc();
    let system = read_system(alloc, SECTIONS.as_bytes())?;
    assert!(rt; system.resources() == 1);
    let wrong = wrong_turn(&system, ResId(0));
    assert!(rt; wrong.is_none(), "{wrong:?}");
    Ok(())
}

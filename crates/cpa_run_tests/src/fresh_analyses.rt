//! Sessions beside fresh analyses of the systems that their edits make.

use crate::car::CAR_NETWORK;
use crate::cases::JOINED_KINDS;
use crate::rounds::search;
use cpa_edit::{Edit, EditFault, Script, Step, read_script};
use cpa_file::read_system;
use cpa_fix::{OneByOne, Round};
use cpa_local::Trail;
use cpa_session::Session;
use cpa_units::{TaskId, Vector};
use std::alloc::{AllocError, Global};
use std::test::Fail;

/// Three chains over resources of four kinds, in a cycle, and a task that nothing reads.
const FOUR_KINDS: &str = r#"format = 1
resource = [
  { name = "p", kind = "preemptive", limit = 3000 },
  { name = "rr", kind = "round-robin", limit = 3000 },
  { name = "ring", kind = "tdma", gap = 3, limit = 3000 },
  { name = "bus", kind = "can", bit = 1, limit = 3000 },
]
source = [{ name = "sa", period = 300 }, { name = "sb", period = 400, jitter = 20 }, { name = "sc", period = 500 }]
task = [
  { name = "a1", on = "p", after = "sa", best = 5, worst = 20, priority = 2 },
  { name = "a2", on = "bus", after = "a1", best = 60, worst = 70, priority = 1 },
  { name = "a3", on = "rr", after = "a2", best = 5, worst = 20, slot = 5 },
  { name = "b1", on = "bus", after = "sb", best = 60, worst = 70, priority = 2 },
  { name = "b2", on = "p", after = "b1", best = 5, worst = 20, priority = 1 },
  { name = "c1", on = "rr", after = "sc", best = 5, worst = 20, slot = 8 },
  { name = "c2", on = "ring", after = "c1", best = 5, worst = 20, slot = 6 },
  { name = "d", on = "ring", after = "sc", best = 5, worst = 20, slot = 7 },
]
"#;

/// A system whose tasks have the names below, what each task that is added comes after, and the period that a source gets.
struct Trial {
    system: &'static str,
    after: &'static str,
    period: u64,
}

const TRIALS: [Trial; 2] = [
    Trial {
        system: FOUR_KINDS,
        after: "sb",
        period: 300,
    },
    Trial {
        system: JOINED_KINDS,
        after: "a3",
        period: 900,
    },
];

const NAMES: [&str; 8] = ["a1", "a2", "a3", "b1", "b2", "c1", "c2", "d"];

/// An edit by a fixed rule; some are refused.
fn line(alloc: Global, trial: &Trial, k: u64) -> Result<String, AllocError> {
    let task = NAMES[(k.saturating_mul(5) % 8) as usize];
    let number = k.saturating_mul(k) % 83;
    match k % 7 {
        0 => format!(in alloc; "source sa {} {number} 1\n", trial.period),
        1 => format!(in alloc; "slot {task} {}\n", number.saturating_add(1)),
        2 => Ok(String::from_str(
            alloc,
            if k % 2 == 0 {
                "swap a1 b2\n"
            } else {
                "swap a2 b1\n"
            },
        )?),
        3 => format!(in alloc;
            "add e{k} ring {} 1 {} 2\n",
            trial.after,
            number.saturating_add(1)
        ),
        4 => format!(in alloc; "remove e{}\n", k.saturating_sub(8)),
        _ => format!(in alloc; "exec {task} 5 {}\n", number.saturating_add(5)),
    }
}

fn are_equal(first: &Vector, second: &Vector) -> bool {
    for place in 0..first.len().min(second.len()) {
        let task = TaskId(place);
        if first.get(task) != second.get(task) {
            return false;
        }
    }
    first.len() == second.len()
}

/// Makes an edit, and says whether it was made and whether the bounds aren't those of a fresh analysis.
fn edit_beside(alloc: Global, session: &mut Session, edit: &Edit) -> Result<(bool, bool), Fail> {
    let mut trail = Trail::of_size(alloc, session.system().size())?;
    let made = match session.edit(&(), alloc, edit, &mut OneByOne, &mut trail) {
        Ok(()) => true,
        Err(EditFault::Refused(_)) => false,
        Err(EditFault::Memory) => return Err(Fail::from(AllocError)),
    };
    let fresh = search(&(), alloc, session.system(), &mut OneByOne)?;
    Ok((made, !are_equal(&fresh.bounds, session.bounds())))
}

/// The session of a system that is read.
fn start(alloc: Global, text: &str) -> Result<Session, Fail> {
    let system = read_system(alloc, text.as_bytes())?;
    let mut trail = Trail::of_size(alloc, system.size())?;
    let session = Session::start(&(), alloc, system, &mut OneByOne, &mut trail)?;
    Ok(session)
}

/// 280 edits.
fn script_of(alloc: Global, trial: &Trial) -> Result<Script, Fail> {
    let mut text = String::new(alloc);
    for k in 0..280 {
        text.push_str(line(alloc, trial, k)?.as_str())?;
    }
    Ok(read_script(alloc, text.as_bytes())?)
}

/// How many of the edits were made, and after how many the bounds weren't those of a fresh analysis.
fn edits_beside(alloc: Global, trial: &Trial) -> Result<(u64, u64), Fail> {
    let script = script_of(alloc, trial)?;
    let mut session = start(alloc, trial.system)?;
    let (mut edits, mut others) = (0u64, 0u64);
    for k in 0..script.len() {
        if let Step::Change(edit) = script.step(k) {
            let (made, other) = edit_beside(alloc, &mut session, edit)?;
            edits = edits.saturating_add(u64::from(made));
            others = others.saturating_add(u64::from(other));
        }
    }
    Ok((edits, others))
}

#[test]
fn bounds_are_those_of_fresh_analyses(rt: HostRuntime) -> Result<(), Fail> {
    let alloc = rt.alloc();
    let first = edits_beside(alloc, &TRIALS[0])?;
    let second = edits_beside(alloc, &TRIALS[1])?;
    assert!(rt; first == (259, 0) && second == (259, 0));
    Ok(())
}

/// Makes the first edit of a script in a session of its own, by rounds of this kind, and answers the trail with its marks.
pub fn edit_once<H: Sync, R: Round<H>>(
    rt: &H,
    alloc: Global,
    system: &str,
    script: &str,
    round: &mut R,
) -> Result<Trail, Fail> {
    let script = read_script(alloc, script.as_bytes())?;
    let mut session = start(alloc, system)?;
    let mut trail = Trail::of_size(alloc, session.system().size())?;
    if script.len() > 0 {
        if let Step::Change(edit) = script.step(0) {
            session.edit(rt, alloc, edit, round, &mut trail)?;
        }
    }
    Ok(trail)
}

/// Each resource of the network of a car reads `ecu3`, directly or through others.
#[test]
fn marks_everywhere(rt: HostRuntime) -> Result<(), Fail> {
    let edit = "exec act0 100 250";
    let trail = edit_once(&rt, rt.alloc(), CAR_NETWORK, edit, &mut OneByOne)?;
    let mut marks = 0u64;
    for place in 0..512 {
        marks = marks.saturating_add(u64::from(trail.marked(TaskId(place))));
    }
    assert!(rt; marks == 90);
    Ok(())
}

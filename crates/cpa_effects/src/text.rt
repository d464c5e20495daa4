//! The text of the bounds of a chain.

ghost use Rattle.std.specs.Prelude.{◌≡◌, ◌<◌, ◌≤◌, ◌++◌, length, All, OnOk, IfOk};
ghost use Rattle.std.specs.List.{flat_map, range_with_len};
ghost use Rattle.cpa_units.specs.declared.limits.TheConstants.{MAX_CHAIN};
ghost use Rattle.cpa_local.specs.Solution.{IsVector};
ghost use Rattle.cpa_effects.specs.ChainText.{step_word, passage_word, place_word, reading_word, labelled, premise, times_text, step_line, total_line, chain_text, chain_status};

use crate::bounds::{age_by, held_by, reaction_by, wait};
use crate::steps::{Passage, Reading, Step, passage_between};
use cpa_local::is_overload;
use cpa_model::System;
use cpa_report::put_bound;
use cpa_text::Text;
use cpa_units::{Bound, NoMemory, TaskId, Vector};
use std::alloc::Global;

fn step_word(step: Step) -> &'static [u8]
    ensures { result.now ≡ step_word step }
{
    match step {
        Step::Register => b" register",
        Step::Merge => b" merge",
        Step::Activation => b" activation",
    }
}

fn passage_word(passage: Passage) -> &'static [u8]
    ensures { result.now ≡ passage_word passage }
{
    match passage {
        Passage::By(step) => step_word(step),
        Passage::FromAbove => b" above",
        Passage::OfOneSource => b" same-source",
    }
}

/// How data comes to the task in a place of a chain.
fn place_word(reading: Reading, system: &System, tasks: &[TaskId], k: usize) -> &'static [u8]
    requires place { k < length tasks.now }
    requires there { All (λ (i : TaskId). i.0 < length system.now.tasks) tasks.now }
    ensures { result.now ≡ place_word reading system.now tasks.now k }
{
    if k == 0 {
        b" first"
    } else {
        passage_word(passage_between(reading, system, tasks[k - 1], tasks[k]))
    }
}

/// What is presumed of when jobs read.
fn reading_word(reading: Reading) -> &'static [u8]
    ensures { result.now ≡ reading_word reading }
{
    match reading {
        Reading::Anywhere => b"chain ",
        Reading::WhileRunning => b"chain while-running ",
    }
}

/// A bound after its label.
#[tactic(auto, unfolding(crate::specs::ChainText::labelled))]
fn put_labelled(text: &mut Text, label: &[u8], bound: Bound) -> Result<(), NoMemory>
    ensures { OnOk result (text.new ≡ text.old ++ labelled label.now bound) }
{
    text.put(label)?;
    put_bound(text, bound)
}

#[tactic(auto, unfolding(crate::specs::ChainText::times_text))]
fn put_times(text: &mut Text, wait: Bound, response: Bound) -> Result<(), NoMemory>
    ensures { OnOk result (text.new ≡ text.old ++ times_text wait response) }
{
    put_labelled(text, b" wait ", wait)?;
    put_labelled(text, b" response ", response)?;
    text.put(b"\n")
}

#[tactic(auto, unfolding(crate::specs::ChainText::step_line))]
fn put_step(
    text: &mut Text,
    reading: Reading,
    system: &System,
    x: &Vector,
    tasks: &[TaskId],
    k: usize,
) -> Result<(), NoMemory>
    requires place { k < length tasks.now }
    requires there { All (λ (i : TaskId). i.0 < length system.now.tasks) tasks.now }
    requires vector { IsVector system.now x.now }
    ensures { OnOk result (text.new ≡ text.old ++ step_line reading system.now x.now tasks.now k) }
{
    let task = tasks[k];
    text.put(b"step ")?;
    text.put(system.task(task).name.bytes())?;
    text.put(place_word(reading, system, tasks, k))?;
    put_times(text, wait(system, task, x), x.get(task))
}

fn put_steps(
    text: &mut Text,
    reading: Reading,
    system: &System,
    x: &Vector,
    tasks: &[TaskId],
) -> Result<(), NoMemory>
    requires there { All (λ (i : TaskId). i.0 < length system.now.tasks) tasks.now }
    requires vector { IsVector system.now x.now }
    ensures { OnOk result (text.new ≡ text.old ++ flat_map (step_line reading system.now x.now tasks.now) (range_with_len 0 (length tasks.now))) }
{
    for k in 0..tasks.len() {
        put_step(text, reading, system, x, tasks, k)?;
    }
    Ok(())
}

#[tactic(auto, unfolding(crate::specs::ChainText::total_line))]
fn put_total(
    text: &mut Text,
    reading: Reading,
    count: u64,
    reaction: Bound,
    age: Bound,
    held: Bound,
) -> Result<(), NoMemory>
    ensures { OnOk result (text.new ≡ text.old ++ total_line reading count reaction age held) }
{
    text.put(reading_word(reading))?;
    text.put_count(b"tasks ", count)?;
    put_labelled(text, b" reaction ", reaction)?;
    put_labelled(text, b" age ", age)?;
    put_labelled(text, b" held ", held)?;
    text.put(b" if sources stay near\n")
}

/// The text that says of a chain how data comes to each task, its wait and its bound, and the bounds on reaction time
/// and data age, and on the time for which data is held, where jobs read so and sources stay near. A chain has 1 to 32
/// tasks.
#[tactic(auto, unfolding(crate::specs::ChainText::chain_text))]
pub fn chain_text(
    alloc: Global,
    reading: Reading,
    system: &System,
    x: &Vector,
    tasks: &[TaskId],
) -> Result<Vec<u8>, NoMemory>
    requires some { 0 < length tasks.now }
    requires few { length tasks.now ≤ MAX_CHAIN }
    requires there { All (λ (i : TaskId). i.0 < length system.now.tasks) tasks.now }
    requires vector { IsVector system.now x.now }
    ensures { IfOk result (λ v. v.items ≡ chain_text reading system.now x.now tasks.now) }
{
    let mut text = Text::new(alloc);
    put_steps(&mut text, reading, system, x, tasks)?;
    let reaction = reaction_by(reading, system, x, tasks);
    let age = age_by(reading, system, x, tasks);
    let held = held_by(reading, system, x, tasks);
    put_total(&mut text, reading, tasks.len() as u64, reaction, age, held)?;
    Ok(text.into_bytes())
}

/// The status that goes with the text: 2 where a bound is missing, else 0.
#[tactic(auto, unfolding(crate::specs::ChainText::chain_status))]
pub fn status(reading: Reading, system: &System, x: &Vector, tasks: &[TaskId]) -> u8
    requires some { 0 < length tasks.now }
    requires few { length tasks.now ≤ MAX_CHAIN }
    requires there { All (λ (i : TaskId). i.0 < length system.now.tasks) tasks.now }
    requires vector { IsVector system.now x.now }
    ensures value { result ≡ chain_status reading system.now x.now tasks.now }
    ensures small { result ≤ 2 }
{
    if is_overload(reaction_by(reading, system, x, tasks))
        || is_overload(age_by(reading, system, x, tasks))
    {
        2
    } else {
        0
    }
}

//! The texts of generated systems, and of runs under generated traces.

ghost use Rattle.std.specs.Prelude.{◌≡◌, ◌<◌, ◌++◌, IfOk, OnOk, length, sum_by};
ghost use Rattle.std.specs.List.{flat_map};
ghost use Rattle.cpa_local.specs.Solution.{IsVector};
ghost use Rattle.cpa_model.specs.SystemLists.{task_places};
ghost use Rattle.cpa_gen.specs.Texts.{hammer_line, hammer_summary, hammer_text, load_text, number_of_bound};

use crate::observation::Seen;
use cpa_model::System;
use cpa_report::{put_bound, put_summary_at};
use cpa_sim::put_worst;
use cpa_text::Text;
use cpa_units::{Bound, NoMemory, TaskId, Vector};
use std::alloc::Global;

/// The number of a bound, 0 where it is overload.
fn number_of(bound: Bound) -> u64
    ensures { result ≡ number_of_bound bound }
{
    match bound {
        Bound::Within(ticks) => ticks,
        Bound::Overload => 0,
    }
}

/// The sum of all bounds that are numbers.
fn sum_of_bounds(system: &System, x: &Vector) -> u64
    requires { IsVector system.now x.now }
    ensures { result ≡ sum_by number_of_bound x.now }
{
    let mut sum = 0;
    for k in 0..x.len() {
        sum += number_of(x.get(TaskId(k)));
    }
    sum
}

/// The summary of a generated system's analysis: its number and size, the sum of all bounds that are numbers, in ticks, and
/// the last line of its report. The only error is out of memory.
#[tactic(auto, unfolding(crate::specs::Texts::load_text))]
pub fn load_text(
    alloc: Global,
    number: u64,
    size: u32,
    system: &System,
    x: &Vector,
) -> Result<Vec<u8>, NoMemory>
    requires { IsVector system.now x.now }
    ensures { IfOk result (λ v. v.items ≡ load_text number size system.now x.now) }
{
    let mut text = Text::new(alloc);
    text.put_count(b"load number ", number)?;
    text.put_count(b" size ", u64::from(size))?;
    text.put_count(b" bounds ", sum_of_bounds(system, x))?;
    text.put(b"\n")?;
    put_summary_at(&mut text, system, x)?;
    Ok(text.into_bytes())
}

#[tactic(auto, unfolding(crate::specs::Texts::hammer_line))]
fn put_task(
    text: &mut Text,
    system: &System,
    x: &Vector,
    seen: &Seen,
    task: TaskId,
) -> Result<(), NoMemory>
    requires there { task.0 < length system.now.tasks }
    requires bounds { length x.now ≡ length system.now.tasks }
    requires tallies { length seen.now.tallies ≡ length system.now.tasks }
    ensures { OnOk result (text.new ≡ text.old ++ hammer_line system.now x.now seen.now task.0) }
{
    let tally = seen.tally(task);
    text.put(b"task ")?;
    text.put(system.task(task).name.bytes())?;
    text.put_count(b" jobs ", tally.jobs)?;
    text.put(b" worst ")?;
    put_worst(text, tally.worst)?;
    text.put(b" bound ")?;
    put_bound(text, x.get(task))?;
    text.put(b"\n")
}

fn put_tasks(text: &mut Text, system: &System, x: &Vector, seen: &Seen) -> Result<(), NoMemory>
    requires bounds { length x.now ≡ length system.now.tasks }
    requires tallies { length seen.now.tallies ≡ length system.now.tasks }
    ensures { OnOk result (text.new ≡ text.old ++ flat_map (hammer_line system.now x.now seen.now) (task_places system.now)) }
{
    for k in 0..system.tasks() {
        put_task(text, system, x, seen, TaskId(k))?;
    }
    Ok(())
}

#[tactic(auto, unfolding(crate::specs::Texts::hammer_summary))]
fn put_sums(text: &mut Text, traces: u64, jobs: u64, beyond: u64) -> Result<(), NoMemory>
    ensures { OnOk result (text.new ≡ text.old ++ hammer_summary traces jobs beyond) }
{
    text.put_count(b"summary traces ", traces)?;
    text.put_count(b" jobs ", jobs)?;
    text.put_count(b" beyond ", beyond)?;
    text.put(b"\n")?;
    Ok(())
}

/// What is seen of a system under generated traces, beside its bounds: per task its jobs, and the greatest response of a
/// complete one and the bound, in ticks; and the sums. The only error is out of memory.
#[tactic(auto, unfolding(crate::specs::Texts::hammer_text))]
pub fn hammer_text(
    alloc: Global,
    system: &System,
    x: &Vector,
    seen: &Seen,
) -> Result<Vec<u8>, NoMemory>
    requires bounds { length x.now ≡ length system.now.tasks }
    requires tallies { length seen.now.tallies ≡ length system.now.tasks }
    ensures { IfOk result (λ v. v.items ≡ hammer_text system.now x.now seen.now) }
{
    let mut text = Text::new(alloc);
    put_tasks(&mut text, system, x, seen)?;
    put_sums(&mut text, seen.traces(), seen.jobs(), seen.beyond())?;
    Ok(text.into_bytes())
}

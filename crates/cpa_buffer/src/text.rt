//! The text of buffers beside peaks.

ghost use Rattle.std.specs.Prelude.{◌≡◌, ◌<◌, ◌≤◌, ◌++◌, if◌then◌else◌, length, OnOk, IfOk};
ghost use Rattle.std.specs.List.{flat_map, range_with_len};
ghost use Rattle.cpa_model.specs.SystemLists.{task_places};
ghost use Rattle.cpa_local.specs.Solution.{IsVector};
ghost use Rattle.cpa_local.specs.Paths.{is_overload};
ghost use Rattle.cpa_buffer.specs.BufferText.{line, task_line, resource_line, work_line, queue_line, overloads, summary_line, buffer_text};

use crate::buffers::{buffer, buffer_on, most_work_on};
use crate::peaks::Peaks;
use cpa_model::System;
use cpa_report::put_bound;
use cpa_text::Text;
use cpa_units::{Bound, NoMemory, ResId, TaskId, Vector};
use std::alloc::Global;

#[tactic(auto, unfolding(crate::specs::BufferText::line))]
fn put_line(
    text: &mut Text,
    label: &[u8],
    name: &[u8],
    bound: Bound,
    peak: u64,
) -> Result<(), NoMemory>
    ensures { OnOk result (text.new ≡ text.old ++ line label.now name.now bound peak) }
{
    text.put(label)?;
    text.put(name)?;
    text.put(b" bound ")?;
    put_bound(text, bound)?;
    text.put_count(b" peak ", peak)?;
    text.put(b"\n")
}

#[tactic(auto, unfolding(crate::specs::BufferText::task_line))]
fn put_task(
    text: &mut Text,
    system: &System,
    x: &Vector,
    peaks: &Peaks,
    task: TaskId,
) -> Result<(), NoMemory>
    requires there { task.0 < length system.now.tasks }
    requires vector { IsVector system.now x.now }
    requires peaks { length peaks.now.tasks ≡ length system.now.tasks }
    ensures { OnOk result (text.new ≡ text.old ++ task_line system.now x.now peaks.now task.0) }
{
    let bound = buffer(system, task, x);
    put_line(
        text,
        b"buffer ",
        system.task(task).name.bytes(),
        bound,
        peaks.task(task),
    )
}

fn put_tasks(text: &mut Text, system: &System, x: &Vector, peaks: &Peaks) -> Result<(), NoMemory>
    requires vector { IsVector system.now x.now }
    requires peaks { length peaks.now.tasks ≡ length system.now.tasks }
    ensures { OnOk result (text.new ≡ text.old ++ flat_map (task_line system.now x.now peaks.now) (task_places system.now)) }
{
    for k in 0..system.tasks() {
        put_task(text, system, x, peaks, TaskId(k))?;
    }
    Ok(())
}

#[tactic(auto, unfolding(crate::specs::BufferText::resource_line))]
fn put_resource(
    text: &mut Text,
    system: &System,
    x: &Vector,
    peaks: &Peaks,
    res: ResId,
) -> Result<(), NoMemory>
    requires there { res.0 < length system.now.resources }
    requires vector { IsVector system.now x.now }
    requires peaks { length peaks.now.resources ≡ length system.now.resources }
    ensures { OnOk result (text.new ≡ text.old ++ resource_line system.now x.now peaks.now res.0) }
{
    let bound = buffer_on(system, res, x);
    put_line(
        text,
        b"resource ",
        system.resource(res).name.bytes(),
        bound,
        peaks.resource(res),
    )
}

fn put_resources(
    text: &mut Text,
    system: &System,
    x: &Vector,
    peaks: &Peaks,
) -> Result<(), NoMemory>
    requires vector { IsVector system.now x.now }
    requires peaks { length peaks.now.resources ≡ length system.now.resources }
    ensures { OnOk result (text.new ≡ text.old ++ flat_map (resource_line system.now x.now peaks.now) (range_with_len 0 (length system.now.resources))) }
{
    for k in 0..system.resources() {
        put_resource(text, system, x, peaks, ResId(k))?;
    }
    Ok(())
}

#[tactic(auto, unfolding(crate::specs::BufferText::work_line))]
fn put_work(text: &mut Text, name: &[u8], most: Bound) -> Result<(), NoMemory>
    ensures { OnOk result (text.new ≡ text.old ++ work_line name.now most) }
{
    text.put(b"queue ")?;
    text.put(name)?;
    text.put(b" work ")?;
    put_bound(text, most)?;
    text.put(b"\n")
}

/// The work that can wait in a queue; nothing of another resource.
#[tactic(auto, unfolding(crate::specs::BufferText::queue_line))]
fn put_queue(text: &mut Text, system: &System, x: &Vector, res: ResId) -> Result<(), NoMemory>
    requires there { res.0 < length system.now.resources }
    requires vector { IsVector system.now x.now }
    ensures { OnOk result (text.new ≡ text.old ++ queue_line system.now x.now res.0) }
{
    let entry = system.resource(res);
    if !entry.kind.is_queue() {
        return Ok(());
    }
    put_work(text, entry.name.bytes(), most_work_on(system, res, x))
}

fn put_queues(text: &mut Text, system: &System, x: &Vector) -> Result<(), NoMemory>
    requires { IsVector system.now x.now }
    ensures { OnOk result (text.new ≡ text.old ++ flat_map (queue_line system.now x.now) (range_with_len 0 (length system.now.resources))) }
{
    for k in 0..system.resources() {
        put_queue(text, system, x, ResId(k))?;
    }
    Ok(())
}

/// One where a bound is no number, else none.
fn count_overload(bound: Bound) -> u64
    ensures value { result ≡ (if is_overload bound then 1 else 0) }
    ensures small { result ≤ 1 }
{
    match bound {
        Bound::Within(_) => 0,
        Bound::Overload => 1,
    }
}

/// How many tasks have no number as their buffer.
fn overloads(system: &System, x: &Vector) -> u64
    requires vector { IsVector system.now x.now }
    ensures { result ≡ overloads system.now x.now (task_places system.now) }
{
    let mut count = 0u64;
    for k in 0..system.tasks() {
        count += count_overload(buffer(system, TaskId(k), x));
    }
    count
}

#[tactic(auto, unfolding(crate::specs::BufferText::summary_line))]
fn put_summary(text: &mut Text, tasks: u64, overloads: u64) -> Result<(), NoMemory>
    ensures { OnOk result (text.new ≡ text.old ++ summary_line tasks overloads) }
{
    text.put_count(b"summary tasks ", tasks)?;
    text.put_count(b" overload ", overloads)?;
    text.put(b"\n")?;
    Ok(())
}

/// The text that says for each task and each resource its buffer and its peak, for each queue how much work
/// can wait in it, and how many tasks have no number as their buffer.
#[tactic(auto, unfolding(crate::specs::BufferText::buffer_text))]
pub fn buffer_text(
    alloc: Global,
    system: &System,
    x: &Vector,
    peaks: &Peaks,
) -> Result<Vec<u8>, NoMemory>
    requires vector { IsVector system.now x.now }
    requires tasks { length peaks.now.tasks ≡ length system.now.tasks }
    requires resources { length peaks.now.resources ≡ length system.now.resources }
    ensures { IfOk result (λ v. v.items ≡ buffer_text system.now x.now peaks.now) }
{
    let mut text = Text::new(alloc);
    put_tasks(&mut text, system, x, peaks)?;
    put_resources(&mut text, system, x, peaks)?;
    put_queues(&mut text, system, x)?;
    put_summary(&mut text, u64::from(system.tasks()), overloads(system, x))?;
    Ok(text.into_bytes())
}

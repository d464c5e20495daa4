//! The report of a system and its bounds.

ghost use Rattle.std.specs.Prelude.{◌≡◌, ◌<◌, ◌≤◌, ◌++◌, ◌==◌, if◌then◌else◌, length, count_by, OnOk, IfOk};
ghost use Rattle.std.specs.List.{list_any, range_with_len, flat_map};
ghost use Rattle.std.specs.Fmt.{decimal};
ghost use Rattle.cpa_units.specs.Bounds.{bound_of};
ghost use Rattle.cpa_events.specs.Events.{IsModelInRange};
ghost use Rattle.cpa_model.specs.SystemLists.{path_at, streams_of, task_places};
ghost use Rattle.cpa_local.specs.Solution.{IsVector};
ghost use Rattle.cpa_local.specs.Paths.{is_overload, is_missed};
ghost use Rattle.cpa_report.specs.Report.{bound_text, deadline_verdict_text, deadline_text, names_text, stream_text, model_text, unbounded_text, root_period, count_text, streams_text, bounds_text, task_line, path_line, summary_line, report_text, verdict};

use cpa_events::{Model, Stream};
use cpa_local::{
    DeadlineVerdict, count_missed, count_overloads, deadline_verdict, input, is_missed,
    is_overload, path_best, path_worst,
};
use cpa_model::System;
use cpa_text::Text;
use cpa_units::{Bound, NoMemory, PathId, TaskId, Vector};
use std::alloc::Global;

/// Writes a bound.
pub fn put_bound(text: &mut Text, bound: Bound) -> Result<(), NoMemory>
    ensures { OnOk result (text.new ≡ text.old ++ bound_text bound) }
{
    match bound {
        Bound::Within(ticks) => text.put_number(ticks),
        Bound::Overload => text.put(b"overload"),
    }
}

#[tactic(auto, unfolding(crate::specs::Report::names_text))]
fn put_names(text: &mut Text, system: &System, task: TaskId) -> Result<(), NoMemory>
    requires { task.0 < length system.now.tasks }
    ensures { OnOk result (text.new ≡ text.old ++ names_text system.now task.0) }
{
    let entry = system.task(task);
    text.put(b"task ")?;
    text.put(entry.name.bytes())?;
    text.put(b" ")?;
    text.put(system.resource(entry.res).name.bytes())
}

#[tactic(auto, unfolding(crate::specs::Report::stream_text))]
fn put_stream(text: &mut Text, stream: &Stream) -> Result<(), NoMemory>
    ensures { OnOk result (text.new ≡ text.old ++ stream_text stream.now) }
{
    text.put_count(b" period ", stream.period)?;
    text.put_count(b" jitter ", stream.jitter)?;
    text.put_count(b" distance ", stream.distance)
}

fn put_model(text: &mut Text, model: &Model) -> Result<(), NoMemory>
    requires { IsModelInRange model.now }
    ensures { OnOk result (text.new ≡ text.old ++ model_text model.now) }
{
    put_stream(text, &model.get(0))
}

#[tactic(auto, unfolding(crate::specs::Report::unbounded_text))]
pub(crate) fn put_unbounded(text: &mut Text, period: u64) -> Result<(), NoMemory>
    ensures { OnOk result (text.new ≡ text.old ++ unbounded_text period) }
{
    text.put_count(b" period ", period)?;
    text.put(b" jitter overload distance overload")
}

#[tactic(auto, unfolding(crate::specs::Report::count_text))]
fn put_streams_count(text: &mut Text, streams: u32) -> Result<(), NoMemory>
    ensures { OnOk result (text.new ≡ text.old ++ count_text streams) }
{
    text.put_count(b" streams ", u64::from(streams))
}

/// Writes the input of a task that is bounded.
fn put_bounded_input(text: &mut Text, model: &Model) -> Result<(), NoMemory>
    requires { IsModelInRange model.now }
    ensures { OnOk result (text.new ≡ text.old ++ (if length model.now == 1 then model_text model.now else count_text (length model.now))) }
{
    if model.len() == 1 {
        put_model(text, model)
    } else {
        put_streams_count(text, model.len())
    }
}

/// Writes the input of a task that isn't.
fn put_unbounded_input(text: &mut Text, system: &System, task: TaskId) -> Result<(), NoMemory>
    requires { task.0 < length system.now.tasks }
    ensures { OnOk result (text.new ≡ text.old ++ (if length (streams_of system.now task.0) == 1 then unbounded_text (root_period system.now task.0) else count_text (length (streams_of system.now task.0)))) }
{
    let streams = system.streams(task);
    if streams == 1 {
        put_unbounded(text, system.source(system.root(task)).period)
    } else {
        put_streams_count(text, streams)
    }
}

fn put_input(text: &mut Text, system: &System, task: TaskId, x: &Vector) -> Result<(), NoMemory>
    requires there { task.0 < length system.now.tasks }
    requires vector { IsVector system.now x.now }
    ensures { OnOk result (text.new ≡ text.old ++ streams_text system.now x.now task.0) }
{
    system.has_rules();
    match input(system, task, x) {
        Some(model) => put_bounded_input(text, &model),
        None => put_unbounded_input(text, system, task),
    }
}

#[tactic(auto, unfolding(crate::specs::Report::bounds_text))]
pub(crate) fn put_bounds(text: &mut Text, best: u64, worst: Bound) -> Result<(), NoMemory>
    ensures { OnOk result (text.new ≡ text.old ++ bounds_text best worst) }
{
    text.put_count(b" best ", best)?;
    text.put(b" worst ")?;
    put_bound(text, worst)
}

#[tactic(auto, unfolding(crate::specs::Report::task_line))]
fn put_task(text: &mut Text, system: &System, task: TaskId, x: &Vector) -> Result<(), NoMemory>
    requires there { task.0 < length system.now.tasks }
    requires vector { IsVector system.now x.now }
    ensures { OnOk result (text.new ≡ text.old ++ task_line system.now x.now task.0) }
{
    put_names(text, system, task)?;
    put_input(text, system, task, x)?;
    put_bounds(text, system.task(task).best, x.get(task))?;
    text.put(b"\n")
}

fn put_tasks(text: &mut Text, system: &System, x: &Vector) -> Result<(), NoMemory>
    requires vector { IsVector system.now x.now }
    ensures { OnOk result (text.new ≡ text.old ++ flat_map (task_line system.now x.now) (task_places system.now)) }
{
    for k in 0..system.tasks() {
        put_task(text, system, TaskId(k), x)?;
    }
    Ok(())
}

/// Writes a deadline; a hyphen where there is none.
pub fn put_deadline(text: &mut Text, deadline: Option<u64>) -> Result<(), NoMemory>
    ensures { OnOk result (text.new ≡ text.old ++ deadline_text deadline) }
{
    match deadline {
        Some(deadline) => text.put_number(deadline),
        None => text.put(b"-"),
    }
}

/// Writes the verdict on a deadline.
pub fn put_deadline_verdict(text: &mut Text, outcome: DeadlineVerdict) -> Result<(), NoMemory>
    ensures { OnOk result (text.new ≡ text.old ++ deadline_verdict_text outcome) }
{
    match outcome {
        DeadlineVerdict::Met => text.put(b"met"),
        DeadlineVerdict::Missed => text.put(b"missed"),
        DeadlineVerdict::Unknown => text.put(b"unknown"),
        DeadlineVerdict::NoDeadline => text.put(b"none"),
    }
}

#[tactic(auto, unfolding(crate::specs::Report::path_line))]
fn put_path(text: &mut Text, system: &System, path: PathId, x: &Vector) -> Result<(), NoMemory>
    requires there { path.0 < length system.now.paths }
    requires vector { IsVector system.now x.now }
    ensures { OnOk result (text.new ≡ text.old ++ path_line system.now x.now (path_at system.now path.0)) }
{
    let entry = system.path(path);
    let worst = path_worst(system, path, x);
    text.put(b"path ")?;
    text.put(entry.name.bytes())?;
    put_bounds(text, path_best(system, path), worst)?;
    text.put(b" deadline ")?;
    put_deadline(text, entry.deadline)?;
    text.put(b" ")?;
    put_deadline_verdict(text, deadline_verdict(entry.deadline, worst))?;
    text.put(b"\n")
}

fn put_paths(text: &mut Text, system: &System, x: &Vector) -> Result<(), NoMemory>
    requires { IsVector system.now x.now }
    ensures { OnOk result (text.new ≡ text.old ++ flat_map (path_line system.now x.now) system.now.paths) }
{
    for k in 0..system.paths() {
        put_path(text, system, PathId(k), x)?;
    }
    Ok(())
}

#[tactic(auto, unfolding(crate::specs::Report::summary_line))]
fn put_summary(text: &mut Text, tasks: u64, overload: u64, missed: u64) -> Result<(), NoMemory>
    ensures { OnOk result (text.new ≡ text.old ++ summary_line tasks overload missed) }
{
    text.put_count(b"summary tasks ", tasks)?;
    text.put_count(b" overload ", overload)?;
    text.put_count(b" missed ", missed)?;
    text.put(b"\n")?;
    Ok(())
}

/// Writes the summary of a report.
pub fn put_summary_at(text: &mut Text, system: &System, x: &Vector) -> Result<(), NoMemory>
    requires { IsVector system.now x.now }
    ensures { OnOk result (text.new ≡ text.old ++ summary_line (length system.now.tasks) (count_by is_overload x.now) (count_by (is_missed x.now) system.now.paths)) }
{
    put_summary(
        text,
        u64::from(system.tasks()),
        u64::from(count_overloads(x)),
        u64::from(count_missed(system, x)),
    )
}

/// The report of a system at a vector: a line per task, a line per path, and the counts.
#[tactic(auto, unfolding(crate::specs::Report::report_text))]
pub fn report_text(alloc: Global, system: &System, x: &Vector) -> Result<Vec<u8>, NoMemory>
    requires { IsVector system.now x.now }
    ensures { IfOk result (λ v. v.items ≡ report_text system.now x.now) }
{
    let mut text = Text::new(alloc);
    put_tasks(&mut text, system, x)?;
    put_paths(&mut text, system, x)?;
    let tasks = u64::from(system.tasks());
    let overload = u64::from(count_overloads(x));
    let missed = u64::from(count_missed(system, x));
    put_summary(&mut text, tasks, overload, missed)?;
    Ok(text.into_bytes())
}

fn has_overload(x: &Vector) -> bool
    ensures { result ≡ list_any is_overload x.now }
{
    for k in 0..x.len() {
        if is_overload(x.get(TaskId(k))) {
            return true;
        }
    }
    false
}

fn has_missed(system: &System, x: &Vector) -> bool
    requires { IsVector system.now x.now }
    ensures { result ≡ list_any (is_missed x.now) system.now.paths }
{
    for k in 0..system.paths() {
        if is_missed(system, PathId(k), x) {
            return true;
        }
    }
    false
}

/// The verdict: 2 where a bound is an overload; else 1 where a deadline is missed; else 0.
#[tactic(auto, unfolding(crate::specs::Report::verdict))]
pub fn verdict(system: &System, x: &Vector) -> u8
    requires { IsVector system.now x.now }
    ensures value { result ≡ verdict system.now x.now }
    ensures small { result ≤ 2 }
{
    if has_overload(x) {
        2
    } else if has_missed(system, x) {
        1
    } else {
        0
    }
}

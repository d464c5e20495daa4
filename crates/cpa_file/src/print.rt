//! From a system to the bytes of a file.

ghost use Rattle.std.specs.Prelude.{◌≡◌, ◌<◌, ◌^◌, pos, map, length, All, IfOk, OnOk};
ghost use Rattle.std.specs.List.{list_all};
ghost use Rattle.std.specs.Option.{ForSome};
ghost use Rattle.toml.specs.Data.{string, integer, table};
ghost use Rattle.toml.specs.View.{view, table_view};
ghost use Rattle.cpa_model.specs.Rules.{IsSystem, IsResource, IsSource, IsActivator, IsTask, IsPath, IsSection, KindFits};
ghost use Rattle.cpa_model.specs.SystemLists.{resource_at, source_at, task_at, path_at, task_places, slot_of, activator_name};
ghost use Rattle.cpa_file.specs.Reading.{reading_of, Accepted};
ghost use Rattle.cpa_file.specs.Printed.{put, kind_text, with_kind_number, resource_data, with_sporadic, with_offset, with_clock, source_numbers_data, source_data, with_turn, with_region, lock_data, with_locks, activator_data, after_data, task_names_data, task_data, has_one, format_of, with_deadline, name_data, path_data, system_data, IsPrinted};

use cpa_model::{
    Activator, Activators, CriticalSection, Kind, OnClock, Path, Resource, Source, System, Task,
    TaskList, Turn,
};
use cpa_units::limits::Size;
use cpa_units::{Name, NoMemory, PathId, ResId, SourceId, TaskId};
use std::alloc::Global;
use toml::ser::Error;
use toml::{Table, Value};

/// Puts a value at a key.
fn put(alloc: Global, entry: &mut Table, key: &str, value: Value) -> Result<(), NoMemory>
    ensures { OnOk result (table_view entry.new ≡ put key.now (view value) (table_view entry.old)) }
{
    let key = String::from_str(alloc, key)?;
    match entry.insert(key, value) {
        Ok(_) => Ok(()),
        Err(_) => Err(NoMemory),
    }
}

fn put_number(alloc: Global, entry: &mut Table, key: &str, number: u64) -> Result<(), NoMemory>
    requires { number < 2 ^ 63 }
    ensures { OnOk result (table_view entry.new ≡ put key.now (integer (pos number)) (table_view entry.old)) }
{
    put(alloc, entry, key, Value::Integer(number as i64))
}

/// A name as text; its bytes are ASCII.
fn name_text(name: &Name) -> &str
    ensures { result.now ≡ name.now }
{
    match std::str::from_utf8(name.bytes()) {
        Ok(text) => text,
        Err(_) => unreachable!(),
    }
}

fn text_value(alloc: Global, text: &str) -> Result<Value, NoMemory>
    ensures { IfOk result (λ v. view v ≡ string text.now) }
{
    Ok(Value::string(alloc, text)?)
}

fn put_text(alloc: Global, entry: &mut Table, key: &str, text: &str) -> Result<(), NoMemory>
    ensures { OnOk result (table_view entry.new ≡ put key.now (string text.now) (table_view entry.old)) }
{
    put(alloc, entry, key, text_value(alloc, text)?)
}

fn kind_word(kind: Kind) -> &'static str
    ensures { result.now ≡ kind_text kind }
{
    match kind {
        Kind::Preemptive => "preemptive",
        Kind::RoundRobin => "round-robin",
        Kind::Tdma { .. } => "tdma",
        Kind::Can { .. } => "can",
        Kind::Fifo => "fifo",
        Kind::Ceiling => "ceiling",
    }
}

fn put_kind_number(alloc: Global, entry: &mut Table, kind: Kind) -> Result<(), NoMemory>
    requires { KindFits kind }
    ensures { OnOk result (table_view entry.new ≡ with_kind_number kind (table_view entry.old)) }
{
    match kind {
        Kind::Preemptive => Ok(()),
        Kind::RoundRobin => Ok(()),
        Kind::Fifo => Ok(()),
        Kind::Ceiling => Ok(()),
        Kind::Tdma { gap } => put_number(alloc, entry, "gap", gap),
        Kind::Can { bit } => put_number(alloc, entry, "bit", bit),
    }
}

#[tactic(auto, unfolding(crate::specs::Printed::resource_data))]
fn resource_value(alloc: Global, resource: &Resource) -> Result<Value, NoMemory>
    requires { IsResource resource.now }
    ensures { IfOk result (λ v. view v ≡ resource_data resource.now) }
{
    let mut entry = Table::new(alloc);
    put_text(alloc, &mut entry, "name", name_text(&resource.name))?;
    put_text(alloc, &mut entry, "kind", kind_word(resource.kind))?;
    put_number(alloc, &mut entry, "limit", resource.limit)?;
    put_kind_number(alloc, &mut entry, resource.kind)?;
    Ok(Value::Table(entry))
}

/// Puts `sporadic = true` where a source is sporadic, and nothing else.
fn put_sporadic(alloc: Global, entry: &mut Table, sporadic: bool) -> Result<(), NoMemory>
    ensures { OnOk result (table_view entry.new ≡ with_sporadic sporadic (table_view entry.old)) }
{
    if sporadic {
        put(alloc, entry, "sporadic", Value::Boolean(true))
    } else {
        Ok(())
    }
}

/// Puts an offset, unless it is 0.
fn put_offset(alloc: Global, entry: &mut Table, ticks: u64) -> Result<(), NoMemory>
    requires { ticks < 2 ^ 63 }
    ensures { OnOk result (table_view entry.new ≡ with_offset ticks (table_view entry.old)) }
{
    if ticks == 0 {
        Ok(())
    } else {
        put_number(alloc, entry, "offset", ticks)
    }
}

/// Puts the clock that a source is on, and its offset.
fn put_clock(alloc: Global, entry: &mut Table, on_clock: &Option<OnClock>) -> Result<(), NoMemory>
    requires { ForSome on_clock.now (λ o. o.offset < 2 ^ 63) }
    ensures { OnOk result (table_view entry.new ≡ with_clock on_clock.now (table_view entry.old)) }
{
    match on_clock {
        None => Ok(()),
        Some(on) => {
            put_text(alloc, entry, "clock", name_text(&on.clock))?;
            put_offset(alloc, entry, on.offset)
        }
    }
}

#[tactic(auto, unfolding(crate::specs::Printed::source_numbers_data))]
fn source_table(alloc: Global, source: &Source) -> Result<Table, NoMemory>
    requires { IsSource source.now }
    ensures { IfOk result (λ t. table_view t ≡ source_numbers_data source.now) }
{
    let mut entry = Table::new(alloc);
    put_text(alloc, &mut entry, "name", name_text(&source.name))?;
    put_number(alloc, &mut entry, "period", source.period)?;
    put_number(alloc, &mut entry, "jitter", source.jitter)?;
    put_number(alloc, &mut entry, "distance", source.distance)?;
    Ok(entry)
}

#[tactic(auto, unfolding(crate::specs::Printed::source_data))]
fn source_value(alloc: Global, source: &Source) -> Result<Value, NoMemory>
    requires { IsSource source.now }
    ensures { IfOk result (λ v. view v ≡ source_data source.now) }
{
    let mut entry = source_table(alloc, source)?;
    put_sporadic(alloc, &mut entry, source.sporadic)?;
    put_clock(alloc, &mut entry, &source.on_clock)?;
    Ok(Value::Table(entry))
}

/// The name of an activator.
fn activator_text(system: &System, after: Activator) -> &str
    requires { IsActivator system.now after }
    ensures { result.now ≡ activator_name system.now after }
{
    match after {
        Activator::Source(source) => name_text(&system.source(source).name),
        Activator::Task(earlier) => name_text(&system.task(earlier).name),
    }
}

/// The names of activators.
fn activator_values(
    alloc: Global,
    system: &System,
    after: &Activators,
) -> Result<Vec<Value>, NoMemory>
    requires { All (IsActivator system.now) after.now }
    ensures { IfOk result (λ v. map view v.items ≡ map (activator_data system.now) after.now) }
{
    let mut values = Vec::new(alloc);
    for k in 0..after.len() {
        values.push(text_value(alloc, activator_text(system, after.get(k)))?)?;
    }
    Ok(values)
}

/// One activator as a text, several as an array.
fn after_value(alloc: Global, system: &System, after: &Activators) -> Result<Value, NoMemory>
    requires { All (IsActivator system.now) after.now }
    ensures { IfOk result (λ v. view v ≡ after_data system.now after.now) }
{
    if after.len() == 1 {
        Ok(text_value(alloc, activator_text(system, after.get(0)))?)
    } else {
        Ok(Value::Array(activator_values(alloc, system, after)?))
    }
}

#[tactic(auto, unfolding(crate::specs::Printed::task_names_data))]
fn task_table(alloc: Global, system: &System, task: &Task) -> Result<Table, NoMemory>
    requires { IsTask system.now task.now }
    ensures { IfOk result (λ t. table_view t ≡ task_names_data system.now task.now) }
{
    let mut entry = Table::new(alloc);
    put_text(alloc, &mut entry, "name", name_text(&task.name))?;
    put_text(
        alloc,
        &mut entry,
        "on",
        name_text(&system.resource(task.res).name),
    )?;
    let after = after_value(alloc, system, &task.after)?;
    put(alloc, &mut entry, "after", after)?;
    Ok(entry)
}

fn put_turn(alloc: Global, entry: &mut Table, turn: Turn) -> Result<(), NoMemory>
    requires { slot_of turn < 2 ^ 63 }
    ensures { OnOk result (table_view entry.new ≡ with_turn turn (table_view entry.old)) }
{
    match turn {
        Turn::Priority(number) => put_number(alloc, entry, "priority", u64::from(number)),
        Turn::Slot(ticks) => put_number(alloc, entry, "slot", ticks),
        Turn::Queued => Ok(()),
    }
}

fn put_region(alloc: Global, entry: &mut Table, ticks: u64) -> Result<(), NoMemory>
    requires { ticks < 2 ^ 63 }
    ensures { OnOk result (table_view entry.new ≡ with_region ticks (table_view entry.old)) }
{
    if ticks == 1 {
        Ok(())
    } else {
        put_number(alloc, entry, "region", ticks)
    }
}

#[tactic(auto, unfolding(crate::specs::Printed::lock_data))]
fn lock_value(alloc: Global, section: &CriticalSection) -> Result<Value, NoMemory>
    requires { IsSection section.now }
    ensures { IfOk result (λ v. view v ≡ lock_data section.now) }
{
    let mut entry = Table::new(alloc);
    put_text(alloc, &mut entry, "name", name_text(&section.lock))?;
    put_number(alloc, &mut entry, "start", section.start)?;
    put_number(alloc, &mut entry, "length", section.length)?;
    Ok(Value::Table(entry))
}

fn lock_values(alloc: Global, sections: &[CriticalSection]) -> Result<Vec<Value>, NoMemory>
    requires { All IsSection sections.now }
    ensures { IfOk result (λ v. map view v.items ≡ map lock_data sections.now) }
{
    let mut values = Vec::new(alloc);
    for section in sections {
        values.push(lock_value(alloc, section)?)?;
    }
    Ok(values)
}

/// Puts critical sections, where there are some.
fn put_locks(alloc: Global, entry: &mut Table, sections: &[CriticalSection]) -> Result<(), NoMemory>
    requires { All IsSection sections.now }
    ensures { OnOk result (table_view entry.new ≡ with_locks sections.now (table_view entry.old)) }
{
    if sections.len() == 0 {
        return Ok(());
    }
    let values = lock_values(alloc, sections)?;
    put(alloc, entry, "locks", Value::Array(values))
}

#[tactic(auto, unfolding(crate::specs::Printed::task_data))]
fn task_value(alloc: Global, system: &System, task: &Task) -> Result<Value, NoMemory>
    requires { IsTask system.now task.now }
    ensures { IfOk result (λ v. view v ≡ task_data system.now task.now) }
{
    let mut entry = task_table(alloc, system, task)?;
    put_number(alloc, &mut entry, "best", task.best)?;
    put_number(alloc, &mut entry, "worst", task.worst)?;
    put_turn(alloc, &mut entry, task.turn)?;
    put_region(alloc, &mut entry, task.region)?;
    put_locks(alloc, &mut entry, task.locks.sections())?;
    Ok(Value::Table(entry))
}

fn put_deadline(alloc: Global, entry: &mut Table, deadline: Option<u64>) -> Result<(), NoMemory>
    requires { ForSome deadline (λ d. d < 2 ^ 63) }
    ensures { OnOk result (table_view entry.new ≡ with_deadline deadline (table_view entry.old)) }
{
    match deadline {
        None => Ok(()),
        Some(deadline) => put_number(alloc, entry, "deadline", deadline),
    }
}

/// The names of tasks.
fn name_values(alloc: Global, system: &System, tasks: &TaskList) -> Result<Vec<Value>, NoMemory>
    requires { All (λ i. i.0 < length system.now.tasks) tasks.now }
    ensures { IfOk result (λ v. map view v.items ≡ map (name_data system.now) tasks.now) }
{
    let mut values = Vec::new(alloc);
    for k in 0..tasks.len() {
        values.push(text_value(alloc, name_text(&system.task(tasks.get(k)).name))?)?;
    }
    Ok(values)
}

#[tactic(auto, unfolding(crate::specs::Printed::path_data))]
fn path_value(alloc: Global, system: &System, path: &Path) -> Result<Value, NoMemory>
    requires { IsPath system.now path.now }
    ensures { IfOk result (λ v. view v ≡ path_data system.now path.now) }
{
    let mut entry = Table::new(alloc);
    put_text(alloc, &mut entry, "name", name_text(&path.name))?;
    let names = name_values(alloc, system, &path.tasks)?;
    put(alloc, &mut entry, "tasks", Value::Array(names))?;
    put_deadline(alloc, &mut entry, path.deadline)?;
    Ok(Value::Table(entry))
}

fn resource_values(alloc: Global, system: &System) -> Result<Vec<Value>, NoMemory>
    ensures value { IfOk result (λ v. map view v.items ≡ map resource_data system.now.resources) }
    ensures rules { IsSystem system.now }
{
    let mut values = Vec::new(alloc);
    for k in 0..system.resources() {
        values.push(resource_value(alloc, system.resource(ResId(k)))?)?;
    }
    Ok(values)
}

fn source_values(alloc: Global, system: &System) -> Result<Vec<Value>, NoMemory>
    ensures { IfOk result (λ v. map view v.items ≡ map source_data system.now.sources) }
{
    let mut values = Vec::new(alloc);
    for k in 0..system.sources() {
        values.push(source_value(alloc, system.source(SourceId(k)))?)?;
    }
    Ok(values)
}

fn task_values(alloc: Global, system: &System) -> Result<Vec<Value>, NoMemory>
    ensures { IfOk result (λ v. map view v.items ≡ map (task_data system.now) system.now.tasks) }
{
    let mut values = Vec::new(alloc);
    for k in 0..system.tasks() {
        values.push(task_value(alloc, system, system.task(TaskId(k)))?)?;
    }
    Ok(values)
}

fn path_values(alloc: Global, system: &System) -> Result<Vec<Value>, NoMemory>
    ensures { IfOk result (λ v. map view v.items ≡ map (path_data system.now) system.now.paths) }
{
    let mut values = Vec::new(alloc);
    for k in 0..system.paths() {
        values.push(path_value(alloc, system, system.path(PathId(k)))?)?;
    }
    Ok(values)
}

/// Whether each task has one activator.
fn have_one(system: &System) -> bool
    ensures { result ≡ list_all has_one system.now.tasks }
{
    for k in 0..system.tasks() {
        if system.task(TaskId(k)).after.len() != 1 {
            return false;
        }
    }
    true
}

/// The least format that can say a system of its size: no small one has a region, a queue or ceilings.
fn format_of(system: &System) -> u64
    ensures { result ≡ format_of system.now }
{
    match system.size() {
        Size::Small => { if have_one(system) { 1 } else { 2 } }
        Size::Large => 4,
    }
}

/// The document of a system.
#[tactic(auto, unfolding(crate::specs::Printed::system_data))]
fn system_table(alloc: Global, system: &System) -> Result<Table, NoMemory>
    ensures value { IfOk result (λ t. table (table_view t) ≡ system_data system.now) }
    ensures rules { OnOk result (IsSystem system.now) }
{
    let mut document = Table::new(alloc);
    put_number(alloc, &mut document, "format", format_of(system))?;
    put(
        alloc,
        &mut document,
        "resource",
        Value::Array(resource_values(alloc, system)?),
    )?;
    put(
        alloc,
        &mut document,
        "source",
        Value::Array(source_values(alloc, system)?),
    )?;
    put(
        alloc,
        &mut document,
        "task",
        Value::Array(task_values(alloc, system)?),
    )?;
    put(
        alloc,
        &mut document,
        "path",
        Value::Array(path_values(alloc, system)?),
    )?;
    Ok(document)
}

/// The bytes of a system's document.
fn print_document(alloc: Global, system: &System) -> Result<Vec<u8>, NoMemory>
    ensures printed { IfOk result (λ v. IsPrinted system.now v.items) }
    ensures rules { OnOk result (IsSystem system.now) }
{
    let document = system_table(alloc, system)?;
    match toml::table_to_string(alloc, &document) {
        Ok(text) => Ok(Vec::from_slice(alloc, text.as_str().as_bytes())?),
        Err(Error::OutOfMemory) => Err(NoMemory),
        Err(Error::DateInvalid) => unreachable!(),
    }
}

/// The bytes of a file that stands for the system. Executions are printed as `best` and `worst`; the layout is that of
/// `toml`'s printer.
pub fn print_system(alloc: Global, system: &System) -> Result<Vec<u8>, NoMemory>
    ensures read_back { IfOk result (λ v. reading_of v.items ≡ Accepted system.now) }
    ensures printed { IfOk result (λ v. IsPrinted system.now v.items) }
{
    Ok(print_document(alloc, system)?)
}

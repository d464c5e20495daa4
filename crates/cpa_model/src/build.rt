//! From a draft to the system that it stands for.

ghost use Rattle.std.specs.Prelude.{◌≡◌, ◌<◌, ◌≤◌, ◌^◌, All, map, length, option_map, unwrap_or, Some, None, true, false, not, IfOk, IfErr};
ghost use Rattle.cpa_units.specs.declared.limits.TheConstants.{MAX_BIT};
ghost use Rattle.cpa_units.specs.Name.{is_name};
ghost use Rattle.cpa_draft.specs.declared.draft.DraftResource.{DraftResource};
ghost use Rattle.cpa_draft.specs.declared.draft.DraftSource.{DraftSource};
ghost use Rattle.cpa_draft.specs.declared.draft.DraftTask.{DraftTask};
ghost use Rattle.cpa_draft.specs.declared.draft.DraftPath.{DraftPath};
ghost use Rattle.cpa_draft.specs.declared.draft.DraftLock.{DraftLock};
ghost use Rattle.cpa_draft.specs.Numbers.{nat_of, nat_or};
ghost use Rattle.cpa_draft.specs.Names.{AreTables, kind_of};
ghost use Rattle.cpa_draft.specs.Validated.{Validates};
ghost use Rattle.cpa_draft.specs.declared.ports.TheConstants.{MAX_RATE};
ghost use Rattle.cpa_draft.specs.Refusals.{has_clock_name, first_refusal};
ghost use Rattle.cpa_draft.specs.declared.refusal.BuildFault.TheVariants.{Memory};
ghost use Rattle.cpa_model.specs.declared.activators.TheConstants.{MAX_ACTIVATORS};
ghost use Rattle.cpa_model.specs.declared.entries.Task.{Task};
ghost use Rattle.cpa_model.specs.Built.{built_kind, built_resource, built_on_clock, built_source, built_task, built_path, built_turn, built_section, built_activator, activity_place, task_named, least_execution, greatest_execution, most_frame, has_executions, TaskFitsTypes, PathFitsTypes, system_of};
ghost use Rattle.cpa_model.specs.Redraft.{OwnDraftsAreAccepted, OwnDraftsStand};

use crate::activators::Activators;
use crate::entries::{Activator, Kind, OnClock, Path, Resource, Source, Task, TaskList, Turn};
use crate::locks::{CriticalSection, Locks};
use crate::system::System;
use cpa_draft::{
    BuildFault, Draft, DraftLock, DraftPath, DraftResource, DraftSource, DraftTask, KindWord, Raw,
    Tables, natural, natural_or, port_ticks, validate,
};
use cpa_units::limits::DEFAULT_LIMIT;
use cpa_units::{Name, NameFault, NoMemory, ResId, SourceId, TaskId, frame_bits};
use std::alloc::Global;

fn build_name(alloc: Global, raw: &Raw) -> Result<Name, BuildFault>
    requires { is_name raw.now ≡ true }
    ensures ok { IfOk result (λ name. name ≡ raw.now) }
    ensures err { IfErr result (λ e. e ≡ Memory) }
{
    match Name::read(alloc, raw.bytes()) {
        Ok(name) => Ok(name),
        Err(NameFault::Memory) => Err(BuildFault::Memory),
        Err(NameFault::Form) => unreachable!(),
    }
}

fn build_kind(kind: KindWord, gap: Option<i64>, bit: Option<i64>) -> Kind
    ensures { result ≡ built_kind kind gap bit }
{
    match kind {
        KindWord::Preemptive => Kind::Preemptive,
        KindWord::RoundRobin => Kind::RoundRobin,
        KindWord::Tdma => Kind::Tdma {
            gap: natural_or(0, gap),
        },
        KindWord::Can => Kind::Can {
            bit: natural_or(1, bit),
        },
        KindWord::Fifo => Kind::Fifo,
        KindWord::Ceiling => Kind::Ceiling,
    }
}

fn build_resource(alloc: Global, draft: &DraftResource) -> Result<Resource, BuildFault>
    requires { is_name draft.now.name ≡ true }
    ensures ok { IfOk result (λ r. r ≡ built_resource draft.now) }
    ensures err { IfErr result (λ e. e ≡ Memory) }
{
    Ok(Resource {
        name: build_name(alloc, &draft.name)?,
        kind: build_kind(draft.kind, draft.gap, draft.bit),
        limit: natural_or(DEFAULT_LIMIT, draft.limit),
    })
}

fn build_on_clock(
    alloc: Global,
    clock: &Option<Raw>,
    offset: Option<i64>,
) -> Result<Option<OnClock>, BuildFault>
    requires { has_clock_name clock.now ≡ true }
    ensures ok { IfOk result (λ on. on ≡ built_on_clock clock.now offset) }
    ensures err { IfErr result (λ e. e ≡ Memory) }
{
    match clock {
        None => Ok(None),
        Some(name) => Ok(Some(OnClock {
            clock: build_name(alloc, name)?,
            offset: natural_or(0, offset),
        })),
    }
}

fn build_source(alloc: Global, draft: &DraftSource) -> Result<Source, BuildFault>
    requires name { is_name draft.now.name ≡ true }
    requires clock { has_clock_name draft.now.clock ≡ true }
    ensures ok { IfOk result (λ r. r ≡ built_source draft.now) }
    ensures err { IfErr result (λ e. e ≡ Memory) }
{
    Ok(Source {
        name: build_name(alloc, &draft.name)?,
        period: natural(draft.period),
        jitter: natural_or(0, draft.jitter),
        distance: natural_or(0, draft.distance),
        sporadic: draft.sporadic,
        on_clock: build_on_clock(alloc, &draft.clock, draft.offset)?,
    })
}

fn activity_place(draft: &Draft, tables: &Tables, name: &[u8]) -> usize
    requires { AreTables draft.now tables.now.resources tables.now.activities }
    ensures { result ≡ activity_place draft.now name.now }
{
    tables.activity(draft, name).unwrap_or(0)
}

fn build_activator(draft: &Draft, tables: &Tables, name: &[u8]) -> Activator
    requires tables { AreTables draft.now tables.now.resources tables.now.activities }
    requires place { activity_place draft.now name.now < 2 ^ 32 }
    ensures { result ≡ built_activator draft.now name.now }
{
    let sources = draft.source_entries().len();
    let place = activity_place(draft, tables, name);
    if place < sources {
        Activator::Source(SourceId(place as u32))
    } else {
        Activator::Task(TaskId((place - sources) as u32))
    }
}

fn build_activators(draft: &Draft, tables: &Tables, names: &[Raw]) -> Activators
    requires tables { AreTables draft.now tables.now.resources tables.now.activities }
    requires some { 0 < length names.now }
    requires few { length names.now ≤ MAX_ACTIVATORS }
    requires places { All (λ name. activity_place draft.now name < 2 ^ 32) names.now }
    ensures { result ≡ map (built_activator draft.now) names.now }
{
    let mut built = Activators::one(build_activator(draft, tables, names[0].bytes()));
    for k in 1..names.len() {
        built.push(build_activator(draft, tables, names[k].bytes()));
    }
    built
}

/// The least and the greatest execution: that of a frame where there is a payload, else as given.
fn build_executions(kind: Option<KindWord>, task: &DraftTask, bit: u64, rate: u64) -> (u64, u64)
    requires payload { nat_or 0 task.now.payload ≤ most_frame kind }
    requires bit { bit ≤ MAX_BIT }
    requires some_rate { 1 ≤ rate }
    requires rate { rate ≤ MAX_RATE }
    ensures least { result.0 ≡ least_execution kind task.now.payload (unwrap_or task.now.extended false) bit rate (nat_or 0 task.now.best) }
    ensures greatest { result.1 ≡ greatest_execution kind task.now.payload (unwrap_or task.now.extended false) bit rate (nat_or 0 task.now.worst) }
{
    match (task.payload, kind) {
        (None, _) => (natural_or(0, task.best), natural_or(0, task.worst)),
        (Some(payload), Some(KindWord::Fifo)) => port_ticks(natural(payload), rate),
        (Some(payload), _) => {
            let (least, greatest) = frame_bits(natural(payload), task.extended.unwrap_or(false));
            (least * bit, greatest * bit)
        }
    }
}

fn build_turn(kind: Option<KindWord>, task: &DraftTask) -> Turn
    requires { nat_or 0 task.now.priority < 2 ^ 32 }
    ensures { result ≡ built_turn kind task.now }
{
    match kind {
        Some(KindWord::Preemptive | KindWord::Can | KindWord::Ceiling) => {
            Turn::Priority(natural_or(0, task.priority) as u32)
        }
        Some(KindWord::Fifo) => Turn::Queued,
        _ => Turn::Slot(natural_or(0, task.slot)),
    }
}

fn build_section(alloc: Global, draft: &DraftLock) -> Result<CriticalSection, BuildFault>
    requires { is_name draft.now.name ≡ true }
    ensures ok { IfOk result (λ c. c ≡ built_section draft.now) }
    ensures err { IfErr result (λ e. e ≡ Memory) }
{
    Ok(CriticalSection {
        lock: build_name(alloc, &draft.name)?,
        start: natural(draft.start),
        length: natural(draft.length),
    })
}

fn build_sections(alloc: Global, drafts: &[DraftLock]) -> Result<Vec<CriticalSection>, BuildFault>
    requires { All (λ (l : DraftLock). is_name l.name ≡ true) drafts.now }
    ensures ok { IfOk result (λ v. v.items ≡ map built_section drafts.now) }
    ensures err { IfErr result (λ e. e ≡ Memory) }
{
    let mut built = Vec::new(alloc);
    for draft in drafts {
        built.push(build_section(alloc, draft)?)?;
    }
    Ok(built)
}

fn build_locks(alloc: Global, drafts: &[DraftLock]) -> Result<Locks, BuildFault>
    requires { All (λ (l : DraftLock). is_name l.name ≡ true) drafts.now }
    ensures ok { IfOk result (λ l. l ≡ map built_section drafts.now) }
    ensures err { IfErr result (λ e. e ≡ Memory) }
{
    if drafts.is_empty() {
        return Ok(Locks::none());
    }
    Ok(Locks::new(build_sections(alloc, drafts)?))
}

fn build_task(
    alloc: Global,
    draft: &Draft,
    tables: &Tables,
    task: &DraftTask,
) -> Result<Task, BuildFault>
    requires tables { AreTables draft.now tables.now.resources tables.now.activities }
    requires named { is_name task.now.name ≡ true }
    requires locks { All (λ (l : DraftLock). is_name l.name ≡ true) task.now.locks }
    requires fits { TaskFitsTypes draft.now task.now }
    ensures ok { IfOk result (λ t. t ≡ built_task draft.now task.now) }
    ensures err { IfErr result (λ e. e ≡ Memory) }
{
    let name = build_name(alloc, &task.name)?;
    let locks = build_locks(alloc, task.locks.sections())?;
    let found = tables.resource(draft, task.on.bytes());
    let place = found.unwrap_or(0);
    let kind = draft.kind_of(found);
    let (best, worst) = build_executions(kind, task, draft.bit_at(place), draft.rate_at(place));
    Ok(Task {
        name,
        res: ResId(place as u32),
        best,
        worst,
        turn: build_turn(kind, task),
        after: build_activators(draft, tables, task.after.names()),
        region: natural_or(1, task.region),
        locks,
    })
}

/// The place of the task with a name.
fn task_named(draft: &Draft, tables: &Tables, name: &[u8]) -> TaskId
    requires tables { AreTables draft.now tables.now.resources tables.now.activities }
    requires place { activity_place draft.now name.now < 2 ^ 32 }
    ensures { result ≡ task_named draft.now name.now }
{
    let place = activity_place(draft, tables, name);
    TaskId(place.saturating_sub(draft.source_entries().len()) as u32)
}

fn build_path_tasks(
    alloc: Global,
    draft: &Draft,
    tables: &Tables,
    names: &[Raw],
) -> Result<Vec<TaskId>, BuildFault>
    requires tables { AreTables draft.now tables.now.resources tables.now.activities }
    requires places { All (λ name. activity_place draft.now name < 2 ^ 32) names.now }
    ensures ok { IfOk result (λ v. v.items ≡ map (task_named draft.now) names.now) }
    ensures err { IfErr result (λ e. e ≡ Memory) }
{
    let mut built = Vec::new(alloc);
    for name in names {
        built.push(task_named(draft, tables, name.bytes()))?;
    }
    Ok(built)
}

fn build_deadline(deadline: Option<i64>) -> Option<u64>
    ensures { result ≡ option_map nat_of deadline }
{
    match deadline {
        None => None,
        Some(ticks) => Some(natural(ticks)),
    }
}

fn build_path(
    alloc: Global,
    draft: &Draft,
    tables: &Tables,
    path: &DraftPath,
) -> Result<Path, BuildFault>
    requires tables { AreTables draft.now tables.now.resources tables.now.activities }
    requires named { is_name path.now.name ≡ true }
    requires fits { PathFitsTypes draft.now path.now }
    ensures ok { IfOk result (λ p. p ≡ built_path draft.now path.now) }
    ensures err { IfErr result (λ e. e ≡ Memory) }
{
    let name = build_name(alloc, &path.name)?;
    let tasks = build_path_tasks(alloc, draft, tables, path.tasks.names())?;
    Ok(Path {
        name,
        tasks: TaskList::new(tasks),
        deadline: build_deadline(path.deadline),
    })
}

fn build_resources(alloc: Global, drafts: &[DraftResource]) -> Result<Vec<Resource>, BuildFault>
    requires { All (λ (r : DraftResource). is_name r.name ≡ true) drafts.now }
    ensures ok { IfOk result (λ v. v.items ≡ map built_resource drafts.now) }
    ensures err { IfErr result (λ e. e ≡ Memory) }
{
    let mut built = Vec::new(alloc);
    for draft in drafts {
        built.push(build_resource(alloc, draft)?)?;
    }
    Ok(built)
}

fn build_sources(alloc: Global, drafts: &[DraftSource]) -> Result<Vec<Source>, BuildFault>
    requires named { All (λ (r : DraftSource). is_name r.name ≡ true) drafts.now }
    requires clocks { All (λ (r : DraftSource). has_clock_name r.clock ≡ true) drafts.now }
    ensures ok { IfOk result (λ v. v.items ≡ map built_source drafts.now) }
    ensures err { IfErr result (λ e. e ≡ Memory) }
{
    let mut built = Vec::new(alloc);
    for draft in drafts {
        built.push(build_source(alloc, draft)?)?;
    }
    Ok(built)
}

fn build_tasks(
    alloc: Global,
    draft: &Draft,
    tables: &Tables,
    tasks: &[DraftTask],
) -> Result<Vec<Task>, BuildFault>
    requires tables { AreTables draft.now tables.now.resources tables.now.activities }
    requires named { All (λ (t : DraftTask). is_name t.name ≡ true) tasks.now }
    requires locks { All (λ (t : DraftTask). All (λ (l : DraftLock). is_name l.name ≡ true) t.locks) tasks.now }
    requires fits { All (TaskFitsTypes draft.now) tasks.now }
    ensures ok { IfOk result (λ v. v.items ≡ map (built_task draft.now) tasks.now) }
    ensures err { IfErr result (λ e. e ≡ Memory) }
{
    let mut built = Vec::new(alloc);
    for task in tasks {
        built.push(build_task(alloc, draft, tables, task)?)?;
    }
    Ok(built)
}

fn build_paths(
    alloc: Global,
    draft: &Draft,
    tables: &Tables,
    paths: &[DraftPath],
) -> Result<Vec<Path>, BuildFault>
    requires tables { AreTables draft.now tables.now.resources tables.now.activities }
    requires named { All (λ (p : DraftPath). is_name p.name ≡ true) paths.now }
    requires fits { All (PathFitsTypes draft.now) paths.now }
    ensures ok { IfOk result (λ v. v.items ≡ map (built_path draft.now) paths.now) }
    ensures err { IfErr result (λ e. e ≡ Memory) }
{
    let mut built = Vec::new(alloc);
    for path in paths {
        built.push(build_path(alloc, draft, tables, path)?)?;
    }
    Ok(built)
}

/// The system of a draft that isn't refused.
fn build_validated(alloc: Global, draft: &Draft, tables: &Tables) -> Result<System, BuildFault>
    requires tables { AreTables draft.now tables.now.resources tables.now.activities }
    requires refusal { first_refusal draft.now ≡ None }
    requires executions { All (λ t. has_executions t ≡ true) draft.now.tasks }
    ensures ok { IfOk result (λ s. s ≡ system_of draft.now) }
    ensures err { IfErr result (λ e. e ≡ Memory) }
{
    let resources = build_resources(alloc, draft.resource_entries())?;
    let sources = build_sources(alloc, draft.source_entries())?;
    let tasks = build_tasks(alloc, draft, tables, draft.task_entries())?;
    let paths = build_paths(alloc, draft, tables, draft.path_entries())?;
    match System::of_lists(alloc, draft.size(), resources, sources, tasks, paths) {
        Ok(system) => Ok(system),
        Err(NoMemory) => Err(BuildFault::Memory),
    }
}

impl System {
    /// The system that a draft stands for. It is refused exactly where one of reasons 2 to 12 and 14 to 16 applies, with
    /// the first of them and its first place.
    pub fn build(alloc: Global, draft: Draft) -> Result<System, BuildFault>
        requires executions { All (λ t. has_executions t ≡ true) draft.tasks }
        ensures refused { Validates result (first_refusal draft) }
        ensures ok { IfOk result (λ s. s ≡ system_of draft) }
    {
        let tables = validate(alloc, &draft)?;
        build_validated(alloc, &draft, &tables)
    }
}

/// The draft that says the same as a system isn't refused, and stands for the system.
pub fn own_drafts_have_laws()
    ensures accepted { OwnDraftsAreAccepted }
    ensures stand { OwnDraftsStand }
{}

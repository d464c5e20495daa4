//! What the words ask for, with the files that they name.

ghost use Rattle.std.specs.Prelude.{◌≡◌, ◌<◌, ◌≤◌, true, map, string_bytes, length, IfOk, IfErr};
ghost use Rattle.cpa_edit.specs.Script.{script_of, AreNamed};
ghost use Rattle.cpa_audit.specs.ScheduleReading.{schedule_of};
ghost use Rattle.cpa_assign.specs.Orders.{IsOrderable};
ghost use Rattle.cpa_words.specs.Words.{Analyse, Session, Simulate, Hammer, Assign, Slack, Buffers, Audit, AreWorkers, AreTraces, IsWithin};
ghost use Rattle.cpa_words.specs.Commands.{asked};
ghost use Rattle.cpa_call.specs.Ends.{IsEndOf, HasStatus, IsUnreadFile, IsNoUnread};
ghost use Rattle.cpa_call.specs.Plans.{Do, IsSecond};
ghost use Rattle.cpa_run.specs.Plan.{script_by, script_in, schedule_by, schedule_in, orderable_in, task_in, plan_for, plan_of};
ghost use Rattle.cpa_run.specs.Request.{IsWithinLimits};
ghost use Rattle.cpa_run.specs.Output.{IsNamed, IsThird, IsUnreadCall};

use crate::lines::{assign_line, schedule_line, script_line, slack_line};
use crate::request::Request;
use cpa_assign::{can_compare, is_fed_by_sources};
use cpa_audit::{Schedule, ScheduleFault, read_schedule};
use cpa_call::calls::{refuse_words, refused_by};
use cpa_call::errors::InputError;
use cpa_call::loading::{load_file, load_system, load_traced};
use cpa_call::statuses;
use cpa_edit::{Script, ScriptFault, read_script};
use cpa_io::Files;
use cpa_model::System;
use cpa_units::limits::{MAX_SCRIPT_FILE, MAX_TRACE_FILE};
use cpa_units::{ResId, TaskId};
use cpa_words::{Command, accept};
use std::alloc::Global;

/// The script that the bytes of a file are.
fn read_script_file(alloc: Global, bytes: &[u8]) -> Result<Script, InputError>
    ensures planned { IfOk result (λ steps. script_by (script_of bytes.now) ≡ Do steps) }
    ensures named { IfOk result AreNamed }
    ensures ended { IfErr result (IsEndOf (script_by (script_of bytes.now))) }
    ensures status { IfErr result HasStatus }
    ensures unread { IfErr result IsNoUnread }
{
    match read_script(alloc, bytes) {
        Ok(script) => Ok(script),
        Err(ScriptFault::Memory) => Err(InputError::Memory),
        Err(fault) => Err(refused_by(statuses::SCRIPT_REFUSED, script_line(alloc, fault)?)),
    }
}

/// The script that a file is.
fn load_script<F: Files>(alloc: Global, files: &mut F, file: &str) -> Result<Script, InputError>
    ensures planned { F.told files.old ≡ true → IfOk result (λ steps. script_in (F.held files.old) file.now ≡ Do steps) }
    ensures named { IfOk result AreNamed }
    ensures ended { F.told files.old ≡ true → IfErr result (IsEndOf (script_in (F.held files.old) file.now)) }
    ensures status { IfErr result HasStatus }
    ensures unread { IfErr result (IsUnreadFile (λ last. last ≡ file.now) (F.faults files.old) (F.faults files.new) (F.last_failed files.new)) }
    ensures rises { F.faults files.old ≤ F.faults files.new }
{
    let bytes = load_file(alloc, files, file, MAX_SCRIPT_FILE)?;
    read_script_file(alloc, bytes.as_slice())
}

/// The schedule that the bytes of a file are.
fn read_schedule_file(alloc: Global, system: &System, bytes: &[u8]) -> Result<Schedule, InputError>
    ensures planned { IfOk result (λ schedule. schedule_by (schedule_of system.now bytes.now) ≡ Do schedule) }
    ensures ended { IfErr result (IsEndOf (schedule_by (schedule_of system.now bytes.now))) }
    ensures status { IfErr result HasStatus }
    ensures unread { IfErr result IsNoUnread }
{
    match read_schedule(alloc, system, bytes) {
        Ok(schedule) => Ok(schedule),
        Err(ScheduleFault::Memory) => Err(InputError::Memory),
        Err(fault) => Err(refused_by(statuses::SCHEDULE_REFUSED, schedule_line(alloc, fault)?)),
    }
}

/// The schedule that a file is, which is no longer than a trace's.
fn load_schedule<F: Files>(
    alloc: Global,
    files: &mut F,
    system: &System,
    file: &str,
) -> Result<Schedule, InputError>
    ensures planned { F.told files.old ≡ true → IfOk result (λ schedule. schedule_in (F.held files.old) system.now file.now ≡ Do schedule) }
    ensures ended { F.told files.old ≡ true → IfErr result (IsEndOf (schedule_in (F.held files.old) system.now file.now)) }
    ensures status { IfErr result HasStatus }
    ensures unread { IfErr result (IsUnreadFile (λ last. last ≡ file.now) (F.faults files.old) (F.faults files.new) (F.last_failed files.new)) }
    ensures rises { F.faults files.old ≤ F.faults files.new }
{
    let bytes = load_file(alloc, files, file, MAX_TRACE_FILE)?;
    read_schedule_file(alloc, system, bytes.as_slice())
}

/// A session's work.
fn plan_session<F: Files>(
    alloc: Global,
    files: &mut F,
    file: &str,
    script: &str,
    workers: u32,
) -> Result<Request, InputError>
    requires { AreWorkers workers }
    ensures planned { F.told files.old ≡ true → IfOk result (λ work. plan_for (F.held files.old) (Session file.now script.now workers) ≡ Do work) }
    ensures limits { IfOk result IsWithinLimits }
    ensures ended { F.told files.old ≡ true → IfErr result (IsEndOf (plan_for (F.held files.old) (Session file.now script.now workers))) }
    ensures status { IfErr result HasStatus }
    ensures unread { IfErr result (IsUnreadFile (IsSecond (F.told files.old) (F.held files.old) file.now script.now) (F.faults files.old) (F.faults files.new) (F.last_failed files.new)) }
{
    let system = load_system(alloc, files, file)?;
    let script = load_script(alloc, files, script)?;
    Ok(Request::Session {
        system,
        script,
        workers,
    })
}

/// A simulation's work.
fn plan_simulation<F: Files>(
    alloc: Global,
    files: &mut F,
    file: &str,
    trace: &str,
) -> Result<Request, InputError>
    ensures planned { F.told files.old ≡ true → IfOk result (λ work. plan_for (F.held files.old) (Simulate file.now trace.now) ≡ Do work) }
    ensures limits { IfOk result IsWithinLimits }
    ensures ended { F.told files.old ≡ true → IfErr result (IsEndOf (plan_for (F.held files.old) (Simulate file.now trace.now))) }
    ensures status { IfErr result HasStatus }
    ensures unread { IfErr result (IsUnreadFile (IsSecond (F.told files.old) (F.held files.old) file.now trace.now) (F.faults files.old) (F.faults files.new) (F.last_failed files.new)) }
{
    let traced = load_traced(alloc, files, file, trace)?;
    Ok(Request::Simulate {
        system: traced.system,
        trace: traced.trace,
    })
}

/// An analysis's work.
fn plan_analysis<F: Files>(
    alloc: Global,
    files: &mut F,
    file: &str,
    workers: u32,
) -> Result<Request, InputError>
    requires { AreWorkers workers }
    ensures planned { F.told files.old ≡ true → IfOk result (λ work. plan_for (F.held files.old) (Analyse file.now workers) ≡ Do work) }
    ensures limits { IfOk result IsWithinLimits }
    ensures ended { F.told files.old ≡ true → IfErr result (IsEndOf (plan_for (F.held files.old) (Analyse file.now workers))) }
    ensures status { IfErr result HasStatus }
    ensures unread { IfErr result (IsUnreadFile (λ last. last ≡ file.now) (F.faults files.old) (F.faults files.new) (F.last_failed files.new)) }
{
    let system = load_system(alloc, files, file)?;
    Ok(Request::Analyse { system, workers })
}

/// A hammering's work.
fn plan_hammering<F: Files>(
    alloc: Global,
    files: &mut F,
    file: &str,
    number: u64,
    traces: u64,
) -> Result<Request, InputError>
    requires { AreTraces traces }
    ensures planned { F.told files.old ≡ true → IfOk result (λ work. plan_for (F.held files.old) (Hammer file.now number traces) ≡ Do work) }
    ensures limits { IfOk result IsWithinLimits }
    ensures ended { F.told files.old ≡ true → IfErr result (IsEndOf (plan_for (F.held files.old) (Hammer file.now number traces))) }
    ensures status { IfErr result HasStatus }
    ensures unread { IfErr result (IsUnreadFile (λ last. last ≡ file.now) (F.faults files.old) (F.faults files.new) (F.last_failed files.new)) }
{
    let system = load_system(alloc, files, file)?;
    Ok(Request::Hammer {
        system,
        number,
        traces,
    })
}

/// The resource of a name, which can be given an order.
fn find_resource(alloc: Global, system: &System, name: &str) -> Result<ResId, InputError>
    ensures planned { IfOk result (λ r. orderable_in system.now name.now ≡ Do r) }
    ensures able { IfOk result (λ r. IsOrderable system.now r.0) }
    ensures ended { IfErr result (IsEndOf (orderable_in system.now name.now)) }
    ensures status { IfErr result HasStatus }
    ensures unread { IfErr result IsNoUnread }
{
    let Some(res) = system.find_resource(name.as_bytes()) else {
        return Err(refused_by(statuses::NAME_REFUSED, assign_line(alloc, 1)?));
    };
    if !system.resource(res).kind.has_priorities() {
        return Err(refused_by(statuses::NAME_REFUSED, assign_line(alloc, 2)?));
    }
    if !is_fed_by_sources(system, res) {
        return Err(refused_by(statuses::NAME_REFUSED, assign_line(alloc, 3)?));
    }
    if !can_compare(system, res) {
        return Err(refused_by(statuses::NAME_REFUSED, assign_line(alloc, 4)?));
    }
    Ok(res)
}

/// The task of a name.
fn find_task(alloc: Global, system: &System, name: &str) -> Result<TaskId, InputError>
    ensures planned { IfOk result (λ i. task_in system.now name.now ≡ Do i) }
    ensures there { IfOk result (λ i. i.0 < length system.now.tasks) }
    ensures ended { IfErr result (IsEndOf (task_in system.now name.now)) }
    ensures status { IfErr result HasStatus }
    ensures unread { IfErr result IsNoUnread }
{
    match system.find_task(name.as_bytes()) {
        Some(task) => Ok(task),
        None => Err(refused_by(statuses::NAME_REFUSED, slack_line(alloc)?)),
    }
}

/// The work of a priority order.
fn plan_assigning<F: Files>(
    alloc: Global,
    files: &mut F,
    file: &str,
    resource: &str,
) -> Result<Request, InputError>
    ensures planned { F.told files.old ≡ true → IfOk result (λ work. plan_for (F.held files.old) (Assign file.now resource.now) ≡ Do work) }
    ensures limits { IfOk result IsWithinLimits }
    ensures ended { F.told files.old ≡ true → IfErr result (IsEndOf (plan_for (F.held files.old) (Assign file.now resource.now))) }
    ensures status { IfErr result HasStatus }
    ensures unread { IfErr result (IsUnreadFile (λ last. last ≡ file.now) (F.faults files.old) (F.faults files.new) (F.last_failed files.new)) }
{
    let system = load_system(alloc, files, file)?;
    let res = find_resource(alloc, &system, resource)?;
    Ok(Request::Assign { system, res })
}

/// The work of a slack.
fn plan_slack<F: Files>(
    alloc: Global,
    files: &mut F,
    file: &str,
    task: &str,
    workers: u32,
) -> Result<Request, InputError>
    requires { AreWorkers workers }
    ensures planned { F.told files.old ≡ true → IfOk result (λ work. plan_for (F.held files.old) (Slack file.now task.now workers) ≡ Do work) }
    ensures limits { IfOk result IsWithinLimits }
    ensures ended { F.told files.old ≡ true → IfErr result (IsEndOf (plan_for (F.held files.old) (Slack file.now task.now workers))) }
    ensures status { IfErr result HasStatus }
    ensures unread { IfErr result (IsUnreadFile (λ last. last ≡ file.now) (F.faults files.old) (F.faults files.new) (F.last_failed files.new)) }
{
    let system = load_system(alloc, files, file)?;
    let task = find_task(alloc, &system, task)?;
    Ok(Request::Slack {
        system,
        task,
        workers,
    })
}

/// The work of bounds on the jobs that wait.
fn plan_buffers<F: Files>(
    alloc: Global,
    files: &mut F,
    file: &str,
    trace: &str,
    workers: u32,
) -> Result<Request, InputError>
    requires { AreWorkers workers }
    ensures planned { F.told files.old ≡ true → IfOk result (λ work. plan_for (F.held files.old) (Buffers file.now trace.now workers) ≡ Do work) }
    ensures limits { IfOk result IsWithinLimits }
    ensures ended { F.told files.old ≡ true → IfErr result (IsEndOf (plan_for (F.held files.old) (Buffers file.now trace.now workers))) }
    ensures status { IfErr result HasStatus }
    ensures unread { IfErr result (IsUnreadFile (IsSecond (F.told files.old) (F.held files.old) file.now trace.now) (F.faults files.old) (F.faults files.new) (F.last_failed files.new)) }
{
    let traced = load_traced(alloc, files, file, trace)?;
    Ok(Request::Buffers {
        system: traced.system,
        trace: traced.trace,
        workers,
    })
}

/// An audit's work.
fn plan_audit<F: Files>(
    alloc: Global,
    files: &mut F,
    file: &str,
    trace: &str,
    schedule: &str,
) -> Result<Request, InputError>
    ensures planned { F.told files.old ≡ true → IfOk result (λ work. plan_for (F.held files.old) (Audit file.now trace.now schedule.now) ≡ Do work) }
    ensures limits { IfOk result IsWithinLimits }
    ensures ended { F.told files.old ≡ true → IfErr result (IsEndOf (plan_for (F.held files.old) (Audit file.now trace.now schedule.now))) }
    ensures status { IfErr result HasStatus }
    ensures unread { IfErr result (IsUnreadFile (IsThird (F.told files.old) (F.held files.old) file.now trace.now schedule.now) (F.faults files.old) (F.faults files.new) (F.last_failed files.new)) }
{
    let traced = load_traced(alloc, files, file, trace)?;
    let schedule = load_schedule(alloc, files, &traced.system, schedule)?;
    Ok(Request::Audit {
        system: traced.system,
        trace: traced.trace,
        schedule,
    })
}

/// What a command asks for.
pub fn plan_command<F: Files>(
    alloc: Global,
    files: &mut F,
    command: Command,
) -> Result<Request, InputError>
    requires { IsWithin (asked command) }
    ensures planned { F.told files.old ≡ true → IfOk result (λ work. plan_for (F.held files.old) (asked command.entry) ≡ Do work) }
    ensures limits { IfOk result IsWithinLimits }
    ensures ended { F.told files.old ≡ true → IfErr result (IsEndOf (plan_for (F.held files.old) (asked command.entry))) }
    ensures status { IfErr result HasStatus }
    ensures unread { IfErr result (IsUnreadFile (IsNamed (F.told files.old) (F.held files.old) (asked command.entry)) (F.faults files.old) (F.faults files.new) (F.last_failed files.new)) }
{
    match command {
        Command::Analyse { file, workers } => plan_analysis(alloc, files, file, workers),
        Command::Session {
            file,
            script,
            workers,
        } => plan_session(alloc, files, file, script, workers),
        Command::Simulate { file, trace } => plan_simulation(alloc, files, file, trace),
        Command::Generate { number, size } => Ok(Request::Generate { number, size }),
        Command::Load {
            number,
            size,
            workers,
        } => Ok(Request::Load {
            number,
            size,
            workers,
        }),
        Command::Hammer {
            file,
            number,
            traces,
        } => plan_hammering(alloc, files, file, number, traces),
        Command::Assign { file, resource } => plan_assigning(alloc, files, file, resource),
        Command::Slack {
            file,
            task,
            workers,
        } => plan_slack(alloc, files, file, task, workers),
        Command::Buffers {
            file,
            trace,
            workers,
        } => plan_buffers(alloc, files, file, trace, workers),
        Command::Audit {
            file,
            trace,
            schedule,
        } => plan_audit(alloc, files, file, trace, schedule),
    }
}

/// What the words ask for, with the files that they name.
pub fn plan<F: Files>(alloc: Global, words: &[String], files: &mut F) -> Result<Request, InputError>
    ensures planned { F.told files.old ≡ true → IfOk result (λ work. plan_of (map string_bytes words.now) (F.held files.old) ≡ Do work) }
    ensures limits { IfOk result IsWithinLimits }
    ensures ended { F.told files.old ≡ true → IfErr result (IsEndOf (plan_of (map string_bytes words.now) (F.held files.old))) }
    ensures status { IfErr result HasStatus }
    ensures unread { IfErr result (IsUnreadCall (map string_bytes words.now) (F.told files.old) (F.held files.old) (F.faults files.old) (F.faults files.new) (F.last_failed files.new)) }
{
    match accept(alloc, words)? {
        Some(command) => plan_command(alloc, files, command),
        None => Err(refuse_words(alloc)),
    }
}

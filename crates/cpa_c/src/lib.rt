//! The functions of lokwurmi.h.
#![tactic(auto)]

ghost use Rattle.std.specs.Prelude.{◌≡◌, ◌≢◌, ◌==◌, not, [], codes, length, None, IfOk, IfSome, IsErr, IsSome, IsUtf8};
ghost use Rattle.std.specs.Result.{IsOkAnd};
ghost use Rattle.cpa_edit.specs.Script.{script_of};
ghost use Rattle.cpa_call.specs.Plans.{system_in};
ghost use Rattle.cpa_segments.specs.Calls as segments;
ghost use Rattle.cpa_effects.specs.Calls as effects;
ghost use Rattle.cpa_effect_files.specs.Calls as chained;
ghost use Rattle.cpa_words.specs.Words.{Analyse, Session, Simulate, Generate, Hammer, Assign, Slack, Buffers, Audit, AreTraces, IsNumber, IsSize, IsWithin};
ghost use Rattle.cpa_words.specs.Commands.{asked};
ghost use Rattle.cpa_run.specs.Answers.{IsReport};
ghost use Rattle.cpa_run.specs.Plan.{plan_for};
ghost use Rattle.cpa_run.specs.Output.{IsAnswerTo};
ghost use Rattle.cpa_memory.specs.Given.{over};
ghost use Rattle.cpa_memory.specs.Held.{held_in, held_of};
ghost use Rattle.cpa_memory.specs.Words.{schedule_words, chain_call, chains_words};
ghost use Rattle.cpa_kept.specs.Kept.{kept_in, edit_in, IsOpened, IsEdited};
ghost use Rattle.cpa_kept.specs.Numbers.{TellsNumbers, latencies_of};
ghost use Rattle.cpa_c.specs.Given.{Gives, GivesNothing};

#[cfg(test)]
mod tests;

use cpa_call::errors::Reply;
use cpa_call::statuses;
use cpa_kept::{Handle, Told};
use cpa_memory::{SCHEDULE, SCRIPT, SYSTEM, TRACE, Texts, call};
use cpa_units::NoMemory;
use cpa_units::limits::{MAX_NUMBER, MAX_SIZE, MAX_TRACES};
use cpa_words::Command;
use std::alloc::Global;

/// Memory is out.
const NO_MEMORY: u8 = statuses::OUT_OF_MEMORY;

/// A number that is out of its range, a name that is no text, or a handle that isn't open.
const REFUSED: u8 = statuses::WORDS_REFUSED;

/// Copies a text to the beginning of a buffer, as far as there is room.
fn put(text: &[u8], out: &mut [u8])
    ensures { out.new ≡ over text.now out.old }
{
    let count = text.len().min(out.len());
    out[..count].copy_from_slice(&text[..count]);
}

/// Gives a reply to the caller.
fn give(reply: Result<Reply, NoMemory>, out: &mut [u8], used: &mut usize) -> u8
    requires { IfOk reply (λ r. r.status ≢ 30) }
    ensures wanting { result ≡ 30 → GivesNothing out.old out.new used.new }
    ensures failed { result ≡ 30 → IsErr reply }
    ensures told { result ≢ 30 → IsOkAnd reply (λ r. (result ≡ r.status) × (used.new ≡ length r.text.items) × (out.new ≡ over r.text.items out.old)) }
{
    match reply {
        Ok(reply) => {
            put(reply.text.as_slice(), out);
            *used = reply.text.len();
            reply.status
        }
        Err(NoMemory) => {
            *used = 0;
            NO_MEMORY
        }
    }
}

/// Gives the answer to a command over texts.
fn answer(alloc: Global, command: Command, texts: Texts, out: &mut [u8], used: &mut usize) -> u8
    requires { IsWithin (asked command) }
    ensures told { result ≢ 30 → Gives (IsAnswerTo (plan_for (held_in texts.entry) (asked command.entry))) result out.old out.new used.new }
    ensures wanting { result ≡ 30 → GivesNothing out.old out.new used.new }
{
    give(call(alloc, command, texts), out, used)
}

/// Says that nothing is given, where a number is out of its range, a name is no text, or a handle isn't open.
fn refuse(used: &mut usize) -> u8
    ensures status { result ≡ 10 }
    ensures used { used.new ≡ 0 }
{
    *used = 0;
    REFUSED
}

/// The version of these functions: it rises where one of them changes or is added.
#[unsafe(no_mangle)]
pub extern "C" fn lokwurmi_version() -> u32
    ensures { result ≡ 2 }
{
    2
}

/// The report of a system, or the line by which its file is refused.
#[unsafe(no_mangle)]
pub extern "C" fn lokwurmi_analyse(
    alloc: Global,
    system: &[u8],
    out: &mut [u8],
    used: &mut usize,
) -> u8
    ensures told { result ≢ 30 → Gives (IsAnswerTo (plan_for (held_of system.now [] [] [] []) (Analyse (codes "system") 1))) result out.old out.new used.new }
    ensures wanting { result ≡ 30 → GivesNothing out.old out.new used.new }
{
    let texts = Texts {
        system,
        script: b"",
        trace: b"",
        schedule: b"",
        chains: b"",
    };
    let command = Command::Analyse {
        file: SYSTEM,
        workers: 1,
    };
    answer(alloc, command, texts, out, used)
}

/// The reports of a system under a script, and a line for each edit that is refused.
#[unsafe(no_mangle)]
pub extern "C" fn lokwurmi_session(
    alloc: Global,
    system: &[u8],
    script: &[u8],
    out: &mut [u8],
    used: &mut usize,
) -> u8
    ensures told { result ≢ 30 → Gives (IsAnswerTo (plan_for (held_of system.now script.now [] [] []) (Session (codes "system") (codes "script") 1))) result out.old out.new used.new }
    ensures wanting { result ≡ 30 → GivesNothing out.old out.new used.new }
{
    let texts = Texts {
        system,
        script,
        trace: b"",
        schedule: b"",
        chains: b"",
    };
    let command = Command::Session {
        file: SYSTEM,
        script: SCRIPT,
        workers: 1,
    };
    answer(alloc, command, texts, out, used)
}

/// What is observed of a system under a trace.
#[unsafe(no_mangle)]
pub extern "C" fn lokwurmi_simulate(
    alloc: Global,
    system: &[u8],
    trace: &[u8],
    out: &mut [u8],
    used: &mut usize,
) -> u8
    ensures told { result ≢ 30 → Gives (IsAnswerTo (plan_for (held_of system.now [] trace.now [] []) (Simulate (codes "system") (codes "trace")))) result out.old out.new used.new }
    ensures wanting { result ≡ 30 → GivesNothing out.old out.new used.new }
{
    let texts = Texts {
        system,
        script: b"",
        trace,
        schedule: b"",
        chains: b"",
    };
    let command = Command::Simulate {
        file: SYSTEM,
        trace: TRACE,
    };
    answer(alloc, command, texts, out, used)
}

/// How many jobs of a system wait under a trace, and how many can.
#[unsafe(no_mangle)]
pub extern "C" fn lokwurmi_buffers(
    alloc: Global,
    system: &[u8],
    trace: &[u8],
    out: &mut [u8],
    used: &mut usize,
) -> u8
    ensures told { result ≢ 30 → Gives (IsAnswerTo (plan_for (held_of system.now [] trace.now [] []) (Buffers (codes "system") (codes "trace") 1))) result out.old out.new used.new }
    ensures wanting { result ≡ 30 → GivesNothing out.old out.new used.new }
{
    let texts = Texts {
        system,
        script: b"",
        trace,
        schedule: b"",
        chains: b"",
    };
    let command = Command::Buffers {
        file: SYSTEM,
        trace: TRACE,
        workers: 1,
    };
    answer(alloc, command, texts, out, used)
}

/// Whether a schedule is that of a system under a trace.
#[unsafe(no_mangle)]
pub extern "C" fn lokwurmi_audit(
    alloc: Global,
    system: &[u8],
    trace: &[u8],
    schedule: &[u8],
    out: &mut [u8],
    used: &mut usize,
) -> u8
    ensures told { result ≢ 30 → Gives (IsAnswerTo (plan_for (held_of system.now [] trace.now schedule.now []) (Audit (codes "system") (codes "trace") (codes "schedule")))) result out.old out.new used.new }
    ensures wanting { result ≡ 30 → GivesNothing out.old out.new used.new }
{
    let texts = Texts {
        system,
        script: b"",
        trace,
        schedule,
        chains: b"",
    };
    let command = Command::Audit {
        file: SYSTEM,
        trace: TRACE,
        schedule: SCHEDULE,
    };
    answer(alloc, command, texts, out, used)
}

/// The file of the system that is generated from a seed and a size, which are in their ranges; else the status is 10.
#[unsafe(no_mangle)]
pub extern "C" fn lokwurmi_generate(
    alloc: Global,
    number: u64,
    size: u64,
    out: &mut [u8],
    used: &mut usize,
) -> u8
    ensures told { IsNumber number → IsSize size → result ≢ 30 → Gives (IsAnswerTo (plan_for (held_of [] [] [] [] []) (Generate number size))) result out.old out.new used.new }
    ensures refused { ¬ (IsNumber number × IsSize size) → (result ≡ 10) × GivesNothing out.old out.new used.new }
    ensures wanting { result ≡ 30 → GivesNothing out.old out.new used.new }
{
    if number > MAX_NUMBER || size > MAX_SIZE {
        return refuse(used);
    }
    let texts = Texts {
        system: b"",
        script: b"",
        trace: b"",
        schedule: b"",
        chains: b"",
    };
    let command = Command::Generate {
        number,
        size: size as u32,
    };
    answer(alloc, command, texts, out, used)
}

/// What is observed of a system under so many generated traces of a number, which are in their ranges; else the status is 10.
#[unsafe(no_mangle)]
pub extern "C" fn lokwurmi_hammer(
    alloc: Global,
    system: &[u8],
    number: u64,
    traces: u64,
    out: &mut [u8],
    used: &mut usize,
) -> u8
    ensures told { IsNumber number → AreTraces traces → result ≢ 30 → Gives (IsAnswerTo (plan_for (held_of system.now [] [] [] []) (Hammer (codes "system") number traces))) result out.old out.new used.new }
    ensures refused { ¬ (IsNumber number × AreTraces traces) → (result ≡ 10) × GivesNothing out.old out.new used.new }
    ensures wanting { result ≡ 30 → GivesNothing out.old out.new used.new }
{
    if number > MAX_NUMBER || traces < 1 || traces > MAX_TRACES {
        return refuse(used);
    }
    let texts = Texts {
        system,
        script: b"",
        trace: b"",
        schedule: b"",
        chains: b"",
    };
    let command = Command::Hammer {
        file: SYSTEM,
        number,
        traces,
    };
    answer(alloc, command, texts, out, used)
}

/// A priority order of the resource with a name under which its tasks meet their deadlines, or that there is none. Where the name is no text the status is 10.
#[unsafe(no_mangle)]
pub extern "C" fn lokwurmi_assign(
    alloc: Global,
    system: &[u8],
    resource: &[u8],
    out: &mut [u8],
    used: &mut usize,
) -> u8
    ensures told { IsUtf8 resource.now → result ≢ 30 → Gives (IsAnswerTo (plan_for (held_of system.now [] [] [] []) (Assign (codes "system") resource.now))) result out.old out.new used.new }
    ensures refused { ¬ (IsUtf8 resource.now) → (result ≡ 10) × GivesNothing out.old out.new used.new }
    ensures wanting { result ≡ 30 → GivesNothing out.old out.new used.new }
{
    let Ok(name) = std::str::from_utf8(resource) else {
        return refuse(used);
    };
    let texts = Texts {
        system,
        script: b"",
        trace: b"",
        schedule: b"",
        chains: b"",
    };
    let command = Command::Assign {
        file: SYSTEM,
        resource: name,
    };
    answer(alloc, command, texts, out, used)
}

/// By how much the task with a name may grow while all deadlines are met. Where the name is no text the status is 10.
#[unsafe(no_mangle)]
pub extern "C" fn lokwurmi_slack(
    alloc: Global,
    system: &[u8],
    task: &[u8],
    out: &mut [u8],
    used: &mut usize,
) -> u8
    ensures told { IsUtf8 task.now → result ≢ 30 → Gives (IsAnswerTo (plan_for (held_of system.now [] [] [] []) (Slack (codes "system") task.now 1))) result out.old out.new used.new }
    ensures refused { ¬ (IsUtf8 task.now) → (result ≡ 10) × GivesNothing out.old out.new used.new }
    ensures wanting { result ≡ 30 → GivesNothing out.old out.new used.new }
{
    let Ok(name) = std::str::from_utf8(task) else {
        return refuse(used);
    };
    let texts = Texts {
        system,
        script: b"",
        trace: b"",
        schedule: b"",
        chains: b"",
    };
    let command = Command::Slack {
        file: SYSTEM,
        task: name,
        workers: 1,
    };
    answer(alloc, command, texts, out, used)
}

/// The segments of the run of a system under a trace.
#[unsafe(no_mangle)]
pub extern "C" fn lokwurmi_schedule(
    alloc: Global,
    system: &[u8],
    trace: &[u8],
    out: &mut [u8],
    used: &mut usize,
) -> u8
    ensures told { result ≢ 30 → Gives (segments.IsOutput schedule_words (held_of system.now [] trace.now [] [])) result out.old out.new used.new }
    ensures wanting { result ≡ 30 → GivesNothing out.old out.new used.new }
{
    let texts = Texts {
        system,
        script: b"",
        trace,
        schedule: b"",
        chains: b"",
    };
    give(cpa_memory::schedule(alloc, texts), out, used)
}

/// Bounds on the reaction time and the data age of a chain of tasks, named by the lines of a text, each of which is a name. Where that
/// is no text, or a line begins with a hyphen, the status is 10.
#[unsafe(no_mangle)]
pub extern "C" fn lokwurmi_chain(
    alloc: Global,
    system: &[u8],
    tasks: &[u8],
    while_running: u8,
    out: &mut [u8],
    used: &mut usize,
) -> u8
    ensures told { IsUtf8 tasks.now → result ≢ 30 → Gives (effects.IsOutputOf (chain_call tasks.now (not (while_running == 0))) (held_of system.now [] [] [] [])) result out.old out.new used.new }
    ensures refused { ¬ (IsUtf8 tasks.now) → (result ≡ 10) × GivesNothing out.old out.new used.new }
    ensures wanting { result ≡ 30 → GivesNothing out.old out.new used.new }
{
    let Ok(names) = std::str::from_utf8(tasks) else {
        return refuse(used);
    };
    let texts = Texts {
        system,
        script: b"",
        trace: b"",
        schedule: b"",
        chains: b"",
    };
    give(
        cpa_memory::chain(alloc, texts, names, while_running != 0),
        out,
        used,
    )
}

/// The bounds of the chains in a text, with the verdicts on their deadlines.
#[unsafe(no_mangle)]
pub extern "C" fn lokwurmi_chains(
    alloc: Global,
    system: &[u8],
    chains: &[u8],
    out: &mut [u8],
    used: &mut usize,
) -> u8
    ensures told { result ≢ 30 → Gives (chained.IsOutput chains_words (held_of system.now [] [] [] chains.now)) result out.old out.new used.new }
    ensures wanting { result ≡ 30 → GivesNothing out.old out.new used.new }
{
    let texts = Texts {
        system,
        script: b"",
        trace: b"",
        schedule: b"",
        chains,
    };
    give(cpa_memory::chains(alloc, texts), out, used)
}

/// Opens a closed handle on a system. Where the system is refused, or memory is out, it stays closed.
#[unsafe(no_mangle)]
pub extern "C" fn lokwurmi_open(
    alloc: Global,
    handle: &mut Handle,
    system: &[u8],
    out: &mut [u8],
    used: &mut usize,
) -> u8
    ensures told { kept_in handle.old ≡ None → result ≢ 30 → Gives (IsOpened (system_in (held_of system.now [] [] [] []) (codes "system")) (kept_in handle.new)) result out.old out.new used.new }
    ensures refused { IsSome (kept_in handle.old) → (result ≡ 10) × GivesNothing out.old out.new used.new × (kept_in handle.new ≡ kept_in handle.old) }
    ensures wanting { result ≡ 30 → GivesNothing out.old out.new used.new × (kept_in handle.new ≡ kept_in handle.old) }
{
    if handle.is_open() {
        return refuse(used);
    }
    give(cpa_kept::open(alloc, handle, system), out, used)
}

/// Makes one edit of the system that a handle keeps, and analyses what it reaches. Where the text isn't one edit, the edit breaks a
/// rule, or memory is out, the session is as before.
#[unsafe(no_mangle)]
pub extern "C" fn lokwurmi_edit(
    alloc: Global,
    handle: &mut Handle,
    edit: &[u8],
    out: &mut [u8],
    used: &mut usize,
) -> u8
    ensures told { IfSome (kept_in handle.old) (λ s. result ≢ 30 → Gives (IsEdited s (edit_in (script_of edit.now)) (kept_in handle.new)) result out.old out.new used.new) }
    ensures refused { kept_in handle.old ≡ None → (result ≡ 10) × GivesNothing out.old out.new used.new × (kept_in handle.new ≡ kept_in handle.old) }
    ensures wanting { result ≡ 30 → GivesNothing out.old out.new used.new × (kept_in handle.new ≡ kept_in handle.old) }
{
    if !handle.is_open() {
        return refuse(used);
    }
    give(cpa_kept::edit(alloc, handle, edit), out, used)
}

/// The worst-case response times of the tasks of the system that a handle keeps, and the verdict on it.
#[unsafe(no_mangle)]
pub extern "C" fn lokwurmi_bounds(
    alloc: Global,
    handle: &mut Handle,
    bounds: &mut [u64],
    used: &mut usize,
) -> u8
    ensures told { IfSome (kept_in handle.old) (λ s. TellsNumbers s (λ x. x) result bounds.old bounds.new used.new) }
    ensures refused { kept_in handle.old ≡ None → (result ≡ 10) × GivesNothing bounds.old bounds.new used.new }
    ensures unchanged { kept_in handle.new ≡ kept_in handle.old }
{
    if !handle.is_open() {
        return refuse(used);
    }
    let Told { status, count } = cpa_kept::bounds(alloc, handle, bounds);
    *used = count;
    status
}

/// The worst-case latencies of the paths of the system that a handle keeps, and the verdict on it.
#[unsafe(no_mangle)]
pub extern "C" fn lokwurmi_latencies(
    alloc: Global,
    handle: &mut Handle,
    latencies: &mut [u64],
    used: &mut usize,
) -> u8
    ensures told { IfSome (kept_in handle.old) (λ s. TellsNumbers s (latencies_of s) result latencies.old latencies.new used.new) }
    ensures refused { kept_in handle.old ≡ None → (result ≡ 10) × GivesNothing latencies.old latencies.new used.new }
    ensures unchanged { kept_in handle.new ≡ kept_in handle.old }
{
    if !handle.is_open() {
        return refuse(used);
    }
    let Told { status, count } = cpa_kept::latencies(alloc, handle, latencies);
    *used = count;
    status
}

/// The report of the system that a handle keeps.
#[unsafe(no_mangle)]
pub extern "C" fn lokwurmi_report(
    alloc: Global,
    handle: &mut Handle,
    out: &mut [u8],
    used: &mut usize,
) -> u8
    ensures told { IfSome (kept_in handle.old) (λ s. result ≢ 30 → Gives (IsReport s) result out.old out.new used.new) }
    ensures refused { kept_in handle.old ≡ None → (result ≡ 10) × GivesNothing out.old out.new used.new }
    ensures wanting { result ≡ 30 → GivesNothing out.old out.new used.new }
    ensures unchanged { kept_in handle.new ≡ kept_in handle.old }
{
    if !handle.is_open() {
        return refuse(used);
    }
    give(cpa_kept::report(alloc, handle), out, used)
}

/// Closes a handle, and frees what it owns.
#[unsafe(no_mangle)]
pub extern "C" fn lokwurmi_close(alloc: Global, handle: &mut Handle)
    ensures { kept_in handle.new ≡ None }
{
    cpa_kept::close(alloc, handle)
}

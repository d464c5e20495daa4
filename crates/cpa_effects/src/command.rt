//! The program's one call: a file and the names of tasks in, the bounds of the chain out.

ghost use Rattle.std.specs.Prelude.{◌≡◌, ◌<◌, ◌≤◌, ◌∷◌, [], ◌++◌, true, length, map, All, IfOk, IfErr, OnOk, string_bytes};
ghost use Rattle.cpa_units.specs.declared.limits.TheConstants.{MAX_CHAIN};
ghost use Rattle.cpa_local.specs.Solution.{least_of};
ghost use Rattle.cpa_call.specs.Answers.{SendsPart};
ghost use Rattle.cpa_call.specs.Calls.{MeetsCall, loaded, sent};
ghost use Rattle.cpa_call.specs.Ends.{IsEndOf, HasStatus, IsUnreadFile, IsNoUnread};
ghost use Rattle.cpa_call.specs.Plans.{Do};
ghost use Rattle.cpa_effects.specs.Calls.{chain_refused, refused_at, chain_of, chain_by, plan_for, plan_of, call_of, IsOutput, IsOutputOf, IsUnread, IsUnreadCall};
ghost use Rattle.cpa_effects.specs.ChainText.{chain_text, chain_status};

use crate::steps::Reading;
use crate::text::{chain_text, status};
use crate::words::{accept, read_request};
use cpa_call::calls::{refuse_words, refused_by, send_end, send_reply, status_of};
use cpa_call::errors::{InputError, Reply};
use cpa_call::loading::load_system;
use cpa_call::statuses;
use cpa_fix::{OneByOne, least_bounds};
use cpa_io::{Files, Sink};
use cpa_model::System;
use cpa_text::Text;
use cpa_units::{NoMemory, TaskId};
use std::alloc::Global;

/// A chain of tasks of a system.
#[derive(Drop)]
pub(crate) struct Chained {
    pub(crate) system: System,
    pub(crate) tasks: Vec<TaskId>,
}

/// The line where no task has the name in a place.
fn chain_line(alloc: Global, place: u64) -> Result<Vec<u8>, NoMemory>
    ensures { IfOk result (λ v. v.items ≡ chain_refused place) }
{
    let mut text = Text::new(alloc);
    text.put_count(b"chain refused ", place)?;
    text.put(b"\n")?;
    Ok(text.into_bytes())
}

/// How a call ends where no task has the name in a place.
fn refuse(alloc: Global, place: u64) -> InputError
    ensures ended { IsEndOf (refused_at place) result }
    ensures status { HasStatus result }
    ensures unread { IsNoUnread result }
{
    match chain_line(alloc, place) {
        Ok(text) => refused_by(statuses::NAME_REFUSED, text),
        Err(NoMemory) => InputError::Memory,
    }
}

fn push_task(tasks: &mut Vec<TaskId>, task: TaskId) -> Result<(), NoMemory>
    ensures { OnOk result (tasks.new.items ≡ tasks.old.items ++ task ∷ []) }
{
    tasks.push(task)?;
    Ok(())
}

/// The tasks with these names.
fn find_tasks(alloc: Global, system: &System, names: &[String]) -> Result<Vec<TaskId>, InputError>
    ensures planned { IfOk result (λ v. chain_by system.now (map string_bytes names.now) ≡ Do (record { system = system.now; tasks = v.items })) }
    ensures long { IfOk result (λ v. length v.items ≡ length names.now) }
    ensures there { IfOk result (λ v. All (λ (i : TaskId). i.0 < length system.now.tasks) v.items) }
    ensures ended { IfErr result (IsEndOf (chain_by system.now (map string_bytes names.now))) }
    ensures status { IfErr result HasStatus }
    ensures unread { IfErr result IsNoUnread }
{
    let mut tasks = Vec::new(alloc);
    for k in 0..names.len() {
        match system.find_task(names[k].as_bytes()) {
            Some(task) => push_task(&mut tasks, task)?,
            None => return Err(refuse(alloc, k as u64 + 1)),
        }
    }
    Ok(tasks)
}

/// The chain of tasks with these names, of the system that a file stands for.
fn load_chain<F: Files>(
    alloc: Global,
    files: &mut F,
    file: &str,
    names: &[String],
) -> Result<Chained, InputError>
    ensures planned { F.told files.old ≡ true → IfOk result (λ c. plan_for (F.held files.old) (record { file = file.now; tasks = map string_bytes names.now }) ≡ Do (chain_of c)) }
    ensures long { IfOk result (λ c. length c.tasks.items ≡ length names.now) }
    ensures there { IfOk result (λ c. All (λ (i : TaskId). i.0 < length c.system.tasks) c.tasks.items) }
    ensures ended { F.told files.old ≡ true → IfErr result (IsEndOf (plan_for (F.held files.old) (record { file = file.now; tasks = map string_bytes names.now }))) }
    ensures status { IfErr result HasStatus }
    ensures unread { IfErr result (IsUnreadFile (λ last. last ≡ file.now) (F.faults files.old) (F.faults files.new) (F.last_failed files.new)) }
{
    let system = load_system(alloc, files, file)?;
    let tasks = find_tasks(alloc, &system, names)?;
    Ok(Chained { system, tasks })
}

/// The chain that the words name.
fn plan<F: Files>(alloc: Global, words: &[String], files: &mut F) -> Result<Chained, InputError>
    ensures planned { F.told files.old ≡ true → IfOk result (λ c. plan_of (map string_bytes words.now) (F.held files.old) ≡ Do (chain_of c)) }
    ensures some { IfOk result (λ c. 0 < length c.tasks.items) }
    ensures few { IfOk result (λ c. length c.tasks.items ≤ MAX_CHAIN) }
    ensures there { IfOk result (λ c. All (λ (i : TaskId). i.0 < length c.system.tasks) c.tasks.items) }
    ensures ended { F.told files.old ≡ true → IfErr result (IsEndOf (plan_of (map string_bytes words.now) (F.held files.old))) }
    ensures status { IfErr result HasStatus }
    ensures unread { IfErr result (IsUnreadCall (map string_bytes words.now) (F.faults files.old) (F.faults files.new) (F.last_failed files.new)) }
{
    match accept(words) {
        Some(named) => load_chain(alloc, files, named.file, named.tasks),
        None => Err(refuse_words(alloc)),
    }
}

/// The bounds of a chain at the least solution, with their status.
fn judge_chain(
    alloc: Global,
    reading: Reading,
    system: &System,
    tasks: &[TaskId],
) -> Result<Reply, NoMemory>
    requires some { 0 < length tasks.now }
    requires few { length tasks.now ≤ MAX_CHAIN }
    requires there { All (λ (i : TaskId). i.0 < length system.now.tasks) tasks.now }
    ensures text { IfOk result (λ r. r.text.items ≡ chain_text reading system.now (least_of system.now) tasks.now) }
    ensures status { IfOk result (λ r. r.status ≡ chain_status reading system.now (least_of system.now) tasks.now) }
    ensures small { IfOk result (λ r. r.status ≤ 2) }
{
    let bounds = least_bounds(&(), alloc, system, &mut OneByOne)?;
    let text = chain_text(alloc, reading, system, &bounds, tasks)?;
    Ok(Reply {
        status: status(reading, system, &bounds, tasks),
        text,
    })
}

/// Writes the bounds on reaction time and data age of a chain of tasks, at the least solution, where jobs read so, and
/// answers the status.
///
/// The words are the system file, and 1 to 32 names of tasks, none of which is empty or begins with a hyphen. The statuses:
/// 0 with the bounds sent; 2 where one of them is missing; 10, 12 to 14 and 18 a refusal, 11 a file that couldn't be read,
/// each with its line sent; 20 a fault of the sink; 30 out of memory.
pub fn write_chain_by<F: Files, K: Sink>(
    alloc: Global,
    reading: Reading,
    words: &[String],
    files: &mut F,
    sink: &mut K,
) -> u8
    // What every call owes: its status and what it sent.
    ensures { MeetsCall
        (IsOutputOf (record { reading = reading; words = map string_bytes words.now }) (F.held files.old))
        (SendsPart (IsOutputOf (record { reading = reading; words = map string_bytes words.now }) (F.held files.old)))
        (IsUnread (map string_bytes words.now) (F.faults files.old) (F.faults files.new) (F.last_failed files.new))
        (loaded (F.told files.old) (F.faults files.old) (F.faults files.new) (F.last_failed files.new))
        (sent (K.sent sink.old) (K.sent sink.new) (K.faults sink.old) (K.faults sink.new))
        result }
{
    match plan(alloc, words, files) {
        Ok(chained) => status_of(send_reply(
            sink,
            judge_chain(alloc, reading, &chained.system, chained.tasks.as_slice()),
        )),
        Err(end) => status_of(send_end(sink, end)),
    }
}

/// The same, where the words also say when jobs read: before or after the others `--while-running` may stand once, which
/// presumes that jobs read only while they run.
pub fn write_chain<F: Files, K: Sink>(
    alloc: Global,
    words: &[String],
    files: &mut F,
    sink: &mut K,
) -> u8
    ensures { MeetsCall
        (IsOutput (map string_bytes words.now) (F.held files.old))
        (SendsPart (IsOutput (map string_bytes words.now) (F.held files.old)))
        (IsUnread (call_of (map string_bytes words.now)).words (F.faults files.old) (F.faults files.new) (F.last_failed files.new))
        (loaded (F.told files.old) (F.faults files.old) (F.faults files.new) (F.last_failed files.new))
        (sent (K.sent sink.old) (K.sent sink.new) (K.faults sink.old) (K.faults sink.new))
        result }
{
    let request = read_request(words);
    write_chain_by(alloc, request.reading, request.words, files, sink)
}

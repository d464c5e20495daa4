//! The program's one call: words in, a text out.

ghost use Rattle.std.specs.Prelude.{map, string_bytes};
ghost use Rattle.cpa_call.specs.Calls.{MeetsCall, loaded, sent};
ghost use Rattle.cpa_run.specs.Plan.{plan_of};
ghost use Rattle.cpa_run.specs.Session.{SessionsEndEdited};
ghost use Rattle.cpa_run.specs.Output.{IsOutput, SendsSome, IsUnread, OutputsExist, OutputsAreOne};

use crate::loading::plan;
use crate::performing::perform;
use cpa_call::calls::{send_end, status_of};
use cpa_fix::Round;
use cpa_io::{Files, Sink};
use cpa_workers::{Gate, NoGate, Shared};
use std::alloc::Global;
use std::thread::Threads;

/// Does what the words ask for, and answers the status.
///
/// The words are those after the program's name. The statuses: 0 to 2 the verdict of a report or a summary, 3 where no
/// order meets or a deadline is missed already, 4 where a schedule isn't that of the run, 0 besides for what has none;
/// 10 and 12 to 19 a refusal, 11 a file that
/// couldn't be read, each with its line sent; 20 a fault of the sink; 30 out of memory.
pub fn run<H: Threads + Sync, F: Files, K: Sink>(
    rt: &H,
    alloc: Global,
    words: &[String],
    files: &mut F,
    sink: &mut K,
) -> u8
where
    Shared<NoGate>: Round<H>,
    // What every call owes: its status and what it sent.
    ensures { MeetsCall
        (IsOutput (map string_bytes words.now) (F.held files.old))
        (SendsSome (plan_of (map string_bytes words.now) (F.held files.old)))
        (IsUnread (map string_bytes words.now) (F.told files.old) (F.held files.old) (F.faults files.old) (F.faults files.new) (F.last_failed files.new))
        (loaded (F.told files.old) (F.faults files.old) (F.faults files.new) (F.last_failed files.new))
        (sent (K.sent sink.old) (K.sent sink.new) (K.faults sink.old) (K.faults sink.new))
        result }
{
    run_with(rt, alloc, words, files, sink, NoGate)
}

/// The same, where each worker passes a gate before each analysis. The rounds of `analyse`, `session`, `load`,
/// `slack` and `buffers` are those of `Shared`, by as many workers as the words ask for; the gate, and the order in which workers run,
/// are in no answer.
pub fn run_with<H: Threads + Sync, F: Files, K: Sink, G: Gate>(
    rt: &H,
    alloc: Global,
    words: &[String],
    files: &mut F,
    sink: &mut K,
    gate: G,
) -> u8
where
    Shared<G>: Round<H>,
    // What every call owes: its status and what it sent.
    ensures { MeetsCall
        (IsOutput (map string_bytes words.now) (F.held files.old))
        (SendsSome (plan_of (map string_bytes words.now) (F.held files.old)))
        (IsUnread (map string_bytes words.now) (F.told files.old) (F.held files.old) (F.faults files.old) (F.faults files.new) (F.last_failed files.new))
        (loaded (F.told files.old) (F.faults files.old) (F.faults files.new) (F.last_failed files.new))
        (sent (K.sent sink.old) (K.sent sink.new) (K.faults sink.old) (K.faults sink.new))
        result }
{
    match plan(alloc, words, files) {
        Ok(work) => status_of(perform(rt, alloc, work, sink, gate)),
        Err(end) => status_of(send_end(sink, end)),
    }
}

/// Each call has an output, and one only. A session ends with the report of the system after all edits of its script.
pub fn outputs_have_laws()
    ensures exist { OutputsExist }
    ensures one { OutputsAreOne }
    ensures edited { SessionsEndEdited }
{}

//! The program's one call: two files in, a schedule out.

ghost use Rattle.std.specs.Prelude.{◌≡◌, true, map, IfOk, IfErr, string_bytes};
ghost use Rattle.cpa_sim.specs.Outcome.{CanReplay};
ghost use Rattle.cpa_call.specs.Answers.{SendsPart};
ghost use Rattle.cpa_call.specs.Calls.{MeetsCall, loaded, sent};
ghost use Rattle.cpa_call.specs.Ends.{IsEndOf, HasStatus};
ghost use Rattle.cpa_call.specs.Plans.{Do};
ghost use Rattle.cpa_call.specs.TwoFiles.{IsUnread, IsUnreadCall};
ghost use Rattle.cpa_segments.specs.Calls.{plan_of, IsOutput};
ghost use Rattle.cpa_segments.specs.Laws.{SchedulesReadBack};

use crate::writing::send_schedule;
use cpa_call::calls::{refuse_words, send_end, status_of};
use cpa_call::errors::InputError;
use cpa_call::loading::{Traced, load_traced};
use cpa_call::two_files::accept_two;
use cpa_io::{Files, Sink};
use std::alloc::Global;

/// The system and the trace that the words name.
fn plan<F: Files>(alloc: Global, words: &[String], files: &mut F) -> Result<Traced, InputError>
    ensures planned { F.told files.old ≡ true → IfOk result (λ t. plan_of (map string_bytes words.now) (F.held files.old) ≡ Do t) }
    ensures replay { IfOk result (λ t. CanReplay t.system t.trace) }
    ensures ended { F.told files.old ≡ true → IfErr result (IsEndOf (plan_of (map string_bytes words.now) (F.held files.old))) }
    ensures status { IfErr result HasStatus }
    ensures unread { IfErr result (IsUnreadCall (map string_bytes words.now) (F.told files.old) (F.held files.old) (F.faults files.old) (F.faults files.new) (F.last_failed files.new)) }
{
    match accept_two(words) {
        Some(named) => load_traced(alloc, files, named.file, named.second),
        None => Err(refuse_words(alloc)),
    }
}

/// Writes the schedule of the run of a system under a trace, and answers the status.
///
/// The words are those after the program's name: the system file and the trace, neither of which is empty or begins with a
/// hyphen. The statuses: 0 with the schedule sent; 10, 12 to 14, 16 and 17 a refusal, 11 a file that couldn't be read, each with
/// its line sent; 20 a fault of the sink; 30 out of memory.
pub fn write_schedule<F: Files, K: Sink>(
    alloc: Global,
    words: &[String],
    files: &mut F,
    sink: &mut K,
) -> u8
    // What every call owes: its status and what it sent.
    ensures { MeetsCall
        (IsOutput (map string_bytes words.now) (F.held files.old))
        (SendsPart (IsOutput (map string_bytes words.now) (F.held files.old)))
        (IsUnread (map string_bytes words.now) (F.told files.old) (F.held files.old) (F.faults files.old) (F.faults files.new) (F.last_failed files.new))
        (loaded (F.told files.old) (F.faults files.old) (F.faults files.new) (F.last_failed files.new))
        (sent (K.sent sink.old) (K.sent sink.new) (K.faults sink.old) (K.faults sink.new))
        result }
{
    match plan(alloc, words, files) {
        Ok(traced) => status_of(send_schedule(alloc, &traced.system, &traced.trace, sink)),
        Err(end) => status_of(send_end(sink, end)),
    }
}

/// What is written is read back as the segments of the run.
pub fn schedules_have_laws()
    ensures { SchedulesReadBack }
{}

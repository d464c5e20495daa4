//! One command on the calling thread, without a handle of the process, as a library offers it.

ghost use Rattle.std.specs.Prelude.{◌≡◌, true};
ghost use Rattle.cpa_io.specs.Causes.{Rose};
ghost use Rattle.cpa_words.specs.Words.{IsWithin};
ghost use Rattle.cpa_words.specs.Commands.{asked};
ghost use Rattle.cpa_call.specs.Answers.{IsOfOutput, Sends};
ghost use Rattle.cpa_run.specs.Plan.{plan_for};
ghost use Rattle.cpa_run.specs.Output.{IsAnswerTo};

use crate::loading::plan_command;
use crate::performing::perform_by;
use cpa_call::calls::{send_end, status_of};
use cpa_fix::OneByOne;
use cpa_io::{Files, Sink};
use cpa_words::Command;
use std::alloc::Global;

/// Does a command on the calling thread alone, without a handle of the process, and answers the status: what `run` does where
/// words ask for it, by one worker.
pub fn run_command<F: Files, K: Sink>(
    alloc: Global,
    command: Command,
    files: &mut F,
    sink: &mut K,
) -> u8
    requires { IsWithin (asked command) }

    // Over files that tell what they hold, status and bytes sent are those of the answer.
    ensures answered { F.told files.old ≡ true → IsOfOutput result → Sends (IsAnswerTo (plan_for (F.held files.old) (asked command.entry))) result (K.sent sink.old) (K.sent sink.new) }

    // A file couldn't be loaded, or the sink failed.
    ensures unread { result ≡ 11 → Rose (F.faults files.old) (F.faults files.new) }
    ensures unsent { result ≡ 20 → Rose (K.faults sink.old) (K.faults sink.new) }
{
    match plan_command(alloc, files, command) {
        Ok(work) => status_of(perform_by(&(), alloc, work, &mut OneByOne, sink)),
        Err(end) => status_of(send_end(sink, end)),
    }
}

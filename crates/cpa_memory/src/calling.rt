//! One call.

ghost use Rattle.std.specs.Prelude.{◌≡◌, ◌≢◌, IfOk};
ghost use Rattle.cpa_words.specs.Words.{IsWithin};
ghost use Rattle.cpa_words.specs.Commands.{asked};
ghost use Rattle.cpa_call.specs.Answers.{reply};
ghost use Rattle.cpa_run.specs.Plan.{plan_for};
ghost use Rattle.cpa_run.specs.Output.{IsAnswerTo};
ghost use Rattle.cpa_memory.specs.Held.{held_in};

use crate::texts::Texts;
use crate::written_output::Written;
use cpa_call::errors::Reply;
use cpa_call::statuses;
use cpa_run::run_command;
use cpa_units::NoMemory;
use cpa_words::Command;
use std::alloc::Global;

/// What a call answers that ended with a status and sent a text.
pub(crate) fn ended(status: u8, written: Written) -> Result<Reply, NoMemory>
    ensures reply { IfOk result (λ r. (r.status ≡ status) × (r.text ≡ written.bytes)) }
    ensures status { IfOk result (λ r. r.status ≢ 30) }
{
    if status == statuses::OUT_OF_MEMORY {
        return Err(NoMemory);
    }
    Ok(Reply {
        status,
        text: written.bytes,
    })
}

/// What a command answers over texts in memory, on the calling thread: the status and all the text that `run` sends where words
/// ask for the command and files hold the texts. The only error is that memory is out, which no status of an answer says.
pub fn call(alloc: Global, command: Command, texts: Texts) -> Result<Reply, NoMemory>
    requires { IsWithin (asked command) }
    ensures answers { IfOk result (λ r. IsAnswerTo (plan_for (held_in texts.entry) (asked command.entry)) (reply r.status r.text.items)) }
    ensures status { IfOk result (λ r. r.status ≢ 30) }
{
    let mut files = texts;
    let mut written = Written::nothing(alloc);
    let status = run_command(alloc, command, &mut files, &mut written);
    ended(status, written)
}

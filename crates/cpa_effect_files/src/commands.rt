//! The program's one call: words that begin with a command, `chain` or `chains`.

ghost use Rattle.std.specs.Prelude.{◌≡◌, map, string_bytes};
ghost use Rattle.cpa_call.specs.Answers.{SendsPart};
ghost use Rattle.cpa_call.specs.Calls.{MeetsCall, loaded, sent};
ghost use Rattle.cpa_effect_files.specs.Commands.{command_of, IsOutputOf, IsOutput, IsUnreadOf, IsUnread};

use crate::command::write_chains;
use cpa_call::calls::{refuse_words, send_end, status_of};
use cpa_effects::write_chain;
use cpa_io::{Files, Sink};
use std::alloc::Global;

/// What a word asks for.
#[derive(Clone, Copy, Debug, PartialEq, Eq)]
pub(crate) enum Command {
    /// The bounds of one chain.
    Chain,
    /// The bounds of the chains in a file.
    Chains,
    /// Nothing that is known.
    Unknown,
}

fn command_of(word: &str) -> Command
    ensures { result ≡ command_of word.now }
{
    match word {
        "chain" => Command::Chain,
        "chains" => Command::Chains,
        _ => Command::Unknown,
    }
}

/// Does what a command asks for with the words after it.
fn run_command<F: Files, K: Sink>(
    alloc: Global,
    command: Command,
    words: &[String],
    files: &mut F,
    sink: &mut K,
) -> u8
    ensures { MeetsCall
        (IsOutputOf command (map string_bytes words.now) (F.held files.old))
        (SendsPart (IsOutputOf command (map string_bytes words.now) (F.held files.old)))
        (IsUnreadOf command (map string_bytes words.now) (F.told files.old) (F.held files.old) (F.faults files.old) (F.faults files.new) (F.last_failed files.new))
        (loaded (F.told files.old) (F.faults files.old) (F.faults files.new) (F.last_failed files.new))
        (sent (K.sent sink.old) (K.sent sink.new) (K.faults sink.old) (K.faults sink.new))
        result }
{
    match command {
        Command::Chain => write_chain(alloc, words, files, sink),
        Command::Chains => write_chains(alloc, words, files, sink),
        Command::Unknown => status_of(send_end(sink, refuse_words(alloc))),
    }
}

/// Does what words ask for that begin with a command: `chain`, which `cpa_effects::write_chain` answers, or `chains`, which
/// `write_chains` does, each from the words after it. Other words have the status 10.
pub fn run_chains<F: Files, K: Sink>(
    alloc: Global,
    words: &[String],
    files: &mut F,
    sink: &mut K,
) -> u8
    // What every call owes: its status and what it sent.
    ensures { MeetsCall
        (IsOutput (map string_bytes words.now) (F.held files.old))
        (SendsPart (IsOutput (map string_bytes words.now) (F.held files.old)))
        (IsUnread (map string_bytes words.now) (F.told files.old) (F.held files.old) (F.faults files.old) (F.faults files.new) (F.last_failed files.new))
        (loaded (F.told files.old) (F.faults files.old) (F.faults files.new) (F.last_failed files.new))
        (sent (K.sent sink.old) (K.sent sink.new) (K.faults sink.old) (K.faults sink.new))
        result }
{
    match words {
        [] => status_of(send_end(sink, refuse_words(alloc))),
        [command, others @ ..] => run_command(
            alloc,
            command_of(command.as_str()),
            others,
            files,
            sink,
        ),
    }
}

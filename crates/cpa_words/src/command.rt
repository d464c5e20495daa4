//! Commands: what the words ask for.

ghost use Rattle.std.specs.Prelude.{◌≡◌, ◌≤◌, true, IfOk, IfSome, List, ℕ, Option, map, option_map, string_bytes};
ghost use Rattle.cpa_words.specs.Words.{AcceptedAreWithin, AreWorkers, IsSize, IsWithin, Sorted, accepted, asked_by, asked_for, is_regular, operands_of, words_of, workers_of};
ghost use Rattle.cpa_words.specs.Numbers.{number_within};
ghost use Rattle.cpa_words.specs.Commands.{AreFound, IsFoundIf, asked};
ghost use Rattle.cpa_words.specs.declared.verb.Verb.TheVariants as verbs;

use crate::guard::is_regular;
use crate::numbers::number_within;
use crate::reading::{Operands, read_words};
use crate::verb::Verb;
use cpa_units::NoMemory;
use cpa_units::limits::{MAX_NUMBER, MAX_SIZE, MAX_TRACES, MAX_WORKERS};
use std::alloc::Global;

/// What accepted words ask for.
#[derive(Clone, Copy, Debug, PartialEq, Eq)]
pub enum Command<'a> {
    /// The report of a system, by 1 to 64 workers.
    Analyse {
        file: &'a str,
        workers: u32,
    },
    /// The reports of a system under a script, by 1 to 64 workers.
    Session {
        file: &'a str,
        script: &'a str,
        workers: u32,
    },
    /// What is observed of a system under a trace.
    Simulate {
        file: &'a str,
        trace: &'a str,
    },
    /// The system that is generated from a seed below 2^32 and a size of at most 128.
    Generate {
        number: u64,
        size: u32,
    },
    /// The summary of such a system's analysis, by 1 to 64 workers.
    Load {
        number: u64,
        size: u32,
        workers: u32,
    },
    /// What is observed of a system under 1 to 10,000 traces that are generated from a seed below 2^32.
    Hammer {
        file: &'a str,
        number: u64,
        traces: u64,
    },
    /// A priority order of a resource of a system.
    Assign {
        file: &'a str,
        resource: &'a str,
    },
    /// By how much a task of a system may grow, by 1 to 64 workers.
    Slack {
        file: &'a str,
        task: &'a str,
        workers: u32,
    },
    /// How many jobs of a system wait under a trace, and how many can, by 1 to 64 workers.
    Buffers {
        file: &'a str,
        trace: &'a str,
        workers: u32,
    },
    /// Whether a schedule is that of a system under a trace.
    Audit {
        file: &'a str,
        trace: &'a str,
        schedule: &'a str,
    },
}

/// The number of workers, 1 where it isn't given.
fn workers_of(value: Option<&str>) -> Option<u32>
    ensures value { result ≡ workers_of (option_map (λ s. s.now) value.entry) }
    ensures within { IfSome result AreWorkers }
{
    match value {
        None => Some(1),
        Some(word) => Some(number_within(word, 1, MAX_WORKERS)? as u32),
    }
}

/// The size of a generated system.
fn size_of(word: &str) -> Option<u32>
    ensures value { result ≡ number_within 0 MAX_SIZE word.now }
    ensures within { IfSome result IsSize }
{
    Some(number_within(word, 0, MAX_SIZE)? as u32)
}

/// What `generate` asks for with these operands; None where a number is none, or out of its range.
fn generate_of<'a>(found: Operands<'a>) -> Option<Command<'a>>
    ensures value { (s : Sorted) → AreFound s.operands s.workers found.entry → is_regular (operands_of verbs.Generate) s ≡ true → option_map asked result ≡ asked_for verbs.Generate s }
    ensures within { IfSome result (λ c. IsWithin (asked c)) }
{
    Some(Command::Generate {
        number: number_within(found.first?, 0, MAX_NUMBER)?,
        size: size_of(found.second?)?,
    })
}

/// The same of `load`.
fn load_of<'a>(found: Operands<'a>) -> Option<Command<'a>>
    ensures value { (s : Sorted) → AreFound s.operands s.workers found.entry → is_regular (operands_of verbs.Load) s ≡ true → option_map asked result ≡ asked_for verbs.Load s }
    ensures within { IfSome result (λ c. IsWithin (asked c)) }
{
    Some(Command::Load {
        number: number_within(found.first?, 0, MAX_NUMBER)?,
        size: size_of(found.second?)?,
        workers: workers_of(found.workers)?,
    })
}

/// The same of `hammer`.
fn hammer_of<'a>(found: Operands<'a>) -> Option<Command<'a>>
    ensures value { (s : Sorted) → AreFound s.operands s.workers found.entry → is_regular (operands_of verbs.Hammer) s ≡ true → option_map asked result ≡ asked_for verbs.Hammer s }
    ensures within { IfSome result (λ c. IsWithin (asked c)) }
{
    Some(Command::Hammer {
        file: found.first?,
        number: number_within(found.second?, 0, MAX_NUMBER)?,
        traces: number_within(found.third?, 1, MAX_TRACES)?,
    })
}

/// What a command asks for with these operands; None where a number is none, or out of its range.
fn command_of<'a>(verb: Verb, found: Operands<'a>) -> Option<Command<'a>>
    ensures value { (s : Sorted) → AreFound s.operands s.workers found.entry → is_regular (operands_of verb) s ≡ true → option_map asked result ≡ asked_for verb s }
    ensures within { IfSome result (λ c. IsWithin (asked c)) }
{
    match verb {
        Verb::Analyse => Some(Command::Analyse {
            file: found.first?,
            workers: workers_of(found.workers)?,
        }),
        Verb::Session => Some(Command::Session {
            file: found.first?,
            script: found.second?,
            workers: workers_of(found.workers)?,
        }),
        Verb::Simulate => Some(Command::Simulate {
            file: found.first?,
            trace: found.second?,
        }),
        Verb::Generate => generate_of(found),
        Verb::Load => load_of(found),
        Verb::Hammer => hammer_of(found),
        Verb::Assign => Some(Command::Assign {
            file: found.first?,
            resource: found.second?,
        }),
        Verb::Slack => Some(Command::Slack {
            file: found.first?,
            task: found.second?,
            workers: workers_of(found.workers)?,
        }),
        Verb::Buffers => Some(Command::Buffers {
            file: found.first?,
            trace: found.second?,
            workers: workers_of(found.workers)?,
        }),
        Verb::Audit => Some(Command::Audit {
            file: found.first?,
            trace: found.second?,
            schedule: found.third?,
        }),
    }
}

/// The operands and the option of regular words; None where the words aren't regular.
fn find_operands<'a>(
    alloc: Global,
    verb: Verb,
    words: &'a [String],
) -> Result<Option<Operands<'a>>, NoMemory>
    ensures { IfOk result (IsFoundIf (is_regular (operands_of verb) (words_of verb (map string_bytes words.now))) (words_of verb (map string_bytes words.now))) }
{
    if is_regular(verb, words) {
        read_words(alloc, words)
    } else {
        Ok(None)
    }
}

/// What the words after a command ask for; None exactly where they aren't accepted.
fn accept_after<'a>(
    alloc: Global,
    verb: Verb,
    words: &'a [String],
) -> Result<Option<Command<'a>>, NoMemory>
    ensures value { IfOk result (λ command. option_map asked command ≡ asked_by (map string_bytes words.now) verb) }
    ensures within { IfOk result (λ command. IfSome command (λ c. IsWithin (asked c))) }
{
    match find_operands(alloc, verb, words)? {
        Some(found) => Ok(command_of(verb, found)),
        None => Ok(None),
    }
}

/// What the words after the program's name ask for; None exactly where they aren't accepted. Numbers are within their
/// limits. The only error is out of memory.
pub fn accept<'a>(alloc: Global, words: &'a [String]) -> Result<Option<Command<'a>>, NoMemory>
    ensures value { IfOk result (λ command. option_map asked command ≡ accepted (map string_bytes words.now)) }
    ensures within { IfOk result (λ command. IfSome command (λ c. IsWithin (asked c))) }
{
    match words {
        [name, rest @ ..] => match Verb::read(name.as_str()) {
            Some(verb) => accept_after(alloc, verb, rest),
            None => Ok(None),
        },
        [] => Ok(None),
    }
}

/// The numbers of accepted words are within their limits.
pub fn accepted_words_are_within()
    ensures { AcceptedAreWithin }
{}

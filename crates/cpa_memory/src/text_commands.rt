//! The commands of the program that take their words as texts: `schedule`, `chain` and `chains`.

ghost use Rattle.std.specs.Prelude.{◌≡◌, ◌≢◌, ◌++◌, ◌∷◌, [], codes, map, string_bytes, IfOk, OnOk};
ghost use Rattle.std.specs.Str.Lines.{lines};
ghost use Rattle.cpa_call.specs.Answers.{reply};
ghost use Rattle.cpa_segments.specs.Calls as segments;
ghost use Rattle.cpa_effects.specs.Calls as effects;
ghost use Rattle.cpa_effect_files.specs.Calls as chained;
ghost use Rattle.cpa_memory.specs.Held.{held_in};
ghost use Rattle.cpa_memory.specs.Words.{schedule_words, reading_of, chain_call, chains_words};

use crate::calling::ended;
use crate::texts::{CHAINS, SYSTEM, TRACE, Texts};
use crate::written_output::Written;
use cpa_call::errors::Reply;
use cpa_effect_files::write_chains;
use cpa_effects::{Reading, write_chain_by};
use cpa_segments::write_schedule;
use cpa_units::NoMemory;
use std::alloc::{AllocError, Global};

fn push_word(alloc: Global, words: &mut Vec<String>, word: &str) -> Result<(), NoMemory>
    ensures { OnOk result (map string_bytes words.new.items ≡ map string_bytes words.old.items ++ word.now ∷ []) }
{
    words.push(String::from_str(alloc, word)?)?;
    Ok(())
}

/// Two words.
fn two_words(alloc: Global, first: &str, second: &str) -> Result<Vec<String>, NoMemory>
    ensures { IfOk result (λ v. map string_bytes v.items ≡ first.now ∷ second.now ∷ []) }
{
    let mut words = Vec::new(alloc);
    push_word(alloc, &mut words, first)?;
    push_word(alloc, &mut words, second)?;
    Ok(words)
}

/// The lines of a text.
fn lines_of(alloc: Global, text: &str) -> Result<Vec<&str>, AllocError>
    ensures { IfOk result (λ v. map (λ line. line.now) v.items ≡ lines text.now) }
{
    text.lines().collect(alloc)
}

/// Adds words behind others.
fn push_words(alloc: Global, words: &mut Vec<String>, more: &[&str]) -> Result<(), NoMemory>
    ensures { OnOk result (map string_bytes words.new.items ≡ map string_bytes words.old.items ++ map (λ word. word.now) more.now) }
{
    for word in more {
        push_word(alloc, words, word)?;
    }
    Ok(())
}

/// When jobs read.
fn reading_of(while_running: bool) -> Reading
    ensures { result ≡ reading_of while_running }
{
    if while_running {
        Reading::WhileRunning
    } else {
        Reading::Anywhere
    }
}

/// The words of a chain, whose tasks are named by the lines of a text.
fn words_of_chain(alloc: Global, tasks: &str) -> Result<Vec<String>, NoMemory>
    ensures { IfOk result (λ v. map string_bytes v.items ≡ codes "system" ∷ lines tasks.now) }
{
    let names = lines_of(alloc, tasks)?;
    let mut words = Vec::new(alloc);
    push_word(alloc, &mut words, SYSTEM)?;
    push_words(alloc, &mut words, names.as_slice())?;
    Ok(words)
}

/// The schedule of the run of a system under a trace, as `schedule` answers it. The only error is that memory is out.
pub fn schedule(alloc: Global, texts: Texts) -> Result<Reply, NoMemory>
    ensures answers { IfOk result (λ r. segments.IsOutput schedule_words (held_in texts.entry) (reply r.status r.text.items)) }
    ensures status { IfOk result (λ r. r.status ≢ 30) }
{
    let words = two_words(alloc, SYSTEM, TRACE)?;
    let mut files = texts;
    let mut written = Written::nothing(alloc);
    let status = write_schedule(alloc, words.as_slice(), &mut files, &mut written);
    ended(status, written)
}

/// The bounds of a chain of tasks, named by the lines of a text, as `chain` answers them; a line that begins with a hyphen is
/// no name, whatever it says. The only error is that memory is out.
pub fn chain(
    alloc: Global,
    texts: Texts,
    tasks: &str,
    while_running: bool,
) -> Result<Reply, NoMemory>
    ensures answers { IfOk result (λ r. effects.IsOutputOf (chain_call tasks.now while_running) (held_in texts.entry) (reply r.status r.text.items)) }
    ensures status { IfOk result (λ r. r.status ≢ 30) }
{
    let words = words_of_chain(alloc, tasks)?;
    let reading = reading_of(while_running);
    let mut files = texts;
    let mut written = Written::nothing(alloc);
    let status = write_chain_by(alloc, reading, words.as_slice(), &mut files, &mut written);
    ended(status, written)
}

/// The bounds of the chains in a text, with the verdicts on their deadlines, as `chains` answers them. The only error is that
/// memory is out.
pub fn chains(alloc: Global, texts: Texts) -> Result<Reply, NoMemory>
    ensures answers { IfOk result (λ r. chained.IsOutput chains_words (held_in texts.entry) (reply r.status r.text.items)) }
    ensures status { IfOk result (λ r. r.status ≢ 30) }
{
    let words = two_words(alloc, SYSTEM, CHAINS)?;
    let mut files = texts;
    let mut written = Written::nothing(alloc);
    let status = write_chains(alloc, words.as_slice(), &mut files, &mut written);
    ended(status, written)
}

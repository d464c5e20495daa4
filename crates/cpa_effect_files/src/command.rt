//! The command `chains`: a system file and a file of chains in, the bounds of the chains and their verdicts out.

ghost use Rattle.std.specs.Prelude.{◌≡◌, ◌≤◌, true, map, All, IfOk, IfErr, string_bytes};
ghost use Rattle.cpa_local.specs.Solution.{least_of};
ghost use Rattle.cpa_call.specs.Answers.{IsOfOutput, SendsPart};
ghost use Rattle.cpa_call.specs.Calls.{MeetsCall, loaded, sent};
ghost use Rattle.cpa_call.specs.Ends.{IsEndOf, HasStatus, IsUnreadFile, IsNoUnread};
ghost use Rattle.cpa_call.specs.Plans.{Do, Refuse, IsSecond};
ghost use Rattle.cpa_call.specs.TwoFiles.{IsUnread, IsUnreadCall};
ghost use Rattle.cpa_effect_files.specs.Reading.{Reading, reading_of, IsFault, IsChainIn};
ghost use Rattle.cpa_effect_files.specs.ChainsText.{chains_text, chains_status};
ghost use Rattle.cpa_effect_files.specs.Calls.{part_word, chains_refused, chains_of, chains_by, chains_in, plan_for, plan_of, IsOutput};

use crate::chains::{Chain, read_chains};
use crate::refusal::{ChainsFault, ChainsRefusal};
use crate::text::chain_verdicts;
use cpa_call::calls::{refuse_words, send_end, send_reply, status_of};
use cpa_call::errors::{InputError, Reply};
use cpa_call::lines::file_line;
use cpa_call::loading::{load_file, load_system};
use cpa_call::statuses;
use cpa_call::two_files::accept_two;
use cpa_fix::{OneByOne, least_bounds};
use cpa_io::{Files, Sink};
use cpa_model::System;
use cpa_text::Text;
use cpa_units::NoMemory;
use std::alloc::Global;

/// The most bytes of a file of chains.
pub const MAX_CHAINS_FILE: u64 = 1_048_576;

/// A system, and chains of its tasks.
#[derive(Drop)]
pub(crate) struct Listed {
    pub(crate) system: System,
    pub(crate) chains: Vec<Chain>,
}

fn part_word(place: u64) -> &'static [u8]
    ensures { result.now ≡ part_word place }
{
    if place == 0 { b" file " } else { b" chain " }
}

/// The line of chains that are refused.
fn chains_line(alloc: Global, refusal: ChainsRefusal) -> Result<Vec<u8>, NoMemory>
    ensures { IfOk result (λ v. v.items ≡ chains_refused refusal) }
{
    let mut text = Text::new(alloc);
    text.put_count(b"chains refused reason ", u64::from(refusal.reason))?;
    text.put(part_word(refusal.place))?;
    text.put_number(refusal.place)?;
    text.put(b"\n")?;
    Ok(text.into_bytes())
}

/// The reply where a file stands for no chains; out of memory has none.
fn refuse_chains(alloc: Global, file: &str, fault: ChainsFault) -> Result<Reply, NoMemory>
    ensures reply { IfOk result (λ reply. (reading : Reading) → IsFault fault reading → chains_by file.now reading ≡ Refuse reply.status reply.text.items) }
    ensures status { IfOk result (λ reply. IsOfOutput reply.status) }
{
    match fault {
        ChainsFault::NotToml => Ok(Reply {
            status: statuses::NOT_TOML,
            text: file_line(alloc, b"not TOML ", file)?,
        }),
        ChainsFault::Refused(refusal) => Ok(Reply {
            status: statuses::NAME_REFUSED,
            text: chains_line(alloc, refusal)?,
        }),
        ChainsFault::Memory => Err(NoMemory),
    }
}

/// How a call ends where a file stands for no chains.
fn end_chains(alloc: Global, file: &str, fault: ChainsFault) -> InputError
    ensures ended { (reading : Reading) → IsFault fault reading → IsEndOf (chains_by file.now reading) result }
    ensures status { HasStatus result }
    ensures unread { IsNoUnread result }
{
    match refuse_chains(alloc, file, fault) {
        Ok(reply) => InputError::Refused(reply),
        Err(NoMemory) => InputError::Memory,
    }
}

/// The chains that the bytes of a file stand for.
fn read_chains_file(
    alloc: Global,
    system: &System,
    file: &str,
    bytes: &[u8],
) -> Result<Vec<Chain>, InputError>
    ensures planned { IfOk result (λ v. chains_by file.now (reading_of system.now bytes.now) ≡ Do v.items) }
    ensures chains { IfOk result (λ v. All (IsChainIn system.now) v.items) }
    ensures ended { IfErr result (IsEndOf (chains_by file.now (reading_of system.now bytes.now))) }
    ensures status { IfErr result HasStatus }
    ensures unread { IfErr result IsNoUnread }
{
    match read_chains(alloc, system, bytes) {
        Ok(chains) => Ok(chains),
        Err(fault) => Err(end_chains(alloc, file, fault)),
    }
}

/// The chains that a file stands for.
fn load_chains<F: Files>(
    alloc: Global,
    files: &mut F,
    system: &System,
    file: &str,
) -> Result<Vec<Chain>, InputError>
    ensures planned { F.told files.old ≡ true → IfOk result (λ v. chains_in (F.held files.old) system.now file.now ≡ Do v.items) }
    ensures chains { IfOk result (λ v. All (IsChainIn system.now) v.items) }
    ensures ended { F.told files.old ≡ true → IfErr result (IsEndOf (chains_in (F.held files.old) system.now file.now)) }
    ensures status { IfErr result HasStatus }
    ensures unread { IfErr result (IsUnreadFile (λ last. last ≡ file.now) (F.faults files.old) (F.faults files.new) (F.last_failed files.new)) }
    ensures rises { F.faults files.old ≤ F.faults files.new }
{
    let bytes = load_file(alloc, files, file, MAX_CHAINS_FILE)?;
    read_chains_file(alloc, system, file, bytes.as_slice())
}

/// The system that a file stands for, and the chains that another does.
fn load_listed<F: Files>(
    alloc: Global,
    files: &mut F,
    file: &str,
    chains: &str,
) -> Result<Listed, InputError>
    ensures planned { F.told files.old ≡ true → IfOk result (λ l. plan_for (F.held files.old) file.now chains.now ≡ Do (chains_of l)) }
    ensures chains { IfOk result (λ l. All (IsChainIn l.system) l.chains.items) }
    ensures ended { F.told files.old ≡ true → IfErr result (IsEndOf (plan_for (F.held files.old) file.now chains.now)) }
    ensures status { IfErr result HasStatus }
    ensures unread { IfErr result (IsUnreadFile (IsSecond (F.told files.old) (F.held files.old) file.now chains.now) (F.faults files.old) (F.faults files.new) (F.last_failed files.new)) }
{
    let system = load_system(alloc, files, file)?;
    let chains = load_chains(alloc, files, &system, chains)?;
    Ok(Listed { system, chains })
}

/// The system and the chains that the words name.
fn plan<F: Files>(alloc: Global, words: &[String], files: &mut F) -> Result<Listed, InputError>
    ensures planned { F.told files.old ≡ true → IfOk result (λ l. plan_of (map string_bytes words.now) (F.held files.old) ≡ Do (chains_of l)) }
    ensures chains { IfOk result (λ l. All (IsChainIn l.system) l.chains.items) }
    ensures ended { F.told files.old ≡ true → IfErr result (IsEndOf (plan_of (map string_bytes words.now) (F.held files.old))) }
    ensures status { IfErr result HasStatus }
    ensures unread { IfErr result (IsUnreadCall (map string_bytes words.now) (F.told files.old) (F.held files.old) (F.faults files.old) (F.faults files.new) (F.last_failed files.new)) }
{
    match accept_two(words) {
        Some(named) => load_listed(alloc, files, named.file, named.second),
        None => Err(refuse_words(alloc)),
    }
}

/// The bounds of chains at the least solution, which is found once for all of them, and the status.
fn judge_listed(alloc: Global, system: &System, chains: &[Chain]) -> Result<Reply, NoMemory>
    requires { All (IsChainIn system.now) chains.now }
    ensures text { IfOk result (λ r. r.text.items ≡ chains_text system.now (least_of system.now) chains.now) }
    ensures status { IfOk result (λ r. r.status ≡ chains_status system.now (least_of system.now) chains.now) }
    ensures small { IfOk result (λ r. r.status ≤ 2) }
{
    let bounds = least_bounds(&(), alloc, system, &mut OneByOne)?;
    chain_verdicts(alloc, system, &bounds, chains)
}

/// Writes the bounds on reaction time and data age of the chains in a file, at the least solution, with the verdicts on their
/// deadlines, and answers the status.
///
/// The words are those after the command: the system file and the file of chains, neither of which is empty or begins with a
/// hyphen. The statuses: 0 with the bounds sent; 2 where one of them is missing; else 1 where a deadline is missed; 10, 12 to 14
/// and 18 a refusal, 11 a file that couldn't be read, each with its line sent; 20 a fault of the sink; 30 out of memory.
pub fn write_chains<F: Files, K: Sink>(
    alloc: Global,
    words: &[String],
    files: &mut F,
    sink: &mut K,
) -> u8
    // What every call owes: its status and what it sent.
    ensures { MeetsCall
        (IsOutput (map string_bytes words.now) (F.held files.old))
        (SendsPart (IsOutput (map string_bytes words.now) (F.held files.old)))
        (IsUnread (map string_bytes words.now) (F.told files.old) (F.held files.old) (F.faults files.old) (F.faults files.new) (F.last_failed files.new))
        (loaded (F.told files.old) (F.faults files.old) (F.faults files.new) (F.last_failed files.new))
        (sent (K.sent sink.old) (K.sent sink.new) (K.faults sink.old) (K.faults sink.new))
        result }
{
    match plan(alloc, words, files) {
        Ok(listed) => status_of(send_reply(
            sink,
            judge_listed(alloc, &listed.system, listed.chains.as_slice()),
        )),
        Err(end) => status_of(send_end(sink, end)),
    }
}

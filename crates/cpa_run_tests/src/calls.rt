//! Calls over files and a sink in memory, and whether they answer as tables tell.

ghost use Rattle.std.specs.Prelude.{◌≤◌};

use cpa_fix::Round;
use cpa_io::{MemoryFiles, MemorySink};
use cpa_run::{run, run_with};
use cpa_units::ResId;
use cpa_workers::{Gate, NoGate, Shared};
use std::alloc::{AllocError, Global};
use std::process::Abort;
use std::test::Fail;
use std::thread::Threads;

/// How the files and the sink of a call behave: which calls fail, and how many bytes the sink takes at once.
#[derive(Clone, Copy)]
pub struct Faults<'a> {
    pub loads: &'a [u64],
    pub piece: usize,
    pub puts: &'a [u64],
    ghost some_piece: { 1 ≤ piece },
}

pub const NO_FAULTS: Faults<'static> = Faults {
    loads: &[],
    piece: 4096,
    puts: &[],
};

fn entry(alloc: Global, name: &str, bytes: &[u8]) -> Result<(String, Vec<u8>), AllocError> {
    let name = String::from_str(alloc, name)?;
    Ok((name, Vec::from_slice(alloc, bytes)?))
}

/// Files in memory: texts that are held under names, and bytes under one more.
pub fn held_files(
    alloc: Global,
    texts: &[(&str, &str)],
    other: Option<(&str, &[u8])>,
) -> Result<Vec<(String, Vec<u8>)>, AllocError> {
    let mut held = Vec::new(alloc);
    for (name, text) in texts {
        held.push(entry(alloc, name, text.as_bytes())?)?;
    }
    if let Some((name, bytes)) = other {
        held.push(entry(alloc, name, bytes)?)?;
    }
    Ok(held)
}

/// Words and an option after them, as a call takes them.
pub fn given_words(
    alloc: Global,
    words: &[&str],
    option: &[&str],
) -> Result<Vec<String>, AllocError> {
    let mut given = Vec::new(alloc);
    for word in words {
        given.push(String::from_str(alloc, word)?)?;
    }
    for word in option {
        given.push(String::from_str(alloc, word)?)?;
    }
    Ok(given)
}

/// The status of a call, and the sink to which it sent.
pub fn call<R: AllocGlobal + Threads + Sync>(
    rt: &R,
    words: &[&str],
    option: &[&str],
    texts: &[(&str, &str)],
    other: Option<(&str, &[u8])>,
    faults: &Faults,
) -> Result<(u8, MemorySink), AllocError>
where
    Shared<NoGate>: Round<R>,
{
    let alloc = rt.alloc();
    let puts = Vec::from_slice(alloc, faults.puts)?;
    let loads = Vec::from_slice(alloc, faults.loads)?;
    let given = given_words(alloc, words, option)?;
    let mut files = MemoryFiles::new(alloc, held_files(alloc, texts, other)?, loads);
    let mut sink = MemorySink::new(alloc, faults.piece, puts);
    let status = run(rt, alloc, given.as_slice(), &mut files, &mut sink);
    Ok((status, sink))
}

/// The same without faults, with rounds through a gate.
pub fn call_with<R: AllocGlobal + Threads + Sync, G: Gate>(
    rt: &R,
    words: &[&str],
    option: &[&str],
    texts: &[(&str, &str)],
    gate: G,
) -> Result<(u8, MemorySink), AllocError>
where
    Shared<G>: Round<R>,
{
    let alloc = rt.alloc();
    let given = given_words(alloc, words, option)?;
    let held = held_files(alloc, texts, None)?;
    let mut files = MemoryFiles::new(alloc, held, Vec::new(alloc));
    let mut sink = MemorySink::new(alloc, 4096, Vec::new(alloc));
    let status = run_with(rt, alloc, given.as_slice(), &mut files, &mut sink, gate);
    Ok((status, sink))
}

/// A gate that holds nobody. Through it as many workers come as the words ask for, and not only those that pay.
#[derive(Drop)]
struct Open;

impl Gate for Open {
    fn enter(&self, _res: ResId) {}
}

/// Whether a text consists of these pieces.
pub fn is_joined(text: &[u8], pieces: &[&str]) -> bool {
    let mut rest = text;
    for piece in pieces {
        match rest.strip_prefix(piece.as_bytes()) {
            Some(after) => rest = after,
            None => return false,
        }
    }
    rest.is_empty()
}

/// The words of a call, the files with the names under which they are held, the status, and the text piece by piece.
pub type Call = (
    &'static [&'static str],
    &'static [(&'static str, &'static str)],
    u8,
    &'static [&'static str],
);

/// Words that may come after those of a call.
pub type Options = &'static [&'static [&'static str]];

pub const NO_OPTION: Options = &[&[]];

/// Several numbers of workers, which are in no answer.
pub const WORKERS: Options = &[&["--workers", "1"], &["--workers", "2"], &["--workers=8"]];

/// Whether a call of a table answers as it says, with an option; where there is one, also where all workers come.
fn answers<R: AllocGlobal + Threads + Sync, G: Gate>(
    rt: &R,
    (words, texts, status, pieces): &Call,
    option: &[&str],
    gate: G,
) -> Result<bool, AllocError>
where
    Shared<NoGate>: Round<R>,
    Shared<G>: Round<R>,
{
    let (seen, sink) = call(rt, words, option, texts, None, &NO_FAULTS)?;
    let right = seen == *status && is_joined(sink.sent(), pieces);
    if option.is_empty() {
        return Ok(right);
    }
    let (seen, sink) = call_with(rt, words, option, texts, gate)?;
    Ok(right && seen == *status && is_joined(sink.sent(), pieces))
}

/// Gates that hold nobody, enough for a table of calls.
pub fn open_gates(alloc: Global) -> Result<Vec<Box<dyn Gate>>, AllocError> {
    let mut gates: Vec<Box<dyn Gate>> = Vec::new(alloc);
    for _ in 0..200 {
        gates.push(Box::new(alloc, Open)?)?;
    }
    Ok(gates)
}

/// Tries each call of a table with each of the options, each with a gate of its own.
pub fn try_calls<R: AllocGlobal + Threads + Sync + Abort, G: Gate>(
    rt: &R,
    calls: &[Call],
    options: Options,
    mut gates: Vec<G>,
) -> Result<(), Fail>
where
    Shared<NoGate>: Round<R>,
    Shared<G>: Round<R>,
{
    for it in calls {
        for option in options {
            let right = match gates.pop() {
                Some(gate) => answers(rt, it, option, gate)?,
                None => false,
            };
            assert!(rt; right, "{:?}", it.3);
        }
    }
    Ok(())
}

/// Words, texts that are held, and a file that is held besides: its name, how it begins, and what comes after that so many
/// times; the status and the text.
pub type LongCall = (
    &'static [&'static str],
    &'static [(&'static str, &'static str)],
    (&'static str, &'static [u8], &'static [u8], u32),
    u8,
    &'static str,
);

/// A file that begins so and goes on with so many of a row.
fn long_file(alloc: Global, first: &[u8], row: &[u8], rows: u32) -> Result<Vec<u8>, AllocError> {
    let mut bytes = Vec::from_slice(alloc, first)?;
    for _ in 0..rows {
        bytes.extend_from_slice(row)?;
    }
    Ok(bytes)
}

/// Tries each call of a table.
pub fn try_long_calls<R: AllocGlobal + Threads + Sync + Abort>(
    rt: &R,
    calls: &[LongCall],
) -> Result<(), Fail>
where
    Shared<NoGate>: Round<R>,
{
    for (words, texts, (name, first, row, rows), status, text) in calls {
        let long = long_file(rt.alloc(), first, row, *rows)?;
        let other = Some((*name, long.as_slice()));
        let (seen, sink) = call(rt, words, &[], texts, other, &NO_FAULTS)?;
        assert!(rt; seen == *status && sink.sent() == text.as_bytes(), "{text}");
    }
    Ok(())
}

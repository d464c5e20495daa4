//! The lines of the refusals.

ghost use Rattle.std.specs.Prelude.{◌≡◌, ◌++◌, codes, IfOk, OnOk};
ghost use Rattle.cpa_trace.specs.Breaches.{IsBreachOf};
ghost use Rattle.cpa_draft.specs.FaultTexts.{part_text};
ghost use Rattle.cpa_call.specs.Lines.{words_refused, system_refused, trace_refused, row_refused, breach_text, trace_disobeys};

use cpa_model::{Part, Refusal, System};
use cpa_text::Text;
use cpa_trace::{Breach, TraceFault};
use cpa_units::NoMemory;
use std::alloc::Global;

/// A line that is given whole.
fn whole_line(alloc: Global, words: &[u8]) -> Result<Vec<u8>, NoMemory>
    ensures { IfOk result (λ v. v.items ≡ words.now) }
{
    Ok(Vec::from_slice(alloc, words)?)
}

/// The line of words that aren't accepted.
pub fn words_line(alloc: Global) -> Result<Vec<u8>, NoMemory>
    ensures { IfOk result (λ v. v.items ≡ words_refused) }
{
    whole_line(alloc, b"words refused\n")
}

/// The line of a refusal that names a file.
pub fn file_line(alloc: Global, words: &[u8], file: &str) -> Result<Vec<u8>, NoMemory>
    ensures { IfOk result (λ v. v.items ≡ words.now ++ file.now ++ codes "\n") }
{
    let mut text = Text::new(alloc);
    text.put(words)?;
    text.put(file.as_bytes())?;
    text.put(b"\n")?;
    Ok(text.into_bytes())
}

fn part_word(part: Part) -> &'static [u8]
    ensures { result.now ≡ part_text part }
{
    match part {
        Part::File => b"file",
        Part::Resource => b"resource",
        Part::Source => b"source",
        Part::Task => b"task",
        Part::Path => b"path",
    }
}

/// The line of a system that is refused.
pub fn refusal_line(alloc: Global, refusal: Refusal) -> Result<Vec<u8>, NoMemory>
    ensures { IfOk result (λ v. v.items ≡ system_refused refusal) }
{
    let mut text = Text::new(alloc);
    text.put_count(b"system refused reason ", u64::from(refusal.reason))?;
    text.put(b" ")?;
    text.put(part_word(refusal.part))?;
    text.put_count(b" ", refusal.place)?;
    text.put(b"\n")?;
    Ok(text.into_bytes())
}

fn row_line(alloc: Global, row: u32, why: &[u8]) -> Result<Vec<u8>, NoMemory>
    ensures { IfOk result (λ v. v.items ≡ row_refused row why.now) }
{
    let mut text = Text::new(alloc);
    text.put_count(b"trace refused row ", u64::from(row))?;
    text.put(why)?;
    Ok(text.into_bytes())
}

/// The line of a trace that is refused; out of memory has none.
pub fn trace_line(alloc: Global, fault: TraceFault) -> Result<Vec<u8>, NoMemory>
    ensures { IfOk result (λ v. v.items ≡ trace_refused fault) }
{
    match fault {
        TraceFault::BadRow(row) => row_line(alloc, row, b" malformed\n"),
        TraceFault::UnknownName(row) => row_line(alloc, row, b" name\n"),
        TraceFault::OutOfRange(row) => row_line(alloc, row, b" range\n"),
        TraceFault::TooMany => whole_line(alloc, b"trace refused too many\n"),
        TraceFault::Memory => Ok(Vec::new(alloc)),
    }
}

/// Writes what a breach says.
fn put_breach(text: &mut Text, system: &System, breach: Breach) -> Result<(), NoMemory>
    requires { IsBreachOf system.now breach }
    ensures { OnOk result (text.new ≡ text.old ++ breach_text system.now breach) }
{
    match breach {
        Breach::Close {
            source,
            first,
            second,
        } => {
            text.put(b"source ")?;
            text.put(system.source(source).name.bytes())?;
            text.put_count(b" times ", first)?;
            text.put_count(b" ", second)
        }
        Breach::Exec { task, job } => {
            text.put(b"task ")?;
            text.put(system.task(task).name.bytes())?;
            text.put_count(b" job ", job)
        }
        Breach::Phase { res } => {
            text.put(b"resource ")?;
            text.put(system.resource(res).name.bytes())
        }
        Breach::Clock { source, time } => {
            text.put(b"clock ")?;
            text.put(system.source(source).name.bytes())?;
            text.put_count(b" ", time)
        }
    }
}

/// The line of a trace that doesn't obey.
pub fn breach_line(alloc: Global, system: &System, breach: Breach) -> Result<Vec<u8>, NoMemory>
    requires { IsBreachOf system.now breach }
    ensures { IfOk result (λ v. v.items ≡ trace_disobeys system.now breach) }
{
    let mut text = Text::new(alloc);
    text.put(b"trace disobeys ")?;
    put_breach(&mut text, system, breach)?;
    text.put(b"\n")?;
    Ok(text.into_bytes())
}

//! Does what the words after the program's name ask for. The first of them is the command.
#![tactic(auto)]

use cpa_call::statuses;
use cpa_effect_files::run_chains;
use cpa_io::{RealFiles, RealSink};
use cpa_segments::write_schedule;
use std::alloc::Global;
use std::process::ExitCode;
use std::rt::Env;
use std::{env, io};

/// The words after the program's name.
fn read_words<R: Env + AllocGlobal>(rt: &R, alloc: Global) -> io::Result<Vec<String>> {
    let mut words = Vec::new(alloc);
    for word in env::args(rt)?.skip(1) {
        words.push(word)?;
    }
    Ok(words)
}

fn main(rt: HostRuntime) -> ExitCode {
    let alloc = rt.alloc();
    let words = match read_words(&rt, alloc) {
        Ok(words) => words,
        Err(error) if matches!(error.kind(), io::ErrorKind::OutOfMemory) => {
            return ExitCode::from(statuses::OUT_OF_MEMORY);
        }
        // Words that are no text are as little accepted as none.
        Err(_) => Vec::new(alloc),
    };
    let mut sink = RealSink::new(io::writer(&rt));
    let mut files = RealFiles::new(&rt, alloc);
    let words = words.as_slice();
    ExitCode::from(match words.first().map(|command| command.as_str()) {
        Some("schedule") => write_schedule(alloc, &words[1..], &mut files, &mut sink),
        Some("chain" | "chains") => run_chains(alloc, words, &mut files, &mut sink),
        _ => cpa_run::run(&rt, alloc, words, &mut files, &mut sink),
    })
}

//! Which words are accepted, and what they ask for.

use cpa_units::NoMemory;
use cpa_words::{Command, accept};
use std::alloc::Global;
use std::test::Fail;

/// Words with a blank between each two, and what they ask for.
const ACCEPTED: [(&str, Command<'static>); 20] = [
    (
        "analyse sys",
        Command::Analyse {
            file: "sys",
            workers: 1,
        },
    ),
    (
        "analyse ./-sys --workers 64",
        Command::Analyse {
            file: "./-sys",
            workers: 64,
        },
    ),
    (
        "analyse --workers=0000000008 analyse",
        Command::Analyse {
            file: "analyse",
            workers: 8,
        },
    ),
    (
        "session sys edits",
        Command::Session {
            file: "sys",
            script: "edits",
            workers: 1,
        },
    ),
    (
        "session --workers 2 sys edits",
        Command::Session {
            file: "sys",
            script: "edits",
            workers: 2,
        },
    ),
    (
        "session sys --workers=3 edits",
        Command::Session {
            file: "sys",
            script: "edits",
            workers: 3,
        },
    ),
    (
        "session sys sys --workers 1",
        Command::Session {
            file: "sys",
            script: "sys",
            workers: 1,
        },
    ),
    (
        "simulate help rows=1",
        Command::Simulate {
            file: "help",
            trace: "rows=1",
        },
    ),
    ("generate 0 0", Command::Generate { number: 0, size: 0 }),
    (
        "generate 4294967295 128",
        Command::Generate {
            number: 4_294_967_295,
            size: 128,
        },
    ),
    (
        "load 0000000042 0000000001",
        Command::Load {
            number: 42,
            size: 1,
            workers: 1,
        },
    ),
    (
        "load 7 --workers 8 128",
        Command::Load {
            number: 7,
            size: 128,
            workers: 8,
        },
    ),
    (
        "hammer sys 0 1",
        Command::Hammer {
            file: "sys",
            number: 0,
            traces: 1,
        },
    ),
    (
        "hammer 1 4294967295 10000",
        Command::Hammer {
            file: "1",
            number: 4_294_967_295,
            traces: 10_000,
        },
    ),
    (
        "assign sys bus",
        Command::Assign {
            file: "sys",
            resource: "bus",
        },
    ),
    (
        "slack sys b",
        Command::Slack {
            file: "sys",
            task: "b",
            workers: 1,
        },
    ),
    (
        "slack sys --workers=2 assign",
        Command::Slack {
            file: "sys",
            task: "assign",
            workers: 2,
        },
    ),
    (
        "buffers sys rows",
        Command::Buffers {
            file: "sys",
            trace: "rows",
            workers: 1,
        },
    ),
    (
        "buffers --workers 64 buffers rows",
        Command::Buffers {
            file: "buffers",
            trace: "rows",
            workers: 64,
        },
    ),
    (
        "audit sys rows ran",
        Command::Audit {
            file: "sys",
            trace: "rows",
            schedule: "ran",
        },
    ),
];

/// Words with a blank between each two that ask for nothing.
const REFUSED: [&str; 123] = [
    // No command.
    "",
    "help",
    "-h",
    "--help",
    "-V",
    "--version",
    "--",
    "-",
    "analyze sys",
    "Analyse sys",
    "analys sys",
    "--workers 2 analyse sys",
    // A word too few.
    "analyse",
    "session sys",
    "simulate sys",
    "generate 1",
    "load 1",
    "hammer sys 1",
    "assign sys",
    "slack sys",
    "buffers sys",
    "audit sys rows",
    // A word too many.
    "analyse sys sys",
    "session sys edits 1",
    "simulate sys rows 1",
    "generate 1 2 3",
    "load 1 2 3",
    "hammer sys 1 2 3",
    "assign sys bus 1",
    "slack sys b 1",
    "buffers sys rows 1",
    "audit sys rows ran 1",
    // A word that is empty.
    " analyse sys",
    "analyse ",
    "analyse  sys",
    "analyse sys ",
    "session sys  edits",
    "simulate  rows",
    "generate 1 ",
    "load  1 2",
    "hammer  1 2",
    "assign sys ",
    "slack  b",
    "buffers sys ",
    "audit sys  ran",
    // A word that begins with a dash.
    "analyse -",
    "analyse -sys",
    "session - edits",
    "session sys -",
    "simulate - rows",
    "simulate sys -rows",
    "generate - 1",
    "generate 1 -",
    "load - 1",
    "load 1 -",
    "hammer - 1 2",
    "hammer sys - 2",
    "hammer sys 1 -",
    "assign sys -x",
    "slack sys -x",
    "buffers sys -rows",
    "audit sys rows -",
    "analyse -- sys",
    "analyse sys --",
    "analyse sys -h",
    "analyse --help",
    "analyse --help sys",
    "analyse -V",
    "analyse sys --version",
    "simulate sys -- rows",
    // The option: its value, its names, where it isn't taken, and twice.
    "analyse sys --workers",
    "analyse --workers sys",
    "analyse sys --workers ",
    "analyse sys --workers=",
    "analyse sys --workers two",
    "analyse sys --workers 0",
    "analyse sys --workers=65",
    "analyse sys --workers -1",
    "analyse sys --workers=-1",
    "analyse sys --workers +1",
    "analyse sys --workers 00000000001",
    "analyse sys --workers --workers",
    "analyse sys --workers 1 --workers 1",
    "analyse sys --workers=1 --workers=1",
    "analyse sys --worker 1",
    "analyse sys --work=1",
    "analyse sys -w 1",
    "analyse sys -workers 1",
    "analyse sys --Workers 1",
    "analyse sys --workers1",
    "session sys edits --workers=0",
    "session --workers sys edits",
    "simulate sys rows --workers 1",
    "simulate sys --workers=1",
    "generate 1 2 --workers 1",
    "generate --workers=1 1 2",
    "load 1 2 --workers 65",
    "load 1 2 --workers",
    "hammer sys 1 2 --workers 1",
    "hammer sys 1 --workers=1 2",
    "assign sys bus --workers 2",
    "slack sys b --workers 0",
    "slack sys --workers 2",
    "buffers sys rows --workers=65",
    "audit sys rows ran --workers 1",
    "audit sys --workers=1 rows",
    // Numbers that aren't one, or are past their range.
    "generate +1 2",
    "generate 1 +2",
    "generate 1.0 2",
    "generate 0x1 2",
    "generate 1 two",
    "generate 00000000001 2",
    "generate 4294967296 2",
    "generate 9999999999 2",
    "generate 1 129",
    "generate 1 00000000001",
    "load 4294967296 2",
    "load 1 129",
    "load one 2",
    "hammer sys 4294967296 2",
    "hammer sys 1 0",
    "hammer sys 1 10001",
    "hammer sys 1 00000000001",
];

/// Whether words with a blank between each two ask for this, or for nothing.
fn asks_for(alloc: Global, text: &str, wanted: Option<Command>) -> Result<bool, NoMemory> {
    let mut words = Vec::new(alloc);
    for word in text.split(' ') {
        words.push(String::from_str(alloc, word)?)?;
    }
    Ok(accept(alloc, words.as_slice())? == wanted)
}

#[test]
fn accepts_by_the_rule(rt: HostRuntime) -> Result<(), Fail> {
    let alloc = rt.alloc();
    let mut wrong = None;
    for (text, command) in &ACCEPTED {
        if !asks_for(alloc, text, Some(*command))? {
            wrong = Some(*text);
        }
    }
    for text in &REFUSED {
        if !asks_for(alloc, text, None)? {
            wrong = Some(*text);
        }
    }
    assert!(rt;
        accept(alloc, &[])?.is_none() && wrong.is_none(),
        "{wrong:?}"
    );
    Ok(())
}

//! Sinks and files that fail, files that are cut, and files of which a byte is another.

ghost use Rattle.std.specs.Prelude.{false, None, string_bytes};

use crate::calls::{Faults, NO_FAULTS, call, given_words, is_joined};
use cpa_cases::{LONG_WINDOW, TWO_TASKS};
use cpa_fix::Round;
use cpa_io::{Files, LoadFault, Sink, SinkFault};
use cpa_run::run;
use cpa_workers::{NoGate, Shared};
use std::alloc::Global;
use std::test::Fail;
use std::thread::Threads;

const SCRIPT: &str = "add c cpu sb 1 2 3\nreport\nremove zz\nremove a\n";

const TRACE: &str = "event,sa,0\nevent,sa,12\nevent,sb,20\nexec,b,2\n";

const SCHEDULE: &str = "a,0,3\na,12,15\nb,20,22\n";

/// The words of each command, the files that it loads, one after the other, and its status; and words that are refused, by which
/// no file is loaded.
const COMMANDS: [(&[&str], &[&str], u8); 11] = [
    (&["analyse", "sys"], &["sys"], 0),
    (&["session", "sys", "scr"], &["sys", "scr"], 0),
    (&["simulate", "sys", "tr"], &["sys", "tr"], 0),
    (&["generate", "42", "1"], &[], 0),
    (&["load", "42", "1"], &[], 0),
    (&["hammer", "sys", "1", "2"], &["sys"], 0),
    (&["assign", "sys", "cpu"], &["sys"], 0),
    (&["slack", "sys", "b"], &["sys"], 0),
    (&["buffers", "sys", "tr"], &["sys", "tr"], 0),
    (&["audit", "sys", "tr", "sch"], &["sys", "tr", "sch"], 0),
    (&["generate", "1", "200"], &[], 10),
];

/// The two tasks, the script, the trace and the schedule.
const HELD: &[(&str, &str)] = &[
    ("sys", TWO_TASKS),
    ("scr", SCRIPT),
    ("tr", TRACE),
    ("sch", SCHEDULE),
];

/// Whether a call says the name of each file in turn where its load fails, and loads no other file.
fn names_each_file<R: AllocGlobal + Threads + Sync>(
    rt: &R,
    words: &[&str],
    names: &[&str],
    status: u8,
) -> Result<bool, Fail>
where
    Shared<NoGate>: Round<R>,
{
    let (_, whole) = call(rt, words, &[], HELD, None, &NO_FAULTS)?;
    for load in 0..=names.len() {
        let faults = Faults {
            loads: &[load as u64],
            piece: 4096,
            puts: &[],
        };
        let (seen, sink) = call(rt, words, &[], HELD, None, &faults)?;
        let right = match names.get(load) {
            Some(name) => seen == 11 && is_joined(sink.sent(), &["cannot read ", name, "\n"]),
            None => seen == status && sink.sent() == whole.sent(),
        };
        if !right {
            return Ok(false);
        }
    }
    Ok(true)
}

/// Each command over files that fail at each of its loads.
#[test]
fn reads_failing_files(rt: HostRuntime) -> Result<(), Fail> {
    for (words, names, status) in &COMMANDS {
        let right = names_each_file(&rt, words, names, *status)?;
        assert!(rt; right, "{words:?}");
    }
    Ok(())
}

/// Numbers of loads that fail: none, and each in turn.
const LOADS: &[&[u64]] = &[&[], &[0], &[1], &[2]];

/// Whether a call whose sink takes 7 bytes at once sends a prefix of its text and ends with 20 wherever the sink fails, and
/// sends the whole text at last.
fn sends_prefixes<R: AllocGlobal + Threads + Sync>(
    rt: &R,
    words: &[&str],
    loads: &[u64],
) -> Result<bool, Fail>
where
    Shared<NoGate>: Round<R>,
{
    let faults = Faults {
        loads,
        piece: 4096,
        puts: &[],
    };
    let (status, whole) = call(rt, words, &[], HELD, None, &faults)?;
    for k in 0..200 {
        let faults = Faults {
            loads,
            piece: 7,
            puts: &[k],
        };
        let (seen, sink) = call(rt, words, &[], HELD, None, &faults)?;
        if !whole.sent().starts_with(sink.sent()) {
            return Ok(false);
        }
        if seen == status && sink.sent().len() == whole.sent().len() {
            return Ok(true);
        }
        if seen != 20 {
            return Ok(false);
        }
    }
    Ok(false)
}

/// Whether a call sends the same in pieces of one byte.
fn sends_bytes<R: AllocGlobal + Threads + Sync>(rt: &R, words: &[&str]) -> Result<bool, Fail>
where
    Shared<NoGate>: Round<R>,
{
    let bytes = Faults {
        loads: &[],
        piece: 1,
        puts: &[],
    };
    let (status, single) = call(rt, words, &[], HELD, None, &bytes)?;
    let (seen, whole) = call(rt, words, &[], HELD, None, &NO_FAULTS)?;
    Ok(status == seen && single.sent() == whole.sent())
}

/// Each command sends its text in pieces of one byte and of seven, and a prefix of it where a call of the sink fails, whichever
/// of the files can be read.
#[test]
fn sends_pieces(rt: HostRuntime) -> Result<(), Fail> {
    for (words, names, _) in &COMMANDS {
        let mut right = sends_bytes(&rt, words)?;
        for loads in LOADS.iter().take(names.len() + 1) {
            right = right && sends_prefixes(&rt, words, loads)?;
        }
        assert!(rt; right, "{words:?}");
    }
    Ok(())
}

/// Files that all hold the two tasks, or whose loads all fail. They tell nothing but their faults.
#[derive(Drop)]
struct FailingFiles {
    faults: u64,
    last: String,
    fail: bool,
}

impl Files for FailingFiles {
    ghost told = { λ _. false };

    ghost held = { λ _ _. None };

    ghost faults = { λ f. f.faults };

    ghost last_failed = { λ f. string_bytes f.last };

    fn load(&mut self, alloc: Global, name: &str, most: u64) -> Result<Vec<u8>, LoadFault> {
        if self.fail {
            self.faults = self.faults.saturating_add(1);
            return match String::from_str(alloc, name) {
                Ok(name) => {
                    self.last = name;
                    Err(LoadFault::Failed)
                }
                Err(_) => Err(LoadFault::Memory),
            };
        }
        if TWO_TASKS.len() as u64 > most {
            return Err(LoadFault::TooLong);
        }
        match Vec::from_slice(alloc, TWO_TASKS.as_bytes()) {
            Ok(bytes) => Ok(bytes),
            Err(_) => Err(LoadFault::Memory),
        }
    }
}

/// A sink that takes all, or whose calls all fail. It says nothing but its faults.
#[derive(Drop)]
struct FailingSink {
    faults: u64,
    fail: bool,
}

impl Sink for FailingSink {
    ghost sent = { λ _. None };

    ghost faults = { λ s. s.faults };

    fn put(&mut self, piece: &[u8]) -> Result<usize, SinkFault> {
        if self.fail && !piece.is_empty() {
            self.faults = self.faults.saturating_add(1);
            return Err(SinkFault::Failed);
        }
        Ok(piece.len())
    }
}

/// The count of both faults before a call, whether loads fail and whether puts do; the status and both counts after it. Where
/// both fail, the sink is the last to.
const LAST_COUNTS: [(u64, bool, bool, (u8, u64, u64)); 8] = [
    (BEFORE_LAST, false, false, (0, BEFORE_LAST, BEFORE_LAST)),
    (BEFORE_LAST, true, false, (11, u64::MAX, BEFORE_LAST)),
    (BEFORE_LAST, false, true, (20, BEFORE_LAST, u64::MAX)),
    (BEFORE_LAST, true, true, (20, u64::MAX, u64::MAX)),
    (u64::MAX, false, false, (0, u64::MAX, u64::MAX)),
    (u64::MAX, true, false, (11, u64::MAX, u64::MAX)),
    (u64::MAX, false, true, (20, u64::MAX, u64::MAX)),
    (u64::MAX, true, true, (20, u64::MAX, u64::MAX)),
];

const BEFORE_LAST: u64 = u64::MAX - 1;

/// Faults are told by the status where both counts of faults stand at their last value, as they are one below it.
#[test]
fn tells_faults_at_last_count(rt: HostRuntime) -> Result<(), Fail> {
    let alloc = rt.alloc();
    let words = given_words(alloc, &["analyse", "sys"], &[])?;
    for (count, load, put, wanted) in &LAST_COUNTS {
        let mut files = FailingFiles {
            faults: *count,
            last: String::new(alloc),
            fail: *load,
        };
        let mut sink = FailingSink {
            faults: *count,
            fail: *put,
        };
        let status = run(&rt, alloc, words.as_slice(), &mut files, &mut sink);
        assert!(rt;
            (status, files.faults, sink.faults) == *wanted,
            "{wanted:?}"
        );
    }
    Ok(())
}

/// How many calls ended with each status: 0, 1, 2, 13, 14, 15, 16, 17, and any other.
type Counts = [u32; 9];

fn count(counts: &mut Counts, status: u8) {
    let place: usize = match status {
        0 => 0,
        1 => 1,
        2 => 2,
        13 => 3,
        14 => 4,
        15 => 5,
        16 => 6,
        17 => 7,
        _ => 8,
    };
    counts[place] = counts[place].saturating_add(1);
}

/// A command over the long window, its second file, and how many calls end with each status where that is cut at each length.
///
/// The script is one where a cut leaves whole lines, or `remove z`; with the third task the processor is overloaded until
/// the first is removed. The trace is one where a cut leaves whole rows or a shorter number at the end of one: 7 comes too
/// soon after 0, 6 isn't an execution of the task, and 1 and 10 are times as good as 100.
const CUT: [(&str, &str, Counts); 2] = [
    ("session", SCRIPT, [3, 0, 7, 0, 0, 36, 0, 0, 0]),
    (
        "simulate",
        "event,sa,0\nevent,sa,70\nexec,b,62\nevent,sb,100\n",
        [11, 0, 0, 0, 0, 0, 34, 2, 0],
    ),
];

#[test]
fn reads_cut_scripts_and_traces(rt: HostRuntime) -> Result<(), Fail> {
    for (command, second, wanted) in &CUT {
        let mut counts = [0; 9];
        for cut in 0..=second.len() {
            let words = [command, "sys", "cut"];
            let held: Option<(&str, &[u8])> = Some(("cut", &second.as_bytes()[..cut]));
            let (status, _) = call(&rt, &words, &[], &[("sys", LONG_WINDOW)], held, &NO_FAULTS)?;
            count(&mut counts, status);
        }
        assert!(rt; counts == *wanted, "{counts:?}");
    }
    Ok(())
}

/// A byte, and how many analyses of the two tasks end with each status where it stands in place of each byte in turn.
///
/// 0 and 255 are never TOML. A quote is where there was one: 20 times. A line feed is where there was one
/// or a space that may be one (35 times) or the last comma of the tasks. It makes a period of 1 of 10 and of 20 a period of
/// 2, so that the processor is overloaded, and in place of the first letter of a key it leaves a key that is none: 22 times.
const SPOILED: [(u8, Counts); 4] = [
    (0, [0, 0, 0, 301, 0, 0, 0, 0, 0]),
    (255, [0, 0, 0, 301, 0, 0, 0, 0, 0]),
    (b'"', [20, 0, 0, 281, 0, 0, 0, 0, 0]),
    (b'\n', [36, 0, 2, 241, 22, 0, 0, 0, 0]),
];

#[test]
fn reads_spoiled_files(rt: HostRuntime) -> Result<(), Fail> {
    for (byte, wanted) in &SPOILED {
        let mut counts = [0; 9];
        for place in 0..TWO_TASKS.len() {
            let mut bytes = Vec::from_slice(rt.alloc(), TWO_TASKS.as_bytes())?;
            if let Some(at) = bytes.get_mut(place) {
                *at = *byte;
            }
            let held = Some(("sys", bytes.as_slice()));
            let (status, _) = call(&rt, &["analyse", "sys"], &[], &[], held, &NO_FAULTS)?;
            count(&mut counts, status);
        }
        assert!(rt; counts == *wanted, "{counts:?}");
    }
    Ok(())
}

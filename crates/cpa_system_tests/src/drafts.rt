mod cases;
mod locks;
mod queues;
mod wholes;

use cases::{ADDED, BASE, Case, PLACES, Told};
use cpa_draft::{
    BuildFault, Draft, DraftLock, DraftLocks, DraftPath, DraftResource, DraftSource, DraftTask,
    KindWord, Part, Raw, RawList, validate,
};
use cpa_units::limits::Size;
use locks::{LOCKED, LOCKS};
use queues::{QUEUED, QUEUES};
use std::alloc::{AllocError, Global};
use std::slice;
use std::test::Fail;
use wholes::{RUNS, Run, TASKS, WHOLES};

fn needs_shared<T: Send + Sync>(_value: &T) {}

fn field(line: &str, place: usize) -> &str {
    line.split('|').nth(place).unwrap_or("")
}

fn number(line: &str, place: usize) -> Option<i64> {
    field(line, place).parse().ok()
}

fn raw(alloc: Global, text: &str) -> Result<Raw, AllocError> {
    Ok(Raw::new(Vec::from_slice(alloc, text.as_bytes())?))
}

/// The names from a place on.
fn names(alloc: Global, line: &str, place: usize) -> Result<RawList, AllocError> {
    let mut names = Vec::new(alloc);
    for name in line.split('|').skip(place) {
        names.push(raw(alloc, name)?)?;
    }
    Ok(RawList::new(names))
}

fn kind(line: &str) -> KindWord {
    match field(line, 2) {
        "round-robin" => KindWord::RoundRobin,
        "tdma" => KindWord::Tdma,
        "can" => KindWord::Can,
        "fifo" => KindWord::Fifo,
        "ceiling" => KindWord::Ceiling,
        _ => KindWord::Preemptive,
    }
}

/// The number behind the first word of a line.
fn region(line: &str) -> Option<i64> {
    let word = field(line, 0).split(',').last().unwrap_or("");
    word.strip_prefix("task ")?.parse().ok()
}

/// The critical section of a text: the name of its lock, where it begins, and how long it takes.
fn section(alloc: Global, text: &str) -> Result<DraftLock, AllocError> {
    let mut words = text.split(' ');
    let name = raw(alloc, words.next().unwrap_or(""))?;
    let start = words.next().unwrap_or("").parse().unwrap_or(-1);
    let length = words.next().unwrap_or("").parse().unwrap_or(-1);
    Ok(DraftLock {
        name,
        start,
        length,
    })
}

/// The critical sections that stand before the first word of a line, with a comma behind each.
fn sections(alloc: Global, line: &str) -> Result<DraftLocks, AllocError> {
    let mut sections = Vec::new(alloc);
    for text in field(line, 0).split(',') {
        if text.contains(' ') && !text.starts_with("task ") {
            sections.push(section(alloc, text)?)?;
        }
    }
    Ok(DraftLocks::new(sections))
}

/// Whether a frame has an extended identifier, where the first word of a line says so.
fn extended(line: &str) -> Option<bool> {
    match field(line, 0) {
        "extended" => Some(true),
        "standard" => Some(false),
        _ => None,
    }
}

fn clock(alloc: Global, line: &str) -> Result<Option<Raw>, AllocError> {
    match field(line, 5) {
        "" => Ok(None),
        name => Ok(Some(raw(alloc, name)?)),
    }
}

fn task(alloc: Global, line: &str) -> Result<DraftTask, AllocError> {
    Ok(DraftTask {
        name: raw(alloc, field(line, 1))?,
        on: raw(alloc, field(line, 2))?,
        after: names(alloc, line, 8)?,
        best: number(line, 3),
        worst: number(line, 4),
        payload: number(line, 5),
        extended: extended(line),
        priority: number(line, 6),
        slot: number(line, 7),
        region: region(line),
        locks: sections(alloc, line)?,
    })
}

fn add(alloc: Global, draft: &mut Draft, line: &str) -> Result<(), AllocError> {
    match field(line, 0) {
        "large" => draft.size = Size::Large,
        "resource" => draft.resources.push(DraftResource {
            name: raw(alloc, field(line, 1))?,
            kind: kind(line),
            limit: number(line, 3),
            gap: number(line, 4),
            bit: number(line, 5),
            rate: number(line, 6),
        })?,
        "source" => draft.sources.push(DraftSource {
            name: raw(alloc, field(line, 1))?,
            period: number(line, 2).unwrap_or(0),
            jitter: number(line, 3),
            distance: number(line, 4),
            sporadic: false,
            clock: clock(alloc, line)?,
            offset: number(line, 6),
        })?,
        "path" => draft.paths.push(DraftPath {
            name: raw(alloc, field(line, 1))?,
            tasks: names(alloc, line, 3)?,
            deadline: number(line, 2),
        })?,
        _ => {
            let task = task(alloc, line)?;
            if task.region.is_some() {
                draft.size = Size::Large;
            }
            draft.tasks.push(task)?;
        }
    }
    Ok(())
}

fn add_all(alloc: Global, draft: &mut Draft, lines: &[&str]) -> Result<(), AllocError> {
    for line in lines {
        add(alloc, draft, line)?;
    }
    Ok(())
}

/// The line of the entry with a number.
fn numbered(alloc: Global, line: &str, number: u32, layer: u32) -> Result<String, AllocError> {
    let mut text = line.replace(alloc, "#", format!(in alloc; "{number}")?.as_str())?;
    let end = number.saturating_sub(number.checked_rem(layer).unwrap_or(0));
    for name in end.saturating_sub(layer)..end {
        text.push_str(format!(in alloc; "|t{name}")?.as_str())?;
    }
    Ok(text)
}

fn add_runs(alloc: Global, draft: &mut Draft, runs: &[Run]) -> Result<(), AllocError> {
    for (line, first, end, layer) in runs {
        for number in *first..*end {
            add(
                alloc,
                draft,
                numbered(alloc, line, number, *layer)?.as_str(),
            )?;
        }
    }
    Ok(())
}

fn fill(
    alloc: Global,
    draft: &mut Draft,
    first: &[&str],
    others: &[&str],
    runs: &[Run],
) -> Result<(), AllocError> {
    add_all(alloc, draft, first)?;
    add_all(alloc, draft, others)?;
    add_runs(alloc, draft, runs)
}

/// What validation says of a draft: the reason, the part and the place.
fn told(
    alloc: Global,
    first: &[&str],
    others: &[&str],
    runs: &[Run],
) -> Result<Option<(u8, Part, u64)>, AllocError> {
    let mut draft = Draft {
        size: Size::Small,
        resources: Vec::new(alloc),
        sources: Vec::new(alloc),
        tasks: Vec::new(alloc),
        paths: Vec::new(alloc),
    };
    needs_shared(&draft);
    fill(alloc, &mut draft, first, others, runs)?;
    Ok(match validate(alloc, &draft).err() {
        Some(BuildFault::Refused(refusal)) => {
            Some((refusal.reason, refusal.part, refusal.place))
        }
        _ => None,
    })
}

/// The place of the first case of which something else is told than is wanted; the drafts of all begin with the same entries.
fn wrong_case(alloc: Global, first: &[&str], cases: &[Case]) -> Result<Option<usize>, AllocError> {
    for (place, (others, want)) in cases.iter().enumerate() {
        if told(alloc, first, others, &[])? != *want {
            return Ok(Some(place));
        }
    }
    Ok(None)
}

fn wrong_run(alloc: Global) -> Result<Option<usize>, AllocError> {
    for (place, (runs, want)) in RUNS.iter().enumerate() {
        if told(alloc, PLACES, &[], runs)? != *want {
            return Ok(Some(place));
        }
    }
    Ok(None)
}

/// The first line of a table of which something else is told than is wanted, where it stands after the first lines.
fn wrong_line(
    alloc: Global,
    first: &[&str],
    table: &[Told],
) -> Result<Option<&'static str>, AllocError> {
    for (want, lines) in table {
        for line in *lines {
            if told(alloc, first, slice::from_ref(line), &[])? != *want {
                return Ok(Some(*line));
            }
        }
    }
    Ok(None)
}

#[test]
fn refuses_the_first(rt: HostRuntime) -> Result<(), Fail> {
    let alloc = rt.alloc();
    let line = wrong_line(alloc, &BASE, &ADDED)?;
    let queued = wrong_line(alloc, &QUEUES, &QUEUED)?;
    let locked = wrong_line(alloc, &LOCKS, &LOCKED)?;
    let wrong = [
        wrong_case(alloc, &[], &WHOLES)?,
        wrong_case(alloc, PLACES, &TASKS)?,
        wrong_run(alloc)?,
    ];
    assert!(rt;
        (line, queued, locked) == (None, None, None) && wrong == [None; 3],
        "{line:?} {queued:?} {locked:?} {wrong:?}"
    );
    Ok(())
}

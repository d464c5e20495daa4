pub(crate) mod systems;

use cpa_cases::{GATEWAY, LOCKED, ON_A_CLOCK};
use cpa_file::{FileRefusal, print_system, read_system};
use cpa_model::{Part, Refusal, System};
use cpa_units::TaskId;
use std::alloc::{AllocError, Global};
use std::test::Fail;
use systems::{
    BURST, COOPERATIVE, CROSSING_CHAINS, DAVIS_BUS, ENDLESS_JITTER, FRAME_LENGTHS, LONG_WINDOW,
    ROUND_ROBIN, ROUND_ROBIN_SHARE, SHARED_SOURCE, TDMA_GAP, TWO_ACTIVATORS, TWO_TASKS,
    TWO_TASKS_LATER,
};

/// A text, and why a file with it is refused: the reason, the part and the place.
type Refused = (&'static str, u8, Part, u64);

/// Each way to break the form of a file, at the top and in each kind of entry: the reason, the part and the place.
const OTHER_FORMS: [Refused; 54] = [
    ("", 1, Part::File, 0),
    ("format = 1.0", 1, Part::File, 0),
    ("format = \"1\"", 1, Part::File, 0),
    ("format = 1\nspeed = 1", 1, Part::File, 0),
    ("format = 1\nresource = 3", 1, Part::File, 0),
    ("format = 1\nsource = \"s\"", 1, Part::File, 0),
    ("format = 1\ntask = {}", 1, Part::File, 0),
    ("format = 1\n[path]", 1, Part::File, 0),
    ("format = 3", 13, Part::File, 0),
    ("format = 2\nspeed = 1", 1, Part::File, 0),
    ("format = 4\nregion = 1", 1, Part::File, 0),
    ("format = 0\nspeed = 1\nresource = 3", 13, Part::File, 0),
    ("format = 1\nresource = [3]", 1, Part::Resource, 1),
    (
        "format = 1\nresource = [{ name = \"r\" }]",
        1,
        Part::Resource,
        1,
    ),
    (
        "format = 1\nresource = [{ kind = \"can\" }]",
        1,
        Part::Resource,
        1,
    ),
    (
        "format = 1\nresource = [{ name = 1, kind = \"can\" }]",
        1,
        Part::Resource,
        1,
    ),
    (
        "format = 1\nresource = [{ name = \"r\", kind = \"fifo\" }]",
        1,
        Part::Resource,
        1,
    ),
    (
        "format = 1\nresource = [{ name = \"r\", kind = \"can\", bit = true }]",
        1,
        Part::Resource,
        1,
    ),
    (
        "format = 2\nresource = [{ name = \"r\", kind = \"can\", rate = 1 }]",
        1,
        Part::Resource,
        1,
    ),
    (
        "format = 4\nresource = [{ name = \"r\", kind = \"fifo\", rate = \"1\" }]",
        1,
        Part::Resource,
        1,
    ),
    (
        "format = 2\nresource = [{ name = \"r\", kind = \"ceiling\" }]",
        1,
        Part::Resource,
        1,
    ),
    (
        "format = 1\nresource = [{ name = \"r\", kind = \"can\", slot = 1 }]",
        1,
        Part::Resource,
        1,
    ),
    (
        "format = 1\nresource = [{ name = \"r\", kind = \"can\" }, []]",
        1,
        Part::Resource,
        2,
    ),
    (
        "format = 1\nsource = [{ name = \"s\" }]",
        1,
        Part::Source,
        1,
    ),
    ("format = 1\nsource = [{ period = 5 }]", 1, Part::Source, 1),
    (
        "format = 1\nsource = [{ name = \"s\", period = 1.5 }]",
        1,
        Part::Source,
        1,
    ),
    (
        "format = 1\nsource = [{ name = \"s\", period = 5, jitter = \"1\" }]",
        1,
        Part::Source,
        1,
    ),
    (
        "format = 1\nsource = [{ name = \"s\", period = 5, offset = 1 }]",
        1,
        Part::Source,
        1,
    ),
    ("format = 1\ntask = [1]", 1, Part::Task, 1),
    (
        "format = 1\ntask = [{ name = \"t\", on = \"r\", after = \"s\", best = 1 }]",
        1,
        Part::Task,
        1,
    ),
    (
        "format = 1\ntask = [{ name = \"t\", on = \"r\", after = \"s\" }]",
        1,
        Part::Task,
        1,
    ),
    (
        "format = 1\ntask = [{ name = \"t\", on = \"r\", after = \"s\", payload = 1, best = 1 }]",
        1,
        Part::Task,
        1,
    ),
    (
        "format = 1\ntask = [{ name = \"t\", on = \"r\", after = \"s\", best = 1, worst = 1, extended = true }]",
        1,
        Part::Task,
        1,
    ),
    (
        "format = 1\ntask = [{ name = \"t\", on = \"r\", after = \"s\", payload = 1, extended = 1 }]",
        1,
        Part::Task,
        1,
    ),
    (
        "format = 1\ntask = [{ name = \"t\", after = \"s\", best = 1, worst = 1 }]",
        1,
        Part::Task,
        1,
    ),
    (
        "format = 1\ntask = [{ name = \"t\", on = \"r\", best = 1, worst = 1 }]",
        1,
        Part::Task,
        1,
    ),
    (
        "format = 1\ntask = [{ name = \"t\", on = 1, after = \"s\", best = 1, worst = 1 }]",
        1,
        Part::Task,
        1,
    ),
    (
        "format = 1\ntask = [{ name = \"t\", on = \"r\", after = \"s\", best = 1, worst = 1, deadline = 9 }]",
        1,
        Part::Task,
        1,
    ),
    (
        "format = 1\ntask = [{ name = \"t\", on = \"r\", after = [\"s\"], best = 1, worst = 1 }]",
        1,
        Part::Task,
        1,
    ),
    (
        "format = 2\ntask = [{ name = \"t\", on = \"r\", after = 1, best = 1, worst = 1 }]",
        1,
        Part::Task,
        1,
    ),
    (
        "format = 2\ntask = [{ name = \"t\", on = \"r\", after = [\"s\", 1], best = 1, worst = 1 }]",
        1,
        Part::Task,
        1,
    ),
    (
        "format = 2\ntask = [{ name = \"t\", on = \"r\", after = [\"s\"], best = 1, worst = 1 }]",
        5,
        Part::Task,
        1,
    ),
    (
        "format = 2\ntask = [{ name = \"t\", on = \"r\", after = \"s\", best = 1, worst = 1, region = 1 }]",
        1,
        Part::Task,
        1,
    ),
    (
        "format = 4\ntask = [{ name = \"t\", on = \"r\", after = \"s\", best = 1, worst = 1, region = \"1\" }]",
        1,
        Part::Task,
        1,
    ),
    (
        "format = 4\ntask = [{ name = \"t\", on = \"r\", after = [\"s\"], best = 1, worst = 1, region = 1 }]",
        5,
        Part::Task,
        1,
    ),
    ("format = 1\npath = [{ name = \"p\" }]", 1, Part::Path, 1),
    ("format = 1\npath = [{ tasks = [] }]", 1, Part::Path, 1),
    (
        "format = 1\npath = [{ name = \"p\", tasks = \"t\" }]",
        1,
        Part::Path,
        1,
    ),
    (
        "format = 1\npath = [{ name = \"p\", tasks = [\"t\", 3] }]",
        1,
        Part::Path,
        1,
    ),
    (
        "format = 1\npath = [{ name = \"p\", tasks = [], deadline = \"9\" }]",
        1,
        Part::Path,
        1,
    ),
    (
        "format = 1\npath = [{ name = \"p\", tasks = [], best = 9 }]",
        1,
        Part::Path,
        1,
    ),
    // The first part and the first place are told, and the form comes before all numbers.
    (
        "format = 1\nresource = [{ name = \"r\", kind = \"can\", limit = 0 }]\npath = [{ name = \"p\" }]",
        1,
        Part::Path,
        1,
    ),
    (
        "format = 1\ntask = [1]\nsource = [{ name = \"s\", period = 5 }, 2]",
        1,
        Part::Source,
        2,
    ),
    (
        "format = 1\nresource = [{ name = \"r\", kind = \"can\", limit = 0 }]",
        2,
        Part::Resource,
        1,
    ),
];

/// Texts of the case *two_activators*, and others that stand in their place.
const REFUSED: [(&str, &[Refused]); 5] = [
    (TWO_ACTIVATORS, &OTHER_FORMS),
    (
        "[\"sa\", \"sb\"]",
        &[
            ("[\"sa\", \"sa\"]", 14, Part::Task, 1),
            ("[\"sa\", \"sb\", \"sa\"]", 14, Part::Task, 1),
            ("[]", 14, Part::Task, 1),
            ("[\"sa\", \"n\"]", 6, Part::Task, 1),
            ("[\"sa\", \"x y\"]", 5, Part::Task, 1),
            ("[\"sa\", [\"sb\"]]", 1, Part::Task, 1),
            ("{ sa = \"sb\" }", 1, Part::Task, 1),
        ],
    ),
    (
        "\"m\", best",
        &[("[\"m\", \"sa\", 2], best", 1, Part::Task, 2)],
    ),
    ("[\"m\", \"n\"]", &[("[\"n\", \"m\"]", 11, Part::Path, 1)]),
    (
        "format = 2",
        &[
            ("format = 1", 1, Part::Task, 1),
            ("format = 3", 13, Part::File, 0),
        ],
    ),
];

/// Whether a file with another text in this one's place is refused for its reason.
fn is_refused(alloc: Global, file: &str, old: &str, other: &Refused) -> Result<bool, AllocError> {
    let (new, reason, part, place) = *other;
    let text = file.replace(alloc, old, new)?;
    let refusal = Refusal {
        reason,
        part,
        place,
    };
    Ok(read_system(alloc, text.as_bytes()).err() == Some(FileRefusal::Refused(refusal)))
}

#[test]
fn refuses_other_forms(rt: HostRuntime) -> Result<(), Fail> {
    let alloc = rt.alloc();
    let mut wrong = None;
    for (old, others) in &REFUSED {
        for other in *others {
            if !is_refused(alloc, TWO_ACTIVATORS, old, other)? {
                wrong = Some(other.0);
            }
        }
    }
    assert!(rt; wrong.is_none(), "{wrong:?}");
    Ok(())
}

/// The first byte of the list of two activators, and its bytes.
const LIST: usize = 214;

const LIST_BYTES: usize = 12;

/// A byte, and how many files are read where it stands in place of one byte of the list after the other: systems, no TOML, a name
/// of nothing, a name twice, and any other.
const SPOILED: [(u8, [u32; 5]); 18] = [
    (0, [0, 12, 0, 0, 0]),
    (255, [0, 12, 0, 0, 0]),
    (b'"', [4, 8, 0, 0, 0]),
    (b'\n', [1, 11, 0, 0, 0]),
    (b',', [1, 7, 4, 0, 0]),
    (b'[', [1, 7, 4, 0, 0]),
    (b']', [1, 7, 4, 0, 0]),
    (b'{', [0, 8, 4, 0, 0]),
    (b'}', [0, 8, 4, 0, 0]),
    (b's', [2, 8, 2, 0, 0]),
    (b'b', [1, 8, 2, 1, 0]),
    (b'a', [1, 8, 2, 1, 0]),
    (b'\\', [0, 11, 1, 0, 0]),
    (b'#', [0, 8, 4, 0, 0]),
    (b'\'', [0, 8, 4, 0, 0]),
    (b'1', [0, 8, 4, 0, 0]),
    (b'=', [0, 8, 4, 0, 0]),
    (b' ', [1, 7, 4, 0, 0]),
];

/// Which of the five is told of the file with this byte at a place of the list.
fn told_of(alloc: Global, place: usize, byte: u8) -> Result<usize, AllocError> {
    let mut bytes = Vec::from_slice(alloc, TWO_ACTIVATORS.as_bytes())?;
    if let Some(at) = bytes.get_mut(place) {
        *at = byte;
    }
    match read_system(alloc, bytes.as_slice()) {
        Ok(_) => Ok(0),
        Err(FileRefusal::NotToml) => Ok(1),
        Err(
            FileRefusal::Refused(
                Refusal {
                    reason: 5,
                    part: Part::Task,
                    place: 1,
                },
            ),
        ) => Ok(2),
        Err(
            FileRefusal::Refused(
                Refusal {
                    reason: 14,
                    part: Part::Task,
                    place: 1,
                },
            ),
        ) => Ok(3),
        Err(_) => Ok(4),
    }
}

#[test]
fn refuses_other_lists(rt: HostRuntime) -> Result<(), Fail> {
    let alloc = rt.alloc();
    let mut wrong = None;
    for (byte, wanted) in &SPOILED {
        let mut counts = [0u32; 5];
        for place in LIST..LIST + LIST_BYTES {
            if let Some(count) = counts.get_mut(told_of(alloc, place, *byte)?) {
                *count = count.saturating_add(1);
            }
        }
        if counts != *wanted {
            wrong = Some(*byte);
        }
    }
    assert!(rt; wrong.is_none(), "{wrong:?}");
    Ok(())
}

/// Bytes that are no TOML document, after which so many brackets come.
const NO_TOML: [(&[u8], usize); 5] = [
    (b"format = 1\nformat = 1", 0),
    (b"format = 9223372036854775808", 0),
    (b"resource = [{ name = \"cp", 0),
    (b"\xff", 0),
    (b"format = ", 10_000),
];

/// Whether these bytes and brackets are no TOML document.
fn is_no_toml(alloc: Global, start: &[u8], brackets: usize) -> Result<bool, AllocError> {
    let mut bytes = Vec::from_slice(alloc, start)?;
    bytes.extend_from_slice("[".repeat(alloc, brackets)?.as_bytes())?;
    Ok(read_system(alloc, bytes.as_slice()).err() == Some(FileRefusal::NotToml))
}

#[test]
fn refuses_other_bytes(rt: HostRuntime) -> Result<(), Fail> {
    let alloc = rt.alloc();
    let mut right = true;
    for (start, brackets) in &NO_TOML {
        right &= is_no_toml(alloc, start, *brackets)?;
    }
    assert!(rt; right);
    Ok(())
}

/// Files, the format in which their systems are printed, which is 4 where they were read from it and else the least that can say
/// them, and how many tasks and paths these have.
const READ_BACK: [(&str, &str, u32, u32); 20] = [
    ("format = 1", "format = 1\n", 0, 0),
    ("format = 2", "format = 1\n", 0, 0),
    ("format = 4", "format = 4\n", 0, 0),
    (TWO_TASKS, "format = 1\n", 2, 0),
    (TWO_TASKS_LATER, "format = 1\n", 2, 0),
    (TWO_ACTIVATORS, "format = 2\n", 2, 1),
    (SHARED_SOURCE, "format = 2\n", 3, 0),
    (COOPERATIVE, "format = 4\n", 3, 0),
    (ON_A_CLOCK, "format = 4\n", 2, 1),
    (GATEWAY, "format = 4\n", 9, 1),
    (LOCKED, "format = 4\n", 4, 1),
    (LONG_WINDOW, "format = 1\n", 2, 0),
    (DAVIS_BUS, "format = 1\n", 3, 1),
    (FRAME_LENGTHS, "format = 1\n", 2, 0),
    (CROSSING_CHAINS, "format = 1\n", 4, 2),
    (ENDLESS_JITTER, "format = 1\n", 5, 1),
    (TDMA_GAP, "format = 1\n", 1, 0),
    (ROUND_ROBIN, "format = 1\n", 2, 0),
    (ROUND_ROBIN_SHARE, "format = 1\n", 2, 0),
    (BURST, "format = 1\n", 1, 0),
];

/// What is printed of the system of a file, if it has so many tasks and paths, and else nothing.
fn printed(alloc: Global, file: &[u8], tasks: u32, paths: u32) -> Result<Vec<u8>, Fail> {
    let system = read_system(alloc, file)?;
    if system.tasks() != tasks || system.paths() != paths {
        return Ok(Vec::new(alloc));
    }
    Ok(print_system(alloc, &system)?)
}

/// What is printed is read again, and printed the same.
#[test]
fn prints_and_reads_back(rt: HostRuntime) -> Result<(), Fail> {
    let alloc = rt.alloc();
    let mut wrong = None;
    for (text, format, tasks, paths) in &READ_BACK {
        let first = printed(alloc, text.as_bytes(), *tasks, *paths)?;
        let second = printed(alloc, first.as_slice(), *tasks, *paths)?;
        if !first.starts_with(format.as_bytes()) || first.as_slice() != second.as_slice() {
            wrong = Some(*text);
        }
    }
    assert!(rt; wrong.is_none(), "{wrong:?}");
    Ok(())
}

/// Regions are read in format 4 alone, on preemptive resources, and in their range.
const REGIONS: [(&str, Refused); 6] = [
    ("format = 4", ("format = 2", 1, Part::Task, 2)),
    ("region = 2", ("region = 0", 2, Part::Task, 2)),
    ("region = 2", ("region = 10000001", 2, Part::Task, 2)),
    ("region = 2", ("region = \"2\"", 1, Part::Task, 2)),
    ("region = 1 ", ("region = 4.0 ", 1, Part::Task, 3)),
    ("\"preemptive\"", ("\"can\"", 9, Part::Task, 2)),
];

#[test]
fn refuses_other_regions(rt: HostRuntime) -> Result<(), Fail> {
    let alloc = rt.alloc();
    let mut wrong = None;
    for (old, other) in &REGIONS {
        if !is_refused(alloc, COOPERATIVE, old, other)? {
            wrong = Some(other.0);
        }
    }
    assert!(rt; wrong.is_none(), "{wrong:?}");
    Ok(())
}

/// Clocks are read in format 4 alone; an offset stands beside one.
const CLOCKS: [(&str, Refused); 7] = [
    ("format = 4", ("format = 2", 1, Part::Source, 1)),
    ("clock = \"other\"", ("clock = 3", 1, Part::Source, 3)),
    (", clock = \"other\"", ("", 1, Part::Source, 3)),
    ("offset = 5", ("offset = \"5\"", 1, Part::Source, 2)),
    ("offset = 5", ("offset = 20", 2, Part::Source, 2)),
    ("\"other\"", ("\"o r\"", 3, Part::Source, 3)),
    ("period = 20", ("period = 999999", 15, Part::Source, 2)),
];

/// What is printed of two of its sources: no offset of 0.
const PRINTED: &str =
    "name = \"sa\"\nperiod = 10\n\n[[source]]\nclock = \"timer\"\ndistance = 0\njitter = 1\nname = \"sb\"\noffset = 5\nperiod = 20\n";

#[test]
fn reads_and_prints_clocks(rt: HostRuntime) -> Result<(), Fail> {
    let alloc = rt.alloc();
    let mut wrong = None;
    for (old, other) in &CLOCKS {
        if !is_refused(alloc, ON_A_CLOCK, old, other)? {
            wrong = Some(other.0);
        }
    }
    let system = read_system(alloc, ON_A_CLOCK.as_bytes())?;
    let bytes = print_system(alloc, &system)?;
    let text = std::str::from_utf8(bytes.as_slice()).unwrap_or("");
    assert!(rt;
        wrong.is_none() && text.contains(PRINTED),
        "{wrong:?} {text}"
    );
    Ok(())
}

/// Queues are read in format 4 alone; their tasks have neither a priority, a slot nor a region, and frames on a port a payload of
/// up to 1,500 bytes.
const QUEUES: [(&str, Refused); 14] = [
    ("format = 4", ("format = 2", 1, Part::Resource, 2)),
    ("rate = 100", ("rate = 0", 2, Part::Resource, 4)),
    ("rate = 100", ("rate = 673", 2, Part::Resource, 4)),
    ("rate = 100", ("gap = 1", 9, Part::Resource, 4)),
    ("rate = 100", ("bit = 1", 9, Part::Resource, 4)),
    ("\"fifo\", rate", ("\"can\", rate", 9, Part::Resource, 4)),
    ("worst = 90", ("worst = 90, priority = 1", 9, Part::Task, 4)),
    ("worst = 90", ("worst = 90, slot = 1", 9, Part::Task, 4)),
    ("worst = 90", ("worst = 90, region = 2", 9, Part::Task, 4)),
    (
        "payload = 0",
        ("payload = 0, extended = true", 9, Part::Task, 8),
    ),
    ("payload = 0", ("payload = 0, best = 1", 1, Part::Task, 8)),
    ("payload = 1500", ("payload = 1501", 2, Part::Task, 9)),
    (
        "payload = 4, priority = 2",
        ("payload = 9, priority = 2", 9, Part::Task, 2),
    ),
    (
        "payload = 4, priority = 2",
        ("payload = 4", 9, Part::Task, 2),
    ),
];

/// Locks are read in format 4 alone, each with all three keys and no others; they stand on tasks of resources with ceilings.
const LOCKS: [(&str, Refused); 13] = [
    ("format = 4", ("format = 2", 1, Part::Resource, 1)),
    ("\"ceiling\"", ("\"preemptive\"", 9, Part::Task, 1)),
    ("start = 2, length", ("length", 1, Part::Task, 3)),
    ("start = 2", ("start = 2.0", 1, Part::Task, 3)),
    ("start = 2", ("start = -1", 2, Part::Task, 3)),
    ("start = 2", ("start = 2, end = 7", 1, Part::Task, 3)),
    ("start = 2", ("start = 4", 16, Part::Task, 3)),
    ("length = 5", ("length = 0", 2, Part::Task, 3)),
    ("length = 5", ("length = \"5\"", 1, Part::Task, 3)),
    ("region = 3", ("locks = 3", 1, Part::Task, 2)),
    ("region = 3", ("locks = [3]", 1, Part::Task, 2)),
    (
        "region = 3",
        (
            "region = 3, locks = [{ name = \"x\", start = 0, length = 1 }]",
            16,
            Part::Task,
            2,
        ),
    ),
    ("name = \"file\"", ("name = \"f/\"", 3, Part::Task, 3)),
];

/// What is printed of the locks of a task.
const PRINTED_LOCKS: &str = "lock";

/// What is printed of a queue, and of a frame on a port: ticks, and no rate.
const PRINTED_QUEUE: &str = "kind = \"fifo\"\nlimit = 2000\nname = \"gateway\"\n";

const PRINTED_FRAME: &str =
    "after = \"log\"\nbest = 123\nname = \"pl\"\non = \"port\"\nworst = 124\n";

#[test]
fn reads_and_prints_queues(rt: HostRuntime) -> Result<(), Fail> {
    let alloc = rt.alloc();
    let mut wrong = None;
    for (old, other) in &QUEUES {
        if !is_refused(alloc, GATEWAY, old, other)? {
            wrong = Some(other.0);
        }
    }
    let system = read_system(alloc, GATEWAY.as_bytes())?;
    let bytes = print_system(alloc, &system)?;
    let text = std::str::from_utf8(bytes.as_slice()).unwrap_or("");
    assert!(rt;
        wrong.is_none() && text.contains(PRINTED_QUEUE) && text.contains(PRINTED_FRAME),
        "{wrong:?} {text}"
    );
    Ok(())
}

#[test]
fn reads_and_prints_locks(rt: HostRuntime) -> Result<(), Fail> {
    let alloc = rt.alloc();
    let mut wrong = None;
    for (old, other) in &LOCKS {
        if !is_refused(alloc, LOCKED, old, other)? {
            wrong = Some(other.0);
        }
    }
    let system = read_system(alloc, LOCKED.as_bytes())?;
    let bytes = print_system(alloc, &system)?;
    let text = std::str::from_utf8(bytes.as_slice()).unwrap_or("");
    assert!(rt;
        wrong.is_none() && text.contains(PRINTED_LOCKS),
        "{wrong:?} {text}"
    );
    Ok(())
}

/// The regions of the tasks of the system with regions.
const TICKS: &[u64] = &[1, 2, 1];

/// Whether a system's tasks have them.
fn has_regions(system: &System) -> bool {
    let mut right = system.tasks() as usize == TICKS.len();
    for i in 0..system.tasks() {
        right &= TICKS.get(i as usize).copied() == Some(system.task(TaskId(i)).region);
    }
    right
}

/// A region is 1 where none is given, and is printed where it is more.
#[test]
fn prints_regions(rt: HostRuntime) -> Result<(), Fail> {
    let alloc = rt.alloc();
    let system = read_system(alloc, COOPERATIVE.as_bytes())?;
    let bytes = print_system(alloc, &system)?;
    let again = read_system(alloc, bytes.as_slice())?;
    let text = std::str::from_utf8(bytes.as_slice()).unwrap_or("");
    let keys = text.matches("region = ").count();
    let there = text.contains("priority = 2\nregion = 2\nworst = 4\n");
    assert!(rt;
        has_regions(&system) && has_regions(&again) && keys == 1 && there,
        "{text}"
    );
    Ok(())
}

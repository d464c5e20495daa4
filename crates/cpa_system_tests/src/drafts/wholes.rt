//! Drafts that are told whole, or by their last entries.

use crate::drafts::cases::{BASE, Case};
use cpa_draft::Part;

/// Drafts with more than one fault, and faults of several entries.
pub(crate) const WHOLES: [Case; 22] = [
    (&BASE, None),
    (&[], None),
    // The greatest numbers of a large system.
    (
        &[
            "large",
            "resource|cpu|preemptive|100000000",
            "resource|table|tdma||10000000",
            "source|s|1000000000",
            "task|a|cpu|10000000|10000000||1||s",
            "task|b|table|1|1|||10000000|a",
        ],
        None,
    ),
    (
        &["large", "resource|cpu|preemptive|100000001"],
        Some((2, Part::Resource, 1)),
    ),
    (
        &["large", "resource|table|tdma||10000001"],
        Some((2, Part::Resource, 1)),
    ),
    (
        &["large", "task|a|cpu|1|10000001||1||s"],
        Some((2, Part::Task, 1)),
    ),
    // A small system has no queue.
    (
        &[
            "resource|cpu|preemptive",
            "resource|port|fifo",
            "source|s|0",
        ],
        Some((2, Part::Resource, 2)),
    ),
    (&["resource|port|fifo||0||1"], Some((2, Part::Resource, 1))),
    // And neither ceilings nor sections.
    (&["resource|cpu|ceiling"], Some((2, Part::Resource, 1))),
    (
        &[
            "resource|cpu|preemptive",
            "source|s|10",
            "bus 0 1,task|a|cpu|1|1||1||s",
        ],
        Some((2, Part::Task, 1)),
    ),
    // Sources on clocks: a cycle of as many ticks, and one of as many events, as there may be.
    (
        &[
            "large",
            "source|s|1000000000|||c|999999999",
            "source|t|4095|||d",
            "source|u|1|||d|0",
            "source|v|7",
        ],
        None,
    ),
    (
        &["large", "source|s|40000|||c", "source|t|39999|||c"],
        Some((15, Part::Source, 2)),
    ),
    (
        &[
            "large",
            "source|s|4096|||c",
            "source|t|7|||d",
            "source|u|1|||c",
            "source|v|1|||c",
        ],
        Some((15, Part::Source, 3)),
    ),
    (&["large", "source|s|10|||c|10"], Some((2, Part::Source, 1))),
    (&["large", "source|s|10|||c|-1"], Some((2, Part::Source, 1))),
    (&["large", "source|s|10||||3"], Some((2, Part::Source, 1))),
    (&["source|s|10|||c|3"], Some((2, Part::Source, 1))),
    (
        &["large", "source|s|10|||c", "source|t|10|||c c"],
        Some((3, Part::Source, 2)),
    ),
    // What a clock has comes after all else.
    (
        &[
            "large",
            "source|s|40000|||c",
            "source|t|39999|||c",
            "resource|cpu|preemptive",
            "task|a|cpu|1|1||1|",
        ],
        Some((14, Part::Task, 1)),
    ),
    // A resource comes before a source, whatever the place.
    (
        &[
            "resource|cpu|preemptive",
            "resource|bus|can",
            "resource|r|preemptive|0",
            "source|s|0",
            "task|a|cpu|1|1||1||s",
            "task|b|cpu|1|1||2||a",
            "path|w||a",
        ],
        Some((2, Part::Resource, 3)),
    ),
    // An earlier reason comes before an earlier part.
    (
        &[
            "resource||preemptive",
            "source|s|10",
            "task|a|cpu|1|1||1||s",
            "task|b|cpu|1|0||2||a",
            "path|w||a",
        ],
        Some((2, Part::Task, 2)),
    ),
    // A source comes before a task with its name, wherever the task's own fault stands.
    (
        &[
            "resource|cpu|preemptive",
            "resource|bus|can",
            "resource|ring|round-robin",
            "resource|table|tdma",
            "source|s|10",
            "source|b|10",
            "task|a|cpu|1|1||1||s",
            "task|b|cpu|1|1||2||a",
            "path|w||a",
        ],
        Some((4, Part::Task, 2)),
    ),
];

/// Such tasks and paths, after the resources and the source of the base.
pub(crate) const TASKS: [Case; 12] = [
    // An unknown name at the third task comes before a ring of the first two, and the ring before a priority.
    (
        &[
            "task|a|cpu|1|1||1||b",
            "task|b|cpu|1|1||1||a",
            "task|c|cpu|1|1||2||zz",
        ],
        Some((5, Part::Task, 3)),
    ),
    (
        &[
            "task|a|cpu|1|1||1||b",
            "task|b|cpu|1|1||1||a",
            "task|c|cpu|1|1||2||s",
        ],
        Some((6, Part::Task, 1)),
    ),
    (
        &[
            "task|a|cpu|1|1||1||s",
            "task|b|cpu|1|1||1||a",
            "task|c|cpu|1|1||2||s",
        ],
        Some((8, Part::Task, 2)),
    ),
    // A task that follows a ring reaches no source either.
    (
        &[
            "task|a|cpu|1|1||1||c",
            "task|b|cpu|1|1||2||b",
            "task|c|cpu|1|1||3||s",
            "path|w||a",
        ],
        Some((6, Part::Task, 2)),
    ),
    (
        &[
            "task|a|cpu|1|1||1||b",
            "task|b|cpu|1|1||2||c",
            "task|c|cpu|1|1||3||b",
            "path|w||a",
        ],
        Some((6, Part::Task, 1)),
    ),
    // The first of three with one priority is no fault, the other two are.
    (
        &[
            "task|a|cpu|1|1||1||s",
            "task|b|cpu|1|1||1||a",
            "task|c|cpu|1|1||1||s",
            "path|w||a",
        ],
        Some((8, Part::Task, 2)),
    ),
    // The name before a task of a path is among its activators, wherever it stands there.
    (
        &[
            "task|a|cpu|1|1||1||s",
            "task|b|cpu|1|1||2||s|a",
            "task|c|cpu|1|1||3||s|a",
            "path|w||a|c",
        ],
        None,
    ),
    (
        &[
            "task|a|cpu|1|1||1||s",
            "task|b|cpu|1|1||2||s|a",
            "task|c|cpu|1|1||3||s|a",
            "path|w||a|b|c",
        ],
        Some((11, Part::Path, 1)),
    ),
    // The source is an activator of the second task so many times.
    (&["task|a|cpu|1|1||1||d", "task|d|cpu|1|1||2||s"], None),
    (
        &["task|a|cpu|1|1||1||d", "task|d|cpu|1|1||2||s|s"],
        Some((14, Part::Task, 2)),
    ),
    (
        &[
            "task|a|cpu|1|1||1||d",
            "task|d|cpu|1|1||2||s|s|s|s|s|s|s|s|s|s|s|s|s|s|s|s|s|s|s|s|s|s|s|s|s|s|s|s|s|s|s|s",
        ],
        Some((14, Part::Task, 2)),
    ),
    (
        &[
            "task|a|cpu|1|1||1||d",
            "task|d|cpu|1|1||2||s|s|s|s|s|s|s|s|s|s|s|s|s|s|s|s|s|s|s|s|s|s|s|s|s|s|s|s|s|s|s|s|s",
        ],
        Some((14, Part::Task, 1)),
    ),
];

/// A line, the number of the first such entry, and that after the last; each `#` stands for the number. Then how many tasks a layer
/// has, where each task comes after all of the layer before; else 0.
pub(crate) type Run = (&'static str, u32, u32, u32);

/// Entries with numbers, after the resources and the source of the base.
pub(crate) const RUNS: [(&[Run], Option<(u8, Part, u64)>); 17] = [
    // Chains.
    (&[(FIRST, 0, 1, 0), (LATER, 1, 32, 1)], None),
    (
        &[(FIRST, 0, 1, 0), (LATER, 1, 33, 1)],
        Some((7, Part::Task, 33)),
    ),
    (
        &[(FIRST, 0, 1, 0), (LATER, 1, 600, 1)],
        Some((7, Part::Task, 33)),
    ),
    // Layers have very many chains, and streams.
    (&[(FIRST, 0, 2, 0), (LATER, 2, 12, 2)], None),
    (
        &[(FIRST, 0, 2, 0), (LATER, 2, 14, 2)],
        Some((14, Part::Task, 13)),
    ),
    (&[(FIRST, 0, 32, 0), (LATER, 32, 64, 32)], None),
    (
        &[(FIRST, 0, 16, 0), (LATER, 16, 512, 16)],
        Some((14, Part::Task, 33)),
    ),
    (
        &[(FIRST, 0, 16, 0), (LATER, 16, 528, 16)],
        Some((7, Part::Task, 513)),
    ),
    // The place is that of the first task with too many streams, an empty list or a double; and doubles count. The first of these
    // tasks comes after t0 to t32.
    (
        &[(FULL, 33, 34, 33), (LATER, 0, 33, 0)],
        Some((14, Part::Task, 2)),
    ),
    (
        &[(FULL, 33, 34, 33), (FIRST, 0, 33, 0)],
        Some((14, Part::Task, 1)),
    ),
    // As many entries of each part as there may be, and one more of one after the other.
    (
        &[
            (CPU, 0, 60, 0),
            (S, 0, 127, 0),
            (FIRST, 0, 512, 0),
            (W, 0, 128, 0),
        ],
        None,
    ),
    (
        &[
            (CPU, 0, 60, 0),
            (S, 0, 127, 0),
            (FIRST, 0, 512, 0),
            (W, 0, 129, 0),
        ],
        Some((12, Part::Path, 129)),
    ),
    (
        &[
            (CPU, 0, 60, 0),
            (S, 0, 127, 0),
            (FIRST, 0, 513, 0),
            (W, 0, 129, 0),
        ],
        Some((12, Part::Task, 513)),
    ),
    (
        &[
            (CPU, 0, 60, 0),
            (S, 0, 128, 0),
            (FIRST, 0, 513, 0),
            (W, 0, 129, 0),
        ],
        Some((12, Part::Source, 129)),
    ),
    (
        &[
            (CPU, 0, 61, 0),
            (S, 0, 128, 0),
            (FIRST, 0, 513, 0),
            (W, 0, 129, 0),
        ],
        Some((12, Part::Resource, 65)),
    ),
    // The same of a large system.
    (
        &[
            (LARGE, 0, 1, 0),
            (CPU, 0, 124, 0),
            (S, 0, 8191, 0),
            (FIRST, 0, 8192, 0),
            (W, 0, 2048, 0),
        ],
        None,
    ),
    (
        &[
            (LARGE, 0, 1, 0),
            (CPU, 0, 124, 0),
            (S, 0, 8191, 0),
            (FIRST, 0, 8193, 0),
            (W, 0, 2049, 0),
        ],
        Some((12, Part::Task, 8193)),
    ),
];

const LARGE: &str = "large";

const FIRST: &str = "task|t#|cpu|1|1||#||s";

const LATER: &str = "task|t#|cpu|1|1||#|";

const FULL: &str = "task|full|cpu|1|1||100|";

const CPU: &str = "resource|r#|preemptive";

const S: &str = "source|s#|10";

const W: &str = "path|w#||t0";

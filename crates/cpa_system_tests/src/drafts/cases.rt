//! Drafts, and why they are refused.
//!
//! An entry is a line of fields, with a bar between each two; an empty one stands for a key that is absent. After the name these are:
//! of a resource its kind, its limit, its gap, its bit time and its rate; of a source its period, its jitter, its distance, its clock and its offset;
//! of a task its resource, its executions, its payload, its priority and its slot, and then its activators; of a path its deadline, and then its
//! tasks. A region stands behind the word `task`; in its place the word `extended` or `standard` says what identifier a frame has. The line
//! `large`, or a region, makes a draft one of a large system.

use cpa_draft::Part;

/// Lines that stand after those with which all drafts of a table begin, and the refusal: the reason, the part and the place.
pub(crate) type Case = (&'static [&'static str], Option<(u8, Part, u64)>);

/// What is told where any one of some lines stands after those with which all drafts of a table begin.
pub(crate) type Told = (Option<(u8, Part, u64)>, &'static [&'static str]);

/// One resource of each kind, and one source.
pub(crate) const PLACES: &[&str] = &[
    "resource|cpu|preemptive",
    "resource|bus|can",
    "resource|ring|round-robin",
    "resource|table|tdma",
    "source|s|10",
];

/// A system to which no reason applies: the same, with two tasks and one path.
pub(crate) const BASE: [&str; 8] = [
    "resource|cpu|preemptive",
    "resource|bus|can",
    "resource|ring|round-robin",
    "resource|table|tdma",
    "source|s|10",
    "task|a|cpu|1|1||1||s",
    "task|b|cpu|1|1||2||a",
    "path|w||a",
];

/// What is told where any one of these lines stands after the base.
pub(crate) const ADDED: [Told; 25] = [
    (
        None,
        &[
            "resource|a|preemptive",
            "resource|r|preemptive|1",
            "resource|r|tdma||1000000",
            "resource|r|can|||1000",
        ],
    ),
    (
        Some((2, Part::Resource, 5)),
        &[
            "resource|r|preemptive|0",
            "resource|r|preemptive|10000001",
            "resource|r|can||1000001",
            "resource|r|tdma||-1",
            "resource|r|can|||0",
            "resource|r|preemptive|||1001",
        ],
    ),
    (
        Some((3, Part::Resource, 5)),
        &["resource||preemptive", "resource|c p|preemptive"],
    ),
    (
        Some((4, Part::Resource, 5)),
        &["resource|cpu|preemptive", "resource|table|preemptive"],
    ),
    (
        Some((9, Part::Resource, 5)),
        &[
            "resource|r|preemptive||0",
            "resource|r|can||0",
            "resource|r|tdma|||1",
        ],
    ),
    (
        None,
        &["source|cpu|10", "source|w|10|1000000000", "source|t|10||10"],
    ),
    (
        Some((2, Part::Source, 2)),
        &[
            "source|t|0",
            "source|t|1000000001",
            "source|t|10|-1",
            "source|t|10|1000000001",
            "source|t|10||11",
            "source|t|10||-1",
        ],
    ),
    (Some((3, Part::Source, 2)), &["source|é|10"]),
    (Some((4, Part::Source, 2)), &["source|s|10"]),
    (
        None,
        &[
            "task|cpu|cpu|1|1||3||s",
            "task|c|cpu|1|1||536870911||s",
            "task|c|bus|||8|3||s",
            "task|c|cpu|1|1||3||s|b",
            "task|c|bus|1|1||1||s",
            "task|c|ring|1|1|||1|s",
            "task|c|table|1|1|||1000000|s",
            "task|c|cpu|2|2||3||s",
            "task 1|c|cpu|2|2||3||s",
            "task 10000000|c|cpu|2|2||3||s",
        ],
    ),
    (
        Some((2, Part::Task, 3)),
        &[
            "task|c|cpu|0|1||3||s",
            "task|c|cpu|1|1000001||3||s",
            "task|c|cpu|1|1||-1||s",
            "task|c|cpu|1|1||536870912||s",
            "task|c|ring|1|1|||0|s",
            "task|c|ring|1|1|||1000001|s",
            "task|c|bus|||9|3||s",
            "task|c|cpu|||-1|3||s",
            "task 0|c|cpu|1|1||3||s",
            "task -1|c|cpu|1|1||3||s",
            "task 10000001|c|cpu|1|1||3||s",
            "task 0|c|bus|1|1||3||s",
        ],
    ),
    (Some((3, Part::Task, 3)), &["task|c/|cpu|1|1||3||s"]),
    (
        Some((4, Part::Task, 3)),
        &[
            "task|s|cpu|1|1||3||s",
            "task|a|cpu|1|1||3||s",
            "task|b|cpu|1|1||3||s",
        ],
    ),
    (
        Some((5, Part::Task, 3)),
        &[
            "task|c|a|1|1||3||s",
            "task|c|s|1|1||3||s",
            "task|c|cpu|1|1||3||cpu",
            "task|c|cpu|1|1||3||",
            "task|c|cpu|1|1||3||s|zz",
            "task|c|cpu|1|1||3||s|x y",
        ],
    ),
    (
        Some((6, Part::Task, 3)),
        &["task|c|cpu|1|1||3||c", "task|c|cpu|1|1||3||s|a|c"],
    ),
    (
        Some((14, Part::Task, 3)),
        &["task|c|cpu|1|1||3|", "task|c|cpu|1|1||3||a|s|a"],
    ),
    (
        Some((10, Part::Task, 3)),
        &[
            "task|c|cpu|2|1||3||s|s",
            "task|c|cpu|2|1||3||s",
            "task|c|cpu|1000000|999999||3||s",
            "task|c|bus|3|2||3||s",
        ],
    ),
    (
        Some((8, Part::Task, 3)),
        &["task|c|cpu|1|1||1||s", "task 2|c|cpu|1|1||2||s"],
    ),
    (
        Some((9, Part::Task, 3)),
        &[
            "task|c|cpu|1|1||||s",
            "task|c|cpu|1|1||3|1|s",
            "task|c|bus|1|1|||1|s",
            "task|c|ring|1|1||3||s",
            "task|c|ring|1|1||1|1|s",
            "task|c|table|1|1||||s",
            "task|c|cpu|||0|3||s",
            "task|c|ring|||8||1|s",
            "task 1|c|bus|1|1||3||s",
            "task 2|c|ring|1|1|||1|s",
            "task 2|c|table|1|1|||1|s",
            "task 2|c|bus|2|1||3||s",
        ],
    ),
    (None, &["path|a||b", "path|v|1000000000|a|b"]),
    (
        Some((2, Part::Path, 2)),
        &["path|v|0|a", "path|v|1000000001|a"],
    ),
    (Some((3, Part::Path, 2)), &["path|v\n||a", "path|||a"]),
    (Some((4, Part::Path, 2)), &["path|w||a"]),
    (
        Some((5, Part::Path, 2)),
        &["path|v||a|s", "path|v||cpu", "path|v||a|b|z"],
    ),
    (
        Some((11, Part::Path, 2)),
        &["path|v|", "path|v||b|a", "path|v||a|a", "path|v||a|b|b"],
    ),
];

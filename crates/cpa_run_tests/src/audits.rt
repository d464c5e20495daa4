//! Recorded schedules.

use crate::calls::{Call, LongCall};
use crate::cases::{ROUND_ROBIN, TWO_ACTIVATORS};
use cpa_cases::{FOUR_KINDS, FOUR_KINDS_RUN, FOUR_KINDS_TRACE, LATE_JOBS, LATE_RUN, LATE_TRACE};

/// The same with the two jobs of `m1` as one.
const FOUR_KINDS_JOINED: &str =
    "low,0,2\na,0,2\nm2,0,6\nhigh,2,4\nb,2,3\na,3,4\nlow,4,7\nm1,6,14\nt,10,12\nt,20,21\n";

const RING_TRACE: &str = "event,sa,0\nevent,sb,0\n";

const AUDIT: &[&str] = &["audit", "sys", "tr", "ran"];

/// Schedules of the tasks that take turns.
pub const RINGS: [Call; 6] = [
    (
        AUDIT,
        &[
            ("sys", ROUND_ROBIN),
            ("tr", RING_TRACE),
            ("ran", "a,0,2\nb,2,3\na,3,4\n"),
        ],
        0,
        &["audit same segments 3\n"],
    ),
    (
        AUDIT,
        &[
            ("sys", ROUND_ROBIN),
            ("tr", RING_TRACE),
            ("ran", "a,0,2\nb,2,4\na,3,4\n"),
        ],
        4,
        &["audit wrong segment 2 expected b 2 3\n"],
    ),
    (
        AUDIT,
        &[
            ("sys", ROUND_ROBIN),
            ("tr", RING_TRACE),
            ("ran", "a,0,2\nb,2,3\n"),
        ],
        4,
        &["audit wrong segment 3 expected a 3 4\n"],
    ),
    (
        AUDIT,
        &[
            ("sys", ROUND_ROBIN),
            ("tr", RING_TRACE),
            ("ran", "a,0,2\nb,2,3\na,3,4\na,9,10\n"),
        ],
        4,
        &["audit wrong segment 4 expected none\n"],
    ),
    (
        AUDIT,
        &[
            ("sys", ROUND_ROBIN),
            ("tr", RING_TRACE),
            ("ran", "\u{feff}a,0,2\nb,2,3\na,3,4\n"),
        ],
        0,
        &["audit same segments 3\n"],
    ),
    (
        AUDIT,
        &[("sys", ROUND_ROBIN), ("tr", RING_TRACE), ("ran", "")],
        4,
        &["audit wrong segment 1 expected a 0 2\n"],
    ),
];

/// Schedules that are refused.
pub const REFUSED_ROWS: [Call; 6] = [
    (
        AUDIT,
        &[
            ("sys", ROUND_ROBIN),
            ("tr", RING_TRACE),
            ("ran", "a,0,2\nb,3,3\n"),
        ],
        19,
        &["schedule refused row 2 range\n"],
    ),
    (
        AUDIT,
        &[
            ("sys", ROUND_ROBIN),
            ("tr", RING_TRACE),
            ("ran", "zz,5,3\n"),
        ],
        19,
        &["schedule refused row 1 name\n"],
    ),
    (
        AUDIT,
        &[
            ("sys", ROUND_ROBIN),
            ("tr", RING_TRACE),
            ("ran", "zz,x,3\n"),
        ],
        19,
        &["schedule refused row 1 malformed\n"],
    ),
    (
        AUDIT,
        &[
            ("sys", ROUND_ROBIN),
            ("tr", RING_TRACE),
            ("ran", "a,0,20000001\n"),
        ],
        19,
        &["schedule refused row 1 range\n"],
    ),
    (
        AUDIT,
        &[("sys", ROUND_ROBIN), ("tr", RING_TRACE), ("ran", "a,0\n")],
        19,
        &["schedule refused row 1 malformed\n"],
    ),
    (
        AUDIT,
        &[
            ("sys", ROUND_ROBIN),
            ("tr", RING_TRACE),
            ("ran", "a,00000000000,3\n"),
        ],
        19,
        &["schedule refused row 1 malformed\n"],
    ),
];

/// Schedules of further systems.
pub const RUNS: [Call; 5] = [
    (
        AUDIT,
        &[
            ("sys", FOUR_KINDS),
            ("tr", FOUR_KINDS_TRACE),
            ("ran", FOUR_KINDS_RUN),
        ],
        0,
        &["audit same segments 11\n"],
    ),
    (
        AUDIT,
        &[
            ("sys", FOUR_KINDS),
            ("tr", FOUR_KINDS_TRACE),
            ("ran", FOUR_KINDS_JOINED),
        ],
        4,
        &["audit wrong segment 8 expected m1 6 10\n"],
    ),
    (
        AUDIT,
        &[("sys", LATE_JOBS), ("tr", LATE_TRACE), ("ran", LATE_RUN)],
        0,
        &["audit same segments 11\n"],
    ),
    (
        AUDIT,
        &[
            ("sys", TWO_ACTIVATORS),
            ("tr", "event,sa,0\nevent,sb,0\n"),
            ("ran", "m,0,3\nm,3,6\nn,3,5\nn,6,8\n"),
        ],
        0,
        &["audit same segments 4\n"],
    ),
    (
        AUDIT,
        &[("sys", "format = 1"), ("tr", ""), ("ran", "")],
        0,
        &["audit same segments 0\n"],
    ),
];

/// What the calls below may name, besides a long file.
const NAMED: &[(&str, &str)] = &[
    ("sys", ROUND_ROBIN),
    ("tr", RING_TRACE),
    ("short", "event,sa\n"),
    ("close", "event,sa,0\nevent,sa,1\n"),
];

/// A byte more than a schedule may have.
const LONG: (&str, &[u8], &[u8], u32) = ("long", b"x", &[b'x'; 64], 262_144);

/// The third file is loaded once the trace obeys. As many rows as there may be, one more, and one that is no text.
pub const LONG_SCHEDULES: [LongCall; 8] = [
    (
        &["audit", "sys", "short", "zz"],
        NAMED,
        LONG,
        16,
        "trace refused row 1 malformed\n",
    ),
    (
        &["audit", "sys", "tr", "zz"],
        NAMED,
        LONG,
        11,
        "cannot read zz\n",
    ),
    (
        &["audit", "sys", "zz", "long"],
        NAMED,
        LONG,
        11,
        "cannot read zz\n",
    ),
    (
        &["audit", "sys", "tr", "long"],
        NAMED,
        LONG,
        12,
        "too long long\n",
    ),
    (
        &["audit", "sys", "close", "long"],
        NAMED,
        LONG,
        17,
        "trace disobeys source sa times 0 1\n",
    ),
    (
        AUDIT,
        NAMED,
        ("ran", b"\xff,5,3\n", b"", 0),
        19,
        "schedule refused row 1 name\n",
    ),
    (
        AUDIT,
        NAMED,
        ("ran", b"", b"a,0,2\n", 200_000),
        4,
        "audit wrong segment 2 expected b 2 3\n",
    ),
    (
        AUDIT,
        NAMED,
        ("ran", b"", b"a,0,1\n", 200_001),
        19,
        "schedule refused too many\n",
    ),
];

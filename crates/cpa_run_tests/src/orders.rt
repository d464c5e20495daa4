//! Priority orders, and room to grow.

use crate::calls::Call;
use crate::cases::{
    CROSSING_CHAINS, CUT_NAME, DAVIS_BUS, ENDLESS_JITTER, JOINED_KINDS, REGIONS_IN_TIME, TDMA_GAP,
    TWO_ACTIVATORS,
};
use cpa_cases::{ENDLESS_WITHOUT_DEADLINE, GATEWAY, LOCKED, TWO_TASKS};

/// The bus of Davis and others with a deadline of 250 for each message, which none meets at the lowest place.
const LATE_BUS: &str = r#"format = 1
resource = [{ name = "bus", kind = "can", bit = 1 }]
source = [{ name = "s1", period = 250 }, { name = "s2", period = 350 }, { name = "s3", period = 350 }]
task = [
  { name = "m1", on = "bus", after = "s1", best = 100, worst = 100, priority = 1 },
  { name = "m2", on = "bus", after = "s2", best = 100, worst = 100, priority = 2 },
  { name = "m3", on = "bus", after = "s3", best = 100, worst = 100, priority = 3 },
]
path = [
  { name = "d1", tasks = ["m1"], deadline = 250 },
  { name = "d2", tasks = ["m2"], deadline = 250 },
  { name = "d3", tasks = ["m3"], deadline = 250 },
]
"#;

/// A processor without tasks.
pub const IDLE: &str = r#"format = 1
resource = [{ name = "p", kind = "preemptive" }]
"#;

/// The two tasks, with a deadline for `b`: its bound is 14 with a tick more, and 15 with two.
const TWO_IN_TIME: &str = r#"format = 1
resource = [{ name = "cpu", kind = "preemptive" }]
source = [{ name = "sa", period = 10 }, { name = "sb", period = 20 }]
task = [
  { name = "a", on = "cpu", after = "sa", best = 1, worst = 3, priority = 1 },
  { name = "b", on = "cpu", after = "sb", best = 2, worst = 7, priority = 2 },
]
path = [{ name = "db", tasks = ["b"], deadline = 14 }]
"#;

/// Tasks after up to three sources, of which two orders meet the deadlines, and a task of which a source and a task are activators.
const SOURCES_ALONE: &str = r#"format = 2
resource = [{ name = "r", kind = "preemptive" }, { name = "q", kind = "can" }]
source = [{ name = "s1", period = 100 }, { name = "s2", period = 150 }, { name = "s3", period = 200, jitter = 30 }]
task = [
  { name = "t1", on = "r", after = ["s1", "s2"], best = 1, worst = 10, priority = 4 },
  { name = "t2", on = "r", after = ["s2", "s3", "s1"], best = 1, worst = 15, priority = 6 },
  { name = "t3", on = "r", after = "s3", best = 1, worst = 20, priority = 9 },
  { name = "u", on = "q", after = ["s1", "t3"], best = 1, worst = 5, priority = 1 },
]
path = [
  { name = "d1", tasks = ["t1"], deadline = 60 },
  { name = "d2", tasks = ["t2"], deadline = 85 },
  { name = "d3", tasks = ["t3"], deadline = 40 },
]
"#;

/// Orders of resources.
pub const ORDERS: [Call; 12] = [
    (
        &["assign", "sys", "cpu"],
        &[("sys", LOCKED)],
        0,
        &["priority control 1\npriority logger 2\npriority filter 3\nassigned cpu tasks 3\n"],
    ),
    (
        &["assign", "sys", "cpu"],
        &[("sys", REGIONS_IN_TIME)],
        0,
        &["priority a 1\npriority b 2\npriority c 3\nassigned cpu tasks 3\n"],
    ),
    (
        &["assign", "sys", "bus"],
        &[("sys", DAVIS_BUS)],
        0,
        &["priority m3 1\npriority m2 2\npriority m1 3\nassigned bus tasks 3\n"],
    ),
    (
        &["assign", "sys", "bus"],
        &[("sys", LATE_BUS)],
        3,
        &["none bus\n"],
    ),
    (
        &["assign", "sys", "zz"],
        &[("sys", DAVIS_BUS)],
        18,
        &["assign refused 1\n"],
    ),
    (
        &["assign", "sys", "ring"],
        &[("sys", TDMA_GAP)],
        18,
        &["assign refused 2\n"],
    ),
    (
        &["assign", "sys", "port"],
        &[("sys", GATEWAY)],
        18,
        &["assign refused 2\n"],
    ),
    (
        &["assign", "sys", "p"],
        &[("sys", CROSSING_CHAINS)],
        18,
        &["assign refused 3\n"],
    ),
    (
        &["assign", "sys", "r"],
        &[("sys", SOURCES_ALONE)],
        0,
        &["priority t3 4\npriority t1 6\npriority t2 9\nassigned r tasks 3\n"],
    ),
    (
        &["assign", "sys", "q"],
        &[("sys", SOURCES_ALONE)],
        18,
        &["assign refused 3\n"],
    ),
    (
        &["assign", "sys", "p"],
        &[("sys", IDLE)],
        0,
        &["assigned p tasks 0\n"],
    ),
    (
        &["assign", "sys", "zz"],
        &[("sys", CUT_NAME)],
        13,
        &["not TOML sys\n"],
    ),
];

/// Slacks of tasks.
pub const GROWTHS: [Call; 11] = [
    (
        &["slack", "sys", "control"],
        &[("sys", LOCKED)],
        0,
        &["slack control 0 next missed\n"],
    ),
    (
        &["slack", "sys", "c"],
        &[("sys", REGIONS_IN_TIME)],
        0,
        &["slack c 4 next missed\n"],
    ),
    (
        &["slack", "sys", "b"],
        &[("sys", TWO_IN_TIME)],
        0,
        &["slack b 1 next missed\n"],
    ),
    (
        &["slack", "sys", "b"],
        &[("sys", TWO_TASKS)],
        0,
        &["slack b 999993 next limit\n"],
    ),
    (
        &["slack", "sys", "m1"],
        &[("sys", DAVIS_BUS)],
        3,
        &["slack m1 none\n"],
    ),
    (
        &["slack", "sys", "zz"],
        &[("sys", DAVIS_BUS)],
        18,
        &["slack refused 1\n"],
    ),
    (
        &["slack", "sys", "c"],
        &[("sys", ENDLESS_WITHOUT_DEADLINE)],
        0,
        &["slack c 999996 next limit\n"],
    ),
    (
        &["slack", "sys", "c"],
        &[("sys", ENDLESS_JITTER)],
        3,
        &["slack c none\n"],
    ),
    (
        &["slack", "sys", "n"],
        &[("sys", TWO_ACTIVATORS)],
        0,
        &["slack n 0 next missed\n"],
    ),
    (
        &["slack", "sys", "b2"],
        &[("sys", JOINED_KINDS)],
        0,
        &["slack b2 16 next missed\n"],
    ),
    (
        &["slack", "sys", "zz"],
        &[("sys", CUT_NAME)],
        13,
        &["not TOML sys\n"],
    ),
];

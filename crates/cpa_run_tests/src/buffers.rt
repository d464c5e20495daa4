//! How many jobs wait, and how many can.

use crate::calls::Call;
use crate::cases::{
    CUT_NAME, ENDLESS_JITTER, GATEWAY_TRACE, JOINED_KINDS, REGIONS, REGIONS_TRACE, TWO_ACTIVATORS,
};
use crate::orders::IDLE;
use crate::runs::{JOINED_KINDS_TRACE, LONG_WINDOW_TRACE};
use cpa_cases::{BURST, GATEWAY, LONG_WINDOW, TWO_TASKS};

/// A task that takes longer than its events are apart: of 30 jobs the run has time for 20, up to the horizon.
const BACKLOG: &str = r#"format = 1
resource = [{ name = "cpu", kind = "preemptive" }]
source = [{ name = "s", period = 1, jitter = 30 }]
task = [{ name = "t", on = "cpu", after = "s", best = 1, worst = 1000000, priority = 1 }]
"#;

const BACKLOG_TRACE: &str =
    "event,s,0\nevent,s,1\nevent,s,2\nevent,s,3\nevent,s,4\nevent,s,5\nevent,s,6\nevent,s,7\nevent,s,8\nevent,s,9\nevent,s,10\nevent,s,11\nevent,s,12\nevent,s,13\nevent,s,14\nevent,s,15\nevent,s,16\nevent,s,17\nevent,s,18\nevent,s,19\nevent,s,20\nevent,s,21\nevent,s,22\nevent,s,23\nevent,s,24\nevent,s,25\nevent,s,26\nevent,s,27\nevent,s,28\nevent,s,29\n";

const BUFFERS: &[&str] = &["buffers", "sys", "tr"];

/// Bounds and peaks of the jobs that wait.
pub const WAITING: [Call; 10] = [
    (
        BUFFERS,
        &[("sys", GATEWAY), ("tr", GATEWAY_TRACE)],
        0,
        &[
            "buffer ra bound 1 peak 1\nbuffer rb bound 2 peak 2\nbuffer ca bound 1 peak 1\nbuffer cb bound 2 peak 1\nbuffer log bound 1 peak 1\nbuffer wa bound 2 peak 1\nbuffer wb bound 3 peak 1\nbuffer pa bound 1 peak 1\nbuffer pl bound 1 peak 1\nresource left bound 3 peak 3\nresource gateway bound 4 peak 2\nresource right bound 5 peak 1\nresource port bound 2 peak 1\nqueue gateway work 211\nqueue port work 131\nsummary tasks 9 overload 0\n",
        ],
    ),
    (
        BUFFERS,
        &[("sys", REGIONS), ("tr", REGIONS_TRACE)],
        0,
        &[
            "buffer a bound 1 peak 1\nbuffer b bound 1 peak 1\nbuffer c bound 1 peak 1\nresource cpu bound 3 peak 3\nsummary tasks 3 overload 0\n",
        ],
    ),
    (
        BUFFERS,
        &[("sys", LONG_WINDOW), ("tr", LONG_WINDOW_TRACE)],
        0,
        &[
            "buffer a bound 1 peak 1\nbuffer b bound 2 peak 2\nresource cpu bound 3 peak 3\nsummary tasks 2 overload 0\n",
        ],
    ),
    (
        BUFFERS,
        &[
            ("sys", BURST),
            ("tr", "event,s,25\nevent,s,25\nevent,s,25\nevent,s,30\n"),
        ],
        0,
        &["buffer t bound 4 peak 3\nresource cpu bound 4 peak 3\nsummary tasks 1 overload 0\n"],
    ),
    (
        BUFFERS,
        &[("sys", ENDLESS_JITTER), ("tr", "")],
        0,
        &[
            "buffer a1 bound overload peak 0\nbuffer a2 bound overload peak 0\nbuffer b1 bound overload peak 0\nbuffer b2 bound overload peak 0\nbuffer c bound 1 peak 0\nresource p bound overload peak 0\nresource q bound overload peak 0\nresource r bound 1 peak 0\nsummary tasks 5 overload 4\n",
        ],
    ),
    (
        BUFFERS,
        &[("sys", IDLE), ("tr", "")],
        0,
        &["resource p bound 0 peak 0\nsummary tasks 0 overload 0\n"],
    ),
    // The tasks wait at different times.
    (
        BUFFERS,
        &[("sys", TWO_TASKS), ("tr", "event,sa,0\nevent,sb,5\n")],
        0,
        &[
            "buffer a bound 1 peak 1\nbuffer b bound 1 peak 1\nresource cpu bound 2 peak 1\nsummary tasks 2 overload 0\n",
        ],
    ),
    (
        BUFFERS,
        &[("sys", BACKLOG), ("tr", BACKLOG_TRACE)],
        0,
        &[
            "buffer t bound overload peak 30\nresource cpu bound overload peak 30\nsummary tasks 1 overload 1\n",
        ],
    ),
    (
        BUFFERS,
        &[("sys", TWO_ACTIVATORS), ("tr", "event,sa,0\nevent,sb,0\n")],
        0,
        &[
            "buffer m bound 2 peak 2\nbuffer n bound 2 peak 1\nresource cpu bound 2 peak 2\nresource q bound 2 peak 1\nsummary tasks 2 overload 0\n",
        ],
    ),
    (
        BUFFERS,
        &[("sys", JOINED_KINDS), ("tr", JOINED_KINDS_TRACE)],
        0,
        &[
            "buffer a1 bound 2 peak 2\nbuffer a2 bound 3 peak 3\nbuffer a3 bound 4 peak 1\nbuffer b1 bound 1 peak 1\nbuffer b2 bound 5 peak 1\nbuffer c1 bound 2 peak 1\nbuffer c2 bound 9 peak 3\nbuffer d bound 1 peak 1\nresource p bound 7 peak 3\nresource rr bound 6 peak 2\nresource ring bound 10 peak 4\nresource bus bound 4 peak 4\nsummary tasks 8 overload 0\n",
        ],
    ),
];

/// Systems and traces that are refused.
pub const REFUSED: [Call; 3] = [
    (
        BUFFERS,
        &[("sys", CUT_NAME), ("tr", "")],
        13,
        &["not TOML sys\n"],
    ),
    (
        BUFFERS,
        &[("sys", TWO_TASKS), ("tr", "event,sa\n")],
        16,
        &["trace refused row 1 malformed\n"],
    ),
    (
        BUFFERS,
        &[("sys", TWO_TASKS), ("tr", "event,sa,0\nevent,sa,9\n")],
        17,
        &["trace disobeys source sa times 0 9\n"],
    ),
];

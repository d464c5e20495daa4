//! Traces of the systems, and what a simulation of them prints, worked out by hand from the step rules.

use crate::calls::Call;
use crate::cases::*;
use cpa_cases::{GATEWAY, IDLE_TDMA, LOCKED, LONG_WINDOW, TWO_TASKS};

const SIMULATE: &[&str] = &["simulate", "sys", "tr"];

/// Events of both sources as often as they come.
pub const LONG_WINDOW_TRACE: &str =
    "event,sa,0\nevent,sa,70\nevent,sa,140\nevent,sa,210\nevent,sa,280\nevent,sa,350\nevent,sa,420\nevent,sa,490\nevent,sa,560\nevent,sa,630\nevent,sb,0\nevent,sb,100\nevent,sb,200\nevent,sb,300\nevent,sb,400\nevent,sb,500\nevent,sb,600\n";

/// Two events of each source, and an execution of some jobs.
pub const JOINED_KINDS_TRACE: &str =
    "event,sa,0\nevent,sb,0\nevent,sc,0\nevent,sb,790\nevent,sa,640\nevent,sc,900\nexec,a1,20\nexec,a1,5\nexec,a3,5\nexec,b2,9\nexec,b2,20\nphase,ring,11\n";

/// Runs of systems of one resource, or none.
pub const RUNS: [Call; 9] = [
    (
        SIMULATE,
        &[("sys", REGIONS), ("tr", REGIONS_TRACE)],
        0,
        &[
            "task a jobs 1 done 1 worst 5\ntask b jobs 1 done 1 worst 10\ntask c jobs 1 done 1 worst 16\nsummary jobs 3 done 3 end 16\n",
        ],
    ),
    (
        SIMULATE,
        &[("sys", LONG_WINDOW), ("tr", LONG_WINDOW_TRACE)],
        0,
        &[
            "task a jobs 10 done 10 worst 26\ntask b jobs 7 done 7 worst 118\nsummary jobs 17 done 17 end 694\n",
        ],
    ),
    (
        SIMULATE,
        &[
            ("sys", TDMA_GAP),
            ("tr", "event,s,2\nexec,t,3\nphase,ring,0\n"),
        ],
        0,
        &["task t jobs 1 done 1 worst 19\nsummary jobs 1 done 1 end 21\n"],
    ),
    (
        SIMULATE,
        &[("sys", TDMA_GAP), ("tr", "event,s,0\nevent,s,10000000\n")],
        0,
        &["task t jobs 2 done 2 worst 11\nsummary jobs 2 done 2 end 10000011\n"],
    ),
    (
        SIMULATE,
        &[("sys", ROUND_ROBIN), ("tr", "event,sa,0\nevent,sb,0\n")],
        0,
        &[
            "task a jobs 1 done 1 worst 4\ntask b jobs 1 done 1 worst 3\nsummary jobs 2 done 2 end 4\n",
        ],
    ),
    (
        SIMULATE,
        &[
            ("sys", ROUND_ROBIN),
            ("tr", "event,sa,0\nevent,sb,0\nevent,sa,20\nevent,sb,20\n"),
        ],
        0,
        &[
            "task a jobs 2 done 2 worst 4\ntask b jobs 2 done 2 worst 3\nsummary jobs 4 done 4 end 24\n",
        ],
    ),
    (
        SIMULATE,
        &[("sys", IDLE_TDMA), ("tr", "event,sa,0\nevent,sb,0\n")],
        0,
        &[
            "task a jobs 1 done 1 worst 4\ntask b jobs 1 done 1 worst 3\nsummary jobs 2 done 2 end 4\n",
        ],
    ),
    (
        SIMULATE,
        &[("sys", TWO_TASKS), ("tr", "")],
        0,
        &[
            "task a jobs 0 done 0 worst none\ntask b jobs 0 done 0 worst none\nsummary jobs 0 done 0 end 0\n",
        ],
    ),
    (
        SIMULATE,
        &[("sys", "format = 1"), ("tr", "")],
        0,
        &["summary jobs 0 done 0 end 0\n"],
    ),
];

/// Runs of systems with tasks after tasks.
pub const RUNS_OF_SEVERAL: [Call; 6] = [
    (
        SIMULATE,
        &[("sys", LOCKED), ("tr", LOCKED_TRACE)],
        0,
        &[
            "task control jobs 1 done 1 worst 6\ntask filter jobs 1 done 1 worst 12\ntask logger jobs 1 done 1 worst 18\ntask spare jobs 1 done 1 worst 2\npath p passages 1 worst 6\nsummary jobs 4 done 4 end 18\n",
        ],
    ),
    (
        SIMULATE,
        &[("sys", GATEWAY), ("tr", GATEWAY_TRACE)],
        0,
        &[
            "task ra jobs 2 done 2 worst 135\ntask rb jobs 2 done 2 worst 325\ntask ca jobs 2 done 2 worst 30\ntask cb jobs 2 done 2 worst 165\ntask log jobs 2 done 2 worst 170\ntask wa jobs 2 done 2 worst 135\ntask wb jobs 2 done 2 worst 95\ntask pa jobs 2 done 2 worst 7\ntask pl jobs 2 done 2 worst 124\npath a passages 2 worst 300\nsummary jobs 18 done 18 end 1434\n",
        ],
    ),
    (
        SIMULATE,
        &[
            ("sys", CROSSING_CHAINS),
            ("tr", "event,sa,0\nevent,sb,0\nevent,sa,100\n"),
        ],
        0,
        &[
            "task a1 jobs 2 done 2 worst 10\ntask a2 jobs 2 done 2 worst 10\ntask b1 jobs 1 done 1 worst 30\ntask b2 jobs 1 done 1 worst 20\npath pa passages 2 worst 20\npath pb passages 1 worst 50\nsummary jobs 6 done 6 end 120\n",
        ],
    ),
    (
        SIMULATE,
        &[("sys", TWO_ACTIVATORS), ("tr", "event,sa,0\nevent,sb,0\n")],
        0,
        &[
            "task m jobs 2 done 2 worst 6\ntask n jobs 2 done 2 worst 2\npath p passages 2 worst 8\nsummary jobs 4 done 4 end 8\n",
        ],
    ),
    (
        SIMULATE,
        &[("sys", SHARED_SOURCE), ("tr", "event,s,0\n")],
        0,
        &[
            "task a jobs 1 done 1 worst 1\ntask b jobs 1 done 1 worst 2\ntask c jobs 2 done 2 worst 2\nsummary jobs 4 done 4 end 4\n",
        ],
    ),
    (
        SIMULATE,
        &[("sys", JOINED_KINDS), ("tr", JOINED_KINDS_TRACE)],
        0,
        &[
            "task a1 jobs 4 done 4 worst 34\ntask a2 jobs 6 done 6 worst 176\ntask a3 jobs 8 done 8 worst 20\ntask b1 jobs 2 done 2 worst 280\ntask b2 jobs 10 done 10 worst 20\ntask c1 jobs 4 done 4 worst 25\ntask c2 jobs 14 done 14 worst 111\ntask d jobs 2 done 2 worst 56\npath w passages 4 worst 295\nsummary jobs 50 done 50 end 1111\n",
        ],
    ),
];

/// Traces that are refused, or that don't obey.
pub const REFUSED_TRACES: [Call; 7] = [
    (
        SIMULATE,
        &[
            ("sys", LONG_WINDOW),
            (
                "tr",
                "event,sa,0\nevent,sa,69\nevent,sa,140\nevent,sa,210\nevent,sa,280\nevent,sa,350\nevent,sa,420\nevent,sa,490\nevent,sa,560\nevent,sa,630\nevent,sb,0\nevent,sb,100\nevent,sb,200\nevent,sb,300\nevent,sb,400\nevent,sb,500\nevent,sb,600\n",
            ),
        ],
        17,
        &["trace disobeys source sa times 0 69\n"],
    ),
    (
        SIMULATE,
        &[("sys", TDMA_GAP), ("tr", "event,s,2\nphase,ring,10\n")],
        17,
        &["trace disobeys resource ring\n"],
    ),
    (
        SIMULATE,
        &[
            ("sys", ROUND_ROBIN),
            ("tr", "event,sa,0\nevent,sb,0\nexec,a,2\n"),
        ],
        17,
        &["trace disobeys task a job 1\n"],
    ),
    (
        SIMULATE,
        &[("sys", TWO_TASKS), ("tr", "event,zz,0\n")],
        16,
        &["trace refused row 1 name\n"],
    ),
    (
        SIMULATE,
        &[("sys", TWO_TASKS), ("tr", "event,sa,10000001\n")],
        16,
        &["trace refused row 1 range\n"],
    ),
    (
        SIMULATE,
        &[("sys", TWO_TASKS), ("tr", "event,sa\n")],
        16,
        &["trace refused row 1 malformed\n"],
    ),
    (
        SIMULATE,
        &[
            ("sys", TWO_TASKS),
            ("tr", "event,sa,0\nevent,sb,0\nevent,sa,x\n"),
        ],
        16,
        &["trace refused row 3 malformed\n"],
    ),
];

//! Scripts of edits, and what a session under each prints.

use crate::calls::Call;
use crate::cases::*;
use cpa_cases::{GATEWAY, LOCKED, TWO_TASKS};

const SESSION: &[&str] = &["session", "sys", "scr"];

/// An execution grows by a tick, and falls again.
pub const SESSION_REPORTS: &str = "report\nexec b 2 8\nreport\nexec b 2 7\n";

/// Scripts whose edits are made, most of them.
pub const EDITS: [Call; 13] = [
    (
        SESSION,
        &[("sys", TWO_TASKS), ("scr", SESSION_REPORTS)],
        0,
        &[
            TWO_TASKS_REPORT,
            "task a cpu period 10 jitter 0 distance 0 best 1 worst 3\ntask b cpu period 20 jitter 0 distance 0 best 2 worst 14\nsummary tasks 2 overload 0 missed 0\n",
            TWO_TASKS_REPORT,
        ],
    ),
    // The greater of two fixed points is left again.
    (
        SESSION,
        &[
            ("sys", TWO_SOLUTIONS),
            ("scr", "report\nexec a1 1 22\nreport\nexec a1 1 20"),
        ],
        0,
        &[
            TWO_SOLUTIONS_REPORT,
            GREATER_SOLUTION_REPORT,
            TWO_SOLUTIONS_REPORT,
        ],
    ),
    (
        SESSION,
        &[
            ("sys", TWO_TASKS),
            ("scr", "add c cpu sb 1 2 3\nreport\nremove zz\nremove a\n"),
        ],
        0,
        &[
            "task a cpu period 10 jitter 0 distance 0 best 1 worst 3\ntask b cpu period 20 jitter 0 distance 0 best 2 worst 10\ntask c cpu period 20 jitter 0 distance 0 best 1 worst 15\nsummary tasks 3 overload 0 missed 0\n",
            "line 3 refused 1\n",
            "task b cpu period 20 jitter 0 distance 0 best 2 worst 7\ntask c cpu period 20 jitter 0 distance 0 best 1 worst 9\nsummary tasks 2 overload 0 missed 0\n",
        ],
    ),
    // A task comes after one with two activators, which is then needed.
    (
        SESSION,
        &[
            ("sys", TWO_ACTIVATORS),
            ("scr", "add x q m 1 1 2\nreport\nremove m\nremove x\n"),
        ],
        0,
        &[
            "task m cpu streams 2 best 1 worst 6\ntask n q streams 2 best 2 worst 4\ntask x q streams 2 best 1 worst 8\npath p best 3 worst 10 deadline 10 met\nsummary tasks 3 overload 0 missed 0\n",
            "line 3 refused 6\n",
            TWO_ACTIVATORS_REPORT,
        ],
    ),
    // The activators of `c` move up once `z` is gone, and each is needed.
    (
        SESSION,
        &[
            ("sys", SHARED_SOURCE_LATER),
            (
                "scr",
                "remove a\nremove b\nremove z\nreport\nremove c\nremove a\n",
            ),
        ],
        0,
        &[
            "line 1 refused 6\n",
            "line 2 refused 6\n",
            SHARED_SOURCE_REPORT,
            "task b p period 100 jitter 0 distance 0 best 1 worst 1\nsummary tasks 1 overload 0 missed 0\n",
        ],
    ),
    // A source that is the second activator of a task; a task that one of two needs; a task after one with seven streams.
    (
        SESSION,
        &[
            ("sys", JOINED_KINDS),
            (
                "scr",
                "source sa 500 30 10\nreport\nexec b1 60 90\nremove d\nremove c1\nadd e rr c2 1 9 3\nreport\nremove e\npriority b2 3\n",
            ),
        ],
        0,
        &[
            "task a1 p streams 2 best 5 worst 160\ntask a2 bus streams 3 best 60 worst 280\ntask a3 rr streams 4 best 5 worst 120\ntask b1 bus period 800 jitter 20 distance 0 best 60 worst 280\ntask b2 p streams 5 best 5 worst 115\ntask c1 rr streams 2 best 5 worst 65\ntask c2 ring streams 7 best 5 worst 335\ntask d ring period 900 jitter 0 distance 0 best 5 worst 56\npath w best 80 worst 1010 deadline 1200 met\nsummary tasks 8 overload 0 missed 0\n",
            "line 5 refused 6\n",
            "task a1 p streams 2 best 5 worst 160\ntask a2 bus streams 3 best 60 worst 300\ntask a3 rr streams 4 best 5 worst 168\ntask b1 bus period 800 jitter 20 distance 0 best 60 worst 300\ntask b2 p streams 5 best 5 worst 115\ntask c1 rr streams 2 best 5 worst 80\ntask c2 ring streams 7 best 5 worst 209\ntask e rr streams 7 best 1 worst 207\npath w best 80 worst 952 deadline 1200 met\nsummary tasks 8 overload 0 missed 0\n",
            "task a1 p streams 2 best 5 worst 40\ntask a2 bus streams 3 best 60 worst 300\ntask a3 rr streams 4 best 5 worst 120\ntask b1 bus period 800 jitter 20 distance 0 best 60 worst 300\ntask b2 p streams 5 best 5 worst 140\ntask c1 rr streams 2 best 5 worst 65\ntask c2 ring streams 7 best 5 worst 209\npath w best 80 worst 809 deadline 1200 met\nsummary tasks 7 overload 0 missed 0\n",
        ],
    ),
    // A task more in a queue, whose number is 0, and which has neither a priority nor a slot.
    (
        SESSION,
        &[
            ("sys", GATEWAY),
            (
                "scr",
                "add d gateway sa 1 50 1\nadd d gateway sa 1 50 0\nreport\npriority d 1\nslot ca 1\nswap ca cb\nremove d\n",
            ),
        ],
        0,
        &[
            "line 1 refused 3\n",
            "task ra left period 500 jitter 0 distance 0 best 111 worst 230\ntask rb left period 700 jitter 900 distance 0 best 79 worst 325\ntask ca gateway period 500 jitter 119 distance 111 best 5 worst 261\ntask cb gateway period 700 jitter 1146 distance 79 best 5 worst 261\ntask log gateway period 1000 jitter 0 distance 0 best 10 worst 261\ntask wa right period 500 jitter 375 distance 5 best 111 worst 430\ntask wb right period 700 jitter 1402 distance 5 best 79 worst 410\ntask pa port period 500 jitter 375 distance 5 best 6 worst 131\ntask pl port period 1000 jitter 251 distance 10 best 123 worst 131\ntask d gateway period 500 jitter 0 distance 0 best 1 worst 261\npath a best 227 worst 921 deadline 900 missed\nsummary tasks 10 overload 0 missed 1\n",
            "line 4 refused 2\nline 5 refused 2\nline 6 refused 2\n",
            GATEWAY_REPORT,
        ],
    ),
    // Ceilings follow the priorities: below `filter`, `control` gives the lock its own priority and no longer that of the first.
    (
        SESSION,
        &[
            ("sys", LOCKED),
            (
                "scr",
                "priority control 9\nreport\nexec logger 5 4\nexec logger 1 3\nremove filter\n",
            ),
        ],
        0,
        &[
            "task control cpu period 20 jitter 0 distance 0 best 1 worst 18\ntask filter cpu period 50 jitter 0 distance 0 best 2 worst 6\ntask logger cpu period 100 jitter 0 distance 0 best 5 worst 16\ntask spare side period 100 jitter 0 distance 0 best 1 worst 2\npath p best 1 worst 18 deadline 6 missed\nsummary tasks 4 overload 0 missed 1\n",
            "line 3 refused 5\n",
            "task control cpu period 20 jitter 0 distance 0 best 1 worst 5\ntask logger cpu period 100 jitter 0 distance 0 best 1 worst 3\ntask spare side period 100 jitter 0 distance 0 best 1 worst 2\npath p best 1 worst 5 deadline 6 met\nsummary tasks 3 overload 0 missed 0\n",
        ],
    ),
    // An overload comes, and goes.
    (
        SESSION,
        &[
            ("sys", TWO_TASKS),
            (
                "scr",
                "# a load of 13 in 10\nexec a 1 13\n\nreport\nexec a 1 3",
            ),
        ],
        0,
        &[
            "task a cpu period 10 jitter 0 distance 0 best 1 worst overload\ntask b cpu period 20 jitter 0 distance 0 best 2 worst overload\nsummary tasks 2 overload 2 missed 0\n",
            TWO_TASKS_REPORT,
        ],
    ),
    (
        SESSION,
        &[("sys", TWO_TASKS), ("scr", "exec a 1 13")],
        2,
        &[
            "task a cpu period 10 jitter 0 distance 0 best 1 worst overload\ntask b cpu period 20 jitter 0 distance 0 best 2 worst overload\nsummary tasks 2 overload 2 missed 0\n",
        ],
    ),
    // Reports alone.
    (
        SESSION,
        &[("sys", TWO_TASKS), ("scr", "report\n  report\t\r\n")],
        0,
        &[TWO_TASKS_REPORT, TWO_TASKS_REPORT, TWO_TASKS_REPORT],
    ),
    (
        SESSION,
        &[("sys", TWO_TASKS), ("scr", "")],
        0,
        &[TWO_TASKS_REPORT],
    ),
    // What the edit can't reach keeps its bounds.
    (
        SESSION,
        &[("sys", ENDLESS_JITTER), ("scr", "exec c 2 4")],
        2,
        &[ENDLESS_JITTER_REPORT],
    ),
];

/// An edit for each refusal, and files that are refused.
pub const REFUSED_EDITS: [Call; 8] = [
    (
        SESSION,
        &[("sys", TWO_TASKS), ("scr", "exec b 9 3")],
        0,
        &["line 1 refused 5\n", TWO_TASKS_REPORT],
    ),
    (
        SESSION,
        &[("sys", TWO_TASKS), ("scr", "exec zz 1 2")],
        0,
        &["line 1 refused 1\n", TWO_TASKS_REPORT],
    ),
    (
        SESSION,
        &[("sys", TWO_TASKS), ("scr", "slot a 2")],
        0,
        &["line 1 refused 2\n", TWO_TASKS_REPORT],
    ),
    (
        SESSION,
        &[("sys", TWO_TASKS), ("scr", "exec a 0 2")],
        0,
        &["line 1 refused 3\n", TWO_TASKS_REPORT],
    ),
    (
        SESSION,
        &[("sys", TWO_TASKS), ("scr", "priority a 2")],
        0,
        &["line 1 refused 4\n", TWO_TASKS_REPORT],
    ),
    (
        SESSION,
        &[("sys", TWO_TASKS), ("scr", "add a cpu sa 1 1 9")],
        0,
        &["line 1 refused 7\n", TWO_TASKS_REPORT],
    ),
    (
        SESSION,
        &[("sys", TWO_TASKS), ("scr", "report\nexec b 2")],
        15,
        &["script refused line 2\n"],
    ),
    (
        SESSION,
        &[("sys", CUT_NAME), ("scr", "exec b 2")],
        13,
        &["not TOML sys\n"],
    ),
];

//! Systems and their reports, worked out by hand from the rules.

pub const TWO_TASKS_REPORT: &str = "task a cpu period 10 jitter 0 distance 0 best 1 worst 3
task b cpu period 20 jitter 0 distance 0 best 2 worst 10
summary tasks 2 overload 0 missed 0
";

/// Three tasks of a processor, of which the lower two have regions.
pub const REGIONS: &str = r#"format = 4
resource = [{ name = "cpu", kind = "preemptive" }]
source = [{ name = "sa", period = 10 }, { name = "sb", period = 20, jitter = 5 }, { name = "sc", period = 40 }]
task = [
  { name = "a", on = "cpu", after = "sa", best = 1, worst = 3, priority = 1 },
  { name = "b", on = "cpu", after = "sb", best = 2, worst = 4, priority = 2, region = 2 },
  { name = "c", on = "cpu", after = "sc", best = 6, worst = 9, priority = 3, region = 4 },
]
"#;

pub const REGIONS_REPORT: &str = "task a cpu period 10 jitter 0 distance 0 best 1 worst 6
task b cpu period 20 jitter 5 distance 0 best 2 worst 10
task c cpu period 40 jitter 0 distance 0 best 6 worst 26
summary tasks 3 overload 0 missed 0
";

/// An event of each source, so that a region of `c` has begun when `b` and `a` come.
pub const REGIONS_TRACE: &str = "event,sc,0\nevent,sb,1\nevent,sa,2\n";

/// The same with a deadline for each task, which only this order meets. `c` has four ticks to spare.
pub const REGIONS_IN_TIME: &str = r#"format = 4
resource = [{ name = "cpu", kind = "preemptive" }]
source = [{ name = "sa", period = 10 }, { name = "sb", period = 20, jitter = 5 }, { name = "sc", period = 40 }]
task = [
  { name = "a", on = "cpu", after = "sa", best = 1, worst = 3, priority = 1 },
  { name = "b", on = "cpu", after = "sb", best = 2, worst = 4, priority = 2, region = 2 },
  { name = "c", on = "cpu", after = "sc", best = 6, worst = 9, priority = 3, region = 4 },
]
path = [
  { name = "da", tasks = ["a"], deadline = 6 },
  { name = "db", tasks = ["b"], deadline = 10 },
  { name = "dc", tasks = ["c"], deadline = 30 },
]
"#;

/// The gateway of `cpa_cases`: in a busy window of its queue the response that begins in its 80th tick is the greatest.
pub const GATEWAY_REPORT: &str = "task ra left period 500 jitter 0 distance 0 best 111 worst 230
task rb left period 700 jitter 900 distance 0 best 79 worst 325
task ca gateway period 500 jitter 119 distance 111 best 5 worst 211
task cb gateway period 700 jitter 1146 distance 79 best 5 worst 211
task log gateway period 1000 jitter 0 distance 0 best 10 worst 211
task wa right period 500 jitter 325 distance 5 best 111 worst 420
task wb right period 700 jitter 1352 distance 5 best 79 worst 372
task pa port period 500 jitter 325 distance 5 best 6 worst 131
task pl port period 1000 jitter 201 distance 10 best 123 worst 131
path a best 227 worst 861 deadline 900 met
summary tasks 9 overload 0 missed 0
";

/// Frames that come in another order than that of the file, and two at once.
pub const GATEWAY_TRACE: &str =
    "event,sa,0\nevent,sa,500\nevent,sb,0\nevent,sb,0\nevent,sc,230\nevent,sc,1230\n";

/// The processor with locks of `cpa_cases`: `control` waits for up to 4 ticks of a section, and so does `filter`, whose region blocks it by less.
pub const LOCKED_REPORT: &str = "task control cpu period 20 jitter 0 distance 0 best 1 worst 6
task filter cpu period 50 jitter 0 distance 0 best 2 worst 12
task logger cpu period 100 jitter 0 distance 0 best 5 worst 18
task spare side period 100 jitter 0 distance 0 best 1 worst 2
path p best 1 worst 6 deadline 6 met
summary tasks 4 overload 0 missed 0
";

/// The others come right after the section of `logger` has begun, by which each bound is reached.
pub const LOCKED_TRACE: &str = "event,rare,0\nevent,fast,3\nevent,slow,3\n";

/// No tasks at all.
pub const EMPTY_REPORT: &str = "summary tasks 0 overload 0 missed 0\n";

/// The two tasks on a processor whose limit is the window of `b`.
pub const LIMIT_REACHED: &str = r#"format = 1
resource = [{ name = "cpu", kind = "preemptive", limit = 10 }]
source = [{ name = "sa", period = 10 }, { name = "sb", period = 20 }]
task = [
  { name = "a", on = "cpu", after = "sa", best = 1, worst = 3, priority = 1 },
  { name = "b", on = "cpu", after = "sb", best = 2, worst = 7, priority = 2 },
]
"#;

/// The two tasks on a processor whose limit is a tick below the window of `b`, written as sections.
pub const LIMIT_BELOW: &str = r#"format = 1
[[resource]]
name = "cpu"
kind = "preemptive"
limit = 9
[[source]]
name = "sa"
period = 10
[[source]]
name = "sb"
period = 20
[[task]]
name = "a"
on = "cpu"
after = "sa"
best = 1
worst = 3
priority = 1
[[task]]
name = "b"
on = "cpu"
after = "sb"
best = 2
worst = 7
priority = 2
"#;

pub const LIMIT_BELOW_REPORT: &str = "task a cpu period 10 jitter 0 distance 0 best 1 worst 3
task b cpu period 20 jitter 0 distance 0 best 2 worst overload
summary tasks 2 overload 1 missed 0
";

/// The two tasks, with a greatest execution of 0.
pub const WORST_ZERO: &str = r#"format = 1
resource = [{ name = "cpu", kind = "preemptive" }]
source = [{ name = "sa", period = 10 }, { name = "sb", period = 20 }]
task = [
  { name = "a", on = "cpu", after = "sa", best = 1, worst = 3, priority = 1 },
  { name = "b", on = "cpu", after = "sb", best = 2, worst = 0, priority = 2 },
]
"#;

/// The two tasks in a format that isn't known.
pub const OTHER_FORMAT: &str = r#"format = 3
resource = [{ name = "cpu", kind = "preemptive" }]
source = [{ name = "sa", period = 10 }, { name = "sb", period = 20 }]
task = [
  { name = "a", on = "cpu", after = "sa", best = 1, worst = 3, priority = 1 },
  { name = "b", on = "cpu", after = "sb", best = 2, worst = 7, priority = 2 },
]
"#;

/// The two tasks in format 2.
pub const PLAIN_IN_FORMAT_TWO: &str = r#"format = 2
resource = [{ name = "cpu", kind = "preemptive" }]
source = [{ name = "sa", period = 10 }, { name = "sb", period = 20 }]
task = [
  { name = "a", on = "cpu", after = "sa", best = 1, worst = 3, priority = 1 },
  { name = "b", on = "cpu", after = "sb", best = 2, worst = 7, priority = 2 },
]
"#;

/// A task that either of two sources starts, and one after it, whose input has the streams (10, 5, 1) and (20, 5, 1).
pub const TWO_ACTIVATORS: &str = r#"format = 2
resource = [{ name = "cpu", kind = "preemptive" }, { name = "q", kind = "preemptive" }]
source = [{ name = "sa", period = 10 }, { name = "sb", period = 20 }]
task = [
  { name = "m", on = "cpu", after = ["sa", "sb"], best = 1, worst = 3, priority = 1 },
  { name = "n", on = "q", after = "m", best = 2, worst = 2, priority = 1 },
]
path = [{ name = "p", tasks = ["m", "n"], deadline = 10 }]
"#;

pub const TWO_ACTIVATORS_REPORT: &str = "task m cpu streams 2 best 1 worst 6
task n q streams 2 best 2 worst 4
path p best 3 worst 10 deadline 10 met
summary tasks 2 overload 0 missed 0
";

/// One source, which starts two tasks, either of which starts a third.
pub const SHARED_SOURCE: &str = r#"format = 2
resource = [{ name = "p", kind = "preemptive" }]
source = [{ name = "s", period = 100 }]
task = [
  { name = "a", on = "p", after = "s", best = 1, worst = 1, priority = 1 },
  { name = "b", on = "p", after = "s", best = 1, worst = 1, priority = 2 },
  { name = "c", on = "p", after = ["a", "b"], best = 1, worst = 1, priority = 3 },
]
"#;

pub const SHARED_SOURCE_REPORT: &str = "task a p period 100 jitter 0 distance 0 best 1 worst 1
task b p period 100 jitter 0 distance 0 best 1 worst 2
task c p streams 2 best 1 worst 4
summary tasks 3 overload 0 missed 0
";

/// The same with a task `z` before them, which starts nothing.
pub const SHARED_SOURCE_LATER: &str = r#"format = 2
resource = [{ name = "p", kind = "preemptive" }]
source = [{ name = "s", period = 100 }]
task = [
  { name = "z", on = "p", after = "s", best = 1, worst = 1, priority = 9 },
  { name = "a", on = "p", after = "s", best = 1, worst = 1, priority = 1 },
  { name = "b", on = "p", after = "s", best = 1, worst = 1, priority = 2 },
  { name = "c", on = "p", after = ["a", "b"], best = 1, worst = 1, priority = 3 },
]
"#;

/// Tasks on resources of four kinds, most of them after several sources and tasks; the resources depend on each other in a
/// cycle.
pub const JOINED_KINDS: &str = r#"format = 2
resource = [
  { name = "p", kind = "preemptive", limit = 3000 },
  { name = "rr", kind = "round-robin", limit = 3000 },
  { name = "ring", kind = "tdma", gap = 3, limit = 3000 },
  { name = "bus", kind = "can", bit = 1, limit = 3000 },
]
source = [{ name = "sa", period = 600 }, { name = "sb", period = 800, jitter = 20 }, { name = "sc", period = 900 }]
task = [
  { name = "a1", on = "p", after = ["sc", "sa"], best = 5, worst = 20, priority = 2 },
  { name = "a2", on = "bus", after = ["a1", "sb"], best = 60, worst = 70, priority = 1 },
  { name = "a3", on = "rr", after = ["sb", "a2"], best = 5, worst = 20, slot = 5 },
  { name = "b1", on = "bus", after = ["sb"], best = 60, worst = 70, priority = 2 },
  { name = "b2", on = "p", after = ["b1", "a3"], best = 5, worst = 20, priority = 1 },
  { name = "c1", on = "rr", after = ["sc", "b1"], best = 5, worst = 20, slot = 8 },
  { name = "c2", on = "ring", after = ["c1", "b2"], best = 5, worst = 20, slot = 9 },
  { name = "d", on = "ring", after = "sc", best = 5, worst = 20, slot = 7 },
]
path = [{ name = "w", tasks = ["a1", "a2", "a3", "b2", "c2"], deadline = 1200 }]
"#;

pub const JOINED_KINDS_REPORT: &str = "task a1 p streams 2 best 5 worst 160
task a2 bus streams 3 best 60 worst 280
task a3 rr streams 4 best 5 worst 120
task b1 bus period 800 jitter 20 distance 0 best 60 worst 280
task b2 p streams 5 best 5 worst 100
task c1 rr streams 2 best 5 worst 65
task c2 ring streams 7 best 5 worst 325
task d ring period 900 jitter 0 distance 0 best 5 worst 56
path w best 80 worst 985 deadline 1200 met
summary tasks 8 overload 0 missed 0
";

pub const LONG_WINDOW_REPORT: &str = "task a cpu period 70 jitter 0 distance 0 best 26 worst 26
task b cpu period 100 jitter 0 distance 0 best 62 worst 118
summary tasks 2 overload 0 missed 0
";

/// The CAN bus of Davis and others: the second instance of `m3` answers later than the first, beyond its deadline.
pub const DAVIS_BUS: &str = r#"format = 1
resource = [{ name = "bus", kind = "can", bit = 1 }]
source = [{ name = "s1", period = 250 }, { name = "s2", period = 350 }, { name = "s3", period = 350 }]
task = [
  { name = "m1", on = "bus", after = "s1", best = 100, worst = 100, priority = 1 },
  { name = "m2", on = "bus", after = "s2", best = 100, worst = 100, priority = 2 },
  { name = "m3", on = "bus", after = "s3", best = 100, worst = 100, priority = 3 },
]
path = [{ name = "d3", tasks = ["m3"], deadline = 325 }]
"#;

pub const DAVIS_BUS_REPORT: &str = "task m1 bus period 250 jitter 0 distance 0 best 100 worst 200
task m2 bus period 350 jitter 0 distance 0 best 100 worst 300
task m3 bus period 350 jitter 0 distance 0 best 100 worst 350
path d3 best 100 worst 350 deadline 325 missed
summary tasks 3 overload 0 missed 1
";

/// Frames with 11-bit and 29-bit identifiers: lengths from the payload, and the blocking by a lower frame.
pub const FRAME_LENGTHS: &str = r#"format = 1
resource = [{ name = "bus", kind = "can", bit = 2 }]
source = [{ name = "s1", period = 10000 }, { name = "s2", period = 10000 }]
task = [
  { name = "f", on = "bus", after = "s1", payload = 8, priority = 1 },
  { name = "g", on = "bus", after = "s2", payload = 0, extended = true, priority = 2 },
]
"#;

pub const FRAME_LENGTHS_REPORT: &str =
    "task f bus period 10000 jitter 0 distance 0 best 222 worst 430
task g bus period 10000 jitter 0 distance 0 best 134 worst 430
summary tasks 2 overload 0 missed 0
";

/// Two chains that cross on two processors, each the other's rival: no order of the processors exists.
pub const CROSSING_CHAINS: &str = r#"format = 1
resource = [{ name = "p", kind = "preemptive" }, { name = "q", kind = "preemptive" }]
source = [{ name = "sa", period = 100 }, { name = "sb", period = 100 }]
task = [
  { name = "a1", on = "p", after = "sa", best = 5, worst = 10, priority = 2 },
  { name = "a2", on = "q", after = "a1", best = 5, worst = 10, priority = 1 },
  { name = "b1", on = "q", after = "sb", best = 10, worst = 20, priority = 2 },
  { name = "b2", on = "p", after = "b1", best = 10, worst = 20, priority = 1 },
]
path = [
  { name = "pa", tasks = ["a1", "a2"], deadline = 45 },
  { name = "pb", tasks = ["b1", "b2"], deadline = 45 },
]
"#;

pub const CROSSING_CHAINS_REPORT: &str = "task a1 p period 100 jitter 0 distance 0 best 5 worst 30
task a2 q period 100 jitter 25 distance 5 best 5 worst 10
task b1 q period 100 jitter 0 distance 0 best 10 worst 30
task b2 p period 100 jitter 20 distance 10 best 10 worst 20
path pa best 10 worst 40 deadline 45 met
path pb best 20 worst 50 deadline 45 missed
summary tasks 4 overload 0 missed 1
";

/// Crossing chains whose jitters feed each other without end, beside a task that they don't reach.
pub const ENDLESS_JITTER: &str = r#"format = 1
resource = [
  { name = "p", kind = "preemptive", limit = 1000 },
  { name = "q", kind = "preemptive", limit = 1000 },
  { name = "r", kind = "preemptive" },
]
source = [{ name = "sa", period = 100 }, { name = "sb", period = 100 }, { name = "sc", period = 50, jitter = 5 }]
task = [
  { name = "a1", on = "p", after = "sa", best = 1, worst = 30, priority = 2 },
  { name = "a2", on = "q", after = "a1", best = 1, worst = 60, priority = 1 },
  { name = "b1", on = "q", after = "sb", best = 1, worst = 30, priority = 2 },
  { name = "b2", on = "p", after = "b1", best = 1, worst = 60, priority = 1 },
  { name = "c", on = "r", after = "sc", best = 2, worst = 4, priority = 1 },
]
path = [{ name = "pa", tasks = ["a1", "a2"], deadline = 500 }]
"#;

pub const ENDLESS_JITTER_REPORT: &str =
    "task a1 p period 100 jitter 0 distance 0 best 1 worst overload
task a2 q period 100 jitter overload distance overload best 1 worst overload
task b1 q period 100 jitter 0 distance 0 best 1 worst overload
task b2 p period 100 jitter overload distance overload best 1 worst overload
task c r period 50 jitter 5 distance 0 best 2 worst 4
path pa best 2 worst overload deadline 500 unknown
summary tasks 5 overload 4 missed 0
";

/// A slot of two ticks in a cycle of ten: an execution of three takes two cycles.
pub const TDMA_GAP: &str = r#"format = 1
resource = [{ name = "ring", kind = "tdma", gap = 8 }]
source = [{ name = "s", period = 40 }]
task = [{ name = "t", on = "ring", after = "s", best = 3, worst = 3, slot = 2 }]
"#;

pub const TDMA_GAP_REPORT: &str = "task t ring period 40 jitter 0 distance 0 best 3 worst 19
summary tasks 1 overload 0 missed 0
";

/// Two tasks that share a processor by turns, each with less work than its slots have room for.
pub const ROUND_ROBIN: &str = r#"format = 1
resource = [{ name = "rr", kind = "round-robin" }]
source = [{ name = "sa", period = 20 }, { name = "sb", period = 20 }]
task = [
  { name = "a", on = "rr", after = "sa", best = 3, worst = 3, slot = 2 },
  { name = "b", on = "rr", after = "sb", best = 1, worst = 1, slot = 4 },
]
"#;

pub const ROUND_ROBIN_REPORT: &str = "task a rr period 20 jitter 0 distance 0 best 3 worst 4
task b rr period 20 jitter 0 distance 0 best 1 worst 3
summary tasks 2 overload 0 missed 0
";

/// The rival's work has no end, so its slots alone count for `a`.
pub const ROUND_ROBIN_SHARE: &str = r#"format = 1
resource = [{ name = "rr", kind = "round-robin", limit = 1000 }]
source = [{ name = "sa", period = 20 }, { name = "sb", period = 5 }]
task = [
  { name = "a", on = "rr", after = "sa", best = 3, worst = 3, slot = 2 },
  { name = "b", on = "rr", after = "sb", best = 10, worst = 10, slot = 4 },
]
"#;

pub const ROUND_ROBIN_SHARE_REPORT: &str = "task a rr period 20 jitter 0 distance 0 best 3 worst 11
task b rr period 5 jitter 0 distance 0 best 10 worst overload
summary tasks 2 overload 1 missed 0
";

pub const BURST_REPORT: &str = "task t cpu period 10 jitter 25 distance 0 best 1 worst 6
summary tasks 1 overload 0 missed 0
";

/// Crossing chains with two closed vectors, of which the report has the least: with 22 in place of 20 for `a1` only the
/// other is left.
pub const TWO_SOLUTIONS: &str = r#"format = 1
resource = [{ name = "p", kind = "preemptive" }, { name = "q", kind = "preemptive" }]
source = [{ name = "sa", period = 100 }, { name = "sb", period = 100 }]
task = [
  { name = "a1", on = "p", after = "sa", best = 1, worst = 20, priority = 2 },
  { name = "a2", on = "q", after = "a1", best = 10, worst = 30, priority = 1 },
  { name = "b1", on = "q", after = "sb", best = 1, worst = 20, priority = 2 },
  { name = "b2", on = "p", after = "b1", best = 10, worst = 30, priority = 1 },
]
"#;

pub const TWO_SOLUTIONS_REPORT: &str = "task a1 p period 100 jitter 0 distance 0 best 1 worst 50
task a2 q period 100 jitter 49 distance 1 best 10 worst 30
task b1 q period 100 jitter 0 distance 0 best 1 worst 50
task b2 p period 100 jitter 49 distance 1 best 10 worst 30
summary tasks 4 overload 0 missed 0
";

/// The crossing chains above with two ticks more for `a1`.
pub const GREATER_SOLUTION: &str = r#"format = 1
resource = [{ name = "p", kind = "preemptive" }, { name = "q", kind = "preemptive" }]
source = [{ name = "sa", period = 100 }, { name = "sb", period = 100 }]
task = [
  { name = "a1", on = "p", after = "sa", best = 1, worst = 22, priority = 2 },
  { name = "a2", on = "q", after = "a1", best = 10, worst = 30, priority = 1 },
  { name = "b1", on = "q", after = "sb", best = 1, worst = 20, priority = 2 },
  { name = "b2", on = "p", after = "b1", best = 10, worst = 30, priority = 1 },
]
"#;

pub const GREATER_SOLUTION_REPORT: &str = "task a1 p period 100 jitter 0 distance 0 best 1 worst 82
task a2 q period 100 jitter 81 distance 1 best 10 worst 41
task b1 q period 100 jitter 0 distance 0 best 1 worst 80
task b2 p period 100 jitter 79 distance 1 best 10 worst 39
summary tasks 4 overload 0 missed 0
";

/// A chain that comes back to the processor where it began, and there goes before its own first task. The least distance
/// of 20 that the bus keeps holds `last` to two jobs in the window of `first`. One path just meets its deadline, the
/// other has none.
pub const THERE_AND_BACK: &str = r#"format = 1
resource = [{ name = "cpu", kind = "preemptive" }, { name = "bus", kind = "can" }]
source = [{ name = "s", period = 40 }]
task = [
  { name = "first", on = "cpu", after = "s", best = 2, worst = 10, priority = 2 },
  { name = "over", on = "bus", after = "first", best = 20, worst = 20, priority = 1 },
  { name = "last", on = "cpu", after = "over", best = 5, worst = 15, priority = 1 },
]
path = [
  { name = "whole", tasks = ["first", "over", "last"], deadline = 93 },
  { name = "half", tasks = ["first", "over"] },
]
"#;

pub const THERE_AND_BACK_REPORT: &str =
    "task first cpu period 40 jitter 0 distance 0 best 2 worst 40
task over bus period 40 jitter 38 distance 2 best 20 worst 38
task last cpu period 40 jitter 56 distance 20 best 5 worst 15
path whole best 27 worst 93 deadline 93 met
path half best 22 worst 78 deadline - none
summary tasks 3 overload 0 missed 0
";

/// What stands behind an overloaded task, and below one that does, is overloaded too. A higher task isn't, nor is a frame
/// that an overloaded one can only block. An overload goes before a missed deadline.
pub const BEHIND_OVERLOAD: &str = r#"format = 1
resource = [
  { name = "p", kind = "preemptive", limit = 100 },
  { name = "q", kind = "preemptive" },
  { name = "bus", kind = "can" },
]
source = [{ name = "s", period = 10 }, { name = "c", period = 50, jitter = 5 }]
task = [
  { name = "hog", on = "p", after = "s", best = 5, worst = 20, priority = 1 },
  { name = "next", on = "q", after = "hog", best = 1, worst = 2, priority = 2 },
  { name = "urgent", on = "q", after = "c", best = 3, worst = 4, priority = 1 },
  { name = "late", on = "q", after = "c", best = 3, worst = 4, priority = 3 },
  { name = "tail", on = "bus", after = "next", best = 30, worst = 30, priority = 2 },
  { name = "head", on = "bus", after = "urgent", best = 10, worst = 10, priority = 1 },
]
path = [
  { name = "lost", tasks = ["hog", "next", "tail"], deadline = 1000 },
  { name = "kept", tasks = ["urgent", "head"], deadline = 43 },
]
"#;

pub const BEHIND_OVERLOAD_REPORT: &str =
    "task hog p period 10 jitter 0 distance 0 best 5 worst overload
task next q period 10 jitter overload distance overload best 1 worst overload
task urgent q period 50 jitter 5 distance 0 best 3 worst 4
task late q period 50 jitter 5 distance 0 best 3 worst overload
task tail bus period 10 jitter overload distance overload best 30 worst overload
task head bus period 50 jitter 6 distance 3 best 10 worst 40
path lost best 36 worst overload deadline 1000 unknown
path kept best 13 worst 44 deadline 43 missed
summary tasks 6 overload 4 missed 1
";

/// The largest jitter, execution and limit, and the smallest period.
pub const LARGEST_JITTER: &str = r#"format = 1
resource = [{ name = "cpu", kind = "preemptive", limit = 10000000 }]
source = [{ name = "s", period = 1, jitter = 1000000000 }]
task = [{ name = "t", on = "cpu", after = "s", best = 1, worst = 1000000, priority = 1 }]
"#;

pub const LARGEST_JITTER_REPORT: &str =
    "task t cpu period 1 jitter 1000000000 distance 0 best 1 worst overload
summary tasks 1 overload 1 missed 0
";

/// The largest gap, period, execution and limit, and the smallest slot.
pub const LARGEST_GAP: &str = r#"format = 1
resource = [{ name = "ring", kind = "tdma", gap = 1000000, limit = 10000000 }]
source = [{ name = "s", period = 1000000000 }]
task = [{ name = "t", on = "ring", after = "s", best = 1000000, worst = 1000000, slot = 1 }]
"#;

pub const LARGEST_GAP_REPORT: &str =
    "task t ring period 1000000000 jitter 0 distance 0 best 1000000 worst overload
summary tasks 1 overload 1 missed 0
";

/// Resources and a source without tasks, and a list of paths without entries.
pub const NO_TASKS: &str = r#"format = 1
resource = [{ name = "bus", kind = "can" }, { name = "ring", kind = "tdma" }]
source = [{ name = "s", period = 5, jitter = 9 }]
path = []
"#;

/// A file that was cut within a name.
pub const CUT_NAME: &str = r#"format = 1
resource = [{ name = "cp"#;

/// Three faults, of which the first in the order of reasons is told: `c` has no activator, `a` and `b` have no source, and
/// they have one priority.
pub const NO_ACTIVATOR: &str = r#"format = 1
resource = [{ name = "cpu", kind = "preemptive" }]
source = [{ name = "s", period = 10 }]
task = [
  { name = "a", on = "cpu", after = "b", best = 1, worst = 1, priority = 1 },
  { name = "b", on = "cpu", after = "a", best = 1, worst = 1, priority = 1 },
  { name = "c", on = "cpu", after = "zz", best = 1, worst = 1, priority = 2 },
]
"#;

/// The same with an activator for `c`.
pub const NO_SOURCE: &str = r#"format = 1
resource = [{ name = "cpu", kind = "preemptive" }]
source = [{ name = "s", period = 10 }]
task = [
  { name = "a", on = "cpu", after = "b", best = 1, worst = 1, priority = 1 },
  { name = "b", on = "cpu", after = "a", best = 1, worst = 1, priority = 1 },
  { name = "c", on = "cpu", after = "s", best = 1, worst = 1, priority = 2 },
]
"#;

/// The same with a source for `a` and `b` besides.
pub const ONE_PRIORITY: &str = r#"format = 1
resource = [{ name = "cpu", kind = "preemptive" }]
source = [{ name = "s", period = 10 }]
task = [
  { name = "a", on = "cpu", after = "s", best = 1, worst = 1, priority = 1 },
  { name = "b", on = "cpu", after = "a", best = 1, worst = 1, priority = 1 },
  { name = "c", on = "cpu", after = "s", best = 1, worst = 1, priority = 2 },
]
"#;

/// The case *two_activators* with a source that is named twice.
pub const NAMED_TWICE: &str = r#"format = 2
resource = [{ name = "cpu", kind = "preemptive" }, { name = "q", kind = "preemptive" }]
source = [{ name = "sa", period = 10 }, { name = "sb", period = 20 }]
task = [
  { name = "m", on = "cpu", after = ["sa", "sa"], best = 1, worst = 3, priority = 1 },
  { name = "n", on = "q", after = "m", best = 2, worst = 2, priority = 1 },
]
path = [{ name = "p", tasks = ["m", "n"], deadline = 10 }]
"#;

//! Systems, traces and what comes of them, which tests of several crates try.
#![tactic(auto)]

/// Two periodic tasks on a processor: the window of `b` ends just when the next job of `a` may come, which doesn't count.
pub const TWO_TASKS: &str = r#"format = 1
resource = [{ name = "cpu", kind = "preemptive" }]
source = [{ name = "sa", period = 10 }, { name = "sb", period = 20 }]
task = [
  { name = "a", on = "cpu", after = "sa", best = 1, worst = 3, priority = 1 },
  { name = "b", on = "cpu", after = "sb", best = 2, worst = 7, priority = 2 },
]
"#;

/// A busy window of seven jobs of `b`, with responses of 114, 102, 116, 104, 118, 106 and 94: the greatest isn't the first.
pub const LONG_WINDOW: &str = r#"format = 1
resource = [{ name = "cpu", kind = "preemptive" }]
source = [{ name = "sa", period = 70 }, { name = "sb", period = 100 }]
task = [
  { name = "a", on = "cpu", after = "sa", best = 26, worst = 26, priority = 1 },
  { name = "b", on = "cpu", after = "sb", best = 62, worst = 62, priority = 2 },
]
"#;

/// A jitter above two periods: three events may come at one instant.
pub const BURST: &str = r#"format = 1
resource = [{ name = "cpu", kind = "preemptive" }]
source = [{ name = "s", period = 10, jitter = 25 }]
task = [{ name = "t", on = "cpu", after = "s", best = 1, worst = 2, priority = 1 }]
"#;

/// Two chains whose jitters feed each other without end, and no deadline.
pub const ENDLESS_WITHOUT_DEADLINE: &str = r#"format = 1
resource = [
  { name = "p", kind = "preemptive", limit = 1000 },
  { name = "q", kind = "preemptive", limit = 1000 },
  { name = "r", kind = "preemptive" },
]
source = [{ name = "sa", period = 100 }, { name = "sb", period = 100 }, { name = "sc", period = 50, jitter = 5 }]
task = [
  { name = "a1", on = "p", after = "sa", best = 1, worst = 30, priority = 2 },
  { name = "a2", on = "q", after = "a1", best = 1, worst = 60, priority = 1 },
  { name = "b1", on = "q", after = "sb", best = 1, worst = 30, priority = 2 },
  { name = "b2", on = "p", after = "b1", best = 1, worst = 60, priority = 1 },
  { name = "c", on = "r", after = "sc", best = 2, worst = 4, priority = 1 },
]
"#;

/// The two tasks that take turns, beside a TDMA resource that has no tasks.
pub const IDLE_TDMA: &str = r#"format = 1
resource = [{ name = "rr", kind = "round-robin" }, { name = "idle", kind = "tdma" }]
source = [{ name = "sa", period = 20 }, { name = "sb", period = 20 }]
task = [
  { name = "a", on = "rr", after = "sa", best = 3, worst = 3, slot = 2 },
  { name = "b", on = "rr", after = "sb", best = 1, worst = 1, slot = 4 },
]
"#;

/// Four kinds of resource: `high` preempts `low`; `m1` waits for the frame of `m2`, and its second job follows the first;
/// the phase of the ring lets `t` run in ticks 10, 11 and 20.
pub const FOUR_KINDS: &str = r#"format = 1
resource = [
  { name = "cpu", kind = "preemptive" },
  { name = "rr", kind = "round-robin" },
  { name = "ring", kind = "tdma", gap = 8 },
  { name = "bus", kind = "can", bit = 1 },
]
source = [
  { name = "slow", period = 100 },
  { name = "fast", period = 10 },
  { name = "sa", period = 20 },
  { name = "sb", period = 20 },
  { name = "s", period = 40 },
  { name = "s1", period = 4 },
  { name = "s2", period = 100 },
]
task = [
  { name = "low", on = "cpu", after = "slow", best = 5, worst = 5, priority = 2 },
  { name = "high", on = "cpu", after = "fast", best = 2, worst = 2, priority = 1 },
  { name = "a", on = "rr", after = "sa", best = 3, worst = 3, slot = 2 },
  { name = "b", on = "rr", after = "sb", best = 1, worst = 1, slot = 4 },
  { name = "t", on = "ring", after = "s", best = 3, worst = 3, slot = 2 },
  { name = "m1", on = "bus", after = "s1", best = 4, worst = 4, priority = 1 },
  { name = "m2", on = "bus", after = "s2", best = 6, worst = 6, priority = 2 },
]
"#;

pub const FOUR_KINDS_TRACE: &str =
    "event,slow,0\nevent,fast,2\nevent,sa,0\nevent,sb,0\nevent,s,2\nevent,s1,1\nevent,s1,5\nevent,s2,0\nexec,t,3\nphase,ring,0\n";

pub const FOUR_KINDS_RUN: &str =
    "low,0,2\na,0,2\nm2,0,6\nhigh,2,4\nb,2,3\na,3,4\nlow,4,7\nm1,6,10\nt,10,12\nm1,10,14\nt,20,21\n";

/// Eleven jobs at once, of which the horizon cuts the last.
pub const LATE_JOBS: &str = r#"format = 1
resource = [{ name = "cpu", kind = "preemptive" }]
source = [{ name = "s", period = 1, jitter = 30 }]
task = [{ name = "t", on = "cpu", after = "s", best = 1, worst = 999999, priority = 1 }]
"#;

pub const LATE_TRACE: &str =
    "event,s,10000000\nevent,s,10000000\nevent,s,10000000\nevent,s,10000000\nevent,s,10000000\nevent,s,10000000\nevent,s,10000000\nevent,s,10000000\nevent,s,10000000\nevent,s,10000000\nevent,s,10000000\n";

pub const LATE_RUN: &str =
    "t,10000000,10999999\nt,10999999,11999998\nt,11999998,12999997\nt,12999997,13999996\nt,13999996,14999995\nt,14999995,15999994\nt,15999994,16999993\nt,16999993,17999992\nt,17999992,18999991\nt,18999991,19999990\nt,19999990,20000000\n";

/// Two tasks whose sources share a clock: `low` comes 5 ticks after `high` at the earliest, which is done by then. The third
/// source is on a clock of its own.
pub const ON_A_CLOCK: &str = r#"format = 4
resource = [{ name = "cpu", kind = "preemptive", limit = 1000 }]
source = [
  { name = "sa", period = 10, clock = "timer" },
  { name = "sb", period = 20, jitter = 1, clock = "timer", offset = 5 },
  { name = "sc", period = 40, clock = "other", offset = 39 },
  { name = "sd", period = 40 },
]
task = [
  { name = "high", on = "cpu", after = "sa", best = 1, worst = 4, priority = 1 },
  { name = "low", on = "cpu", after = "sb", best = 2, worst = 3, priority = 2 },
]
path = [{ name = "p", tasks = ["low"] }]
"#;

/// A gateway that takes frames from one CAN bus to another, and to an Ethernet port: its jobs and the port's frames wait in
/// queues. Two frames of `rb` may come 79 ticks apart, and jobs of `cb` take longer than that.
pub const GATEWAY: &str = r#"format = 4
resource = [
  { name = "left", kind = "can" },
  { name = "gateway", kind = "fifo", limit = 2000 },
  { name = "right", kind = "can" },
  { name = "port", kind = "fifo", rate = 100 },
]
source = [{ name = "sa", period = 500 }, { name = "sb", period = 700, jitter = 900 }, { name = "sc", period = 1000 }]
task = [
  { name = "ra", on = "left", after = "sa", payload = 8, priority = 1 },
  { name = "rb", on = "left", after = "sb", payload = 4, priority = 2 },
  { name = "ca", on = "gateway", after = "ra", best = 5, worst = 30 },
  { name = "cb", on = "gateway", after = "rb", best = 5, worst = 90 },
  { name = "log", on = "gateway", after = "sc", best = 10, worst = 80 },
  { name = "wa", on = "right", after = "ca", payload = 8, priority = 2 },
  { name = "wb", on = "right", after = "cb", payload = 4, priority = 1 },
  { name = "pa", on = "port", after = "ca", payload = 0 },
  { name = "pl", on = "port", after = "log", payload = 1500 },
]
path = [{ name = "a", tasks = ["ra", "ca", "wa"], deadline = 900 }]
"#;

/// A processor with locks: the ceiling of `bus` is the priority of `control`, that of `file` is the priority of its only user, and
/// `filter` has regions. `spare` runs on a processor without locks.
pub const LOCKED: &str = r#"format = 4
resource = [{ name = "cpu", kind = "ceiling", limit = 2000 }, { name = "side", kind = "preemptive" }]
source = [{ name = "fast", period = 20 }, { name = "slow", period = 50 }, { name = "rare", period = 100 }]
task = [
  { name = "control", on = "cpu", after = "fast", best = 1, worst = 2, priority = 1, locks = [{ name = "bus", start = 0, length = 1 }] },
  { name = "filter", on = "cpu", after = "slow", best = 2, worst = 6, priority = 2, region = 3 },
  { name = "logger", on = "cpu", after = "rare", best = 5, worst = 10, priority = 3, locks = [{ name = "bus", start = 2, length = 5 }, { name = "file", start = 3, length = 2 }] },
  { name = "spare", on = "side", after = "rare", best = 1, worst = 2, priority = 1 },
]
path = [{ name = "p", tasks = ["control"], deadline = 6 }]
"#;

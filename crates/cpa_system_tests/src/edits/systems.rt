//! The systems of the tests.

/// The system of *two_tasks* with a third task `k`, a frame `f` after it, and a path from `k` to `f`.
/// There is a resource of each kind.
pub(crate) const WORKS: &str = r#"format = 1
resource = [
  { name = "cpu", kind = "preemptive", limit = 1000 },
  { name = "bus", kind = "can", limit = 1000 },
  { name = "ring", kind = "round-robin", limit = 1000 },
  { name = "table", kind = "tdma", limit = 1000 },
]
source = [{ name = "sa", period = 10 }, { name = "sb", period = 20 }]
task = [
  { name = "a", on = "cpu", after = "sa", best = 1, worst = 3, priority = 1 },
  { name = "b", on = "cpu", after = "sb", best = 2, worst = 7, priority = 2 },
  { name = "k", on = "cpu", after = "sb", best = 1, worst = 2, priority = 8 },
  { name = "f", on = "bus", after = "k", best = 1, worst = 2, priority = 9 },
]
path = [{ name = "p", tasks = ["k", "f"] }]
"#;

/// Two tasks with regions and one without, none of which another needs.
pub(crate) const COOPERATIVE: &str = r#"format = 4
resource = [{ name = "cpu", kind = "preemptive", limit = 1000 }]
source = [{ name = "s", period = 40 }]
task = [
  { name = "a", on = "cpu", after = "s", best = 1, worst = 3, priority = 1, region = 2 },
  { name = "b", on = "cpu", after = "s", best = 2, worst = 4, priority = 2, region = 4 },
  { name = "c", on = "cpu", after = "s", best = 1, worst = 2, priority = 3 },
]
"#;

/// Two chains that cross: each processor has the first task of one and the second of the other.
pub(crate) const CROSSING_CHAINS: &str = r#"format = 1
resource = [
  { name = "p", kind = "preemptive", limit = 1000 },
  { name = "q", kind = "preemptive", limit = 1000 },
]
source = [{ name = "sa", period = 100 }, { name = "sb", period = 100 }]
task = [
  { name = "a1", on = "p", after = "sa", best = 1, worst = 20, priority = 2 },
  { name = "a2", on = "q", after = "a1", best = 10, worst = 30, priority = 1 },
  { name = "b1", on = "q", after = "sb", best = 1, worst = 20, priority = 2 },
  { name = "b2", on = "p", after = "b1", best = 10, worst = 30, priority = 1 },
]
"#;

/// Tasks after several sources and tasks: `k` after three tasks and a source. Nothing comes after `z`.
pub(crate) const JOINED: &str = r#"format = 2
resource = [
  { name = "cpu", kind = "preemptive", limit = 1000 },
  { name = "bus", kind = "can", limit = 1000 },
  { name = "ring", kind = "round-robin", limit = 1000 },
  { name = "table", kind = "tdma", limit = 1000 },
]
source = [{ name = "sa", period = 10 }, { name = "sb", period = 20 }, { name = "sc", period = 40 }]
task = [
  { name = "z", on = "cpu", after = "sc", best = 1, worst = 1, priority = 9 },
  { name = "x", on = "cpu", after = "sc", best = 1, worst = 2, priority = 7 },
  { name = "m", on = "cpu", after = ["sa", "sb"], best = 1, worst = 3, priority = 1 },
  { name = "n", on = "bus", after = ["m", "sc"], best = 1, worst = 2, priority = 1 },
  { name = "k", on = "table", after = ["x", "sa", "m", "n"], best = 1, worst = 2, slot = 3 },
]
path = [{ name = "p", tasks = ["m", "n", "k"] }]
"#;

/// A chain of 32 tasks, each of which a source starts as well, so that the last has 32 streams.
pub(crate) const LADDER: &str = r#"format = 2
resource = [
  { name = "cpu", kind = "preemptive", limit = 1000 },
  { name = "bus", kind = "can", limit = 1000 },
  { name = "ring", kind = "round-robin", limit = 1000 },
  { name = "table", kind = "tdma", limit = 1000 },
]
source = [{ name = "sa", period = 10 }]
task = [
  { name = "t0", on = "ring", after = "sa", best = 1, worst = 1, slot = 1 },
  { name = "t1", on = "ring", after = ["sa", "t0"], best = 1, worst = 1, slot = 1 },
  { name = "t2", on = "ring", after = ["sa", "t1"], best = 1, worst = 1, slot = 1 },
  { name = "t3", on = "ring", after = ["sa", "t2"], best = 1, worst = 1, slot = 1 },
  { name = "t4", on = "ring", after = ["sa", "t3"], best = 1, worst = 1, slot = 1 },
  { name = "t5", on = "ring", after = ["sa", "t4"], best = 1, worst = 1, slot = 1 },
  { name = "t6", on = "ring", after = ["sa", "t5"], best = 1, worst = 1, slot = 1 },
  { name = "t7", on = "ring", after = ["sa", "t6"], best = 1, worst = 1, slot = 1 },
  { name = "t8", on = "ring", after = ["sa", "t7"], best = 1, worst = 1, slot = 1 },
  { name = "t9", on = "ring", after = ["sa", "t8"], best = 1, worst = 1, slot = 1 },
  { name = "t10", on = "ring", after = ["sa", "t9"], best = 1, worst = 1, slot = 1 },
  { name = "t11", on = "ring", after = ["sa", "t10"], best = 1, worst = 1, slot = 1 },
  { name = "t12", on = "ring", after = ["sa", "t11"], best = 1, worst = 1, slot = 1 },
  { name = "t13", on = "ring", after = ["sa", "t12"], best = 1, worst = 1, slot = 1 },
  { name = "t14", on = "ring", after = ["sa", "t13"], best = 1, worst = 1, slot = 1 },
  { name = "t15", on = "ring", after = ["sa", "t14"], best = 1, worst = 1, slot = 1 },
  { name = "t16", on = "ring", after = ["sa", "t15"], best = 1, worst = 1, slot = 1 },
  { name = "t17", on = "ring", after = ["sa", "t16"], best = 1, worst = 1, slot = 1 },
  { name = "t18", on = "ring", after = ["sa", "t17"], best = 1, worst = 1, slot = 1 },
  { name = "t19", on = "ring", after = ["sa", "t18"], best = 1, worst = 1, slot = 1 },
  { name = "t20", on = "ring", after = ["sa", "t19"], best = 1, worst = 1, slot = 1 },
  { name = "t21", on = "ring", after = ["sa", "t20"], best = 1, worst = 1, slot = 1 },
  { name = "t22", on = "ring", after = ["sa", "t21"], best = 1, worst = 1, slot = 1 },
  { name = "t23", on = "ring", after = ["sa", "t22"], best = 1, worst = 1, slot = 1 },
  { name = "t24", on = "ring", after = ["sa", "t23"], best = 1, worst = 1, slot = 1 },
  { name = "t25", on = "ring", after = ["sa", "t24"], best = 1, worst = 1, slot = 1 },
  { name = "t26", on = "ring", after = ["sa", "t25"], best = 1, worst = 1, slot = 1 },
  { name = "t27", on = "ring", after = ["sa", "t26"], best = 1, worst = 1, slot = 1 },
  { name = "t28", on = "ring", after = ["sa", "t27"], best = 1, worst = 1, slot = 1 },
  { name = "t29", on = "ring", after = ["sa", "t28"], best = 1, worst = 1, slot = 1 },
  { name = "t30", on = "ring", after = ["sa", "t29"], best = 1, worst = 1, slot = 1 },
  { name = "t31", on = "ring", after = ["sa", "t30"], best = 1, worst = 1, slot = 1 },
]
"#;

//! The systems of the tests.

/// Two tasks on a processor, the second after the first, and one on a TDMA bus, whose cycle is 40.
/// Another such bus has no task.
pub(crate) const THREE_TASKS: &str = r#"format = 1
resource = [
  { name = "cpu", kind = "preemptive" },
  { name = "ring", kind = "tdma", gap = 10 },
  { name = "idle", kind = "tdma" },
]
source = [
  { name = "sa", period = 10, jitter = 25, distance = 4 },
  { name = "sb", period = 20, jitter = 0, distance = 0 },
]
task = [
  { name = "a", on = "cpu", after = "sa", best = 2, worst = 7, priority = 1 },
  { name = "b", on = "cpu", after = "a", best = 2, worst = 7, priority = 2 },
  { name = "x", on = "ring", after = "sb", best = 2, worst = 7, slot = 30 },
]
"#;

/// A processor with eleven tasks after one source and one after another.
pub(crate) const CROWD: &str = r#"format = 1
resource = [{ name = "cpu", kind = "preemptive" }]
source = [
  { name = "sa", period = 1, jitter = 0, distance = 0 },
  { name = "sb", period = 1, jitter = 0, distance = 0 },
]
task = [
  { name = "t", on = "cpu", after = "sb", best = 2, worst = 7, priority = 0 },
  { name = "t1", on = "cpu", after = "sa", best = 2, worst = 7, priority = 1 },
  { name = "t2", on = "cpu", after = "sa", best = 2, worst = 7, priority = 2 },
  { name = "t3", on = "cpu", after = "sa", best = 2, worst = 7, priority = 3 },
  { name = "t4", on = "cpu", after = "sa", best = 2, worst = 7, priority = 4 },
  { name = "t5", on = "cpu", after = "sa", best = 2, worst = 7, priority = 5 },
  { name = "t6", on = "cpu", after = "sa", best = 2, worst = 7, priority = 6 },
  { name = "t7", on = "cpu", after = "sa", best = 2, worst = 7, priority = 7 },
  { name = "t8", on = "cpu", after = "sa", best = 2, worst = 7, priority = 8 },
  { name = "t9", on = "cpu", after = "sa", best = 2, worst = 7, priority = 9 },
  { name = "t10", on = "cpu", after = "sa", best = 2, worst = 7, priority = 10 },
  { name = "t11", on = "cpu", after = "sa", best = 2, worst = 7, priority = 11 },
]
"#;

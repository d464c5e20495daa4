//! The systems of the tests.

/// A system without anything.
pub(crate) const EMPTY: &str = "format = 1";

/// A chain from a processor over a bus, beside a frame of lower priority; `lone` feeds nobody.
pub(crate) const CHAIN: &str = r#"format = 1
resource = [{ name = "cpu", kind = "preemptive" }, { name = "bus", kind = "can" }]
source = [{ name = "s", period = 100 }, { name = "lone", period = 100 }]
task = [
  { name = "sense", on = "cpu", after = "s", best = 2, worst = 2, priority = 1 },
  { name = "send", on = "bus", after = "sense", best = 5, worst = 5, priority = 1 },
  { name = "other", on = "bus", after = "s", best = 9, worst = 9, priority = 2 },
]
path = [{ name = "p", tasks = ["sense", "send"] }]
"#;

/// Two tasks that stand before a third, in the other order on the resources and in its list, beside a source.
pub(crate) const AT_ONCE: &str = "format = 2
resource = [{ name = \"x\", kind = \"preemptive\" }, { name = \"y\", kind = \"preemptive\" }, { name = \"z\", kind = \"preemptive\" }]
source = [{ name = \"s\", period = 100 }, { name = \"u\", period = 100 }]
task = [
  { name = \"a\", on = \"y\", after = \"s\", best = 3, worst = 3, priority = 1 },
  { name = \"b\", on = \"x\", after = \"s\", best = 3, worst = 3, priority = 1 },
  { name = \"c\", on = \"z\", after = [\"u\", \"b\", \"a\"], best = 1, worst = 9, priority = 1 },
]
path = [{ name = \"pa\", tasks = [\"a\", \"c\"], deadline = 99 }, { name = \"pb\", tasks = [\"b\", \"c\"], deadline = 99 }]
";

/// Two tasks that start jobs of a third, whose jobs start those of a fourth.
pub(crate) const TURNS: &str = "format = 2
resource = [
  { name = \"x\", kind = \"preemptive\" },
  { name = \"y\", kind = \"preemptive\" },
  { name = \"z\", kind = \"preemptive\" },
  { name = \"w\", kind = \"preemptive\" },
]
source = [{ name = \"sa\", period = 10 }, { name = \"sb\", period = 10 }]
task = [
  { name = \"a\", on = \"x\", after = \"sa\", best = 1, worst = 4, priority = 1 },
  { name = \"b\", on = \"y\", after = \"sb\", best = 1, worst = 4, priority = 1 },
  { name = \"c\", on = \"z\", after = [\"b\", \"a\"], best = 1, worst = 3, priority = 1 },
  { name = \"d\", on = \"w\", after = \"c\", best = 1, worst = 2, priority = 1 },
]
path = [{ name = \"pa\", tasks = [\"a\", \"c\", \"d\"] }, { name = \"pb\", tasks = [\"b\", \"c\", \"d\"] }]
";

/// 32 tasks, each on a resource of its own, of which one more task has all in its list, the last first.
pub(crate) const FAN: &str = "format = 2
resource = [
  { name = \"r0\", kind = \"preemptive\" }, { name = \"r1\", kind = \"preemptive\" }, { name = \"r2\", kind = \"preemptive\" },
  { name = \"r3\", kind = \"preemptive\" }, { name = \"r4\", kind = \"preemptive\" }, { name = \"r5\", kind = \"preemptive\" },
  { name = \"r6\", kind = \"preemptive\" }, { name = \"r7\", kind = \"preemptive\" }, { name = \"r8\", kind = \"preemptive\" },
  { name = \"r9\", kind = \"preemptive\" }, { name = \"r10\", kind = \"preemptive\" }, { name = \"r11\", kind = \"preemptive\" },
  { name = \"r12\", kind = \"preemptive\" }, { name = \"r13\", kind = \"preemptive\" }, { name = \"r14\", kind = \"preemptive\" },
  { name = \"r15\", kind = \"preemptive\" }, { name = \"r16\", kind = \"preemptive\" }, { name = \"r17\", kind = \"preemptive\" },
  { name = \"r18\", kind = \"preemptive\" }, { name = \"r19\", kind = \"preemptive\" }, { name = \"r20\", kind = \"preemptive\" },
  { name = \"r21\", kind = \"preemptive\" }, { name = \"r22\", kind = \"preemptive\" }, { name = \"r23\", kind = \"preemptive\" },
  { name = \"r24\", kind = \"preemptive\" }, { name = \"r25\", kind = \"preemptive\" }, { name = \"r26\", kind = \"preemptive\" },
  { name = \"r27\", kind = \"preemptive\" }, { name = \"r28\", kind = \"preemptive\" }, { name = \"r29\", kind = \"preemptive\" },
  { name = \"r30\", kind = \"preemptive\" }, { name = \"r31\", kind = \"preemptive\" }, { name = \"r32\", kind = \"preemptive\" },
]
source = [{ name = \"s\", period = 1000 }]
task = [
  { name = \"t0\", on = \"r32\", after = \"s\", best = 2, worst = 2, priority = 1 },
  { name = \"t1\", on = \"r31\", after = \"s\", best = 2, worst = 2, priority = 1 },
  { name = \"t2\", on = \"r30\", after = \"s\", best = 2, worst = 2, priority = 1 },
  { name = \"t3\", on = \"r29\", after = \"s\", best = 2, worst = 2, priority = 1 },
  { name = \"t4\", on = \"r28\", after = \"s\", best = 2, worst = 2, priority = 1 },
  { name = \"t5\", on = \"r27\", after = \"s\", best = 2, worst = 2, priority = 1 },
  { name = \"t6\", on = \"r26\", after = \"s\", best = 2, worst = 2, priority = 1 },
  { name = \"t7\", on = \"r25\", after = \"s\", best = 2, worst = 2, priority = 1 },
  { name = \"t8\", on = \"r24\", after = \"s\", best = 2, worst = 2, priority = 1 },
  { name = \"t9\", on = \"r23\", after = \"s\", best = 2, worst = 2, priority = 1 },
  { name = \"t10\", on = \"r22\", after = \"s\", best = 2, worst = 2, priority = 1 },
  { name = \"t11\", on = \"r21\", after = \"s\", best = 2, worst = 2, priority = 1 },
  { name = \"t12\", on = \"r20\", after = \"s\", best = 2, worst = 2, priority = 1 },
  { name = \"t13\", on = \"r19\", after = \"s\", best = 2, worst = 2, priority = 1 },
  { name = \"t14\", on = \"r18\", after = \"s\", best = 2, worst = 2, priority = 1 },
  { name = \"t15\", on = \"r17\", after = \"s\", best = 2, worst = 2, priority = 1 },
  { name = \"t16\", on = \"r16\", after = \"s\", best = 2, worst = 2, priority = 1 },
  { name = \"t17\", on = \"r15\", after = \"s\", best = 2, worst = 2, priority = 1 },
  { name = \"t18\", on = \"r14\", after = \"s\", best = 2, worst = 2, priority = 1 },
  { name = \"t19\", on = \"r13\", after = \"s\", best = 2, worst = 2, priority = 1 },
  { name = \"t20\", on = \"r12\", after = \"s\", best = 2, worst = 2, priority = 1 },
  { name = \"t21\", on = \"r11\", after = \"s\", best = 2, worst = 2, priority = 1 },
  { name = \"t22\", on = \"r10\", after = \"s\", best = 2, worst = 2, priority = 1 },
  { name = \"t23\", on = \"r9\", after = \"s\", best = 2, worst = 2, priority = 1 },
  { name = \"t24\", on = \"r8\", after = \"s\", best = 2, worst = 2, priority = 1 },
  { name = \"t25\", on = \"r7\", after = \"s\", best = 2, worst = 2, priority = 1 },
  { name = \"t26\", on = \"r6\", after = \"s\", best = 2, worst = 2, priority = 1 },
  { name = \"t27\", on = \"r5\", after = \"s\", best = 2, worst = 2, priority = 1 },
  { name = \"t28\", on = \"r4\", after = \"s\", best = 2, worst = 2, priority = 1 },
  { name = \"t29\", on = \"r3\", after = \"s\", best = 2, worst = 2, priority = 1 },
  { name = \"t30\", on = \"r2\", after = \"s\", best = 2, worst = 2, priority = 1 },
  { name = \"t31\", on = \"r1\", after = \"s\", best = 2, worst = 2, priority = 1 },
  { name = \"u\", on = \"r0\", after = [
    \"t31\", \"t30\", \"t29\", \"t28\", \"t27\", \"t26\", \"t25\", \"t24\",
    \"t23\", \"t22\", \"t21\", \"t20\", \"t19\", \"t18\", \"t17\", \"t16\",
    \"t15\", \"t14\", \"t13\", \"t12\", \"t11\", \"t10\", \"t9\", \"t8\",
    \"t7\", \"t6\", \"t5\", \"t4\", \"t3\", \"t2\", \"t1\", \"t0\",
  ], best = 1, worst = 32, priority = 1 },
]
path = [{ name = \"first\", tasks = [\"t0\", \"u\"] }, { name = \"second\", tasks = [\"t1\", \"u\"] }, { name = \"last\", tasks = [\"t31\", \"u\"] }]
";

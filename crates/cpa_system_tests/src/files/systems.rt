//! Systems of all kinds.

pub(crate) const TWO_TASKS: &str = "format = 1
resource = [{ name = \"cpu\", kind = \"preemptive\" }]
source = [{ name = \"sa\", period = 10 }, { name = \"sb\", period = 20 }]
task = [
  { name = \"a\", on = \"cpu\", after = \"sa\", best = 1, worst = 3, priority = 1 },
  { name = \"b\", on = \"cpu\", after = \"sb\", best = 2, worst = 7, priority = 2 },
]
";

/// The same in the later format.
pub(crate) const TWO_TASKS_LATER: &str = "format = 2
resource = [{ name = \"cpu\", kind = \"preemptive\" }]
source = [{ name = \"sa\", period = 10 }, { name = \"sb\", period = 20 }]
task = [
  { name = \"a\", on = \"cpu\", after = \"sa\", best = 1, worst = 3, priority = 1 },
  { name = \"b\", on = \"cpu\", after = \"sb\", best = 2, worst = 7, priority = 2 },
]
";

pub(crate) const TWO_ACTIVATORS: &str = "format = 2
resource = [{ name = \"cpu\", kind = \"preemptive\" }, { name = \"q\", kind = \"preemptive\" }]
source = [{ name = \"sa\", period = 10 }, { name = \"sb\", period = 20 }]
task = [
  { name = \"m\", on = \"cpu\", after = [\"sa\", \"sb\"], best = 1, worst = 3, priority = 1 },
  { name = \"n\", on = \"q\", after = \"m\", best = 2, worst = 2, priority = 1 },
]
path = [{ name = \"p\", tasks = [\"m\", \"n\"], deadline = 10 }]
";

pub(crate) const SHARED_SOURCE: &str = "format = 2
resource = [{ name = \"p\", kind = \"preemptive\" }]
source = [{ name = \"s\", period = 100 }]
task = [
  { name = \"a\", on = \"p\", after = \"s\", best = 1, worst = 1, priority = 1 },
  { name = \"b\", on = \"p\", after = \"s\", best = 1, worst = 1, priority = 2 },
  { name = \"c\", on = \"p\", after = [\"a\", \"b\"], best = 1, worst = 1, priority = 3 },
]
";

/// One task has a region of two ticks; that of the third is the default.
pub(crate) const COOPERATIVE: &str = "format = 4
resource = [{ name = \"cpu\", kind = \"preemptive\" }]
source = [{ name = \"s\", period = 40 }]
task = [
  { name = \"a\", on = \"cpu\", after = \"s\", best = 1, worst = 3, priority = 1 },
  { name = \"b\", on = \"cpu\", after = [\"s\", \"a\"], best = 2, worst = 4, priority = 2, region = 2 },
  { name = \"c\", on = \"cpu\", after = \"s\", best = 6, worst = 9, priority = 3, region = 1 },
]
";

pub(crate) const LONG_WINDOW: &str = "format = 1
resource = [{ name = \"cpu\", kind = \"preemptive\" }]
source = [{ name = \"sa\", period = 70 }, { name = \"sb\", period = 100 }]
task = [
  { name = \"a\", on = \"cpu\", after = \"sa\", best = 26, worst = 26, priority = 1 },
  { name = \"b\", on = \"cpu\", after = \"sb\", best = 62, worst = 62, priority = 2 },
]
";

pub(crate) const DAVIS_BUS: &str = "format = 1
resource = [{ name = \"bus\", kind = \"can\", bit = 1 }]
source = [{ name = \"s1\", period = 250 }, { name = \"s2\", period = 350 }, { name = \"s3\", period = 350 }]
task = [
  { name = \"m1\", on = \"bus\", after = \"s1\", best = 100, worst = 100, priority = 1 },
  { name = \"m2\", on = \"bus\", after = \"s2\", best = 100, worst = 100, priority = 2 },
  { name = \"m3\", on = \"bus\", after = \"s3\", best = 100, worst = 100, priority = 3 },
]
path = [{ name = \"d3\", tasks = [\"m3\"], deadline = 325 }]
";

pub(crate) const FRAME_LENGTHS: &str = "format = 1
[[resource]]
name = \"bus\"
kind = \"can\"
bit = 2
[[source]]
name = \"s1\"
period = 10000
[[source]]
name = \"s2\"
period = 10000
[[task]]
name = \"f\"
on = \"bus\"
after = \"s1\"
payload = 8
priority = 1
[[task]]
name = \"g\"
on = \"bus\"
after = \"s2\"
payload = 0
extended = true
priority = 2
";

pub(crate) const CROSSING_CHAINS: &str = "format = 1
resource = [{ name = \"p\", kind = \"preemptive\" }, { name = \"q\", kind = \"preemptive\" }]
source = [{ name = \"sa\", period = 100 }, { name = \"sb\", period = 100 }]
task = [
  { name = \"a1\", on = \"p\", after = \"sa\", best = 5, worst = 10, priority = 2 },
  { name = \"a2\", on = \"q\", after = \"a1\", best = 5, worst = 10, priority = 1 },
  { name = \"b1\", on = \"q\", after = \"sb\", best = 10, worst = 20, priority = 2 },
  { name = \"b2\", on = \"p\", after = \"b1\", best = 10, worst = 20, priority = 1 },
]
path = [
  { name = \"pa\", tasks = [\"a1\", \"a2\"], deadline = 45 },
  { name = \"pb\", tasks = [\"b1\", \"b2\"], deadline = 45 },
]
";

pub(crate) const ENDLESS_JITTER: &str = "format = 1
resource = [{ name = \"p\", kind = \"preemptive\", limit = 1000 }, { name = \"q\", kind = \"preemptive\", limit = 1000 }, { name = \"r\", kind = \"preemptive\" }]
source = [{ name = \"sa\", period = 100 }, { name = \"sb\", period = 100 }, { name = \"sc\", period = 50, jitter = 5 }]
task = [
  { name = \"a1\", on = \"p\", after = \"sa\", best = 1, worst = 30, priority = 2 },
  { name = \"a2\", on = \"q\", after = \"a1\", best = 1, worst = 60, priority = 1 },
  { name = \"b1\", on = \"q\", after = \"sb\", best = 1, worst = 30, priority = 2 },
  { name = \"b2\", on = \"p\", after = \"b1\", best = 1, worst = 60, priority = 1 },
  { name = \"c\", on = \"r\", after = \"sc\", best = 2, worst = 4, priority = 1 },
]
path = [
  { name = \"pa\", tasks = [\"a1\", \"a2\"], deadline = 500 },
]
";

pub(crate) const TDMA_GAP: &str = "format = 1
resource = [{ name = \"ring\", kind = \"tdma\", gap = 8 }]
source = [{ name = \"s\", period = 40 }]
task = [
  { name = \"t\", on = \"ring\", after = \"s\", best = 3, worst = 3, slot = 2 },
]
";

pub(crate) const ROUND_ROBIN: &str = "format = 1
resource = [{ name = \"rr\", kind = \"round-robin\" }]
source = [{ name = \"sa\", period = 20 }, { name = \"sb\", period = 20 }]
task = [
  { name = \"a\", on = \"rr\", after = \"sa\", best = 3, worst = 3, slot = 2 },
  { name = \"b\", on = \"rr\", after = \"sb\", best = 1, worst = 1, slot = 4 },
]
";

pub(crate) const ROUND_ROBIN_SHARE: &str = "format = 1
resource = [{ name = \"rr\", kind = \"round-robin\", limit = 1000 }]
source = [{ name = \"sa\", period = 20 }, { name = \"sb\", period = 5 }]
task = [
  { name = \"a\", on = \"rr\", after = \"sa\", best = 3, worst = 3, slot = 2 },
  { name = \"b\", on = \"rr\", after = \"sb\", best = 10, worst = 10, slot = 4 },
]
";

pub(crate) const BURST: &str = "format = 1
resource = [{ name = \"cpu\", kind = \"preemptive\" }]
source = [{ name = \"s\", period = 10, jitter = 25, distance = 0 }]
task = [
  { name = \"t\", on = \"cpu\", after = \"s\", best = 1, worst = 2, priority = 1 },
]
";

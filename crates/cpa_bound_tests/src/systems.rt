//! Systems of several tests, and what tests have in common.

ghost use Rattle.std.specs.Prelude.{◌≡◌, IfOk, length};

use cpa_units::{Bound, NoMemory, TaskId, Vector};
use std::alloc::Global;

pub(crate) fn needs_shared<T: Send + Sync>(_value: &T) {}

/// A vector of these bounds, and overloads after them.
pub(crate) fn vector(alloc: Global, len: u32, bounds: &[Bound]) -> Result<Vector, NoMemory>
    ensures { IfOk result (λ x. length x ≡ len) }
{
    let mut x = Vector::filled(alloc, len, Bound::Overload)?;
    for k in 0..len {
        if let Some(&bound) = bounds.get(k as usize) {
            x.set(TaskId(k), bound);
        }
    }
    Ok(x)
}

/// Two chains that cross on `p` and `q`, whose jitters feed each other without end, and a task alone on `r`.
pub(crate) const ENDLESS_JITTER: &str = r#"format = 1
resource = [
  { name = "p", kind = "preemptive", limit = 1000 },
  { name = "q", kind = "preemptive", limit = 1000 },
  { name = "r", kind = "preemptive", limit = 1000 },
]
source = [{ name = "sa", period = 100 }, { name = "sb", period = 100 }, { name = "sc", period = 50, jitter = 5 }]
task = [
  { name = "a1", on = "p", after = "sa", best = 1, worst = 30, priority = 2 },
  { name = "a2", on = "q", after = "a1", best = 1, worst = 60, priority = 1 },
  { name = "b1", on = "q", after = "sb", best = 1, worst = 30, priority = 2 },
  { name = "b2", on = "p", after = "b1", best = 1, worst = 60, priority = 1 },
  { name = "c", on = "r", after = "sc", best = 2, worst = 4, priority = 1 },
]
"#;

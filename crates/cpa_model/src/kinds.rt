//! What the kinds of resources differ in, but for their bounds and their step rules.

ghost use Rattle.std.specs.Prelude.{◌≡◌, ◌≤◌};
ghost use Rattle.cpa_units.specs.declared.limits.TheConstants.{MAX_EXECUTION};
ghost use Rattle.cpa_model.specs.Kinds.{has_priorities, has_feedback, wants_inputs, blocking_by, is_queue};

use crate::entries::{Kind, Task};

impl Kind {
    /// Whether its tasks have priorities; those of the others have slots, or neither where they queue.
    pub fn has_priorities(self) -> bool
        ensures { result ≡ has_priorities self }
    {
        match self {
            Kind::Preemptive | Kind::Can { bit: _ } | Kind::Ceiling => true,
            Kind::RoundRobin | Kind::Tdma { gap: _ } | Kind::Fifo => false,
        }
    }

    /// Whether the bounds of tasks bear on those of others on the same resource: under round robin a rival's bound counts.
    pub fn has_feedback(self) -> bool
        ensures { result ≡ has_feedback self }
    {
        match self {
            Kind::RoundRobin => true,
            Kind::Preemptive
            | Kind::Tdma { gap: _ }
            | Kind::Can { bit: _ }
            | Kind::Fifo
            | Kind::Ceiling => false,
        }
    }

    /// Whether a task's bound depends on the inputs of others on the same resource.
    pub fn wants_inputs(self) -> bool
        ensures { result ≡ wants_inputs self }
    {
        match self {
            Kind::Preemptive
            | Kind::RoundRobin
            | Kind::Can { bit: _ }
            | Kind::Fifo
            | Kind::Ceiling => true,
            Kind::Tdma { gap: _ } => false,
        }
    }

    /// By how many ticks a job of a task that has begun keeps a more urgent one waiting: by the rest of a region after its first
    /// tick under preemptive priority (Davis and Bertogna, "Optimal Fixed Priority Scheduling with Deferred Pre-emption", 2012),
    /// and by a whole frame on CAN (Davis et al., 2007).
    pub fn blocking_by(self, task: &Task) -> u64
        requires { task.now.worst ≤ MAX_EXECUTION }
        ensures value { result ≡ blocking_by self task.now }
        ensures in_range { result ≤ MAX_EXECUTION }
    {
        match self {
            Kind::Preemptive | Kind::Ceiling => task.region.min(task.worst).saturating_sub(1),
            Kind::Can { bit: _ } => task.worst,
            Kind::RoundRobin | Kind::Tdma { gap: _ } | Kind::Fifo => 0,
        }
    }

    /// Whether jobs are served in the order in which they came.
    pub fn is_queue(self) -> bool
        ensures { result ≡ is_queue self }
    {
        match self {
            Kind::Fifo => true,
            Kind::Preemptive
            | Kind::RoundRobin
            | Kind::Tdma { gap: _ }
            | Kind::Can { bit: _ }
            | Kind::Ceiling => false,
        }
    }
}

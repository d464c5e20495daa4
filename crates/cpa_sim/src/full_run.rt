//! Whole runs. Times are in ticks.

ghost use Rattle.std.specs.Prelude.{◌≡◌, IfOk};
ghost use Rattle.cpa_sim.specs.Outcome.{CanReplay, IsOutcome, outcome_of};

use crate::outcome::Outcome;
use crate::simulator::Simulator;
use cpa_model::System;
use cpa_trace::Trace;
use cpa_units::NoMemory;
use std::alloc::Global;

/// The run of a system under a trace: the jobs and completions up to its end. The trace belongs to the
/// system, its times are at most 10,000,000, its executions lie from 1 to 10,000,000, the phases of TDMA
/// resources with tasks are at most 1,000,000,000, and it has at most 2,000,000 jobs.
pub fn replay(alloc: Global, system: &System, trace: &Trace) -> Result<Outcome, NoMemory>
    requires { CanReplay system.now trace.now }
    ensures run { IfOk result (λ o. o ≡ outcome_of system.now trace.now) }
    ensures seen { IfOk result (λ o. IsOutcome system.now o) }
{
    let mut run = Simulator::start(alloc, system, trace, true)?;
    'moments: while run.goes_on() {
        run.step(system, trace)?;
    }
    Ok(run.seen())
}

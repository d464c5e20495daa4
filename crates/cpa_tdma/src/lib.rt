//! The response-time bound of a task that has a slot of its own in a fixed cycle (TDMA).
//!
//! In each cycle that the jobs need, all but the task's own slot passes by besides their own
//! execution (Richter's thesis, 2005; Henia et al., "System Level Performance Analysis: the
//! SymTA/S Approach", 2005). All times are in ticks.
#![tactic(auto)]

ghost use Rattle.std.specs.Prelude.{◌≡◌, ◌≤◌};
ghost use Rattle.cpa_units.specs.declared.limits.TheConstants.{MAX_CYCLE};
ghost use Rattle.cpa_units.specs.Numbers.{IsExecution};
ghost use Rattle.cpa_events.specs.Events.{IsModelInRange};
ghost use Rattle.cpa_tdma.specs.Tdma.{tdma_work, tdma_bound};
ghost use Rattle.cpa_tdma.specs.TdmaWork.{tdma_work-more};
ghost use Rattle.cpa_tdma.specs.Laws.{TdmaBoundsGrow, TdmaBoundsAreInRange};
ghost use Rattle.std.proofs.Math.Nat.{le_refl};

use cpa_events::Model;
use cpa_units::Bound;
use cpa_units::limits::{MAX_CYCLE, MAX_LIMIT};
use cpa_window::{BusyWindow, busy_window_bound};

/// The jobs of a task, and the part of each cycle that isn't its own.
#[derive(Clone, Copy)]
struct TdmaJobs {
    worst: u64,
    slot: u64,
    cycle: u64,
    ghost execution: { IsExecution worst },
    ghost slot_in_range: { IsExecution slot },
    ghost own_slot: { slot ≤ cycle },
    ghost cycle_in_range: { cycle ≤ MAX_CYCLE },
}

impl BusyWindow for TdmaJobs {
    ghost demand = { λ b q w. tdma_work b.worst b.slot b.cycle q };

    ghost each = { λ b. b.worst };

    ghost monotone = { λ b q v w shorter. le_refl (tdma_work b.worst b.slot b.cycle q) };

    ghost more = { λ b q w. tdma_work-more b.worst b.slot b.cycle q };

    ghost some = { λ b. b.execution.some };

    fn at(&self, jobs: u64, _window: u64) -> u128 {
        let own = jobs * self.worst;
        let cycles = own.div_ceil(self.slot);
        u128::from(own) + u128::from(cycles) * u128::from(self.cycle - self.slot)
    }

    fn each_job(&self) -> u64 {
        self.worst
    }

    fn constant_until(&self, _jobs: u64, window: u64) -> u64 {
        window
    }
}

/// The bound of a task that takes `worst` ticks for a job and comes by `own`, where a window is at
/// most `limit`. The cycle has the slots of all tasks, and the gap.
pub fn respond(own: &Model, worst: u64, slot: u64, cycle: u64, limit: u64) -> Bound
    requires own { IsModelInRange own.now }
    requires worst { IsExecution worst }
    requires slot { IsExecution slot }
    requires own_slot { slot ≤ cycle }
    requires cycle { cycle ≤ MAX_CYCLE }
    requires limit { limit ≤ MAX_LIMIT }
    ensures { result ≡ tdma_bound own.now worst slot cycle limit }
{
    let jobs = TdmaJobs { worst, slot, cycle };
    busy_window_bound(&jobs, own, limit)
}

/// The bound grows with what it is computed from, and lies from the execution to the limit.
pub fn bounds_have_laws()
    ensures grow { TdmaBoundsGrow }
    ensures in_range { TdmaBoundsAreInRange }
{}

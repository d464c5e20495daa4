//! The response-time bound of a task under preemptive priority, where tasks may have regions in which
//! they aren't preempted.
//!
//! The jobs of a busy window are looked at one after another: the window of q jobs has room for
//! them, for what a region of lower priority that has begun may hold them up, and for all work of higher
//! priority in it. The greatest response is the bound (Richter's thesis, 2005; Henia et al., "System
//! Level Performance Analysis: the SymTA/S Approach", 2005; for the blocking Davis and Bertogna,
//! "Optimal Fixed Priority Scheduling with Deferred Pre-emption", 2012). All times are in ticks.
#![tactic(auto)]

ghost use Rattle.std.specs.Prelude.{◌≡◌, ℕ, ◌+◌, ◌*◌, ◌≤◌, ◌↔◌, IsTrue};
ghost use Rattle.cpa_units.specs.declared.limits.TheConstants.{MAX_EXECUTION};
ghost use Rattle.cpa_units.specs.Bounds.{IsAtMost};
ghost use Rattle.cpa_units.specs.Numbers.{IsExecution};
ghost use Rattle.cpa_events.specs.Events.{IsModelInRange};
ghost use Rattle.cpa_window.specs.Rivals.{AreRivals, bounded_work};
ghost use Rattle.cpa_spp.specs.Preemptive.{preemptive_bound};
ghost use Rattle.cpa_spp.specs.PreemptiveWork.{jobs_and_rivals-mono, jobs_and_rivals-more};
ghost use Rattle.cpa_spp.specs.Laws.{PreemptiveBoundsGrow, PreemptiveBoundsAreInRange, PreemptiveBoundsGoByWork};

use cpa_events::Model;
use cpa_units::Bound;
use cpa_units::limits::{MAX_EXECUTION, MAX_LIMIT};
use cpa_window::{
    BusyWindow, Rival, busy_window_bound, is_busy_window_within, some_unbounded, work_in,
    work_until,
};

/// The jobs of a task, a region of lower priority, and the work of higher priority, all of it bounded.
#[derive(Clone, Copy)]
struct PreemptiveJobs<'a> {
    worst: u64,
    blocking: u64,
    rivals: &'a [Rival],
    ghost execution: { IsExecution worst },
    ghost blocking_in_range: { blocking ≤ MAX_EXECUTION },
    ghost rivals_in_range: { AreRivals rivals.now },
}

impl<'a> BusyWindow for PreemptiveJobs<'a> {
    ghost demand = { λ b q w. b.blocking + q * b.worst + bounded_work b.rivals.now w };

    ghost each = { λ b. b.worst };

    ghost monotone = { λ b q v w shorter. jobs_and_rivals-mono b.worst b.blocking b.rivals.now q v w shorter };

    ghost more = { λ b q w. jobs_and_rivals-more b.worst b.blocking b.rivals.now q w };

    ghost some = { λ b. b.execution.some };

    #[inline(always)]
    fn at(&self, jobs: u64, window: u64) -> u128 {
        u128::from(self.blocking + jobs * self.worst) + work_in(self.rivals, window)
    }

    fn each_job(&self) -> u64 {
        self.worst
    }

    #[inline(always)]
    fn constant_until(&self, _jobs: u64, window: u64) -> u64 {
        work_until(self.rivals, window)
    }
}

/// The bound of a task that takes `worst` ticks for a job and comes by `own`, where a window is at
/// most `limit`. The rivals are the tasks of higher priority, and `blocking` is by how many ticks a task of
/// lower priority may hold it up once it has begun a region, at most 10,000,000.
pub fn respond(own: &Model, worst: u64, blocking: u64, rivals: &[Rival], limit: u64) -> Bound
    requires own { IsModelInRange own.now }
    requires worst { IsExecution worst }
    requires blocking { blocking ≤ MAX_EXECUTION }
    requires rivals { AreRivals rivals.now }
    requires limit { limit ≤ MAX_LIMIT }
    ensures { result ≡ preemptive_bound own.now worst blocking rivals.now limit }
{
    if some_unbounded(rivals) {
        return Bound::Overload;
    }
    let jobs = PreemptiveJobs {
        worst,
        blocking,
        rivals,
    };
    busy_window_bound(&jobs, own, limit)
}

/// Whether that bound is at most `most`: no further than to the first job that takes longer.
pub fn is_within(
    own: &Model,
    worst: u64,
    blocking: u64,
    rivals: &[Rival],
    limit: u64,
    most: u64,
) -> bool
    requires own { IsModelInRange own.now }
    requires worst { IsExecution worst }
    requires blocking { blocking ≤ MAX_EXECUTION }
    requires rivals { AreRivals rivals.now }
    requires limit { limit ≤ MAX_LIMIT }
    ensures { IsTrue result ↔ IsAtMost (preemptive_bound own.now worst blocking rivals.now limit) (Bound.Within most) }
{
    if some_unbounded(rivals) {
        return false;
    }
    let jobs = PreemptiveJobs {
        worst,
        blocking,
        rivals,
    };
    is_busy_window_within(&jobs, own, limit, most)
}

/// The bound grows with what it is computed from, lies from the execution to the limit, and depends
/// on the rivals by their work alone.
pub fn bounds_have_laws()
    ensures grow { PreemptiveBoundsGrow }
    ensures in_range { PreemptiveBoundsAreInRange }
    ensures by_work { PreemptiveBoundsGoByWork }
{}

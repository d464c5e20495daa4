//! The response-time bound of a frame on a CAN bus.
//!
//! A started frame goes on to its end, so one frame of lower priority may come before, and a later
//! frame of a busy period may take longest: each is looked at (Davis, Burns, Bril and Lukkien,
//! "Controller Area Network (CAN) schedulability analysis: Refuted, revisited and revised", 2007).
//! All times are in ticks.
#![tactic(auto)]

ghost use Rattle.std.specs.Prelude.{◌≡◌, ℕ, ◌+◌, ◌*◌, ◌≤◌, ◌↔◌, IsTrue, IfSome, IfNone, false};
ghost use Rattle.cpa_units.specs.declared.limits.TheConstants.{MAX_BIT, MAX_EXECUTION, MAX_LIMIT};
ghost use Rattle.cpa_units.specs.Bounds.{IsAtMost, greatest_of};
ghost use Rattle.cpa_units.specs.Numbers.{IsExecution};
ghost use Rattle.cpa_events.specs.Events.{IsModelInRange};
ghost use Rattle.cpa_window.specs.Rivals.{AreRivals, some_unbounded};
ghost use Rattle.cpa_window.specs.Windows.{IsWindow};
ghost use Rattle.cpa_can.specs.Can.{can_bound, can_response};
ghost use Rattle.cpa_can.specs.CanWork.{busy_work, busy_work-mono, start_work, start_work-mono, start_work-more, IsCrowdedBelow};
ghost use Rattle.cpa_can.specs.Laws.{CanBoundsGrow, CanBoundsAreInRange, CanBoundsGoByWork};

use cpa_events::Model;
use cpa_units::Bound;
use cpa_units::limits::{MAX_BIT, MAX_EXECUTION, MAX_LIMIT};
use cpa_window::{
    BusyWindow, Demand, Rival, events_work, least_window, look_ahead, next_window, some_unbounded,
    work_in, work_until,
};

/// What keeps the bus busy: one frame of lower priority, and all of the task's own and of higher priority.
#[derive(Clone, Copy)]
struct BusyBus<'a> {
    own: &'a Model,
    worst: u64,
    blocking: u64,
    rivals: &'a [Rival],
    ghost own_in_range: { IsModelInRange own.now },
    ghost execution: { IsExecution worst },
    ghost blocking_in_range: { blocking ≤ MAX_EXECUTION },
    ghost rivals_in_range: { AreRivals rivals.now },
}

impl<'a> Demand for BusyBus<'a> {
    ghost demand = { λ b. busy_work b.own.now b.worst b.blocking b.rivals.now };

    ghost monotone = { λ b v w shorter in_range. busy_work-mono b.own.now b.worst b.blocking b.rivals.now v w shorter };

    fn at(&self, window: u64) -> u128 {
        let own = events_work(self.own, window, self.worst);
        u128::from(self.blocking + own) + work_in(self.rivals, window)
    }
}

/// What comes before the start of a frame: a frame of lower priority, the task's own earlier frames, and all of higher
/// priority up to a bit time after the start.
#[derive(Clone, Copy)]
struct FrameStarts<'a> {
    worst: u64,
    blocking: u64,
    bit: u64,
    rivals: &'a [Rival],
    ghost execution: { IsExecution worst },
    ghost blocking_in_range: { blocking ≤ MAX_EXECUTION },
    ghost bit_in_range: { bit ≤ MAX_BIT },
    ghost rivals_in_range: { AreRivals rivals.now },
}

impl<'a> BusyWindow for FrameStarts<'a> {
    ghost demand = { λ f. start_work f.worst f.blocking f.bit f.rivals.now };

    ghost each = { λ f. f.worst };

    ghost monotone = { λ f q v w shorter. start_work-mono f.worst f.blocking f.bit f.rivals.now q v w shorter };

    ghost more = { λ f q w. start_work-more f.worst f.blocking f.bit f.rivals.now q w };

    ghost some = { λ f. f.execution.some };

    fn at(&self, jobs: u64, window: u64) -> u128 {
        u128::from(self.blocking + jobs * self.worst) + work_in(self.rivals, window + self.bit)
    }

    fn each_job(&self) -> u64 {
        self.worst
    }

    #[inline(always)]
    fn constant_until(&self, _jobs: u64, window: u64) -> u64 {
        work_until(self.rivals, window + self.bit).saturating_sub(self.bit)
    }
}

/// The bound of a task whose frames take `worst` ticks and come by `own`, where a busy window and the end of each frame
/// in it are at most `limit`. The rivals are the tasks of higher priority, `blocking` is the longest frame of lower
/// priority, and `bit` the time of a bit.
pub fn respond(
    own: &Model,
    worst: u64,
    blocking: u64,
    rivals: &[Rival],
    bit: u64,
    limit: u64,
) -> Bound
    requires own { IsModelInRange own.now }
    requires worst { IsExecution worst }
    requires blocking { blocking ≤ MAX_EXECUTION }
    requires rivals { AreRivals rivals.now }
    requires bit { bit ≤ MAX_BIT }
    requires limit { limit ≤ MAX_LIMIT }
    ensures { result ≡ can_bound own.now worst blocking rivals.now bit limit }
{
    if some_unbounded(rivals) {
        return Bound::Overload;
    }
    let starts = FrameStarts {
        worst,
        blocking,
        bit,
        rivals,
    };
    let Some(first) = next_window(&starts, 0, 0, 0, limit) else {
        return Bound::Overload;
    };
    bounded_response(own, &starts, first.end, limit)
}

/// The busy window. The bus isn't idle before the first frame is through, where that takes as long as a bit, so no shorter
/// window is looked at then.
fn busy_window(own: &Model, starts: &FrameStarts, first: u64, limit: u64) -> Option<u64>
    requires own { IsModelInRange own.now }
    requires first { IsCrowdedBelow (start_work starts.now.worst starts.now.blocking starts.now.bit starts.now.rivals.now 0) first }
    requires small { first ≤ MAX_LIMIT }
    requires limit { limit ≤ MAX_LIMIT }
    ensures found { IfSome result (λ w. IsWindow (λ v. Bound.Within (busy_work own.now starts.now.worst starts.now.blocking starts.now.rivals.now v)) 1 limit (Bound.Within w)) }
    ensures none { IfNone result (IsWindow (λ v. Bound.Within (busy_work own.now starts.now.worst starts.now.blocking starts.now.rivals.now v)) 1 limit Bound.Overload) }
{
    let bus = BusyBus {
        own,
        worst: starts.worst,
        blocking: starts.blocking,
        rivals: starts.rivals,
    };
    if starts.bit <= starts.worst {
        least_window(&bus, first + starts.worst, limit)
    } else {
        least_window(&bus, 1, limit)
    }
}

/// The bound where all rivals are bounded. No window below `first` has room for what comes before the first frame.
fn bounded_response(own: &Model, starts: &FrameStarts, first: u64, limit: u64) -> Bound
    requires own { IsModelInRange own.now }
    requires bounded { some_unbounded starts.now.rivals.now ≡ false }
    requires first { IsCrowdedBelow (start_work starts.now.worst starts.now.blocking starts.now.bit starts.now.rivals.now 0) first }
    requires small { first ≤ MAX_LIMIT }
    requires limit { limit ≤ MAX_LIMIT }
    ensures { result ≡ can_bound own.now starts.now.worst starts.now.blocking starts.now.rivals.now starts.now.bit limit }
{
    match busy_window(own, starts, first, limit) {
        Some(busy) => greatest_response(own, starts, first, own.eta_plus(busy), limit),
        None => Bound::Overload,
    }
}

/// Whether that bound is at most `most`. Where the first frame starts past that, it alone is looked at, however long the
/// bus is busy.
pub fn is_within(
    own: &Model,
    worst: u64,
    blocking: u64,
    rivals: &[Rival],
    bit: u64,
    limit: u64,
    most: u64,
) -> bool
    requires own { IsModelInRange own.now }
    requires worst { IsExecution worst }
    requires blocking { blocking ≤ MAX_EXECUTION }
    requires rivals { AreRivals rivals.now }
    requires bit { bit ≤ MAX_BIT }
    requires limit { limit ≤ MAX_LIMIT }
    ensures { IsTrue result ↔ IsAtMost (can_bound own.now worst blocking rivals.now bit limit) (Bound.Within most) }
{
    if some_unbounded(rivals) {
        return false;
    }
    let starts = FrameStarts {
        worst,
        blocking,
        bit,
        rivals,
    };
    let Some(first) = next_window(&starts, 0, 0, 0, limit.min(most)) else {
        return false;
    };
    match bounded_response(own, &starts, first.end, limit) {
        Bound::Within(bound) => bound <= most,
        Bound::Overload => false,
    }
}

/// The greatest response of so many frames from the start of a busy window on. No window below `first` has room for what
/// comes before the first of them.
fn greatest_response(
    own: &Model,
    starts: &FrameStarts,
    first: u64,
    frames: u64,
    limit: u64,
) -> Bound
    requires own { IsModelInRange own.now }
    requires bounded { some_unbounded starts.now.rivals.now ≡ false }
    requires first { IsCrowdedBelow (start_work starts.now.worst starts.now.blocking starts.now.bit starts.now.rivals.now 0) first }
    requires frames { frames ≤ MAX_LIMIT }
    requires limit { limit ≤ MAX_LIMIT }
    ensures { result ≡ greatest_of (can_response own.now starts.now.worst starts.now.blocking starts.now.rivals.now starts.now.bit limit) frames }
{
    let mut from = first;
    let mut steady = 0;
    let mut greatest: u64 = 0;
    for earlier in 0..frames {
        let Some(start) = next_window(starts, earlier, from, steady, limit) else {
            return Bound::Overload;
        };
        let end = start.end + starts.worst;
        if end > limit {
            return Bound::Overload;
        }
        greatest = greatest.max(end.saturating_sub(own.delta_minus(earlier + 1)));
        from = end;
        steady = if earlier + 1 < frames {
            look_ahead(starts, earlier, start)
        } else {
            start.steady
        };
    }
    Bound::Within(greatest)
}

/// The bound grows with what it is computed from, lies from the execution to the limit, and depends
/// on the rivals by their work alone.
pub fn bounds_have_laws()
    ensures grow { CanBoundsGrow }
    ensures in_range { CanBoundsAreInRange }
    ensures by_work { CanBoundsGoByWork }
{}

//! Busy windows whose first job may come late.

ghost use Rattle.std.specs.Prelude.{◌≡◌, ℕ, ◌+◌, ◌*◌, ◌^◌, ◌<◌, ◌≤◌, IsTrue, IfSome, IfNone};
ghost use Rattle.cpa_units.specs.declared.bound.Bound.{Bound};
ghost use Rattle.cpa_units.specs.declared.limits.TheConstants.{MAX_BIT, MAX_EXECUTION, MAX_LIMIT};
ghost use Rattle.cpa_units.specs.Numbers.{IsExecution};
ghost use Rattle.cpa_window.specs.Rivals.{AreRivals};
ghost use Rattle.cpa_window.specs.Windows.{IsWindow};
ghost use Rattle.cpa_window.specs.BusyWindow.{busy_window_bound, windows_of};
ghost use Rattle.cpa_phase.specs.Phases.{earliest_arrival};
ghost use Rattle.cpa_phase.specs.Streams.{IsPhased, ArePhased};
ghost use Rattle.cpa_phase.specs.Clocks.{AreClocks};
ghost use Rattle.cpa_phase.specs.Known.{AreKnown};
ghost use Rattle.cpa_offset.specs.Jobs.{others_work, jobs_work, jobs_work-mono, jobs_work-more};
ghost use Rattle.cpa_offset.specs.Offsets.{window_bound};

use cpa_phase::{Clock, KnownWork, Phased, clocks_work, phased_work};
use cpa_units::Bound;
use cpa_units::limits::{MAX_BIT, MAX_EXECUTION, MAX_LIMIT};
use cpa_window::{BusyWindow, Rival, work_in};

/// What others ask for in a window: the streams of the task's own clock as the window sees them, those of other
/// clocks as they ask for most, and the tasks without a clock, all of it bounded.
#[inline(always)]
fn others_work(phased: &[Phased], clocks: &[Clock], free: &[Rival], window: u64) -> u128
    requires phased { ArePhased phased.now }
    requires clocks { AreClocks clocks.now }
    requires free { AreRivals free.now }
    requires window { window ≤ MAX_LIMIT + MAX_BIT }
    ensures value { result ≡ others_work phased.now clocks.now free.now window }
    ensures small { result ≤ 2 ^ 89 }
{
    phased_work(phased, window) + (clocks_work(clocks, window) + work_in(free, window))
}

/// The jobs of a task, and all that others ask for from the start of the window on, all of it bounded.
#[derive(Clone, Copy)]
pub(crate) struct Jobs<'a> {
    pub(crate) worst: u64,
    pub(crate) blocking: u64,
    pub(crate) phased: &'a [Phased],
    pub(crate) clocks: &'a [Clock],
    pub(crate) free: &'a [Rival],
    ghost execution: { IsExecution worst },
    ghost blocking_in_range: { blocking ≤ MAX_EXECUTION },
    ghost phased_in_range: { ArePhased phased.now },
    ghost clocks_in_range: { AreClocks clocks.now },
    ghost free_in_range: { AreRivals free.now },
}

impl<'a> BusyWindow for Jobs<'a> {
    ghost demand = { λ b q w. jobs_work b.worst b.blocking b.phased.now b.clocks.now b.free.now q w };

    ghost each = { λ b. b.worst };

    ghost monotone = { λ b q v w shorter. jobs_work-mono b.worst b.blocking b.phased.now b.clocks.now b.free.now q v w shorter };

    ghost more = { λ b q w. jobs_work-more b.worst b.blocking b.phased.now b.clocks.now b.free.now q w };

    ghost some = { λ b. b.execution.some };

    #[inline(always)]
    fn at(&self, jobs: u64, window: u64) -> u128 {
        let own = u128::from(self.blocking + jobs * self.worst);
        own + others_work(self.phased, self.clocks, self.free, window)
    }

    fn each_job(&self) -> u64 {
        self.worst
    }

    #[inline(always)]
    fn constant_until(&self, _jobs: u64, window: u64) -> u64 {
        window
    }
}

/// What so many jobs and all others ask for in a window. What other clocks ask for is looked for among what is known.
#[inline(always)]
fn asked(jobs: &Jobs, known: &mut KnownWork, count: u64, window: u64) -> u128
    requires count { count ≤ MAX_LIMIT }
    requires window { window ≤ MAX_LIMIT }
    requires known { AreKnown jobs.now.clocks.now known.old }
    ensures value { result ≡ jobs_work jobs.now.worst jobs.now.blocking jobs.now.phased.now jobs.now.clocks.now jobs.now.free.now count window }
    ensures known { AreKnown jobs.now.clocks.now known.new }
{
    let own = u128::from(jobs.blocking + count * jobs.worst);
    let elsewhere = known.work_in(jobs.clocks, window) + work_in(jobs.free, window);
    own + (phased_work(jobs.phased, window) + elsewhere)
}

/// The least window from `from` to `limit` that has room for so many jobs and all others; none where there is none.
pub(crate) fn window_of(
    jobs: &Jobs,
    known: &mut KnownWork,
    count: u64,
    from: u64,
    limit: u64,
) -> Option<u64>
    requires count { count ≤ MAX_LIMIT }
    requires limit { limit ≤ MAX_LIMIT }
    requires known { AreKnown jobs.now.clocks.now known.old }
    ensures found { IfSome result (λ end. IsWindow (λ w. Bound.Within (jobs_work jobs.now.worst jobs.now.blocking jobs.now.phased.now jobs.now.clocks.now jobs.now.free.now count w)) from limit (Bound.Within end)) }
    ensures none { IfNone result (IsWindow (λ w. Bound.Within (jobs_work jobs.now.worst jobs.now.blocking jobs.now.phased.now jobs.now.clocks.now jobs.now.free.now count w)) from limit Bound.Overload) }
    ensures known { AreKnown jobs.now.clocks.now known.new }
{
    let mut window = from;
    while window <= limit {
        let need = asked(jobs, known, count, window);
        if need <= u128::from(window) {
            return Some(window);
        }
        if need > u128::from(limit) {
            return None;
        }
        window = need as u64;
    }
    None
}

/// The greatest response of the jobs of a busy window. No window below `from` has room for the first, which
/// comes by then.
fn walk(jobs: &Jobs, known: &mut KnownWork, own: &Phased, from: u64, limit: u64) -> Bound
    requires own { IsPhased own.now }
    requires limit { limit ≤ MAX_LIMIT }
    requires crowded { (v : ℕ) → v < from → v < jobs_work jobs.now.worst jobs.now.blocking jobs.now.phased.now jobs.now.clocks.now jobs.now.free.now 1 v }
    requires pending { earliest_arrival own.now.stream own.now.phase 1 ≤ from }
    requires known { AreKnown jobs.now.clocks.now known.old }
    ensures value { result ≡ busy_window_bound (windows_of (λ q w. Bound.Within (jobs_work jobs.now.worst jobs.now.blocking jobs.now.phased.now jobs.now.clocks.now jobs.now.free.now q w)) limit) (earliest_arrival own.now.stream own.now.phase) limit }
    ensures known { AreKnown jobs.now.clocks.now known.new }
{
    let mut from = from;
    let mut arrival = own.earliest_arrival(1);
    let mut greatest: u64 = 0;
    for count in 1..limit + 1 {
        let Some(end) = window_of(jobs, known, count, from, limit) else {
            return Bound::Overload;
        };
        let next = own.earliest_arrival(count + 1);
        greatest = greatest.max(end - arrival);
        if end <= next {
            return Bound::Within(greatest);
        }
        from = end + jobs.worst;
        arrival = next;
    }
    Bound::Overload
}

/// Whether others are seen at once to be done by then. They may be where they are not.
#[inline(always)]
fn are_done_by(jobs: &Jobs, known: &mut KnownWork, moment: u64, limit: u64) -> bool
    requires limit { limit ≤ MAX_LIMIT }
    requires known { AreKnown jobs.now.clocks.now known.old }
    ensures done { IsTrue result → (moment ≤ limit) × (jobs_work jobs.now.worst jobs.now.blocking jobs.now.phased.now jobs.now.clocks.now jobs.now.free.now 0 moment ≤ moment) }
    ensures known { AreKnown jobs.now.clocks.now known.new }
{
    moment <= limit && asked(jobs, known, 0, moment) <= u128::from(moment)
}

/// The same, and none where the resource is done with all else before the first job can come.
pub(crate) fn window_bound(jobs: &Jobs, known: &mut KnownWork, own: &Phased, limit: u64) -> Bound
    requires own { IsPhased own.now }
    requires limit { limit ≤ MAX_LIMIT }
    requires known { AreKnown jobs.now.clocks.now known.old }
    ensures value { result ≡ window_bound (λ q w. Bound.Within (jobs_work jobs.now.worst jobs.now.blocking jobs.now.phased.now jobs.now.clocks.now jobs.now.free.now q w)) (earliest_arrival own.now.stream own.now.phase) limit }
    ensures known { AreKnown jobs.now.clocks.now known.new }
{
    let first = own.earliest_arrival(1);
    if first == 0 {
        return walk(jobs, known, own, jobs.worst, limit);
    }
    if are_done_by(jobs, known, first, limit) {
        return Bound::Within(0);
    }
    match window_of(jobs, known, 0, 1, limit) {
        Some(end) => {
            if end <= first {
                Bound::Within(0)
            } else {
                walk(jobs, known, own, end, limit)
            }
        }
        None => Bound::Overload,
    }
}

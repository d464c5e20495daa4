//! The walk through the jobs of a busy window, which the kinds of resource share.
//!
//! The window of each job is looked for from where the one before ended, and a job longer, since no
//! shorter one has room. Where the rivals send nothing new until then, it is that length, and no
//! rival is looked at.

ghost use Rattle.std.specs.Prelude.{◌≡◌, ℕ, ◌+◌, ◌<◌, ◌≤◌, ◌↔◌, IsTrue, IfSome, IfNone};
ghost use Rattle.cpa_units.specs.declared.bound.Bound.{Bound};
ghost use Rattle.cpa_units.specs.Bounds.{IsAtMost};
ghost use Rattle.cpa_units.specs.declared.limits.TheConstants.{MAX_EXECUTION, MAX_LIMIT};
ghost use Rattle.cpa_events.specs.Events.{delta_minus, IsModelInRange};
ghost use Rattle.cpa_window.specs.Windows.{IsWindow};
ghost use Rattle.cpa_window.specs.BusyWindow.{busy_window_bound, windows_of};
ghost use Rattle.cpa_window.specs.Walk.{IsSteady, IsReady};
ghost use Rattle.cpa_window.specs.Laws.{LastJobExists, BusyWindowsGrow, WalksGoOn};

use crate::windows::{Demand, least_window};
use cpa_events::Model;
use cpa_units::Bound;
use cpa_units::limits::{MAX_EXECUTION, MAX_LIMIT};

/// The work that is asked for until so many jobs of a task are done, in ticks.
pub trait BusyWindow {
    /// How much it is: by the number of jobs, and then the length of the window.
    ghost demand: { Self → ℕ → ℕ → ℕ };

    /// What a job more asks for at least.
    ghost each: { Self → ℕ };

    fn at(&self, jobs: u64, window: u64) -> u128
        requires jobs { jobs ≤ MAX_LIMIT }
        requires window { window ≤ MAX_LIMIT }
        ensures { result ≡ demand self.now jobs window };

    fn each_job(&self) -> u64
        ensures value { result ≡ each self.now }
        ensures small { result ≤ MAX_EXECUTION };

    /// Up to which length a window after this one asks for no more than its further jobs do.
    /// `window` itself promises nothing. Less is right too, and only slower: no clause says how far
    /// it looks ahead.
    fn constant_until(&self, jobs: u64, window: u64) -> u64
        requires jobs { jobs ≤ MAX_LIMIT }
        requires window { window ≤ MAX_LIMIT }
        ensures { IsSteady (demand self.now) (each self.now) jobs window result };

    /// A longer window asks for no less.
    ghost monotone: { (b : Self) (q v w : ℕ) → v ≤ w → demand b q v ≤ demand b q w };

    /// A job more asks for that much more at least.
    ghost more: { (b : Self) (q w : ℕ) → demand b q w + each b ≤ demand b (q + 1) w };

    /// Each job asks for a tick at least.
    ghost some: { (b : Self) → 0 < each b };
}

/// The demand of a certain number of jobs.
#[derive(Drop)]
struct OfJobs<'a, B> {
    busy: &'a B,
    jobs: u64,
    ghost in_range: { jobs ≤ MAX_LIMIT },
}

impl<'a, B: BusyWindow> Demand for OfJobs<'a, B> {
    ghost demand = { λ d. B.demand d.busy.now d.jobs };

    ghost monotone = { λ d v w h le. B.monotone d.busy.now d.jobs v w h };

    #[inline(always)]
    fn at(&self, window: u64) -> u128 {
        self.busy.at(self.jobs, window)
    }
}

/// Where the window of some jobs ends, and up to which length those of further jobs are known.
#[derive(Clone, Copy, Debug)]
pub struct Reached {
    pub end: u64,
    pub steady: u64,
}

/// The window of some jobs from 0 to `limit`. No length below `from` has room for them, and `from`
/// has where it is below `steady`. Where that isn't so, no rival is asked how far it looks ahead:
/// `look_ahead` does that for who goes on.
#[inline(always)]
pub fn next_window<B: BusyWindow>(
    busy: &B,
    jobs: u64,
    from: u64,
    steady: u64,
    limit: u64,
) -> Option<Reached>
    requires jobs { jobs ≤ MAX_LIMIT }
    requires limit { limit ≤ MAX_LIMIT }
    requires ready { IsReady (B.demand busy.now) (B.each busy.now) jobs from steady }
    ensures found { IfSome result (λ r. IsWindow (λ w. Bound.Within (B.demand busy.now jobs w)) 0 limit (Bound.Within r.end)) }
    ensures steady { IfSome result (λ r. IsSteady (B.demand busy.now) (B.each busy.now) jobs r.end r.steady) }
    ensures none { IfNone result (IsWindow (λ w. Bound.Within (B.demand busy.now jobs w)) 0 limit Bound.Overload) }
{
    if from < steady && from <= limit {
        return Some(Reached { end: from, steady });
    }
    match least_window(&OfJobs { busy, jobs }, from, limit) {
        Some(end) => Some(Reached { end, steady: end }),
        None => None,
    }
}

/// Up to which length the windows of further jobs are known after that of these jobs.
#[inline(always)]
pub fn look_ahead<B: BusyWindow>(busy: &B, jobs: u64, reached: Reached) -> u64
    requires jobs { jobs ≤ MAX_LIMIT }
    requires end { reached.end ≤ MAX_LIMIT }
    requires steady { IsSteady (B.demand busy.now) (B.each busy.now) jobs reached.end reached.steady }
    ensures { IsSteady (B.demand busy.now) (B.each busy.now) jobs reached.end result }
{
    if reached.end < reached.steady {
        reached.steady
    } else {
        busy.constant_until(jobs, reached.end)
    }
}

/// The greatest response of the jobs of a busy window, which ends before the next job can come.
pub fn busy_window_bound<B: BusyWindow>(busy: &B, own: &Model, limit: u64) -> Bound
    requires own { IsModelInRange own.now }
    requires limit { limit ≤ MAX_LIMIT }
    ensures { result ≡ busy_window_bound (windows_of (λ q w. Bound.Within (B.demand busy.now q w)) limit) (delta_minus own.now) limit }
{
    let each = busy.each_job();
    let mut from = each;
    let mut steady = 0;
    let mut arrival = 0;
    let mut greatest: u64 = 0;
    for jobs in 1..limit + 1 {
        let Some(reached) = next_window(busy, jobs, from, steady, limit) else {
            return Bound::Overload;
        };
        let next = own.delta_minus(jobs + 1);
        greatest = greatest.max(reached.end - arrival);
        if reached.end <= next {
            return Bound::Within(greatest);
        }
        from = reached.end + each;
        steady = look_ahead(busy, jobs, reached);
        arrival = next;
    }
    Bound::Overload
}

/// Whether that greatest response is at most `most`. The walk ends at the first job whose response is more, however long
/// its window is.
pub fn is_busy_window_within<B: BusyWindow>(busy: &B, own: &Model, limit: u64, most: u64) -> bool
    requires own { IsModelInRange own.now }
    requires limit { limit ≤ MAX_LIMIT }
    ensures { IsTrue result ↔ IsAtMost (busy_window_bound (windows_of (λ q w. Bound.Within (B.demand busy.now q w)) limit) (delta_minus own.now) limit) (Bound.Within most) }
{
    let each = busy.each_job();
    let mut from = each;
    let mut steady = 0;
    let mut arrival: u64 = 0;
    let mut greatest: u64 = 0;
    for jobs in 1..limit + 1 {
        let latest = limit.min(arrival.saturating_add(most));
        let Some(reached) = next_window(busy, jobs, from, steady, latest) else {
            return false;
        };
        let next = own.delta_minus(jobs + 1);
        greatest = greatest.max(reached.end - arrival);
        if reached.end <= next {
            return true;
        }
        from = reached.end + each;
        steady = look_ahead(busy, jobs, reached);
        arrival = next;
    }
    false
}

/// A last job exists, the bound grows with the windows, and a walk may go on from where a window
/// ended.
pub fn busy_windows_have_laws()
    ensures last { LastJobExists }
    ensures grow { BusyWindowsGrow }
    ensures go_on { WalksGoOn }
{}

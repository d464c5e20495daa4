//! The response-time bound of a task that takes turns with the other tasks of its resource.
//!
//! Each task has a slot in every round. In the rounds that a task's jobs need, another task does no
//! more than its slots, and no more than the work that it can have (Richter's thesis, 2005; Henia
//! et al., "System Level Performance Analysis: the SymTA/S Approach", 2005). That the work of
//! another task counts from its bound before the window on is this project's own. All times are in
//! ticks.
#![tactic(auto)]

ghost use Rattle.std.specs.Prelude.{◌≡◌, ◌*◌, ◌^◌, ◌≤◌};
ghost use Rattle.cpa_units.specs.Numbers.{IsExecution};
ghost use Rattle.cpa_events.specs.Events.{IsModelInRange};
ghost use Rattle.cpa_window.specs.Rivals.{IsRival, AreRivals};
ghost use Rattle.cpa_rr.specs.RoundRobin.{round_robin_bound};
ghost use Rattle.cpa_rr.specs.RoundRobinWork.{share_of, shares_of, round_robin_work, IsSettled, round_robin_work-mono, round_robin_work-more};
ghost use Rattle.cpa_rr.specs.Laws.{RoundRobinBoundsGrow, RoundRobinBoundsAreInRange};

use cpa_events::Model;
use cpa_units::Bound;
use cpa_units::limits::{MAX_EXECUTION, MAX_LIMIT};
use cpa_window::{BusyWindow, Rival, busy_window_bound, events_until, events_work};

/// The jobs of a task, and what the others may do in the rounds that they take.
#[derive(Clone, Copy)]
struct RoundRobinJobs<'a> {
    worst: u64,
    slot: u64,
    rivals: &'a [Rival],
    ghost execution: { IsExecution worst },
    ghost slot_in_range: { IsExecution slot },
    ghost rivals_in_range: { AreRivals rivals.now },
}

impl<'a> BusyWindow for RoundRobinJobs<'a> {
    ghost demand = { λ b q w. round_robin_work b.worst b.slot b.rivals.now q w };

    ghost each = { λ b. b.worst };

    ghost monotone = { λ b q v w shorter. round_robin_work-mono b.worst b.slot b.rivals.now q v w shorter };

    ghost more = { λ b q w. round_robin_work-more b.worst b.slot b.rivals.now q w };

    ghost some = { λ b. b.execution.some };

    fn at(&self, jobs: u64, window: u64) -> u128 {
        let own = jobs * self.worst;
        let rounds = own.div_ceil(self.slot);
        let mut total = u128::from(own);
        for rival in self.rivals {
            total += share(rival, rounds, window);
        }
        total
    }

    fn each_job(&self) -> u64 {
        self.worst
    }

    fn constant_until(&self, jobs: u64, window: u64) -> u64 {
        let rounds = (jobs * self.worst).div_ceil(self.slot);
        shares_until(self.rivals, rounds, window)
    }
}

/// What a rival may do in so many rounds: its slots, but no more than the work that it can have,
/// where its input and its bound are known.
fn share(rival: &Rival, rounds: u64, window: u64) -> u128
    requires rival { IsRival rival.now }
    requires rounds { rounds ≤ MAX_LIMIT * MAX_EXECUTION }
    requires window { window ≤ MAX_LIMIT }
    ensures value { result ≡ share_of rival.now rounds window }
    ensures small { result ≤ 2 ^ 74 }
{
    let slots = u128::from(rounds) * u128::from(rival.slot);
    match (&rival.model, rival.bound) {
        (Some(model), Bound::Within(bound)) => {
            let work = events_work(model, window + bound, rival.worst);
            slots.min(u128::from(work))
        }
        _ => slots,
    }
}

/// Up to which length, in more rounds too, the rivals do no more than in this window. `window`
/// itself promises nothing. Less would be right too: how far it looks ahead is left open.
fn shares_until(rivals: &[Rival], rounds: u64, window: u64) -> u64
    requires rivals { AreRivals rivals.now }
    requires rounds { rounds ≤ MAX_LIMIT * MAX_EXECUTION }
    requires window { window ≤ MAX_LIMIT }
    ensures { IsSettled (shares_of rivals.now) rounds window result }
{
    let mut until = u64::MAX;
    for rival in rivals {
        until = until.min(share_until(rival, rounds, window));
        if until <= window {
            return window;
        }
    }
    until
}

/// The same for one rival: it does all its work in its slots until its next event can come.
fn share_until(rival: &Rival, rounds: u64, window: u64) -> u64
    requires rival { IsRival rival.now }
    requires rounds { rounds ≤ MAX_LIMIT * MAX_EXECUTION }
    requires window { window ≤ MAX_LIMIT }
    ensures { IsSettled (share_of rival.now) rounds window result }
{
    match (&rival.model, rival.bound) {
        (Some(model), Bound::Within(bound)) => {
            if share(rival, rounds, window) < u128::from(rounds) * u128::from(rival.slot) {
                events_until(model, window + bound).saturating_sub(bound)
            } else {
                window
            }
        }
        _ => window,
    }
}

/// The bound of a task that takes `worst` ticks for a job, has `slot` ticks in each round and comes
/// by `own`, where a window is at most `limit`. The rivals are all other tasks of the resource.
pub fn respond(own: &Model, worst: u64, slot: u64, rivals: &[Rival], limit: u64) -> Bound
    requires own { IsModelInRange own.now }
    requires worst { IsExecution worst }
    requires slot { IsExecution slot }
    requires rivals { AreRivals rivals.now }
    requires limit { limit ≤ MAX_LIMIT }
    ensures { result ≡ round_robin_bound own.now worst slot rivals.now limit }
{
    let jobs = RoundRobinJobs {
        worst,
        slot,
        rivals,
    };
    busy_window_bound(&jobs, own, limit)
}

/// The bound grows with what it is computed from, and lies from the execution to the limit.
pub fn bounds_have_laws()
    ensures grow { RoundRobinBoundsGrow }
    ensures in_range { RoundRobinBoundsAreInRange }
{}

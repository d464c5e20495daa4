//! The leads that the events of a source leave to its clock.

ghost use Rattle.std.specs.Prelude.{◌≡◌, ℕ, ◌+◌, ◌<◌, ◌≤◌, length, All, false, true, not, Some, IfSome, IfNone};
ghost use Rattle.std.specs.List.{list_all};
ghost use Rattle.cpa_units.specs.Search.{least_from};
ghost use Rattle.cpa_units.specs.declared.limits.TheConstants.{MAX_PERIOD};
ghost use Rattle.cpa_model.specs.Rules.{IsSource};
ghost use Rattle.cpa_model.specs.Clocks.{offset_on};
ghost use Rattle.cpa_trace.specs.Breaches.{first_below, fits_lead};
ghost use Rattle.cpa_trace.specs.Leads.{AreLeads, allows, allowed_by, leaves_with};

use cpa_model::Source;
use std::cmp::{max, min};

/// The leads that the events of a source leave to its clock, that is how long it may have run when the trace begins: those
/// with which `(rest + lead) % period` is at most the room.
#[derive(Clone, Copy, Debug, PartialEq, Eq)]
pub struct Leads {
    pub period: u64,
    pub rest: u64,
    pub room: u64,
}

impl Leads {
    /// How much longer a lead has to be to be one of these; 0 where it is one.
    fn wait(self, lead: u64) -> u64
        requires rules { AreLeads self }
        requires short { lead ≤ MAX_PERIOD }
        ensures one { allows (lead + result) self ≡ true }
        ensures first { (w : ℕ) → w < result → allows (lead + w) self ≡ false }
        ensures short { result ≤ MAX_PERIOD }
    {
        let past = (self.rest + lead) % self.period;
        if past <= self.room {
            0
        } else {
            self.period - past
        }
    }
}

/// How much longer a lead has to be, at the least, to be one of all of these; 0 where it is one.
fn wait_for_all(own: Leads, others: &[Leads], lead: u64) -> u64
    requires own { AreLeads own }
    requires others { All AreLeads others.now }
    requires short { lead ≤ MAX_PERIOD }
    ensures one { result ≡ 0 → allowed_by own others.now lead ≡ true }
    ensures first { (w : ℕ) → w < result → allowed_by own others.now (lead + w) ≡ false }
    ensures short { result ≤ MAX_PERIOD }
{
    let wait = own.wait(lead);
    if wait != 0 {
        return wait;
    }
    for k in 0..others.len() {
        let wait = others[k].wait(lead);
        if wait != 0 {
            return wait;
        }
    }
    0
}

/// The least lead below the cycle, from one on, that is one of all of these; the cycle where there is none.
pub fn least_lead(own: Leads, others: &[Leads], from: u64, cycle: u64) -> u64
    requires own { AreLeads own }
    requires others { All AreLeads others.now }
    requires begun { from ≤ cycle }
    requires short { cycle ≤ MAX_PERIOD }
    ensures within { result ≤ cycle }
    ensures one { result < cycle → allowed_by own others.now result ≡ true }
    ensures first { (lead : ℕ) → from ≤ lead → lead < result → allowed_by own others.now lead ≡ false }
{
    let mut lead = from;
    while lead < cycle {
        let wait = wait_for_all(own, others, lead);
        if wait == 0 {
            return lead;
        }
        lead += wait;
    }
    cycle
}

/// The leads that the first events of a source leave, so many; None where they leave none.
pub fn leads_of(source: &Source, offset: u64, times: &[u64], count: usize) -> Option<Leads>
    requires source { IsSource source.now }
    requires offset { offset ≡ offset_on source.now.on_clock }
    requires some { 0 < count }
    requires counted { count ≤ length times.now }
    ensures rules { IfSome result AreLeads }
    ensures these { IfSome result (λ a. (lead : ℕ) → allows lead a ≡ fits_lead source.now times.now lead count) }
    ensures none { IfNone result ((lead : ℕ) → fits_lead source.now times.now lead count ≡ false) }
{
    let period = u128::from(source.period);
    let mut begin = u128::from(times[0]);
    let mut end = u128::from(times[0]);
    for n in 1..count {
        let time = u128::from(times[n]);
        begin = min(begin + period, time);
        end = max(end + period, time);
    }
    let spread = end - begin;
    let jitter = u128::from(source.jitter);
    if jitter < spread {
        return None;
    }
    let rest = (begin + (period - u128::from(offset))) % period;
    Some(Leads {
        period: source.period,
        rest: rest as u64,
        room: (jitter - spread) as u64,
    })
}

/// Whether the first events of a source, so many, leave a lead below the cycle that is one of all others.
fn leaves_with(
    source: &Source,
    offset: u64,
    times: &[u64],
    others: &[Leads],
    cycle: u64,
    count: usize,
) -> bool
    requires source { IsSource source.now }
    requires offset { offset ≡ offset_on source.now.on_clock }
    requires others { All AreLeads others.now }
    requires short { cycle ≤ MAX_PERIOD }
    requires some { 0 < count }
    requires counted { count ≤ length times.now }
    ensures { result ≡ leaves_with source.now times.now others.now cycle count }
{
    match leads_of(source, offset, times, count) {
        Some(own) => least_lead(own, others, 0, cycle) < cycle,
        None => false,
    }
}

/// The first event of a source, by place, with which its events leave no lead that is one of all others, found by halving.
/// All of its events together leave none.
pub fn first_off(source: &Source, offset: u64, times: &[u64], others: &[Leads], cycle: u64) -> usize
    requires source { IsSource source.now }
    requires offset { offset ≡ offset_on source.now.on_clock }
    requires others { All AreLeads others.now }
    requires short { cycle ≤ MAX_PERIOD }
    requires some { 0 < length times.now }
    requires off { leaves_with source.now times.now others.now cycle (length times.now) ≡ false }
    ensures first { Some result ≡ first_below (λ n. not (leaves_with source.now times.now others.now cycle (n + 1))) (length times.now) }
    ensures there { result < length times.now }
{
    let mut low = 0;
    let mut high = times.len() - 1;
    while low < high {
        let middle = low + (high - low) / 2;
        if leaves_with(source, offset, times, others, cycle, middle + 1) {
            low = middle + 1;
        } else {
            high = middle;
        }
    }
    low
}

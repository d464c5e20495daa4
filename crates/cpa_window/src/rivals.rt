//! The other tasks of a resource, and the work that they bring.

ghost use Rattle.std.specs.Prelude.{◌≡◌, ◌+◌, ◌*◌, ◌^◌, ◌≤◌};
ghost use Rattle.cpa_events.specs.Events.{eta_plus, IsModelInRange};
ghost use Rattle.cpa_window.specs.Rivals.{IsRival, AreRivals, rival_work, bounded_work, some_unbounded, IsConstant};

use cpa_events::Model;
use cpa_units::Bound;
use cpa_units::limits::{MAX_BIT, MAX_EXECUTION, MAX_LIMIT};

/// Another task of the resource, as an analysis sees it. What the walks read first of a rival stands
/// first, before the streams behind the first one.
#[derive(Debug, Drop)]
pub struct Rival {
    /// Its greatest execution, in ticks.
    pub worst: u64,
    /// Its slot in ticks, 0 where slots don't count.
    pub slot: u64,
    /// The model of its input; none where that is unbounded.
    pub model: Option<Model>,
    /// Its bound so far; a number is at most a hundred million ticks.
    pub bound: Bound,
}

/// The work of a window's events, each of which takes so long, in ticks.
#[inline(always)]
pub fn events_work(model: &Model, window: u64, each: u64) -> u64
    requires model { IsModelInRange model.now }
    requires window { window ≤ 2 * MAX_LIMIT }
    requires each { each ≤ MAX_EXECUTION }
    ensures value { result ≡ eta_plus model.now window * each }
    ensures small { result ≤ 2 ^ 62 }
{
    model.eta_plus(window) * each
}

/// Up to which length windows have no more events than this one: when the next event can come.
#[inline(always)]
pub fn events_until(model: &Model, window: u64) -> u64
    requires model { IsModelInRange model.now }
    requires window { window ≤ 2 * MAX_LIMIT }
    ensures { IsConstant (eta_plus model.now) window result }
{
    model.constant_until(window)
}

/// Some rival's input is unbounded.
pub fn some_unbounded(rivals: &[Rival]) -> bool
    ensures { result ≡ some_unbounded rivals.now }
{
    rivals.iter().any(|rival| rival.model.is_none())
}

/// The work of rivals whose inputs are bounded, in a window, in ticks. Others count as nothing.
#[inline(always)]
pub fn work_in(rivals: &[Rival], window: u64) -> u128
    requires rivals { AreRivals rivals.now }
    requires window { window ≤ MAX_LIMIT + MAX_BIT }
    ensures value { result ≡ bounded_work rivals.now window }
    ensures small { result ≤ 2 ^ 75 }
{
    let mut total = 0;
    for rival in rivals {
        total += u128::from(rival_work(rival, window));
    }
    total
}

/// Up to which length windows have no more work of such rivals than this window has. Less would be
/// right too: how far it looks ahead is left open.
#[inline(always)]
pub fn work_until(rivals: &[Rival], window: u64) -> u64
    requires rivals { AreRivals rivals.now }
    requires window { window ≤ MAX_LIMIT + MAX_BIT }
    ensures { IsConstant (bounded_work rivals.now) window result }
{
    let mut until = u64::MAX;
    for rival in rivals {
        until = until.min(rival_until(rival, window));
    }
    until
}

/// The work of one rival in a window.
#[inline(always)]
fn rival_work(rival: &Rival, window: u64) -> u64
    requires rival { IsRival rival.now }
    requires window { window ≤ MAX_LIMIT + MAX_BIT }
    ensures value { result ≡ rival_work window rival.now }
    ensures small { result ≤ 2 ^ 62 }
{
    match &rival.model {
        Some(model) => events_work(model, window, rival.worst),
        None => 0,
    }
}

/// Up to which length windows have no more work of one rival.
#[inline(always)]
fn rival_until(rival: &Rival, window: u64) -> u64
    requires rival { IsRival rival.now }
    requires window { window ≤ MAX_LIMIT + MAX_BIT }
    ensures { IsConstant (λ w. rival_work w rival.now) window result }
{
    match &rival.model {
        Some(model) => events_until(model, window),
        None => u64::MAX,
    }
}

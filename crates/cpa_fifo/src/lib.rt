//! The response-time bound of a task on a resource that serves jobs in the order in which they came,
//! as the queues of gateways, links and Ethernet ports do.
//!
//! From the last moment at which nothing was left, all that came up to a job's arrival is served before
//! the job is done, and nothing that came later: so the bound counts the work of all tasks of the
//! resource up to each tick of a busy window. All times are in ticks.
#![tactic(auto)]

ghost use Rattle.std.specs.Prelude.{◌≡◌, ◌≤◌, ◌<◌, false};
ghost use Rattle.cpa_units.specs.declared.bound.Bound.{Bound};
ghost use Rattle.cpa_units.specs.declared.limits.TheConstants.{MAX_LIMIT};
ghost use Rattle.cpa_units.specs.Bounds.{greatest_of};
ghost use Rattle.cpa_units.specs.Numbers.{IsExecution};
ghost use Rattle.cpa_events.specs.Events.{eta_plus, IsModelInRange};
ghost use Rattle.cpa_window.specs.Rivals.{IsRival, AreRivals, rival_work, bounded_work, some_unbounded};
ghost use Rattle.cpa_fifo.specs.Fifo.{fifo_response, fifo_bound};
ghost use Rattle.cpa_fifo.specs.FifoWork.{queue_work, queue_work-mono, IsConstantFrom};
ghost use Rattle.cpa_fifo.specs.Laws.{FifoBoundsGrow, FifoBoundsAreInRange, FifoBoundsAreInTheWindow, FifoBoundsGoByWork};

use cpa_events::Model;
use cpa_units::Bound;
use cpa_units::limits::MAX_LIMIT;
use cpa_window::{Demand, Rival, events_work, least_window, some_unbounded, work_in};

/// What all tasks of the resource bring.
#[derive(Clone, Copy)]
struct Queue<'a> {
    own: &'a Model,
    worst: u64,
    rivals: &'a [Rival],
    ghost own_in_range: { IsModelInRange own.now },
    ghost execution: { IsExecution worst },
    ghost rivals_in_range: { AreRivals rivals.now },
}

impl<'a> Demand for Queue<'a> {
    ghost demand = { λ q. queue_work q.own.now q.worst q.rivals.now };

    ghost monotone = { λ q v w shorter in_range. queue_work-mono q.own.now q.worst q.rivals.now v w shorter };

    fn at(&self, window: u64) -> u128 {
        let own = events_work(self.own, window, self.worst);
        u128::from(own) + work_in(self.rivals, window)
    }
}

impl<'a> Queue<'a> {
    /// From which length on windows have the work of this one. More would be right too, and only
    /// slower: how far it looks back is left open.
    fn constant_from(&self, window: u64) -> u64
        requires some { 0 < window }
        requires window { window ≤ MAX_LIMIT }
        ensures { IsConstantFrom (queue_work self.now.own.now self.now.worst self.now.rivals.now) window result }
    {
        work_from(self.rivals, window).max(events_from(self.own, window))
    }
}

/// From which length on windows have as many events as this one: when the last of them can come.
fn events_from(model: &Model, window: u64) -> u64
    requires model { IsModelInRange model.now }
    requires some { 0 < window }
    requires window { window ≤ MAX_LIMIT }
    ensures { IsConstantFrom (eta_plus model.now) window result }
{
    let events = model.eta_plus(window);
    if events > MAX_LIMIT {
        return window;
    }
    model.delta_minus(events) + 1
}

/// From which length on windows have as much work of rivals as this one.
fn work_from(rivals: &[Rival], window: u64) -> u64
    requires rivals { AreRivals rivals.now }
    requires some { 0 < window }
    requires window { window ≤ MAX_LIMIT }
    ensures { IsConstantFrom (bounded_work rivals.now) window result }
{
    let mut from = 1;
    for rival in rivals {
        from = from.max(rival_from(rival, window));
    }
    from
}

/// From which length on windows have as much work of one rival as this one.
fn rival_from(rival: &Rival, window: u64) -> u64
    requires rival { IsRival rival.now }
    requires some { 0 < window }
    requires window { window ≤ MAX_LIMIT }
    ensures { IsConstantFrom (λ w. rival_work w rival.now) window result }
{
    match &rival.model {
        Some(model) => events_from(model, window),
        None => 1,
    }
}

/// The bound of a task that takes `worst` ticks for a job and comes by `own`, where a busy window is at
/// most `limit`. The rivals are all other tasks of the resource.
pub fn respond(own: &Model, worst: u64, rivals: &[Rival], limit: u64) -> Bound
    requires own { IsModelInRange own.now }
    requires worst { IsExecution worst }
    requires rivals { AreRivals rivals.now }
    requires limit { limit ≤ MAX_LIMIT }
    ensures { result ≡ fifo_bound own.now worst rivals.now limit }
{
    if some_unbounded(rivals) {
        return Bound::Overload;
    }
    let queue = Queue { own, worst, rivals };
    match least_window(&queue, 1, limit) {
        Some(busy) => Bound::Within(greatest_response(&queue, busy)),
        None => Bound::Overload,
    }
}

/// The greatest response in a busy window.
///
/// It goes back from the end of the window. No job that comes before the end of a shorter window waits
/// for more than that window's work, so all ticks in which a job's response can't be greater than the
/// greatest so far are passed over at once. Where it is greater, it is greatest in the first tick up to
/// which as much has come.
fn greatest_response(queue: &Queue, busy: u64) -> u64
    requires bounded { some_unbounded queue.now.rivals.now ≡ false }
    requires some { 0 < busy }
    requires busy { busy ≤ MAX_LIMIT }
    requires room { queue_work queue.now.own.now queue.now.worst queue.now.rivals.now busy ≤ busy }
    ensures { greatest_of (fifo_response queue.now.own.now queue.now.worst queue.now.rivals.now) busy ≡ Bound.Within result }
{
    let mut greatest = queue.at(1) as u64;
    let mut window = busy;
    while window > 0 {
        let work = queue.at(window) as u64;
        if work >= greatest + window {
            let from = queue.constant_from(window);
            greatest = work - (from - 1);
            window = from - 1;
        } else {
            window = work.saturating_sub(greatest);
        }
    }
    greatest
}

/// The bound grows with what it is computed from, lies from the execution to the limit, is within the
/// busy window, and depends on the tasks of the resource by their work alone.
pub fn bounds_have_laws()
    ensures grow { FifoBoundsGrow }
    ensures in_range { FifoBoundsAreInRange }
    ensures in_window { FifoBoundsAreInTheWindow }
    ensures by_work { FifoBoundsGoByWork }
{}

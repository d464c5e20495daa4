//! The first event that doesn't come by the clock of its source.

ghost use Rattle.std.specs.Prelude.{◌≡◌, ℕ, ◌+◌, ◌<◌, ◌≤◌, length, All, false, not, option_map, Some, None, IfSome, IfNone, IfOk, IsOk};
ghost use Rattle.cpa_units.specs.declared.limits.TheConstants.{MAX_PERIOD};
ghost use Rattle.cpa_model.specs.Rules.{IsSystem};
ghost use Rattle.cpa_model.specs.Clocks.{clock_of, clock_cycle, offset_of, has_clocks};
ghost use Rattle.cpa_model.specs.SystemLists.{source_at};
ghost use Rattle.cpa_trace.specs.Trace.{times_of, time_of, FitsSystem};
ghost use Rattle.cpa_trace.specs.Breaches.{clock_breach, first_below, first_some};
ghost use Rattle.cpa_trace.specs.Leads.{AreLeads, leaves_with};
ghost use Rattle.cpa_trace.specs.Offs.{HasNoneOff, IsFirstOff, HasEvents};

use crate::breach::Breach;
use crate::leads::{Leads, first_off, leads_of, least_lead};
use crate::trace::Trace;
use cpa_model::System;
use cpa_units::{NoMemory, SourceId};
use std::alloc::Global;

/// An event that doesn't come by its clock: its source's place, and its time.
#[derive(Clone, Copy, Debug, PartialEq, Eq)]
pub(crate) struct Off {
    source: u32,
    time: u64,
}

/// The cycle of the clock that a source is the first on.
fn cycle_of(system: &System, clock: SourceId) -> Option<u64>
    requires { clock.0 < length system.now.sources }
    ensures some { IfSome result (λ cycle. cycle ≡ clock_cycle system.now clock.0) }
    ensures none { IfNone result (clock_of system.now clock.0 ≡ Some clock.0 → ⊥) }
{
    let ticking = system.ticking(clock)?;
    if ticking.clock.0 == clock.0 {
        Some(ticking.cycle)
    } else {
        None
    }
}

/// The offset of a source that is on a clock and has events.
fn offset_on(system: &System, trace: &Trace, clock: SourceId, source: SourceId) -> Option<u64>
    requires there { source.0 < length system.now.sources }
    requires fits { FitsSystem system.now trace.now }
    ensures some { IfSome result (λ offset. offset ≡ offset_of system.now source.0) }
    ensures on { IfSome result (λ offset. HasEvents system.now trace.now clock.0 source.0) }
    ensures none { IfNone result (HasEvents system.now trace.now clock.0 source.0 → ⊥) }
{
    let ticking = system.ticking(source)?;
    if ticking.clock.0 == clock.0 && trace.events(source) != 0 {
        Some(ticking.offset)
    } else {
        None
    }
}

/// The first event of a source that doesn't come by its clock, where its events leave none of the leads of the others.
fn off_at(
    system: &System,
    trace: &Trace,
    source: SourceId,
    offset: u64,
    others: &[Leads],
    cycle: u64,
) -> Off
    requires there { source.0 < length system.now.sources }
    requires fits { FitsSystem system.now trace.now }
    requires offset { offset ≡ offset_of system.now source.0 }
    requires others { All AreLeads others.now }
    requires short { cycle ≤ MAX_PERIOD }
    requires some { 0 < length (times_of trace.now source.0) }
    requires off { leaves_with (source_at system.now source.0) (times_of trace.now source.0) others.now cycle (length (times_of trace.now source.0)) ≡ false }
    ensures source { result.source ≡ source.0 }
    ensures event { option_map (time_of trace.now source.0) (first_below (λ n. not (leaves_with (source_at system.now source.0) (times_of trace.now source.0) others.now cycle (n + 1))) (length (times_of trace.now source.0))) ≡ Some result.time }
{
    let times = trace.times(source);
    let n = first_off(system.source(source), offset, times, others, cycle);
    Off {
        source: source.0,
        time: times[n],
    }
}

/// The first event of the first source below a place that is on a clock and whose events don't come by it. Each source in
/// turn leaves some of the leads that those before it leave; the least is kept.
fn first_on(
    alloc: Global,
    system: &System,
    trace: &Trace,
    clock: SourceId,
    cycle: u64,
    until: u32,
) -> Result<Option<Off>, NoMemory>
    requires fits { FitsSystem system.now trace.now }
    requires rules { IsSystem system.now }
    requires until { until ≤ length system.now.sources }
    requires cycle { cycle ≡ clock_cycle system.now clock.0 }
    requires short { cycle ≤ MAX_PERIOD }
    ensures some { IfOk result (λ o. IfSome o (IsFirstOff system.now trace.now clock.0 until)) }
    ensures none { IfOk result (λ o. IfNone o (HasNoneOff system.now trace.now clock.0 until)) }
{
    let mut others = Vec::new(alloc);
    let mut lead = 0;
    for k in 0..until {
        let source = SourceId(k);
        let Some(offset) = offset_on(system, trace, clock, source) else {
            continue;
        };
        let times = trace.times(source);
        let Some(own) = leads_of(system.source(source), offset, times, times.len()) else {
            return Ok(Some(off_at(system, trace, source, offset, others.as_slice(), cycle)));
        };
        lead = least_lead(own, others.as_slice(), lead, cycle);
        if lead == cycle {
            return Ok(Some(off_at(system, trace, source, offset, others.as_slice(), cycle)));
        }
        others.push(own)?;
    }
    Ok(None)
}

/// The first event that doesn't come by the clock of its source: of the first source that has one.
pub(crate) fn first_clock_breach(
    alloc: Global,
    system: &System,
    trace: &Trace,
) -> Result<Option<Breach>, NoMemory>
    requires { FitsSystem system.now trace.now }
    ensures first { IfOk result (λ b. b ≡ first_some (clock_breach system.now trace.now) (length system.now.sources)) }
    ensures plain { has_clocks system.now ≡ false → IsOk result }
{
    if !system.has_clocks() {
        return Ok(None);
    }
    let mut first = None;
    let mut until = system.sources();
    for c in 0..system.sources() {
        let clock = SourceId(c);
        let Some(cycle) = cycle_of(system, clock) else {
            continue;
        };
        if let Some(off) = first_on(alloc, system, trace, clock, cycle, until)? {
            until = off.source;
            first = Some(Breach::Clock {
                source: SourceId(off.source),
                time: off.time,
            });
        }
    }
    Ok(first)
}

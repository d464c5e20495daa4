//! The clock that a source is on, where the source has another period.

ghost use Rattle.std.specs.Prelude.{◌≡◌, ◌<◌, ◌≤◌, ℕ, length};
ghost use Rattle.cpa_units.specs.declared.limits.TheConstants.{MAX_PERIOD};
ghost use Rattle.cpa_draft.specs.Clocks.{is_too_long};
ghost use Rattle.cpa_model.specs.SystemLists.{source_at};
ghost use Rattle.cpa_model.specs.Changes.{with_source};
ghost use Rattle.cpa_model.specs.Clocks.{is_on_clock, clock_periods};
ghost use Rattle.cpa_edit.specs.Refused.{misfits_clock};
ghost use Rattle.cpa_edit.specs.Schedules.{joined, unless_long, IsShort};

use cpa_draft::clocks::{MAX_STARTS, least_multiple};
use cpa_model::{Source, System};
use cpa_units::SourceId;
use cpa_units::limits::MAX_PERIOD;

/// When the schedule of some sources of a clock repeats, and how many events it has until then.
#[derive(Clone, Copy)]
struct Schedule {
    cycle: u64,
    starts: u64,
}

/// The schedule with one more source, unless that is too long.
fn join(schedule: Schedule, period: u64) -> Option<Schedule>
    requires schedule { IsShort schedule }
    requires period { (0 < period) × (period ≤ MAX_PERIOD) }
    ensures { result ≡ unless_long (joined schedule period) }
{
    let cycle = least_multiple(schedule.cycle, period);
    if cycle > MAX_PERIOD {
        return None;
    }
    let starts = schedule.starts * (cycle / schedule.cycle) + cycle / period;
    if starts > MAX_STARTS {
        return None;
    }
    Some(Schedule { cycle, starts })
}

/// Whether a source is on the clock of a name.
fn is_on(source: &Source, name: &[u8]) -> bool
    ensures { result ≡ is_on_clock name.now source.now }
{
    match &source.on_clock {
        None => false,
        Some(on) => name == on.clock.bytes(),
    }
}

/// The period of the source at a place, where one source has another.
fn period_at(system: &System, place: SourceId, source: SourceId, period: u64) -> u64
    requires place { place.0 < length system.now.sources }
    requires source { source.0 < length system.now.sources }
    requires period { (0 < period) × (period ≤ MAX_PERIOD) }
    ensures value { (jitter distance : ℕ) → result ≡ (source_at (with_source system.now source.0 period jitter distance) place.0).period }
    ensures range { (0 < result) × (result ≤ MAX_PERIOD) }
{
    if place.0 == source.0 {
        period
    } else {
        system.source(place).period
    }
}

/// Whether the clock of a name is too long, where a source has another period.
fn is_too_long(system: &System, source: SourceId, period: u64, name: &[u8]) -> bool
    requires source { source.0 < length system.now.sources }
    requires period { (0 < period) × (period ≤ MAX_PERIOD) }
    ensures { (jitter distance : ℕ) → result ≡ is_too_long (clock_periods (with_source system.now source.0 period jitter distance) name.now) }
{
    system.has_rules();
    let mut schedule = Schedule {
        cycle: 1,
        starts: 0,
    };
    for k in 0..system.sources() {
        let place = SourceId(k);
        if is_on(system.source(place), name) {
            let Some(next) = join(schedule, period_at(system, place, source, period)) else {
                return true;
            };
            schedule = next;
        }
    }
    false
}

/// Whether a source doesn't fit the clock that it is on, where it has another period.
pub(crate) fn misfits_clock(system: &System, source: SourceId, period: u64) -> bool
    requires source { source.0 < length system.now.sources }
    requires period { (0 < period) × (period ≤ MAX_PERIOD) }
    ensures { (jitter distance : ℕ) → result ≡ misfits_clock (with_source system.now source.0 period jitter distance) period (source_at system.now source.0).on_clock }
{
    match &system.source(source).on_clock {
        None => false,
        Some(on) => { period <= on.offset || is_too_long(system, source, period, on.clock.bytes()) }
    }
}

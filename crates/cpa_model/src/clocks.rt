//! Where sources are on clocks, found once and kept with the system.

ghost use Rattle.std.specs.Prelude.{◌≡◌, ◌<◌, ◌≤◌, All, None, false, length, map, position, slice_index_or, IfOk, IfSome};
ghost use Rattle.std.specs.List.{list_any, range_with_len};
ghost use Rattle.cpa_units.specs.declared.limits.TheConstants.{MAX_SOURCES};
ghost use Rattle.cpa_draft.specs.Clocks.{common_cycle, is_too_long};
ghost use Rattle.cpa_model.specs.Rules.{IsSource, HasShortClock};
ghost use Rattle.cpa_model.specs.Clocks.{is_on_clock, is_clocked, clock_periods, clock_cycle, ticking_of, of_sources, kept_clocks, cycle_known, renewed, renewed_clocks, moved_clocks};

use crate::entries::Source;
use cpa_draft::clocks::least_multiple;
use cpa_units::{NoMemory, SourceId};
use std::alloc::Global;

/// Where a source is on a clock.
#[derive(Clone, Copy, Debug, PartialEq, Eq)]
pub struct Ticking {
    /// The first source on the clock, by which it is told.
    pub clock: SourceId,
    /// After so many ticks all sources on the clock come as before: the least common multiple of their periods.
    pub cycle: u64,
    /// How long after the start of the clock the source's first event comes, where it isn't late.
    pub offset: u64,
}

/// Whether a source is on the clock of a name.
fn is_on(source: &Source, name: &[u8]) -> bool
    ensures { result ≡ is_on_clock name.now source.now }
{
    match &source.on_clock {
        None => false,
        Some(on) => name == on.clock.bytes(),
    }
}

/// Whether some source is on a clock.
fn have_clocks(sources: &[Source]) -> bool
    ensures { result ≡ list_any is_clocked sources.now }
{
    sources.iter().any(|source| source.on_clock.is_some())
}

/// The cycle of the clock of a name: the least common multiple of the periods of its sources.
fn cycle_of(sources: &[Source], name: &[u8]) -> u64
    requires periods { All IsSource sources.now }
    requires short { is_too_long (clock_periods (of_sources sources.now) name.now) ≡ false }
    ensures { result ≡ common_cycle (clock_periods (of_sources sources.now) name.now) }
{
    let mut cycle = 1;
    for source in sources {
        if is_on(source, name) {
            cycle = least_multiple(cycle, source.period);
        }
    }
    cycle
}

/// The cycle of the clock of a source, 1 where it is on none.
fn cycle_at(sources: &[Source], place: usize) -> u64
    requires there { place < length sources.now }
    requires periods { All IsSource sources.now }
    requires short { All (HasShortClock (of_sources sources.now)) sources.now }
    ensures { result ≡ clock_cycle (of_sources sources.now) place }
{
    match &sources[place].on_clock {
        None => 1,
        Some(on) => cycle_of(sources, on.clock.bytes()),
    }
}

/// The first source on the clock of a name.
fn first_on(sources: &[Source], name: &[u8]) -> Option<usize>
    ensures place { result ≡ position (is_on_clock name.now) sources.now }
    ensures within { IfSome result (λ k. k < length sources.now) }
{
    sources.iter().position(|source| is_on(source, name))
}

/// The cycle that is known of a place, 0 where none is.
fn known_cycle(known: &[Option<Ticking>], place: usize) -> u64
    requires { place < length known.now }
    ensures { result ≡ cycle_known (slice_index_or known.now place None) }
{
    match known[place] {
        None => 0,
        Some(ticking) => ticking.cycle,
    }
}

/// Where the source at a place is on a clock; it is known of those before.
fn find_ticking(sources: &[Source], known: &[Option<Ticking>], place: usize) -> Option<Ticking>
    requires few { length sources.now ≤ MAX_SOURCES }
    requires there { place < length sources.now }
    requires periods { All IsSource sources.now }
    requires short { All (HasShortClock (of_sources sources.now)) sources.now }
    requires known { known.now ≡ map (ticking_of (of_sources sources.now)) (range_with_len 0 place) }
    ensures { result ≡ ticking_of (of_sources sources.now) place }
{
    match &sources[place].on_clock {
        None => None,
        Some(on) => {
            let name = on.clock.bytes();
            match first_on(sources, name) {
                None => None,
                Some(first) => {
                    let cycle = if first < place {
                        known_cycle(known, first)
                    } else {
                        cycle_of(sources, name)
                    };
                    Some(Ticking {
                        clock: SourceId(first as u32),
                        cycle,
                        offset: on.offset,
                    })
                }
            }
        }
    }
}

/// Where each source is on a clock; nothing where none is.
pub(crate) fn gather_clocks(
    alloc: Global,
    sources: &[Source],
) -> Result<Vec<Option<Ticking>>, NoMemory>
    requires few { length sources.now ≤ MAX_SOURCES }
    requires periods { All IsSource sources.now }
    requires short { All (HasShortClock (of_sources sources.now)) sources.now }
    ensures { IfOk result (λ v. v.items ≡ kept_clocks (of_sources sources.now)) }
{
    let mut kept = Vec::new(alloc);
    if have_clocks(sources) {
        for k in 0..sources.len() {
            kept.push(find_ticking(sources, kept.as_slice(), k))?;
        }
    }
    Ok(kept)
}

/// A source that is on this clock has its cycle.
fn renewed(entry: Option<Ticking>, clock: SourceId, cycle: u64) -> Option<Ticking>
    ensures { result ≡ renewed clock.0 cycle entry }
{
    match entry {
        None => None,
        Some(ticking) => {
            if ticking.clock.0 == clock.0 {
                Some(Ticking { cycle, ..ticking })
            } else {
                Some(ticking)
            }
        }
    }
}

/// The sources of a clock have this cycle.
fn renew(kept: &mut [Option<Ticking>], clock: SourceId, cycle: u64)
    ensures { kept.new ≡ map (renewed clock.0 cycle) kept.old }
{
    for entry in kept.iter_mut() {
        *entry = renewed(*entry, clock, cycle);
    }
}

/// Brings the cycle of a source's clock up to date.
pub(crate) fn renew_clock(kept: &mut [Option<Ticking>], sources: &[Source], place: usize)
    requires there { place < length sources.now }
    requires periods { All IsSource sources.now }
    requires short { All (HasShortClock (of_sources sources.now)) sources.now }
    ensures { kept.new ≡ renewed_clocks (of_sources sources.now) place kept.old }
{
    if place < kept.len() {
        if let Some(ticking) = kept[place] {
            let cycle = cycle_at(sources, place);
            renew(kept, ticking.clock, cycle);
        }
    }
}

/// A source that is on a clock has this offset.
pub(crate) fn set_kept_offset(kept: &mut [Option<Ticking>], place: usize, offset: u64)
    ensures { kept.new ≡ moved_clocks place offset kept.old }
{
    if place < kept.len() {
        if let Some(ticking) = &mut kept[place] {
            ticking.offset = offset;
        }
    }
}

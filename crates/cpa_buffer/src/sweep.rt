//! How many are inside at most, from when they came and went. Times are in ticks.

ghost use Rattle.std.specs.Prelude.{◌≡◌, ◌<◌, ◌≤◌, ◌-◌, ℕ, length, slice_index_or, IfOk};
ghost use Rattle.std.specs.List.Sorted.{IsNonDecreasing};
ghost use Rattle.cpa_buffer.specs.Buffers.{highest};
ghost use Rattle.cpa_buffer.specs.Peaks.{come_by, inside};

use cpa_units::NoMemory;

/// How many of some times have come by `now`, where the first `done` have.
fn come_by(times: &[u64], done: usize, now: u64) -> usize
    requires order { IsNonDecreasing times.now }
    requires within { done ≤ length times.now }
    requires before { (m : ℕ) → m < done → slice_index_or times.now m 0 ≤ now }
    ensures value { result ≡ come_by now times.now }
    ensures within { result ≤ length times.now }
    ensures before { (m : ℕ) → m < result → slice_index_or times.now m 0 ≤ now }
{
    let mut done = done;
    'times: while done < times.len() && times[done] <= now {
        done += 1;
    }
    done
}

/// The greatest number that are inside at one time, from when each came and when each went.
fn sweep(arrivals: &[u64], ends: &[u64]) -> u64
    requires arrivals { IsNonDecreasing arrivals.now }
    requires ends { IsNonDecreasing ends.now }
    ensures { (last : ℕ) → ((m : ℕ) → m < length arrivals.now → slice_index_or arrivals.now m 0 ≤ last) → result ≡ highest (inside arrivals.now ends.now) last }
{
    let mut peak = 0usize;
    let mut done = 0usize;
    for k in 0..arrivals.len() {
        done = come_by(ends, done, arrivals[k]);
        peak = peak.max((k + 1).saturating_sub(done));
    }
    peak as u64
}

/// The greatest number that are inside at one time, whatever the order of the times. It counts those that
/// come at a time as inside then, and those that go at it as gone.
pub(crate) fn most_inside(mut arrivals: Vec<u64>, mut ends: Vec<u64>) -> Result<u64, NoMemory>
    ensures { IfOk result (λ peak. (last : ℕ) → ((m : ℕ) → m < length arrivals.items → slice_index_or arrivals.items m 0 ≤ last) → peak ≡ highest (inside arrivals.items ends.items) last) }
{
    arrivals.sort()?;
    ends.sort()?;
    Ok(sweep(arrivals.as_slice(), ends.as_slice()))
}

//! The work of clocks in windows that were looked at.

ghost use Rattle.std.specs.Prelude.{◌≡◌, ◌^◌, ◌≤◌, ◌+◌, List, length, IfSome};
ghost use Rattle.cpa_phase.specs.declared.clock.Clock.{Clock as ClockOf};
ghost use Rattle.cpa_phase.specs.Clocks.{clocks_work, AreClocks};
ghost use Rattle.cpa_phase.specs.Known.{AreKnown, IsKnown};

use crate::clock::{Clock, clocks_work};
use cpa_units::limits::{MAX_BIT, MAX_LIMIT};
use std::alloc::Global;

/// A window, and the work that some clocks bring in it.
#[derive(Clone, Copy)]
struct WindowWork {
    window: u64,
    work: u128,
}

/// Windows that were looked at, in order of their length, with the work that some clocks bring in them. Between two
/// windows with the same work each has that work.
#[derive(Drop)]
pub struct KnownWork {
    windows: Vec<WindowWork>,
}

impl KnownWork {
    /// Nothing is known.
    pub fn new(alloc: Global) -> KnownWork
        ensures { (clocks : List ClockOf) → AreKnown clocks result }
    {
        KnownWork {
            windows: Vec::new(alloc),
        }
    }

    /// The work of the clocks in a window. It is kept where there is memory for it.
    pub fn work_in(&mut self, clocks: &[Clock], window: u64) -> u128
        requires clocks { AreClocks clocks.now }
        requires window { window ≤ MAX_LIMIT + MAX_BIT }
        requires known { AreKnown clocks.now self.old }
        ensures value { result ≡ clocks_work clocks.now window }
        ensures small { result ≤ 2 ^ 88 }
        ensures known { AreKnown clocks.now self.new }
    {
        let place = self.place_of(window);
        if let Some(work) = self.work_at(place, window) {
            return work;
        }
        let work = clocks_work(clocks, window);
        self.keep(place, WindowWork { window, work });
        work
    }

    /// Before which place a window belongs.
    fn place_of(&self, window: u64) -> usize
        ensures { result ≤ length self.now.windows.items }
    {
        let mut low = 0;
        let mut high = self.windows.len();
        while low < high {
            let middle = low + (high - low) / 2;
            if self.windows[middle].window < window {
                low = middle + 1;
            } else {
                high = middle;
            }
        }
        low
    }

    /// The work in a window that belongs before a place, if it is known.
    fn work_at(&self, place: usize, window: u64) -> Option<u128>
        ensures { (clocks : List ClockOf) → AreKnown clocks self.now → IfSome result (λ work. IsKnown clocks (record { window = window; work = work })) }
    {
        let after = *self.windows.get(place)?;
        if after.window == window {
            return Some(after.work);
        }
        let before = *self.windows.get(place.checked_sub(1)?)?;
        if before.work == after.work && before.window <= window && window <= after.window {
            Some(after.work)
        } else {
            None
        }
    }

    /// Keeps a window before a place, where there is memory for it.
    fn keep(&mut self, place: usize, known: WindowWork)
        requires { place ≤ length self.old.windows.items }
        ensures { (clocks : List ClockOf) → AreKnown clocks self.old → IsKnown clocks known → AreKnown clocks self.new }
    {
        match self.windows.insert(place, known) {
            Ok(()) | Err(_) => {}
        }
    }
}

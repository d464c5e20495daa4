//! How a task's own frames come from the start of a busy window on.

ghost use Rattle.std.specs.Prelude.{◌≡◌, ℕ, ◌+◌, ◌*◌, ◌^◌, ◌≤◌};
ghost use Rattle.cpa_units.specs.declared.limits.TheConstants.{MAX_EXECUTION, MAX_LIMIT};
ghost use Rattle.cpa_events.specs.Events.{delta_minus, eta_plus, IsModelInRange};
ghost use Rattle.cpa_events.proofs.EventLaws.{eta_plus-mono};
ghost use Rattle.cpa_phase.specs.Phases.{earliest_arrival, arrivals};
ghost use Rattle.cpa_phase.specs.Streams.{IsPhased};
ghost use Rattle.cpa_phase.proofs.PhaseLaws.{arrivals-mono};

use cpa_events::Model;
use cpa_phase::Phased;
use cpa_units::limits::{MAX_EXECUTION, MAX_LIMIT};
use cpa_window::events_work;

/// How many frames come in a window, and how early each of them.
pub(crate) trait OwnFrames {
    ghost frames: { Self → ℕ → ℕ };

    ghost earliest: { Self → ℕ → ℕ };

    fn frames_in(&self, window: u64) -> u64
        requires { window ≤ MAX_LIMIT }
        ensures { result ≡ frames self.now window };

    /// The time that they take, where each takes so long.
    fn work_in(&self, window: u64, each: u64) -> u64
        requires window { window ≤ MAX_LIMIT }
        requires each { each ≤ MAX_EXECUTION }
        ensures value { result ≡ frames self.now window * each }
        ensures small { result ≤ 2 ^ 62 };

    /// How long after the start the n-th comes at the earliest.
    fn earliest_of(&self, n: u64) -> u64
        requires { n ≤ MAX_LIMIT }
        ensures { result ≡ earliest self.now n };

    /// A longer window has no fewer.
    ghost longer: { (o : Self) (v w : ℕ) → v ≤ w → frames o v ≤ frames o w };
}

/// By one stream on a clock.
#[derive(Drop)]
pub(crate) struct OnClock {
    pub(crate) phased: Phased,
    ghost in_range: { IsPhased phased },
}

impl OwnFrames for OnClock {
    ghost frames = { λ o. arrivals o.phased.stream o.phased.phase };

    ghost earliest = { λ o. earliest_arrival o.phased.stream o.phased.phase };

    ghost longer = { λ o v w shorter. arrivals-mono o.phased.stream o.phased.phase v w shorter };

    #[inline(always)]
    fn frames_in(&self, window: u64) -> u64 {
        self.phased.arrivals(window)
    }

    #[inline(always)]
    fn work_in(&self, window: u64, each: u64) -> u64 {
        self.phased.arrivals(window) * each
    }

    #[inline(always)]
    fn earliest_of(&self, n: u64) -> u64 {
        self.phased.earliest_arrival(n)
    }
}

/// By several streams, or by one without a clock.
#[derive(Drop)]
pub(crate) struct Apart<'a> {
    pub(crate) model: &'a Model,
    ghost in_range: { IsModelInRange model.now },
}

impl<'a> OwnFrames for Apart<'a> {
    ghost frames = { λ o. eta_plus o.model.now };

    ghost earliest = { λ o. delta_minus o.model.now };

    ghost longer = { λ o v w shorter. eta_plus-mono o.model.now v w shorter };

    #[inline(always)]
    fn frames_in(&self, window: u64) -> u64 {
        self.model.eta_plus(window)
    }

    #[inline(always)]
    fn work_in(&self, window: u64, each: u64) -> u64 {
        events_work(self.model, window, each)
    }

    #[inline(always)]
    fn earliest_of(&self, n: u64) -> u64 {
        self.model.delta_minus(n)
    }
}

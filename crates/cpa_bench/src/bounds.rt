//! The longest walks through the jobs of a busy window, which bench/time_bounds.sh times.

ghost use Rattle.std.specs.Prelude.{◌≡◌, ◌+◌, ◌*◌, ◌<◌, ◌≤◌, IfOk};
ghost use Rattle.cpa_units.specs.declared.limits.TheConstants.{MAX_PERIOD};
ghost use Rattle.cpa_events.specs.Events.{IsModelInRange};
ghost use Rattle.cpa_window.specs.Rivals.{IsRival, AreRivals};

use cpa_events::{Model, Stream};
use cpa_units::Bound;
use cpa_units::limits::{MAX_JITTER, MAX_PERIOD};
use cpa_window::Rival;
use std::alloc::{AllocError, Global};

/// The window limit of the cases: the greatest of a small system, with which results were taken.
const LIMIT: u64 = 10_000_000;

/// How many rivals the task has.
const RIVALS: u64 = 511;

/// A task whose events come in each period, or late by the greatest jitter.
fn late(period: u64) -> Model
    requires some { 1 ≤ period }
    requires small { period ≤ MAX_PERIOD }
    ensures { IsModelInRange result }
{
    Model::one(Stream {
        period,
        jitter: MAX_JITTER,
        distance: 0,
    })
}

/// A rival that takes one tick in each period.
fn rival(period: u64) -> Rival
    requires some { 1 ≤ period }
    requires small { period ≤ MAX_PERIOD }
    ensures { IsRival result }
{
    Rival {
        model: Some(Model::one(Stream {
            period,
            jitter: 0,
            distance: 0,
        })),
        worst: 1,
        slot: 1,
        bound: Bound::Within(1000),
    }
}

/// Rivals with periods from `step` ticks on, each a tick longer than the last.
fn rivals_from(alloc: Global, step: u64) -> Result<Vec<Rival>, AllocError>
    requires some { 1 ≤ step }
    requires small { step ≤ 1_000_000 }
    ensures { IfOk result (λ list. AreRivals list.items) }
{
    let mut list = Vec::new(alloc);
    for place in 0..RIVALS {
        list.push(rival(step + place))?;
    }
    Ok(list)
}

/// The rivals of a task: some send something seldom, and others often.
#[derive(Drop)]
pub struct Rivals {
    quiet: Vec<Rival>,
    busy: Vec<Rival>,
    ghost quiet_in_range: { AreRivals quiet.items },
    ghost busy_in_range: { AreRivals busy.items },
}

impl Rivals {
    pub fn make(alloc: Global) -> Result<Rivals, AllocError> {
        Ok(Rivals {
            quiet: rivals_from(alloc, 1_000_000)?,
            busy: rivals_from(alloc, 1_000)?,
        })
    }

    /// The bound of a case: a task with many jobs at once, and one of these lists of rivals.
    pub fn bound(&self, case: &str) -> Option<Bound> {
        let (quiet, busy) = (self.quiet.as_slice(), self.busy.as_slice());
        match case {
            "preemptive-quiet" => Some(cpa_spp::respond(&late(1), 1, 0, quiet, LIMIT)),
            "preemptive-busy" => Some(cpa_spp::respond(&late(1), 1, 0, busy, LIMIT)),
            "round-robin-quiet" => Some(cpa_rr::respond(&late(1), 1, 1, quiet, LIMIT)),
            "round-robin-busy" => Some(cpa_rr::respond(&late(1), 1, 1, busy, LIMIT)),
            "can-quiet" => Some(cpa_can::respond(&late(102), 1, 1000, quiet, 1, LIMIT)),
            "can-busy" => Some(cpa_can::respond(&late(202), 1, 1000, busy, 1, LIMIT)),
            "tdma" => Some(cpa_tdma::respond(&late(1), 1, 1, 1, LIMIT)),
            _ => None,
        }
    }
}

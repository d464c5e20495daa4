//! Jobs as outcomes keep them. Times are in ticks.

ghost use Rattle.std.specs.Prelude.{◌≡◌, ◌<◌, ◌≤◌, None, Some};
ghost use Rattle.cpa_units.specs.declared.limits.TheConstants.{HORIZON, MAX_TRACE_JOBS};

use crate::jobs::{Cause, Job};
use cpa_model::Activator;
use std::marker::Model;

/// A job of a run, whose numbers fit 32 bits each. Contracts see the job.
#[derive(Debug, Drop)]
pub(crate) struct SeenJob {
    arrival: u32,
    end: Option<u32>,
    by: Activator,
    number: u32,
}

impl Model for SeenJob {
    ghost use Rattle.cpa_sim.specs.declared.jobs.Job.{Job};

    ghost Value = { Job };

    ghost view = { λ j. record { arrival = j.arrival; end = j.end; cause = record { by = j.by; number = j.number } } };
}

impl SeenJob {
    /// A job that arrives now.
    pub(crate) fn new(now: u64, cause: Cause) -> SeenJob
        requires horizon { now ≤ HORIZON }
        requires number { cause.number < MAX_TRACE_JOBS }
        ensures { result ≡ record { arrival = now; end = None; cause = cause } }
    {
        SeenJob {
            arrival: now as u32,
            end: None,
            by: cause.by,
            number: cause.number as u32,
        }
    }

    /// It is complete now.
    pub(crate) fn complete(&mut self, now: u64)
        requires { now ≤ HORIZON }
        ensures { self.new ≡ record { arrival = self.old.arrival; end = Some now; cause = self.old.cause } }
    {
        self.end = Some(now as u32);
    }

    /// The job itself.
    #[inline(always)]
    pub(crate) fn job(&self) -> Job
        ensures { result ≡ self.now }
    {
        let end = match self.end {
            None => None,
            Some(end) => Some(u64::from(end)),
        };
        Job {
            arrival: u64::from(self.arrival),
            end,
            cause: Cause {
                by: self.by,
                number: u64::from(self.number),
            },
        }
    }
}

//! A run that is followed from one moment to the next. Times are in ticks.

ghost use Rattle.std.specs.Prelude.{◌≡◌, ◌<◌, ◌≤◌, ℕ, length, nat_lt, IfOk};
ghost use Rattle.cpa_sim.specs.Outcome.{CanReplay, end_of};
ghost use Rattle.cpa_sim.specs.Served.{served_at};

use crate::jobs::Served;
use crate::simulator::Simulator;
use cpa_model::System;
use cpa_trace::Trace;
use cpa_units::{NoMemory, ResId};
use std::alloc::Global;
use std::marker::Model;

/// A run of a system under a trace, as far as it was followed. Contracts see the system, the trace, the
/// time up to which it was followed, and the moment before that: since then the same job has got all ticks
/// of each resource, or nobody has. Its jobs aren't kept, so that it takes room for the system alone,
/// however many there are.
#[derive(Drop)]
pub struct Replay<'a> {
    system: &'a System,
    trace: &'a Trace,
    simulator: Simulator,
    since: u64,
}

impl<'a> Model for Replay<'a> {
    ghost use Rattle.cpa_sim.specs.Replays.{FollowedRun, IsReplay};

    ghost Value = { FollowedRun };

    ghost view = { λ p. record { system = p.system.now; trace = p.trace.now; since = p.since; time = p.simulator.time } };

    ghost invariant = { λ p. IsReplay p.system.now p.trace.now p.since p.simulator };
}

impl<'a> Replay<'a> {
    /// The run at tick 0. The condition on the trace is that of `replay`.
    pub fn start(
        alloc: Global,
        system: &'a System,
        trace: &'a Trace,
    ) -> Result<Replay<'a>, NoMemory>
        requires { CanReplay system.now trace.now }
        ensures { IfOk result (λ p. p ≡ record { system = system.now; trace = trace.now; since = 0; time = 0 }) }
    {
        let simulator = Simulator::start(alloc, system, trace, false)?;
        Ok(Replay {
            system,
            trace,
            simulator,
            since: 0,
        })
    }

    /// The time up to which the run was followed.
    pub fn time(&self) -> u64
        ensures { result ≡ self.now.time }
    {
        self.simulator.time()
    }

    /// Whether the run goes on from here: its end isn't reached.
    pub fn goes_on(&self) -> bool
        ensures { result ≡ nat_lt self.now.time (end_of self.now.system self.now.trace) }
    {
        self.simulator.goes_on()
    }

    /// Follows the run to the next moment at which something can change.
    pub fn advance(&mut self)
        requires { self.old.time < end_of self.old.system self.old.trace }
        ensures system { self.new.system ≡ self.old.system }
        ensures trace { self.new.trace ≡ self.old.trace }
        ensures since { self.new.since ≡ self.old.time }
        ensures later { self.old.time < self.new.time }
        ensures within { self.new.time ≤ end_of self.new.system self.new.trace }
    {
        let since = self.simulator.time();
        self.simulator.step(self.system, self.trace).unwrap();
        self.since = since;
    }

    /// The job that got the ticks of a resource since the moment before; none where nobody did.
    pub fn ran(&self, res: ResId) -> Option<Served>
        requires { res.0 < length self.now.system.resources }
        ensures { (u : ℕ) → self.now.since ≤ u → u < self.now.time → served_at self.now.system self.now.trace u res.0 ≡ result }
    {
        self.simulator.ran(res)
    }
}

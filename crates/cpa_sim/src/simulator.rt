//! What the simulator keeps of a run from one moment to the next. Times are in ticks.

ghost use Rattle.std.specs.Prelude.{◌≡◌, ◌<◌, ◌≤◌, ℕ, length, map, nat_lt, true, false, IfOk, OnOk, IsOk};
ghost use Rattle.cpa_model.specs.SystemLists.{SystemLists};
ghost use Rattle.cpa_trace.specs.Trace.{TraceLists};
ghost use Rattle.cpa_sim.specs.JobQueues.{kept_of};
ghost use Rattle.cpa_sim.specs.Outcome.{CanReplay, end_of};
ghost use Rattle.cpa_sim.specs.Served.{served_at};
ghost use Rattle.cpa_sim.specs.LastServed.{ran_by, RanWithin};
ghost use Rattle.cpa_sim.specs.Simulators.{IsSimulator};

use crate::jobs::Served;
use crate::orders::{find_orders, find_places};
use crate::outcome::Outcome;
use crate::run_context::RunContext;
use crate::simulation::{Simulation, advance, goes_on, most_ticks, start};
use crate::source_cursors::quiet_from;
use crate::successors::{Successors, find_successors};
use cpa_model::System;
use cpa_trace::Trace;
use cpa_units::{NoMemory, ResId, TaskId};
use std::alloc::Global;
use std::marker::Model;

/// A run of a system under a trace, as far as it was followed. What is seen of its jobs is kept where that
/// is asked for; all else takes room for the system alone, however many jobs there are.
#[derive(Drop)]
pub(crate) struct Simulator {
    successors: Successors,
    /// The tasks of each resource by urgency.
    orders: Vec<Vec<TaskId>>,
    /// Where each task stands in the list of its resource.
    places: Vec<usize>,
    sim: Simulation,
    /// From this time on no event comes.
    quiet: u64,
}

impl Model for Simulator {
    ghost use Rattle.std.specs.Prelude.{map};
    ghost use Rattle.cpa_sim.specs.Simulators.{SimulatorLists};

    ghost Value = { SimulatorLists };

    ghost view = { λ p. record { by_source = map (λ v. v.items) p.successors.by_source.items; by_task = map (λ v. v.items) p.successors.by_task.items; single = p.successors.single; orders = map (λ v. v.items) p.orders.items; places = p.places.items; keeps = p.sim.keeps; queues = p.sim.queues.items; dispatches = p.sim.dispatches.items; cursors = p.sim.cursors.items; time = p.sim.time; next_event = p.sim.next_event; quiet = p.quiet } };
}

impl Simulator {
    /// The run at tick 0, where what is seen of its jobs is kept or not. The condition on the trace is that
    /// of `replay`.
    pub(crate) fn start(
        alloc: Global,
        system: &System,
        trace: &Trace,
        keeps: bool,
    ) -> Result<Simulator, NoMemory>
        requires { CanReplay system.now trace.now }
        ensures run { IfOk result (λ p. IsSimulator system.now trace.now p) }
        ensures time { IfOk result (λ p. p.time ≡ 0) }
        ensures keeps { IfOk result (λ p. p.keeps ≡ keeps) }
    {
        let quiet = quiet_from(system, trace);
        let successors = find_successors(alloc, system)?;
        let orders = find_orders(alloc, system)?;
        let places = find_places(alloc, system, &orders)?;
        let context = RunContext {
            system,
            trace,
            successors: &successors,
            orders: &orders,
            places: &places,
        };
        let sim = start(alloc, &context, keeps)?;
        Ok(Simulator {
            successors,
            orders,
            places,
            sim,
            quiet,
        })
    }

    /// The time up to which the run was followed.
    pub(crate) fn time(&self) -> u64
        ensures { result ≡ self.now.time }
    {
        self.sim.time
    }

    /// Whether the run goes on from here: its end isn't reached.
    pub(crate) fn goes_on(&self) -> bool
        ensures { (s : SystemLists) (tr : TraceLists) → IsSimulator s tr self.now → result ≡ nat_lt self.now.time (end_of s tr) }
    {
        let sim = &self.sim;
        goes_on(
            sim.time,
            self.quiet,
            sim.queues.as_slice(),
            sim.dispatches.as_slice(),
        )
    }

    /// Follows the run to the next moment at which something can change. On each resource the same job
    /// gets all ticks up to it, or nobody does. Where jobs are kept and memory runs out for that, the run
    /// is lost.
    pub(crate) fn step(&mut self, system: &System, trace: &Trace) -> Result<(), NoMemory>
        requires run { IsSimulator system.now trace.now self.old }
        requires more { self.old.time < end_of system.now trace.now }
        ensures run { OnOk result (IsSimulator system.now trace.now self.new) }
        ensures keeps { OnOk result (self.new.keeps ≡ self.old.keeps) }
        ensures memory { self.old.keeps ≡ false → IsOk result }
        ensures later { OnOk result (self.old.time < self.new.time) }
        ensures within { OnOk result (self.new.time ≤ end_of system.now trace.now) }
        ensures ran { OnOk result ((r u : ℕ) → r < length system.now.resources → self.old.time ≤ u → u < self.new.time → served_at system.now trace.now u r ≡ ran_by self.new.queues self.new.dispatches r) }
    {
        let most = most_ticks(self.sim.time, self.quiet);
        let context = RunContext {
            system,
            trace,
            successors: &self.successors,
            orders: &self.orders,
            places: &self.places,
        };
        advance(&context, &mut self.sim, most)?;
        Ok(())
    }

    /// The job that got the ticks of a resource since the moment before; none where nobody did.
    pub(crate) fn ran(&self, res: ResId) -> Option<Served>
        requires there { res.0 < length self.now.dispatches }
        requires within { RanWithin self.now.queues self.now.dispatches }
        ensures { result ≡ ran_by self.now.queues self.now.dispatches res.0 }
    {
        let dispatch = self.sim.dispatches[res.0 as usize];
        let task = dispatch.running?;
        let done = self.sim.queues[task.0 as usize].done();
        let job = done.saturating_sub(u64::from(dispatch.ends));
        Some(Served { task, job })
    }

    /// What is seen of a run that ends here, whose jobs were kept.
    pub(crate) fn seen(self) -> Outcome
        requires { self.keeps ≡ true }
        ensures { result ≡ record { jobs = map kept_of self.queues; end = self.time } }
    {
        let sim = self.sim;
        Outcome {
            queues: sim.queues,
            end: sim.time,
        }
    }
}

//! What the analyses of one resource's tasks share, and room for what they gather.

ghost use Rattle.std.specs.Prelude.{◌≡◌, ◌≤◌, length, vec_capacity, IfOk};

use crate::clocks::Clocks;
use cpa_clock::Gathered;
use cpa_events::{Model as EventModel, Stream};
use cpa_units::{Bound, NoMemory};
use cpa_window::Rival;
use std::alloc::Global;
use std::marker::Model;

/// What was worked out last for the analyses of one resource's tasks, and room for the rivals of a task.
#[derive(Drop)]
pub(crate) struct Scratch {
    /// The rivals that were gathered last, and others behind them: as many as were wanted so far, in
    /// room for all tasks.
    pub(crate) rivals: Vec<Rival>,
    /// The inputs that were worked out last, by the tasks' places.
    pub(crate) inputs: Vec<Option<EventModel>>,
    /// An input that isn't kept.
    pub(crate) found: EventModel,
    /// What else was worked out last.
    pub(crate) shared: Shared,
    /// What was worked out last of clocks.
    pub(crate) clocks: Clocks,
    /// The rivals that were gathered last by clocks.
    pub(crate) gathered: Gathered,
}

/// What the analyses of one resource's tasks share besides the inputs.
#[derive(Clone, Copy)]
pub(crate) struct Shared {
    /// Under TDMA the cycle, in ticks.
    pub(crate) cycle: u64,
    /// Under preemptive priority, also with ceilings, by how many ticks a task blocks others at most: 0 where each region is
    /// one tick and there are no critical sections.
    pub(crate) longest: u64,
}

impl Model for Scratch {
    ghost use Rattle.std.specs.Prelude.{◌≤◌, length, vec_capacity};
    ghost use Rattle.cpa_local.specs.Worked.{Worked};

    ghost Value = { Worked };

    ghost view = { λ w. record { clocks = w.clocks; inputs = w.inputs.items; cycle = w.shared.cycle; longest = w.shared.longest } };

    ghost invariant = { λ w. length w.inputs.items ≤ vec_capacity w.rivals };
}

impl Scratch {
    /// Nothing is worked out, and there is room for so many tasks.
    pub(crate) fn with_room(alloc: Global, tasks: u32) -> Result<Scratch, NoMemory>
        ensures { IfOk result (λ w. length w.inputs ≡ tasks) }
    {
        let rivals = Vec::with_capacity(alloc, tasks as usize)?;
        let mut inputs = Vec::with_capacity(alloc, tasks as usize)?;
        for _ in 0..tasks {
            inputs.push_reserved(None);
        }
        Ok(Scratch {
            rivals,
            inputs,
            found: no_model(),
            shared: Shared {
                cycle: 0,
                longest: 0,
            },
            clocks: Clocks::none(alloc),
            gathered: Gathered::new(alloc),
        })
    }
}

/// A model that takes up room, and says nothing.
pub(crate) fn no_model() -> EventModel {
    EventModel::one(Stream {
        period: 1,
        jitter: 0,
        distance: 0,
    })
}

/// A rival that takes up room, and says nothing.
fn no_rival() -> Rival {
    Rival {
        slot: 0,
        bound: Bound::Overload,
        worst: 0,
        model: Some(no_model()),
    }
}

/// Makes rivals until there are so many. They are made where they are first wanted, and not with the
/// trail, since most resources have few tasks.
pub(crate) fn make_rivals(rivals: &mut Vec<Rival>, count: usize)
    requires { count ≤ vec_capacity rivals.old }
    ensures enough { count ≤ length rivals.new.items }
    ensures capacity { vec_capacity rivals.new ≡ vec_capacity rivals.old }
{
    for _ in rivals.len()..count {
        rivals.push_reserved(no_rival());
    }
}

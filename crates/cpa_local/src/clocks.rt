//! What the analyses of one resource's tasks share of clocks.

ghost use Rattle.std.specs.Prelude.{◌≡◌, ◌<◌, ◌≤◌, [], length, map, slice_index_or};
ghost use Rattle.std.specs.List.{range_with_len};
ghost use Rattle.std.specs.Result.{OnOk};
ghost use Rattle.cpa_model.specs.Clocks.{clock_cycle};
ghost use Rattle.cpa_local.specs.Worked.{AreAnchored};

use crate::anchor_list::AnchorList;
use crate::anchoring::find_anchors;
use cpa_clock::Anchor;
use cpa_model::System;
use cpa_units::{NoMemory, ResId, SourceId, TaskId};
use std::alloc::Global;
use std::marker::Model;

/// Where the streams of one resource's tasks are on clocks. None of it depends on a vector.
#[derive(Drop)]
pub(crate) struct Clocks {
    /// Whether one of the streams is on a clock. Otherwise the rest may be of other resources.
    on: bool,
    /// The cycle of the clock that each source is on, by the sources' places.
    cycles: Vec<u64>,
    /// By the tasks' places.
    anchors: Vec<AnchorList>,
}

impl Model for Clocks {
    ghost use Rattle.cpa_local.specs.Worked.{Clocked};

    ghost Value = { Clocked };

    ghost view = { λ k. record { on = k.on; cycles = k.cycles.items; anchors = k.anchors.items } };
}

impl Clocks {
    /// Nothing is worked out. Room is taken where a system has clocks alone.
    pub(crate) fn none(alloc: Global) -> Clocks {
        Clocks {
            on: false,
            cycles: Vec::new(alloc),
            anchors: Vec::new(alloc),
        }
    }

    /// Works out where the streams of a resource's tasks are on clocks, in place of what it was before.
    pub(crate) fn learn(&mut self, system: &System, res: ResId) -> Result<(), NoMemory>
        requires there { res.0 < length system.now.resources }
        ensures { OnOk result (AreAnchored system.now res.0 self.new) }
    {
        self.on = false;
        if system.has_clocks() {
            self.find(system, res)?;
        }
        Ok(())
    }

    /// The same in a system that has clocks.
    #[cold]
    #[inline(never)]
    fn find(&mut self, system: &System, res: ResId) -> Result<(), NoMemory>
        requires there { res.0 < length system.now.resources }
        ensures { OnOk result (AreAnchored system.now res.0 self.new) }
    {
        find_cycles(system, &mut self.cycles)?;
        make_lists(&mut self.anchors, system.tasks() as usize)?;
        self.on = find_anchors(system, res, self.anchors.as_mut_slice());
        Ok(())
    }

    /// Whether a stream of a task on the resource is on a clock.
    pub(crate) fn is_on(&self) -> bool
        ensures { result ≡ self.now.on }
    {
        self.on
    }

    pub(crate) fn cycles(&self) -> &[u64]
        ensures { result.now ≡ self.now.cycles }
    {
        self.cycles.as_slice()
    }

    /// Where the streams of a task are on clocks.
    pub(crate) fn anchors(&self, task: TaskId) -> &[Option<Anchor>]
        requires { task.0 < length self.now.anchors }
        ensures { result.now ≡ slice_index_or self.now.anchors task.0 [] }
    {
        self.anchors[task.0 as usize].as_slice()
    }
}

/// The cycle of the clock that a source is on; 1 if it is on none.
fn cycle_of(system: &System, source: SourceId) -> u64
    requires { source.0 < length system.now.sources }
    ensures { result ≡ clock_cycle system.now source.0 }
{
    match system.ticking(source) {
        None => 1,
        Some(ticking) => ticking.cycle,
    }
}

/// Finds the cycle of the clock that each source is on.
fn find_cycles(system: &System, cycles: &mut Vec<u64>) -> Result<(), NoMemory>
    ensures { OnOk result (cycles.new.items ≡ map (clock_cycle system.now) (range_with_len 0 (length system.now.sources))) }
{
    cycles.clear();
    for place in 0..system.sources() {
        cycles.push(cycle_of(system, SourceId(place)))?;
    }
    Ok(())
}

/// Makes lists of anchors until there are so many.
fn make_lists(anchors: &mut Vec<AnchorList>, count: usize) -> Result<(), NoMemory>
    ensures { OnOk result (count ≤ length anchors.new.items) }
{
    for _ in anchors.len()..count {
        anchors.push(AnchorList::none())?;
    }
    Ok(())
}

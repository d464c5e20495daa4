//! The streams of tasks on clocks, gathered along all their chains (Tindell 1994; Palencia and González Harbour 1998).

ghost use Rattle.std.specs.Prelude.{ℕ, ◌≡◌, ◌<◌, ◌≤◌, ◌+◌, ◌*◌, ◌++◌, [], length, map, slice_index_or};
ghost use Rattle.std.specs.Bool.{OnFalse};
ghost use Rattle.cpa_units.specs.declared.limits.TheConstants.{MAX_CHAIN, MAX_EXECUTION};
ghost use Rattle.cpa_events.specs.declared.TheConstants.{MAX_STREAMS};
ghost use Rattle.cpa_model.specs.SystemLists.{task_at, depth_of, streams_of};
ghost use Rattle.cpa_local.specs.OnClocks.{source_anchor, later_anchor, anchor_list};
ghost use Rattle.cpa_local.specs.Worked.{IsOffClocks};

use crate::anchor_list::AnchorList;
use cpa_clock::Anchor;
use cpa_model::{Activator, System};
use cpa_units::{ResId, SourceId, TaskId};

/// Where what a source sends is on its clock, so many ticks later.
fn anchor_after(system: &System, source: SourceId, late: u64) -> Option<Anchor>
    requires there { source.0 < length system.now.sources }
    requires late { late ≤ MAX_CHAIN * MAX_EXECUTION }
    ensures { result ≡ later_anchor late (source_anchor system.now source.0) }
{
    system.has_rules();
    match system.ticking(source) {
        None => None,
        Some(ticking) => Some(Anchor {
            clock: ticking.clock.0,
            offset: ticking.offset + late,
        }),
    }
}

/// Puts where a task's streams are on clocks, so many ticks later, behind what was found so far.
fn put_anchors(system: &System, task: TaskId, late: u64, found: &mut AnchorList)
    requires there { task.0 < length system.now.tasks }
    requires late { late + depth_of system.now task.0 * MAX_EXECUTION ≤ MAX_CHAIN * MAX_EXECUTION }
    requires room { length found.old + length (streams_of system.now task.0) ≤ MAX_STREAMS }
    ensures { found.new ≡ found.old ++ map (later_anchor late) (anchor_list system.now task.0) }
{
    system.has_rules();
    for after in system.task(task).after.as_slice() {
        match *after {
            Activator::Source(source) => found.push(anchor_after(system, source, late)),
            Activator::Task(earlier) => {
                let later = late + system.task(earlier).best;
                put_anchors(system, earlier, later, found);
            }
        }
    }
}

/// Finds where a task's streams are on clocks.
fn set_anchors(system: &System, task: TaskId, found: &mut AnchorList)
    requires there { task.0 < length system.now.tasks }
    ensures { found.new ≡ anchor_list system.now task.0 }
{
    system.has_rules();
    found.clear();
    put_anchors(system, task, 0, found);
}

/// Finds where the streams of a resource's tasks are on clocks, by the tasks' places. False where none is on one.
pub(crate) fn find_anchors(system: &System, res: ResId, anchors: &mut [AnchorList]) -> bool
    requires there { res.0 < length system.now.resources }
    requires long { length system.now.tasks ≤ length anchors.old }
    ensures found { (i : ℕ) → i < length system.now.tasks → (task_at system.now i).res.0 ≡ res.0 → slice_index_or anchors.new i [] ≡ anchor_list system.now i }
    ensures none { OnFalse result (IsOffClocks system.now res.0) }
    ensures long { length anchors.new ≡ length anchors.old }
{
    let mut some = false;
    for task in system.tasks_on(res) {
        let place = task.0 as usize;
        set_anchors(system, *task, &mut anchors[place]);
        if anchors[place].is_on_clock() {
            some = true;
        }
    }
    some
}

//! Whether what the entries of a draft have fits the kinds of their resources.

ghost use Rattle.std.specs.Prelude.{◌≡◌, ◌<◌, ◌-◌, ◌^◌, IfSome};
ghost use Rattle.cpa_draft.specs.First.{first_place};
ghost use Rattle.cpa_draft.specs.Names.{AreTables, kind_of};
ghost use Rattle.cpa_draft.specs.Refusals.{◌or_else◌, is_preemptive, is_tdma, is_can, is_fifo, is_ceiling, has_regions, resource_misfits, turn_misfits, payload_misfits, locks_misfit, task_misfits, is_crossed, misfit, crossed};

use crate::draft::{Draft, DraftLock, DraftResource, DraftTask, KindWord};
use crate::entry::{is_ceiling, is_fifo};
use crate::entry_checks::{refuse, refuse_at};
use crate::numbers::{may_be_within, natural_or};
use crate::refusal::{Part, Refusal};
use crate::tables::Tables;
use cpa_units::limits::MAX_PAYLOAD;

fn is_preemptive(kind: KindWord) -> bool
    ensures { result ≡ is_preemptive kind }
{
    match kind {
        KindWord::Preemptive => true,
        _ => false,
    }
}

fn is_tdma(kind: KindWord) -> bool
    ensures { result ≡ is_tdma kind }
{
    match kind {
        KindWord::Tdma => true,
        _ => false,
    }
}

fn is_can(kind: KindWord) -> bool
    ensures { result ≡ is_can kind }
{
    match kind {
        KindWord::Can => true,
        _ => false,
    }
}

fn misfits_resource(entry: &DraftResource) -> bool
    ensures { result ≡ resource_misfits entry.now }
{
    (entry.gap.is_some() && !is_tdma(entry.kind))
        || (entry.bit.is_some() && !is_can(entry.kind))
        || (entry.rate.is_some() && !is_fifo(entry.kind))
}

fn first_misfit_resource(entries: &[DraftResource]) -> Option<usize>
    ensures place { result ≡ first_place (λ k r. resource_misfits r) entries.now }
    ensures within { IfSome result (λ k. k < 2 ^ 64 - 1) }
{
    entries
        .iter()
        .enumerate()
        .position(|(_, entry)| misfits_resource(entry))
}

fn has_wrong_turn(kind: Option<KindWord>, task: &DraftTask) -> bool
    ensures { result ≡ turn_misfits kind task.now }
{
    match kind {
        Some(KindWord::Preemptive | KindWord::Can | KindWord::Ceiling) => task.priority.is_none()
            || task.slot.is_some(),
        Some(KindWord::Fifo) => task.priority.is_some() || task.slot.is_some(),
        _ => task.priority.is_some() || task.slot.is_none(),
    }
}

fn has_wrong_payload(kind: KindWord, payload: Option<i64>) -> bool
    ensures { result ≡ payload_misfits kind payload }
{
    match kind {
        KindWord::Can => !may_be_within(0, MAX_PAYLOAD, payload),
        KindWord::Fifo => false,
        _ => payload.is_some(),
    }
}

/// Whether a job may be preempted but for its regions.
fn has_regions(kind: KindWord) -> bool
    ensures { result ≡ has_regions kind }
{
    is_preemptive(kind) || is_ceiling(kind)
}

/// Whether there are critical sections where there are no ceilings.
fn locks_misfit(kind: KindWord, locks: &[DraftLock]) -> bool
    ensures { result ≡ locks_misfit kind locks.now }
{
    locks.len() > 0 && !is_ceiling(kind)
}

fn misfits_kind(kind: Option<KindWord>, task: &DraftTask) -> bool
    ensures { result ≡ task_misfits kind task.now }
{
    let word = kind.unwrap_or(KindWord::Preemptive);
    has_wrong_turn(kind, task)
        || has_wrong_payload(word, task.payload)
        || (task.extended.is_some() && !is_can(word))
        || (task.region.is_some() && !has_regions(word))
        || locks_misfit(word, task.locks.sections())
}

fn misfits_task(draft: &Draft, tables: &Tables, task: &DraftTask) -> bool
    requires { AreTables draft.now tables.now.resources tables.now.activities }
    ensures { result ≡ task_misfits (kind_of draft.now task.now.on) task.now }
{
    misfits_kind(tables.kind(draft, task.on.bytes()), task)
}

fn first_misfit_task(draft: &Draft, tables: &Tables, tasks: &[DraftTask]) -> Option<usize>
    requires { AreTables draft.now tables.now.resources tables.now.activities }
    ensures place { result ≡ first_place (λ k t. task_misfits (kind_of draft.now t.on) t) tasks.now }
    ensures within { IfSome result (λ k. k < 2 ^ 64 - 1) }
{
    tasks
        .iter()
        .enumerate()
        .position(|(_, task)| misfits_task(draft, tables, task))
}

/// Reason 9.
#[tactic(auto, unfolding(crate::specs::Refusals::misfit))]
pub(crate) fn refuse_misfit(draft: &Draft, tables: &Tables) -> Option<Refusal>
    requires { AreTables draft.now tables.now.resources tables.now.activities }
    ensures { result ≡ misfit draft.now }
{
    match first_misfit_resource(draft.resource_entries()) {
        Some(place) => refuse(9, Part::Resource, place),
        None => refuse_at(
            9,
            Part::Task,
            first_misfit_task(draft, tables, draft.task_entries()),
        ),
    }
}

/// Whether the least execution is above the greatest.
fn is_crossed(task: &DraftTask) -> bool
    ensures { result ≡ is_crossed task.now }
{
    task.best.is_some()
        && task.worst.is_some()
        && natural_or(0, task.worst) < natural_or(0, task.best)
}

fn first_crossed(tasks: &[DraftTask]) -> Option<usize>
    ensures place { result ≡ first_place (λ k t. is_crossed t) tasks.now }
    ensures within { IfSome result (λ k. k < 2 ^ 64 - 1) }
{
    tasks
        .iter()
        .enumerate()
        .position(|(_, task)| is_crossed(task))
}

/// Reason 10.
#[tactic(auto, unfolding(crate::specs::Refusals::crossed))]
pub(crate) fn refuse_crossed(draft: &Draft) -> Option<Refusal>
    ensures { result ≡ crossed draft.now }
{
    refuse_at(10, Part::Task, first_crossed(draft.task_entries()))
}

//! Priorities that are taken on the resources of a draft.

ghost use Rattle.std.specs.Prelude.{◌≡◌, ◌∷◌, ◌++◌, [], ◌<◌, ◌-◌, ◌^◌, take, true, false, not, Ok, IfOk, IfSome};
ghost use Rattle.std.specs.List.{list_any, filter_map};
ghost use Rattle.cpa_draft.specs.First.{first_place};
ghost use Rattle.cpa_draft.specs.Names.{AreTables};
ghost use Rattle.cpa_draft.specs.Refusals.{by_priority, rank_of, ranks_of, same_rank, is_taken, known_priority};

use crate::draft::{Draft, DraftTask, KindWord};
use crate::entry_checks::refuse_at;
use crate::numbers::natural;
use crate::refusal::{Part, Refusal};
use crate::tables::Tables;
use indexmap::IndexSet;
use std::alloc::{AllocError, Global};
use std::marker::Model;

/// Different ranks: places of resources, each with a priority.
#[derive(Drop)]
struct Ranks {
    set: IndexSet<(usize, u64)>,
}

impl Model for Ranks {
    ghost use Rattle.std.specs.Prelude.{List, ℕ};
    ghost use Rattle.indexmap.specs.IndexSet.{keys};

    ghost Value = { List (ℕ × ℕ) };

    ghost view = { λ n. n.set.keys };
}

impl Ranks {
    fn new(alloc: Global) -> Ranks
        ensures { result ≡ [] }
    {
        Ranks {
            set: IndexSet::new(alloc),
        }
    }

    /// Puts a rank at the end, unless the list has it, and says whether it was new.
    fn add(&mut self, rank: (usize, u64)) -> Result<bool, AllocError>
        ensures new { result ≡ Ok true → list_any (same_rank rank) self.old ≡ false }
        ensures added { result ≡ Ok true → self.new ≡ self.old ++ rank ∷ [] }
        ensures known { result ≡ Ok false → list_any (same_rank rank) self.old ≡ true }
    {
        let (_, new) = self.set.insert_full(rank)?;
        Ok(new)
    }

    /// Adds a rank, if there is one, and says whether it was free.
    fn take(&mut self, rank: Option<(usize, u64)>) -> Result<bool, AllocError>
        ensures free { result ≡ Ok true → is_taken rank self.old ≡ false }
        ensures added { result ≡ Ok true → self.new ≡ self.old ++ ranks_of rank }
        ensures taken { result ≡ Ok false → is_taken rank self.old ≡ true }
    {
        match rank {
            None => Ok(true),
            Some(rank) => self.add(rank),
        }
    }
}

/// Whether tasks have priorities on a resource of this kind.
fn is_by_priority(kind: Option<KindWord>) -> bool
    ensures { result ≡ by_priority kind }
{
    match kind {
        Some(KindWord::Preemptive) => true,
        Some(KindWord::Can) => true,
        Some(KindWord::Ceiling) => true,
        _ => false,
    }
}

/// The rank of a task that has a priority on a resource of such a kind.
fn rank_of(draft: &Draft, tables: &Tables, task: &DraftTask) -> Option<(usize, u64)>
    requires { AreTables draft.now tables.now.resources tables.now.activities }
    ensures { result ≡ rank_of draft.now task.now }
{
    let place = tables.resource(draft, task.on.bytes());
    if !is_by_priority(draft.kind_of(place)) {
        return None;
    }
    match task.priority {
        None => None,
        Some(number) => Some((place.unwrap_or(0), natural(number))),
    }
}

/// The first task whose rank an earlier one has.
fn first_known_rank(
    alloc: Global,
    draft: &Draft,
    tables: &Tables,
    tasks: &[DraftTask],
) -> Result<Option<usize>, AllocError>
    requires { AreTables draft.now tables.now.resources tables.now.activities }
    ensures place { IfOk result (λ r. r ≡ first_place (λ k t. is_taken (rank_of draft.now t) (filter_map (rank_of draft.now) (take k tasks.now))) tasks.now) }
    ensures within { IfOk result (λ r. IfSome r (λ k. k < 2 ^ 64 - 1)) }
{
    let mut ranks = Ranks::new(alloc);
    for (k, task) in tasks.iter().enumerate() {
        let rank = rank_of(draft, tables, task);
        if !ranks.take(rank)? {
            return Ok(Some(k));
        }
    }
    Ok(None)
}

/// Reason 8.
#[tactic(auto, unfolding(crate::specs::Refusals::known_priority))]
pub(crate) fn refuse_known_priority(
    alloc: Global,
    draft: &Draft,
    tables: &Tables,
) -> Result<Option<Refusal>, AllocError>
    requires { AreTables draft.now tables.now.resources tables.now.activities }
    ensures { IfOk result (λ r. r ≡ known_priority draft.now) }
{
    let place = first_known_rank(alloc, draft, tables, draft.task_entries())?;
    Ok(refuse_at(8, Part::Task, place))
}

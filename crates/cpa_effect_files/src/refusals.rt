//! Why a draft of chains is refused: the reasons in their order.

ghost use Rattle.std.specs.Prelude.{◌≡◌, ◌<◌, ◌-◌, ◌^◌, ◌∷◌, ◌++◌, [], map, not, is_none, length, nat_le, true, Ok, Some, IfOk, IfSome};
ghost use Rattle.std.specs.List.{list_any};
ghost use Rattle.std.specs.Option.{ForSome};
ghost use Rattle.std.specs.Str.{bytes_eq};
ghost use Rattle.cpa_units.specs.Name.{is_name};
ghost use Rattle.cpa_units.specs.declared.limits.TheConstants.{MAX_PERIOD};
ghost use Rattle.cpa_draft.specs.First.{first_place, first_known};
ghost use Rattle.cpa_draft.specs.Numbers.{may_be_within};
ghost use Rattle.cpa_trace.specs.Index.{IsIndex};
ghost use Rattle.cpa_effect_files.specs.Refusals.{refused_at, fits, is_unknown, by_entries, by_tasks, first_refusal};
ghost use Rattle.cpa_effects.specs.Calls.{is_count};
ghost use Rattle.cpa_effect_files.specs.Keys.{names_of};

use crate::draft::DraftChain;
use crate::refusal::ChainsRefusal;
use cpa_model::{Raw, System};
use cpa_trace::index::Index;
use cpa_units::limits::{MAX_CHAIN, MAX_PERIOD};
use cpa_units::{NoMemory, is_name};
use indexmap::IndexSet;
use std::alloc::Global;

/// The most chains of a file.
pub const MAX_CHAINS: u64 = 128;

/// The refusal of a reason at a place, which counts from 0.
fn refuse(reason: u8, place: usize) -> Option<ChainsRefusal>
    requires { place < 2 ^ 64 - 1 }
    ensures { result ≡ refused_at reason (Some place) }
{
    Some(ChainsRefusal {
        reason,
        place: place as u64 + 1,
    })
}

fn refuse_at(reason: u8, place: Option<usize>) -> Option<ChainsRefusal>
    requires { ForSome place (λ k. k < 2 ^ 64 - 1) }
    ensures { result ≡ refused_at reason place }
{
    match place {
        None => None,
        Some(place) => refuse(reason, place),
    }
}

/// Whether a number of ticks that may be absent is in the range of a deadline.
fn may_be_deadline(ticks: Option<i64>) -> bool
    ensures { result ≡ may_be_within 1 MAX_PERIOD ticks }
{
    match ticks {
        None => true,
        Some(ticks) => ticks >= 1 && ticks as u64 <= MAX_PERIOD,
    }
}

/// Whether a chain's deadlines are in their range.
fn fits(chain: &DraftChain) -> bool
    ensures { result ≡ fits chain.now }
{
    may_be_deadline(chain.reaction) && may_be_deadline(chain.age) && may_be_deadline(chain.held)
}

fn first_unfit(chains: &[DraftChain]) -> Option<usize>
    ensures place { result ≡ first_place (λ k c. not (fits c)) chains.now }
    ensures within { IfSome result (λ k. k < 2 ^ 64 - 1) }
{
    chains
        .iter()
        .enumerate()
        .position(|(_, chain)| !fits(chain))
}

fn first_unnamed(chains: &[DraftChain]) -> Option<usize>
    ensures place { result ≡ first_place (λ k c. not (is_name c.name)) chains.now }
    ensures within { IfSome result (λ k. k < 2 ^ 64 - 1) }
{
    chains
        .iter()
        .enumerate()
        .position(|(_, chain)| !is_name(chain.name.bytes()))
}

/// Puts a name into a set, unless it has it, and says whether it was new.
fn add_name(alloc: Global, names: &mut IndexSet<Vec<u8>>, name: &[u8]) -> Result<bool, NoMemory>
    ensures new { IfOk result (λ new. new ≡ not (list_any (bytes_eq name.now) (names_of names.old.keys))) }
    ensures added { result ≡ Ok true → names_of names.new.keys ≡ names_of names.old.keys ++ name.now ∷ [] }
{
    let name = Vec::from_slice(alloc, name)?;
    let (_, new) = names.insert_full(name)?;
    Ok(new)
}

/// The first chain with the name of an earlier one.
fn first_known(alloc: Global, chains: &[DraftChain]) -> Result<Option<usize>, NoMemory>
    ensures place { IfOk result (λ r. r ≡ first_known (λ c. c.name) [] chains.now) }
    ensures within { IfOk result (λ r. IfSome r (λ k. k < 2 ^ 64 - 1)) }
{
    let mut names = IndexSet::new(alloc);
    for (k, chain) in chains.iter().enumerate() {
        if !add_name(alloc, &mut names, chain.name.bytes())? {
            return Ok(Some(k));
        }
    }
    Ok(None)
}

/// Whether no task has a name.
fn is_unknown(system: &System, index: &Index, name: &[u8]) -> bool
    requires { IsIndex system.now index.now }
    ensures { result ≡ is_unknown system.now name.now }
{
    index.task(system, name).is_none()
}

fn has_unknown(system: &System, index: &Index, names: &[Raw]) -> bool
    requires { IsIndex system.now index.now }
    ensures { result ≡ list_any (is_unknown system.now) names.now }
{
    names
        .iter()
        .any(|name| is_unknown(system, index, name.bytes()))
}

fn first_unknown(system: &System, index: &Index, chains: &[DraftChain]) -> Option<usize>
    requires { IsIndex system.now index.now }
    ensures place { result ≡ first_place (λ k c. list_any (is_unknown system.now) c.tasks) chains.now }
    ensures within { IfSome result (λ k. k < 2 ^ 64 - 1) }
{
    chains.iter().enumerate().position(|(_, chain)| has_unknown(system, index, chain.tasks.names()))
}

/// Whether a chain may have so many tasks.
fn is_count(count: usize) -> bool
    ensures { result ≡ is_count count }
{
    0 < count && count as u64 <= MAX_CHAIN
}

fn first_miscounted(chains: &[DraftChain]) -> Option<usize>
    ensures place { result ≡ first_place (λ k c. not (is_count (length c.tasks))) chains.now }
    ensures within { IfSome result (λ k. k < 2 ^ 64 - 1) }
{
    chains
        .iter()
        .enumerate()
        .position(|(_, chain)| !is_count(chain.tasks.names().len()))
}

/// The first chain past the limit.
fn first_past(chains: &[DraftChain]) -> Option<usize>
    ensures place { result ≡ first_place (λ k c. nat_le MAX_CHAINS k) chains.now }
    ensures within { IfSome result (λ k. k < 2 ^ 64 - 1) }
{
    chains
        .iter()
        .enumerate()
        .position(|(k, _)| MAX_CHAINS <= k as u64)
}

/// Reasons 2 to 4.
#[tactic(auto, unfolding(crate::specs::Refusals::by_entries))]
fn refuse_entries(alloc: Global, chains: &[DraftChain]) -> Result<Option<ChainsRefusal>, NoMemory>
    ensures { IfOk result (λ r. r ≡ by_entries chains.now) }
{
    if let Some(place) = first_unfit(chains) {
        return Ok(refuse(2, place));
    }
    if let Some(place) = first_unnamed(chains) {
        return Ok(refuse(3, place));
    }
    let known = first_known(alloc, chains)?;
    Ok(refuse_at(4, known))
}

/// Reasons 5, 11 and 12.
#[tactic(auto, unfolding(crate::specs::Refusals::by_tasks))]
fn refuse_tasks(system: &System, index: &Index, chains: &[DraftChain]) -> Option<ChainsRefusal>
    requires { IsIndex system.now index.now }
    ensures { result ≡ by_tasks system.now chains.now }
{
    if let Some(place) = first_unknown(system, index, chains) {
        return refuse(5, place);
    }
    if let Some(place) = first_miscounted(chains) {
        return refuse(11, place);
    }
    refuse_at(12, first_past(chains))
}

/// The first reason that applies, with its first place.
#[tactic(auto, unfolding(crate::specs::Refusals::first_refusal))]
pub(crate) fn find_refusal(
    alloc: Global,
    system: &System,
    index: &Index,
    chains: &[DraftChain],
) -> Result<Option<ChainsRefusal>, NoMemory>
    requires { IsIndex system.now index.now }
    ensures { IfOk result (λ r. r ≡ first_refusal system.now chains.now) }
{
    if let Some(refusal) = refuse_entries(alloc, chains)? {
        return Ok(Some(refusal));
    }
    Ok(refuse_tasks(system, index, chains))
}

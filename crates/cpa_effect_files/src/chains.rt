//! The chains that a file stands for over a system.

ghost use Rattle.std.specs.Prelude.{◌≡◌, map, option_map, IfOk, IfErr};
ghost use Rattle.cpa_draft.specs.Numbers.{nat_of};
ghost use Rattle.cpa_trace.specs.Index.{IsIndex};
ghost use Rattle.cpa_effect_files.specs.Refusals.{first_refusal};
ghost use Rattle.cpa_effect_files.specs.Reading.{task_of, chain_of, by_refusal, reading_of, Accepted, IsFault};

use crate::draft::DraftChain;
use crate::read::read_draft;
use crate::refusal::ChainsFault;
use crate::refusals::find_refusal;
use cpa_draft::natural;
use cpa_file::{FileRefusal, read_document};
use cpa_model::{Raw, System};
use cpa_trace::index::Index;
use cpa_units::{NoMemory, TaskId};
use std::alloc::{AllocError, Global};
use std::marker::Model;

/// A chain of tasks of a system, with a name and deadlines.
#[derive(Drop)]
pub(crate) struct Chain {
    name: Raw,
    tasks: Vec<TaskId>,
    reaction: Option<u64>,
    age: Option<u64>,
    held: Option<u64>,
}

impl Model for Chain {
    ghost use Rattle.cpa_effect_files.specs.Chain.{Chain};

    ghost Value = { Chain };

    ghost view = { λ c. record { name = c.name; tasks = c.tasks.items; reaction = c.reaction; age = c.age; held = c.held } };
}

impl Chain {
    pub(crate) fn name(&self) -> &[u8]
        ensures { result.now ≡ self.now.name }
    {
        self.name.bytes()
    }

    pub(crate) fn tasks(&self) -> &[TaskId]
        ensures { result.now ≡ self.now.tasks }
    {
        self.tasks.as_slice()
    }

    /// The deadline of the reaction time.
    pub(crate) fn reaction(&self) -> Option<u64>
        ensures { result ≡ self.now.reaction }
    {
        self.reaction
    }

    /// The deadline of the data age.
    pub(crate) fn age(&self) -> Option<u64>
        ensures { result ≡ self.now.age }
    {
        self.age
    }

    /// The deadline of the time for which data is held.
    pub(crate) fn held(&self) -> Option<u64>
        ensures { result ≡ self.now.held }
    {
        self.held
    }
}

/// The task with a name.
fn task_of(system: &System, index: &Index, name: &[u8]) -> TaskId
    requires { IsIndex system.now index.now }
    ensures { result ≡ task_of system.now name.now }
{
    match index.task(system, name) {
        Some(task) => task,
        None => TaskId(0),
    }
}

fn find_tasks(
    alloc: Global,
    system: &System,
    index: &Index,
    names: &[Raw],
) -> Result<Vec<TaskId>, AllocError>
    requires { IsIndex system.now index.now }
    ensures { IfOk result (λ v. v.items ≡ map (task_of system.now) names.now) }
{
    names
        .iter()
        .map(|name| task_of(system, index, name.bytes()))
        .collect(alloc)
}

fn build_deadline(ticks: Option<i64>) -> Option<u64>
    ensures { result ≡ option_map nat_of ticks }
{
    match ticks {
        None => None,
        Some(ticks) => Some(natural(ticks)),
    }
}

fn build_chain(
    alloc: Global,
    system: &System,
    index: &Index,
    draft: &DraftChain,
) -> Result<Chain, NoMemory>
    requires { IsIndex system.now index.now }
    ensures { IfOk result (λ c. c ≡ chain_of system.now draft.now) }
{
    let name = Vec::from_slice(alloc, draft.name.bytes())?;
    let tasks = find_tasks(alloc, system, index, draft.tasks.names())?;
    Ok(Chain {
        name: Raw::new(name),
        tasks,
        reaction: build_deadline(draft.reaction),
        age: build_deadline(draft.age),
        held: build_deadline(draft.held),
    })
}

fn build_chains(
    alloc: Global,
    system: &System,
    index: &Index,
    drafts: &[DraftChain],
) -> Result<Vec<Chain>, NoMemory>
    requires { IsIndex system.now index.now }
    ensures { IfOk result (λ v. v.items ≡ map (chain_of system.now) drafts.now) }
{
    let mut built = Vec::new(alloc);
    for draft in drafts {
        built.push(build_chain(alloc, system, index, draft)?)?;
    }
    Ok(built)
}

/// The chains of a draft, to which no reason applies.
fn accept_drafts(
    alloc: Global,
    system: &System,
    drafts: &[DraftChain],
) -> Result<Vec<Chain>, ChainsFault>
    ensures ok { IfOk result (λ v. by_refusal system.now drafts.now (first_refusal system.now drafts.now) ≡ Accepted v.items) }
    ensures refused { IfErr result (λ e. IsFault e (by_refusal system.now drafts.now (first_refusal system.now drafts.now))) }
{
    let index = Index::of(alloc, system)?;
    if let Some(refusal) = find_refusal(alloc, system, &index, drafts)? {
        return Err(ChainsFault::Refused(refusal));
    }
    Ok(build_chains(alloc, system, &index, drafts)?)
}

/// The chains that the bytes of a file stand for.
#[tactic(auto, unfolding(crate::specs::Reading::reading_of))]
pub(crate) fn read_chains(
    alloc: Global,
    system: &System,
    bytes: &[u8],
) -> Result<Vec<Chain>, ChainsFault>
    ensures ok { IfOk result (λ v. reading_of system.now bytes.now ≡ Accepted v.items) }
    ensures refused { IfErr result (λ e. IsFault e (reading_of system.now bytes.now)) }
{
    let document = match read_document(alloc, bytes) {
        Ok(document) => document,
        Err(FileRefusal::NotToml) => return Err(ChainsFault::NotToml),
        Err(FileRefusal::TooLong) => unreachable!(),
        Err(FileRefusal::Refused(_)) => unreachable!(),
        Err(FileRefusal::Memory) => return Err(ChainsFault::Memory),
    };
    let drafts = read_draft(alloc, &document)?;
    accept_drafts(alloc, system, drafts.as_slice())
}

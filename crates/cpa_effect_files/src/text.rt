//! The text of the bounds of chains and the verdicts on their deadlines.

ghost use Rattle.std.specs.Prelude.{◌≡◌, ◌≤◌, ◌++◌, length, All, OnOk, IfOk};
ghost use Rattle.std.specs.List.{flat_map};
ghost use Rattle.cpa_local.specs.Solution.{IsVector};
ghost use Rattle.cpa_local.specs.Paths.{deadline_verdict_of, is_missed_by};
ghost use Rattle.cpa_effects.specs.ChainText.{premise};
ghost use Rattle.cpa_effect_files.specs.Reading.{IsChainIn};
ghost use Rattle.cpa_effect_files.specs.ChainsText.{verdict_text, held_text, chain_line, is_overloaded, is_late, totals, summary_line, chains_text, status_of, chains_status};

use crate::chains::Chain;
use cpa_call::errors::Reply;
use cpa_effects::{age, held, reaction};
use cpa_local::{DeadlineVerdict, deadline_verdict, is_overload};
use cpa_model::System;
use cpa_report::{put_bound, put_deadline, put_deadline_verdict};
use cpa_text::Text;
use cpa_units::{Bound, NoMemory, Vector};
use std::alloc::Global;

#[tactic(auto, unfolding(crate::specs::ChainsText::verdict_text))]
fn put_verdict(text: &mut Text, deadline: Option<u64>, bound: Bound) -> Result<(), NoMemory>
    ensures { OnOk result (text.new ≡ text.old ++ verdict_text deadline bound) }
{
    text.put(b" ")?;
    put_bound(text, bound)?;
    text.put(b" deadline ")?;
    put_deadline(text, deadline)?;
    text.put(b" ")?;
    put_deadline_verdict(text, deadline_verdict(deadline, bound))
}

/// The same of what is held, where there is a deadline for it.
#[tactic(auto, unfolding(crate::specs::ChainsText::held_text))]
fn put_held(text: &mut Text, deadline: Option<u64>, bound: Bound) -> Result<(), NoMemory>
    ensures { OnOk result (text.new ≡ text.old ++ held_text deadline bound) }
{
    match deadline {
        None => Ok(()),
        Some(deadline) => {
            text.put(b" held")?;
            put_verdict(text, Some(deadline), bound)
        }
    }
}

#[tactic(auto, unfolding(crate::specs::ChainsText::chain_line))]
fn put_chain(text: &mut Text, system: &System, x: &Vector, chain: &Chain) -> Result<(), NoMemory>
    requires chain { IsChainIn system.now chain.now }
    requires vector { IsVector system.now x.now }
    ensures { OnOk result (text.new ≡ text.old ++ chain_line system.now x.now chain.now) }
{
    let tasks = chain.tasks();
    text.put(b"chain ")?;
    text.put(chain.name())?;
    text.put_count(b" tasks ", tasks.len() as u64)?;
    text.put(b" reaction")?;
    put_verdict(text, chain.reaction(), reaction(system, x, tasks))?;
    text.put(b" age")?;
    put_verdict(text, chain.age(), age(system, x, tasks))?;
    put_held(text, chain.held(), held(system, x, tasks))?;
    text.put(b"\n")?;
    Ok(())
}

fn put_chains(
    text: &mut Text,
    system: &System,
    x: &Vector,
    chains: &[Chain],
) -> Result<(), NoMemory>
    requires chains { All (IsChainIn system.now) chains.now }
    requires vector { IsVector system.now x.now }
    ensures { OnOk result (text.new ≡ text.old ++ flat_map (chain_line system.now x.now) chains.now) }
{
    for k in 0..chains.len() {
        put_chain(text, system, x, &chains[k])?;
    }
    Ok(())
}

/// Whether a bound of a chain is missing.
fn is_overloaded(system: &System, x: &Vector, chain: &Chain) -> bool
    requires chain { IsChainIn system.now chain.now }
    requires vector { IsVector system.now x.now }
    ensures { result ≡ is_overloaded system.now x.now chain.now }
{
    let tasks = chain.tasks();
    is_overload(reaction(system, x, tasks)) || is_overload(age(system, x, tasks))
}

fn is_missed(deadline: Option<u64>, bound: Bound) -> bool
    ensures { result ≡ is_missed_by (deadline_verdict_of deadline bound) }
{
    match deadline_verdict(deadline, bound) {
        DeadlineVerdict::Missed => true,
        DeadlineVerdict::Met | DeadlineVerdict::Unknown | DeadlineVerdict::NoDeadline => false,
    }
}

/// Whether a deadline of a chain is missed.
fn is_late(system: &System, x: &Vector, chain: &Chain) -> bool
    requires chain { IsChainIn system.now chain.now }
    requires vector { IsVector system.now x.now }
    ensures { result ≡ is_late system.now x.now chain.now }
{
    let tasks = chain.tasks();
    is_missed(chain.reaction(), reaction(system, x, tasks))
        || is_missed(chain.age(), age(system, x, tasks))
        || is_missed(chain.held(), held(system, x, tasks))
}

/// How many chains lack a bound, and how many miss a deadline.
#[derive(Clone, Copy)]
struct Totals {
    overload: u64,
    missed: u64,
}

#[tactic(auto, unfolding(crate::specs::ChainsText::totals))]
fn count(system: &System, x: &Vector, chains: &[Chain]) -> Totals
    requires chains { All (IsChainIn system.now) chains.now }
    requires vector { IsVector system.now x.now }
    ensures { result ≡ totals system.now x.now chains.now }
{
    let mut overload = 0;
    let mut missed = 0;
    for k in 0..chains.len() {
        if is_overloaded(system, x, &chains[k]) {
            overload += 1;
        }
        if is_late(system, x, &chains[k]) {
            missed += 1;
        }
    }
    Totals { overload, missed }
}

#[tactic(auto, unfolding(crate::specs::ChainsText::summary_line))]
fn put_summary(text: &mut Text, count: u64, totals: Totals) -> Result<(), NoMemory>
    ensures { OnOk result (text.new ≡ text.old ++ summary_line count totals) }
{
    text.put_count(b"summary chains ", count)?;
    text.put_count(b" overload ", totals.overload)?;
    text.put_count(b" missed ", totals.missed)?;
    text.put(b" if sources stay near\n")?;
    Ok(())
}

fn status_of(totals: Totals) -> u8
    ensures value { result ≡ status_of totals }
    ensures small { result ≤ 2 }
{
    if totals.overload > 0 {
        2
    } else if totals.missed > 0 {
        1
    } else {
        0
    }
}

/// The text of the bounds of chains at a vector, and its status.
#[tactic(auto, unfolding(crate::specs::ChainsText::chains_text))]
pub(crate) fn chain_verdicts(
    alloc: Global,
    system: &System,
    x: &Vector,
    chains: &[Chain],
) -> Result<Reply, NoMemory>
    requires chains { All (IsChainIn system.now) chains.now }
    requires vector { IsVector system.now x.now }
    ensures text { IfOk result (λ r. r.text.items ≡ chains_text system.now x.now chains.now) }
    ensures status { IfOk result (λ r. r.status ≡ chains_status system.now x.now chains.now) }
    ensures small { IfOk result (λ r. r.status ≤ 2) }
{
    let totals = count(system, x, chains);
    let mut text = Text::new(alloc);
    put_chains(&mut text, system, x, chains)?;
    put_summary(&mut text, chains.len() as u64, totals)?;
    Ok(Reply {
        status: status_of(totals),
        text: text.into_bytes(),
    })
}

//! The longest chain up to each task of a draft.
//!
//! The search follows activators from a task until each that it meets is known. The tasks between wait on a stack, so
//! a task that is met while it waits leads back to itself.

ghost use Rattle.std.specs.Prelude.{◌≡◌, ◌+◌, ◌-◌, ◌<◌, ◌≤◌, ◌^◌, ℕ, [], length, slice_index_or, true, false, Ok, None, Some, IfOk, IfSome};
ghost use Rattle.cpa_draft.specs.First.{first_place};
ghost use Rattle.cpa_draft.specs.Chains.{chain_within, first_longer};
ghost use Rattle.cpa_draft.specs.Search.{AreWithin, KnowsChains, NoneOpen, StayKnown, IsKnown, AreAllKnown, is_longer, next_task, next_link, seen_more, new_visit};
ghost use Rattle.cpa_units.specs.declared.limits.TheConstants.{MAX_CHAIN};

use crate::links::{Link, Links, links_at};
use cpa_units::limits::MAX_CHAIN;
use std::alloc::{AllocError, Global};

/// What is known of the longest chain up to a task.
#[derive(Clone, Copy)]
pub enum Mark {
    New,
    /// The task waits for its activators, above so many others.
    Open(usize),
    /// The number of tasks.
    Known(usize),
}

/// A task that waits for its activators.
#[derive(Clone, Copy)]
pub struct Visit {
    pub task: usize,
    /// How many of its activators have been looked at.
    pub seen: usize,
    /// The number of tasks of the longest chain up to the task over those.
    pub longest: usize,
}

/// What the next activator of a task gives.
#[derive(Clone, Copy)]
pub enum Next {
    /// There is none.
    Done,
    /// It leads to no source.
    Endless,
    /// A chain of so many tasks.
    Chain(usize),
    /// A task that isn't known yet.
    Unknown(usize),
}

impl Visit {
    ghost use Rattle.std.specs.Prelude.{◌≡◌, ◌<◌, ◌-◌, ◌^◌};
    ghost use Rattle.cpa_draft.specs.Search.{seen_more, new_visit};

    fn new(task: usize) -> Visit
        ensures { result ≡ new_visit task }
    {
        Visit {
            task,
            seen: 0,
            longest: 1,
        }
    }

    /// With one more activator looked at.
    fn with_seen(&self, tasks: usize) -> Visit
        requires { self.now.seen < 2 ^ 64 - 1 }
        ensures { result ≡ seen_more self.now tasks }
    {
        Visit {
            task: self.task,
            seen: self.seen + 1,
            longest: self.longest.max(tasks),
        }
    }
}

fn mark_at(marks: &[Mark], task: usize) -> Mark
    ensures { result ≡ slice_index_or marks.now task Mark.New }
{
    match marks.get(task) {
        Some(mark) => *mark,
        None => Mark::New,
    }
}

fn next_task(task: usize, mark: Mark) -> Next
    requires { (n : ℕ) → mark ≡ Mark.Known n → n < 2 ^ 64 - 1 }
    ensures { result ≡ next_task task mark }
{
    match mark {
        Mark::New => Next::Unknown(task),
        Mark::Open(_) => Next::Endless,
        Mark::Known(tasks) => Next::Chain(tasks + 1),
    }
}

fn next_link(marks: &[Mark], link: Link) -> Next
    requires { (i n : ℕ) → slice_index_or marks.now i Mark.New ≡ Mark.Known n → n < 2 ^ 64 - 1 }
    ensures { result ≡ next_link marks.now link }
{
    match link {
        Link::Nothing => Next::Endless,
        Link::Source => Next::Chain(1),
        Link::Task(task) => next_task(task, mark_at(marks, task)),
    }
}

/// What the activator at a place gives.
fn next_of(marks: &[Mark], activators: &[Link], place: usize) -> Next
    requires { (i n : ℕ) → slice_index_or marks.now i Mark.New ≡ Mark.Known n → n < 2 ^ 64 - 1 }
    ensures there { place < length activators.now → result ≡ next_link marks.now (slice_index_or activators.now place Link.Source) }
    ensures done { length activators.now ≤ place → result ≡ Next.Done }
{
    match activators.get(place) {
        Some(link) => next_link(marks, *link),
        None => Next::Done,
    }
}

/// Follows activators from a new task, and says whether each way ends at a source. Then its chain is known.
fn measure_new(
    alloc: Global,
    links: &[Links],
    marks: &mut [Mark],
    first: usize,
) -> Result<bool, AllocError>
    requires within { AreWithin links.now }
    requires count { length marks.old ≡ length links.now }
    requires known { KnowsChains links.now marks.old }
    requires none_open { NoneOpen marks.old }
    requires first { first < length links.now }
    requires new { slice_index_or marks.old first Mark.New ≡ Mark.New }
    ensures endless { result ≡ Ok false → chain_within links.now (length links.now) first ≡ None }
    ensures known { result ≡ Ok true → KnowsChains links.now marks.new }
    ensures none_open { result ≡ Ok true → NoneOpen marks.new }
    ensures first { result ≡ Ok true → IsKnown (slice_index_or marks.new first Mark.New) }
    ensures stay { StayKnown marks.old marks.new }
{
    let mut below: Vec<Visit> = Vec::new(alloc);
    let mut visit = Visit::new(first);
    marks[first] = Mark::Open(0);
    'walk: loop {
        match next_of(marks, links_at(links, visit.task), visit.seen) {
            Next::Endless => return Ok(false),
            Next::Chain(tasks) => visit = visit.with_seen(tasks),
            Next::Unknown(task) => {
                below.push(visit)?;
                visit = Visit::new(task);
                marks[task] = Mark::Open(below.len());
            }
            Next::Done => {
                marks[visit.task] = Mark::Known(visit.longest);
                match below.pop() {
                    None => return Ok(true),
                    Some(under) => visit = under,
                }
            }
        }
    }
}

/// Whether each way from a task ends at a source. Then its chain is known.
fn measure_chain(
    alloc: Global,
    links: &[Links],
    marks: &mut [Mark],
    task: usize,
) -> Result<bool, AllocError>
    requires within { AreWithin links.now }
    requires count { length marks.old ≡ length links.now }
    requires known { KnowsChains links.now marks.old }
    requires none_open { NoneOpen marks.old }
    requires task { task < length links.now }
    ensures endless { result ≡ Ok false → chain_within links.now (length links.now) task ≡ None }
    ensures known { result ≡ Ok true → KnowsChains links.now marks.new }
    ensures none_open { result ≡ Ok true → NoneOpen marks.new }
    ensures task { result ≡ Ok true → IsKnown (slice_index_or marks.new task Mark.New) }
    ensures stay { StayKnown marks.old marks.new }
{
    match mark_at(marks, task) {
        Mark::New => measure_new(alloc, links, marks, task),
        _ => Ok(true),
    }
}

/// The first task that leads to no source. Where there is none, all chains are known.
pub(crate) fn measure_chains(
    alloc: Global,
    links: &[Links],
    marks: &mut [Mark],
) -> Result<Option<usize>, AllocError>
    requires within { AreWithin links.now }
    requires count { length marks.old ≡ length links.now }
    requires known { KnowsChains links.now marks.old }
    requires none_open { NoneOpen marks.old }
    ensures place { IfOk result (λ r. r ≡ first_longer links.now (length links.now)) }
    ensures known { result ≡ Ok None → KnowsChains links.now marks.new }
    ensures all { result ≡ Ok None → AreAllKnown links.now marks.new }
    ensures below { IfOk result (λ r. IfSome r (λ k. k < 2 ^ 64 - 1)) }
{
    for task in 0..links.len() {
        if !measure_chain(alloc, links, marks, task)? {
            return Ok(Some(task));
        }
    }
    Ok(None)
}

fn is_long(mark: Mark) -> bool
    ensures { result ≡ is_longer MAX_CHAIN mark }
{
    match mark {
        Mark::Known(tasks) => tasks as u64 > MAX_CHAIN,
        _ => false,
    }
}

fn first_above(marks: &[Mark]) -> Option<usize>
    ensures place { result ≡ first_place (λ k mark. is_longer MAX_CHAIN mark) marks.now }
    ensures within { IfSome result (λ k. k < 2 ^ 64 - 1) }
{
    marks
        .iter()
        .enumerate()
        .position(|(_, mark)| is_long(*mark))
}

/// The first task up to which a chain has too many tasks.
pub(crate) fn first_long(links: &[Links], marks: &[Mark]) -> Option<usize>
    requires known { KnowsChains links.now marks.now }
    requires all { AreAllKnown links.now marks.now }
    requires count { length marks.now ≡ length links.now }
    ensures place { result ≡ first_longer links.now MAX_CHAIN }
    ensures within { IfSome result (λ k. k < 2 ^ 64 - 1) }
{
    first_above(marks)
}

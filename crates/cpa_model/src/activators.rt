//! What starts the jobs of a task.

ghost use Rattle.std.specs.Prelude.{◌≡◌, ◌<◌, ◌≤◌, ◌++◌, [], ◌∷◌, length, map, slice_get, Some, None};
ghost use Rattle.std.specs.Option.{ForSome};
ghost use Rattle.std.specs.List.{list_any};
ghost use Rattle.cpa_model.specs.declared.activators.TheConstants.{MAX_ACTIVATORS};
ghost use Rattle.cpa_model.specs.SystemLists.{is_source, is_task};
ghost use Rattle.cpa_model.specs.Changes.{activator_without};

use crate::changes::activator_without;
use crate::entries::Activator;
use cpa_units::{SourceId, TaskId};
use std::marker::Model;

/// The most activators of a task.
pub const MAX_ACTIVATORS: usize = 32;

/// A list of 1 to 32 activators. Contracts see that list.
#[derive(Debug, Drop)]
pub struct Activators {
    len: u32,
    held: [Activator; MAX_ACTIVATORS],
}

impl Model for Activators {
    ghost use Rattle.std.specs.Prelude.{◌≡◌, ◌≤◌, List, length, take};
    ghost use Rattle.cpa_model.specs.declared.entries.Activator.{Activator};

    ghost Value = { List Activator };

    ghost view = { λ a. take a.len a.held };

    ghost invariant = { λ a. (1 ≤ a.len) × (a.len ≤ 32) × (length a.held ≡ 32) };
}

impl Activators {
    /// The list of one activator.
    pub fn one(after: Activator) -> Activators
        ensures { result ≡ after ∷ [] }
    {
        Activators {
            len: 1,
            held: [after; MAX_ACTIVATORS],
        }
    }

    /// The same list once more.
    pub fn duplicate(&self) -> Activators
        ensures { result ≡ self.now }
    {
        Activators {
            len: self.len,
            held: self.held,
        }
    }

    /// How many activators there are.
    pub fn len(&self) -> u32
        ensures value { result ≡ length self.now }
        ensures some { 1 ≤ result }
        ensures few { result ≤ MAX_ACTIVATORS }
    {
        self.len
    }

    /// An activator by its place.
    pub fn get(&self, k: u32) -> Activator
        requires { k < length self.now }
        ensures { slice_get self.now k ≡ Some result }
    {
        self.held[k as usize]
    }

    /// Adds an activator at the end.
    pub fn push(&mut self, after: Activator)
        requires { length self.old < MAX_ACTIVATORS }
        ensures { self.new ≡ self.old ++ after ∷ [] }
    {
        self.held[self.len as usize] = after;
        self.len += 1;
    }

    /// The activator of a task that has one alone, and `None` where there are several.
    #[inline(always)]
    pub fn only(&self) -> Option<Activator>
        ensures alone { ForSome result (λ a. self.now ≡ a ∷ []) }
        ensures several { result ≡ None → 1 < length self.now }
    {
        if self.len == 1 {
            Some(self.held[0])
        } else {
            None
        }
    }

    /// All of them, to go over them in their order.
    pub fn as_slice(&self) -> &[Activator]
        ensures value { result.now ≡ self.now }
        ensures some { 1 ≤ length result.now }
        ensures few { length result.now ≤ MAX_ACTIVATORS }
    {
        &self.held[..self.len as usize]
    }

    /// Whether a source is among them.
    pub fn has_source(&self, source: SourceId) -> bool
        ensures { result ≡ list_any (is_source source.0) self.now }
    {
        for after in self.as_slice() {
            if is_source(source, *after) {
                return true;
            }
        }
        false
    }

    /// Whether a task is among them.
    pub fn has_task(&self, task: TaskId) -> bool
        ensures { result ≡ list_any (is_task task.0) self.now }
    {
        for after in self.as_slice() {
            if is_task(task, *after) {
                return true;
            }
        }
        false
    }

    /// What the activators are once a task is gone.
    pub(crate) fn close_up(&mut self, removed: TaskId)
        ensures { self.new ≡ map (activator_without removed.0) self.old }
    {
        if self.len < 2 {
            self.held[0] = activator_without(removed, self.held[0]);
        } else {
            close_up_activators(&mut self.held, removed);
        }
    }
}

/// What activators are once a task is gone.
fn close_up_activators(list: &mut [Activator], removed: TaskId)
    ensures { list.new ≡ map (activator_without removed.0) list.old }
{
    for after in list.iter_mut() {
        *after = activator_without(removed, *after);
    }
}

/// Whether an activator is a source.
fn is_source(source: SourceId, after: Activator) -> bool
    ensures { result ≡ is_source source.0 after }
{
    match after {
        Activator::Source(other) => other.0 == source.0,
        Activator::Task(_) => false,
    }
}

/// Whether an activator is a task.
fn is_task(task: TaskId, after: Activator) -> bool
    ensures { result ≡ is_task task.0 after }
{
    match after {
        Activator::Source(_) => false,
        Activator::Task(other) => other.0 == task.0,
    }
}

//! The vectors at which resources were analysed.

ghost use Rattle.std.specs.Prelude.{◌≡◌, ◌<◌, ℕ, length, replicate, slice_set, IfOk, None, Some, false, MatchOption, List, ◌++◌, ◌∷◌, []};
ghost use Rattle.std.specs.Result.{OnOk};
ghost use Rattle.cpa_units.specs.Sets.{holds, Members};
ghost use Rattle.cpa_units.specs.declared.bound.Bound.{Bound};
ghost use Rattle.cpa_fix.specs.Readings.{reading_of, AreSound};
ghost use Rattle.cpa_fix.specs.declared.readings.Reading.{Reading};

use cpa_model::System;
use cpa_units::{NoMemory, ResId, ResSet, Vector};
use std::alloc::Global;
use std::marker::Model;

/// The vector at which a resource was analysed.
#[derive(Debug, Drop)]
pub struct Reading {
    pub seen: Vector,
}

/// A reading, if there is one, of each resource.
#[derive(Debug, Drop)]
pub struct Readings {
    kept: Vec<Option<Reading>>,
}

impl Model for Readings {
    ghost use Rattle.std.specs.Prelude.{List, Option, length, ◌≤◌};
    ghost use Rattle.cpa_fix.specs.declared.readings.Reading.{Reading};

    ghost Value = { List (Option Reading) };

    ghost view = { λ r. r.kept.items };

    ghost invariant = { λ r. length r.kept.items ≤ 128 };
}

/// Adds an entry at the end.
fn push(kept: &mut Vec<Option<Reading>>, reading: Option<Reading>) -> Result<(), NoMemory>
    ensures { OnOk result (kept.new.items ≡ kept.old.items ++ reading ∷ []) }
{
    match kept.push(reading) {
        Ok(()) => Ok(()),
        Err(refused) => Err(refused.into()),
    }
}

impl Readings {
    /// No reading of any resource, which is sound at every vector.
    pub fn none(alloc: Global, system: &System) -> Result<Readings, NoMemory>
        ensures value { IfOk result (λ kept. kept ≡ replicate (length system.now.resources) None) }
        ensures sound { IfOk result (λ kept. (x : List Bound) → AreSound system.now kept x) }
    {
        let count = system.resources();
        let mut kept = Vec::new(alloc);
        for _ in 0..count {
            push(&mut kept, None)?;
        }
        Ok(Readings { kept })
    }

    /// Equal readings.
    pub fn copy(&self, alloc: Global) -> Result<Readings, NoMemory>
        ensures { IfOk result (λ kept. kept ≡ self.now) }
    {
        let mut kept = Vec::new(alloc);
        for reading in &self.kept {
            let copied = match reading {
                None => None,
                Some(reading) => Some(Reading {
                    seen: reading.seen.copy(alloc)?,
                }),
            };
            push(&mut kept, copied)?;
        }
        Ok(Readings { kept })
    }

    /// The reading of a resource, whose place is below the number of resources; none exactly where no
    /// reading of it is kept.
    pub fn get(&self, res: ResId) -> Option<&Reading>
        requires { res.0 < length self.now }
        ensures { MatchOption result (reading_of self.now res.0 ≡ None) (λ reading. reading_of self.now res.0 ≡ Some reading.now) }
    {
        self.kept[res.0 as usize].as_ref()
    }

    /// Takes the reading of a resource, whose place is below the number of resources, out, if there is one.
    pub fn take(&mut self, res: ResId) -> Option<Reading>
        requires { res.0 < length self.old }
        ensures taken { result ≡ reading_of self.old res.0 }
        ensures left { self.new ≡ slice_set self.old res.0 None }
    {
        self.kept[res.0 as usize].take()
    }

    /// Keeps this reading of a resource, whose place is below the number of resources, in place of the
    /// one before.
    pub fn put(&mut self, res: ResId, reading: Reading)
        requires { res.0 < length self.old }
        ensures { self.new ≡ slice_set self.old res.0 (Some reading) }
    {
        self.kept[res.0 as usize] = Some(reading);
    }

    /// Forgets the readings of all members, and of no other resource.
    pub fn forget(&mut self, set: ResSet)
        requires { (r : ℕ) → Members set r → r < length self.old }
        ensures long { length self.new ≡ length self.old }
        ensures gone { (r : ℕ) → Members set r → reading_of self.new r ≡ None }
        ensures same { (r : ℕ) → holds set r ≡ false → reading_of self.new r ≡ reading_of self.old r }
    {
        for place in 0..self.kept.len() {
            if set.has(ResId(place as u32)) {
                self.kept[place] = None;
            }
        }
    }

    /// Takes over each reading of some others, of the same system.
    pub fn take_over(&mut self, others: Readings)
        requires { length others ≡ length self.old }
        ensures long { length self.new ≡ length self.old }
        ensures taken { (r : ℕ) (reading : Reading) → reading_of others r ≡ Some reading → reading_of self.new r ≡ Some reading }
        ensures same { (r : ℕ) → reading_of others r ≡ None → reading_of self.new r ≡ reading_of self.old r }
    {
        let mut all = others.kept;
        for place in 0..all.len() {
            if let Some(reading) = all[place].take() {
                self.kept[place] = Some(reading);
            }
        }
    }
}

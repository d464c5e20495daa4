//! A bound per task.

ghost use Rattle.std.specs.Prelude.{◌≡◌, ◌<◌, length, replicate, slice_set, IfOk};
ghost use Rattle.cpa_units.specs.Bounds.{bound_of};

use crate::bound::Bound;
use crate::places::{NoMemory, TaskId};
use std::alloc::Global;
use std::marker::Model;

/// A list of bounds, one per task.
#[derive(Debug, Drop)]
pub struct Vector {
    bounds: Vec<Bound>,
}

impl Model for Vector {
    ghost use Rattle.std.specs.Prelude.{◌<◌, ◌^◌, List, length};
    ghost use Rattle.cpa_units.specs.declared.bound.Bound.{Bound};

    ghost Value = { List Bound };

    ghost view = { λ v. v.bounds.items };

    ghost invariant = { λ v. length v.bounds.items < 2 ^ 32 };
}

impl Vector {
    /// As many copies of one bound.
    pub fn filled(alloc: Global, len: u32, value: Bound) -> Result<Vector, NoMemory>
        ensures { IfOk result (λ v. v ≡ replicate len value) }
    {
        let bounds = vec![in alloc; value; len as usize]?;
        Ok(Vector { bounds })
    }

    /// An equal vector.
    pub fn copy(&self, alloc: Global) -> Result<Vector, NoMemory>
        ensures { IfOk result (λ v. v ≡ self.now) }
    {
        let bounds = Vec::from_slice(alloc, self.bounds.as_slice())?;
        Ok(Vector { bounds })
    }

    pub fn len(&self) -> u32
        ensures { result ≡ length self.now }
    {
        self.bounds.len() as u32
    }

    pub fn get(&self, task: TaskId) -> Bound
        requires { task.0 < length self.now }
        ensures { result ≡ bound_of self.now task.0 }
    {
        self.bounds[task.0 as usize]
    }

    /// Changes one entry and no other.
    pub fn set(&mut self, task: TaskId, value: Bound)
        requires { task.0 < length self.old }
        ensures { self.new ≡ slice_set self.old task.0 value }
    {
        self.bounds[task.0 as usize] = value;
    }

    /// Takes over all entries of a vector of the same length.
    pub fn assign(&mut self, other: &Vector)
        requires { length other.now ≡ length self.old }
        ensures { self.new ≡ other.now }
    {
        self.bounds
            .as_mut_slice()
            .copy_from_slice(other.bounds.as_slice());
    }
}

//! Which resources read which: the dependencies between tasks, as compositional performance analysis
//! has them (SymTA/S, pyCPA), by resources.
//!
//! A resource reads those whose bounds its own analysis needs: along the chains of its tasks. What
//! reads it, directly or through others, is its cone.
#![tactic(auto)]

mod chains;
mod cones;

pub use chains::{has_cyclic_chain, reads, reads_of_all};
pub use cones::{cone, cone_by};

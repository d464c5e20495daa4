//! The resources that read some others, directly or through others.

ghost use Rattle.std.specs.Prelude.{◌<◌, ◌≤◌, ℕ, ◌↔◌, IsTrue, length, MatchOption};
ghost use Rattle.cpa_units.specs.Sets.{Members};
ghost use Rattle.cpa_depend.specs.Cone.{AreReads, InCone, IsClosedUnder, IsWiderWithin};

use crate::chains::reads_of_all;
use cpa_model::System;
use cpa_units::{ResId, ResSet};

/// The set with resources that read a member; none where each such resource is a member.
fn widened(system: &System, reads: &[ResSet; 128], set: ResSet) -> Option<ResSet>
    requires reads { AreReads system.now reads.now }
    ensures { MatchOption result (IsClosedUnder system.now set) (λ wider. IsWiderWithin system.now set wider) }
{
    let count = system.resources();
    let mut wider = set;
    let mut grown = false;
    for place in 0..count {
        let res = ResId(place);
        if !wider.has(res) && reads[place as usize].meets(wider) {
            wider = wider.with(res);
            grown = true;
        }
    }
    if grown { Some(wider) } else { None }
}

/// Exactly the resources that read one of `from`, directly or through others, and those of `from`.
/// All are places below the number of resources.
pub fn cone(system: &System, from: ResSet) -> ResSet
    requires { (r : ℕ) → Members from r → r < length system.now.resources }
    ensures { (r : ℕ) → Members result r ↔ InCone system.now (Members from) r }
{
    cone_by(system, &reads_of_all(system), from)
}

/// The same, by a table of what each resource reads.
pub fn cone_by(system: &System, reads: &[ResSet; 128], from: ResSet) -> ResSet
    requires reads { AreReads system.now reads.now }
    requires from { (r : ℕ) → Members from r → r < length system.now.resources }
    ensures { (r : ℕ) → Members result r ↔ InCone system.now (Members from) r }
{
    let mut set = from;
    'passes: while let Some(wider) = widened(system, reads, set) {
        set = wider;
    }
    set
}

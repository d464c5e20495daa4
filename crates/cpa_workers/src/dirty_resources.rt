//! The resources that a round analyses.

ghost use Rattle.std.specs.Prelude.{ℕ, ◌<◌, length};
ghost use Rattle.cpa_units.specs.Sets.{Members};

use cpa_model::System;
use cpa_units::ResSet;

/// Resources of a system, which a round is to analyse.
#[derive(Drop)]
pub struct DirtyResources<'a> {
    pub system: &'a System,
    pub set: ResSet,
    ghost in_range: { (r : ℕ) → Members set r → r < length system.now.resources },
}

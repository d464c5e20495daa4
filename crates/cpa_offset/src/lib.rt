//! The response-time bound of a task under preemptive priority, where streams have offsets on the
//! clocks that they share.
//!
//! Streams of one clock can't all come at once, so a busy window is looked at from each candidate of the
//! critical instant: the moments of the task's own clock at which an event of the task itself or of a
//! higher one on its clock comes as late as it can. Streams of each other clock are taken as they ask for
//! most (Tindell, "Adding time-offsets to schedulability analysis", 1994; Palencia and González
//! Harbour, "Schedulability analysis for tasks with static and dynamic offsets", 1998). All times
//! are in ticks.
#![tactic(auto)]

ghost use Rattle.cpa_offset.specs.Laws.{StartsAreEnough, OffsetBoundsGrow, OffsetBoundsAreInRange, NeverAbovePlain, AloneIsPlain, OthersGrow, OthersAreFewer, ApartBoundsGrow};

mod bound;
mod candidates;
mod idle;
mod jobs;

pub use bound::{respond, respond_apart};
pub use candidates::{FromMoment, greatest_from_candidates};

/// Some candidate gives the bound; it grows with what it is computed from, lies from the execution to the limit, is
/// never above the bound without offsets, and is that bound where the task has no higher one on its clock.
pub fn bounds_have_laws()
    ensures starts { StartsAreEnough }
    ensures grow { OffsetBoundsGrow }
    ensures in_range { OffsetBoundsAreInRange }
    ensures below { NeverAbovePlain }
    ensures alone { AloneIsPlain }
    ensures others_grow { OthersGrow }
    ensures others_below { OthersAreFewer }
    ensures apart { ApartBoundsGrow }
{}

//! The response-time bound of a frame on a CAN bus, where streams have offsets on the clocks that they share.
//!
//! As under preemptive priority, a busy window is looked at from each candidate of the critical instant
//! (Tindell, "Adding time-offsets to schedulability analysis", 1994; Palencia and González Harbour,
//! "Schedulability analysis for tasks with static and dynamic offsets", 1998), and in it each frame
//! (Davis, Burns, Bril and Lukkien, "Controller Area Network (CAN) schedulability analysis: Refuted,
//! revisited and revised", 2007). All times are in ticks.
#![tactic(auto)]

ghost use Rattle.cpa_offset_can.specs.Laws.{CanStartsAreEnough, CanOffsetBoundsGrow, CanOffsetBoundsAreInRange, CanNeverAbovePlain, CanAloneIsPlain, CanApartBoundsGrow};

mod bound;
mod frames;
mod own;

pub use bound::{respond, respond_apart};

/// Some candidate gives the bound; it grows with what it is computed from, lies from the length of the frame to the
/// limit, is never above the bound without offsets, and is that bound where the frame has no higher one on its clock.
pub fn bounds_have_laws()
    ensures starts { CanStartsAreEnough }
    ensures grow { CanOffsetBoundsGrow }
    ensures in_range { CanOffsetBoundsAreInRange }
    ensures below { CanNeverAbovePlain }
    ensures alone { CanAloneIsPlain }
    ensures apart { CanApartBoundsGrow }
{}

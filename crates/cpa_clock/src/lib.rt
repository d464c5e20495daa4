//! The bounds of tasks whose inputs, or whose rivals' inputs, are on clocks.
//!
//! An input has several streams, and each of them is on a clock, at an offset, or on none. What the rivals
//! of a task ask for is gathered here by clocks, and the bounds are those of `cpa_offset` and
//! `cpa_offset_can`. These laws are what a proof needs that bounds hold in every run, and that they grow.
#![tactic(auto)]

ghost use Rattle.cpa_clock.specs.Laws.{WorkIsCovered, ClockedBoundsGrow, ClocksRaiseNoBound, PlainBoundsAreTheSame};

mod anchor;
mod bounds;
mod clock_lists;
mod gathered;

pub use anchor::Anchor;
pub use bounds::{own_clock, respond, respond_can};
pub use gathered::Gathered;

/// No more work comes than the bounds count with, wherever a window starts; the bounds grow with inputs, and none is above
/// that without clocks.
pub fn clocked_bounds_have_laws()
    ensures covered { WorkIsCovered }
    ensures grow { ClockedBoundsGrow }
    ensures below { ClocksRaiseNoBound }
{}

/// Where the streams of a task and of its rivals are on no clock, the bounds are those without clocks.
pub fn plain_bounds_are_the_same()
    ensures { PlainBoundsAreTheSame }
{}

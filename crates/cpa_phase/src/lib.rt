//! Streams with offsets on the clocks that they share.
//!
//! Event m of a stream comes from `offset + m * period` to that and the jitter after the start of its
//! clock. So streams of one clock can't all come at once. What they bring in a window depends on the
//! moment of the clock at which it starts, and only such moments need to be looked at at which an event
//! comes as late as it can: the candidates of the critical instant (Tindell, "Adding time-offsets to
//! schedulability analysis", 1994; Palencia and González Harbour, "Schedulability analysis for tasks
//! with static and dynamic offsets", 1998). All times are in ticks.
#![tactic(auto)]

ghost use Rattle.cpa_phase.specs.Laws.{ArrivalsFit, PhasesThin, PhaseIsFirst, PhaseIsLeast, ArrivalsComeLater, CandidatesAreEnough, WiderIntervalsHaveMore, OffsetsOnlyHelp, CompletionsKeepIntervals, CompletionsGrow};

mod clock;
mod known;
mod phased;
mod placed;

pub use clock::{Clock, clock_work, clocks_work, work_from};
pub use known::KnownWork;
pub use phased::{Phased, phased_work, put_phased};
pub use placed::{MAX_OFFSET, MAX_PLACED, Placed};

/// What a phase is, and how early events can come from a moment on.
pub fn phases_have_laws()
    ensures fit { ArrivalsFit }
    ensures thin { PhasesThin }
    ensures first { PhaseIsFirst }
    ensures least { PhaseIsLeast }
    ensures later { ArrivalsComeLater }
{}

/// From some candidate as much comes as from any moment; more comes where intervals are wider; clocks bring no more
/// than what is known without offsets.
pub fn clocks_have_laws()
    ensures candidates { CandidatesAreEnough }
    ensures wider { WiderIntervalsHaveMore }
    ensures only_help { OffsetsOnlyHelp }
{}

/// Completions come in the intervals of what is sent on, and those are wider where what a task is sent is.
pub fn completions_have_laws()
    ensures keep { CompletionsKeepIntervals }
    ensures grow { CompletionsGrow }
{}

//! What holds of bounds and of least solutions, for crates that depend on this one.

ghost use Rattle.cpa_local.specs.Laws.{InputsFollowStreams, ResponsesAreMonotone, PlainResponsesAreTheSame, QueuesHaveOneBound, LeastExists, LeastIsUnique, LeastIsFixed, ClosedBelowIsLeast, RaisingLiftsLeast};

use crate::trail::Trail;
use cpa_clock::plain_bounds_are_the_same;

/// A bounded input has a stream for each of its task's streams, in their order, with the period of its
/// source.
pub fn inputs_follow_streams()
    ensures { InputsFollowStreams }
{}

/// Where a vector rises, no bound falls, whatever the kinds of the resources (Richter's thesis, 2005).
pub fn responses_are_monotone()
    ensures { ResponsesAreMonotone }
{}

/// Where no source is on a clock, bounds are those without clocks.
pub fn plain_responses_are_the_same()
    ensures { PlainResponsesAreTheSame }
{
    plain_bounds_are_the_same();
}

/// All tasks of a queue have one bound: that of what they ask for together.
pub fn queues_have_one_bound()
    ensures { QueuesHaveOneBound }
{}

/// What threads may be handed and may share.
fn crosses_threads<T: Send + Sync>(_value: &T) {}

/// A trail may be handed to another thread, and shared by threads.
pub fn trails_cross_threads(trail: &Trail) {
    crosses_threads(trail);
}

/// Each system has exactly one least solution, and the bounds at it are it (Knaster and Tarski; Kleene).
pub fn least_solutions_have_laws()
    ensures exists { LeastExists }
    ensures unique { LeastIsUnique }
    ensures fixed { LeastIsFixed }
    ensures closed_below { ClosedBelowIsLeast }
    ensures raising { RaisingLiftsLeast }
{}

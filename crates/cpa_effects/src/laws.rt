//! What bounds of chains say of runs, for crates that depend on this one.

ghost use Rattle.cpa_effects.specs.Laws.{HeldBoundsBoundChains, ClosedVectorsBoundChains, LeastSolutionsBoundChains, OneStreamGoesOn, HeldIsReaction};

/// Wherever bounds hold in every run, the bounds of chains do where the events of the sources stay near; so it is
/// with each closed vector, and with the least solution. Of a task with one stream, all that is presumed of a job
/// that reads is that it isn't the first, and of a job that is read that it isn't the last. Reaction time
/// and the time for which data is held are one.
pub fn chains_have_bounds()
    ensures held { HeldBoundsBoundChains }
    ensures closed { ClosedVectorsBoundChains }
    ensures least { LeastSolutionsBoundChains }
    ensures one_stream { OneStreamGoesOn }
    ensures equal { HeldIsReaction }
{}

//! What buffers say of runs, for crates that depend on this one.

ghost use Rattle.cpa_buffer.specs.Laws.{HeldBoundsBoundBuffers, ClosedVectorsBoundBuffers, LeastSolutionsBoundBuffers};

/// Wherever bounds hold in every run, no more jobs of a task or of a resource are pending at any time of
/// a run, however late, than its buffer has room for, nor does more work wait on a resource than the greatest
/// bound of its tasks; so it is with each closed vector, and with the least solution. No peak is above its
/// buffer.
pub fn buffers_suffice()
    ensures held { HeldBoundsBoundBuffers }
    ensures closed { ClosedVectorsBoundBuffers }
    ensures least { LeastSolutionsBoundBuffers }
{}

//! What holds of segments, for crates that depend on this one.

ghost use Rattle.cpa_audit.specs.Laws.{SameIsEqual, SegmentsAreAll};

/// The segments that an audit expects are all segments of the run, in the order of their starts and then of
/// their resources, each once. It finds nothing exactly where the schedule is equal to them.
pub fn segments_have_laws()
    ensures all { SegmentsAreAll }
    ensures same { SameIsEqual }
{}

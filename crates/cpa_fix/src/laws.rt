//! What the search for the least solution depends on, for crates that depend on this one.

ghost use Rattle.cpa_fix.specs.Laws.{BoundsDependOnReads, BoundsWithoutFeedback, CleanIsLeast};

use crate::readings::Readings;

/// The bounds on a resource depend on what it reads alone; without feedback not even on the bounds of
/// its own tasks.
pub fn bounds_depend_on_reads()
    ensures reads { BoundsDependOnReads }
    ensures outside { BoundsWithoutFeedback }
{}

/// A vector nowhere above the least solution is the least solution where each resource is clean at it.
pub fn clean_is_least()
    ensures { CleanIsLeast }
{}

/// What threads may be handed and may share.
fn crosses_threads<T: Send + Sync>(_value: &T) {}

/// Readings may be handed to another thread, and shared by threads.
pub fn readings_cross_threads(readings: &Readings) {
    crosses_threads(readings);
}

//! Which case is the first that is wrong.

/// The case that was told already, or this one where it isn't right.
pub fn tell<T: Copy>(wrong: Option<T>, case: T, right: bool) -> Option<T> {
    if wrong.is_none() && !right {
        Some(case)
    } else {
        wrong
    }
}

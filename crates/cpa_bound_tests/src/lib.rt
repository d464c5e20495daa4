//! Tests of crates by their public calls: bounds of single tasks, rounds by several workers, sessions, jobs beyond their
//! bounds, generated systems and traces, priority orders, slack, and jobs that wait.
//!
//! They stand here, above those crates, so that what they try isn't proved once more with them.
#![tactic(auto)]

#[cfg(test)]
mod bounds;
#[cfg(test)]
mod buffers;
#[cfg(test)]
mod generated;
#[cfg(test)]
mod lateness;
#[cfg(test)]
mod orders;
#[cfg(test)]
mod sessions;
#[cfg(test)]
mod slack;
#[cfg(test)]
mod systems;
#[cfg(test)]
mod workers;

//! Tests of calls that tell the bounds of chains of tasks, over files in memory.
//!
//! They stand here, above those crates, so that what they try isn't proved once more with them.
#![tactic(auto)]

#[cfg(test)]
mod chain;
#[cfg(test)]
mod chains;

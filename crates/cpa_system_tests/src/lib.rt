//! Tests of crates by their public calls: drafts, systems, cones, edits, system files, traces, step rules, runs, audits of
//! schedules, calls that write schedules, and the words of the program.
//!
//! They stand here, above those crates, so that what they try isn't proved once more with them.
#![tactic(auto)]

#[cfg(test)]
mod audits;
#[cfg(test)]
mod cones;
#[cfg(test)]
mod drafts;
#[cfg(test)]
mod edits;
#[cfg(test)]
mod files;
#[cfg(test)]
mod models;
#[cfg(test)]
mod runs;
#[cfg(test)]
mod schedules;
#[cfg(test)]
mod steps;
#[cfg(test)]
mod traces;
#[cfg(test)]
mod words;

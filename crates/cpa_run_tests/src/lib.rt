//! Tests of calls of `run`, over files and sinks in memory: what each command writes and answers, faults, and workers.
//!
//! They stand here, above the crate of `run`, so that what they try isn't proved once more with them.
#![tactic(auto)]

#[cfg(test)]
mod audits;
#[cfg(test)]
mod buffers;
#[cfg(test)]
mod calls;
#[cfg(test)]
mod car;
#[cfg(test)]
mod cases;
#[cfg(test)]
mod fresh_analyses;
#[cfg(test)]
mod gates;
#[cfg(test)]
mod generated;
#[cfg(test)]
mod hostile;
#[cfg(test)]
mod orders;
#[cfg(test)]
mod rounds;
#[cfg(test)]
mod runs;
#[cfg(test)]
mod sessions;
#[cfg(test)]
mod tests;

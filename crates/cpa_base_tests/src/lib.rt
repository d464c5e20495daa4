//! Tests of the lowest crates by their public calls: names, vectors, frames, files and sinks, event models, least windows, the
//! bounds of the local analyses, and boards.
//!
//! They stand here, above those crates, so that what they try isn't proved once more with them.
#![tactic(auto)]

#[cfg(test)]
mod boards;
#[cfg(test)]
mod events;
#[cfg(test)]
mod files;
#[cfg(test)]
mod first_failure;
#[cfg(test)]
mod kinds;
#[cfg(test)]
mod values;
#[cfg(test)]
mod windows;

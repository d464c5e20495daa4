//! Files that are loaded whole and a sink that bytes are sent to, with their faults counted.
//!
//! What stands above speaks of the traits [`Files`] and [`Sink`] alone. `RealFiles` and
//! `RealSink` are trusted: what a real file holds or a terminal shows, no contract says. The
//! files and the sink in memory tell their bytes, and fail at the calls that are chosen.
#![tactic(auto)]

mod display;
pub mod files;
mod loads;
pub mod memory;
pub mod real;
pub mod send;
pub mod sink;

pub use files::{Files, LoadFault};
pub use memory::{MemoryFiles, MemorySink};
pub use real::{RealFiles, RealSink};
pub use send::put_all;
pub use sink::{Sink, SinkFault};

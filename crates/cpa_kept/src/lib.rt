//! A session that is kept behind a handle, as a caller in C holds it: opened, edited, asked for numbers and reports, closed.
//!
//! The handle lies in memory of the caller, and owns a box of the session while it is open. Times are in ticks.
#![tactic(auto)]

mod editing;
mod handle;
mod hidden_box;
mod numbers;
mod opening;
mod parts;
mod reporting;

pub use editing::edit;
pub use handle::{Handle, handles_cross_threads};
pub use numbers::{Told, bounds, latencies};
pub use opening::{close, open};
pub use reporting::report;

//! The segments of a run, each with its end as it starts, and their text; one call of `schedule`.
//!
//! A segment is how long one job at a time gets the ticks of its resource. Times are in ticks. `cpa_cli` prints
//! them by its command `schedule`.
#![tactic(auto)]

mod command;
mod tracking;
mod writing;

pub use command::{schedules_have_laws, write_schedule};

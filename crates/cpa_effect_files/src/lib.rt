//! Chains of tasks with deadlines from a file: their bounds on reaction time and data age, judged in one call; and the call of
//! the program that answers `chain` and `chains`.
#![tactic(auto)]

mod chains;
mod command;
mod commands;
mod draft;
mod laws;
mod read;
mod refusal;
mod refusals;
mod text;

pub use command::{MAX_CHAINS_FILE, write_chains};
pub use commands::run_chains;
pub use laws::printed_chains_hold;
pub use refusals::MAX_CHAINS;

//! Chains of tasks that take what the one before wrote last, or that it has started: how soon an event is answered
//! along one, and how old data can be (Davare et al. 2007; Feiertag et al. 2008). Times are in ticks.
#![tactic(auto)]

mod bounds;
mod command;
mod laws;
mod steps;
mod text;
mod words;

pub use bounds::{age, age_by, held, held_by, latency, latency_by, reaction, reaction_by, wait};
pub use command::{write_chain, write_chain_by};
pub use laws::chains_have_bounds;
pub use steps::{Passage, Reading, Step, passage_between, step_between};
pub use text::{chain_text, status};

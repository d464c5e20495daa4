//! Generated systems, generated traces, and what is observed of a system under many of them.
#![tactic(auto)]

mod chains;
mod draws;
mod hammering;
mod laws;
mod observation;
mod systems;
mod texts;
mod traces;

pub use hammering::{hammer, hammer_one_by_one};
pub use laws::{made_systems_have_laws, made_traces_have_laws};
pub use observation::{Seen, Tally};
pub use systems::make_system;
pub use texts::{hammer_text, load_text};
pub use traces::make_trace;

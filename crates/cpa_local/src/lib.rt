//! The analysis of one task: what it receives along its chains, and its bound where all other tasks
//! keep to the bounds of a vector.
//!
//! Inputs and bounds are those of compositional performance analysis (Richter's thesis, 2005). All
//! times are in ticks.
#![tactic(auto)]

mod analysis;
mod anchor_list;
mod anchoring;
mod by_clocks;
mod ceilings;
mod chain_walks;
mod clocks;
mod gathering;
mod inputs;
mod laws;
mod neighbours;
mod paths;
mod prepared_inputs;
mod rising;
mod scratch;
mod start;
mod trail;

pub use analysis::respond;
pub use inputs::input;
pub use laws::{
    inputs_follow_streams, least_solutions_have_laws, plain_responses_are_the_same,
    responses_are_monotone, trails_cross_threads,
};
pub use paths::{
    DeadlineVerdict, count_missed, count_overloads, deadline_verdict, is_missed, is_overload,
    path_best, path_worst,
};
pub use rising::raise;
pub use start::floor;
pub use trail::Trail;

//! The least solution of a system: rounds of analyses, from readings that are kept, until every
//! resource is clean. It is the global iteration of compositional performance analysis (SymTA/S,
//! pyCPA), which analyses a resource again only where something that it reads has risen. Bounds are in
//! ticks.
#![tactic(auto)]

mod analysing;
mod laws;
mod one_by_one;
mod readings;
mod rounds;
mod solving;

pub use analysing::analyse;
pub use laws::{bounds_depend_on_reads, clean_is_least, readings_cross_threads};
pub use one_by_one::{OneByOne, round_of_one};
pub use readings::{Reading, Readings};
pub use rounds::Round;
pub use solving::{Solution, least_bounds, solve, solve_within};

//! Ticks, bounds, vectors, names and limits, which all other crates speak of.
//!
//! Time is counted in whole ticks; the user decides what a tick is.
#![tactic(auto)]

pub mod bound;
pub mod frames;
pub mod limits;
pub mod name;
pub mod numbers;
pub mod places;
pub mod res_set;
pub mod vector;

pub use bound::{Bound, words_have_laws};
pub use frames::frame_bits;
pub use name::{Name, NameFault, is_name};
pub use numbers::read_number;
pub use places::{NoMemory, PathId, ResId, SourceId, TaskId};
pub use res_set::ResSet;
pub use vector::Vector;

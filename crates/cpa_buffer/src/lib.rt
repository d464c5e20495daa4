//! How many jobs wait at once: bounds on that, and what a run shows.
//!
//! A job that is pending arrived less than its bound ago, so an input's most events in that time bound
//! the backlog (Richter's thesis, 2005; pyCPA). And all work that waits is done a bound later. All times are in ticks.
#![tactic(auto)]

mod buffers;
mod laws;
mod peaks;
mod sweep;
mod text;

pub use buffers::{buffer, buffer_on, most_work_on};
pub use laws::buffers_suffice;
pub use peaks::{Peaks, find_peaks};
pub use text::buffer_text;

//! A recorded schedule against the step rules: whether it is what the run of a trace gives.
//!
//! A segment is how long one job at a time gets the ticks of its resource. Times are in ticks.
#![tactic(auto)]

mod auditing;
mod display;
pub mod fault;
pub mod finding;
mod laws;
mod line;
mod reading;
pub mod schedule;

pub use auditing::audit;
pub use fault::ScheduleFault;
pub use finding::Finding;
pub use laws::segments_have_laws;
pub use line::audit_text;
pub use reading::read_schedule;
pub use schedule::{Schedule, Segment};

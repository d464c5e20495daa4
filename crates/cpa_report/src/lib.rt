//! The report of a system at a vector of bounds: its text, and the verdict.
#![tactic(auto)]

mod report;

pub use cpa_local::{path_best, path_worst};
pub use cpa_text::Text;
pub use report::{
    put_bound, put_deadline, put_deadline_verdict, put_summary_at, report_text, verdict,
};

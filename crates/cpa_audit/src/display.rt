//! Faults as texts.

use crate::fault::ScheduleFault;
use std::fmt;

impl fmt::Display for ScheduleFault {
    ghost use Rattle.std.specs.Prelude.{Some};
    ghost use Rattle.cpa_audit.specs.FaultTexts.{schedule_fault};

    ghost output = { λ fault. Some (schedule_fault fault) };

    fn fmt<W: fmt::Write>(&self, f: &mut fmt::Formatter<W>) -> fmt::Result {
        match self {
            ScheduleFault::BadRow(row) => write!(f, "row {row} is not a name and two numbers"),
            ScheduleFault::UnknownName(row) => write!(f, "row {row}: no task has this name"),
            ScheduleFault::OutOfRange(row) => write!(
                f,
                "row {row}: the start is not below the end, or the end is above 20,000,000"
            ),
            ScheduleFault::TooMany => f.write_str("more than 200,000 rows"),
            ScheduleFault::Memory => f.write_str("out of memory"),
        }
    }
}

impl std::error::Error for ScheduleFault {}

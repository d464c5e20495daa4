//! Faults as texts.

use crate::fault::TraceFault;
use std::fmt;

impl fmt::Display for TraceFault {
    ghost use Rattle.std.specs.Prelude.{Some};
    ghost use Rattle.cpa_trace.specs.FaultTexts.{trace_fault};

    ghost output = { λ fault. Some (trace_fault fault) };

    fn fmt<W: fmt::Write>(&self, f: &mut fmt::Formatter<W>) -> fmt::Result {
        match self {
            TraceFault::BadRow(row) => write!(
                f,
                "row {row} is not a word, a name and a number, or a second phase"
            ),
            TraceFault::UnknownName(row) => write!(
                f,
                "row {row}: no source, task or TDMA resource has this name"
            ),
            TraceFault::OutOfRange(row) => write!(
                f,
                "row {row}: the number is out of range, or a time is below that of the event before"
            ),
            TraceFault::TooMany => f.write_str("more than 200,000 rows or 2,000,000 jobs"),
            TraceFault::Memory => f.write_str("out of memory"),
        }
    }
}

impl std::error::Error for TraceFault {}

//! Faults as texts.

use crate::files::LoadFault;
use crate::sink::SinkFault;
use std::fmt;

impl fmt::Display for LoadFault {
    ghost use Rattle.std.specs.Prelude.{Some};
    ghost use Rattle.cpa_io.specs.FaultTexts.{load_fault};

    ghost output = { λ fault. Some (load_fault fault) };

    fn fmt<W: fmt::Write>(&self, f: &mut fmt::Formatter<W>) -> fmt::Result {
        match self {
            LoadFault::Failed => f.write_str("the file could not be read"),
            LoadFault::TooLong => f.write_str("the file is too long"),
            LoadFault::Memory => f.write_str("out of memory"),
        }
    }
}

impl std::error::Error for LoadFault {}

impl fmt::Display for SinkFault {
    ghost use Rattle.std.specs.Prelude.{Some};
    ghost use Rattle.cpa_io.specs.FaultTexts.{sink_fault};

    ghost output = { λ fault. Some (sink_fault fault) };

    fn fmt<W: fmt::Write>(&self, f: &mut fmt::Formatter<W>) -> fmt::Result {
        match self {
            SinkFault::Failed => f.write_str("the output could not be written"),
            SinkFault::Memory => f.write_str("out of memory"),
        }
    }
}

impl std::error::Error for SinkFault {}

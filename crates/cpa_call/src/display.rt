//! Faults as texts.

use crate::errors::OutputError;
use std::fmt;

impl fmt::Display for OutputError {
    ghost use Rattle.std.specs.Prelude.{Some};
    ghost use Rattle.cpa_call.specs.FaultTexts.{stopped};

    ghost output = { λ fault. Some (stopped fault) };

    fn fmt<W: fmt::Write>(&self, f: &mut fmt::Formatter<W>) -> fmt::Result {
        match self {
            OutputError::Sink => f.write_str("the output could not be written"),
            OutputError::Memory => f.write_str("out of memory"),
        }
    }
}

impl std::error::Error for OutputError {}

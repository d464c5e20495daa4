//! Faults as texts.

use crate::edit::{EditFault, EditRefusal};
use crate::script::ScriptFault;
use std::fmt;

impl fmt::Display for EditRefusal {
    ghost use Rattle.std.specs.Prelude.{Some};
    ghost use Rattle.cpa_edit.specs.FaultTexts.{edit_refusal};

    ghost output = { λ refusal. Some (edit_refusal refusal) };

    fn fmt<W: fmt::Write>(&self, f: &mut fmt::Formatter<W>) -> fmt::Result {
        write!(f, "reason {}", self.0)
    }
}

impl std::error::Error for EditRefusal {}

impl fmt::Display for EditFault {
    ghost use Rattle.std.specs.Prelude.{Some};
    ghost use Rattle.cpa_edit.specs.FaultTexts.{edit_fault};

    ghost output = { λ fault. Some (edit_fault fault) };

    fn fmt<W: fmt::Write>(&self, f: &mut fmt::Formatter<W>) -> fmt::Result {
        match self {
            EditFault::Refused(refusal) => write!(f, "{refusal}"),
            EditFault::Memory => f.write_str("out of memory"),
        }
    }
}

impl std::error::Error for EditFault {}

impl fmt::Display for ScriptFault {
    ghost use Rattle.std.specs.Prelude.{Some};
    ghost use Rattle.cpa_edit.specs.FaultTexts.{script_fault};

    ghost output = { λ fault. Some (script_fault fault) };

    fn fmt<W: fmt::Write>(&self, f: &mut fmt::Formatter<W>) -> fmt::Result {
        match self {
            ScriptFault::BadLine(line) => write!(f, "line {line} is no command of a script"),
            ScriptFault::TooManyLines => f.write_str("more than 10,000 lines"),
            ScriptFault::Memory => f.write_str("out of memory"),
        }
    }
}

impl std::error::Error for ScriptFault {}

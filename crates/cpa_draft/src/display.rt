//! Faults as texts.

use crate::refusal::{BuildFault, Part, Refusal};
use std::fmt;

impl fmt::Display for Part {
    ghost use Rattle.std.specs.Prelude.{Some};
    ghost use Rattle.cpa_draft.specs.FaultTexts.{part_text};

    ghost output = { λ part. Some (part_text part) };

    fn fmt<W: fmt::Write>(&self, f: &mut fmt::Formatter<W>) -> fmt::Result {
        match self {
            Part::File => f.write_str("file"),
            Part::Resource => f.write_str("resource"),
            Part::Source => f.write_str("source"),
            Part::Task => f.write_str("task"),
            Part::Path => f.write_str("path"),
        }
    }
}

impl fmt::Display for Refusal {
    ghost use Rattle.std.specs.Prelude.{Some};
    ghost use Rattle.cpa_draft.specs.FaultTexts.{refusal_text};

    ghost output = { λ refusal. Some (refusal_text refusal) };

    fn fmt<W: fmt::Write>(&self, f: &mut fmt::Formatter<W>) -> fmt::Result {
        let (reason, part, place) = (self.reason, self.part, self.place);
        write!(f, "reason {reason} {part} {place}")
    }
}

impl std::error::Error for Refusal {}

impl fmt::Display for BuildFault {
    ghost use Rattle.std.specs.Prelude.{Some};
    ghost use Rattle.cpa_draft.specs.FaultTexts.{build_fault};

    ghost output = { λ fault. Some (build_fault fault) };

    fn fmt<W: fmt::Write>(&self, f: &mut fmt::Formatter<W>) -> fmt::Result {
        match self {
            BuildFault::Refused(refusal) => write!(f, "{refusal}"),
            BuildFault::Memory => f.write_str("out of memory"),
        }
    }
}

impl std::error::Error for BuildFault {}

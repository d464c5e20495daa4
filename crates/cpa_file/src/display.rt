//! Faults as texts.

use crate::entries::ListFault;
use crate::fault::ReadFault;
use crate::read::FileRefusal;
use std::fmt;

impl fmt::Display for ListFault {
    ghost use Rattle.std.specs.Prelude.{Some};
    ghost use Rattle.cpa_file.specs.FaultTexts.{list_fault};

    ghost output = { λ fault. Some (list_fault fault) };

    fn fmt<W: fmt::Write>(&self, f: &mut fmt::Formatter<W>) -> fmt::Result {
        match self {
            ListFault::At(place) => write!(f, "entry {place} is malformed"),
            ListFault::Memory => f.write_str("out of memory"),
        }
    }
}

impl std::error::Error for ListFault {}

impl fmt::Display for ReadFault {
    ghost use Rattle.std.specs.Prelude.{Some};
    ghost use Rattle.cpa_file.specs.FaultTexts.{read_fault};

    ghost output = { λ fault. Some (read_fault fault) };

    fn fmt<W: fmt::Write>(&self, f: &mut fmt::Formatter<W>) -> fmt::Result {
        match self {
            ReadFault::Malformed => f.write_str("malformed"),
            ReadFault::Memory => f.write_str("out of memory"),
        }
    }
}

impl std::error::Error for ReadFault {}

impl fmt::Display for FileRefusal {
    ghost use Rattle.std.specs.Prelude.{Some};
    ghost use Rattle.cpa_file.specs.FaultTexts.{file_refusal};

    ghost output = { λ fault. Some (file_refusal fault) };

    fn fmt<W: fmt::Write>(&self, f: &mut fmt::Formatter<W>) -> fmt::Result {
        match self {
            FileRefusal::NotToml => f.write_str("not TOML"),
            FileRefusal::TooLong => f.write_str("too long"),
            FileRefusal::Refused(refusal) => write!(f, "{refusal}"),
            FileRefusal::Memory => f.write_str("out of memory"),
        }
    }
}

impl std::error::Error for FileRefusal {}

//! Names of resources, sources, tasks and paths.

ghost use Rattle.std.specs.Prelude.{◌≡◌, IfOk, IsOk, ◌↔◌, true, false};
ghost use Rattle.std.specs.List.{list_all};
ghost use Rattle.cpa_units.specs.Name.{is_name, is_name_byte};

use crate::limits::MAX_NAME;
use crate::places::NoMemory;
use std::alloc::Global;
use std::fmt;
use std::marker::Model;

/// Why a text is no name.
#[derive(Clone, Copy, Debug, PartialEq, Eq)]
pub enum NameFault {
    /// It hasn't the form of a name.
    Form,
    /// A growth of memory was refused.
    Memory,
}

impl fmt::Display for NameFault {
    ghost use Rattle.std.specs.Prelude.{Some};
    ghost use Rattle.cpa_units.specs.FaultTexts.{name_fault};

    ghost output = { λ fault. Some (name_fault fault) };

    fn fmt<W: fmt::Write>(&self, f: &mut fmt::Formatter<W>) -> fmt::Result {
        match self {
            NameFault::Form => f.write_str("not 1 to 64 of letters, digits, `_`, `-` and `.`"),
            NameFault::Memory => f.write_str("out of memory"),
        }
    }
}

impl std::error::Error for NameFault {}

/// One to 64 of ASCII letters, digits, `_`, `-` and `.`.
#[derive(Debug, Drop)]
pub struct Name {
    bytes: Vec<u8>,
}

impl Model for Name {
    ghost use Rattle.std.specs.Prelude.{◌≡◌, List, ℕ, true};
    ghost use Rattle.cpa_units.specs.Name.{is_name};

    ghost Value = { List ℕ };

    ghost view = { λ n. n.bytes.items };

    ghost invariant = { λ n. is_name n.bytes.items ≡ true };
}

fn is_name_byte(byte: u8) -> bool
    ensures { result ≡ is_name_byte byte }
{
    byte.is_ascii_alphanumeric() || byte == b'_' || byte == b'-' || byte == b'.'
}

fn are_name_bytes(bytes: &[u8]) -> bool
    ensures { result ≡ list_all is_name_byte bytes.now }
{
    bytes.iter().all(|byte| is_name_byte(*byte))
}

/// Whether a text has the form of a name.
pub fn is_name(bytes: &[u8]) -> bool
    ensures { result ≡ is_name bytes.now }
{
    1 <= bytes.len() && bytes.len() <= MAX_NAME && are_name_bytes(bytes)
}

impl Name {
    /// The name that a text is.
    pub fn read(alloc: Global, bytes: &[u8]) -> Result<Name, NameFault>
        ensures ok { IfOk result (λ name. name ≡ bytes.now) }
        ensures formed { IsOk result → is_name bytes.now ≡ true }
        ensures form { (result ≡ Err NameFault.Form) ↔ (is_name bytes.now ≡ false) }
    {
        if !is_name(bytes) {
            return Err(NameFault::Form);
        }
        match Vec::from_slice(alloc, bytes) {
            Ok(bytes) => Ok(Name { bytes }),
            Err(_) => Err(NameFault::Memory),
        }
    }

    /// An equal name.
    pub fn copy(&self, alloc: Global) -> Result<Name, NoMemory>
        ensures { IfOk result (λ copy. copy ≡ self.now) }
    {
        let bytes = Vec::from_slice(alloc, self.bytes.as_slice())?;
        Ok(Name { bytes })
    }

    pub fn bytes(&self) -> &[u8]
        ensures value { result.now ≡ self.now }
        ensures formed { is_name self.now ≡ true }
    {
        self.bytes.as_slice()
    }
}

//! Why a call ends before its work is done.

use cpa_io::SinkFault;
use cpa_units::NoMemory;

/// A status with its text.
#[derive(Drop)]
pub struct Reply {
    pub status: u8,
    pub text: Vec<u8>,
}

/// Why a call ends before its work.
#[derive(Drop)]
pub enum InputError {
    /// Something that it read is refused: the status and the line.
    Refused(Reply),
    /// A file couldn't be loaded: the line.
    Unread(Vec<u8>),
    /// A growth of memory was refused.
    Memory,
}

impl From<NoMemory> for InputError {
    ghost use Rattle.std.specs.Prelude.{◌≡◌};
    ghost use Rattle.cpa_call.specs.declared.errors.InputError.TheVariants.{Memory};

    ghost from_gives = { λ _ e. e ≡ Memory };

    fn from(_: NoMemory) -> InputError {
        InputError::Memory
    }
}

/// Why not all of a text was sent.
#[derive(Clone, Copy, Debug, PartialEq, Eq)]
pub enum OutputError {
    /// The sink failed.
    Sink,
    /// A growth of memory was refused.
    Memory,
}

impl From<NoMemory> for OutputError {
    ghost use Rattle.std.specs.Prelude.{◌≡◌};
    ghost use Rattle.cpa_call.specs.declared.errors.OutputError.TheVariants.{Memory};

    ghost from_gives = { λ _ e. e ≡ Memory };

    fn from(_: NoMemory) -> OutputError {
        OutputError::Memory
    }
}

impl From<SinkFault> for OutputError {
    ghost use Rattle.cpa_call.specs.Ends.{IsStopOf};

    ghost from_gives = { λ fault e. IsStopOf fault e };

    fn from(fault: SinkFault) -> OutputError {
        match fault {
            SinkFault::Failed => OutputError::Sink,
            SinkFault::Memory => OutputError::Memory,
        }
    }
}

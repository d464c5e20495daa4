//! Why a system is refused.

use std::alloc::{AllocError, AllocFailed};

/// The part of a system file that a refusal names.
#[derive(Clone, Copy, Debug, PartialEq, Eq)]
pub enum Part {
    File,
    Resource,
    Source,
    Task,
    Path,
}

/// Why a system is refused, and where.
#[derive(Clone, Copy, Debug, PartialEq, Eq)]
pub struct Refusal {
    /// The reason's number, 1 to 16.
    pub reason: u8,
    pub part: Part,
    /// The place of the entry among those of its part, from 1; 0 for the file as a whole.
    pub place: u64,
}

/// Why no system was built.
#[derive(Clone, Copy, Debug, PartialEq, Eq)]
pub enum BuildFault {
    Refused(Refusal),
    /// A growth of memory was refused.
    Memory,
}

impl From<AllocError> for BuildFault {
    ghost use Rattle.std.specs.Prelude.{◌≡◌};
    ghost use Rattle.cpa_draft.specs.declared.refusal.BuildFault.TheVariants.{Memory};

    ghost from_gives = { λ _ e. e ≡ Memory };

    fn from(_: AllocError) -> BuildFault {
        BuildFault::Memory
    }
}

impl<T: Drop> From<AllocFailed<T>> for BuildFault {
    ghost use Rattle.std.specs.Prelude.{◌≡◌};
    ghost use Rattle.cpa_draft.specs.declared.refusal.BuildFault.TheVariants.{Memory};

    ghost from_gives = { λ _ e. e ≡ Memory };

    fn from(_: AllocFailed<T>) -> BuildFault {
        BuildFault::Memory
    }
}

//! Why a file stands for no chains.

use cpa_units::NoMemory;

/// The reason, and the place of the chain that it applies to, from 1; 0 stands for the file as a whole.
#[derive(Clone, Copy, Debug, PartialEq, Eq)]
pub(crate) struct ChainsRefusal {
    pub(crate) reason: u8,
    pub(crate) place: u64,
}

/// Why a file stands for no chains.
#[derive(Clone, Copy, Debug, PartialEq, Eq)]
pub(crate) enum ChainsFault {
    /// Its bytes are no TOML document.
    NotToml,
    /// A reason applies to it: the first, with its first place.
    Refused(ChainsRefusal),
    /// A growth of memory was refused.
    Memory,
}

impl From<NoMemory> for ChainsFault {
    ghost use Rattle.std.specs.Prelude.{◌≡◌};
    ghost use Rattle.cpa_effect_files.specs.declared.refusal.ChainsFault.TheVariants.{Memory};

    ghost from_gives = { λ _ e. e ≡ Memory };

    fn from(_: NoMemory) -> ChainsFault {
        ChainsFault::Memory
    }
}

//! Texts that stand for files.

ghost use Rattle.std.specs.Prelude.{◌≡◌, ◌≢◌, ◌≤◌, ◌<◌, true, length, vec_len, option_map, IfOk};
ghost use Rattle.cpa_memory.specs.Held.{held_in};

use cpa_io::{Files, LoadFault};
use cpa_units::limits::MAX_TRACE_FILE;
use std::alloc::Global;

/// The name under which the system is held.
pub const SYSTEM: &str = "system";

/// The name under which the script is held.
pub const SCRIPT: &str = "script";

/// The name under which the trace is held.
pub const TRACE: &str = "trace";

/// The name under which the schedule is held.
pub const SCHEDULE: &str = "schedule";

/// The name under which the chains are held.
pub const CHAINS: &str = "chains";

/// Texts in memory, each held under a name of its own. A command looks only at those that it names.
#[derive(Clone, Copy)]
pub struct Texts<'a> {
    pub system: &'a [u8],
    pub script: &'a [u8],
    pub trace: &'a [u8],
    pub schedule: &'a [u8],
    pub chains: &'a [u8],
}

/// The text under a name.
fn find<'a>(texts: &Texts<'a>, name: &str) -> Option<&'a [u8]>
    ensures { option_map (λ text. text.now) result ≡ held_in texts.now name.now }
{
    if name == SYSTEM {
        Some(texts.system)
    } else if name == SCRIPT {
        Some(texts.script)
    } else if name == TRACE {
        Some(texts.trace)
    } else if name == SCHEDULE {
        Some(texts.schedule)
    } else if name == CHAINS {
        Some(texts.chains)
    } else {
        None
    }
}

/// A copy of a text, at most so many bytes of it.
fn copy_within(alloc: Global, text: &[u8], most: u64) -> Result<Vec<u8>, LoadFault>
    ensures ok { IfOk result (λ v. v.items ≡ text.now) }
    ensures within { IfOk result (λ v. vec_len v ≤ most) }
    ensures too_long { result ≡ Err LoadFault.TooLong → most < length text.now }
    ensures there { result ≢ Err LoadFault.Failed }
{
    if text.len() as u64 > most {
        return Err(LoadFault::TooLong);
    }
    match Vec::from_slice(alloc, text) {
        Ok(copy) => Ok(copy),
        Err(_) => Err(LoadFault::Memory),
    }
}

impl<'a> Files for Texts<'a> {
    ghost use Rattle.std.specs.Prelude.{[], true};
    ghost use Rattle.cpa_memory.specs.Held.{held_in};

    ghost told = { λ _. true };

    ghost held = { λ texts name. held_in texts name };

    ghost faults = { λ _. 0 };

    ghost last_failed = { λ _. [] };

    fn load(&mut self, alloc: Global, name: &str, most: u64) -> Result<Vec<u8>, LoadFault> {
        match find(self, name) {
            None => Err(LoadFault::Memory),
            Some(text) => copy_within(alloc, text, most),
        }
    }
}

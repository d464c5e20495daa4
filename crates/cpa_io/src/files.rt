//! Files that are loaded whole.

ghost use Rattle.std.specs.Prelude.{◌≡◌, ◌≤◌, ◌<◌, ◌⊎◌, ℕ, Bool, true, List, Option, None, Some, length, vec_len, IfOk, IsSomeAnd};
ghost use Rattle.cpa_io.specs.Causes.{Rose};

use cpa_units::limits::MAX_TRACE_FILE;
use std::alloc::Global;

/// Why a file wasn't loaded.
#[derive(Clone, Copy, Debug, PartialEq, Eq)]
pub enum LoadFault {
    /// A fault of the files, as a missing name; it is counted.
    Failed,
    /// The content is longer than the caller allows.
    TooLong,
    /// A growth of memory was refused.
    Memory,
}

/// Files that are loaded by name, each as a whole. What is held under a name never changes.
pub trait Files {
    /// Whether the files tell what they hold.
    ghost told: { Self → Bool };

    /// The bytes that are held under a name, where the files tell them.
    ghost held: { Self → List ℕ → Option (List ℕ) };

    /// How often a load failed.
    ghost faults: { Self → ℕ };

    /// The name of the load that failed last.
    ghost last_failed: { Self → List ℕ };

    /// All the bytes held under a name, at most so many.
    fn load(&mut self, alloc: Global, name: &str, most: u64) -> Result<Vec<u8>, LoadFault>
        requires { most ≤ MAX_TRACE_FILE }

        ensures within { IfOk result (λ v. vec_len v ≤ most) }

        // Where the content is told, of Ok and `TooLong` the latter comes exactly where it is longer
        // than `most`. Where nothing is held, neither comes.
        ensures content { IfOk result (λ v. told self.old ≡ true → held self.old name.now ≡ Some v.items) }
        ensures too_long { result ≡ Err LoadFault.TooLong → told self.old ≡ true →
            IsSomeAnd (held self.old name.now) (λ bytes. most < length bytes) }
        ensures missing { told self.old ≡ true → held self.old name.now ≡ None →
            (result ≡ Err LoadFault.Failed) ⊎ (result ≡ Err LoadFault.Memory) }

        ensures rises { faults self.old ≤ faults self.new }
        ensures failed { result ≡ Err LoadFault.Failed → Rose (faults self.old) (faults self.new) }
        ensures named { result ≡ Err LoadFault.Failed → last_failed self.new ≡ name.now }

        ensures told { told self.new ≡ told self.old }
        ensures held { held self.new ≡ held self.old };
}

//! Counts the loads that failed, and keeps the last one's name.

ghost use Rattle.std.specs.Prelude.{◌≡◌, ◌≤◌, ◌⊎◌, [], string_bytes};
ghost use Rattle.cpa_io.specs.Causes.{risen};

use crate::files::LoadFault;
use std::alloc::Global;

/// How many loads failed, and the name of the last.
#[derive(Drop)]
pub struct FailedLoads {
    pub count: u64,
    pub last: String,
}

impl FailedLoads {
    pub fn none(alloc: Global) -> FailedLoads
        ensures count { result.count ≡ 0 }
        ensures last { string_bytes result.last ≡ [] }
    {
        FailedLoads {
            count: 0,
            last: String::new(alloc),
        }
    }

    /// Counts one more, and answers `Memory` where its name finds none.
    pub fn fail(&mut self, alloc: Global, name: &str) -> LoadFault
        ensures fault { (result ≡ LoadFault.Failed) ⊎ (result ≡ LoadFault.Memory) }
        ensures counted { self.new.count ≡ risen self.old.count }
        ensures rises { self.old.count ≤ self.new.count }
        ensures named { result ≡ LoadFault.Failed → string_bytes self.new.last ≡ name.now }
        ensures unnamed { result ≡ LoadFault.Memory → self.new.last ≡ self.old.last }
    {
        self.count = self.count.saturating_add(1);
        match String::from_str(alloc, name) {
            Ok(name) => {
                self.last = name;
                LoadFault::Failed
            }
            Err(_) => LoadFault::Memory,
        }
    }
}

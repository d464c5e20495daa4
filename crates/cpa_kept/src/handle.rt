//! What a caller in C holds.

ghost use Rattle.std.specs.Prelude.{◌≡◌, ◌↔◌, Some, None, IsSome, IsTrue, is_some, not, nat_eq};

use crate::hidden_box::Sealed;
use crate::parts::Parts;
use cpa_session::Session;
use std::alloc::Global;
use std::mem::replace;

/// A session that is kept, or none. It lies in memory of the caller. A handle that is dropped while it is open keeps its memory.
#[repr(C)]
#[derive(Drop)]
pub struct Handle {
    /// 0 where there is no session.
    opened: u64,
    sealed: Sealed,
    ghost kept_if_open: { is_some sealed.kept ≡ not (nat_eq opened 0) },
}

impl Handle {
    ghost use Rattle.cpa_kept.specs.Kept.{kept_in};

    /// A handle without a session.
    pub fn closed() -> Handle
        ensures { kept_in result ≡ None }
    {
        Handle {
            opened: 0,
            sealed: Sealed::nothing(),
        }
    }

    /// Whether there is a session.
    pub fn is_open(&self) -> bool
        ensures { IsTrue result ↔ IsSome (kept_in self.now) }
    {
        self.opened != 0
    }

    /// Takes the session out.
    pub(crate) fn take(&mut self, alloc: Global) -> Box<Session>
        requires { IsSome (kept_in self.old) }
        ensures taken { kept_in self.old ≡ Some result.value }
        ensures closed { kept_in self.new ≡ None }
    {
        let sealed = replace(&mut self.sealed, Sealed::nothing());
        self.opened = 0;
        sealed.into_parts(alloc).into_box()
    }

    /// Puts a session in.
    pub(crate) fn put(&mut self, session: Box<Session>)
        requires { kept_in self.old ≡ None }
        ensures { kept_in self.new ≡ Some session.value }
    {
        self.sealed = Sealed::of_parts(Parts::of(session));
        self.opened = 1;
    }
}

/// What another thread may be handed.
fn crosses_threads<T: Send>(_value: &T) {}

/// A handle may be handed to another thread.
pub fn handles_cross_threads(handle: &Handle) {
    crosses_threads(handle);
}

//! A box of a session, or none, behind a pointer that names no type. A function for C takes no struct whose fields lead to memory
//! that Rust owns; of what lies behind a plain pointer only `also_owns` speaks.

ghost use Rattle.std.specs.Prelude.{◌≡◌, Some, None, IsSome, Option};
ghost use Rattle.cpa_model.specs.SystemLists.{SystemLists};
ghost use Rattle.cpa_kept.specs.HiddenBox.{sealed_owns, kept_coded};

use crate::parts::Parts;
use cpa_session::Session;
use std::alloc::Global;
use std::marker::Model;

/// A box of a session, or none.
#[repr(C)]
#[derive(Drop)]
pub struct Sealed {
    ptr: *mut u8,
    pub(crate) ghost kept: { Option SystemLists } by { kept_coded },
}

impl Model for Sealed {
    ghost also_owns = { λ s. sealed_owns s.ptr s.kept };
}

impl Sealed {
    /// No session.
    pub(crate) fn nothing() -> Sealed
        ensures { result.kept ≡ None }
    {
        Sealed {
            ptr: std::ptr::null_mut(),
        }
    }

    /// The session of a box.
    pub(crate) fn of_parts(parts: Parts<Session, Global>) -> Sealed
        ensures { result.kept ≡ Some parts.value }
    {
        let Parts { ptr, alloc: _ } = parts;
        Sealed {
            ptr: ptr as *mut u8,
        }
    }

    /// The box of the session.
    pub(crate) fn into_parts(self, alloc: Global) -> Parts<Session, Global>
        requires { IsSome self.kept }
        ensures { self.kept ≡ Some result.value }
    {
        let Sealed { ptr } = self;
        Parts {
            ptr: ptr as *mut Session,
            alloc,
        }
    }
}

unsafe impl Send for Sealed {}

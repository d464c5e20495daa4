//! How a handle is opened on a system, and closed.

ghost use Rattle.std.specs.Prelude.{◌≡◌, ◌≢◌, [], codes, None, IfOk, IfErr, OnErr};
ghost use Rattle.cpa_call.specs.Answers.{reply};
ghost use Rattle.cpa_call.specs.Ends.{IsEndOf, HasStatus, IsNoUnread};
ghost use Rattle.cpa_call.specs.Plans.{Do, system_in};
ghost use Rattle.cpa_memory.specs.Held.{held_of};
ghost use Rattle.cpa_kept.specs.Kept.{kept_in, IsOpened};

use crate::handle::Handle;
use cpa_call::errors::{InputError, Reply};
use cpa_call::loading::load_system;
use cpa_fix::OneByOne;
use cpa_local::Trail;
use cpa_memory::{SYSTEM, Texts};
use cpa_model::System;
use cpa_session::Session;
use cpa_units::NoMemory;
use std::alloc::Global;

/// A session on a system, which is analysed whole.
fn start(alloc: Global, system: System) -> Result<Box<Session>, NoMemory>
    ensures { IfOk result (λ session. session.value ≡ system) }
{
    system.has_rules();
    let mut trail = Trail::with_room(alloc, system.tasks())?;
    let session = Session::start(&(), alloc, system, &mut OneByOne, &mut trail)?;
    Ok(Box::new(alloc, session)?)
}

/// The system that a text stands for; a refusal has its reply.
fn read(alloc: Global, text: &[u8]) -> Result<System, InputError>
    ensures planned { IfOk result (λ system. system_in (held_of text.now [] [] [] []) (codes "system") ≡ Do system) }
    ensures ended { IfErr result (IsEndOf (system_in (held_of text.now [] [] [] []) (codes "system"))) }
    ensures status { IfErr result HasStatus }
    ensures unread { IfErr result IsNoUnread }
{
    let mut files = Texts {
        system: text,
        script: b"",
        trace: b"",
        schedule: b"",
        chains: b"",
    };
    load_system(alloc, &mut files, SYSTEM)
}

/// Opens a closed handle on a system, which is analysed whole. Where the system is refused, or memory is out, the handle stays
/// closed.
pub fn open(alloc: Global, handle: &mut Handle, system: &[u8]) -> Result<Reply, NoMemory>
    requires { kept_in handle.old ≡ None }
    ensures answers { IfOk result (λ r. IsOpened (system_in (held_of system.now [] [] [] []) (codes "system")) (kept_in handle.new) (reply r.status r.text.items)) }
    ensures status { IfOk result (λ r. r.status ≢ 30) }
    ensures closed { OnErr result (kept_in handle.new ≡ None) }
{
    match read(alloc, system) {
        Ok(system) => {
            handle.put(start(alloc, system)?);
            Ok(Reply {
                status: 0,
                text: Vec::new(alloc),
            })
        }
        Err(InputError::Refused(reply)) => Ok(reply),
        Err(InputError::Unread(_)) => unreachable!(),
        Err(InputError::Memory) => Err(NoMemory),
    }
}

/// Closes a handle, and frees what it owns.
pub fn close(alloc: Global, handle: &mut Handle)
    ensures { kept_in handle.new ≡ None }
{
    if handle.is_open() {
        drop(handle.take(alloc));
    }
}

//! Edits of the system that is kept.

ghost use Rattle.std.specs.Prelude.{◌≡◌, ◌≢◌, Some, IsSome, IfSome, IfOk, OnErr};
ghost use Rattle.cpa_call.specs.Answers.{reply};
ghost use Rattle.cpa_edit.specs.Edited.{edited};
ghost use Rattle.cpa_edit.specs.Script.{script_of};
ghost use Rattle.cpa_kept.specs.Kept.{kept_in, edit_in, no_edit, one_edit, IsMade, IsEdited};

use crate::handle::Handle;
use cpa_call::errors::Reply;
use cpa_call::statuses;
use cpa_edit::{Edit, EditFault, Script, ScriptFault, Step, read_script};
use cpa_fix::OneByOne;
use cpa_local::Trail;
use cpa_run::{edit_line, script_line};
use cpa_session::Session;
use cpa_units::NoMemory;
use std::alloc::Global;

/// Makes an edit that stands in a line, or says the rule that it breaks.
fn make(alloc: Global, session: &mut Session, line: u32, edit: &Edit) -> Result<Reply, NoMemory>
    ensures answers { IfOk result (λ r. IsMade session.old line (edited session.old edit.now) (Some session.new) (reply r.status r.text.items)) }
    ensures status { IfOk result (λ r. r.status ≢ 30) }
    ensures unchanged { OnErr result (session.new ≡ session.old) }
{
    let mut trail = Trail::of_size(alloc, session.system().size())?;
    match session.edit(&(), alloc, edit, &mut OneByOne, &mut trail) {
        Ok(()) => Ok(Reply {
            status: 0,
            text: Vec::new(alloc),
        }),
        Err(EditFault::Refused(number)) => Ok(Reply {
            status: statuses::EDIT_REFUSED,
            text: edit_line(alloc, line, number)?,
        }),
        Err(EditFault::Memory) => Err(NoMemory),
    }
}

/// The line of a script that isn't one edit.
fn no_edit_line(alloc: Global) -> Result<Vec<u8>, NoMemory>
    ensures { IfOk result (λ v. v.items ≡ no_edit) }
{
    Ok(Vec::from_slice(alloc, b"script refused no edit\n")?)
}

/// The reply where a script isn't one edit.
fn refuse(alloc: Global) -> Result<Reply, NoMemory>
    ensures { IfOk result (λ r. reply r.status r.text.items ≡ reply 15 no_edit) }
{
    Ok(Reply {
        status: statuses::SCRIPT_REFUSED,
        text: no_edit_line(alloc)?,
    })
}

/// Makes the one edit of a script.
fn make_one(alloc: Global, session: &mut Session, script: &Script) -> Result<Reply, NoMemory>
    ensures answers { IfOk result (λ r. IsEdited session.old (one_edit script.now) (Some session.new) (reply r.status r.text.items)) }
    ensures status { IfOk result (λ r. r.status ≢ 30) }
    ensures unchanged { OnErr result (session.new ≡ session.old) }
{
    if script.len() != 1 {
        return refuse(alloc);
    }
    match script.step(0) {
        Step::Report => refuse(alloc),
        Step::Change(edit) => make(alloc, session, script.line(0), edit),
    }
}

/// Makes the one edit of a text, and brings the bounds to the least solution of the edited system. Where the text isn't one
/// edit, the edit breaks a rule, or memory is out, the session is as before.
pub fn edit(alloc: Global, handle: &mut Handle, text: &[u8]) -> Result<Reply, NoMemory>
    requires { IsSome (kept_in handle.old) }
    ensures answers { IfOk result (λ r. IfSome (kept_in handle.old) (λ s. IsEdited s (edit_in (script_of text.now)) (kept_in handle.new) (reply r.status r.text.items))) }
    ensures status { IfOk result (λ r. r.status ≢ 30) }
    ensures unchanged { OnErr result (kept_in handle.new ≡ kept_in handle.old) }
{
    match read_script(alloc, text) {
        Ok(script) => {
            let mut session = handle.take(alloc);
            let made = make_one(alloc, &mut session, &script);
            handle.put(session);
            made
        }
        Err(ScriptFault::Memory) => Err(NoMemory),
        Err(fault) => Ok(Reply {
            status: statuses::SCRIPT_REFUSED,
            text: script_line(alloc, fault)?,
        }),
    }
}

//! The report of the system that is kept.

ghost use Rattle.std.specs.Prelude.{◌≡◌, ◌≢◌, IsSome, IfSome, IfOk};
ghost use Rattle.cpa_call.specs.Answers.{reply};
ghost use Rattle.cpa_run.specs.Answers.{IsReport};
ghost use Rattle.cpa_kept.specs.Kept.{kept_in};

use crate::handle::Handle;
use cpa_call::errors::Reply;
use cpa_report::{report_text, verdict};
use cpa_session::Session;
use cpa_units::NoMemory;
use std::alloc::Global;

/// The report of a session.
fn report_session(alloc: Global, session: &Session) -> Result<Reply, NoMemory>
    ensures answers { IfOk result (λ r. IsReport session.now (reply r.status r.text.items)) }
    ensures status { IfOk result (λ r. r.status ≢ 30) }
{
    let system = session.system();
    let bounds = session.bounds();
    system.has_rules();
    Ok(Reply {
        status: verdict(system, bounds),
        text: report_text(alloc, system, bounds)?,
    })
}

/// The report of the system that is kept.
pub fn report(alloc: Global, handle: &mut Handle) -> Result<Reply, NoMemory>
    requires { IsSome (kept_in handle.old) }
    ensures answers { IfOk result (λ r. IfSome (kept_in handle.old) (λ s. IsReport s (reply r.status r.text.items))) }
    ensures status { IfOk result (λ r. r.status ≢ 30) }
    ensures unchanged { kept_in handle.new ≡ kept_in handle.old }
{
    let session = handle.take(alloc);
    let reply = report_session(alloc, &session);
    handle.put(session);
    reply
}

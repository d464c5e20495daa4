//! A session: the reports of a system under a script.

ghost use Rattle.std.specs.Prelude.{◌≡◌, ◌≤◌, Err, IfOk, OnOk, OnErr};
ghost use Rattle.cpa_units.specs.Sizes.{most_tasks};
ghost use Rattle.cpa_io.specs.Causes.{Rose};
ghost use Rattle.cpa_call.specs.declared.errors.OutputError.TheVariants as stopped;
ghost use Rattle.cpa_call.specs.Answers.{IsOfOutput, Sends, SendsPart};
ghost use Rattle.cpa_run.specs.Session.{IsSession, system_after};
ghost use Rattle.cpa_run.specs.Steps.{IsWritten, IsWrittenPart};
ghost use Rattle.cpa_edit.specs.Script.{AreNamed};

use crate::lines::edit_line;
use crate::sending::send_report;
use cpa_call::errors::OutputError;
use cpa_edit::{EditFault, Script, Step};
use cpa_fix::Round;
use cpa_io::{Sink, put_all};
use cpa_local::Trail;
use cpa_model::System;
use cpa_session::Session;
use std::alloc::Global;

/// Takes a step of a script, which stands in a line: sends a report, or makes an edit and sends the line of one that is
/// refused.
fn take_step<H: Sync, R: Round<H>, K: Sink>(
    rt: &H,
    alloc: Global,
    session: &mut Session,
    line: u32,
    step: &Step,
    round: &mut R,
    trail: &mut Trail,
    sink: &mut K,
) -> Result<(), OutputError>
    requires { most_tasks session.old.size ≤ trail.old.room }
    ensures written { OnOk result (IsWritten session.old line step.now (K.sent sink.old) (K.sent sink.new)) }
    ensures system { OnOk result (session.new ≡ system_after session.old step.now) }
    ensures room { trail.old.room ≤ trail.new.room }
    ensures part { OnErr result (IsWrittenPart session.old line step.now (K.sent sink.old) (K.sent sink.new)) }
    ensures rises { K.faults sink.old ≤ K.faults sink.new }
    ensures failed { result ≡ Err stopped.Sink → Rose (K.faults sink.old) (K.faults sink.new) }
{
    match step {
        Step::Report => {
            send_report(alloc, session.system(), session.bounds(), sink)?;
            Ok(())
        }
        Step::Change(edit) => match session.edit(rt, alloc, edit, round, trail) {
            Ok(()) => Ok(()),
            Err(EditFault::Refused(number)) => {
                let text = edit_line(alloc, line, number)?;
                put_all(sink, text.as_slice())?;
                Ok(())
            }
            Err(EditFault::Memory) => Err(OutputError::Memory),
        },
    }
}

/// Sends the text of each step in turn, and at the end one more report, whose status it answers. Each report is sent before
/// the next step is taken.
pub fn run_session<H: Sync, R: Round<H>, K: Sink>(
    rt: &H,
    alloc: Global,
    system: System,
    script: &Script,
    round: &mut R,
    sink: &mut K,
) -> Result<u8, OutputError>
    requires { AreNamed script.now }
    ensures sends { IfOk result (λ status. Sends (IsSession system script.now) status (K.sent sink.old) (K.sent sink.new)) }
    ensures status { IfOk result IsOfOutput }
    ensures part { OnErr result (SendsPart (IsSession system script.now) (K.sent sink.old) (K.sent sink.new)) }
    ensures rises { K.faults sink.old ≤ K.faults sink.new }
    ensures failed { result ≡ Err stopped.Sink → Rose (K.faults sink.old) (K.faults sink.new) }
{
    system.has_rules();
    let mut trail = Trail::of_size(alloc, system.size())?;
    let mut session = Session::start(rt, alloc, system, round, &mut trail)?;
    for k in 0..script.len() {
        take_step(
            rt,
            alloc,
            &mut session,
            script.line(k),
            script.step(k),
            round,
            &mut trail,
            sink,
        )?;
    }
    send_report(alloc, session.system(), session.bounds(), sink)
}

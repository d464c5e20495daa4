//! Reports that are sent to the sink.

ghost use Rattle.std.specs.Prelude.{◌≡◌, ◌≤◌, Err, IfOk, OnErr};
ghost use Rattle.cpa_io.specs.Causes.{Rose};
ghost use Rattle.cpa_local.specs.Solution.{IsLeast};
ghost use Rattle.cpa_call.specs.declared.errors.OutputError.TheVariants as stopped;
ghost use Rattle.cpa_call.specs.Answers.{IsOfOutput, Sends, SendsPart};
ghost use Rattle.cpa_run.specs.Answers.{IsReport};

use cpa_call::errors::OutputError;
use cpa_call::sending::send;
use cpa_io::Sink;
use cpa_model::System;
use cpa_report::{report_text, verdict};
use cpa_units::Vector;
use std::alloc::Global;

/// Sends the report of a system, at its least solution.
pub fn send_report<K: Sink>(
    alloc: Global,
    system: &System,
    bounds: &Vector,
    sink: &mut K,
) -> Result<u8, OutputError>
    requires { IsLeast system.now bounds.now }
    ensures sends { IfOk result (λ status. Sends (IsReport system.now) status (K.sent sink.old) (K.sent sink.new)) }
    ensures status { IfOk result IsOfOutput }
    ensures part { OnErr result (SendsPart (IsReport system.now) (K.sent sink.old) (K.sent sink.new)) }
    ensures rises { K.faults sink.old ≤ K.faults sink.new }
    ensures failed { result ≡ Err stopped.Sink → Rose (K.faults sink.old) (K.faults sink.new) }
{
    system.has_rules();
    let text = report_text(alloc, system, bounds)?;
    send(sink, verdict(system, bounds), text.as_slice())
}

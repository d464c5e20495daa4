//! Texts that are sent to the sink.

ghost use Rattle.std.specs.Prelude.{◌≡◌, ◌≤◌, Err, IfOk, OnOk, OnErr};
ghost use Rattle.cpa_io.specs.Causes.{Rose, SentPart, grown};
ghost use Rattle.cpa_call.specs.declared.errors.OutputError.TheVariants as stopped;

use crate::errors::OutputError;
use cpa_io::{Sink, put_all};

/// Sends a text, which goes with a status.
pub fn send<K: Sink>(sink: &mut K, status: u8, text: &[u8]) -> Result<u8, OutputError>
    ensures sent { OnOk result (K.sent sink.new ≡ grown (K.sent sink.old) text.now) }
    ensures status { IfOk result (λ told. told ≡ status) }
    ensures part { OnErr result (SentPart (K.sent sink.old) (K.sent sink.new) text.now) }
    ensures rises { K.faults sink.old ≤ K.faults sink.new }
    ensures failed { result ≡ Err stopped.Sink → Rose (K.faults sink.old) (K.faults sink.new) }
{
    put_all(sink, text)?;
    Ok(status)
}

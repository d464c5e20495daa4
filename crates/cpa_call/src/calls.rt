//! The frame of a call: what ends it before its work, what is sent, and its status.

ghost use Rattle.std.specs.Prelude.{◌≡◌};
ghost use Rattle.cpa_call.specs.declared.errors.InputError.TheVariants.{Refused};
ghost use Rattle.cpa_call.specs.Ends.{HasStatus, IsNoUnread, IsWordsEnd};
ghost use Rattle.cpa_call.specs.Calls.{SendsText, SendsReply, SendsEnd, sent, status_by};

use crate::errors::{InputError, OutputError, Reply};
use crate::lines::words_line;
use crate::sending::send;
use crate::statuses;
use cpa_io::Sink;
use cpa_units::NoMemory;
use std::alloc::Global;

/// The end of a call that is refused.
pub fn refused_by(status: u8, text: Vec<u8>) -> InputError
    ensures { result ≡ Refused (record { status = status; text = text }) }
{
    InputError::Refused(Reply { status, text })
}

/// The end of a call whose words aren't accepted.
pub fn refuse_words(alloc: Global) -> InputError
    ensures ended { IsWordsEnd result }
    ensures status { HasStatus result }
    ensures unread { IsNoUnread result }
{
    match words_line(alloc) {
        Ok(text) => refused_by(statuses::WORDS_REFUSED, text),
        Err(NoMemory) => InputError::Memory,
    }
}

/// Sends a reply.
pub fn send_whole<K: Sink>(sink: &mut K, reply: &Reply) -> Result<u8, OutputError>
    ensures { SendsText reply.now.status reply.now.text.items (sent (K.sent sink.old) (K.sent sink.new) (K.faults sink.old) (K.faults sink.new)) result }
{
    send(sink, reply.status, reply.text.as_slice())
}

/// Sends a reply, where memory was enough for it.
pub fn send_reply<K: Sink>(sink: &mut K, reply: Result<Reply, NoMemory>) -> Result<u8, OutputError>
    ensures { SendsReply reply (sent (K.sent sink.old) (K.sent sink.new) (K.faults sink.old) (K.faults sink.new)) result }
{
    match reply {
        Ok(reply) => send_whole(sink, &reply),
        Err(NoMemory) => Err(OutputError::Memory),
    }
}

/// Sends the line of a call that ends before its work.
pub fn send_end<K: Sink>(sink: &mut K, end: InputError) -> Result<u8, OutputError>
    ensures { SendsEnd end (sent (K.sent sink.old) (K.sent sink.new) (K.faults sink.old) (K.faults sink.new)) result }
{
    match end {
        InputError::Refused(reply) => send_whole(sink, &reply),
        InputError::Unread(text) => send_whole(
            sink,
            &Reply {
                status: statuses::FILE_UNREAD,
                text,
            },
        ),
        InputError::Memory => Err(OutputError::Memory),
    }
}

/// The status of a call, by what its sending came to.
pub fn status_of(answer: Result<u8, OutputError>) -> u8
    ensures { result ≡ status_by answer }
{
    match answer {
        Ok(status) => status,
        Err(OutputError::Sink) => statuses::SINK_FAILED,
        Err(OutputError::Memory) => statuses::OUT_OF_MEMORY,
    }
}

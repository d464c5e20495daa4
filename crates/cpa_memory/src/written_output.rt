//! What a call has written so far.

ghost use Rattle.std.specs.Prelude.{◌≡◌, []};

use cpa_io::{Sink, SinkFault};
use std::alloc::Global;

/// A sink that keeps all that is sent to it, as far as there is memory.
#[derive(Drop)]
pub struct Written {
    pub bytes: Vec<u8>,
}

impl Written {
    pub fn nothing(alloc: Global) -> Written
        ensures { result.bytes.items ≡ [] }
    {
        Written {
            bytes: Vec::new(alloc),
        }
    }
}

impl Sink for Written {
    ghost use Rattle.std.specs.Prelude.{Some};

    ghost sent = { λ written. Some written.bytes.items };

    ghost faults = { λ _. 0 };

    fn put(&mut self, piece: &[u8]) -> Result<usize, SinkFault> {
        match self.bytes.extend_from_slice(piece) {
            Ok(()) => Ok(piece.len()),
            Err(_) => Err(SinkFault::Memory),
        }
    }
}

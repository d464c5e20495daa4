//! Where output is sent, a piece at a time.

ghost use Rattle.std.specs.Prelude.{◌≡◌, ◌≤◌, ℕ, List, Option, length, take, IfOk, OnErr};
ghost use Rattle.cpa_io.specs.Causes.{Rose, grown};

/// Why a piece wasn't sent.
#[derive(Clone, Copy, Debug, PartialEq, Eq)]
pub enum SinkFault {
    /// A fault of the sink; it is counted.
    Failed,
    /// A growth of memory was refused.
    Memory,
}

/// A sink that takes the first bytes of each piece, as many as it likes.
pub trait Sink {
    /// The bytes sent so far, where the sink says what they are.
    ghost sent: { Self → Option (List ℕ) };

    /// How often a send failed.
    ghost faults: { Self → ℕ };

    /// Sends the first bytes of a piece, and says how many.
    fn put(&mut self, piece: &[u8]) -> Result<usize, SinkFault>
        ensures within { IfOk result (λ n. n ≤ length piece.now) }
        ensures some { IfOk result (λ n. 1 ≤ length piece.now → 1 ≤ n) }
        ensures sent { IfOk result (λ n. sent self.new ≡ grown (sent self.old) (take n piece.now)) }
        ensures unsent { OnErr result (sent self.new ≡ sent self.old) }

        ensures rises { faults self.old ≤ faults self.new }
        ensures failed { result ≡ Err SinkFault.Failed → Rose (faults self.old) (faults self.new) }

        // An empty piece.
        ensures empty { length piece.now ≡ 0 → result ≡ Ok 0 }
        ensures idle { length piece.now ≡ 0 → faults self.new ≡ faults self.old }
        ensures kept { length piece.now ≡ 0 → sent self.new ≡ sent self.old };
}

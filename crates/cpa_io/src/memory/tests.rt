//! Counts of faults that stand at their last value, which no call from outside can reach.

use super::{MemoryFiles, MemorySink};
use crate::files::{Files, LoadFault};
use crate::loads::FailedLoads;
use crate::sink::{Sink, SinkFault};
use std::test::Fail;

/// Counts before a fault and after it.
const COUNTS: [(u64, u64); 3] = [(0, 1), (u64::MAX - 1, u64::MAX), (u64::MAX, u64::MAX)];

/// A fault is answered and named at the last value of the count as at any other, and the next load isn't touched by it.
#[test]
fn loads_fail_at_last_count(rt: HostRuntime) -> Result<(), Fail> {
    let alloc = rt.alloc();
    for (before, after) in &COUNTS {
        let held = vec![in alloc;
            (
                String::from_str(alloc, "a")?,
                Vec::from_slice(alloc, "one".as_bytes())?
            ),
        ]?;
        let mut files = MemoryFiles {
            entries: held,
            failing: vec![in alloc; 0]?,
            calls: 0,
            failed: FailedLoads {
                count: *before,
                last: String::new(alloc),
            },
        };
        assert!(rt;
            files.load(alloc, "a", 9) == Err(LoadFault::Failed),
            "{before}"
        );
        assert!(rt;
            files.failed.count == *after && files.failed.last.as_str() == "a",
            "{before}"
        );
        assert!(rt; files.load(alloc, "a", 9).is_ok(), "{before}");
        assert!(rt; files.failed.count == *after, "{before}");
    }
    Ok(())
}

/// The same of a sink, which has sent nothing of the piece.
#[test]
fn puts_fail_at_last_count(rt: HostRuntime) -> Result<(), Fail> {
    let alloc = rt.alloc();
    for (before, after) in &COUNTS {
        let mut sink = MemorySink {
            sent: Vec::new(alloc),
            piece: 8,
            failing: vec![in alloc; 0]?,
            calls: 0,
            faults: *before,
        };
        assert!(rt;
            sink.put("ab".as_bytes()) == Err(SinkFault::Failed),
            "{before}"
        );
        assert!(rt; sink.faults == *after && sink.sent().is_empty(), "{before}");
        assert!(rt; sink.put("ab".as_bytes()) == Ok(2), "{before}");
        assert!(rt; sink.faults == *after, "{before}");
    }
    Ok(())
}

//! What a call has to do.

use cpa_audit::Schedule;
use cpa_edit::Script;
use cpa_model::System;
use cpa_trace::Trace;
use cpa_units::{ResId, TaskId};

/// What a call has to do, once all that it reads is accepted.
#[derive(Drop)]
pub enum Request {
    /// The report of a system, by 1 to 64 workers.
    Analyse {
        system: System,
        workers: u32,
    },
    /// The reports of a system under a script, by 1 to 64 workers.
    Session {
        system: System,
        script: Script,
        workers: u32,
    },
    /// What is observed of a system under a trace.
    Simulate {
        system: System,
        trace: Trace,
    },
    /// The file of the system that is generated from a seed below 2^32 and a size of at most 128.
    Generate {
        number: u64,
        size: u32,
    },
    /// The summary of such a system's analysis, by 1 to 64 workers.
    Load {
        number: u64,
        size: u32,
        workers: u32,
    },
    /// What is observed of a system under 1 to 10,000 traces that are generated from a seed below 2^32.
    Hammer {
        system: System,
        number: u64,
        traces: u64,
    },
    /// A priority order of a resource that can be given one.
    Assign {
        system: System,
        res: ResId,
    },
    /// By how much a task may grow, by 1 to 64 workers.
    Slack {
        system: System,
        task: TaskId,
        workers: u32,
    },
    /// How many jobs wait under a trace and how many can, by 1 to 64 workers.
    Buffers {
        system: System,
        trace: Trace,
        workers: u32,
    },
    /// Whether a schedule is that of a system under a trace.
    Audit {
        system: System,
        trace: Trace,
        schedule: Schedule,
    },
}

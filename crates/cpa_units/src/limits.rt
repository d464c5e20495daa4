//! The limits within which every system, file and command stays. Times are in ticks.

ghost use Rattle.std.specs.Prelude.{◌≡◌};
ghost use Rattle.cpa_units.specs.Sizes.{most_resources, most_sources, most_tasks, most_paths, most_execution, most_region, most_gap, most_limit, most_file};

/// How large a system may be, and its numbers: as formats 1 and 2 of system files have it, or as format 4 does.
#[derive(Clone, Copy, Debug, PartialEq, Eq)]
pub enum Size {
    Small,
    Large,
}

impl Size {
    /// The most resources of a system of this size.
    pub fn most_resources(self) -> u64
        ensures { result ≡ most_resources self }
    {
        match self {
            Size::Small => 64,
            Size::Large => MAX_RESOURCES,
        }
    }

    /// The most sources.
    pub fn most_sources(self) -> u64
        ensures { result ≡ most_sources self }
    {
        match self {
            Size::Small => 128,
            Size::Large => MAX_SOURCES,
        }
    }

    /// The most tasks.
    pub fn most_tasks(self) -> u64
        ensures { result ≡ most_tasks self }
    {
        match self {
            Size::Small => 512,
            Size::Large => MAX_TASKS,
        }
    }

    /// The most paths.
    pub fn most_paths(self) -> u64
        ensures { result ≡ most_paths self }
    {
        match self {
            Size::Small => 128,
            Size::Large => MAX_PATHS,
        }
    }

    /// The greatest execution and slot.
    pub fn most_execution(self) -> u64
        ensures { result ≡ most_execution self }
    {
        match self {
            Size::Small => 1_000_000,
            Size::Large => MAX_EXECUTION,
        }
    }

    /// The longest region: a small system has none of more than a tick.
    pub fn most_region(self) -> u64
        ensures { result ≡ most_region self }
    {
        match self {
            Size::Small => 1,
            Size::Large => MAX_EXECUTION,
        }
    }

    /// The greatest gap of a TDMA resource.
    pub fn most_gap(self) -> u64
        ensures { result ≡ most_gap self }
    {
        match self {
            Size::Small => 1_000_000,
            Size::Large => MAX_GAP,
        }
    }

    /// The greatest window limit.
    pub fn most_limit(self) -> u64
        ensures { result ≡ most_limit self }
    {
        match self {
            Size::Small => 10_000_000,
            Size::Large => MAX_LIMIT,
        }
    }

    /// The most bytes of a system file.
    pub fn most_file(self) -> u64
        ensures { result ≡ most_file self }
    {
        match self {
            Size::Small => MAX_SYSTEM_FILE,
            Size::Large => MAX_LARGE_FILE,
        }
    }
}

/// The most resources of a system.
pub const MAX_RESOURCES: u64 = 128;

/// The most tasks of a system.
pub const MAX_TASKS: u64 = 8_192;

/// The most sources of a system.
pub const MAX_SOURCES: u64 = 8_192;

/// The most paths of a system.
pub const MAX_PATHS: u64 = 2_048;

/// The most tasks of a chain.
pub const MAX_CHAIN: u64 = 32;

/// The greatest period, distance and deadline.
pub const MAX_PERIOD: u64 = 1_000_000_000;

/// The greatest jitter of a source.
pub const MAX_JITTER: u64 = 1_000_000_000;

/// The greatest execution, slot and region.
pub const MAX_EXECUTION: u64 = 10_000_000;

/// The greatest gap of a TDMA resource.
pub const MAX_GAP: u64 = 10_000_000;

/// The greatest cycle of a TDMA resource: a slot for each task, and the gap.
pub const MAX_CYCLE: u64 = 81_930_000_000;

/// The greatest bit time of a CAN resource.
pub const MAX_BIT: u64 = 1_000;

/// The greatest window limit of a resource, and so the greatest number in a vector.
pub const MAX_LIMIT: u64 = 100_000_000;

/// The window limit of a resource that names none.
pub const DEFAULT_LIMIT: u64 = 1_000_000;

/// The greatest priority number.
pub const MAX_PRIORITY: u64 = 536_870_911;

/// The most bytes of a payload.
pub const MAX_PAYLOAD: u64 = 8;

/// The most bytes of a name.
pub const MAX_NAME: usize = 64;

/// The most bytes of a system file of formats 1 and 2.
pub const MAX_SYSTEM_FILE: u64 = 1_048_576;

/// The most bytes of a system file of format 4.
pub const MAX_LARGE_FILE: u64 = 16_777_216;

/// The most bytes of a script file.
pub const MAX_SCRIPT_FILE: u64 = 1_048_576;

/// The most lines of a script.
pub const MAX_SCRIPT_LINES: u64 = 10_000;

/// The most bytes of a trace file, and of any file that is loaded.
pub const MAX_TRACE_FILE: u64 = 16_777_216;

/// The most rows of a trace.
pub const MAX_TRACE_ROWS: u64 = 200_000;

/// The most jobs of a trace.
pub const MAX_TRACE_JOBS: u64 = 2_000_000;

/// The last time of a trace.
pub const MAX_TRACE_TIME: u64 = 10_000_000;

/// The greatest phase of a trace.
pub const MAX_PHASE: u64 = 1_000_000_000;

/// The last tick of a simulation.
pub const HORIZON: u64 = 20_000_000;

/// The most workers of an analysis.
pub const MAX_WORKERS: u64 = 64;

/// The greatest seed from which a system or traces are generated.
pub const MAX_NUMBER: u64 = 4_294_967_295;

/// The greatest size of a generated system.
pub const MAX_SIZE: u64 = 128;

/// The most generated traces that are replayed.
pub const MAX_TRACES: u64 = 10_000;

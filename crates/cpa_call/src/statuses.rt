//! The statuses of calls. 0 to 4 are verdicts of what was asked for, and each command says which; 10 and 12 to 19 are refusals.

/// No order meets, or a deadline is missed already.
pub const NONE_MEETS: u8 = 3;

/// A schedule isn't that of the run.
pub const OTHER_SCHEDULE: u8 = 4;

/// Words that aren't accepted.
pub const WORDS_REFUSED: u8 = 10;

/// A file couldn't be read.
pub const FILE_UNREAD: u8 = 11;

/// A file is longer than files of its kind may be.
pub const FILE_TOO_LONG: u8 = 12;

/// A file is no TOML document.
pub const NOT_TOML: u8 = 13;

/// A document stands for no system.
pub const SYSTEM_REFUSED: u8 = 14;

/// Bytes are no script.
pub const SCRIPT_REFUSED: u8 = 15;

/// Bytes are no trace.
pub const TRACE_REFUSED: u8 = 16;

/// A trace doesn't obey the system.
pub const TRACE_BREACHES: u8 = 17;

/// The resource or a task that words name, or chains in a file, are refused.
pub const NAME_REFUSED: u8 = 18;

/// Bytes are no schedule.
pub const SCHEDULE_REFUSED: u8 = 19;

/// The output couldn't be written.
pub const SINK_FAILED: u8 = 20;

/// An edit of a session that is kept is refused.
pub const EDIT_REFUSED: u8 = 21;

/// A growth of memory was refused.
pub const OUT_OF_MEMORY: u8 = 30;

//! A file that is loaded, and read as TOML alone or as a system, which bench/time_reading.py times.

use cpa_file::read_system;
use cpa_io::Files;
use cpa_model::System;
use cpa_units::limits::MAX_LARGE_FILE;
use std::alloc::Global;

/// The system in a file, where there is one.
pub fn system_in<F: Files>(alloc: Global, files: &mut F, file: &str) -> Option<System> {
    let bytes = files.load(alloc, file, MAX_LARGE_FILE).ok()?;
    read_system(alloc, bytes.as_slice()).ok()
}

/// What becomes of a file that is loaded, or read besides.
pub fn answer<F: Files>(alloc: Global, files: &mut F, way: &str, file: &str) -> &'static str {
    let Ok(bytes) = files.load(alloc, file, MAX_LARGE_FILE) else {
        return "unread";
    };
    let accepted = match way {
        "toml" => toml::table_from_slice(alloc, bytes.as_slice()).is_ok(),
        "system" => read_system(alloc, bytes.as_slice()).is_ok(),
        _ => true,
    };
    if accepted { "accepted" } else { "refused" }
}

//! A trace that is loaded, read, and judged, which bench/time_traces.py times.

ghost use Rattle.cpa_trace.specs.Trace.{FitsSystem};

use crate::reading::system_in;
use cpa_io::Files;
use cpa_model::System;
use cpa_trace::{Trace, obeys, read_trace};
use cpa_units::limits::MAX_TRACE_FILE;
use std::alloc::Global;

/// How often a trace is judged by each way that judges it.
fn turns(way: &str) -> u32 {
    match way {
        "judge" => 1,
        "judge-100-times" => 100,
        _ => 0,
    }
}

/// What becomes of a trace that is read, and judged as often as the way says.
fn judge(alloc: Global, system: &System, trace: &Trace, way: &str) -> &'static str
    requires { FitsSystem system.now trace.now }
{
    let mut answer = "read";
    for _ in 0..turns(way) {
        answer = match obeys(alloc, system, trace) {
            Ok(None) => "obeys",
            Ok(Some(_)) => "breach",
            Err(_) => "out of memory",
        };
    }
    answer
}

/// What becomes of a trace that is loaded, and read or judged besides.
pub fn answer<F: Files>(
    alloc: Global,
    files: &mut F,
    way: &str,
    file: &str,
    trace: &str,
) -> &'static str {
    let Some(system) = system_in(alloc, files, file) else {
        return "no system";
    };
    let Ok(bytes) = files.load(alloc, trace, MAX_TRACE_FILE) else {
        return "unread";
    };
    if way == "load" {
        return "loaded";
    }
    match read_trace(alloc, &system, bytes.as_slice()) {
        Ok(trace) => judge(alloc, &system, &trace, way),
        Err(_) => "refused",
    }
}

//! A script that is loaded, read, and whose edits are applied to a system, which bench/time_edits.py times.

use crate::reading::system_in;
use cpa_edit::{Script, Step, apply, read_script};
use cpa_io::Files;
use cpa_model::System;
use cpa_units::limits::MAX_SCRIPT_FILE;
use std::alloc::Global;

/// Applies the edits of a script, and answers whether all were accepted.
fn apply_all(alloc: Global, system: &mut System, script: &Script) -> bool {
    let mut accepted = true;
    for k in 0..script.len() {
        if let Step::Change(edit) = script.step(k) {
            accepted = apply(alloc, system, edit).is_ok() && accepted;
        }
    }
    accepted
}

/// What becomes of a script that is loaded, and read or applied besides.
pub fn answer<F: Files>(
    alloc: Global,
    files: &mut F,
    way: &str,
    file: &str,
    script: &str,
) -> &'static str {
    let Some(mut system) = system_in(alloc, files, file) else {
        return "no system";
    };
    let Ok(bytes) = files.load(alloc, script, MAX_SCRIPT_FILE) else {
        return "unread";
    };
    if way == "load" {
        return "loaded";
    }
    match read_script(alloc, bytes.as_slice()) {
        Err(_) => "refused",
        Ok(_) if way == "read" => "read",
        Ok(script) if apply_all(alloc, &mut system, &script) => "applied",
        Ok(_) => "some edit refused",
    }
}

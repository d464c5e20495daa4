//! The line that says what an audit found.

ghost use Rattle.std.specs.Prelude.{◌≡◌, ◌<◌, ◌++◌, length, Some, OnOk, IfOk};
ghost use Rattle.std.specs.Option.{ForSome};
ghost use Rattle.cpa_audit.specs.AuditText.{expected_text, audit_text, NamesTasks};

use crate::finding::Finding;
use crate::schedule::{Schedule, Segment};
use cpa_model::System;
use cpa_text::Text;
use cpa_units::NoMemory;
use std::alloc::Global;

fn put_segment(text: &mut Text, system: &System, segment: Segment) -> Result<(), NoMemory>
    requires { segment.task.0 < length system.now.tasks }
    ensures { OnOk result (text.new ≡ text.old ++ expected_text system.now (Some segment)) }
{
    text.put(system.task(segment.task).name.bytes())?;
    text.put_count(b" ", segment.start)?;
    text.put_count(b" ", segment.end)
}

fn put_expected(text: &mut Text, system: &System, expected: Option<Segment>) -> Result<(), NoMemory>
    requires { ForSome expected (λ seg. seg.task.0 < length system.now.tasks) }
    ensures { OnOk result (text.new ≡ text.old ++ expected_text system.now expected) }
{
    match expected {
        None => text.put(b"none"),
        Some(segment) => put_segment(text, system, segment),
    }
}

/// The line that says what an audit found. A task that is expected belongs to the system.
#[tactic(auto, unfolding(crate::specs::AuditText::audit_text))]
pub fn audit_text(
    alloc: Global,
    system: &System,
    schedule: &Schedule,
    finding: &Finding,
) -> Result<Vec<u8>, NoMemory>
    requires { NamesTasks system.now finding.now }
    ensures { IfOk result (λ v. v.items ≡ audit_text system.now (length schedule.now) finding.now) }
{
    let mut text = Text::new(alloc);
    match *finding {
        Finding::Same => text.put_count(b"audit same segments ", u64::from(schedule.len()))?,
        Finding::Wrong { segment, expected } => {
            text.put_count(b"audit wrong segment ", u64::from(segment))?;
            text.put(b" expected ")?;
            put_expected(&mut text, system, expected)?;
        }
    }
    text.put(b"\n")?;
    Ok(text.into_bytes())
}

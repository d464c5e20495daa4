//! The lines of the refusals of scripts, schedules, resources, tasks and edits.

ghost use Rattle.std.specs.Prelude.{◌≡◌, IfOk};
ghost use Rattle.cpa_run.specs.Lines.{script_refused, edit_refused, assign_refused, slack_refused, schedule_refused, schedule_row_refused};

use cpa_audit::ScheduleFault;
use cpa_edit::{EditRefusal, ScriptFault};
use cpa_text::Text;
use cpa_units::NoMemory;
use std::alloc::Global;

/// The line of a resource that can't be given an order, with the number of the reason.
pub fn assign_line(alloc: Global, number: u64) -> Result<Vec<u8>, NoMemory>
    ensures { IfOk result (λ v. v.items ≡ assign_refused number) }
{
    let mut text = Text::new(alloc);
    text.put_count(b"assign refused ", number)?;
    text.put(b"\n")?;
    Ok(text.into_bytes())
}

/// The line of a task that isn't there.
pub fn slack_line(alloc: Global) -> Result<Vec<u8>, NoMemory>
    ensures { IfOk result (λ v. v.items ≡ slack_refused) }
{
    Ok(Vec::from_slice(alloc, b"slack refused 1\n")?)
}

/// The line of a script that is refused; out of memory has none.
pub fn script_line(alloc: Global, fault: ScriptFault) -> Result<Vec<u8>, NoMemory>
    ensures { IfOk result (λ v. v.items ≡ script_refused fault) }
{
    let mut text = Text::new(alloc);
    match fault {
        ScriptFault::BadLine(line) => {
            text.put_count(b"script refused line ", u64::from(line))?;
            text.put(b"\n")?;
        }
        ScriptFault::TooManyLines => text.put(b"script refused too many lines\n")?,
        ScriptFault::Memory => {}
    }
    Ok(text.into_bytes())
}

fn schedule_row_line(alloc: Global, row: u32, why: &[u8]) -> Result<Vec<u8>, NoMemory>
    ensures { IfOk result (λ v. v.items ≡ schedule_row_refused row why.now) }
{
    let mut text = Text::new(alloc);
    text.put_count(b"schedule refused row ", u64::from(row))?;
    text.put(why)?;
    Ok(text.into_bytes())
}

/// The line of a schedule that is refused; out of memory has none.
pub fn schedule_line(alloc: Global, fault: ScheduleFault) -> Result<Vec<u8>, NoMemory>
    ensures { IfOk result (λ v. v.items ≡ schedule_refused fault) }
{
    match fault {
        ScheduleFault::BadRow(row) => schedule_row_line(alloc, row, b" malformed\n"),
        ScheduleFault::UnknownName(row) => schedule_row_line(alloc, row, b" name\n"),
        ScheduleFault::OutOfRange(row) => schedule_row_line(alloc, row, b" range\n"),
        ScheduleFault::TooMany => Ok(Vec::from_slice(alloc, b"schedule refused too many\n")?),
        ScheduleFault::Memory => Ok(Vec::new(alloc)),
    }
}

/// The line of a session where an edit is refused.
pub fn edit_line(alloc: Global, line: u32, number: EditRefusal) -> Result<Vec<u8>, NoMemory>
    ensures { IfOk result (λ v. v.items ≡ edit_refused line number) }
{
    let mut text = Text::new(alloc);
    text.put_count(b"line ", u64::from(line))?;
    text.put_count(b" refused ", u64::from(number.0))?;
    text.put(b"\n")?;
    Ok(text.into_bytes())
}

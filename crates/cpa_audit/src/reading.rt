//! From the bytes of a schedule file to a schedule.

ghost use Rattle.std.specs.Prelude.{◌≡◌, ◌<◌, ◌≤◌, [], length, Ok, IfOk, OnOk, IfErr, option_map};
ghost use Rattle.cpa_model.specs.SystemLists.{task_named};
ghost use Rattle.csv.specs.Records.{fields_of};
ghost use Rattle.cpa_units.specs.Digits.{number_of};
ghost use Rattle.cpa_trace.specs.Index.{IsIndex};
ghost use Rattle.cpa_trace.specs.Rows.{rows_left, IsReading};
ghost use Rattle.cpa_audit.specs.ScheduleReading.{seen, entry_by, entry_of, segment_of, read_row, read_from, schedule_of, IsFaultOf};

use crate::fault::ScheduleFault;
use crate::schedule::{Schedule, Segment};
use cpa_model::System;
use cpa_trace::index::Index;
use cpa_trace::rows::{next_row, rows_of};
use cpa_units::limits::{HORIZON, MAX_TRACE_ROWS};
use cpa_units::read_number;
use csv::{ByteRecord, Reader};
use std::alloc::Global;

/// A row: the name of a task, and two numbers of ticks.
#[derive(Clone, Copy)]
pub(crate) struct Row<'a> {
    pub(crate) name: &'a [u8],
    pub(crate) start: u64,
    pub(crate) end: u64,
}

/// A row by its three fields.
fn row_by<'a>(name: &'a [u8], start: &[u8], end: &[u8]) -> Option<Row<'a>>
    ensures { option_map seen result ≡ entry_by name.now (number_of start.now) (number_of end.now) }
{
    match (read_number(start), read_number(end)) {
        (Some(start), Some(end)) => Some(Row { name, start, end }),
        _ => None,
    }
}

/// A row, where its fields are three of the right form.
fn row_of(fields: &ByteRecord) -> Option<Row<'_>>
    ensures { option_map seen result ≡ entry_of (fields_of fields.now) }
{
    if fields.len() != 3 {
        return None;
    }
    row_by(fields.get(0)?, fields.get(1)?, fields.get(2)?)
}

/// The segment that a row in the right form gives, which has this number.
fn segment_by(
    system: &System,
    index: &Index,
    row: u32,
    entry: &Row,
) -> Result<Segment, ScheduleFault>
    requires { IsIndex system.now index.now }
    ensures ok { IfOk result (λ seg. segment_of row entry.now.start entry.now.end (task_named system.now entry.now.name.now) ≡ Ok seg) }
    ensures err { IfErr result (λ f. IsFaultOf f (segment_of row entry.now.start entry.now.end (task_named system.now entry.now.name.now))) }
{
    let Some(task) = index.task(system, entry.name) else {
        return Err(ScheduleFault::UnknownName(row));
    };
    if entry.end <= entry.start || HORIZON < entry.end {
        return Err(ScheduleFault::OutOfRange(row));
    }
    Ok(Segment {
        task,
        start: entry.start,
        end: entry.end,
    })
}

/// The segment that the row with this number gives.
fn segment_of(
    system: &System,
    index: &Index,
    row: u32,
    fields: &ByteRecord,
) -> Result<Segment, ScheduleFault>
    requires { IsIndex system.now index.now }
    ensures ok { IfOk result (λ seg. read_row system.now row (fields_of fields.now) ≡ Ok seg) }
    ensures err { IfErr result (λ f. IsFaultOf f (read_row system.now row (fields_of fields.now))) }
{
    match row_of(fields) {
        None => Err(ScheduleFault::BadRow(row)),
        Some(entry) => segment_by(system, index, row, &entry),
    }
}

/// All rows are read, unless one is refused.
fn read_rows(
    system: &System,
    index: &Index,
    schedule: &mut Schedule,
    reader: &mut Reader<&[u8]>,
    fields: &mut ByteRecord,
) -> Result<(), ScheduleFault>
    requires index { IsIndex system.now index.now }
    requires empty { schedule.old ≡ [] }
    requires reading { IsReading reader.old }
    ensures ok { OnOk result (read_from system.now 1 [] (rows_left reader.old) ≡ Ok schedule.new) }
    ensures err { IfErr result (λ f. IsFaultOf f (read_from system.now 1 [] (rows_left reader.old))) }
{
    for row in 1..=MAX_TRACE_ROWS as u32 {
        if !next_row(reader, fields)? {
            return Ok(());
        }
        let segment = segment_of(system, index, row, fields)?;
        schedule.push(segment)?;
    }
    if next_row(reader, fields)? {
        return Err(ScheduleFault::TooMany);
    }
    Ok(())
}

/// The rows in the bytes of a file are read, unless one is refused.
fn read_bytes(
    alloc: Global,
    system: &System,
    index: &Index,
    schedule: &mut Schedule,
    bytes: &[u8],
) -> Result<(), ScheduleFault>
    requires index { IsIndex system.now index.now }
    requires empty { schedule.old ≡ [] }
    ensures ok { OnOk result (schedule_of system.now bytes.now ≡ Ok schedule.new) }
    ensures err { IfErr result (λ f. IsFaultOf f (schedule_of system.now bytes.now)) }
{
    let mut reader = rows_of(alloc, bytes);
    let mut fields = ByteRecord::new(alloc);
    read_rows(system, index, schedule, &mut reader, &mut fields)
}

/// The rows in the bytes of a file are read by the names of the system, unless one is refused.
fn read_file(
    alloc: Global,
    system: &System,
    schedule: &mut Schedule,
    bytes: &[u8],
) -> Result<(), ScheduleFault>
    requires { schedule.old ≡ [] }
    ensures ok { OnOk result (schedule_of system.now bytes.now ≡ Ok schedule.new) }
    ensures err { IfErr result (λ f. IsFaultOf f (schedule_of system.now bytes.now)) }
{
    let index = Index::of(alloc, system)?;
    read_bytes(alloc, system, &index, schedule, bytes)
}

/// The schedule that the bytes of a file stand for. The first refusal is reported, in the order of the rows.
pub fn read_schedule(
    alloc: Global,
    system: &System,
    bytes: &[u8],
) -> Result<Schedule, ScheduleFault>
    ensures ok { IfOk result (λ schedule. schedule_of system.now bytes.now ≡ Ok schedule) }
    ensures err { IfErr result (λ f. IsFaultOf f (schedule_of system.now bytes.now)) }
{
    let mut schedule = Schedule::empty(alloc);
    read_file(alloc, system, &mut schedule, bytes)?;
    Ok(schedule)
}

//! The rows of a schedule, written along a run and sent in pieces. Times are in ticks.

ghost use Rattle.std.specs.Prelude.{◌≡◌, ◌<◌, ◌≤◌, ◌++◌, [], length, Err, IfOk, OnOk, OnErr};
ghost use Rattle.std.specs.Option.{ForSome, option_to_list};
ghost use Rattle.cpa_io.specs.Causes.{Rose, SentPart, grown};
ghost use Rattle.cpa_sim.specs.Outcome.{CanReplay, end_of};
ghost use Rattle.cpa_audit.specs.Segments.{starting, started, segments};
ghost use Rattle.cpa_call.specs.declared.errors.OutputError.TheVariants as stopped;
ghost use Rattle.cpa_segments.specs.Tracking.{AreTracking};
ghost use Rattle.cpa_segments.specs.Rows.{row_text, schedule_text};
ghost use Rattle.cpa_segments.specs.Written.{IsWritten};

use crate::tracking::{SegmentTracker, follow};
use cpa_audit::Segment;
use cpa_call::errors::OutputError;
use cpa_io::{Sink, put_all};
use cpa_model::System;
use cpa_sim::Replay;
use cpa_text::Text;
use cpa_trace::Trace;
use cpa_units::{NoMemory, ResId};
use std::alloc::Global;

/// From this many bytes on what is written is sent.
const FULL: usize = 65_536;

/// The row of a segment.
#[tactic(auto, unfolding(crate::specs::Rows::row_text))]
fn row_text(alloc: Global, system: &System, segment: Segment) -> Result<Vec<u8>, NoMemory>
    requires { segment.task.0 < length system.now.tasks }
    ensures { IfOk result (λ v. v.items ≡ row_text system.now segment) }
{
    let mut text = Text::new(alloc);
    text.put(system.task(segment.task).name.bytes())?;
    text.put_count(b",", segment.start)?;
    text.put_count(b",", segment.end)?;
    text.put(b"\n")?;
    Ok(text.into_bytes())
}

/// Writes the row of a segment behind what isn't sent.
fn put_row(
    alloc: Global,
    system: &System,
    segment: Segment,
    unsent: &mut Vec<u8>,
) -> Result<(), NoMemory>
    requires { segment.task.0 < length system.now.tasks }
    ensures { OnOk result (unsent.new.items ≡ unsent.old.items ++ row_text system.now segment) }
{
    let row = row_text(alloc, system, segment)?;
    unsent.extend_from_slice(row.as_slice())?;
    Ok(())
}

/// Sends what is written, if that is enough for a piece.
fn send_full<K: Sink>(unsent: &mut Vec<u8>, sink: &mut K) -> Result<(), OutputError>
    ensures written { OnOk result (IsWritten (K.sent sink.old) (K.sent sink.new) unsent.old.items unsent.new.items []) }
    ensures part { OnErr result (SentPart (K.sent sink.old) (K.sent sink.new) unsent.old.items) }
    ensures rises { K.faults sink.old ≤ K.faults sink.new }
    ensures failed { result ≡ Err stopped.Sink → Rose (K.faults sink.old) (K.faults sink.new) }
{
    if unsent.len() < FULL {
        return Ok(());
    }
    put_all(sink, unsent.as_slice())?;
    unsent.clear();
    Ok(())
}

/// Writes the row of a segment, where one starts, and sends what is written, if that is enough for a piece.
fn put_segment<K: Sink>(
    alloc: Global,
    system: &System,
    segment: Option<Segment>,
    unsent: &mut Vec<u8>,
    sink: &mut K,
) -> Result<(), OutputError>
    requires { ForSome segment (λ seg. seg.task.0 < length system.now.tasks) }
    ensures written { OnOk result (IsWritten (K.sent sink.old) (K.sent sink.new) unsent.old.items unsent.new.items (schedule_text system.now (option_to_list segment))) }
    ensures part { OnErr result (SentPart (K.sent sink.old) (K.sent sink.new) (unsent.old.items ++ schedule_text system.now (option_to_list segment))) }
    ensures rises { K.faults sink.old ≤ K.faults sink.new }
    ensures failed { result ≡ Err stopped.Sink → Rose (K.faults sink.old) (K.faults sink.new) }
{
    match segment {
        None => Ok(()),
        Some(segment) => {
            put_row(alloc, system, segment, unsent)?;
            send_full(unsent, sink)
        }
    }
}

/// A schedule that is written along a run: what is followed of each resource, and what wasn't sent yet.
#[derive(Drop)]
struct Writing<'a> {
    trackers: Vec<SegmentTracker<'a>>,
    unsent: Vec<u8>,
}

impl<'a> Writing<'a> {
    /// Nothing written so far.
    fn start(alloc: Global, system: &'a System, trace: &'a Trace) -> Result<Writing<'a>, NoMemory>
        requires { CanReplay system.now trace.now }
        ensures long { IfOk result (λ w. length w.trackers.items ≡ length system.now.resources) }
        ensures tracking { IfOk result (λ w. AreTracking system.now trace.now 0 0 0 w.trackers.items) }
        ensures unsent { IfOk result (λ w. w.unsent.items ≡ []) }
    {
        let mut trackers = Vec::new(alloc);
        for k in 0..system.resources() {
            let tracker = SegmentTracker::start(alloc, system, trace)?;
            trackers.push(tracker)?;
        }
        Ok(Writing {
            trackers,
            unsent: Vec::new(alloc),
        })
    }

    /// Writes the rows of the segments that start in the ticks that a replay has passed last, which all start with
    /// the first of them.
    fn write_moment<K: Sink>(
        &mut self,
        alloc: Global,
        system: &System,
        replay: &Replay<'_>,
        time: u64,
        sink: &mut K,
    ) -> Result<(), OutputError>
        requires system { replay.now.system ≡ system.now }
        requires since { replay.now.since ≡ time }
        requires later { time < replay.now.time }
        requires within { replay.now.time ≤ end_of system.now replay.now.trace }
        requires long { length self.old.trackers.items ≡ length system.now.resources }
        requires tracking { AreTracking system.now replay.now.trace 0 time time self.old.trackers.items }
        ensures long { OnOk result (length self.new.trackers.items ≡ length system.now.resources) }
        ensures tracking { OnOk result (AreTracking system.now replay.now.trace 0 replay.now.time replay.now.time self.new.trackers.items) }
        ensures started { OnOk result (started system.now replay.now.trace replay.now.time ≡ started system.now replay.now.trace time ++ starting system.now replay.now.trace time) }
        ensures written { OnOk result (IsWritten (K.sent sink.old) (K.sent sink.new) self.old.unsent.items self.new.unsent.items (schedule_text system.now (starting system.now replay.now.trace time))) }
        ensures part { OnErr result (SentPart (K.sent sink.old) (K.sent sink.new) (self.old.unsent.items ++ schedule_text system.now (starting system.now replay.now.trace time))) }
        ensures rises { K.faults sink.old ≤ K.faults sink.new }
        ensures failed { result ≡ Err stopped.Sink → Rose (K.faults sink.old) (K.faults sink.new) }
    {
        for k in 0..system.resources() {
            let ran = replay.ran(ResId(k));
            let segment = follow(&mut self.trackers[k as usize], ResId(k), ran, time);
            put_segment(alloc, system, segment, &mut self.unsent, sink)?;
        }
        Ok(())
    }
}

/// Sends the schedule of the run of a trace, in pieces of some 64 KB, with status 0. The condition on the trace is that of
/// `Replay::start`. Memory is wanted for a piece and a row, and for a replay of each resource beside that of all,
/// however many jobs and segments there are: a segment's end is found by the replay of its resource, which goes
/// ahead to it.
pub(crate) fn send_schedule<K: Sink>(
    alloc: Global,
    system: &System,
    trace: &Trace,
    sink: &mut K,
) -> Result<u8, OutputError>
    requires { CanReplay system.now trace.now }
    ensures told { IfOk result (λ told. told ≡ 0) }
    ensures sent { OnOk result (K.sent sink.new ≡ grown (K.sent sink.old) (schedule_text system.now (segments system.now trace.now))) }
    ensures part { OnErr result (SentPart (K.sent sink.old) (K.sent sink.new) (schedule_text system.now (segments system.now trace.now))) }
    ensures rises { K.faults sink.old ≤ K.faults sink.new }
    ensures failed { result ≡ Err stopped.Sink → Rose (K.faults sink.old) (K.faults sink.new) }
{
    let mut replay = Replay::start(alloc, system, trace)?;
    let mut writing = Writing::start(alloc, system, trace)?;
    'moments: while replay.goes_on() {
        let time = replay.time();
        replay.advance();
        writing.write_moment(alloc, system, &replay, time, sink)?;
    }
    put_all(sink, writing.unsent.as_slice())?;
    Ok(0)
}

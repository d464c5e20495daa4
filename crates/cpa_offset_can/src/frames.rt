//! The frames of a busy window.

ghost use Rattle.std.specs.Prelude.{◌≡◌, ◌+◌, ◌^◌, ◌≤◌, IfSome, IfNone};
ghost use Rattle.cpa_units.specs.declared.bound.Bound.{Bound};
ghost use Rattle.cpa_units.specs.declared.limits.TheConstants.{MAX_BIT, MAX_EXECUTION, MAX_LIMIT};
ghost use Rattle.cpa_units.specs.Bounds.{greatest_of};
ghost use Rattle.cpa_units.specs.Numbers.{IsExecution};
ghost use Rattle.cpa_window.specs.Rivals.{AreRivals};
ghost use Rattle.cpa_window.specs.Windows.{IsWindow};
ghost use Rattle.cpa_phase.specs.Streams.{ArePhased};
ghost use Rattle.cpa_phase.specs.Clocks.{AreClocks};
ghost use Rattle.cpa_phase.specs.Known.{AreKnown};
ghost use Rattle.cpa_offset.specs.Jobs.{others_work};
ghost use Rattle.cpa_offset_can.specs.CanOffsets.{frame_response, frames_bound};
ghost use Rattle.cpa_offset_can.specs.Frames.{busy_work, start_work};

use crate::own::OwnFrames;
use cpa_phase::{Clock, KnownWork, Phased, phased_work};
use cpa_units::Bound;
use cpa_units::limits::{MAX_BIT, MAX_EXECUTION, MAX_LIMIT};
use cpa_window::{Rival, work_in};

/// What comes before the start of a frame: a frame of lower priority, the task's own earlier frames, and all that
/// others ask for from the start of the window up to a bit time after it, all of it bounded.
#[derive(Clone, Copy)]
pub(crate) struct FrameStarts<'a> {
    pub(crate) worst: u64,
    pub(crate) blocking: u64,
    pub(crate) bit: u64,
    pub(crate) phased: &'a [Phased],
    pub(crate) clocks: &'a [Clock],
    pub(crate) free: &'a [Rival],
    ghost execution: { IsExecution worst },
    ghost blocking_in_range: { blocking ≤ MAX_EXECUTION },
    ghost bit_in_range: { bit ≤ MAX_BIT },
    ghost phased_in_range: { ArePhased phased.now },
    ghost clocks_in_range: { AreClocks clocks.now },
    ghost free_in_range: { AreRivals free.now },
}

/// What others ask for in a window. What other clocks ask for is looked for among what is known.
#[inline(always)]
fn others_in(starts: &FrameStarts, known: &mut KnownWork, window: u64) -> u128
    requires window { window ≤ MAX_LIMIT + MAX_BIT }
    requires known { AreKnown starts.now.clocks.now known.old }
    ensures value { result ≡ others_work starts.now.phased.now starts.now.clocks.now starts.now.free.now window }
    ensures small { result ≤ 2 ^ 89 }
    ensures known { AreKnown starts.now.clocks.now known.new }
{
    let elsewhere = known.work_in(starts.clocks, window) + work_in(starts.free, window);
    phased_work(starts.phased, window) + elsewhere
}

/// What keeps the bus busy in a window: one frame of lower priority, and all of the task's own and of others.
#[inline(always)]
fn busy_work<O: OwnFrames>(
    own: &O,
    starts: &FrameStarts,
    known: &mut KnownWork,
    window: u64,
) -> u128
    requires window { window ≤ MAX_LIMIT }
    requires known { AreKnown starts.now.clocks.now known.old }
    ensures value { result ≡ busy_work starts.now.worst starts.now.blocking (O.frames own.now) (others_work starts.now.phased.now starts.now.clocks.now starts.now.free.now) window }
    ensures known { AreKnown starts.now.clocks.now known.new }
{
    let frames = u128::from(starts.blocking + own.work_in(window, starts.worst));
    frames + others_in(starts, known, window)
}

/// What comes before the start of a frame, where so many of the task's own came earlier.
#[inline(always)]
fn start_work(starts: &FrameStarts, known: &mut KnownWork, earlier: u64, window: u64) -> u128
    requires earlier { earlier ≤ MAX_LIMIT }
    requires window { window ≤ MAX_LIMIT }
    requires known { AreKnown starts.now.clocks.now known.old }
    ensures value { result ≡ start_work starts.now.worst starts.now.blocking (others_work starts.now.phased.now starts.now.clocks.now starts.now.free.now) starts.now.bit earlier window }
    ensures known { AreKnown starts.now.clocks.now known.new }
{
    let frames = u128::from(starts.blocking + earlier * starts.worst);
    frames + others_in(starts, known, window + starts.bit)
}

/// The least window from 1 to `limit` in which the bus is done with what keeps it busy; none where there is none.
fn busy_window<O: OwnFrames>(
    own: &O,
    starts: &FrameStarts,
    known: &mut KnownWork,
    limit: u64,
) -> Option<u64>
    requires limit { limit ≤ MAX_LIMIT }
    requires known { AreKnown starts.now.clocks.now known.old }
    ensures found { IfSome result (λ end. IsWindow (λ w. Bound.Within (busy_work starts.now.worst starts.now.blocking (O.frames own.now) (others_work starts.now.phased.now starts.now.clocks.now starts.now.free.now) w)) 1 limit (Bound.Within end)) }
    ensures none { IfNone result (IsWindow (λ w. Bound.Within (busy_work starts.now.worst starts.now.blocking (O.frames own.now) (others_work starts.now.phased.now starts.now.clocks.now starts.now.free.now) w)) 1 limit Bound.Overload) }
    ensures known { AreKnown starts.now.clocks.now known.new }
{
    let mut window = 1;
    while window <= limit {
        let need = busy_work(own, starts, known, window);
        if need <= u128::from(window) {
            return Some(window);
        }
        if need > u128::from(limit) {
            return None;
        }
        window = need as u64;
    }
    None
}

/// The least window from `from` to `limit` after which a frame starts, where so many came earlier; none where there is none.
fn start_of(
    starts: &FrameStarts,
    known: &mut KnownWork,
    earlier: u64,
    from: u64,
    limit: u64,
) -> Option<u64>
    requires earlier { earlier ≤ MAX_LIMIT }
    requires limit { limit ≤ MAX_LIMIT }
    requires known { AreKnown starts.now.clocks.now known.old }
    ensures found { IfSome result (λ end. IsWindow (λ w. Bound.Within (start_work starts.now.worst starts.now.blocking (others_work starts.now.phased.now starts.now.clocks.now starts.now.free.now) starts.now.bit earlier w)) from limit (Bound.Within end)) }
    ensures none { IfNone result (IsWindow (λ w. Bound.Within (start_work starts.now.worst starts.now.blocking (others_work starts.now.phased.now starts.now.clocks.now starts.now.free.now) starts.now.bit earlier w)) from limit Bound.Overload) }
    ensures known { AreKnown starts.now.clocks.now known.new }
{
    let mut window = from;
    while window <= limit {
        let need = start_work(starts, known, earlier, window);
        if need <= u128::from(window) {
            return Some(window);
        }
        if need > u128::from(limit) {
            return None;
        }
        window = need as u64;
    }
    None
}

/// The greatest response of the frames of a busy window.
pub(crate) fn frames_bound<O: OwnFrames>(
    own: &O,
    starts: &FrameStarts,
    known: &mut KnownWork,
    limit: u64,
) -> Bound
    requires limit { limit ≤ MAX_LIMIT }
    requires known { AreKnown starts.now.clocks.now known.old }
    ensures value { result ≡ frames_bound starts.now.worst starts.now.blocking (λ w. Bound.Within (others_work starts.now.phased.now starts.now.clocks.now starts.now.free.now w)) (O.frames own.now) (O.earliest own.now) starts.now.bit limit }
    ensures known { AreKnown starts.now.clocks.now known.new }
{
    match busy_window(own, starts, known, limit) {
        Some(busy) => greatest_response(own, starts, known, own.frames_in(busy), limit),
        None => Bound::Overload,
    }
}

/// The greatest response of so many frames from the start of a busy window on.
fn greatest_response<O: OwnFrames>(
    own: &O,
    starts: &FrameStarts,
    known: &mut KnownWork,
    frames: u64,
    limit: u64,
) -> Bound
    requires frames { frames ≤ MAX_LIMIT }
    requires limit { limit ≤ MAX_LIMIT }
    requires known { AreKnown starts.now.clocks.now known.old }
    ensures value { result ≡ greatest_of (frame_response starts.now.worst starts.now.blocking (λ w. Bound.Within (others_work starts.now.phased.now starts.now.clocks.now starts.now.free.now w)) (O.earliest own.now) starts.now.bit limit) frames }
    ensures known { AreKnown starts.now.clocks.now known.new }
{
    let mut from = 0;
    let mut greatest: u64 = 0;
    for earlier in 0..frames {
        let Some(start) = start_of(starts, known, earlier, from, limit) else {
            return Bound::Overload;
        };
        let end = start + starts.worst;
        if end > limit {
            return Bound::Overload;
        }
        greatest = greatest.max(end.saturating_sub(own.earliest_of(earlier + 1)));
        from = end;
    }
    Bound::Within(greatest)
}

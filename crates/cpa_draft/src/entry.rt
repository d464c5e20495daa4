//! What each entry of a draft has: a name, and numbers in their ranges.

ghost use Rattle.std.specs.Prelude.{◌≡◌, ◌<◌, ◌-◌, ◌^◌, ◌&&◌, nat_le, not, IfSome};
ghost use Rattle.std.specs.List.{list_all};
ghost use Rattle.cpa_units.specs.Name.{is_name};
ghost use Rattle.cpa_draft.specs.First.{first_place};
ghost use Rattle.cpa_draft.specs.Refusals.{resource_fits, is_fifo, is_ceiling, is_later_kind, kind_fits, most_payload, lock_fits, locks_fit, have_lock_names, sporadic_fits, clock_fits, offset_fits, has_clock_name, source_fits, task_fits, path_fits};

use crate::draft::{DraftLock, DraftPath, DraftResource, DraftSource, DraftTask, KindWord, Raw};
use crate::numbers::{is_within, may_be_within, natural};
use crate::ports::{MAX_PORT_PAYLOAD, MAX_RATE};
use cpa_units::is_name;
use cpa_units::limits::{MAX_BIT, MAX_JITTER, MAX_PAYLOAD, MAX_PERIOD, MAX_PRIORITY, Size};

/// What has a name, or is one.
pub trait Named {
    ghost use Rattle.std.specs.Prelude.{◌≡◌, List, ℕ};

    ghost named: { Self → List ℕ };

    fn name(&self) -> &[u8]
        ensures { result.now ≡ named self.now };
}

/// An entry of one of the four lists.
pub trait Entry {
    ghost use Rattle.std.specs.Prelude.{◌≡◌, Bool};
    ghost use Rattle.cpa_units.specs.declared.limits.Size.{Size};

    /// Whether all numbers are in their ranges, which go by the size that a system may have.
    ghost fits: { Size → Self → Bool };

    fn fits(&self, size: Size) -> bool
        ensures { result ≡ fits size self.now };
}

impl Named for Raw {
    ghost named = { λ name. name };

    fn name(&self) -> &[u8] {
        self.bytes()
    }
}

impl Named for DraftResource {
    ghost named = { λ e. e.name };

    fn name(&self) -> &[u8] {
        self.name.bytes()
    }
}

impl Entry for DraftResource {
    ghost fits = { resource_fits };

    fn fits(&self, size: Size) -> bool {
        may_be_within(1, size.most_limit(), self.limit)
            && may_be_within(0, size.most_gap(), self.gap)
            && may_be_within(1, MAX_BIT, self.bit)
            && may_be_within(1, MAX_RATE, self.rate)
            && kind_fits(size, is_later_kind(self.kind))
    }
}

pub(crate) fn is_fifo(kind: KindWord) -> bool
    ensures { result ≡ is_fifo kind }
{
    match kind {
        KindWord::Fifo => true,
        _ => false,
    }
}

pub(crate) fn is_ceiling(kind: KindWord) -> bool
    ensures { result ≡ is_ceiling kind }
{
    match kind {
        KindWord::Ceiling => true,
        _ => false,
    }
}

/// Whether the kind is one of large systems alone.
fn is_later_kind(kind: KindWord) -> bool
    ensures { result ≡ is_later_kind kind }
{
    is_fifo(kind) || is_ceiling(kind)
}

/// No resource of a small system is of a kind of large systems alone.
fn kind_fits(size: Size, later: bool) -> bool
    ensures { result ≡ kind_fits size later }
{
    match size {
        Size::Small => !later,
        Size::Large => true,
    }
}

/// The greatest payload of a frame in bytes: one on a port has more room than one on a CAN bus.
fn most_payload(size: Size) -> u64
    ensures { result ≡ most_payload size }
{
    match size {
        Size::Small => MAX_PAYLOAD,
        Size::Large => MAX_PORT_PAYLOAD,
    }
}

impl Named for DraftSource {
    ghost named = { λ e. e.name };

    fn name(&self) -> &[u8] {
        self.name.bytes()
    }
}

impl Entry for DraftSource {
    ghost fits = { source_fits };

    fn fits(&self, size: Size) -> bool {
        is_within(1, MAX_PERIOD, self.period)
            && may_be_within(0, MAX_JITTER, self.jitter)
            && may_be_within(0, natural(self.period), self.distance)
            && sporadic_fits(size, self.sporadic)
            && clock_fits(size, self.clock.is_some())
            && offset_fits(self.clock.is_some(), self.period, self.offset)
    }
}

/// No source of a small system is sporadic.
fn sporadic_fits(size: Size, sporadic: bool) -> bool
    ensures { result ≡ sporadic_fits size sporadic }
{
    match size {
        Size::Small => !sporadic,
        Size::Large => true,
    }
}

/// No source of a small system is on a clock.
fn clock_fits(size: Size, on_clock: bool) -> bool
    ensures { result ≡ clock_fits size on_clock }
{
    match size {
        Size::Small => !on_clock,
        Size::Large => true,
    }
}

/// An offset stands beside a clock alone, and is below the period.
fn offset_fits(on_clock: bool, period: i64, offset: Option<i64>) -> bool
    ensures { result ≡ offset_fits on_clock period offset }
{
    if on_clock {
        may_be_within(0, natural(period).saturating_sub(1), offset)
    } else {
        offset.is_none()
    }
}

/// Whether the name of a clock, where there is one, has the form of one.
fn has_clock_name(clock: &Option<Raw>) -> bool
    ensures { result ≡ has_clock_name clock.now }
{
    match clock {
        None => true,
        Some(name) => is_name(name.bytes()),
    }
}

/// Whether the numbers of a critical section are in their ranges.
fn lock_fits(lock: &DraftLock) -> bool
    ensures { result ≡ lock_fits lock.now }
{
    is_within(0, Size::Large.most_execution(), lock.start)
        && is_within(1, Size::Large.most_execution(), lock.length)
}

fn all_fit(locks: &[DraftLock]) -> bool
    ensures { result ≡ list_all lock_fits locks.now }
{
    locks.iter().all(|lock| lock_fits(lock))
}

/// No task of a small system has critical sections.
fn locks_fit(size: Size, locks: &[DraftLock]) -> bool
    ensures { result ≡ locks_fit size locks.now }
{
    match size {
        Size::Small => locks.len() <= 0,
        Size::Large => all_fit(locks),
    }
}

/// Whether the names of locks have the form of one.
fn have_lock_names(locks: &[DraftLock]) -> bool
    ensures { result ≡ have_lock_names locks.now }
{
    locks.iter().all(|lock| is_name(lock.name.bytes()))
}

impl Named for DraftTask {
    ghost named = { λ e. e.name };

    fn name(&self) -> &[u8] {
        self.name.bytes()
    }
}

impl Entry for DraftTask {
    ghost fits = { task_fits };

    fn fits(&self, size: Size) -> bool {
        may_be_within(1, size.most_execution(), self.best)
            && may_be_within(1, size.most_execution(), self.worst)
            && may_be_within(0, most_payload(size), self.payload)
            && may_be_within(0, MAX_PRIORITY, self.priority)
            && may_be_within(1, size.most_execution(), self.slot)
            && may_be_within(1, size.most_region(), self.region)
            && locks_fit(size, self.locks.sections())
    }
}

impl Named for DraftPath {
    ghost named = { λ e. e.name };

    fn name(&self) -> &[u8] {
        self.name.bytes()
    }
}

impl Entry for DraftPath {
    ghost fits = { path_fits };

    fn fits(&self, _size: Size) -> bool {
        may_be_within(1, MAX_PERIOD, self.deadline)
    }
}

/// The first entry with a number out of its range.
pub(crate) fn first_unfit<E: Entry>(size: Size, entries: &[E]) -> Option<usize>
    ensures place { result ≡ first_place (λ k e. not (E.fits size e)) entries.now }
    ensures within { IfSome result (λ k. k < 2 ^ 64 - 1) }
{
    entries
        .iter()
        .enumerate()
        .position(|(_, entry)| !entry.fits(size))
}

/// The first entry whose name hasn't the form of one.
pub(crate) fn first_unnamed<E: Named>(entries: &[E]) -> Option<usize>
    ensures place { result ≡ first_place (λ k e. not (is_name (E.named e))) entries.now }
    ensures within { IfSome result (λ k. k < 2 ^ 64 - 1) }
{
    entries
        .iter()
        .enumerate()
        .position(|(_, entry)| !is_name(entry.name()))
}

/// The first source whose name, or that of its clock, hasn't the form of one.
pub(crate) fn first_unnamed_source(sources: &[DraftSource]) -> Option<usize>
    ensures place { result ≡ first_place (λ k r. not (is_name r.name && has_clock_name r.clock)) sources.now }
    ensures within { IfSome result (λ k. k < 2 ^ 64 - 1) }
{
    sources.iter().enumerate().position(|(_, source)| !(is_name(source.name())
        && has_clock_name(&source.clock)))
}

/// The first task whose name, or that of one of its locks, hasn't the form of one.
pub(crate) fn first_unnamed_task(tasks: &[DraftTask]) -> Option<usize>
    ensures place { result ≡ first_place (λ k t. not (is_name t.name && have_lock_names t.locks)) tasks.now }
    ensures within { IfSome result (λ k. k < 2 ^ 64 - 1) }
{
    tasks.iter().enumerate().position(|(_, task)| !(is_name(task.name())
        && have_lock_names(task.locks.sections())))
}

/// The first entry past a limit.
pub(crate) fn first_past<E: Entry>(most: u64, entries: &[E]) -> Option<usize>
    ensures place { result ≡ first_place (λ k e. nat_le most k) entries.now }
    ensures within { IfSome result (λ k. k < 2 ^ 64 - 1) }
{
    entries
        .iter()
        .enumerate()
        .position(|(k, _)| most <= k as u64)
}

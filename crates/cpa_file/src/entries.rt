//! The entries of a system file.

ghost use Rattle.std.specs.Prelude.{◌≡◌, ◌∷◌, [], Some, None, false, unwrap_or};
ghost use Rattle.std.specs.Bool.{OnTrue};
ghost use Rattle.toml.specs.View.{view, items_view};
ghost use Rattle.cpa_file.specs.Lists.{GivesList, read_all};
ghost use Rattle.toml.specs.Data.{get, as_str};
ghost use Rattle.cpa_file.specs.Fields.{Gives, required, optional, has_only};
ghost use Rattle.cpa_file.specs.Entries.{later_kind, resource_keys, usual_resource_keys, resource_entry, source_keys, usual_source_keys, source_fields, has_offset_on_clock, kind_of_word, as_kind, as_texts, as_after, usual_keys, task_keys, as_locks, task_fields};
ghost use Rattle.cpa_file.specs.Formats.{has_later_kinds};
ghost use Rattle.cpa_model.specs.Built.{has_executions};

use crate::fault::ReadFault;
use crate::fields::{
    only_has, optional_integer, optional_integer_unless, optional_text_unless,
    optional_truth_unless, required_integer, required_text,
};
use crate::format::Format;
use cpa_model::{
    DraftLock, DraftLocks, DraftPath, DraftResource, DraftSource, DraftTask, KindWord, Raw, RawList,
};
use std::alloc::Global;
use toml::Value;

/// A kind that only some formats know.
fn later_kind(later: bool, kind: KindWord) -> Option<KindWord>
    ensures { result ≡ later_kind later kind }
{
    if later { Some(kind) } else { None }
}

fn kind_named(later: bool, word: &str) -> Option<KindWord>
    ensures { result ≡ kind_of_word later word.now }
{
    match word {
        "preemptive" => Some(KindWord::Preemptive),
        "round-robin" => Some(KindWord::RoundRobin),
        "tdma" => Some(KindWord::Tdma),
        "can" => Some(KindWord::Can),
        "fifo" => later_kind(later, KindWord::Fifo),
        "ceiling" => later_kind(later, KindWord::Ceiling),
        _ => None,
    }
}

#[tactic(auto, unfolding(crate::specs::Fields::required))]
fn required_kind(format: Format, entry: &Value, key: &str) -> Result<KindWord, ReadFault>
    ensures { Gives result (required (as_kind (has_later_kinds format)) key.now (view entry.now)) }
{
    match entry.get(key) {
        None => Err(ReadFault::Malformed),
        Some(value) => match value.as_str() {
            None => Err(ReadFault::Malformed),
            Some(word) => match kind_named(format.has_later_kinds(), word) {
                None => Err(ReadFault::Malformed),
                Some(kind) => Ok(kind),
            },
        },
    }
}

/// What stands in a file as an entry of its own.
pub trait Entry: Drop {
    ghost use Rattle.std.specs.Prelude.{Option};
    ghost use Rattle.toml.specs.Data.{Data};
    ghost use Rattle.toml.specs.View.{view};
    ghost use Rattle.cpa_file.specs.Fields.{Gives};
    ghost use Rattle.cpa_file.specs.declared.format.Format.{Format};

    /// The entry, if it has the form; what an entry may have goes by the format.
    ghost entry: { Format → Data → Option Self };

    fn read(alloc: Global, format: Format, value: &Value) -> Result<Self, ReadFault>
        ensures { Gives result (entry format (view value.now)) };
}

/// Whether an entry has no key but those that nearly all resources have.
fn has_usual_resource_keys(value: &Value) -> bool
    ensures { result ≡ has_only usual_resource_keys (view value.now) }
{
    only_has(value, &["name", "kind", "limit", "gap", "bit"])
}

/// Whether an entry has no key but those that a resource may have, where it is known whether these are usual ones alone.
fn has_resource_keys(format: Format, value: &Value, usual: bool) -> bool
    requires { usual ≡ has_only usual_resource_keys (view value.now) }
    ensures { result ≡ has_only (resource_keys format) (view value.now) }
{
    if usual {
        return true;
    }
    if format.has_later_kinds() {
        only_has(value, &["name", "kind", "limit", "gap", "bit", "rate"])
    } else {
        false
    }
}

#[tactic(auto, unfolding(crate::specs::Entries::resource_entry))]
fn read_resource(alloc: Global, format: Format, value: &Value) -> Result<DraftResource, ReadFault>
    ensures { Gives result (resource_entry format (view value.now)) }
{
    let usual = has_usual_resource_keys(value);
    let name = required_text(alloc, value, "name")?;
    let kind = required_kind(format, value, "kind")?;
    let limit = optional_integer(value, "limit")?;
    let gap = optional_integer(value, "gap")?;
    let bit = optional_integer(value, "bit")?;
    let rate = optional_integer_unless(usual, value, "rate")?;
    if has_resource_keys(format, value, usual) {
        Ok(DraftResource {
            name,
            kind,
            limit,
            gap,
            bit,
            rate,
        })
    } else {
        Err(ReadFault::Malformed)
    }
}

impl Entry for DraftResource {
    ghost use Rattle.cpa_file.specs.Entries.{resource_entry};

    ghost entry = { resource_entry };

    fn read(alloc: Global, format: Format, value: &Value) -> Result<DraftResource, ReadFault> {
        read_resource(alloc, format, value)
    }
}

impl Entry for DraftLock {
    ghost use Rattle.cpa_file.specs.Entries.{lock_entry};

    ghost entry = { λ format. lock_entry };

    #[tactic(auto, unfolding(crate::specs::Entries::lock_entry))]
    fn read(alloc: Global, _format: Format, value: &Value) -> Result<DraftLock, ReadFault> {
        let name = required_text(alloc, value, "name")?;
        let start = required_integer(value, "start")?;
        let length = required_integer(value, "length")?;
        if only_has(value, &["name", "start", "length"]) {
            Ok(DraftLock {
                name,
                start,
                length,
            })
        } else {
            Err(ReadFault::Malformed)
        }
    }
}

fn locks(alloc: Global, value: &Value) -> Result<DraftLocks, ReadFault>
    ensures { Gives result (as_locks (view value.now)) }
{
    match value.as_array() {
        None => Err(ReadFault::Malformed),
        Some(items) => match read_entries::<DraftLock>(alloc, Format::Four, items.as_slice()) {
            Ok(sections) => Ok(DraftLocks::new(sections)),
            Err(ListFault::At(_)) => Err(ReadFault::Malformed),
            Err(ListFault::Memory) => Err(ReadFault::Memory),
        },
    }
}

/// The critical sections at a key that may be absent.
#[tactic(auto, unfolding(crate::specs::Fields::optional))]
fn optional_locks(alloc: Global, entry: &Value, key: &str) -> Result<Option<DraftLocks>, ReadFault>
    ensures { Gives result (optional as_locks key.now (view entry.now)) }
{
    match entry.get(key) {
        None => Ok(None),
        Some(value) => Ok(Some(locks(alloc, value)?)),
    }
}

/// The same, where it may be known that the key isn't there, and then isn't looked for.
fn optional_locks_unless(
    absent: bool,
    alloc: Global,
    entry: &Value,
    key: &str,
) -> Result<Option<DraftLocks>, ReadFault>
    requires { OnTrue absent (get key.now (view entry.now) ≡ None) }
    ensures { Gives result (optional as_locks key.now (view entry.now)) }
{
    if absent {
        return Ok(None);
    }
    optional_locks(alloc, entry, key)
}

/// Critical sections that may be absent; none where they are.
fn sections_of(locks: Option<DraftLocks>) -> DraftLocks
    ensures { result ≡ unwrap_or locks [] }
{
    match locks {
        Some(locks) => locks,
        None => DraftLocks::none(),
    }
}

/// Whether a task has both executions, or a payload in place of both.
fn has_executions(task: &DraftTask) -> bool
    ensures { result ≡ has_executions task.now }
{
    (task.best.is_some()
        && task.worst.is_some()
        && task.payload.is_none()
        && task.extended.is_none())
        || (task.payload.is_some() && task.best.is_none() && task.worst.is_none())
}

/// Whether an entry has no key but those that nearly all tasks have.
fn has_usual_keys(value: &Value) -> bool
    ensures { result ≡ has_only usual_keys (view value.now) }
{
    let usual = ["after", "best", "name", "on", "priority", "slot", "worst"];
    only_has(value, &usual)
}

/// Whether an entry has no key but those that a task may have, where it is known whether these are usual ones alone.
fn has_task_keys(format: Format, value: &Value, usual: bool) -> bool
    requires { usual ≡ has_only usual_keys (view value.now) }
    ensures { result ≡ has_only (task_keys format) (view value.now) }
{
    if usual {
        return true;
    }
    if format.has_more_of_tasks() {
        let known = [
            "name", "on", "after", "best", "worst", "payload", "extended", "priority", "slot",
            "region", "locks",
        ];
        only_has(value, &known)
    } else {
        let known = [
            "name", "on", "after", "best", "worst", "payload", "extended", "priority", "slot",
        ];
        only_has(value, &known)
    }
}

#[tactic(auto, unfolding(crate::specs::Entries::task_fields))]
fn read_task_fields(alloc: Global, format: Format, value: &Value) -> Result<DraftTask, ReadFault>
    ensures { Gives result (task_fields format (view value.now)) }
{
    let usual = has_usual_keys(value);
    let name = required_text(alloc, value, "name")?;
    let on = required_text(alloc, value, "on")?;
    let after = required_after(alloc, format.has_lists(), value, "after")?;
    let best = optional_integer(value, "best")?;
    let worst = optional_integer(value, "worst")?;
    let payload = optional_integer_unless(usual, value, "payload")?;
    let extended = optional_truth_unless(usual, value, "extended")?;
    let priority = optional_integer(value, "priority")?;
    let slot = optional_integer(value, "slot")?;
    let region = optional_integer_unless(usual, value, "region")?;
    let locks = optional_locks_unless(usual, alloc, value, "locks")?;
    if has_task_keys(format, value, usual) {
        Ok(DraftTask {
            name,
            on,
            after,
            best,
            worst,
            payload,
            extended,
            priority,
            slot,
            region,
            locks: sections_of(locks),
        })
    } else {
        Err(ReadFault::Malformed)
    }
}

impl Entry for DraftTask {
    ghost use Rattle.cpa_file.specs.Entries.{task_entry};

    ghost entry = { task_entry };

    #[tactic(auto, unfolding(crate::specs::Entries::task_entry))]
    fn read(alloc: Global, format: Format, value: &Value) -> Result<DraftTask, ReadFault> {
        let task = read_task_fields(alloc, format, value)?;
        if has_executions(&task) {
            Ok(task)
        } else {
            Err(ReadFault::Malformed)
        }
    }
}

/// A truth value that may be absent; false where it is.
fn is_set(truth: Option<bool>) -> bool
    ensures { result ≡ unwrap_or truth false }
{
    match truth {
        Some(truth) => truth,
        None => false,
    }
}

/// Whether an entry has no key but those that nearly all sources have.
fn has_usual_source_keys(value: &Value) -> bool
    ensures { result ≡ has_only usual_source_keys (view value.now) }
{
    only_has(value, &["name", "period", "jitter", "distance"])
}

/// Whether an entry has no key but those that a source may have, where it is known whether these are usual ones alone.
fn has_source_keys(format: Format, value: &Value, usual: bool) -> bool
    requires { usual ≡ has_only usual_source_keys (view value.now) }
    ensures { result ≡ has_only (source_keys format) (view value.now) }
{
    if usual {
        return true;
    }
    if format.has_more_of_sources() {
        let known = [
            "name", "period", "jitter", "distance", "sporadic", "clock", "offset",
        ];
        only_has(value, &known)
    } else {
        false
    }
}

#[tactic(auto, unfolding(crate::specs::Entries::source_fields))]
fn read_source_fields(
    alloc: Global,
    format: Format,
    value: &Value,
) -> Result<DraftSource, ReadFault>
    ensures { Gives result (source_fields format (view value.now)) }
{
    let usual = has_usual_source_keys(value);
    let name = required_text(alloc, value, "name")?;
    let period = required_integer(value, "period")?;
    let jitter = optional_integer(value, "jitter")?;
    let distance = optional_integer(value, "distance")?;
    let sporadic = optional_truth_unless(usual, value, "sporadic")?;
    let clock = optional_text_unless(usual, alloc, value, "clock")?;
    let offset = optional_integer_unless(usual, value, "offset")?;
    if has_source_keys(format, value, usual) {
        Ok(DraftSource {
            name,
            period,
            jitter,
            distance,
            sporadic: is_set(sporadic),
            clock,
            offset,
        })
    } else {
        Err(ReadFault::Malformed)
    }
}

/// Whether an offset, where there is one, stands beside a clock.
fn has_offset_on_clock(source: &DraftSource) -> bool
    ensures { result ≡ has_offset_on_clock source.now }
{
    source.offset.is_none() || source.clock.is_some()
}

impl Entry for DraftSource {
    ghost use Rattle.cpa_file.specs.Entries.{source_entry};

    ghost entry = { source_entry };

    #[tactic(auto, unfolding(crate::specs::Entries::source_entry))]
    fn read(alloc: Global, format: Format, value: &Value) -> Result<DraftSource, ReadFault> {
        let source = read_source_fields(alloc, format, value)?;
        if has_offset_on_clock(&source) {
            Ok(source)
        } else {
            Err(ReadFault::Malformed)
        }
    }
}

impl Entry for DraftPath {
    ghost use Rattle.cpa_file.specs.Entries.{path_entry};

    ghost entry = { λ format. path_entry };

    #[tactic(auto, unfolding(crate::specs::Entries::path_entry))]
    fn read(alloc: Global, _format: Format, value: &Value) -> Result<DraftPath, ReadFault> {
        let name = required_text(alloc, value, "name")?;
        let tasks = required_texts(alloc, value, "tasks")?;
        let deadline = optional_integer(value, "deadline")?;
        if only_has(value, &["name", "tasks", "deadline"]) {
            Ok(DraftPath {
                name,
                tasks,
                deadline,
            })
        } else {
            Err(ReadFault::Malformed)
        }
    }
}

fn texts(alloc: Global, value: &Value) -> Result<RawList, ReadFault>
    ensures { Gives result (as_texts (view value.now)) }
{
    match value.as_array() {
        None => Err(ReadFault::Malformed),
        Some(items) => match read_entries::<Raw>(alloc, Format::One, items.as_slice()) {
            Ok(names) => Ok(RawList::new(names)),
            Err(ListFault::At(_)) => Err(ReadFault::Malformed),
            Err(ListFault::Memory) => Err(ReadFault::Memory),
        },
    }
}

/// The array of texts at a key that must be there; `Malformed` where it is absent, no array, or has what is no text.
#[tactic(auto, unfolding(crate::specs::Fields::required))]
pub fn required_texts(alloc: Global, entry: &Value, key: &str) -> Result<RawList, ReadFault>
    ensures { Gives result (required as_texts key.now (view entry.now)) }
{
    match entry.get(key) {
        None => Err(ReadFault::Malformed),
        Some(value) => texts(alloc, value),
    }
}

/// The list of one text.
fn one_text(alloc: Global, text: &str) -> Result<RawList, ReadFault>
    ensures { Gives result (Some (text.now ∷ [])) }
{
    Ok(RawList::one(Raw::new(Vec::from_slice(alloc, text.as_bytes())?)))
}

/// A text as a list, or an array of texts where lists may be.
fn after(alloc: Global, lists: bool, value: &Value) -> Result<RawList, ReadFault>
    ensures { Gives result (as_after lists (view value.now)) }
{
    match value.as_str() {
        Some(text) => one_text(alloc, text),
        None => {
            if lists {
                texts(alloc, value)
            } else {
                Err(ReadFault::Malformed)
            }
        }
    }
}

#[tactic(auto, unfolding(crate::specs::Fields::required))]
fn required_after(
    alloc: Global,
    lists: bool,
    entry: &Value,
    key: &str,
) -> Result<RawList, ReadFault>
    ensures { Gives result (required (as_after lists) key.now (view entry.now)) }
{
    match entry.get(key) {
        None => Err(ReadFault::Malformed),
        Some(value) => after(alloc, lists, value),
    }
}

impl Entry for Raw {
    ghost use Rattle.toml.specs.Data.{get, as_str};

    ghost entry = { λ format. as_str };

    fn read(alloc: Global, _format: Format, value: &Value) -> Result<Raw, ReadFault> {
        match value.as_str() {
            None => Err(ReadFault::Malformed),
            Some(text) => Ok(Raw::new(Vec::from_slice(alloc, text.as_bytes())?)),
        }
    }
}

/// Why a list of entries was not read.
#[derive(Clone, Copy, Debug, PartialEq, Eq)]
pub enum ListFault {
    /// The first malformed entry stands in this place, from 1.
    At(u64),
    /// Out of memory.
    Memory,
}

/// The entries of an array, or the place of the first that is malformed, from 1.
pub fn read_entries<E: Entry>(
    alloc: Global,
    format: Format,
    items: &[Value],
) -> Result<Vec<E>, ListFault>
    ensures { GivesList result (read_all (E.entry format) 1 (items_view items.now)) }
{
    let mut entries = Vec::new(alloc);
    for (k, item) in items.iter().enumerate() {
        match E::read(alloc, format, item) {
            Ok(entry) => match entries.push(entry) {
                Ok(()) => {}
                Err(_) => return Err(ListFault::Memory),
            },
            Err(ReadFault::Malformed) => return Err(ListFault::At(k as u64 + 1)),
            Err(ReadFault::Memory) => return Err(ListFault::Memory),
        }
    }
    Ok(entries)
}

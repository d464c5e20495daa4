//! From the bytes of a system file to its draft.

ghost use Rattle.std.specs.Prelude.{◌≡◌, is_some, true, codes, IfOk, IfErr};
ghost use Rattle.toml.specs.View.{view, items_view, table_view};
ghost use Rattle.toml.specs.Data.{Data, table};
ghost use Rattle.cpa_file.specs.Reading.{by_draft, reading_of, file_reading_of, Accepted, IsReadFault};
ghost use Rattle.cpa_file.specs.Given.{GivesDraft, GivesPart, GivesDocument};
ghost use Rattle.cpa_file.specs.Document.{is_other_format, integer_at, items_at, entries_at, has_form, lists_of, draft_of, document_of, size_in};

use crate::entries::{Entry, ListFault, read_entries};
use crate::fields::only_has;
use crate::format::Format;
use cpa_model::{
    BuildFault, Draft, DraftPath, DraftResource, DraftSource, DraftTask, Part, Refusal, System,
};
use cpa_units::limits::{MAX_SYSTEM_FILE, Size};
use std::alloc::Global;
use toml::Value;

/// Why a file stands for no system.
#[derive(Clone, Copy, Debug, PartialEq, Eq)]
pub enum FileRefusal {
    /// Its bytes are no TOML document.
    NotToml,
    /// They are more than its format allows.
    TooLong,
    /// A reason applies to the document: the first, with its first place.
    Refused(Refusal),
    /// A growth of memory was refused.
    Memory,
}

/// The integer at the key `format` of a document, if there is one.
pub fn format_of(document: &Value) -> Option<i64>
    ensures { result ≡ integer_at (codes "format") (view document.now) }
{
    match document.get("format") {
        None => None,
        Some(value) => value.as_integer(),
    }
}

fn has_other_format(number: Option<i64>) -> bool
    ensures { result ≡ is_other_format number }
{
    match number {
        None => false,
        Some(number) => (number < 1 || 2 < number) && number != 4,
    }
}

#[tactic(auto, unfolding(crate::specs::Document::items_at))]
fn has_array(document: &Value, key: &str) -> bool
    ensures { result ≡ is_some (items_at key.now (view document.now)) }
{
    match document.get(key) {
        None => true,
        Some(value) => value.is_array(),
    }
}

#[tactic(auto, unfolding(crate::specs::Document::has_form))]
fn is_formed(document: &Value) -> bool
    ensures { result ≡ has_form (view document.now) }
{
    only_has(document, &["format", "resource", "source", "task", "path"])
        && format_of(document).is_some()
        && has_array(document, "resource")
        && has_array(document, "source")
        && has_array(document, "task")
        && has_array(document, "path")
}

#[tactic(auto, unfolding(crate::specs::Document::entries_at, crate::specs::Document::items_at))]
fn read_part<E: Entry>(
    alloc: Global,
    format: Format,
    part: Part,
    document: &Value,
    key: &str,
) -> Result<Vec<E>, FileRefusal>
    ensures { GivesPart result (entries_at part (E.entry format) key.now (view document.now)) }
{
    match document.get(key) {
        None => Ok(Vec::new(alloc)),
        Some(value) => match value.as_array() {
            None => Err(FileRefusal::Refused(Refusal {
                reason: 1,
                part: Part::File,
                place: 0,
            })),
            Some(items) => match read_entries::<E>(alloc, format, items.as_slice()) {
                Ok(entries) => Ok(entries),
                Err(ListFault::At(place)) => Err(FileRefusal::Refused(Refusal {
                    reason: 1,
                    part,
                    place,
                })),
                Err(ListFault::Memory) => Err(FileRefusal::Memory),
            },
        },
    }
}

#[tactic(auto, unfolding(crate::specs::Document::lists_of))]
fn read_lists(alloc: Global, format: Format, document: &Value) -> Result<Draft, FileRefusal>
    ensures { GivesDraft result (lists_of format (view document.now)) }
{
    let resources = read_part::<DraftResource>(
        alloc,
        format,
        Part::Resource,
        document,
        "resource",
    )?;
    let sources = read_part::<DraftSource>(alloc, format, Part::Source, document, "source")?;
    let tasks = read_part::<DraftTask>(alloc, format, Part::Task, document, "task")?;
    let paths = read_part::<DraftPath>(alloc, format, Part::Path, document, "path")?;
    Ok(Draft {
        size: format.size(),
        resources,
        sources,
        tasks,
        paths,
    })
}

#[tactic(auto, unfolding(crate::specs::Document::draft_of))]
fn read_draft(alloc: Global, document: &Value) -> Result<Draft, FileRefusal>
    ensures { GivesDraft result (draft_of (view document.now)) }
{
    let number = format_of(document);
    if has_other_format(number) {
        return Err(FileRefusal::Refused(Refusal {
            reason: 13,
            part: Part::File,
            place: 0,
        }));
    }
    if !is_formed(document) {
        return Err(FileRefusal::Refused(Refusal {
            reason: 1,
            part: Part::File,
            place: 0,
        }));
    }
    read_lists(alloc, Format::with(number), document)
}

/// The document that the bytes are; `NotToml` exactly where they are none, or `Memory`.
#[tactic(auto, unfolding(crate::specs::Document::document_of))]
pub fn read_document(alloc: Global, bytes: &[u8]) -> Result<Value, FileRefusal>
    ensures { GivesDocument result (document_of bytes.now) }
{
    match toml::table_from_slice(alloc, bytes) {
        Ok(table) => Ok(Value::Table(table)),
        Err(error) => {
            if error.is_memory() {
                Err(FileRefusal::Memory)
            } else {
                Err(FileRefusal::NotToml)
            }
        }
    }
}

/// The system that the bytes of a file stand for, however many they are.
#[tactic(auto, unfolding(crate::specs::Reading::reading_of))]
pub fn read_system(alloc: Global, bytes: &[u8]) -> Result<System, FileRefusal>
    ensures ok { IfOk result (λ s. reading_of bytes.now ≡ Accepted s) }
    ensures refused { IfErr result (λ e. IsReadFault e (reading_of bytes.now)) }
{
    let document = read_document(alloc, bytes)?;
    system_of(alloc, &document)
}

/// How large a system of a document may be, by its format.
#[tactic(auto, unfolding(crate::specs::Document::size_in))]
fn size_in(document: &Value) -> Size
    ensures { result ≡ size_in (view document.now) }
{
    Format::with(format_of(document)).size()
}

/// The system that the bytes of a file stand for, where its format allows so many. What is no TOML document may have
/// as many as a file of formats 1 and 2.
#[tactic(auto, unfolding(crate::specs::Reading::reading_of, crate::specs::Reading::file_reading_of))]
pub fn read_system_file(alloc: Global, bytes: &[u8]) -> Result<System, FileRefusal>
    ensures ok { IfOk result (λ s. file_reading_of bytes.now ≡ Accepted s) }
    ensures refused { IfErr result (λ e. IsReadFault e (file_reading_of bytes.now)) }
{
    let count = bytes.len() as u64;
    match read_document(alloc, bytes) {
        Ok(document) => {
            if count > size_in(&document).most_file() {
                return Err(FileRefusal::TooLong);
            }
            system_of(alloc, &document)
        }
        Err(FileRefusal::NotToml) => {
            if count > MAX_SYSTEM_FILE {
                Err(FileRefusal::TooLong)
            } else {
                Err(FileRefusal::NotToml)
            }
        }
        Err(FileRefusal::TooLong) => unreachable!(),
        Err(FileRefusal::Refused(_)) => unreachable!(),
        Err(FileRefusal::Memory) => Err(FileRefusal::Memory),
    }
}

/// The system that a document stands for.
fn system_of(alloc: Global, document: &Value) -> Result<System, FileRefusal>
    ensures ok { IfOk result (λ s. by_draft (draft_of (view document.now)) ≡ Accepted s) }
    ensures refused { IfErr result (λ e. IsReadFault e (by_draft (draft_of (view document.now)))) }
{
    let draft = read_draft(alloc, document)?;
    match System::build(alloc, draft) {
        Ok(system) => Ok(system),
        Err(BuildFault::Refused(refusal)) => Err(FileRefusal::Refused(refusal)),
        Err(BuildFault::Memory) => Err(FileRefusal::Memory),
    }
}

//! From a document to the draft of its chains.

ghost use Rattle.std.specs.Prelude.{◌≡◌};
ghost use Rattle.toml.specs.View.{view};
ghost use Rattle.cpa_effect_files.specs.Drafts.{GivesDraft, is_other_format, has_form, chains_at, draft_of};

use crate::draft::DraftChain;
use crate::refusal::{ChainsFault, ChainsRefusal};
use cpa_file::{Format, ListFault, format_of, only_has, read_entries};
use std::alloc::Global;
use toml::Value;

/// Whether the format is an integer other than 1.
fn has_other_format(format: Option<i64>) -> bool
    ensures { result ≡ is_other_format format }
{
    match format {
        None => false,
        Some(number) => number != 1,
    }
}

/// Whether the top of the file has the form, but for the array.
#[tactic(auto, unfolding(crate::specs::Drafts::has_form))]
fn is_formed(document: &Value) -> bool
    ensures { result ≡ has_form (view document.now) }
{
    only_has(document, &["format", "chain"]) && format_of(document).is_some()
}

/// The chains in the file's array, none where it is absent.
#[tactic(auto, unfolding(crate::specs::Drafts::chains_at, cpa_file::specs::Document::items_at))]
fn read_array(alloc: Global, document: &Value) -> Result<Vec<DraftChain>, ChainsFault>
    ensures { GivesDraft result (chains_at (view document.now)) }
{
    match document.get("chain") {
        None => Ok(Vec::new(alloc)),
        Some(value) => match value.as_array() {
            None => Err(ChainsFault::Refused(ChainsRefusal {
                reason: 1,
                place: 0,
            })),
            Some(items) => match read_entries::<DraftChain>(alloc, Format::One, items.as_slice()) {
                Ok(chains) => Ok(chains),
                Err(ListFault::At(place)) => {
                    Err(ChainsFault::Refused(ChainsRefusal { reason: 1, place }))
                }
                Err(ListFault::Memory) => Err(ChainsFault::Memory),
            },
        },
    }
}

/// The chains of a document, as they are read.
#[tactic(auto, unfolding(crate::specs::Drafts::draft_of))]
pub(crate) fn read_draft(alloc: Global, document: &Value) -> Result<Vec<DraftChain>, ChainsFault>
    ensures { GivesDraft result (draft_of (view document.now)) }
{
    if has_other_format(format_of(document)) {
        return Err(ChainsFault::Refused(ChainsRefusal {
            reason: 13,
            place: 0,
        }));
    }
    if !is_formed(document) {
        return Err(ChainsFault::Refused(ChainsRefusal {
            reason: 1,
            place: 0,
        }));
    }
    read_array(alloc, document)
}

//! A chain as it was read, before its rules are looked at.

use cpa_file::{
    Entry, Format, ReadFault, only_has, optional_integer, required_text, required_texts,
};
use cpa_model::{Raw, RawList};
use std::alloc::Global;
use toml::Value;

/// A chain as it was read: a deadline is `None` where the file lacks the key.
#[derive(Drop)]
pub(crate) struct DraftChain {
    pub(crate) name: Raw,
    pub(crate) tasks: RawList,
    pub(crate) reaction: Option<i64>,
    pub(crate) age: Option<i64>,
    pub(crate) held: Option<i64>,
}

impl Entry for DraftChain {
    ghost use Rattle.cpa_effect_files.specs.Drafts.{chain_entry};

    ghost entry = { λ format. chain_entry };

    #[tactic(auto, unfolding(crate::specs::Drafts::chain_entry))]
    fn read(alloc: Global, _format: Format, value: &Value) -> Result<DraftChain, ReadFault> {
        let name = required_text(alloc, value, "name")?;
        let tasks = required_texts(alloc, value, "tasks")?;
        let reaction = optional_integer(value, "reaction")?;
        let age = optional_integer(value, "age")?;
        let held = optional_integer(value, "held")?;
        if only_has(value, &["name", "tasks", "reaction", "age", "held"]) {
            Ok(DraftChain {
                name,
                tasks,
                reaction,
                age,
                held,
            })
        } else {
            Err(ReadFault::Malformed)
        }
    }
}

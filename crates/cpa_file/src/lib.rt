//! System files: TOML both ways; and how a document, its lists of entries and the keys of an entry are read, for files of
//! other kinds.
#![tactic(auto)]

mod display;
mod entries;
mod fault;
mod fields;
mod format;
mod print;
mod read;

pub use entries::{Entry, ListFault, read_entries, required_texts};
pub use fault::ReadFault;
pub use fields::{only_has, optional_integer, required_text};
pub use format::Format;
pub use print::print_system;
pub use read::{FileRefusal, format_of, read_document, read_system, read_system_file};

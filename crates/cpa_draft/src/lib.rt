//! A system as it was read, and why it is refused.
//!
//! A draft has the entries of a system file, with what the file says of each. It is refused by the first of reasons 2
//! to 12 and 14 to 16 that applies, at its first place; reasons 1 and 13 are the file reader's.
#![tactic(auto)]

mod chains;
pub mod clocks;
mod display;
pub mod draft;
mod entry;
mod entry_checks;
mod kind_checks;
pub mod links;
mod locks;
pub mod names;
pub mod numbers;
mod paths;
pub mod ports;
mod ranks;
pub mod refusal;
mod streams;
pub mod tables;
pub mod validation;

pub use draft::{
    Draft, DraftLock, DraftLocks, DraftPath, DraftResource, DraftSource, DraftTask, KindWord,
    MAX_SECTIONS, Raw, RawList,
};
pub use names::Names;
pub use numbers::{natural, natural_or};
pub use ports::port_ticks;
pub use refusal::{BuildFault, Part, Refusal};
pub use tables::Tables;
pub use validation::validate;

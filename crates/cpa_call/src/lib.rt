//! What calls share: the files that they name, the lines of refusals, and the sending of texts.
#![tactic(auto)]

pub mod calls;
mod display;
pub mod errors;
pub mod lines;
pub mod loading;
pub mod sending;
pub mod statuses;
pub mod two_files;

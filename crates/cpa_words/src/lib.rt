//! The words of the program: what they ask for, read with `clap`.
#![tactic(auto)]

mod command;
mod guard;
mod numbers;
mod reading;
mod verb;

pub use command::{Command, accept, accepted_words_are_within};

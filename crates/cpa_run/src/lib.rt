//! One call of the program: words in, a text out, over files and a sink.
//!
//! A call is planned first, from its words and the files that they name, and then done. The program itself is `cpa_cli`.
#![tactic(auto)]

mod command;
mod lines;
mod loading;
mod on_one_thread;
mod performing;
mod request;
mod sending;
mod session;

pub use command::{outputs_have_laws, run, run_with};
pub use lines::{edit_line, script_line};
pub use on_one_thread::run_command;

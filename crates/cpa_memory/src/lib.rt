//! One command over texts in memory: the status and the text that the program answers where files hold these texts.
//!
//! No thread is started, no file is read and nothing is written, so that a library may do it. Running out of memory is the only fault.
#![tactic(auto)]

mod calling;
mod text_commands;
mod texts;
mod written_output;

pub use calling::call;
pub use text_commands::{chain, chains, schedule};
pub use texts::{CHAINS, SCHEDULE, SCRIPT, SYSTEM, TRACE, Texts};

//! Words that threads share, and that only rise.
//!
//! A board is a table of atomic words with a number that counts claims. No word falls or passes its
//! cap, whatever the threads do: each call is one step of the board machine (specs/Machine.antt),
//! which takes no lock, waits for nobody and is never tried again. The caps stand in contracts alone.
#![tactic(auto)]

mod board;
mod caps;
mod laws;
mod rule;
mod seat;

pub use board::Board;
pub use caps::Caps;
pub use laws::seats_have_laws;
pub use seat::Seat;

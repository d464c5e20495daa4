//! A board with many seats.

ghost use Rattle.std.specs.Prelude.{◌≡◌, IfOk};

use cpa_board::{Board, Caps, Seat};
use cpa_units::NoMemory;
use std::alloc::Global;

/// Each word is its own cap.
#[derive(Drop)]
struct Still<'a> {
    words: &'a [u64],
}

impl<'a> Caps for Still<'a> {
    ghost caps = { λ c. c.words.now };
}

/// Splits a seat until there are so many, and joins them to one again.
fn split_and_join(board: &Board, mut seat: Seat, seats: u32) -> Result<Seat, NoMemory>
    requires { seat.board ≡ board.now }
    ensures { IfOk result (λ s. (s.board ≡ board.now) × (s.caps ≡ seat.caps)) }
{
    if seats <= 1 {
        return Ok(seat);
    }
    let half = seats / 2;
    let other = seat.split(board)?;
    let mut one = split_and_join(board, seat, seats - half)?;
    one.join(board, split_and_join(board, other, half)?);
    Ok(one)
}

/// Opens a board of 512 words, has 64 seats at it, and closes it.
pub fn crowd(alloc: Global) -> Result<(), NoMemory> {
    let words = vec![in alloc; 7u64; 512]?;
    let caps = Still {
        words: words.as_slice(),
    };
    let (board, seat) = Board::start(alloc, words.as_slice(), &caps)?;
    let seat = split_and_join(&board, seat, 64)?;
    let mut out = vec![in alloc; 0u64; 512]?;
    board.close(seat, out.as_mut_slice())
}

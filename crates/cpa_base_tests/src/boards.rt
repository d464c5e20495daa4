//! Boards that one seat raises, and two.

ghost use Rattle.std.specs.Prelude.{◌∷◌, [], ◌≡◌, All, length};

use cpa_board::{Board, Caps};
use std::test::Fail;

fn needs_shared<T: Send + Sync>(_value: &T) {}

fn needs_send<T: Send>(_value: &T) {}

#[derive(Drop)]
struct TwoCaps {
    first: u64,
    second: u64,
}

impl Caps for TwoCaps {
    ghost caps = { λ c. c.first ∷ c.second ∷ [] };
}

/// Each word is its own cap.
#[derive(Drop)]
struct Still<'a> {
    words: &'a [u64],
}

impl<'a> Caps for Still<'a> {
    ghost caps = { λ c. c.words.now };
}

/// Raised by 7 and by 4, a word is 7.
#[test]
fn one_seat(rt: HostRuntime) -> Result<(), Fail> {
    let caps = TwoCaps {
        first: 9,
        second: 5,
    };
    let (board, mut seat) = Board::start(rt.alloc(), &[3, 5], &caps)?;
    needs_shared(&board);
    needs_send(&seat);
    seat.raise(&board, 0, 7);
    seat.raise(&board, 0, 4);
    let found = seat.load(&board, 0);
    let mut out = [0; 2];
    board.close(seat, &mut out)?;
    assert!(rt; found == 7 && out == [7, 5]);
    Ok(())
}

/// One seat raises, and the other finds it; the claims of both differ, also past the number of words.
#[test]
fn board_shares(rt: HostRuntime) -> Result<(), Fail> {
    let caps = TwoCaps {
        first: 9,
        second: 5,
    };
    let (board, mut seat) = Board::start(rt.alloc(), &[3, 5], &caps)?;
    let mut other = seat.split(&board)?;
    seat.raise(&board, 0, 7);
    let found = other.load(&board, 0);
    let claims = [
        seat.claim(&board),
        other.claim(&board),
        other.claim(&board),
        seat.claim(&board),
    ];
    seat.join(&board, other);
    let mut out = [0; 2];
    board.close(seat, &mut out)?;
    assert!(rt; found == 7 && claims == [0, 1, 2, 3] && out == [7, 5]);
    Ok(())
}

/// Words that are their caps stay: none at all, and as many as a board may have. The last is found by
/// the first seat and by two that were split and are joined again.
#[test]
fn still_words(rt: HostRuntime) -> Result<(), Fail> {
    let alloc = rt.alloc();
    let (board, seat) = Board::start(alloc, &[], &Still { words: &[] })?;
    board.close(seat, &mut [])?;
    let words = vec![in alloc; 7u64; 512]?;
    let caps = Still {
        words: words.as_slice(),
    };
    let (board, mut seat) = Board::start(alloc, words.as_slice(), &caps)?;
    let mut other = seat.split(&board)?;
    other.raise(&board, 511, 7);
    let found = other.load(&board, 511);
    seat.join(&board, other);
    let mut out = vec![in alloc; 0u64; 512]?;
    board.close(seat, out.as_mut_slice())?;
    assert!(rt; found == 7 && out.as_slice() == words.as_slice());
    Ok(())
}

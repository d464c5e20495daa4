//! A seat at a board, with which one thread steps.
ghost use Rattle.std.specs.Prelude.{◌≡◌, ℕ, ◌<◌, ◌≤◌, length, slice_index, IfOk, IsOk};

use crate::board::Board;
use crate::rule::{Both, Claims, Loads, Raises, View};
use cpa_units::NoMemory;
use std::marker::Model;

/// Contracts see the board that it is at, the words at the start and their caps, and the greatest value
/// of each word that it has seen or raised, which is at most the word. One thread at a time has it, and
/// it has no bytes.
#[derive(Drop)]
pub struct Seat {
    pub(crate) token: atomic_table::Seat<(), View>,
}

impl Model for Seat {
    ghost use Rattle.cpa_board.specs.Seats.{SeatView, seat_view, IsSeated};

    ghost Value = { SeatView };

    ghost view = { λ s. seat_view s.token };

    ghost invariant = { λ s. IsSeated s.token };
}

impl Seat {
    ghost use Rattle.cpa_board.specs.Machine.{greater, IsStep};
    ghost use Rattle.cpa_board.specs.Machine.Step.{Claim, Load, Raise};
    ghost use Rattle.cpa_board.specs.Seats.{has_seen, IsBetween};

    /// Claims a number: one fetch-and-add on the number of claims, which wraps at 2^64. No two of the first
    /// 2^64 claims have the same answer, but no contract says so: it may be any number.
    pub fn claim(&mut self, board: &Board) -> u64
        requires { self.old.board ≡ board.now }
        ensures same { self.new ≡ self.old }
        ensures step { IsStep self.old.starts self.old.caps (λ a. Claim a result) self.old.seen self.new.seen }
    {
        board
            .table
            .shared
            .fetch_add::<Claims>(&mut self.token, 0, 1)
    }

    /// The word at this place, which is below their number, as it is: at least what the seat has seen of
    /// it, and at most its cap. The seat has seen it then.
    pub fn load(&mut self, board: &Board, word: u32) -> u64
        requires board { self.old.board ≡ board.now }
        requires word { word < length self.old.caps }
        ensures value { IsBetween self.old word result }
        ensures seen { self.new ≡ has_seen self.old word result }
        ensures step { IsStep self.old.starts self.old.caps (λ a. Load a word result) self.old.seen self.new.seen }
    {
        board
            .table
            .shared
            .load::<Loads>(&mut self.token, word as usize + 1)
    }

    /// Raises the word at this place, which is below their number, to at least the value, at most its cap:
    /// one fetch-and-max. The seat has seen what it is then.
    pub fn raise(&mut self, board: &Board, word: u32, value: u64)
        requires board { self.old.board ≡ board.now }
        requires word { word < length self.old.caps }
        requires cap { value ≤ slice_index self.old.caps word }
        ensures seen { (n : ℕ) × (value ≤ n) × IsBetween self.old word n × (self.new ≡ has_seen self.old word n) }
        ensures step { IsStep self.old.starts self.old.caps (λ a. Raise a word value) self.old.seen self.new.seen }
    {
        board
            .table
            .shared
            .fetch_max::<Raises>(&mut self.token, word as usize + 1, value);
    }

    /// A second seat that has seen the same. A seat has no bytes, so memory is never refused.
    pub fn split(&mut self, board: &Board) -> Result<Seat, NoMemory>
        requires { self.old.board ≡ board.now }
        ensures done { IsOk result }
        ensures new { IfOk result (λ s. s ≡ self.old) }
        ensures same { self.new ≡ self.old }
    {
        let token = board.table.shared.split_seat::<Both>(&mut self.token);
        Ok(Seat { token })
    }

    /// Takes in what another seat of the board has seen: the greater of both, entry by entry. The other is
    /// gone.
    pub fn join(&mut self, board: &Board, other: Seat)
        requires own { self.old.board ≡ board.now }
        requires other { other.board ≡ board.now }
        ensures { self.new ≡ record self.old { seen = greater self.old.seen other.seen } }
    {
        board
            .table
            .shared
            .join_seat::<Both>(&mut self.token, other.token);
    }
}

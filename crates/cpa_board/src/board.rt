//! A board of words that threads share.
ghost use Rattle.std.specs.Prelude.{◌≡◌, ◌+◌, ℕ, ◌<◌, ◌≤◌, [], ◌∷◌, length, IfOk, IsOk, OnOk, OnErr, slice_index};
ghost use Rattle.cpa_board.specs.Machine.{AreAtMost, WordsOnlyRise, IsClosing, opening};
ghost use Rattle.cpa_board.specs.Rule.{fresh};
ghost use Rattle.cpa_board.specs.Seats.{IsBetween};

use crate::caps::{Caps, Named};
use crate::rule::{Opens, Rises, View};
use crate::seat::Seat;
use atomic_table::Table;
use cpa_units::NoMemory;
use std::alloc::Global;
use std::marker::{Brand, Model};
use std::snapshot::Snapshot;

type BoardTable = Table<(), View, Snapshot<Vec<u64>>, Rises, Global>;

/// Up to 8192 words and a number of claims. Threads share it, and step on it by their seats. Contracts
/// see which board it is.
#[derive(Drop)]
pub struct Board {
    pub(crate) table: BoardTable,
}

impl Model for Board {
    ghost use Rattle.std.specs.Prelude.{◌≡◌};
    ghost use Rattle.atomic_table.specs.Seated.{TableId};

    ghost Value = { TableId };

    ghost view = { λ b. b.table.shared.table_id };

    ghost invariant = { λ b. b.table.shared.table_id.slots ≡ 0 };
}

/// The board with its first seat, which learns the caps.
fn opened<J: Named, P: Caps>(
    table: BoardTable,
    mut token: atomic_table::Seat<(), View>,
    words: &[u64],
    caps: &P,
) -> (Board, Seat)
    requires table { (token.table_id ≡ table.shared.table_id) × (table.shared.table_id.slots ≡ 0) × (table.shared.table_id.words ≡ length words.now + 1) }
    requires seat { (token.id ≡ 0) × (token.me ≡ (fresh (0 ∷ words.now), [])) }
    requires caps { (J.list ≡ P.caps caps.now) × AreAtMost words.now (P.caps caps.now) }
    ensures { result.1 ≡ record { board = result.0; starts = words.now; caps = P.caps caps.now; seen = words.now } }
{
    table.shared.load::<Opens<J>>(&mut token, 0);
    (Board { table }, Seat { token })
}

impl Board {
    /// A board with these words, at most 8192 and each at most its cap, no claims, and a seat that has seen
    /// them. Whatever steps are taken on it, no word falls, none passes its cap, and no seat has seen more
    /// than the words are. Refused only when out of memory.
    pub fn start<P: Caps>(alloc: Global, words: &[u64], caps: &P) -> Result<(Board, Seat), NoMemory>
        requires count { length words.now ≤ 8192 }
        requires caps { AreAtMost words.now (P.caps caps.now) }
        ensures seat { IfOk result (λ r. r.1 ≡ record { board = r.0; starts = words.now; caps = P.caps caps.now; seen = words.now }) }
        ensures rises { WordsOnlyRise (opening words.now (P.caps caps.now)) }
    {
        let mut all: Vec<u64> = Vec::new(alloc);
        all.push(0)?;
        all.extend_from_slice(words)?;
        let about = Snapshot::of(&all);
        let (table, token): (BoardTable, _) = Table::of_words(alloc, all.as_slice(), &about)?;
        Ok(opened::<Brand, P>(table, token, words, caps))
    }

    /// Gives the board up, and writes its words: each is at least what the seat has seen of it, and at most
    /// its cap. There is room for just these. It takes no memory, so none is refused.
    pub fn close(self, seat: Seat, out: &mut [u64]) -> Result<(), NoMemory>
        requires board { seat.board ≡ self }
        requires room { length out.old ≡ length seat.caps }
        ensures done { IsOk result }
        ensures step { OnOk result (IsClosing seat.starts seat.caps seat.seen out.new) }
        ensures words { OnOk result ((i : ℕ) → i < length seat.caps → IsBetween seat i (slice_index out.new i)) }
        ensures failed { OnErr result (out.new ≡ out.old) }
    {
        let closed = self.table.close_with(seat.token);
        for i in 0..out.len() {
            out[i] = closed.word(i + 1);
        }
        closed.free();
        Ok(())
    }
}

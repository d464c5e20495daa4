//! What holds of a board, for crates that depend on this one.

ghost use Rattle.cpa_board.specs.Laws.{SplitsAreSteps, JoinsAreSteps};

/// What a board makes of its seats where one is split, or takes in another, is one step of the board
/// machine. `Seat::split` and `Seat::join` are these moves, and tell of the seats alone.
pub fn seats_have_laws()
    ensures splits { SplitsAreSteps }
    ensures joins { JoinsAreSteps }
{}

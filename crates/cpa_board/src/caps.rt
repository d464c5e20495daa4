//! The caps of a board, which stand in contracts alone.

ghost use Rattle.std.specs.Prelude.{ℕ, List, []};

use std::marker::Brand;

/// What stands for a list of caps, a number for each word. It has no calls: no program computes caps.
pub trait Caps {
    ghost caps: { Self → List ℕ };
}

/// The caps of one board. The call that opens it picks them.
pub(crate) trait Named {
    ghost list: { List ℕ };
}

impl Named for Brand {
    ghost list = { [] };
}

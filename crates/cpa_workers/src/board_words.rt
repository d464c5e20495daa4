//! Bounds as words of a board.

ghost use Rattle.std.specs.Prelude.{◌≡◌, length, IfOk};
ghost use Rattle.cpa_model.specs.Rules.{IsSystem};
ghost use Rattle.cpa_local.specs.Solution.{IsVector};
ghost use Rattle.cpa_workers.specs.BoardWords.{bound_read, words_of};

use cpa_model::System;
use cpa_units::limits::MAX_LIMIT;
use cpa_units::{Bound, NoMemory, TaskId, Vector};
use std::alloc::Global;

/// The bound that a word of a board stands for.
pub fn read_word(word: u64) -> Bound
    ensures { result ≡ bound_read word }
{
    if word > MAX_LIMIT {
        Bound::Overload
    } else {
        Bound::Within(word)
    }
}

/// The words of a system's vector.
pub fn words(alloc: Global, system: &System, x: &Vector) -> Result<Vec<u64>, NoMemory>
    requires { IsVector system.now x.now }
    ensures words { IfOk result (λ words. words.items ≡ words_of x.now) }
    ensures rules { IsSystem system.now }
{
    let mut words = Vec::new(alloc);
    for place in 0..system.tasks() {
        words.push(x.get(TaskId(place)).word())?;
    }
    Ok(words)
}

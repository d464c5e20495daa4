//! What the printed bounds say of runs.

ghost use Rattle.cpa_effect_files.specs.Laws.{PrintedChainsHold};

use cpa_effects::chains_have_bounds;
use cpa_local::least_solutions_have_laws;

/// The bounds that are printed for accepted files are those at the least solution, and hold in every run whose sources stay
/// near.
pub fn printed_chains_hold()
    ensures { PrintedChainsHold }
{
    chains_have_bounds();
    least_solutions_have_laws();
}

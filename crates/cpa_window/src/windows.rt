//! Least windows.

ghost use Rattle.std.specs.Prelude.{◌≡◌, ℕ, ◌≤◌, IfSome, IfNone};
ghost use Rattle.cpa_units.specs.declared.bound.Bound.{Bound};
ghost use Rattle.cpa_units.specs.declared.limits.TheConstants.{MAX_LIMIT};
ghost use Rattle.cpa_window.specs.Windows.{IsWindow};
ghost use Rattle.cpa_window.specs.Laws.{WindowIsLeast, WindowsGrow};

use cpa_units::limits::MAX_LIMIT;

/// The work that is asked for in a window, in ticks.
pub trait Demand {
    /// How much it is: by the length of the window.
    ghost demand: { Self → ℕ → ℕ };

    fn at(&self, window: u64) -> u128
        requires { window ≤ MAX_LIMIT }
        ensures { result ≡ demand self.now window };

    /// A longer window asks for no less.
    ghost monotone: { (d : Self) (v w : ℕ) → v ≤ w → w ≤ MAX_LIMIT → demand d v ≤ demand d w };
}

/// The least window from `from` to `limit` that has room for its demand; none where there is none.
///
/// It goes on from each window that has no room to the length that is asked for there, and looks at
/// none between.
#[inline(always)]
pub fn least_window<D: Demand>(demand: &D, from: u64, limit: u64) -> Option<u64>
    requires { limit ≤ MAX_LIMIT }
    ensures found { IfSome result (λ w. IsWindow (λ v. Bound.Within (D.demand demand.now v)) from limit (Bound.Within w)) }
    ensures none { IfNone result (IsWindow (λ v. Bound.Within (D.demand demand.now v)) from limit Bound.Overload) }
{
    let mut window = from;
    while window <= limit {
        let need = demand.at(window);
        if need <= u128::from(window) {
            return Some(window);
        }
        if need > u128::from(limit) {
            return None;
        }
        window = need as u64;
    }
    None
}

/// A window is the least length that has room, and it grows with the demand.
pub fn windows_have_laws()
    ensures least { WindowIsLeast }
    ensures grow { WindowsGrow }
{}

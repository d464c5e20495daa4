//! Least windows.

ghost use Rattle.std.specs.Prelude.{◌*◌, ◌≤◌};
ghost use Rattle.std.proofs.Math.Nat.{mul-le-mul_right};
ghost use Rattle.cpa_units.specs.declared.limits.TheConstants.{MAX_EXECUTION};
ghost use Rattle.cpa_events.specs.Events.{eta_plus, IsModelInRange};
ghost use Rattle.cpa_events.proofs.EventLaws.{eta_plus-mono};

use crate::first_failure::tell;
use cpa_events::{Model, Stream};
use cpa_units::limits::MAX_EXECUTION;
use cpa_window::{Demand, events_work, least_window};

/// The work of one model's events.
#[derive(Drop)]
struct Batches {
    model: Model,
    each: u64,
    ghost model_in_range: { IsModelInRange model },
    ghost each_in_range: { each ≤ MAX_EXECUTION },
}

impl Demand for Batches {
    ghost demand = { λ b w. eta_plus b.model w * b.each };

    ghost monotone = { λ b v w longer in_range. mul-le-mul_right b.each (eta_plus-mono b.model v w longer) };

    fn at(&self, window: u64) -> u128 {
        u128::from(events_work(&self.model, window, self.each))
    }
}

fn late_batches(period: u64, jitter: u64, each: u64) -> Batches
    requires some { 1 ≤ period }
    requires period { period ≤ 1000 }
    requires jitter { jitter ≤ 1000 }
    requires each { each ≤ 1000 }
{
    Batches {
        model: Model::one(Stream {
            period,
            jitter,
            distance: 0,
        }),
        each,
    }
}

#[test]
fn least_windows(rt: HostRuntime) {
    // A flat demand: found, just in the limit and just past it, and met at the first value. Nothing is within a limit of
    // 0 but a window of no length.
    let flat = late_batches(1000, 0, 5);
    let mut wrong = None;
    for (from, limit, window) in [
        (1, 10, Some(5)),
        (1, 5, Some(5)),
        (1, 4, None),
        (7, 10, Some(7)),
        (0, 10, Some(0)),
        (0, 0, Some(0)),
        (1, 0, None),
    ] {
        let right = least_window(&flat, from, limit) == window;
        wrong = tell(wrong, (from, limit), right);
    }

    // Four events come at once, and a fifth at 6: the demand jumps from 12 to 15.
    let jump = late_batches(10, 35, 3);
    for (limit, window) in [(15, Some(15)), (14, None), (11, None)] {
        wrong = tell(wrong, (1, limit), least_window(&jump, 1, limit) == window);
    }

    // The next event comes when the last is done, or a tick before.
    let done = least_window(&late_batches(10, 0, 10), 1, 10);
    let late = least_window(&late_batches(10, 0, 11), 1, 10_000_000);
    assert!(rt; wrong.is_none(), "{wrong:?}");
    assert!(rt; done == Some(10) && late.is_none());
}

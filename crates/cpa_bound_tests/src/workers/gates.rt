//! A gate that holds workers until others are under way.

use cpa_units::ResId;
use cpa_workers::Gate;
use std::alloc::Global;
use std::sync::Arc;
use std::sync::atomic::AtomicU64;
use std::sync::atomic::Ordering::SeqCst;
use std::test::Fail;

/// How often a gate looks for what it waits for.
const MOST_TURNS: u64 = 100_000_000;

/// Waits until a count isn't 0, and answers whether it ever was.
fn await_one(count: &AtomicU64) -> bool {
    for _ in 0..MOST_TURNS {
        if count.load(SeqCst) != 0 {
            return true;
        }
    }
    false
}

/// How many went on, and how many were held too long.
#[derive(Drop)]
pub(crate) struct Meetings {
    pub(crate) met: AtomicU64,
    pub(crate) missed: AtomicU64,
}

/// For the first resource, the second, and all others: the place that an analysis enters, and the place that another must
/// have entered before it goes on.
pub(crate) type Places = [(usize, usize); 3];

/// Holds the first resource until the second was entered, and the second until the third was.
pub(crate) const IN_TURN: Places = [(0, 1), (1, 2), (2, 2)];

/// Holds the first resource until the third was entered.
pub(crate) const TURNED: Places = [(0, 2), (1, 1), (2, 2)];

/// Holds each analysis until that of another resource has begun. The first resource is one side, all others are the other. On
/// one thread the first is held too long.
pub(crate) const MEET: Places = [(0, 1), (1, 0), (1, 0)];

/// Holds nobody, since what an analysis waits for is that it has begun itself.
pub(crate) const FREE: Places = [(0, 0), (1, 1), (2, 2)];

/// Holds analyses until others have begun.
#[derive(Drop)]
struct Holding {
    places: Places,
    entered: [AtomicU64; 3],
    meetings: Arc<Meetings>,
}

impl Gate for Holding {
    fn enter(&self, res: ResId) {
        let (own, other) = self.places[res.0.min(2) as usize];
        if own < 3 {
            self.entered[own].store(1, SeqCst);
        }
        let count = if other < 3 && await_one(&self.entered[other]) {
            &self.meetings.met
        } else {
            &self.meetings.missed
        };
        count.fetch_add(1, SeqCst);
    }
}

/// A gate with these places, and what it counts.
pub(crate) fn held(alloc: Global, places: Places) -> Result<(Box<dyn Gate>, Arc<Meetings>), Fail> {
    let none = Meetings {
        met: AtomicU64::new(0),
        missed: AtomicU64::new(0),
    };
    let meetings = Arc::new(alloc, none)?;
    let gate = Holding {
        places,
        entered: [AtomicU64::new(0), AtomicU64::new(0), AtomicU64::new(0)],
        meetings: Arc::try_clone(&meetings)?,
    };
    Ok((Box::new(alloc, gate)?, meetings))
}

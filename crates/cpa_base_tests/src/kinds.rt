//! Bounds of single tasks under priorities, round robin, TDMA and CAN, and the limits at which they are just within reach.

ghost use Rattle.std.specs.Prelude.{◌≤◌};
ghost use Rattle.std.specs.Option.{ForSome};
ghost use Rattle.cpa_events.specs.Events.{IsModelInRange};
ghost use Rattle.cpa_window.specs.Rivals.{IsRival};

use crate::first_failure::tell;
use cpa_events::{Model, Stream};
use cpa_units::Bound;
use cpa_units::limits::{MAX_JITTER, MAX_LIMIT, MAX_PERIOD};
use cpa_window::Rival;

fn every(period: u64, jitter: u64) -> Model
    requires some { 1 ≤ period }
    requires period { period ≤ MAX_PERIOD }
    requires jitter { jitter ≤ MAX_JITTER }
    ensures { IsModelInRange result }
{
    Model::one(Stream {
        period,
        jitter,
        distance: 0,
    })
}

/// A rival that has a bound, which it reaches.
fn rival(period: u64, jitter: u64, worst: u64, slot: u64, bound: u64) -> Rival
    requires some { 1 ≤ period }
    requires period { period ≤ 1000 }
    requires jitter { jitter ≤ 1000 }
    requires worst { worst ≤ 1000 }
    requires slot { slot ≤ 1000 }
    requires bound { bound ≤ 1000 }
    ensures { IsRival result }
{
    Rival {
        model: Some(every(period, jitter)),
        worst,
        slot,
        bound: Bound::Within(bound),
    }
}

/// A rival without a bound.
fn endless(model: Option<Model>, worst: u64, slot: u64) -> Rival
    requires model { ForSome model IsModelInRange }
    requires worst { worst ≤ 1000 }
    requires slot { slot ≤ 1000 }
    ensures { IsRival result }
{
    Rival {
        model,
        worst,
        slot,
        bound: Bound::Overload,
    }
}

#[test]
fn preemptive(rt: HostRuntime) {
    let mut wrong = None;
    for (case, limit, bound) in [
        (
            "long_window: 114, 202, 316, 404, 518, 606, 694",
            1_000_000,
            Bound::Within(118),
        ),
        ("long_window at its last window", 694, Bound::Within(118)),
        ("long_window below it", 693, Bound::Overload),
    ] {
        let rivals = [rival(70, 0, 26, 0, 26)];
        let found = cpa_spp::respond(&every(100, 0), 62, 0, &rivals, limit);
        wrong = tell(wrong, case, found == bound);
    }
    for (case, limit, bound) in [
        (
            "burst, without rivals: 2, 4, 6, 8",
            1_000_000,
            Bound::Within(6),
        ),
        ("burst at its last window", 8, Bound::Within(6)),
        ("burst below it", 7, Bound::Overload),
    ] {
        let found = cpa_spp::respond(&every(10, 25), 2, 0, &[], limit);
        wrong = tell(wrong, case, found == bound);
    }
    // The window ends at the next arrival of the rival, which doesn't count.
    for (case, limit, bound) in [
        ("limit_edge", 10, Bound::Within(10)),
        ("limit_edge below it", 9, Bound::Overload),
    ] {
        let rivals = [rival(10, 0, 3, 0, 3)];
        let found = cpa_spp::respond(&every(20, 0), 7, 0, &rivals, limit);
        wrong = tell(wrong, case, found == bound);
    }
    // A task of 2 ticks above one that takes up to 20, in regions of 1, 5 and 20 ticks.
    for (case, blocking, bound) in [
        ("region of a tick", 0, Bound::Within(2)),
        ("region of 5", 4, Bound::Within(6)),
        ("not preempted", 19, Bound::Within(21)),
    ] {
        let found = cpa_spp::respond(&every(10, 0), 2, blocking, &[], 1_000_000);
        wrong = tell(wrong, case, found == bound);
    }
    assert!(rt; wrong.is_none(), "{wrong:?}");
}

/// Many jobs come at once, so most windows end before a rival sends something new.
#[test]
fn preemptive_bursts(rt: HostRuntime) {
    let rivals = [rival(60, 0, 5, 0, 5), rival(100, 7, 4, 0, 4)];
    let late = cpa_spp::respond(&every(3, 40), 2, 0, &rivals, 1000);
    let rivals = [rival(13, 0, 3, 0, 3), rival(17, 20, 2, 0, 2)];
    let later = cpa_spp::respond(&every(5, 100), 2, 0, &rivals, 1000);
    assert!(rt; late == Bound::Within(37) && later == Bound::Within(72));
    let largest_jitter = cpa_spp::respond(&every(1, MAX_JITTER), 10_000_000, 0, &[], MAX_LIMIT);
    // Without a bound on a rival's input there is none.
    let rivals = [rival(10, 0, 3, 0, 3), endless(None, 1, 0)];
    let beside_endless = cpa_spp::respond(&every(20, 0), 7, 0, &rivals, 1000);
    assert!(rt; largest_jitter == Bound::Overload && beside_endless == Bound::Overload);
}

#[test]
fn tdma(rt: HostRuntime) {
    let mut wrong = None;
    // The second slot of the job comes 8 ticks after the first.
    for (case, limit, bound) in [
        ("tdma_gap", 1_000_000, Bound::Within(19)),
        ("tdma_gap at its limit", 19, Bound::Within(19)),
        ("tdma_gap below it", 18, Bound::Overload),
    ] {
        let found = cpa_tdma::respond(&every(40, 0), 3, 2, 10, limit);
        wrong = tell(wrong, case, found == bound);
    }
    for (case, jitter, worst, bound) in [
        ("two slots", 0, 4, Bound::Within(20)),
        ("two slots and a tick", 0, 5, Bound::Within(29)),
        (
            "three jobs at once, and one after 20 ticks: 19, 30, 49, 60",
            100,
            3,
            Bound::Within(49),
        ),
    ] {
        let found = cpa_tdma::respond(&every(40, jitter), worst, 2, 10, 1000);
        wrong = tell(wrong, case, found == bound);
    }
    for (case, limit, bound) in [
        ("the whole cycle", 8, Bound::Within(6)),
        ("the whole cycle, limit below", 7, Bound::Overload),
    ] {
        let found = cpa_tdma::respond(&every(10, 25), 2, 4, 4, limit);
        wrong = tell(wrong, case, found == bound);
    }
    let largest_gap = cpa_tdma::respond(
        &every(MAX_PERIOD, 0),
        10_000_000,
        1,
        10_000_001,
        MAX_LIMIT,
    );
    wrong = tell(wrong, "largest_gap", largest_gap == Bound::Overload);
    assert!(rt; wrong.is_none(), "{wrong:?}");
}

#[test]
fn round_robin(rt: HostRuntime) {
    // The rival has no more work than its one job.
    let few = cpa_rr::respond(&every(20, 0), 3, 2, &[rival(20, 0, 1, 4, 3)], 1_000_000);
    let short = cpa_rr::respond(&every(20, 0), 1, 4, &[rival(20, 0, 3, 2, 4)], 1_000_000);
    assert!(rt; few == Bound::Within(4) && short == Bound::Within(3));
    // rival_before_window: a job that came before the window counts too.
    let before = cpa_rr::respond(&every(100, 0), 3, 1, &[rival(20, 0, 2, 10, 16)], 1000);
    let full = cpa_rr::respond(&every(5, 0), 10, 4, &[rival(20, 0, 3, 2, 11)], 1000);
    assert!(rt; before == Bound::Within(7) && full == Bound::Overload);
    let mut wrong = None;
    for (case, limit, bound) in [
        (
            "three jobs at once, without rivals: 2, 4, 6, 8",
            8,
            Bound::Within(6),
        ),
        ("three jobs at once, limit below", 7, Bound::Overload),
    ] {
        let found = cpa_rr::respond(&every(10, 25), 2, 2, &[], limit);
        wrong = tell(wrong, case, found == bound);
    }
    assert!(rt; wrong.is_none(), "{wrong:?}");
}

/// A rival without a bound has its slots in each round, and so has one without a model.
#[test]
fn round_robin_shares(rt: HostRuntime) {
    let mut wrong = None;
    for (case, worst, bound) in [
        ("round_robin_share", 3, 11),
        ("two slots", 4, 12),
        ("two slots and a tick", 5, 17),
    ] {
        let rivals = [endless(Some(every(5, 0)), 10, 4)];
        let found = cpa_rr::respond(&every(20, 0), worst, 2, &rivals, 1000);
        wrong = tell(wrong, case, found == Bound::Within(bound));
    }
    for (case, limit, bound) in [
        ("no model", 11, Bound::Within(11)),
        ("no model, limit below", 10, Bound::Overload),
    ] {
        let found = cpa_rr::respond(&every(20, 0), 3, 2, &[endless(None, 10, 4)], limit);
        wrong = tell(wrong, case, found == bound);
    }
    assert!(rt; wrong.is_none(), "{wrong:?}");
}

/// Many jobs at once, with rivals of each sort.
#[test]
fn round_robin_bursts(rt: HostRuntime) {
    let rivals = [
        rival(13, 0, 3, 2, 20),
        rival(17, 20, 2, 2, 30),
        endless(None, 10, 1),
    ];
    let each_sort = cpa_rr::respond(&every(5, 100), 2, 3, &rivals, 1000);
    let rivals = [rival(500, 0, 5, 3, 20), rival(600, 0, 4, 3, 10)];
    let rare = cpa_rr::respond(&every(5, 200), 1, 1, &rivals, 1000);
    assert!(rt; each_sort == Bound::Within(104) && rare == Bound::Within(50));
}

/// A frame of higher priority, whose bound isn't read.
fn frame(period: u64, worst: u64) -> Rival
    requires some { 1 ≤ period }
    requires period { period ≤ MAX_PERIOD }
    requires worst { worst ≤ 1000 }
    ensures { IsRival result }
{
    endless(Some(every(period, 0)), worst, 0)
}

#[test]
fn can(rt: HostRuntime) {
    let first = cpa_can::respond(&every(250, 0), 100, 100, &[], 1, 1_000_000);
    let rivals = [frame(250, 100)];
    let second = cpa_can::respond(&every(350, 0), 100, 100, &rivals, 1, 1_000_000);
    assert!(rt; first == Bound::Within(200) && second == Bound::Within(300));
    // Of 8 bytes and a short identifier, and of no bytes and a long one.
    let short = cpa_can::respond(&every(10000, 0), 270, 160, &[], 2, 1_000_000);
    let rivals = [frame(10000, 270)];
    let long = cpa_can::respond(&every(10000, 0), 160, 0, &rivals, 2, 1_000_000);
    assert!(rt; short == Bound::Within(430) && long == Bound::Within(430));
    let mut wrong = None;
    // The third frame's busy window is 700; its first instance takes 300, its second 350.
    for (case, limit, bound) in [
        ("davis_bus", 1_000_000, Bound::Within(350)),
        ("davis_bus at its window", 700, Bound::Within(350)),
        ("davis_bus below it", 699, Bound::Overload),
    ] {
        let rivals = [frame(250, 100), frame(350, 100)];
        let found = cpa_can::respond(&every(350, 0), 100, 0, &rivals, 1, limit);
        wrong = tell(wrong, case, found == bound);
    }
    assert!(rt; wrong.is_none(), "{wrong:?}");
}

#[test]
fn several_frames(rt: HostRuntime) {
    let mut wrong = None;
    // The busy window is 80, but the last of six frames ends at 91.
    for (case, limit, bound) in [
        ("six frames", 91, Bound::Within(61)),
        ("six frames, limit below", 90, Bound::Overload),
    ] {
        let rivals = [frame(50, 9), frame(20, 11)];
        let found = cpa_can::respond(&every(20, 30), 3, 0, &rivals, 5, limit);
        wrong = tell(wrong, case, found == bound);
    }
    assert!(rt; wrong.is_none(), "{wrong:?}");
    // Five frames of a busy window of 205 start at 55, 100, 120, 165 and 185.
    let five = cpa_can::respond(&every(100, 250), 20, 30, &[frame(70, 25)], 1, 1000);
    // A rival without a bound on its input leaves none.
    let rivals = [frame(250, 100), endless(None, 1, 0)];
    let beside_endless = cpa_can::respond(&every(350, 0), 100, 0, &rivals, 1, 1000);
    assert!(rt; five == Bound::Within(140) && beside_endless == Bound::Overload);
}

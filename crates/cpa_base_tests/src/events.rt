//! How many events come in windows, and how close together.

ghost use Rattle.std.specs.Prelude.{◌≡◌, ◌+◌, ◌≤◌, ◌++◌, length};
ghost use Rattle.cpa_events.specs.Streams.{IsStreamInRange};
ghost use Rattle.cpa_events.specs.Events.{IsModelInRange};

use crate::first_failure::tell;
use cpa_events::{MAX_MODEL_JITTER, Model, Stream};

fn stream(period: u64, jitter: u64, distance: u64) -> Stream
    requires some { 1 ≤ period }
    requires period { period ≤ 1_000_000_000 }
    requires jitter { jitter ≤ 4_200_000_000 }
    requires distance { distance ≤ 1_000_000_000 }
    ensures { IsStreamInRange result }
{
    Stream {
        period,
        jitter,
        distance,
    }
}

/// The streams of two models, one list after the other.
fn both(first: &Model, second: &Model) -> Model
    requires first { IsModelInRange first.now }
    requires second { IsModelInRange second.now }
    requires few { length first.now + length second.now ≤ 32 }
    ensures in_range { IsModelInRange result }
    ensures many { length result ≡ length first.now + length second.now }
    ensures streams { result ≡ first.now ++ second.now }
{
    let mut model = first.duplicate();
    model.append(second);
    model
}

/// The least time with room for n events, by a look at each from 0 on.
fn searched(model: &Model, n: u64) -> u64
    requires { IsModelInRange model.now }
{
    for time in 0..400 {
        if n <= model.eta_plus(time + 1) {
            return time;
        }
    }
    400
}

/// A window's end doesn't count. Three events may come at one instant, and then one every 10 ticks
/// from 5 on; or the same at least 4 ticks apart.
#[test]
fn one_stream(rt: HostRuntime) {
    let periodic = Model::one(stream(10, 0, 0));
    let burst = Model::one(stream(10, 25, 0));
    let spaced = Model::one(stream(10, 25, 4));
    let mut wrong = None;
    for (window, plain, bursting, apart) in [
        (0, 0, 0, 0),
        (1, 1, 3, 1),
        (5, 1, 3, 2),
        (6, 1, 4, 2),
        (10, 1, 4, 3),
        (11, 2, 4, 3),
        (16, 2, 5, 4),
        (17, 2, 5, 5),
        (26, 3, 6, 6),
    ] {
        let events = (
            periodic.eta_plus(window),
            burst.eta_plus(window),
            spaced.eta_plus(window),
        );
        wrong = tell(wrong, window, events == (plain, bursting, apart));
    }
    assert!(rt; wrong.is_none(), "at {wrong:?}");
}

/// When event `n` comes after the first at the earliest and at the latest, and at the earliest where they are kept apart.
#[test]
fn times_of_events(rt: HostRuntime) {
    let burst = Model::one(stream(10, 25, 0));
    let spaced = Model::one(stream(10, 25, 4));
    let mut wrong = None;
    for (n, least, most, apart) in [
        (0, 0, 0, 0),
        (1, 0, 0, 0),
        (2, 0, 35, 4),
        (3, 0, 45, 8),
        (4, 5, 55, 12),
        (5, 15, 65, 16),
        (6, 25, 75, 25),
    ] {
        let times = (
            burst.delta_minus(n),
            burst.delta_plus(n),
            spaced.delta_minus(n),
        );
        wrong = tell(wrong, n, times == (least, most, apart));
    }
    assert!(rt; wrong.is_none(), "at {wrong:?}");
}

/// Two streams of periods 10 and 20: their events add up, and their times meet at 20.
#[test]
fn two_streams(rt: HostRuntime) {
    let two = both(&Model::one(stream(10, 0, 0)), &Model::one(stream(20, 0, 0)));
    let mut wrong = None;
    for (window, events) in [(0, 0), (1, 2), (10, 2), (11, 3), (20, 3), (21, 5)] {
        wrong = tell(wrong, window, two.eta_plus(window) == events);
    }
    for (n, least) in [(0, 0), (1, 0), (2, 0), (3, 10), (4, 20), (5, 20), (6, 30)] {
        wrong = tell(wrong, n, two.delta_minus(n) == least);
    }
    assert!(rt; wrong.is_none() && two.len() == 2, "at {wrong:?}");
}

/// Two equal streams, two of which one keeps a distance, and 32, against a plain search upwards.
#[test]
fn least_times(rt: HostRuntime) {
    let late = Model::one(stream(10, 25, 0));
    let spaced = Model::one(stream(7, 9, 3));
    let two = both(&late, &spaced);
    let four = both(&two, &two);
    let eight = both(&four, &four);
    let sixteen = both(&eight, &eight);
    let most = both(&sixteen, &sixteen);
    let equal = both(&spaced, &spaced);
    let mut wrong = None;
    for n in 0..60 {
        let right = two.delta_minus(n) == searched(&two, n)
            && most.delta_minus(n) == searched(&most, n)
            && equal.delta_minus(n) == searched(&equal, n);
        wrong = tell(wrong, n, right);
    }
    assert!(rt; wrong.is_none() && most.len() == 32, "at {wrong:?}");
}

/// What a task sends on, from sources whose events are and aren't kept apart, and that of each of
/// two streams.
#[test]
fn responses(rt: HostRuntime) {
    let mut wrong = None;
    for (distance, best, bound, jitter, sent) in [
        (0, 5, 30, 25, 5),
        (0, 10, 30, 20, 10),
        (60, 5, 30, 25, 35),
        (60, 5, 5, 0, 60),
    ] {
        let one = Model::one(Stream {
            period: 100,
            jitter: 0,
            distance,
        });
        let answer = both(&one, &one).after_response(best, bound);
        let last = Stream {
            period: 100,
            jitter,
            distance: sent,
        };
        wrong = tell(wrong, sent, answer.len() == 2 && answer.get(1) == last);
    }
    assert!(rt; wrong.is_none(), "distance {wrong:?}");
}

#[test]
fn largest_numbers(rt: HostRuntime) {
    let model = Model::one(stream(1, MAX_MODEL_JITTER, 0));
    let n = 4_294_967_296;
    let numbers = (model.eta_plus(n), model.delta_minus(n), model.delta_plus(n));
    assert!(rt; numbers == (8_494_967_296, 94_967_295, 8_494_967_295));
}

use cpa_assign::{Order, assign, assign_text, can_compare, is_fed_by_sources};
use cpa_file::read_system;
use cpa_units::ResId;
use std::alloc::Global;
use std::test::Fail;

/// The bus of Davis et al., a processor without tasks, one whose tasks have slots, one whose task comes after a frame, a queue, and a
/// processor where two tasks share a lock.
const DAVIS_BUS: &str = r#"format = 4
resource = [
  { name = "bus", kind = "can", bit = 1 },
  { name = "p", kind = "preemptive" },
  { name = "q", kind = "round-robin" },
  { name = "r", kind = "preemptive" },
  { name = "out", kind = "fifo" },
  { name = "ecu", kind = "ceiling" },
]
source = [{ name = "s1", period = 250 }, { name = "s2", period = 350 }, { name = "s3", period = 350 }]
task = [
  { name = "m1", on = "bus", after = "s1", best = 100, worst = 100, priority = 1 },
  { name = "m2", on = "bus", after = "s2", best = 100, worst = 100, priority = 4 },
  { name = "m3", on = "bus", after = "s3", best = 100, worst = 100, priority = 9 },
  { name = "c", on = "r", after = "m3", best = 100, worst = 100, priority = 1 },
  { name = "high", on = "ecu", after = "s1", best = 10, worst = 10, priority = 9 },
  { name = "middle", on = "ecu", after = "s2", best = 30, worst = 30, priority = 4, locks = [{ name = "x", start = 0, length = 5 }] },
  { name = "low", on = "ecu", after = "s3", best = 100, worst = 100, priority = 1, locks = [{ name = "x", start = 10, length = 21 }] },
]
"#;

/// Paths of the bus, a resource, what is written of it, and the places of its tasks in the order, highest first.
struct Case {
    paths: &'static str,
    res: u32,
    text: &'static str,
    order: &'static [u32],
}

const CASES: [Case; 9] = [
    // The last of the frames is late by the priorities that it has.
    Case {
        paths: "path = [{ name = 'm3', tasks = ['m3'], deadline = 325 }]",
        res: 0,
        text: "priority m3 1\npriority m2 4\npriority m1 9\nassigned bus tasks 3\n",
        order: &[2, 1, 0],
    },
    // At the lowest place each takes at least 300.
    Case {
        paths: "path = [{ name = 'm1', tasks = ['m1'], deadline = 250 }, { name = 'm2', tasks = ['m2'], deadline = 250 }, { name = 'm3', tasks = ['m3'], deadline = 250 }]",
        res: 0,
        text: "none bus\n",
        order: &[],
    },
    // The first would be late at the lowest place, and at the next.
    Case {
        paths: "path = [{ name = 'm1', tasks = ['m1'], deadline = 200 }, { name = 'm3', tasks = ['m3'], deadline = 325 }]",
        res: 0,
        text: "priority m1 1\npriority m3 4\npriority m2 9\nassigned bus tasks 3\n",
        order: &[0, 2, 1],
    },
    Case {
        paths: "",
        res: 1,
        text: "assigned p tasks 0\n",
        order: &[],
    },
    Case {
        paths: "",
        res: 2,
        text: "no priorities\n",
        order: &[],
    },
    Case {
        paths: "",
        res: 3,
        text: "fed by a task\n",
        order: &[],
    },
    Case {
        paths: "",
        res: 4,
        text: "no priorities\n",
        order: &[],
    },
    // By the priorities that they have the lock has the most urgent ceiling. Under this order `high` waits for no section, and `middle`
    // takes 10 + 30, and waits for 20 ticks of that of `low`.
    Case {
        paths: "path = [{ name = 'high', tasks = ['high'], deadline = 10 }, { name = 'middle', tasks = ['middle'], deadline = 60 }]",
        res: 5,
        text: "priority high 1\npriority middle 4\npriority low 9\nassigned ecu tasks 3\n",
        order: &[4, 5, 6],
    },
    // A tick less is too little for `middle`, which would be in time without the lock that it uses itself.
    Case {
        paths: "path = [{ name = 'high', tasks = ['high'], deadline = 10 }, { name = 'middle', tasks = ['middle'], deadline = 59 }, { name = 'low', tasks = ['low'], deadline = 140 }]",
        res: 5,
        text: "none ecu\n",
        order: &[],
    },
];

/// Whether an order has these places, or there is none.
fn has_places(order: &Option<Order>, places: &[u32]) -> bool {
    let Some(order) = order else {
        return places.is_empty();
    };
    for k in 0..order.len() {
        if places.get(k as usize) != Some(&order.task(k).0) {
            return false;
        }
    }
    places.len() == order.len() as usize
}

/// Whether a case is answered so.
fn is_met(alloc: Global, case: &Case) -> Result<bool, Fail> {
    let system = read_system(
        alloc,
        format!(in alloc; "{DAVIS_BUS}{}", case.paths)?.as_bytes(),
    )?;
    let res = ResId(case.res);
    if res.0 >= system.resources() || !system.resource(res).kind.has_priorities() {
        return Ok(case.text == "no priorities\n");
    }
    if !is_fed_by_sources(&system, res) {
        return Ok(case.text == "fed by a task\n");
    }
    if !can_compare(&system, res) {
        return Ok(case.text == "on clocks\n");
    }
    let order = assign(alloc, &system, res)?;
    let text = assign_text(alloc, &system, res, &order)?;
    Ok(text.as_slice() == case.text.as_bytes() && has_places(&order, case.order))
}

#[test]
fn orders(rt: HostRuntime) -> Result<(), Fail> {
    for case in &CASES {
        assert!(rt; is_met(rt.alloc(), case)?, "{}", case.text);
    }
    Ok(())
}

//! Which resources read which, and cones.

use cpa_depend::{cone, reads, reads_of_all};
use cpa_file::read_system;
use cpa_model::System;
use cpa_units::{ResId, ResSet};
use std::test::Fail;

/// Two chains that cross on p and q, the first of which goes on to r; nothing is on t.
const CROSSING: &str = r#"format = 1
resource = [
  { name = "p", kind = "preemptive" },
  { name = "q", kind = "preemptive" },
  { name = "r", kind = "preemptive" },
  { name = "t", kind = "preemptive" },
]
source = [{ name = "sa", period = 100 }, { name = "sb", period = 100 }]
task = [
  { name = "a1", on = "p", after = "sa", best = 2, worst = 7, priority = 1 },
  { name = "a2", on = "q", after = "a1", best = 2, worst = 7, priority = 1 },
  { name = "b1", on = "q", after = "sb", best = 2, worst = 7, priority = 2 },
  { name = "b2", on = "p", after = "b1", best = 2, worst = 7, priority = 2 },
  { name = "a3", on = "r", after = "a2", best = 2, worst = 7, priority = 1 },
]
"#;

/// A task on r after one on p and one on q, and one on t after it.
const JOINED: &str = r#"format = 2
resource = [
  { name = "p", kind = "preemptive" },
  { name = "q", kind = "can" },
  { name = "r", kind = "round-robin" },
  { name = "t", kind = "tdma" },
]
source = [{ name = "s", period = 100 }]
task = [
  { name = "d", on = "t", after = "c", best = 1, worst = 1, slot = 1 },
  { name = "c", on = "r", after = ["a", "s", "b"], best = 1, worst = 1, slot = 1 },
  { name = "a", on = "p", after = "s", best = 1, worst = 1, priority = 1 },
  { name = "b", on = "q", after = "s", best = 1, worst = 1, priority = 1 },
]
"#;

/// Which of the first four places are members.
fn members(set: ResSet) -> [bool; 4] {
    [
        set.has(ResId(0)),
        set.has(ResId(1)),
        set.has(ResId(2)),
        set.has(ResId(3)),
    ]
}

/// Of each of four resources what it reads, the same by the table, and its cone.
fn all_around(system: &System) -> Option<[[[bool; 4]; 3]; 4]> {
    if system.resources() != 4 {
        return None;
    }
    let table = reads_of_all(system);
    let mut seen = [[[false; 4]; 3]; 4];
    for place in 0..4u32 {
        let res = ResId(place);
        let from = ResSet::none().with(res);
        seen[place as usize] = [
            members(reads(system, res)),
            members(table[place as usize]),
            members(cone(system, from)),
        ];
    }
    Some(seen)
}

const BOTH: [bool; 4] = [true, true, false, false];

const ALL: [bool; 4] = [true, true, true, false];

const THIRD: [bool; 4] = [false, false, true, false];

const LAST: [bool; 4] = [false, false, false, true];

/// The same of the crossing chains.
const CROSSED: [[[bool; 4]; 3]; 4] = [
    [BOTH, BOTH, ALL],
    [BOTH, BOTH, ALL],
    [ALL, ALL, THIRD],
    [LAST, LAST, LAST],
];

const P: [bool; 4] = [true, false, false, false];

const Q: [bool; 4] = [false, true, false, false];

const EACH: [bool; 4] = [true, true, true, true];

/// And of the others.
const MET: [[[bool; 4]; 3]; 4] = [
    [P, P, [true, false, true, true]],
    [Q, Q, [false, true, true, true]],
    [ALL, ALL, [false, false, true, true]],
    [EACH, EACH, LAST],
];

#[test]
fn crossing_and_joined_chains(rt: HostRuntime) -> Result<(), Fail> {
    let alloc = rt.alloc();
    let crossing = all_around(&read_system(alloc, CROSSING.as_bytes())?);
    let joined = all_around(&read_system(alloc, JOINED.as_bytes())?);
    assert!(rt; crossing == Some(CROSSED) && joined == Some(MET));
    Ok(())
}

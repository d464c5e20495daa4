//! Calls of `chains` over files in memory, and of both commands by the one call of their program. The bounds are those of the
//! rules of docs/DEFINITIONS.md, followed in Python; what comes of them was worked out by hand.

use crate::chain::{EFFECTS, ENDLESS};
use cpa_effect_files::run_chains;
use cpa_io::{MemoryFiles, MemorySink};
use std::alloc::{AllocError, Global};
use std::test::Fail;

/// A chain within its deadline.
const BRAKE: &str = r#"format = 1
chain = [{ name = "brake", tasks = ["sense", "filter", "act"], reaction = 60 }]
"#;

const BRAKE_TEXT: &str =
    "chain brake tasks 3 reaction 47 deadline 60 met age 28 deadline - none\nsummary chains 1 overload 0 missed 0 if sources stay near\n";

/// A system, a file of chains, the status and the text.
type Judged = (&'static str, &'static str, u8, &'static str);

const JUDGED: [Judged; 33] = [
    (EFFECTS, BRAKE, 0, BRAKE_TEXT),
    (
        EFFECTS,
        "format = 1\n",
        0,
        "summary chains 0 overload 0 missed 0 if sources stay near\n",
    ),
    // Deadlines that are reached to the tick, in a section of its own; a task that reads what it wrote itself.
    (
        EFFECTS,
        r#"format = 1
[[chain]]
name = "brake"
tasks = ["sense", "filter", "act"]
reaction = 47
age = 28
[[chain]]
name = "own"
tasks = ["sense", "sense"]
age = 15
"#,
        0,
        "chain brake tasks 3 reaction 47 deadline 47 met age 28 deadline 28 met\nchain own tasks 2 reaction 24 deadline - none age 15 deadline 15 met\nsummary chains 2 overload 0 missed 0 if sources stay near\n",
    ),
    // Each of two deadlines missed by a tick, and both: a chain counts once.
    (
        EFFECTS,
        r#"format = 1
chain = [
  { name = "late", tasks = ["sense", "filter", "act"], reaction = 46 },
  { name = "old", tasks = ["act"], reaction = 40, age = 8 },
  { name = "both", tasks = ["act"], reaction = 32, age = 1, held = 33 },
  { name = "stale", tasks = ["act"], held = 32 },
]
"#,
        1,
        "chain late tasks 3 reaction 47 deadline 46 missed age 28 deadline - none\nchain old tasks 1 reaction 33 deadline 40 met age 9 deadline 8 missed\nchain both tasks 1 reaction 33 deadline 32 missed age 9 deadline 1 missed held 33 deadline 33 met\nchain stale tasks 1 reaction 33 deadline - none age 9 deadline - none held 33 deadline 32 missed\nsummary chains 4 overload 0 missed 4 if sources stay near\n",
    ),
    // A bound that is missing counts before a deadline that is missed, and its deadline isn't missed.
    (
        ENDLESS,
        r#"format = 1
chain = [
  { name = "x", tasks = ["a"], reaction = 16, age = 8 },
  { name = "y", tasks = ["a", "c"], reaction = 1000000000 },
]
"#,
        2,
        "chain x tasks 1 reaction 17 deadline 16 missed age 8 deadline 8 met\nchain y tasks 2 reaction overload deadline 1000000000 unknown age overload deadline - none\nsummary chains 2 overload 1 missed 1 if sources stay near\n",
    ),
    (EFFECTS, "format =", 13, "not TOML c\n"),
    (
        EFFECTS,
        "format = 2\nchain = 3\n",
        18,
        "chains refused reason 13 file 0\n",
    ),
    (
        EFFECTS,
        "format = -1\n",
        18,
        "chains refused reason 13 file 0\n",
    ),
    (EFFECTS, "", 18, "chains refused reason 1 file 0\n"),
    (
        EFFECTS,
        "format = \"1\"\n",
        18,
        "chains refused reason 1 file 0\n",
    ),
    (
        EFFECTS,
        "format = 1\nchains = []\n",
        18,
        "chains refused reason 1 file 0\n",
    ),
    (
        EFFECTS,
        "format = 1\nchain = 3\n",
        18,
        "chains refused reason 1 file 0\n",
    ),
    (
        EFFECTS,
        "format = 1\nchain = [3]\n",
        18,
        "chains refused reason 1 chain 1\n",
    ),
    // A key that isn't known, a key that is missing, and values of other types.
    (
        EFFECTS,
        r#"format = 1
chain = [{ name = "a", tasks = ["act"] }, { name = "b", tasks = ["act"], deadline = 3 }]
"#,
        18,
        "chains refused reason 1 chain 2\n",
    ),
    (
        EFFECTS,
        "format = 1\nchain = [{ tasks = [\"act\"] }]\n",
        18,
        "chains refused reason 1 chain 1\n",
    ),
    (
        EFFECTS,
        "format = 1\nchain = [{ name = \"a\" }]\n",
        18,
        "chains refused reason 1 chain 1\n",
    ),
    (
        EFFECTS,
        "format = 1\nchain = [{ name = \"a\", tasks = \"act\" }]\n",
        18,
        "chains refused reason 1 chain 1\n",
    ),
    (
        EFFECTS,
        "format = 1\nchain = [{ name = \"a\", tasks = [\"act\", 3] }]\n",
        18,
        "chains refused reason 1 chain 1\n",
    ),
    (
        EFFECTS,
        "format = 1\nchain = [{ name = 3, tasks = [\"act\"] }]\n",
        18,
        "chains refused reason 1 chain 1\n",
    ),
    (
        EFFECTS,
        "format = 1\nchain = [{ name = \"a\", tasks = [\"act\"], age = 3.0 }]\n",
        18,
        "chains refused reason 1 chain 1\n",
    ),
    // Deadlines out of their range.
    (
        EFFECTS,
        "format = 1\nchain = [{ name = \"a\", tasks = [\"act\"], reaction = 0 }]\n",
        18,
        "chains refused reason 2 chain 1\n",
    ),
    (
        EFFECTS,
        "format = 1\nchain = [{ name = \"a\", tasks = [\"act\"], age = -1 }]\n",
        18,
        "chains refused reason 2 chain 1\n",
    ),
    (
        EFFECTS,
        "format = 1\nchain = [{ name = \"a\", tasks = [\"act\"] }, { name = \"b\", tasks = [\"act\"], age = 1000000001 }]\n",
        18,
        "chains refused reason 2 chain 2\n",
    ),
    // A reason is looked for in all chains before the next.
    (
        EFFECTS,
        "format = 1\nchain = [{ name = \"a b\", tasks = [] }, { name = \"b\", tasks = [\"zz\"], age = 0 }]\n",
        18,
        "chains refused reason 2 chain 2\n",
    ),
    (
        EFFECTS,
        "format = 1\nchain = [{ name = \"a\", tasks = [\"zz\"] }, { name = \"a\", tasks = [] }, { name = \"\", tasks = [] }]\n",
        18,
        "chains refused reason 3 chain 3\n",
    ),
    (
        EFFECTS,
        "format = 1\nchain = [{ name = \"a\", tasks = [\"zz\"] }, { name = \"b\", tasks = [] }, { name = \"a\", tasks = [\"act\"] }, { name = \"b\", tasks = [] }]\n",
        18,
        "chains refused reason 4 chain 3\n",
    ),
    // A source is no task.
    (
        EFFECTS,
        "format = 1\nchain = [{ name = \"a\", tasks = [] }, { name = \"b\", tasks = [\"act\", \"fast\"] }, { name = \"c\", tasks = [\"zz\"] }]\n",
        18,
        "chains refused reason 5 chain 2\n",
    ),
    (
        EFFECTS,
        "format = 1\nchain = [{ name = \"a\", tasks = [\"act\"] }, { name = \"b\", tasks = [] }]\n",
        18,
        "chains refused reason 11 chain 2\n",
    ),
    // 33 tasks, and 32.
    (
        EFFECTS,
        r#"format = 1
chain = [{ name = "a", tasks = [
  "act", "act", "act", "act", "act", "act", "act", "act", "act", "act", "act",
  "act", "act", "act", "act", "act", "act", "act", "act", "act", "act", "act",
  "act", "act", "act", "act", "act", "act", "act", "act", "act", "act", "act",
] }]
"#,
        18,
        "chains refused reason 11 chain 1\n",
    ),
    (
        EFFECTS,
        r#"format = 1
chain = [{ name = "a", tasks = [
  "act", "act", "act", "act", "act", "act", "act", "act", "act", "act", "act",
  "act", "act", "act", "act", "act", "act", "act", "act", "act", "act", "act",
  "act", "act", "act", "act", "act", "act", "act", "act", "act", "act",
] }]
"#,
        0,
        "chain a tasks 32 reaction 1056 deadline - none age 1032 deadline - none\nsummary chains 1 overload 0 missed 0 if sources stay near\n",
    ),
    // The system file comes first.
    ("format =", "format =", 13, "not TOML s\n"),
    (
        "format = 3\n",
        "format = 3\n",
        14,
        "system refused reason 13 file 0\n",
    ),
    (
        "format = 1\n",
        BRAKE,
        18,
        "chains refused reason 5 chain 1\n",
    ),
];

/// The numbers of the loads that fail, how many bytes the sink takes at once, and the numbers of the puts that fail.
type Faults = (&'static [u64], usize, &'static [u64]);

const NONE: Faults = (&[], 4096, &[]);

/// The faults of a call, its words, the status and the text.
const CALLS: [(Faults, &[&str], u8, &str); 16] = [
    (NONE, &["chains", "s", "c"], 0, BRAKE_TEXT),
    (
        NONE,
        &["chain", "s", "act"],
        0,
        "step act first wait 24 response 9\nchain tasks 1 reaction 33 age 9 held 33 if sources stay near\n",
    ),
    (NONE, &[], 10, "words refused\n"),
    (NONE, &["Chains", "s", "c"], 10, "words refused\n"),
    (NONE, &["chain"], 10, "words refused\n"),
    (NONE, &["chains", "s"], 10, "words refused\n"),
    (NONE, &["chains", "s", "c", "c"], 10, "words refused\n"),
    (NONE, &["chains", "-s", "c"], 10, "words refused\n"),
    (NONE, &["chains", "s", ""], 10, "words refused\n"),
    (NONE, &["chains", "zz", "c"], 11, "cannot read zz\n"),
    (NONE, &["chains", "s", "zz"], 11, "cannot read zz\n"),
    (
        (&[0], 4096, &[]),
        &["chains", "s", "c"],
        11,
        "cannot read s\n",
    ),
    (
        (&[1], 4096, &[]),
        &["chains", "s", "c"],
        11,
        "cannot read c\n",
    ),
    // The first seven bytes are sent, and then the sink fails; so with the line of a refusal.
    ((&[], 7, &[1]), &["chains", "s", "c"], 20, "chain b"),
    ((&[], 7, &[1]), &["chains", "s"], 20, "words r"),
    ((&[], 7, &[0]), &["no"], 20, ""),
];

/// The files: `s` is the system, and `c` has the chains.
fn held(alloc: Global, system: &str, chains: &str) -> Result<Vec<(String, Vec<u8>)>, AllocError> {
    let mut held = Vec::new(alloc);
    for (name, text) in [("s", system), ("c", chains)] {
        held.push((
            String::from_str(alloc, name)?,
            Vec::from_slice(alloc, text.as_bytes())?,
        ))?;
    }
    Ok(held)
}

/// The status and the bytes sent of a call.
fn call(
    alloc: Global,
    system: &str,
    chains: &str,
    words: &[&str],
    faults: &Faults,
) -> Result<(u8, MemorySink), AllocError> {
    let (loads, piece, puts) = *faults;
    let mut given = Vec::new(alloc);
    for word in words {
        given.push(String::from_str(alloc, word)?)?;
    }
    let files = held(alloc, system, chains)?;
    let mut files = MemoryFiles::new(alloc, files, Vec::from_slice(alloc, loads)?);
    let mut sink = MemorySink::new(alloc, piece.max(1), Vec::from_slice(alloc, puts)?);
    let status = run_chains(alloc, given.as_slice(), &mut files, &mut sink);
    Ok((status, sink))
}

#[test]
fn judges_chains(rt: HostRuntime) -> Result<(), Fail> {
    let alloc = rt.alloc();
    let mut wrong = None;
    for (k, (system, chains, status, text)) in JUDGED.iter().enumerate() {
        let (answer, sink) = call(alloc, system, chains, &["chains", "s", "c"], &NONE)?;
        if answer != *status || sink.sent() != text.as_bytes() {
            wrong = Some(k);
        }
    }
    assert!(rt; wrong.is_none(), "{wrong:?}");
    Ok(())
}

#[test]
fn answers_commands(rt: HostRuntime) -> Result<(), Fail> {
    let alloc = rt.alloc();
    let mut wrong = None;
    for (k, (faults, words, status, text)) in CALLS.iter().enumerate() {
        let (answer, sink) = call(alloc, EFFECTS, BRAKE, words, faults)?;
        if answer != *status || sink.sent() != text.as_bytes() {
            wrong = Some(k);
        }
    }
    assert!(rt; wrong.is_none(), "{wrong:?}");
    Ok(())
}

/// The status of a call over the first example and a file of chains, and whether it wrote a text.
fn judge(alloc: Global, chains: &str, text: &str) -> Result<(u8, bool), AllocError> {
    let (status, sink) = call(alloc, EFFECTS, chains, &["chains", "s", "c"], &NONE)?;
    Ok((status, sink.sent() == text.as_bytes()))
}

/// A file of so many chains.
fn many(alloc: Global, count: u32) -> Result<String, AllocError> {
    let mut text = String::from_str(alloc, "format = 1\n")?;
    for k in 0..count {
        let section = format!(in alloc; "[[chain]]\nname = \"c{k}\"\ntasks = [\"act\"]\n")?;
        text.push_str(section.as_str())?;
    }
    Ok(text)
}

/// A file has 128 chains at most.
#[test]
fn counts_chains(rt: HostRuntime) -> Result<(), Fail> {
    let alloc = rt.alloc();
    let most = judge(alloc, many(alloc, 128)?.as_str(), "")?;
    let more = judge(
        alloc,
        many(alloc, 129)?.as_str(),
        "chains refused reason 12 chain 129\n",
    )?;
    assert!(rt;
        most == (0, false) && more == (18, true),
        "{most:?} {more:?}"
    );
    Ok(())
}

/// A comment of 2 to the 20 bytes, as many as a file may have.
fn longest(alloc: Global) -> Result<String, AllocError> {
    let mut text = String::from_str(alloc, "#")?;
    for _ in 0..20 {
        let half = String::from_str(alloc, text.as_str())?;
        text.push_str(half.as_str())?;
    }
    Ok(text)
}

#[test]
fn counts_bytes(rt: HostRuntime) -> Result<(), Fail> {
    let alloc = rt.alloc();
    let mut text = longest(alloc)?;
    let most = judge(alloc, text.as_str(), "chains refused reason 1 file 0\n")?;
    text.push_str("#")?;
    let more = judge(alloc, text.as_str(), "too long c\n")?;
    assert!(rt;
        most == (18, true) && more == (12, true),
        "{most:?} {more:?}"
    );
    Ok(())
}

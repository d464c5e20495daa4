//! Schedules and chains of texts in memory.

use cpa_memory::{SYSTEM as FILE, Texts, call, chain, chains, schedule};
use cpa_words::Command;
use std::test::Fail;

const SYSTEM: &str =
    "format = 1\nresource = [{ name = \"cpu\", kind = \"preemptive\" }]\nsource = [{ name = \"sa\", period = 10 }, { name = \"sb\", period = 20 }]\ntask = [{ name = \"a\", on = \"cpu\", after = \"sa\", best = 1, worst = 3, priority = 1 }, { name = \"b\", on = \"cpu\", after = \"sb\", best = 2, worst = 7, priority = 2 }]\n";

const CHAINS: &str = "format = 1\nchain = [{ name = \"c\", tasks = [\"a\", \"b\"] }]\n";

fn texts() -> Texts<'static> {
    Texts {
        system: SYSTEM.as_bytes(),
        script: b"",
        trace: b"event,sa,5\n",
        schedule: b"",
        chains: CHAINS.as_bytes(),
    }
}

/// The second task runs for up to 7 ticks, and waits once for the first.
const REPORT: &[u8] =
    b"task a cpu period 10 jitter 0 distance 0 best 1 worst 3\ntask b cpu period 20 jitter 0 distance 0 best 2 worst 10\nsummary tasks 2 overload 0 missed 0\n";

#[test]
fn analyses_a_system(rt: HostRuntime) -> Result<(), Fail> {
    let command = Command::Analyse {
        file: FILE,
        workers: 1,
    };
    let reply = call(rt.alloc(), command, texts())?;
    assert!(rt; reply.status == 0 && reply.text.as_slice() == REPORT);
    Ok(())
}

#[test]
fn schedules_a_run(rt: HostRuntime) -> Result<(), Fail> {
    let reply = schedule(rt.alloc(), texts())?;
    assert!(rt; reply.status == 0 && reply.text.len() > 4);
    Ok(())
}

#[test]
fn bounds_a_chain(rt: HostRuntime) -> Result<(), Fail> {
    let alloc = rt.alloc();
    let statuses = [
        chain(alloc, texts(), "a\nb\n", false)?.status,
        chain(alloc, texts(), "a\nb", true)?.status,
        chain(alloc, texts(), "a\n\nb", false)?.status,
        chain(alloc, texts(), "", false)?.status,
        chain(alloc, texts(), "zz", false)?.status,
        chain(alloc, texts(), "a\nb\n--while-running", false)?.status,
    ];
    assert!(rt; statuses == [0, 0, 10, 10, 18, 10]);
    Ok(())
}

#[test]
fn bounds_chains(rt: HostRuntime) -> Result<(), Fail> {
    let reply = chains(rt.alloc(), texts())?;
    assert!(rt; reply.status == 0 && reply.text.len() > 40);
    Ok(())
}

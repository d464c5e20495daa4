//! What workers pass, and what a gate sees of them: that analyses run beside each other, and which there are.

ghost use Rattle.std.specs.Prelude.{None};

use crate::calls::{call_with, given_words, held_files};
use crate::cases::{CROSSING_CHAINS, CROSSING_CHAINS_REPORT, ENDLESS_JITTER};
use crate::fresh_analyses::edit_once;
use cpa_fix::Round;
use cpa_io::{MemoryFiles, Sink, SinkFault};
use cpa_run::run_with;
use cpa_units::ResId;
use cpa_workers::{Gate, Shared};
use std::alloc::{AllocError, Global};
use std::sync::Arc;
use std::sync::atomic::AtomicU64;
use std::sync::atomic::Ordering::SeqCst;
use std::test::Fail;
use std::thread::Threads;

/// How many analyses of each of three resources came to a gate, how many went on, and how many it held in vain.
#[derive(Drop)]
struct Seen {
    came: [AtomicU64; 3],
    met: AtomicU64,
    missed: AtomicU64,
}

/// Counts analyses, those of a third resource and of further ones together. If it holds, it keeps each until that of another
/// resource has come, for so many turns at most: the first resource is one side, all others are the other.
#[derive(Drop)]
struct Watch {
    holds: bool,
    seen: Arc<Seen>,
}

/// Whether one of two counts was seen to be more than 0.
fn await_one(first: &AtomicU64, second: &AtomicU64) -> bool {
    for _ in 0..100_000_000u32 {
        if first.load(SeqCst) != 0 || second.load(SeqCst) != 0 {
            return true;
        }
    }
    false
}

impl Gate for Watch {
    fn enter(&self, res: ResId) {
        let [first, second, third] = &self.seen.came;
        let (own, others) = match res.0 {
            0 => (first, (second, third)),
            1 => (second, (first, first)),
            _ => (third, (first, first)),
        };
        own.fetch_add(1, SeqCst);
        let count = if !self.holds || await_one(others.0, others.1) {
            &self.seen.met
        } else {
            &self.seen.missed
        };
        count.fetch_add(1, SeqCst);
    }
}

/// A gate, and what it sees.
fn new_gate(alloc: Global, holds: bool) -> Result<(Box<dyn Gate>, Arc<Seen>), AllocError> {
    let none = Seen {
        came: [AtomicU64::new(0), AtomicU64::new(0), AtomicU64::new(0)],
        met: AtomicU64::new(0),
        missed: AtomicU64::new(0),
    };
    let seen = Arc::new(alloc, none)?;
    let gate = Watch {
        holds,
        seen: Arc::try_clone(&seen)?,
    };
    Ok((Box::new(alloc, gate)?, seen))
}

/// The first analyses of two workers are under way at the same time.
#[test]
fn two_analyses_meet(rt: HostRuntime) -> Result<(), Fail> {
    let (gate, seen) = new_gate(rt.alloc(), true)?;
    let words: &[&str] = &["analyse", "sys", "--workers", "2"];
    let (_, sink) = call_with(&rt, words, &[], &[("sys", CROSSING_CHAINS)], gate)?;
    assert!(rt; seen.met.load(SeqCst) >= 2 && seen.missed.load(SeqCst) == 0);
    assert!(rt; sink.sent() == CROSSING_CHAINS_REPORT.as_bytes());
    Ok(())
}

/// An edit's analyses are those of the round that it is handed: here by two workers, through a gate.
#[test]
fn edit_meets(rt: HostRuntime) -> Result<(), Fail> {
    let (gate, seen) = new_gate(rt.alloc(), true)?;
    let mut round: Shared<Box<dyn Gate>> = Shared::new(2, gate);
    edit_once(&rt, rt.alloc(), CROSSING_CHAINS, "exec a1 6 10", &mut round)?;
    assert!(rt; seen.met.load(SeqCst) >= 2 && seen.missed.load(SeqCst) == 0);
    Ok(())
}

/// How often each of three resources is analysed in a call, over a system held as `sys` and a script or a trace held as `scr`.
fn count_calls<R: AllocGlobal + Threads + Sync, G: Gate>(
    rt: &R,
    words: &[&str],
    script: &str,
    (gate, seen): (G, Arc<Seen>),
) -> Result<[u64; 3], AllocError>
where
    Shared<G>: Round<R>,
{
    let texts: &[(&str, &str)] = &[("sys", ENDLESS_JITTER), ("scr", script)];
    call_with(rt, words, &[], texts, gate)?;
    let [first, second, third] = &seen.came;
    Ok([first.load(SeqCst), second.load(SeqCst), third.load(SeqCst)])
}

/// An edit of the task that stands alone has no other resource analysed again.
#[test]
fn edit_spares_rest(rt: HostRuntime) -> Result<(), Fail> {
    let whole = count_calls(
        &rt,
        &["analyse", "sys", "--workers", "1"],
        "",
        new_gate(rt.alloc(), false)?,
    )?;
    let words: &[&str] = &["session", "sys", "scr", "--workers", "1"];
    let edited = count_calls(&rt, words, "exec c 2 5\n", new_gate(rt.alloc(), false)?)?;
    assert!(rt;
        whole[0] > 0 && edited[0] == whole[0] && edited[1] == whole[1] && edited[2] > whole[2]
    );
    Ok(())
}

/// The rounds of the other calls with workers come through the gate that they are handed, too.
#[test]
fn other_rounds_are_seen(rt: HostRuntime) -> Result<(), Fail> {
    let load = count_calls(
        &rt,
        &["load", "1", "1", "--workers", "2"],
        "",
        new_gate(rt.alloc(), false)?,
    )?;
    let slack = count_calls(
        &rt,
        &["slack", "sys", "c", "--workers", "2"],
        "",
        new_gate(rt.alloc(), false)?,
    )?;
    let buffers = count_calls(
        &rt,
        &["buffers", "sys", "scr", "--workers", "2"],
        "",
        new_gate(rt.alloc(), false)?,
    )?;
    assert!(rt; load[0] > 0 && slack[0] > 0 && buffers[0] > 0);
    Ok(())
}

/// A sink that keeps how many analyses a gate had let through at its first two puts.
#[derive(Drop)]
struct Marking {
    seen: Arc<Seen>,
    puts: u32,
    first: u64,
    second: u64,
}

impl Sink for Marking {
    ghost sent = { λ _. None };

    ghost faults = { λ _. 0 };

    fn put(&mut self, piece: &[u8]) -> Result<usize, SinkFault> {
        if !piece.is_empty() {
            let count = self.seen.met.load(SeqCst);
            if self.puts == 0 {
                self.first = count;
            }
            if self.puts == 1 {
                self.second = count;
            }
            self.puts = self.puts.saturating_add(1);
        }
        Ok(piece.len())
    }
}

/// A report is sent before the next edit is analysed.
#[test]
fn report_comes_before_edit(rt: HostRuntime) -> Result<(), Fail> {
    let alloc = rt.alloc();
    let (gate, seen) = new_gate(alloc, false)?;
    let words = given_words(alloc, &["session", "sys", "scr"], &[])?;
    let texts: &[(&str, &str)] = &[("sys", ENDLESS_JITTER), ("scr", "report\nexec c 2 5\n")];
    let mut files = MemoryFiles::new(alloc, held_files(alloc, texts, None)?, Vec::new(alloc));
    let mut sink = Marking {
        seen,
        puts: 0,
        first: 0,
        second: 0,
    };
    run_with(&rt, alloc, words.as_slice(), &mut files, &mut sink, gate);
    assert!(rt; sink.puts == 2 && 0 < sink.first && sink.first < sink.second);
    Ok(())
}

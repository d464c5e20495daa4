mod systems;

ghost use Rattle.cpa_sim.specs.Outcome.{IsOutcome};

use crate::files::systems::{LONG_WINDOW, TDMA_GAP, TWO_ACTIVATORS};
use cpa_cases::IDLE_TDMA;
use cpa_file::read_system;
use cpa_model::{Activator, System};
use cpa_sim::{Outcome, replay, sim_text};
use cpa_trace::read_trace;
use cpa_units::{SourceId, TaskId};
use std::alloc::Global;
use std::test::Fail;
use systems::{AT_ONCE, CHAIN, EMPTY, FAN, TURNS};

const FIRST: Activator = Activator::Source(SourceId(0));

const SECOND: Activator = Activator::Source(SourceId(1));

const AFTER_FIRST: Activator = Activator::Task(TaskId(0));

const AFTER_SECOND: Activator = Activator::Task(TaskId(1));

/// A task, and for each of its jobs what started it, with its number, and when it ended.
type Jobs = (u32, &'static [(Activator, u64, Option<u64>)]);

/// A system, a trace, the end of the run and its text, and the jobs that are looked at.
type Run = (
    &'static str,
    &'static str,
    u64,
    &'static str,
    &'static [Jobs],
);

const RUNS: [Run; 21] = [
    // No event; a long window; two jobs that interrupt another, both pending at once; jobs that the horizon cuts off.
    (
        LONG_WINDOW,
        "",
        0,
        "task a jobs 0 done 0 worst none\ntask b jobs 0 done 0 worst none\nsummary jobs 0 done 0 end 0\n",
        &[],
    ),
    (
        LONG_WINDOW,
        "event,sa,0\nevent,sa,70\nevent,sa,140\nevent,sa,210\nevent,sa,280\nevent,sa,350\nevent,sa,420\nevent,sa,490\nevent,sa,560\nevent,sa,630\nevent,sb,0\nevent,sb,100\nevent,sb,200\nevent,sb,300\nevent,sb,400\nevent,sb,500\nevent,sb,600\n",
        694,
        "task a jobs 10 done 10 worst 26\ntask b jobs 7 done 7 worst 118\nsummary jobs 17 done 17 end 694\n",
        &[],
    ),
    (
        LONG_WINDOW,
        "event,sb,0\nevent,sa,3\nevent,sa,3\nexec,a,4\nexec,a,2\nexec,b,10\n",
        16,
        "task a jobs 2 done 2 worst 6\ntask b jobs 1 done 1 worst 16\nsummary jobs 3 done 3 end 16\n",
        &[],
    ),
    (
        LONG_WINDOW,
        "event,sa,10000000\nevent,sa,10000000\nevent,sa,10000000\nevent,sa,10000000\nevent,sa,10000000\nevent,sa,10000000\nevent,sa,10000000\nevent,sa,10000000\nevent,sa,10000000\nevent,sa,10000000\nevent,sa,10000000\nexec,a,1000000\nexec,a,1000000\nexec,a,1000000\nexec,a,1000000\nexec,a,1000000\nexec,a,1000000\nexec,a,1000000\nexec,a,1000000\nexec,a,1000000\nexec,a,1000000\nexec,a,1000000\n",
        20_000_000,
        "task a jobs 11 done 10 worst 10000000\ntask b jobs 0 done 0 worst none\nsummary jobs 11 done 10 end 20000000\n",
        &[],
    ),
    // A frame that has started holds up the one that the chain sends; an event that feeds nobody keeps a run going.
    (
        CHAIN,
        "event,s,0\n",
        14,
        "task sense jobs 1 done 1 worst 2\ntask send jobs 1 done 1 worst 12\ntask other jobs 1 done 1 worst 9\npath p passages 1 worst 14\nsummary jobs 3 done 3 end 14\n",
        &[],
    ),
    (
        CHAIN,
        "event,lone,5",
        6,
        "task sense jobs 0 done 0 worst none\ntask send jobs 0 done 0 worst none\ntask other jobs 0 done 0 worst none\npath p passages 0 worst none\nsummary jobs 0 done 0 end 6\n",
        &[],
    ),
    // A turn that is cut short; a holder that was idle; turns that end with their jobs.
    (
        IDLE_TDMA,
        "event,sa,0\nevent,sb,0",
        4,
        "task a jobs 1 done 1 worst 4\ntask b jobs 1 done 1 worst 3\nsummary jobs 2 done 2 end 4\n",
        &[],
    ),
    (
        IDLE_TDMA,
        "event,sa,0\nevent,sb,0\nevent,sa,20\nevent,sb,20",
        24,
        "task a jobs 2 done 2 worst 4\ntask b jobs 2 done 2 worst 3\nsummary jobs 4 done 4 end 24\n",
        &[],
    ),
    (
        IDLE_TDMA,
        "event,sa,0\nevent,sa,0\nevent,sb,0\nexec,a,2\nexec,a,1",
        4,
        "task a jobs 2 done 2 worst 4\ntask b jobs 1 done 1 worst 3\nsummary jobs 3 done 3 end 4\n",
        &[],
    ),
    // A job over two slots; a run that begins in the gap; an event that comes late.
    (
        TDMA_GAP,
        "event,s,2\nexec,t,3\nphase,ring,0",
        21,
        "task t jobs 1 done 1 worst 19\nsummary jobs 1 done 1 end 21\n",
        &[],
    ),
    (
        TDMA_GAP,
        "event,s,0\nphase,ring,5",
        16,
        "task t jobs 1 done 1 worst 16\nsummary jobs 1 done 1 end 16\n",
        &[],
    ),
    (
        TDMA_GAP,
        "event,s,0\nevent,s,10000000",
        10_000_011,
        "task t jobs 2 done 2 worst 11\nsummary jobs 2 done 2 end 10000011\n",
        &[],
    ),
    // Nothing.
    (EMPTY, "", 0, "summary jobs 0 done 0 end 0\n", &[]),
    // Each event of two sources starts a job, and each passage follows what its job started.
    (
        TWO_ACTIVATORS,
        "event,sa,0\nevent,sb,0\n",
        8,
        "task m jobs 2 done 2 worst 6\ntask n jobs 2 done 2 worst 2\npath p passages 2 worst 8\nsummary jobs 4 done 4 end 8\n",
        &[],
    ),
    // Jobs that come at one time: first those that tasks start, in the order of the tasks, then that of the source.
    (
        AT_ONCE,
        "event,s,0\nevent,u,3\nexec,c,1\nexec,c,2\nexec,c,9\n",
        15,
        "task a jobs 1 done 1 worst 3\ntask b jobs 1 done 1 worst 3\ntask c jobs 3 done 3 worst 12\npath pa passages 1 worst 4\npath pb passages 1 worst 6\nsummary jobs 5 done 5 end 15\n",
        &[],
    ),
    // The events of two sources in turn: the second job of `a` starts the third of `c`.
    (
        TURNS,
        "event,sa,0\nevent,sa,10\nevent,sa,20\nevent,sb,5\nevent,sb,15\nexec,a,1\nexec,a,2\nexec,a,1\nexec,b,4\nexec,b,3\nexec,c,1\nexec,c,3\nexec,c,2\nexec,c,3\nexec,d,1\nexec,d,2\n",
        26,
        "task a jobs 3 done 3 worst 2\ntask b jobs 2 done 2 worst 4\ntask c jobs 5 done 5 worst 3\ntask d jobs 5 done 5 worst 2\npath pa passages 3 worst 6\npath pb passages 2 worst 9\nsummary jobs 15 done 15 end 26\n",
        &[],
    ),
    // Jobs of 32 tasks that end at one time.
    (
        FAN,
        "event,s,7\nexec,u,1\nexec,u,2\nexec,u,3\nexec,u,4\nexec,u,5\nexec,u,6\nexec,u,7\nexec,u,8\nexec,u,9\nexec,u,10\nexec,u,11\nexec,u,12\nexec,u,13\nexec,u,14\nexec,u,15\nexec,u,16\nexec,u,17\nexec,u,18\nexec,u,19\nexec,u,20\nexec,u,21\nexec,u,22\nexec,u,23\nexec,u,24\nexec,u,25\nexec,u,26\nexec,u,27\nexec,u,28\nexec,u,29\nexec,u,30\nexec,u,31\nexec,u,32\n",
        537,
        "task t0 jobs 1 done 1 worst 2\ntask t1 jobs 1 done 1 worst 2\ntask t2 jobs 1 done 1 worst 2\ntask t3 jobs 1 done 1 worst 2\ntask t4 jobs 1 done 1 worst 2\ntask t5 jobs 1 done 1 worst 2\ntask t6 jobs 1 done 1 worst 2\ntask t7 jobs 1 done 1 worst 2\ntask t8 jobs 1 done 1 worst 2\ntask t9 jobs 1 done 1 worst 2\ntask t10 jobs 1 done 1 worst 2\ntask t11 jobs 1 done 1 worst 2\ntask t12 jobs 1 done 1 worst 2\ntask t13 jobs 1 done 1 worst 2\ntask t14 jobs 1 done 1 worst 2\ntask t15 jobs 1 done 1 worst 2\ntask t16 jobs 1 done 1 worst 2\ntask t17 jobs 1 done 1 worst 2\ntask t18 jobs 1 done 1 worst 2\ntask t19 jobs 1 done 1 worst 2\ntask t20 jobs 1 done 1 worst 2\ntask t21 jobs 1 done 1 worst 2\ntask t22 jobs 1 done 1 worst 2\ntask t23 jobs 1 done 1 worst 2\ntask t24 jobs 1 done 1 worst 2\ntask t25 jobs 1 done 1 worst 2\ntask t26 jobs 1 done 1 worst 2\ntask t27 jobs 1 done 1 worst 2\ntask t28 jobs 1 done 1 worst 2\ntask t29 jobs 1 done 1 worst 2\ntask t30 jobs 1 done 1 worst 2\ntask t31 jobs 1 done 1 worst 2\ntask u jobs 32 done 32 worst 528\npath first passages 1 worst 3\npath second passages 1 worst 5\npath last passages 1 worst 530\nsummary jobs 64 done 64 end 537\n",
        &[],
    ),
    // A job that ends with the run.
    (
        TDMA_GAP,
        "event,s,2",
        21,
        "task t jobs 1 done 1 worst 19\nsummary jobs 1 done 1 end 21\n",
        &[(0, &[(FIRST, 0, Some(21))])],
    ),
    // What started each job of a task, and when it ended.
    (
        TWO_ACTIVATORS,
        "event,sb,0\nevent,sa,0\nevent,sa,10",
        15,
        "task m jobs 3 done 3 worst 6\ntask n jobs 3 done 3 worst 2\npath p passages 3 worst 8\nsummary jobs 6 done 6 end 15\n",
        &[
            (
                0,
                &[
                    (FIRST, 0, Some(3)),
                    (SECOND, 0, Some(6)),
                    (FIRST, 1, Some(13)),
                ],
            ),
            (
                1,
                &[
                    (AFTER_FIRST, 0, Some(5)),
                    (AFTER_FIRST, 1, Some(8)),
                    (AFTER_FIRST, 2, Some(15)),
                ],
            ),
        ],
    ),
    (
        AT_ONCE,
        "event,s,0\nevent,u,3",
        30,
        "task a jobs 1 done 1 worst 3\ntask b jobs 1 done 1 worst 3\ntask c jobs 3 done 3 worst 27\npath pa passages 1 worst 12\npath pb passages 1 worst 21\nsummary jobs 5 done 5 end 30\n",
        &[(
            2,
            &[
                (AFTER_FIRST, 0, Some(12)),
                (AFTER_SECOND, 0, Some(21)),
                (SECOND, 0, Some(30)),
            ],
        )],
    ),
    (
        TURNS,
        "event,sb,5\nevent,sa,0\nevent,sa,10",
        19,
        "task a jobs 2 done 2 worst 4\ntask b jobs 1 done 1 worst 4\ntask c jobs 3 done 3 worst 3\ntask d jobs 3 done 3 worst 2\npath pa passages 2 worst 9\npath pb passages 1 worst 9\nsummary jobs 9 done 9 end 19\n",
        &[(
            2,
            &[
                (AFTER_FIRST, 0, Some(7)),
                (AFTER_SECOND, 0, Some(12)),
                (AFTER_FIRST, 1, Some(17)),
            ],
        )],
    ),
];

/// Whether what is seen of a run has these jobs of a task, and no others.
fn has_jobs(system: &System, outcome: &Outcome, jobs: &Jobs) -> bool
    requires { IsOutcome system.now outcome.now }
{
    let (task, jobs) = *jobs;
    if task >= system.tasks() || outcome.count(TaskId(task)) != jobs.len() as u64 {
        return false;
    }
    let mut right = true;
    for k in 0..outcome.count(TaskId(task)) {
        let job = outcome.job(TaskId(task), k);
        right &= jobs.get(k as usize).copied() == Some((job.cause.by, job.cause.number, job.end));
    }
    right
}

/// Whether a run ends so, and its text and its jobs are these.
fn is_seen(alloc: Global, run: &Run) -> Result<bool, Fail> {
    let system = read_system(alloc, run.0.as_bytes())?;
    let trace = read_trace(alloc, &system, run.1.as_bytes())?;
    let outcome = replay(alloc, &system, &trace)?;
    let mut right = outcome.end() == run.2;
    for jobs in run.4 {
        right &= has_jobs(&system, &outcome, jobs);
    }
    Ok(right && sim_text(alloc, &system, &outcome)?.as_slice() == run.3.as_bytes())
}

#[test]
fn replays(rt: HostRuntime) -> Result<(), Fail> {
    let alloc = rt.alloc();
    let mut wrong = None;
    for run in &RUNS {
        if !is_seen(alloc, run)? {
            wrong = Some(run.3);
        }
    }
    assert!(rt; wrong.is_none(), "{wrong:?}");
    Ok(())
}

//! The work of the commands.

ghost use Rattle.std.specs.Prelude.{◌≡◌, ◌<◌, length, IfOk};
ghost use Rattle.cpa_words.specs.Words.{AreTraces, AreWorkers, IsSize};
ghost use Rattle.cpa_assign.specs.Orders.{IsOrderable};
ghost use Rattle.cpa_gen.specs.MadeSystems.{made_system};
ghost use Rattle.cpa_sim.specs.Outcome.{CanReplay, outcome_of};
ghost use Rattle.cpa_sim.specs.SimText.{sim_text};
ghost use Rattle.cpa_call.specs.Answers.{reply, IsOfOutput};
ghost use Rattle.cpa_call.specs.Calls.{MeetsAnswer, sent};
ghost use Rattle.cpa_run.specs.Answers.{IsReport};
ghost use Rattle.cpa_run.specs.Request.{IsAssigned, IsBuffered, IsDone, IsFileOf, IsGrowth, IsHammered, IsSummary, IsWithinLimits, audited, finding_status, order_status, slack_status, workers_of};

use crate::request::Request;
use crate::session::run_session;
use cpa_assign::{Order, assign_text};
use cpa_audit::{Finding, Schedule, audit_text};
use cpa_buffer::{buffer_text, find_peaks};
use cpa_call::calls::send_reply;
use cpa_call::errors::{OutputError, Reply};
use cpa_call::statuses;
use cpa_file::print_system;
use cpa_fix::{OneByOne, Round, least_bounds};
use cpa_gen::{hammer_text, load_text, make_system};
use cpa_io::Sink;
use cpa_local::Trail;
use cpa_model::System;
use cpa_report::{report_text, verdict};
use cpa_sim::{replay, sim_text};
use cpa_slack::{Slack, find_slack, slack_text};
use cpa_trace::Trace;
use cpa_units::{NoMemory, ResId, TaskId};
use cpa_workers::{Gate, Shared};
use std::alloc::Global;
use std::thread::Threads;

/// The report of a system at its least solution.
fn analyse<H: Sync, R: Round<H>>(
    rt: &H,
    alloc: Global,
    system: &System,
    round: &mut R,
) -> Result<Reply, NoMemory>
    ensures answer { IfOk result (λ r. IsReport system.now (reply r.status r.text.items)) }
    ensures status { IfOk result (λ r. IsOfOutput r.status) }
{
    system.has_rules();
    let bounds = least_bounds(rt, alloc, system, round)?;
    let text = report_text(alloc, system, &bounds)?;
    Ok(Reply {
        status: verdict(system, &bounds),
        text,
    })
}

/// What is observed of a system under a trace.
fn simulate(alloc: Global, system: &System, trace: &Trace) -> Result<Reply, NoMemory>
    requires { CanReplay system.now trace.now }
    ensures answer { IfOk result (λ r. reply r.status r.text.items ≡ reply 0 (sim_text system.now (outcome_of system.now trace.now))) }
    ensures status { IfOk result (λ r. IsOfOutput r.status) }
{
    let outcome = replay(alloc, system, trace)?;
    let text = sim_text(alloc, system, &outcome)?;
    Ok(Reply { status: 0, text })
}

/// The file of a generated system.
fn generate(alloc: Global, number: u64, size: u32) -> Result<Reply, NoMemory>
    requires { IsSize size }
    ensures answer { IfOk result (λ r. IsFileOf (made_system number size) (reply r.status r.text.items)) }
    ensures status { IfOk result (λ r. IsOfOutput r.status) }
{
    let system = make_system(alloc, number, size)?;
    let text = print_system(alloc, &system)?;
    Ok(Reply { status: 0, text })
}

/// The summary of a generated system's analysis.
fn load<H: Sync, R: Round<H>>(
    rt: &H,
    alloc: Global,
    number: u64,
    size: u32,
    round: &mut R,
) -> Result<Reply, NoMemory>
    requires { IsSize size }
    ensures answer { IfOk result (λ r. IsSummary number size (made_system number size) (reply r.status r.text.items)) }
    ensures status { IfOk result (λ r. IsOfOutput r.status) }
{
    let system = make_system(alloc, number, size)?;
    let bounds = least_bounds(rt, alloc, &system, round)?;
    let text = load_text(alloc, number, size, &system, &bounds)?;
    Ok(Reply {
        status: verdict(&system, &bounds),
        text,
    })
}

/// What is observed of a system under generated traces.
fn hammer<H: Threads + Sync>(
    rt: &H,
    alloc: Global,
    system: &System,
    number: u64,
    traces: u64,
) -> Result<Reply, NoMemory>
    requires { AreTraces traces }
    ensures answer { IfOk result (λ r. IsHammered system.now number traces (reply r.status r.text.items)) }
    ensures status { IfOk result (λ r. IsOfOutput r.status) }
{
    system.has_rules();
    let bounds = least_bounds(&(), alloc, system, &mut OneByOne)?;
    let seen = cpa_gen::hammer(rt, alloc, system, &bounds, number, traces)?;
    let text = hammer_text(alloc, system, &bounds, &seen)?;
    Ok(Reply { status: 0, text })
}

/// The same, where all runs are on the calling thread.
fn hammer_one_by_one(
    alloc: Global,
    system: &System,
    number: u64,
    traces: u64,
) -> Result<Reply, NoMemory>
    requires { AreTraces traces }
    ensures answer { IfOk result (λ r. IsHammered system.now number traces (reply r.status r.text.items)) }
    ensures status { IfOk result (λ r. IsOfOutput r.status) }
{
    system.has_rules();
    let bounds = least_bounds(&(), alloc, system, &mut OneByOne)?;
    let seen = cpa_gen::hammer_one_by_one(alloc, system, &bounds, number, traces)?;
    let text = hammer_text(alloc, system, &bounds, &seen)?;
    Ok(Reply { status: 0, text })
}

/// Whether an order meets, as a status.
fn order_status(order: &Option<Order>) -> u8
    ensures { result ≡ order_status order.now }
{
    match order {
        Some(_) => 0,
        None => statuses::NONE_MEETS,
    }
}

/// Whether there is room, as a status.
fn slack_status(slack: &Slack) -> u8
    ensures { result ≡ slack_status slack.now }
{
    match slack {
        Slack::Add { ticks: _, limit: _ } => 0,
        Slack::Missed => statuses::NONE_MEETS,
    }
}

/// The best priority order of a resource, or that no order meets.
fn assign(alloc: Global, system: &System, res: ResId) -> Result<Reply, NoMemory>
    requires { IsOrderable system.now res.0 }
    ensures answer { IfOk result (λ r. IsAssigned system.now res.0 (reply r.status r.text.items)) }
    ensures status { IfOk result (λ r. IsOfOutput r.status) }
{
    system.has_rules();
    let order = cpa_assign::assign(alloc, system, res)?;
    let text = assign_text(alloc, system, res, &order)?;
    Ok(Reply {
        status: order_status(&order),
        text,
    })
}

/// By how much a task may grow.
fn slack<H: Sync, R: Round<H>>(
    rt: &H,
    alloc: Global,
    system: &System,
    task: TaskId,
    round: &mut R,
) -> Result<Reply, NoMemory>
    requires { task.0 < length system.now.tasks }
    ensures answer { IfOk result (λ r. IsGrowth system.now task.0 (reply r.status r.text.items)) }
    ensures status { IfOk result (λ r. IsOfOutput r.status) }
{
    system.has_rules();
    let mut trail = Trail::with_room(alloc, system.tasks())?;
    let slack = find_slack(rt, alloc, system, task, round, &mut trail)?;
    let text = slack_text(alloc, system, task, &slack)?;
    Ok(Reply {
        status: slack_status(&slack),
        text,
    })
}

/// How many jobs wait under a trace, and how many can.
fn buffers<H: Sync, R: Round<H>>(
    rt: &H,
    alloc: Global,
    system: &System,
    trace: &Trace,
    round: &mut R,
) -> Result<Reply, NoMemory>
    requires { CanReplay system.now trace.now }
    ensures answer { IfOk result (λ r. IsBuffered system.now trace.now (reply r.status r.text.items)) }
    ensures status { IfOk result (λ r. IsOfOutput r.status) }
{
    system.has_rules();
    let bounds = least_bounds(rt, alloc, system, round)?;
    let outcome = replay(alloc, system, trace)?;
    let peaks = find_peaks(alloc, system, &outcome)?;
    let text = buffer_text(alloc, system, &bounds, &peaks)?;
    Ok(Reply { status: 0, text })
}

/// Whether a schedule is that of the run, as a status.
fn finding_status(finding: &Finding) -> u8
    ensures { result ≡ finding_status finding.now }
{
    match finding {
        Finding::Same => 0,
        Finding::Wrong {
            segment: _,
            expected: _,
        } => statuses::OTHER_SCHEDULE,
    }
}

/// What there is to say of a schedule.
fn audit(
    alloc: Global,
    system: &System,
    trace: &Trace,
    schedule: &Schedule,
) -> Result<Reply, NoMemory>
    requires { CanReplay system.now trace.now }
    ensures answer { IfOk result (λ r. reply r.status r.text.items ≡ audited system.now trace.now schedule.now) }
    ensures status { IfOk result (λ r. IsOfOutput r.status) }
{
    let finding = cpa_audit::audit(alloc, system, trace, schedule)?;
    let text = audit_text(alloc, system, schedule, &finding)?;
    Ok(Reply {
        status: finding_status(&finding),
        text,
    })
}

/// By how many workers the work is done, 1 where it doesn't say.
fn workers_of(work: &Request) -> u32
    requires { IsWithinLimits work.now }
    ensures value { result ≡ workers_of work.now }
    ensures within { AreWorkers result }
{
    match work {
        Request::Analyse { workers, .. } => *workers,
        Request::Session { workers, .. } => *workers,
        Request::Load { workers, .. } => *workers,
        Request::Slack { workers, .. } => *workers,
        Request::Buffers { workers, .. } => *workers,
        _ => 1,
    }
}

/// Does the work by rounds of this kind, all runs under generated traces on the calling thread, and sends the result.
pub fn perform_by<H: Sync, R: Round<H>, K: Sink>(
    rt: &H,
    alloc: Global,
    work: Request,
    round: &mut R,
    sink: &mut K,
) -> Result<u8, OutputError>
    requires { IsWithinLimits work }
    ensures { MeetsAnswer (IsDone work) (sent (K.sent sink.old) (K.sent sink.new) (K.faults sink.old) (K.faults sink.new)) result }
{
    match work {
        Request::Analyse { system, .. } => { send_reply(sink, analyse(rt, alloc, &system, round)) }
        Request::Session { system, script, .. } => {
            run_session(rt, alloc, system, &script, round, sink)
        }
        Request::Simulate { system, trace } => send_reply(sink, simulate(alloc, &system, &trace)),
        Request::Generate { number, size } => send_reply(sink, generate(alloc, number, size)),
        Request::Load { number, size, .. } => {
            send_reply(sink, load(rt, alloc, number, size, round))
        }
        Request::Hammer {
            system,
            number,
            traces,
        } => send_reply(sink, hammer_one_by_one(alloc, &system, number, traces)),
        Request::Assign { system, res } => send_reply(sink, assign(alloc, &system, res)),
        Request::Slack { system, task, .. } => {
            send_reply(sink, slack(rt, alloc, &system, task, round))
        }
        Request::Buffers { system, trace, .. } => {
            send_reply(sink, buffers(rt, alloc, &system, &trace, round))
        }
        Request::Audit {
            system,
            trace,
            schedule,
        } => send_reply(sink, audit(alloc, &system, &trace, &schedule)),
    }
}

/// Does the work, and sends the result. Workers pass the gate before each analysis, and runs under generated traces are
/// on several threads.
pub fn perform<H: Threads + Sync, K: Sink, G: Gate>(
    rt: &H,
    alloc: Global,
    work: Request,
    sink: &mut K,
    gate: G,
) -> Result<u8, OutputError>
where
    Shared<G>: Round<H>,
    requires { IsWithinLimits work }
    ensures { MeetsAnswer (IsDone work) (sent (K.sent sink.old) (K.sent sink.new) (K.faults sink.old) (K.faults sink.new)) result }
{
    match work {
        Request::Hammer {
            system,
            number,
            traces,
        } => send_reply(sink, hammer(rt, alloc, &system, number, traces)),
        other => {
            let mut round = Shared::new(workers_of(&other), gate);
            perform_by(rt, alloc, other, &mut round, sink)
        }
    }
}

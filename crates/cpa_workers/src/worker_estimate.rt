//! How many workers pay in a round.

ghost use Rattle.std.specs.Prelude.{ℕ, ◌≡◌, ◌<◌, ◌≤◌, length, IfOk};
ghost use Rattle.cpa_model.specs.Rules.{IsActivator};

use cpa_model::{Activator, System};
use cpa_units::{NoMemory, ResId, ResSet, TaskId};
use std::alloc::Global;

/// How many looks at a task are worth a worker more: found by timing searches with one worker and with two. How long they
/// take depends on the machine too, and is bounded nowhere.
const LOOKS: u64 = 12_000;

/// The ticks in which starts and work are counted.
const SPAN: u64 = 1 << 32;

/// How often one goes over the tasks for their rates, where some stand before those that activate them.
const PASSES: u32 = 8;

/// How often jobs start by an activator within the span, by the rates of tasks so far.
fn rate_by(system: &System, rates: &[u64], after: Activator) -> u64
    requires activator { IsActivator system.now after }
    requires rates { length rates.now ≡ length system.now.tasks }
{
    match after {
        Activator::Source(source) => SPAN / system.source(source).period,
        Activator::Task(task) => rates[task.0 as usize],
    }
}

/// How often jobs of a task start within the span, by the rates of tasks so far.
fn rate(system: &System, rates: &[u64], task: TaskId) -> u64
    requires there { task.0 < length system.now.tasks }
    requires rates { length rates.now ≡ length system.now.tasks }
{
    let mut rate: u64 = 0;
    for after in system.task(task).after.as_slice() {
        rate = rate.saturating_add(rate_by(system, rates, *after));
    }
    rate
}

/// Goes over the rates of all tasks once. Answers whether one has changed.
fn raise_rates(system: &System, rates: &mut [u64]) -> bool
    requires { length rates.old ≡ length system.now.tasks }
    ensures { length rates.new ≡ length system.now.tasks }
{
    let mut changed = false;
    for k in 0..system.tasks() {
        let rate = rate(system, rates, TaskId(k));
        changed = changed || rate != rates[k as usize];
        rates[k as usize] = rate;
    }
    changed
}

/// How often jobs of each task start within the span: by the periods of their sources, whatever jitter brings.
fn rates(alloc: Global, system: &System) -> Result<Vec<u64>, NoMemory>
    ensures { IfOk result (λ rates. length rates.items ≡ length system.now.tasks) }
{
    let mut rates = vec![in alloc; 0u64; system.tasks() as usize]?;
    for _ in 0..PASSES {
        if !raise_rates(system, rates.as_mut_slice()) {
            break;
        }
    }
    Ok(rates)
}

/// How often an analysis of a resource looks at a task, by a guess. Each window that it tries looks at all tasks of the
/// resource, and for each of them it tries the more windows, the longer busy windows are. They end where the tasks catch up
/// with what has come, in the time that their rates leave: the less that is, the later, and at the limit at last.
fn looks(system: &System, rates: &[u64], res: ResId) -> u64
    requires there { res.0 < length system.now.resources }
    requires rates { length rates.now ≡ length system.now.tasks }
{
    let tasks = system.tasks_on(res);
    let mut once: u64 = 0;
    let mut asked: u64 = 0;
    for task in tasks {
        let worst = system.task(*task).worst;
        once = once.saturating_add(worst);
        asked = asked.saturating_add(worst.saturating_mul(rates[task.0 as usize]));
    }
    let left = SPAN.saturating_sub(asked).max(1);
    let windows = (SPAN / left).min(1 + system.resource(res).limit / once.max(1));
    let tasks = tasks.len() as u64;
    windows.saturating_mul(tasks.saturating_mul(tasks))
}

/// How often the analysis of each resource looks at a task.
fn all_looks(alloc: Global, system: &System) -> Result<Vec<u64>, NoMemory> {
    let rates = rates(alloc, system)?;
    let mut all = Vec::new(alloc);
    for place in 0..system.resources() {
        all.push(looks(system, rates.as_slice(), ResId(place)))?;
    }
    Ok(all)
}

/// How many workers pay in a round of analyses that look at tasks so often, one for each resource.
fn paying(looks: &[u64], dirty: ResSet) -> u32
    ensures some { 1 ≤ result }
    ensures most { result ≤ 64 }
{
    let mut all: u64 = 0;
    for place in 0..looks.len().min(128) {
        if dirty.has(ResId(place as u32)) {
            all = all.saturating_add(looks[place]);
        }
    }
    (all / LOOKS).clamp(1, 64) as u32
}

/// What is known of how long analyses take, so that no more workers start than pay. It is a guess, on which no bound
/// depends.
#[derive(Drop)]
pub struct WorkerEstimate {
    /// How often the analysis of each resource looks at a task, where that was asked for.
    looks: Option<Vec<u64>>,
    /// How many resources the round before was over.
    before: u32,
}

impl WorkerEstimate {
    /// Nothing is known yet.
    pub fn unknown() -> WorkerEstimate {
        WorkerEstimate {
            looks: None,
            before: 0,
        }
    }

    /// How many workers pay in a round of analyses of these resources, which are so many. The rates are worked out again where
    /// there are more of them than in the round before, as there are when a search begins.
    pub fn paying(
        &mut self,
        alloc: Global,
        system: &System,
        dirty: ResSet,
        many: u32,
    ) -> Result<u32, NoMemory>
        ensures { IfOk result (λ workers. (1 ≤ workers) × (workers ≤ 64)) }
    {
        let looks = match self.looks.take() {
            Some(looks) if many <= self.before => looks,
            _ => all_looks(alloc, system)?,
        };
        let workers = paying(looks.as_slice(), dirty);
        self.looks = Some(looks);
        self.before = many;
        Ok(workers)
    }
}

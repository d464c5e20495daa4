//! Generated systems.

ghost use Rattle.std.specs.Prelude.{◌≡◌, ◌<◌, ◌≤◌, ◌+◌, ◌*◌, ◌/◌, ◌%◌, true, codes, All, IfOk, length, map};
ghost use Rattle.std.specs.List.{list_all, range_with_len};
ghost use Rattle.cpa_units.specs.declared.limits.TheConstants.{MAX_EXECUTION, MAX_PAYLOAD, MAX_NUMBER, MAX_SIZE};
ghost use Rattle.cpa_units.specs.Name.{is_name_byte};
ghost use Rattle.cpa_gen.specs.Chains.{IsChain, chain_at};
ghost use Rattle.cpa_gen.specs.MadeSystems.{buses, chain_of, first_task, frame_task, last_task, made_path, made_resource, made_source, made_system, numbered, processors, task_made, task_of_chain};

use crate::chains::{Chain, draw_chains, processors};
use cpa_model::{
    Activator, Activators, Kind, Locks, Path, Resource, Source, System, Task, TaskList, Turn,
};
use cpa_text::Text;
use cpa_units::limits::{DEFAULT_LIMIT, Size};
use cpa_units::{Name, NameFault, NoMemory, ResId, SourceId, TaskId, frame_bits};
use std::alloc::Global;

/// The bit time of the buses, in ticks.
const BIT: u64 = 2;

/// How many buses a system of a size has.
fn buses(size: u32) -> u64
    requires { size ≤ MAX_SIZE }
    ensures { result ≡ buses size }
{
    (u64::from(size) + 7) / 8
}

/// A letter, a number and an ending.
fn name(alloc: Global, letter: &[u8], number: u64, ending: &[u8]) -> Result<Name, NoMemory>
    requires letter { list_all is_name_byte letter.now ≡ true }
    requires ending { list_all is_name_byte ending.now ≡ true }
    requires short { length letter.now + length ending.now ≤ 2 }
    requires number { number ≤ MAX_SIZE }
    ensures { IfOk result (λ n. n ≡ numbered letter.now number ending.now) }
{
    let mut text = Text::new(alloc);
    text.put(letter)?;
    text.put_number(number)?;
    text.put(ending)?;
    match Name::read(alloc, text.into_bytes().as_slice()) {
        Ok(name) => Ok(name),
        Err(NameFault::Memory) => Err(NoMemory),
        Err(NameFault::Form) => unreachable!(),
    }
}

fn make_resource(alloc: Global, size: u32, place: u64) -> Result<Resource, NoMemory>
    requires size { size ≤ MAX_SIZE }
    requires place { place < processors size + buses size }
    ensures { IfOk result (λ r. r ≡ made_resource size place) }
{
    if place < processors(size) {
        Ok(Resource {
            name: name(alloc, b"p", place, b"")?,
            kind: Kind::Preemptive,
            limit: DEFAULT_LIMIT,
        })
    } else {
        Ok(Resource {
            name: name(alloc, b"b", place - processors(size), b"")?,
            kind: Kind::Can { bit: BIT },
            limit: DEFAULT_LIMIT,
        })
    }
}

fn make_resources(alloc: Global, size: u32) -> Result<Vec<Resource>, NoMemory>
    requires { size ≤ MAX_SIZE }
    ensures { IfOk result (λ v. v.items ≡ map (made_resource size) (range_with_len 0 (processors size + buses size))) }
{
    let mut resources = Vec::new(alloc);
    for place in 0..processors(size) + buses(size) {
        resources.push(make_resource(alloc, size, place)?)?;
    }
    Ok(resources)
}

fn make_source(alloc: Global, k: u64, chain: Chain) -> Result<Source, NoMemory>
    requires { k < MAX_SIZE }
    ensures { IfOk result (λ s. s ≡ made_source k chain) }
{
    Ok(Source {
        name: name(alloc, b"s", k, b"")?,
        period: chain.period,
        jitter: chain.jitter,
        distance: 0,
        sporadic: false,
        on_clock: None,
    })
}

/// The first task of chain `k`, on a processor.
fn first_task(alloc: Global, size: u32, k: u64, chain: Chain) -> Result<Task, NoMemory>
    requires size { size ≤ MAX_SIZE }
    requires place { k < size }
    ensures { IfOk result (λ t. t ≡ first_task size k chain) }
{
    Ok(Task {
        name: name(alloc, b"t", k, b"a")?,
        res: ResId((k % processors(size)) as u32),
        after: Activators::one(Activator::Source(SourceId(k as u32))),
        best: chain.first / 2,
        worst: chain.first,
        turn: Turn::Priority(2 * k as u32),
        region: 1,
        locks: Locks::none(),
    })
}

/// Its frame, on a bus.
fn frame_task(alloc: Global, size: u32, k: u64, chain: Chain) -> Result<Task, NoMemory>
    requires size { size ≤ MAX_SIZE }
    requires place { k < size }
    requires payload { chain.payload ≤ MAX_PAYLOAD }
    ensures { IfOk result (λ t. t ≡ frame_task size k chain) }
{
    let (least, greatest) = frame_bits(chain.payload, false);
    Ok(Task {
        name: name(alloc, b"t", k, b"f")?,
        res: ResId((processors(size) + k % buses(size)) as u32),
        after: Activators::one(Activator::Task(TaskId(3 * k as u32))),
        best: least * BIT,
        worst: greatest * BIT,
        turn: Turn::Priority(k as u32),
        region: 1,
        locks: Locks::none(),
    })
}

/// Its last task, on a processor.
fn last_task(alloc: Global, k: u64, chain: Chain) -> Result<Task, NoMemory>
    requires place { k < MAX_SIZE }
    requires processor { chain.processor < MAX_SIZE }
    ensures { IfOk result (λ t. t ≡ last_task k chain) }
{
    Ok(Task {
        name: name(alloc, b"t", k, b"b")?,
        res: ResId(chain.processor as u32),
        after: Activators::one(Activator::Task(TaskId(3 * k as u32 + 1))),
        best: chain.last / 2,
        worst: chain.last,
        turn: Turn::Priority(2 * k as u32 + 1),
        region: 1,
        locks: Locks::none(),
    })
}

fn make_task(alloc: Global, size: u32, place: u64, chain: Chain) -> Result<Task, NoMemory>
    requires size { size ≤ MAX_SIZE }
    requires place { place < 3 * size }
    requires payload { chain.payload ≤ MAX_PAYLOAD }
    requires processor { chain.processor < MAX_SIZE }
    ensures { IfOk result (λ t. t ≡ task_of_chain (place % 3) size (place / 3) chain) }
{
    match place % 3 {
        0 => first_task(alloc, size, place / 3, chain),
        1 => frame_task(alloc, size, place / 3, chain),
        _ => last_task(alloc, place / 3, chain),
    }
}

fn make_path(alloc: Global, k: u64, chain: Chain) -> Result<Path, NoMemory>
    requires { k < MAX_SIZE }
    ensures { IfOk result (λ p. p ≡ made_path k chain) }
{
    let first = 3 * k as u32;
    let tasks = vec![in alloc; TaskId(first), TaskId(first + 1), TaskId(first + 2)]?;
    Ok(Path {
        name: name(alloc, b"c", k, b"")?,
        tasks: TaskList::new(tasks),
        deadline: Some(chain.period),
    })
}

fn make_sources(alloc: Global, chains: &[Chain]) -> Result<Vec<Source>, NoMemory>
    requires { length chains.now ≤ MAX_SIZE }
    ensures { IfOk result (λ v. v.items ≡ map (λ k. made_source k (chain_at chains.now k)) (range_with_len 0 (length chains.now))) }
{
    let mut sources = Vec::new(alloc);
    for k in 0..chains.len() {
        sources.push(make_source(alloc, k as u64, chains[k])?)?;
    }
    Ok(sources)
}

fn make_tasks(alloc: Global, chains: &[Chain]) -> Result<Vec<Task>, NoMemory>
    requires few { length chains.now ≤ MAX_SIZE }
    requires chains { All IsChain chains.now }
    ensures { IfOk result (λ v. v.items ≡ map (λ i. task_of_chain (i % 3) (length chains.now) (i / 3) (chain_at chains.now (i / 3))) (range_with_len 0 (3 * length chains.now))) }
{
    let size = chains.len() as u32;
    let mut tasks = Vec::new(alloc);
    for place in 0..3 * chains.len() {
        tasks.push(make_task(alloc, size, place as u64, chains[place / 3])?)?;
    }
    Ok(tasks)
}

fn make_paths(alloc: Global, chains: &[Chain]) -> Result<Vec<Path>, NoMemory>
    requires { length chains.now ≤ MAX_SIZE }
    ensures { IfOk result (λ v. v.items ≡ map (λ k. made_path k (chain_at chains.now k)) (range_with_len 0 (length chains.now))) }
{
    let mut paths = Vec::new(alloc);
    for k in 0..chains.len() {
        paths.push(make_path(alloc, k as u64, chains[k])?)?;
    }
    Ok(paths)
}

/// The system that is generated from a seed and a size of at most 128: so many chains of a task on a processor, a frame on
/// a bus and a task on a processor, each from a source of its own, with a quarter as many processors and an eighth as many
/// CAN buses, rounded up. Periods, jitters, executions, payloads and the last processors are drawn by PCG32 (O'Neill 2014);
/// times are in ticks. The only error is out of memory.
pub fn make_system(alloc: Global, number: u64, size: u32) -> Result<System, NoMemory>
    requires { size ≤ MAX_SIZE }
    ensures { IfOk result (λ s. s ≡ made_system number size) }
{
    let drawn = draw_chains(alloc, number, size)?;
    let chains = drawn.as_slice();
    let resources = make_resources(alloc, size)?;
    let sources = make_sources(alloc, chains)?;
    let tasks = make_tasks(alloc, chains)?;
    let paths = make_paths(alloc, chains)?;
    System::of_lists(alloc, Size::Small, resources, sources, tasks, paths)
}

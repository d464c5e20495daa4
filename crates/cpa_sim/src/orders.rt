//! The tasks of each resource by urgency, and where they stand there.

ghost use Rattle.std.specs.Prelude.{◌≡◌, ◌<◌, ℕ, length, map, slice_index, IfOk};
ghost use Rattle.cpa_model.specs.SystemLists.{places_of};
ghost use Rattle.cpa_sim.specs.Orders.{AreOrders, ArePlaces, IsPlace};

use cpa_model::System;
use cpa_sched::by_urgency;
use cpa_units::{NoMemory, ResId, TaskId};
use std::alloc::Global;

/// The tasks of each resource by urgency.
pub(crate) fn find_orders(alloc: Global, system: &System) -> Result<Vec<Vec<TaskId>>, NoMemory>
    ensures { IfOk result (λ v. AreOrders system.now (map (λ w. w.items) v.items)) }
{
    let mut orders = Vec::new(alloc);
    for k in 0..system.resources() {
        let order = by_urgency(alloc, system, ResId(k))?;
        orders.push(order)?;
    }
    Ok(orders)
}

/// Where a task stands in a list first; at its end, where it doesn't stand there.
fn place_in(order: &[TaskId], task: TaskId) -> usize
    ensures { (p : ℕ) → p < length (places_of order.now) → slice_index (places_of order.now) p ≡ task.0 → IsPlace (places_of order.now) result p }
{
    for k in 0..order.len() {
        if order[k].0 == task.0 {
            return k;
        }
    }
    order.len()
}

/// Where each task stands in the list of its resource.
pub(crate) fn find_places(
    alloc: Global,
    system: &System,
    orders: &Vec<Vec<TaskId>>,
) -> Result<Vec<usize>, NoMemory>
    requires { AreOrders system.now (map (λ v. v.items) orders.now.items) }
    ensures { IfOk result (λ v. ArePlaces system.now (map (λ w. w.items) orders.now.items) v.items) }
{
    system.has_rules();
    let mut places = Vec::new(alloc);
    for k in 0..system.tasks() {
        let task = TaskId(k);
        let res = system.task(task).res;
        places.push(place_in(orders[res.0 as usize].as_slice(), task))?;
    }
    Ok(places)
}

/// Where a task stands in the list of its resource, as it was found.
pub(crate) fn place_of(places: &Vec<usize>, task: TaskId) -> usize
    ensures { result ≡ slice_index places.now.items task.0 }
{
    let k = task.0 as usize;
    if k < places.len() { places[k] } else { 0 }
}

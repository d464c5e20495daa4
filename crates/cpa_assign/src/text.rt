//! What is written of an order.

ghost use Rattle.std.specs.Prelude.{◌≡◌, ◌<◌, ◌++◌, length, IfOk, IfSome};
ghost use Rattle.std.specs.Result.{OnOk};
ghost use Rattle.cpa_model.specs.SystemLists.{places_of};
ghost use Rattle.cpa_assign.specs.Orders.{IsOrder};
ghost use Rattle.cpa_assign.specs.OrderText.{priority_line, priority_lines, assigned_line, none_line, assign_text};

use crate::numbers::kth_priority;
use crate::order::Order;
use cpa_model::System;
use cpa_text::Text;
use cpa_units::{NoMemory, ResId, TaskId};
use std::alloc::Global;

#[tactic(auto, unfolding(crate::specs::OrderText::priority_line))]
fn put_priority(text: &mut Text, system: &System, task: TaskId, number: u64) -> Result<(), NoMemory>
    requires { task.0 < length system.now.tasks }
    ensures { OnOk result (text.new ≡ text.old ++ priority_line system.now task.0 number) }
{
    text.put(b"priority ")?;
    text.put(system.task(task).name.bytes())?;
    text.put_count(b" ", number)?;
    text.put(b"\n")
}

/// A line for each task of an order with its new priority, highest first.
fn put_priorities(
    text: &mut Text,
    system: &System,
    res: ResId,
    order: &Order,
) -> Result<(), NoMemory>
    requires { IsOrder system.now res.0 (places_of order.now) }
    ensures { OnOk result (text.new ≡ text.old ++ priority_lines system.now res.0 (places_of order.now)) }
{
    system.has_rules();
    let mut number = 0;
    for k in 0..order.len() {
        number = kth_priority(system, res, k, number);
        put_priority(text, system, order.task(k), number)?;
    }
    Ok(())
}

#[tactic(auto, unfolding(crate::specs::OrderText::assigned_line))]
fn put_assigned(text: &mut Text, system: &System, res: ResId, tasks: u32) -> Result<(), NoMemory>
    requires { res.0 < length system.now.resources }
    ensures { OnOk result (text.new ≡ text.old ++ assigned_line system.now res.0 tasks) }
{
    text.put(b"assigned ")?;
    text.put(system.resource(res).name.bytes())?;
    text.put_count(b" tasks ", u64::from(tasks))?;
    text.put(b"\n")
}

#[tactic(auto, unfolding(crate::specs::OrderText::none_line))]
fn put_none(text: &mut Text, system: &System, res: ResId) -> Result<(), NoMemory>
    requires { res.0 < length system.now.resources }
    ensures { OnOk result (text.new ≡ text.old ++ none_line system.now res.0) }
{
    text.put(b"none ")?;
    text.put(system.resource(res).name.bytes())?;
    text.put(b"\n")
}

/// A line `priority NAME N` for each task of an order, highest first, and `assigned RES tasks K`; or
/// the line `none RES` where there is no order. The order is one of the resource.
pub fn assign_text(
    alloc: Global,
    system: &System,
    res: ResId,
    order: &Option<Order>,
) -> Result<Vec<u8>, NoMemory>
    requires there { res.0 < length system.now.resources }
    requires order { IfSome order.now (λ o. IsOrder system.now res.0 (places_of o)) }
    ensures { IfOk result (λ v. v.items ≡ assign_text system.now res.0 order.now) }
{
    let mut text = Text::new(alloc);
    match order {
        Some(order) => {
            put_priorities(&mut text, system, res, order)?;
            put_assigned(&mut text, system, res, order.len())?;
        }
        None => put_none(&mut text, system, res)?,
    }
    Ok(text.into_bytes())
}

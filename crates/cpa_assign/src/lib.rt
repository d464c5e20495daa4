//! Priority orders of a resource under which its tasks meet their deadlines.
//!
//! The search is Audsley's ("Optimal priority assignment and feasibility of static priority tasks with arbitrary start
//! times", 1991): the lowest place without a task goes to the first task that is in time there, below all others that
//! have no place yet. A bound depends only on which tasks are above, and doesn't rise when one of them moves below, so
//! that an order is found wherever one meets. Times are in ticks.
#![tactic(auto)]

mod able;
mod below;
mod by_clocks;
mod laws;
mod numbers;
mod order;
mod placing;
mod text;

pub use able::{can_compare, is_fed_by_sources};
pub use laws::orders_have_laws;
pub use order::{Order, assign};
pub use text::assign_text;

//! What the search for an order depends on, for crates that depend on this one.

ghost use Rattle.cpa_assign.specs.Laws.{FewerAboveIsNoWorse, OrderKeepsRules, OrdersAreDecided, BestOrderIsOne};

/// A system with an order is a system, and so has a least solution. Where tasks move from above a task to
/// below it, its bound doesn't rise. A resource that can be given an order has exactly one answer: its
/// best order, or that no order meets.
pub fn orders_have_laws()
    ensures rules { OrderKeepsRules }
    ensures fewer { FewerAboveIsNoWorse }
    ensures decided { OrdersAreDecided }
    ensures one { BestOrderIsOne }
{}

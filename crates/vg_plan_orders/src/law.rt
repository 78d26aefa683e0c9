//! The law on the cycles of plans.

ghost use Rattle.vg_plan_orders.specs.Laws.{PlansHaveNoCycle};

/// A law that costs nothing to call: by a list that names lesser units alone for each unit, as that of
/// all dependences does, the nodes of a plan have no cycle, also where load groups feed operands.
pub fn plans_have_no_cycle()
    ensures { PlansHaveNoCycle }
{}

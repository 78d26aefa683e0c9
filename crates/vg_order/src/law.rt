//! Laws on orders and cycles by a list of dependences.

ghost use Rattle.vg_order.specs.Laws.{DependencesGiveOrders, DependencesNameUnits, NumbersAreAnOrder, OneOrderIsScheduled, OrdersHaveNoCycle};

/// A law that costs nothing to call: the nodes of packs have no cycle by a list by which they have an
/// order.
pub fn orders_have_no_cycle()
    ensures { OrdersHaveNoCycle }
{}

/// A law: by the list of all dependences of a kernel, the orders and the cycles of packs are those of
/// the kernel.
pub fn dependences_give_orders()
    ensures { DependencesGiveOrders }
{}

/// A law: the list of all dependences of a kernel names units, and for each unit lesser ones alone.
pub fn dependences_name_units()
    ensures { DependencesNameUnits }
{}

/// A law: where units depend on lesser ones alone, the units in their order are an order of the empty
/// plan.
pub fn numbers_are_an_order()
    ensures { NumbersAreAnOrder }
{}

/// A law: of the orders of packs and units at most one is that in which they are put.
pub fn one_order_is_scheduled()
    ensures { OneOrderIsScheduled }
{}

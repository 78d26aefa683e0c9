//! Laws on byte events.

ghost use Rattle.vg_events.specs.Laws.{EqualCountsPair, EventOrderIsByUnits, OrdersStep, RunsAreEvents, UnitOrderIsByEvents};
ghost use Rattle.vg_events.specs.Traps.{TrapTogether};

/// A run of units that ends without a trap leaves the memory that the steps of its events leave, where
/// each event has the byte that the run read or wrote.
pub fn runs_are_events()
    ensures { RunsAreEvents }
{}

/// Where each label has as many events on both sides, the pairing by rank names each event once, and
/// under its label.
pub fn equal_counts_pair()
    ensures { EqualCountsPair }
{}

/// Events of lines in order leave the memory that the events of the kernel leave in their own order, in
/// each layout that respects noalias.
pub fn orders_step()
    ensures { OrdersStep }
{}

/// Where each label has as many events on both sides, a program and the units of a kernel trap in the same
/// runs.
pub fn trap_together()
    ensures { TrapTogether }
{}

/// Where no two units are out of order, the lines are in order by events.
pub fn unit_order_is_by_events()
    ensures { UnitOrderIsByEvents }
{}

/// Where the lines are in order by events, no two units are out of order.
pub fn event_order_is_by_units()
    ensures { EventOrderIsByUnits }
{}

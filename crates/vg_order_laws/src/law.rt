//! Laws on the orders of units.

ghost use Rattle.vg_order_laws.specs.Laws.{LegalOrdersRun, PlanOrdersRun, RunsAreSteps, RunsTrapOutside, UnitsCommute};

/// Two units whose accesses do not conflict do the same to memory whichever comes first, in each
/// layout that respects noalias, where the numbers of all values are known.
pub fn units_commute()
    ensures { UnitsCommute }
{}

/// Where each node of an order stands after the units on which it depends, the units of the order run
/// as all units do in the order of their numbers.
pub fn legal_orders_run()
    ensures { LegalOrdersRun }
{}

/// The same of a legal order of packs and the units outside them.
pub fn plan_orders_run()
    ensures { PlanOrdersRun }
{}

/// A run that ends without a trap leaves the memory that the steps of its units leave where all
/// numbers are known, and each operation has the number that it makes of those of its operands.
pub fn runs_are_steps()
    ensures { RunsAreSteps }
{}

/// A run traps exactly where a unit reads or writes outside the memory.
pub fn runs_trap_outside()
    ensures { RunsTrapOutside }
{}

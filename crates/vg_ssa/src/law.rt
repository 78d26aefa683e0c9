//! What numbered values promise.

ghost use Rattle.vg_ssa.specs.Laws.{ArgumentsFirst, NumberedValuesAreSound, SameAccesses, SameLayouts, UnitsAreTheCost, UnitsRunAsKernels, UnitsTakeEarlier};

/// A law that costs nothing to call: the units of a well-formed kernel leave the memory that the
/// kernel leaves, and trap where it traps.
pub fn units_run_as_kernels()
    ensures { UnitsRunAsKernels }
{}

/// A law: the units of a kernel make its accesses in the same order, and the layouts that respect
/// noalias are the same.
pub fn layouts_are_the_same()
    ensures accesses { SameAccesses }
    ensures layouts { SameLayouts }
{}

/// A law: a kernel has as many units as its scalar cost, and they are numbered after the integer
/// parameters.
pub fn units_are_counted()
    ensures cost { UnitsAreTheCost }
    ensures first { ArgumentsFirst }
{}

/// A law: each unit of a well-formed kernel takes values before it alone.
pub fn units_take_earlier_values()
    ensures { UnitsTakeEarlier }
{}

/// A law: numbered values of a well-formed kernel are sound. Above all the term of a value has its
/// number wherever a run of the units reaches it.
pub fn numbered_values_are_sound()
    ensures { NumberedValuesAreSound }
{}

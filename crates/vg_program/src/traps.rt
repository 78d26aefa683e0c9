//! Where programs trap.

ghost use Rattle.vg_program.specs.Accesses.{TrapsOutside};

/// A law: a program traps exactly where one of its lines reads or writes outside the memory.
pub fn traps_outside()
    ensures { TrapsOutside }
{}

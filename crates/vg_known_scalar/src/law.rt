//! The law on the scalar program of a kernel.

ghost use Rattle.vg_known_scalar.specs.Laws.{ScalarProgramsAreSame};

/// The scalar program of a sound kernel has no difference to it, whatever instances there are: it has
/// the name and the parameters of the kernel, each event as often and in order, and at each store the
/// same term, also where large terms are cut.
pub fn scalar_programs_are_same()
    ensures { ScalarProgramsAreSame }
{}

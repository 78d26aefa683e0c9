//! How long the texts of programs are.

ghost use Rattle.vg_program.specs.Sizes.{BodiesAreShort, ShortProgramsFit};

/// A law: a line of a program of at most 12,288 lines that keeps the rules has at most 163 bytes,
/// where the instructions take at most four registers.
pub fn bodies_are_short()
    ensures { BodiesAreShort }
{}

/// A law: a program of at most 12,288 lines that keeps the rules is valid, where the instructions
/// take at most four registers.
pub fn short_programs_fit()
    ensures { ShortProgramsFit }
{}

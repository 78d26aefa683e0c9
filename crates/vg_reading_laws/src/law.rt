//! The laws of what is read.

ghost use Rattle.vg_reading_laws.specs.Laws.{
  KernelsAreALanguage,
  InstructionFilesAreALanguage,
  ProgramsAreALanguage,
  GuardedTextsAreALanguage,
  LoopedTextsAreALanguage,
  GuardedLoopsAreALanguage,
};

/// A law: a text of the language of kernels is read as the one kernel that it spells, and a text is
/// refused exactly where it spells none.
pub fn kernels_are_a_language()
    ensures { KernelsAreALanguage }
{}

/// A law: the text of an instruction file is read as the one list of entries that it has, and a
/// text is refused exactly where it has none.
pub fn instruction_files_are_a_language()
    ensures { InstructionFilesAreALanguage }
{}

/// A law: the text of a program that is valid for some headers is read as this one program, and a
/// text is refused exactly where it is that of no such program.
pub fn programs_are_a_language()
    ensures { ProgramsAreALanguage }
{}

/// A law: the text of a guarded program that keeps the rules is read as this one, and a text is
/// refused exactly where it is that of none.
pub fn guarded_texts_are_a_language()
    ensures { GuardedTextsAreALanguage }
{}

/// A law: the text of a looped program that keeps the rules is read as this one, and a text is
/// refused exactly where it is that of none.
pub fn looped_texts_are_a_language()
    ensures { LoopedTextsAreALanguage }
{}

/// A law: the text of a guarded loop that keeps the rules is read as this one, and a text is
/// refused exactly where it is that of none.
pub fn guarded_loops_are_a_language()
    ensures { GuardedLoopsAreALanguage }
{}

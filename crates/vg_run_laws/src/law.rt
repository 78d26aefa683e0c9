//! The laws on running what was compiled, and on answers.

ghost use Rattle.vg_run_laws.specs.Laws.{
  ProgramsRunAsKernels,
  GuardedTextsRunAsKernels,
  LoopedTextsRunAsLoops,
  GuardedLoopsRunAsLoops,
  CompiledTextsRunAsEvaluated,
};
ghost use Rattle.vg_run_laws.specs.OneAnswer.{OneAnswer};
ghost use Rattle.vg_run_laws.specs.SameWithMore.{SameWithMore};

use vg_check::same_is_told_with_more;

/// A law: the text of a program that is compiled of a kernel is read, and `run` answers on it what
/// `eval` answers on the kernel, for every memory and all words that bind places which keep what
/// the kernel says of noalias.
pub fn programs_run_as_kernels()
    ensures { ProgramsRunAsKernels }
{}

/// A law: the same of the guarded text that is compiled of a kernel.
pub fn guarded_texts_run_as_kernels()
    ensures { GuardedTextsRunAsKernels }
{}

/// A law: the same of the looped text that is compiled of a loop.
pub fn looped_texts_run_as_loops()
    ensures { LoopedTextsRunAsLoops }
{}

/// A law: the same of the guarded loop that is compiled of a loop.
pub fn guarded_loops_run_as_loops()
    ensures { GuardedLoopsRunAsLoops }
{}

/// A law: where `compile` wrote a text and that text, the files that it was compiled of and a
/// memory lie on a shelf, the request `run` has the outcome there that `eval` has.
pub fn compiled_texts_run_as_evaluated()
    ensures { CompiledTextsRunAsEvaluated }
{}

/// A law: by the files that a shelf holds there is at most one text that answers the words of a
/// command line, whichever command they name. So `compile` writes the same bytes for the same
/// files and options.
pub fn one_answer()
    ensures { OneAnswer }
{}

/// A law: where `check` of three files is answered, which it is by `same` alone, the same words with
/// `--more` among them have the same verdict: they are answered too, and by `same`.
pub fn same_with_more()
    ensures { SameWithMore }
{
    same_is_told_with_more();
}

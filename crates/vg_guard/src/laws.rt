//! Laws of guards.

ghost use Rattle.vg_guard.specs.Laws.{ChecksKeepApart, ChecksKeepRules, GuardedProgramsFit, NoaliasIsWellFormed};
ghost use Rattle.vg_guard.specs.OneGuarded.{OneGuardedIsCompiled};

/// A law: where the checks of a well-formed kernel hold, a layout that respects the kernel's own
/// noalias respects noalias on every pointer.
pub fn checks_keep_apart()
    ensures { ChecksKeepApart }
{}

/// A law: a well-formed kernel with every pointer noalias is well formed.
pub fn noalias_is_well_formed()
    ensures { NoaliasIsWellFormed }
{}

/// A law: the checks of a well-formed kernel keep the rules on checks, and are at most 120.
pub fn checks_keep_rules()
    ensures { ChecksKeepRules }
{}

/// A law: two valid programs with one name and the same parameters, of at most 12,288 lines each,
/// and at most 120 checks of their pointers that keep the rules on checks, keep the rules on
/// guarded texts, the bound on the text among them, where the instructions take at most four
/// registers.
pub fn guarded_programs_fit()
    ensures { GuardedProgramsFit }
{}

/// A law: two guarded programs that are compiled of a kernel by the same entries, set of extensions
/// and width, both with more plans or both without, are the same, and so have one text.
pub fn one_guarded_is_compiled()
    ensures { OneGuardedIsCompiled }
{}

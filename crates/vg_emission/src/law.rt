//! What emitted programs promise.

ghost use Rattle.vg_emission.specs.Costs.{EmittedCostsThePlan};
ghost use Rattle.vg_emission.specs.Fit.{EmittedCallsDescribed, EmittedKeepsRules};
ghost use Rattle.vg_emission.specs.Laws.{EmittedMeansUnits};
ghost use Rattle.vg_emission.specs.Scalar.{NoPacksAreScalar};
ghost use Rattle.vg_emission.specs.TwoWords.{TwoLines, TwoWordsMeanUnits};

/// A law that costs nothing to call: the program that is emitted for the packs of a kernel in any
/// legal order leaves the memory that the units of the kernel leave one after the other, or traps
/// where they do, in each layout that respects noalias.
pub fn emitted_programs_mean_their_units()
    ensures { EmittedMeansUnits }
{}

/// A law: of two words that are copied, one vector load and one vector store are emitted.
pub fn two_words_are_two_lines()
    ensures { TwoLines }
{}

/// A law: these two lines mean the two loads and the two stores; they meet all that the law on emitted
/// programs wants.
pub fn two_words_mean_their_units()
    ensures { TwoWordsMeanUnits }
{}

/// A law: the program that is emitted for packs costs what they cost as a plan, where each recipe
/// costs what the plan counts for its operand.
pub fn emitted_programs_cost_their_plans()
    ensures { EmittedCostsThePlan }
{}

/// A law: the program that is emitted for packs keeps the rules on programs, whatever the length of its
/// text is, where the descriptions are those of the instructions.
pub fn emitted_programs_keep_the_rules()
    ensures { EmittedKeepsRules }
{}

/// A law: the program that is emitted for packs calls described instances alone.
pub fn emitted_programs_call_described_instances()
    ensures { EmittedCallsDescribed }
{}

/// A law: what is emitted for no packs is the scalar program of the kernel.
pub fn no_packs_are_scalar()
    ensures { NoPacksAreScalar }
{}

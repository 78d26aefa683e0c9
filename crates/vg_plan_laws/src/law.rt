//! What plans of kernels promise of the programs that are emitted for them.

ghost use Rattle.vg_plan_laws.specs.Laws.{CallsHold, ChosenFedProgramsAreRight, ChosenProgramsAreRight, KernelsAreSmall, OperandsAreSound, PacksAreRight, PlansAreFit, PlansAreMade, PlansArePlanned, PlansKeepPromises, ProgramsCallDescribed, ProgramsCostTheirPlans, ProgramsKeepTheRules, ProgramsMeanTheirUnits, RecipesFill, RunsStayInWidths, ShufflesFill};
ghost use Rattle.vg_plan_laws.specs.TwoSumsProgram.{TwoSumsLines, TwoSumsMeanUnits};

/// A law that costs nothing to call: each pack of a plan is a store group, loads that stand beside
/// each other in memory, or the call of a description whose lanes match.
pub fn plans_are_made()
    ensures { PlansAreMade }
{}

/// A law: where descriptions are true, what a matched call gives has in its lanes the numbers of
/// their values, on registers that fill its operands.
pub fn calls_hold()
    ensures { CallsHold }
{}

/// A law: the operands of the packs of a plan have sound slots in registers that there are.
pub fn operands_are_sound()
    ensures { OperandsAreSound }
{}

/// A law: a run of a sound kernel gives each value a number below 2 to its width.
pub fn runs_stay_in_widths()
    ensures { RunsStayInWidths }
{}

/// A law: the packs of a plan are packs of the kernel, and no unit stands in them twice.
pub fn packs_are_right()
    ensures { PacksAreRight }
{}

/// A law: lines can be emitted from a plan by the recipes that its operands take.
pub fn plans_are_planned()
    ensures { PlansArePlanned }
{}

/// A law: where descriptions are true, what a shuffle gives fills the operand that takes it, on
/// registers that hold its packs.
pub fn shuffles_fill()
    ensures { ShufflesFill }
{}

/// A law: where descriptions are true, the recipe of a sound operand fills it.
pub fn recipes_fill()
    ensures { RecipesFill }
{}

/// A law: where descriptions are true, the recipes and the calls of a plan keep what they promise.
pub fn plans_keep_promises()
    ensures { PlansKeepPromises }
{}

/// A law: where the descriptions of a plan are those of instructions, its calls have their lanes in
/// their registers, and its recipes give registers as wide as their operands.
pub fn plans_are_fit()
    ensures { PlansAreFit }
{}

/// A law: where descriptions are true, the program of a plan in any legal order leaves the memory
/// that the units of the kernel leave one after the other, or traps where they do, in each layout
/// that respects noalias.
pub fn programs_of_plans_mean_their_units()
    ensures { ProgramsMeanTheirUnits }
{}

/// A law: the program of a plan costs what the plan costs.
pub fn programs_of_plans_cost_their_plans()
    ensures { ProgramsCostTheirPlans }
{}

/// A law: the program of a plan keeps the rules on programs, whatever the length of its text is,
/// where the descriptions are those of the instructions and the cost is below 2 ^ 32.
pub fn programs_of_plans_keep_the_rules()
    ensures { ProgramsKeepTheRules }
{}

/// A law: the program of a plan calls described instances alone.
pub fn programs_of_plans_call_described_instances()
    ensures { ProgramsCallDescribed }
{}

/// A law: of a sum of two arguments that is made twice and stored, eight lines are emitted: each
/// argument is put into a register, one call adds them, and one line stores both sums.
pub fn two_sums_are_eight_lines()
    ensures { TwoSumsLines }
{}

/// A law: these eight lines mean the two sums and the two stores, where the instance adds four
/// words; they meet all that the law on programs of plans wants.
pub fn two_sums_mean_their_units()
    ensures { TwoSumsMeanUnits }
{}

/// A law: a sound kernel has at most 12,288 units.
pub fn kernels_are_small()
    ensures { KernelsAreSmall }
{}

/// A law: where descriptions are true and those of instructions, the program of the chosen plan
/// means the units, costs no more than there are units, and keeps the rules on programs, whatever
/// the length of its text is.
pub fn chosen_programs_are_right()
    ensures { ChosenProgramsAreRight }
{}

/// A law: the same of the plan that is chosen where load groups may feed operands and store groups are
/// aligned.
pub fn chosen_fed_programs_are_right()
    ensures { ChosenFedProgramsAreRight }
{}

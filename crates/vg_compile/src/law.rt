//! Laws on programs of kernels.

ghost use Rattle.vg_compile.specs.Laws.{MorePlansCostNoMore, UnitsMeanKernels};
ghost use Rattle.vg_compile.specs.OnePlan.{CompileMoreCostsNoMore, OneChosenPlan, OneProgramIsCompiled, OneTextIsExplained};

/// A law that costs nothing to call: a program that means units which do as a kernel does in each layout
/// that respects its noalias, and has its name and parameters, means the kernel.
pub fn units_mean_kernels()
    ensures { UnitsMeanKernels }
{}

/// A law: what is compiled with more plans costs at most what the chosen plan, the chosen wide plan, the
/// chosen fed plan, the empty plan, the plain plan and the careful plain plan cost, and what each plan that
/// the fed search keeps costs when it is completed; and in a kernel of at most 256 units at most what any
/// plan, wide plan or fed plan of aligned store groups costs where no lesser size is crowded.
pub fn more_plans_cost_no_more()
    ensures { MorePlansCostNoMore }
{}

/// A law: two chosen plans of a kernel have the same matches and packs and cost the same, and so
/// have two chosen wide plans and two chosen fed plans.
pub fn there_is_one_plan()
    ensures { OneChosenPlan }
{}

/// A law: two programs that are compiled of a kernel by the same entries, set of extensions and
/// width, both with more plans or both without, cost the same, and one with more plans costs at
/// most what one without costs.
pub fn compile_more_costs_no_more()
    ensures { CompileMoreCostsNoMore }
{}

/// A law: two programs that are compiled of a kernel by the same entries, set of extensions and
/// width, both with more plans or both without, are the same program, and so have one text.
pub fn one_program_is_compiled()
    ensures { OneProgramIsCompiled }
{}

/// A law: the lines on the plan of a kernel, with more plans or without, are one text.
pub fn one_text_is_explained()
    ensures { OneTextIsExplained }
{}

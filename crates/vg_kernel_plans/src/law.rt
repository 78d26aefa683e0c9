//! What plans of kernels promise.

ghost use Rattle.vg_kernel_plans.specs.FedLaws.{ChosenFedPlansAreOptimal, ChosenFedPlansFit, LoadGroupsArePacks, PlansHoldByChoice, PlansMayBeFed};
ghost use Rattle.vg_kernel_plans.specs.Rows.{GroupRows};
ghost use Rattle.vg_kernel_plans.specs.Laws.{ChosenPlansAreOptimal, ChosenPlansFit, KernelPacksAreApart, KernelPlansAreShort, KernelPlansGoByPacks};

/// A law that costs nothing to call: what may follow a plan and what it costs go by its packs, in
/// whatever order they stand.
pub fn kernel_plans_go_by_packs()
    ensures { KernelPlansGoByPacks }
{}

/// A law: the plain and the chosen plan are plans, and the chosen one costs at most as much as the
/// plain and as the empty one.
pub fn chosen_plans_fit()
    ensures { ChosenPlansFit }
{}

/// A law: where no size below that of a plan is crowded, the chosen plan costs at most as much.
pub fn chosen_plans_are_optimal()
    ensures { ChosenPlansAreOptimal }
{}

/// A law: no unit is in two packs of a plan.
pub fn kernel_packs_are_apart()
    ensures { KernelPacksAreApart }
{}

/// A law: a plan has at most as many packs as there are units.
pub fn kernel_plans_are_short()
    ensures { KernelPlansAreShort }
{}

/// A law: whatever is tried, what may follow a plan and what it costs go by its packs, no unit is in two
/// of them, there are no more than units, and the plan is one of those that may be fed, of the same cost.
pub fn plans_hold_by_choice()
    ensures { PlansHoldByChoice }
{}

/// A law: plans of store groups and producers are among those that may be fed.
pub fn plans_may_be_fed()
    ensures { PlansMayBeFed }
{}

/// A law: each load group is a load pack of at most 64 loads.
pub fn load_groups_are_packs()
    ensures { LoadGroupsArePacks }
{}

/// A law: the plain plan of aligned store groups, the careful one, completed ones, and the one that is
/// chosen beside them are plans that may be fed; and the chosen one costs at most as much as the others.
pub fn chosen_fed_plans_fit()
    ensures { ChosenFedPlansFit }
{}

/// A law: where no size below that of a plan that may be fed is crowded, the plan that is chosen beside
/// completed ones costs at most as much.
pub fn chosen_fed_plans_are_optimal()
    ensures { ChosenFedPlansAreOptimal }
{}

/// A law: the load groups, what feeds operands, and the aligned store groups of small kernels, as they are
/// read off.
pub fn small_kernels_have_groups()
    ensures { GroupRows }
{}

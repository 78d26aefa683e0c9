//! Laws on plans.

ghost use Rattle.vg_plans.specs.Laws.{ArePlans, ChosenFedIsLeast, ChosenIsOptimal, CompletedArePlans, LeavingOutIsOne, OthersAreNoCycles, PacksAreApart, PlansAreShort, PlansGoByPacks, PlansStayPlans, RecipesStay, StableSortsAreOne, WaysBackAreCycles};

/// Where no size below that of a plan is crowded, no plan of that size costs less than the chosen one.
pub fn chosen_is_optimal()
    ensures { ChosenIsOptimal }
{}

/// What may follow a plan and what it costs go by its packs, in whatever order they stand.
pub fn plans_go_by_packs()
    ensures { PlansGoByPacks }
{}

/// The plain plan and the chosen plan are plans.
pub fn plans_are_plans()
    ensures { ArePlans }
{}

/// A plan that is completed, the careful plan and the plan that is chosen beside them are plans.
pub fn completed_are_plans()
    ensures { CompletedArePlans }
{}

/// Where no size below that of a plan is crowded, the plan that is chosen beside completed ones costs
/// at most as much; and it costs at most as much as the plain plan, the careful plan, and the completed
/// plan of each that is kept.
pub fn chosen_fed_is_least()
    ensures { ChosenFedIsLeast }
{}

/// Whatever packs are tried, a plan costs the same; and where more are tried, plans stay plans.
pub fn plans_stay_plans()
    ensures { PlansStayPlans }
{}

/// A pack from which one of its own units is reached closes a cycle.
pub fn ways_back_are_cycles()
    ensures { WaysBackAreCycles }
{}

/// A new pack from which other units alone are reached closes no cycle.
pub fn others_are_no_cycles()
    ensures { OthersAreNoCycles }
{}

/// A unit is in one pack of a plan.
pub fn packs_are_apart()
    ensures { PacksAreApart }
{}

/// A plan has at most as many packs as there are units.
pub fn plans_are_short()
    ensures { PlansAreShort }
{}

/// A pack that has none of an operand's values changes neither the cost of its recipe nor its inserts.
pub fn recipes_stay()
    ensures { RecipesStay }
{}

/// Values left out one after the other are those left out from the front.
pub fn leaving_out_is_one()
    ensures { LeavingOutIsOne }
{}

/// A stable sort by a key has one answer.
pub fn stable_sorts_are_one()
    ensures { StableSortsAreOne }
{}

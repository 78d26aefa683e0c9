//! What the list of producers promises, what packs hold, and what plans are.

ghost use Rattle.vg_plan_relations.specs.Laws.{HoldsIsTold, PlansArePlansByNodes, PlansByChoiceArePlansByNodes, PlansByNodesMayBeFed, ProducersAreListed, SoundOperandsRise};
ghost use Rattle.vg_plan_relations.specs.SwappedLoads.{SwappedLoadsAreFed};
ghost use Rattle.vg_plan_relations.specs.TwoSums.{TwoSumsArePlanned};

/// A law that costs nothing to call: each pack of the list of producers produces the operand, and
/// each pack that does is in the list, once. The descriptions are packable, the matches are those of
/// all lanes with all values, and the slots of the operand stand by rising low bit.
pub fn producers_are_listed()
    ensures { ProducersAreListed }
{}

/// A law: the slots of a sound operand stand by rising low bit, as the law on producers wants it.
pub fn sound_operands_rise()
    ensures { SoundOperandsRise }
{}

/// A law: a pack passes the test whether it holds an operand exactly where its register is as wide,
/// some slot wants something, and each slot that does is a lane of the pack.
pub fn holds_is_told()
    ensures { HoldsIsTold }
{}

/// A law that costs nothing to call: by the list of all dependences of a kernel, a list of packs is
/// a plan that grows from the empty one exactly where each pack is a store group or produces an
/// operand of an earlier pack, no unit stands in two packs, and neither the list nor a prefix of it
/// has a cycle among its nodes. The descriptions are packable, and the matches are all.
pub fn plans_are_plans_by_nodes()
    ensures { PlansArePlansByNodes }
{}

/// A law: the same by each choice of what is tried: of all store groups or of the aligned ones alone,
/// and with load groups or without. A fed plan grows from the empty one exactly where each pack is a
/// store group, produces an operand of an earlier pack, or is a load group that feeds one.
pub fn plans_by_choice_are_plans_by_nodes()
    ensures { PlansByChoiceArePlansByNodes }
{}

/// A law: by packs, units and nodes, a plan without feeding is one by the choice of all store groups
/// and no load groups, and the other way; and a plan by any choice is a fed plan.
pub fn plans_by_nodes_may_be_fed()
    ensures { PlansByNodesMayBeFed }
{}

/// A law on one kernel: two sums that are stored beside each other have a plan by packs, units and
/// nodes, a store group and a call that produces its operand.
pub fn two_sums_are_planned()
    ensures { TwoSumsArePlanned }
{}

/// A law on one kernel: two words that are loaded, and stored in each other's place, have a plan where
/// load groups feed operands, a store group and a load group, and it is a plan only there.
pub fn swapped_loads_are_fed()
    ensures { SwappedLoadsAreFed }
{}

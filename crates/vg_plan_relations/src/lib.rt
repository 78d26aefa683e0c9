//! Packs that produce or hold operands, and plans, in the words of relations: over slots, lanes,
//! units and nodes.
//!
//! `specs/Produces.antt` says when a pack produces an operand and when it holds one, and
//! `specs/Plans.antt` when a list of packs is a plan, without load groups that feed operands or with
//! them. The laws join them to the lists and tests of `vg_kernel_plans`, by which packs are found and plans
//! grow. `specs/TwoSums.antt` has a small kernel, an instance, and a plan with a call, and
//! `specs/SwappedLoads.antt` a small kernel with a plan that is fed.
#![tactic(auto)]

mod law;

pub use law::{
    holds_is_told, plans_are_plans_by_nodes, plans_by_choice_are_plans_by_nodes,
    plans_by_nodes_may_be_fed, producers_are_listed, sound_operands_rise, swapped_loads_are_fed,
    two_sums_are_planned,
};

//! Instances of laws.

ghost use Rattle.vg_instance_laws.specs.SummedSwap.{SummedSwapIsSame};
ghost use Rattle.vg_instance_laws.specs.Swap.{SwapIsSame};
ghost use Rattle.vg_instance_laws.specs.WidePlan.{WidePlanMeansUnits};

use vg_known::same_means_units;
use vg_names::resolved_operations_are_proper;

/// A kernel that stores two words turned, and a program that loads both into a register, turns them
/// by a call and stores them: it has no difference to the kernel, keeps the rules over an accepted
/// entry, and means the kernel.
pub fn swap_is_same()
    ensures { SwapIsSame }
{
    resolved_operations_are_proper();
    same_means_units();
}

/// The same where one word is stored five times, which the program adds up of the word and four times
/// the word: it has a difference to the kernel, but no wider one, and means the kernel.
pub fn summed_swap_is_same()
    ensures { SummedSwapIsSame }
{
    resolved_operations_are_proper();
    same_means_units();
}

/// A kernel with cut terms, all matches of two instances with its values, a plan of three packs and
/// an order of it: what is planned and emitted means the units. One call fits its values cut, the
/// other turned.
pub fn wide_plan_means_units()
    ensures { WidePlanMeansUnits }
{}

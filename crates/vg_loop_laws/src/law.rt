//! The laws of counted loops.

ghost use Rattle.vg_loop_laws.specs.Laws.{
  UnrolledAreTurns,
  BlocksAndRestAreTurns,
  BlocksRespect,
  BlocksMeanLoop,
  UnrolledIsWellFormed,
  UnrolledCosts,
  OneTurnIsTheKernel,
  FewerKeepLimits,
  TurnsAreMost,
};

/// A law: the kernel of so many turns leaves what the turns leave one by one, each with its places, and
/// traps where they do.
pub fn unrolled_are_turns()
    ensures { UnrolledAreTurns }
{}

/// A law: blocks of turns, and then the turns that are left over, are the turns one by one, traps included.
pub fn blocks_and_rest_are_turns()
    ensures { BlocksAndRestAreTurns }
{}

/// A law: where the accesses of all turns keep what `noalias` says, those of some turns in one kernel keep it.
pub fn blocks_respect()
    ensures { BlocksRespect }
{}

/// A law: blocks that mean the kernel of so many turns, and a rest that means the kernel of one, mean the loop.
pub fn blocks_mean_loop()
    ensures { BlocksMeanLoop }
{}

/// A law: the kernel of so many turns that keeps the limits is well formed.
pub fn unrolled_is_well_formed()
    ensures { UnrolledIsWellFormed }
{}

/// A law: the kernel of so many turns costs so many times what the kernel of one costs.
pub fn unrolled_costs()
    ensures { UnrolledCosts }
{}

/// A law: the kernel of one turn is the kernel of the loop.
pub fn one_turn_is_the_kernel()
    ensures { OneTurnIsTheKernel }
{}

/// A law: fewer turns than some that keep the limits keep them.
pub fn fewer_keep_limits()
    ensures { FewerKeepLimits }
{}

/// A law: the turns of a block keep the limits, and more of those that a block may have do not.
pub fn turns_are_most()
    ensures { TurnsAreMost }
{}

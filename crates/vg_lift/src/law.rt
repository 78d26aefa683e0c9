//! What the terms of lanes mean.

ghost use Rattle.vg_lift.specs.Means.{LaneTermsMeanTheirLanes, LeavesAreParameters};

/// A law that costs nothing to call: in an instance of which no slice and no shift depends on data,
/// the term of a lane is well-formed, has the width of the lane, and its value in the environment of
/// the parameters is the lane of what the script leaves in dst, for all bits of the parameters.
pub fn lane_terms_mean_their_lanes()
    ensures { LaneTermsMeanTheirLanes }
{}

/// A law that costs nothing to call: each leaf of the term of a lane is bits inside a parameter.
pub fn leaves_are_parameters()
    ensures { LeavesAreParameters }
{}

//! What a script of an instance means, and that an instance has one where it is accepted.

ghost use Rattle.vg_range.specs.Kept.{AcceptedAreWritten};
ghost use Rattle.vg_range.specs.Meant.{InstancesMean};

/// A law that costs nothing to call: in an accepted instance the script leaves in `dst` the bits that the operation means
/// in exact whole numbers, for all numbers of the parameters, and its words and slices keep their widths. Whoever runs or
/// lifts a script stands on it, and looks at no interval again.
pub fn scripts_mean_their_texts()
    ensures { InstancesMean }
{}

/// A law that costs nothing to call: an instance that is accepted when it is only judged is accepted
/// with its script, with the same knowledge of its numbers and the same counts, and one that is
/// refused is refused with the same fault; and the other way round. Whoever has judged an entry gets
/// each script, and has no refusal to hand on.
pub fn accepted_are_written()
    ensures { AcceptedAreWritten }
{}

//! The laws on the first difference.

ghost use Rattle.vg_known.specs.Laws.{EqualitiesAreSound, SameIsSameWithMore, SameMeansUnits};
ghost use Rattle.vg_known.specs.OneWord.{BytesMeanTheWord};

/// Terms that count as equal, with more or as they stand, have one value wherever the leaf of each class has
/// the value of the class's term.
pub fn equalities_are_sound()
    ensures { EqualitiesAreSound }
{}

/// Where a valid program has no difference to a sound kernel, with more or without, it leaves what the units of
/// the kernel leave, or traps where they do, in each layout that respects noalias: whatever calls give, if the
/// lanes of the instances that are called say what that is.
pub fn same_means_units()
    ensures { SameMeansUnits }
{}

/// A program without a difference has no wider one.
pub fn same_is_same_with_more()
    ensures { SameIsSameWithMore }
{}

/// A word that is stored byte by byte, the upper byte first, has no difference to its store and means it: it
/// meets all that the law above wants.
pub fn bytes_mean_the_word()
    ensures { BytesMeanTheWord }
{}

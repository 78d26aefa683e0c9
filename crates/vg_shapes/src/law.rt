//! What the leaves of lane terms read, and what terms keep when they fit.

ghost use Rattle.vg_shapes.specs.Fits.{ReplacedKeepNumbers, TurnedKeepNumbers};
ghost use Rattle.vg_shapes.specs.Matches.{WideIsWhole};
ghost use Rattle.vg_shapes.specs.Registers.{LeavesRead};

/// A law that costs nothing to call: in the environment of registers a leaf of so many bits of a
/// parameter from a bit on is the number of these bits of the register; past its end are zeros.
pub fn leaves_read_registers()
    ensures { LeavesRead }
{}

/// A law: a term whose leaves are replaced by terms of their widths, each of which has the number of
/// its leaf, has the number of the term.
pub fn replaced_leaves_keep_numbers()
    ensures { ReplacedKeepNumbers }
{}

/// A law: a term whose operands are exchanged at the root, as a lane may fit it turned, is
/// well-formed and has the width and the number of the term.
pub fn turned_terms_keep_numbers()
    ensures { TurnedKeepNumbers }
{}

/// A law: where a kernel has no cut terms, the table of matches is that of whole terms.
pub fn without_cuts_matches_are_whole()
    ensures { WideIsWhole }
{}

//! Laws on the lanes of entries.

ghost use Rattle.vg_entry_lanes.specs.Laws.{FileHeadersHaveLanes, LiftedAreLanes};

/// A law that costs nothing to call: lanes of the width that a header of a file names fill its result.
pub fn file_headers_have_lanes()
    ensures { FileHeadersHaveLanes }
{}

/// A law: the lanes that `vg_lift` makes of an instance are lanes that `vg_lanes` describes.
pub fn lifted_lanes_are_lanes()
    ensures { LiftedAreLanes }
{}

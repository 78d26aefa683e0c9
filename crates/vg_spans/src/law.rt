//! What the spans of values promise.

ghost use Rattle.vg_spans.specs.Laws.{SpansAreReadable, SpansHold};

/// A law that costs nothing to call: the span of a value of a sound kernel has numbers of one
/// reading of its width alone, and the number of the value is in it wherever a run reaches it.
pub fn spans_hold()
    ensures readable { SpansAreReadable }
    ensures hold { SpansHold }
{}

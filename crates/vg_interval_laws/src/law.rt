//! That each end of an interval is made of some operands.

ghost use Rattle.vg_interval_laws.specs.Made.{EndsAreMade};

/// A law that costs nothing to call: each end of the interval of an operator or function is what it
/// makes of some numbers of the intervals of its operands, so that the interval is the least one. For
/// AND, OR, XOR and comparisons, and for functions that take the lowest bits, whose intervals go by a
/// number of bits, it is what they make of some numbers of that very interval.
pub fn ends_are_made()
    ensures { EndsAreMade }
{}

//! What names resolve to is proper, what is read may be resolved, and signs are decided.

ghost use Rattle.vg_names.specs.Decided.{SignsAreDecided};
ghost use Rattle.vg_names.specs.Reading.{NarrowAreWritten, ReadAreWritten};
ghost use Rattle.vg_names.specs.Written.{ResolvedAreProper};

/// A law that costs nothing to call: an operation that a text can say, its names resolved, writes no parameter, has
/// registers of at most 2^127 bits and arms of numbers below 2^127. The law on scripts asks for no more.
pub fn resolved_operations_are_proper()
    ensures { ResolvedAreProper }
{}

/// A law that costs nothing to call: an operation that is read from a text says no number of an arm
/// and no highest bit of 2^127 or more. A lexer stands in a text so that this holds of what is read
/// there, and it goes on to hold after each word and after the operation.
pub fn operations_that_are_read_are_written()
    ensures { ReadAreWritten }
{}

/// A law that costs nothing to call: a local is signed as far as is shown in as many steps as there
/// are assignments exactly where that is shown in finitely many steps.
pub fn signs_are_decided()
    ensures { SignsAreDecided }
{}

/// A law that costs nothing to call: a header whose registers have 128, 256 or 512 bits says no more
/// bits than a text can say, and with an operation that is read from a text it is an entry that a
/// text can say.
pub fn narrow_headers_are_written()
    ensures { NarrowAreWritten }
{}

//! The laws of sums, each a function that costs nothing to call.

ghost use Rattle.vg_sums.specs.Laws.{SameSumsAreEqual, SumsAreCongruent};

/// In every environment the value of the sum of a term of w bits is congruent to the number of the term modulo
/// 2^w, and lies in the span of the sum where it has one.
pub fn sums_are_congruent()
    ensures { SumsAreCongruent }
{}

/// Two terms of w bits whose sums are equal coefficient by coefficient modulo 2^w have equal values in every
/// environment.
pub fn same_sums_are_equal()
    ensures { SameSumsAreEqual }
{}
